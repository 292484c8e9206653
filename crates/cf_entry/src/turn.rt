//! Why operations turn, and what they leave behind.
ghost use Rattle.std.specs.Prelude.{◌≡◌};
ghost use Rattle.cf_entry.specs.Numbers.{why_number, phase_number, reason_number, has_cause};

use cf_tree::{Code, Txt};

/// A phase of an operation behind the first one.
#[derive(Clone, Copy, Debug, PartialEq, Eq)]
pub enum Phase {
    /// What the new template replaced or left out is deleted.
    Clean,
    /// The stack goes back to what it was.
    Back,
    /// What an update made is deleted, once all that it changed is back.
    BackClean,
}

/// Why an operation turned back.
#[derive(Debug, Drop, PartialEq, Eq)]
pub enum Cause {
    /// A request for the resource at a path was refused, or broke off.
    Handler { path: Txt, reason: Reason },
    /// What the template asks for could not be worked out; the text tells the fault.
    Plan { fault: Txt },
    /// An export that another stack uses would be gone at the end of an update, or have another value.
    Export { name: Txt },
}

/// What a handler did.
#[derive(Clone, Copy, Debug, PartialEq, Eq)]
pub enum Reason {
    /// It refused with this code.
    Code(Code),
    /// The call broke off.
    Fault,
}

/// Why a resource became a leftover.
#[derive(Clone, Copy, Debug, PartialEq, Eq)]
pub enum Why {
    /// Its policy or the command keeps it.
    Retained,
    /// It could not be deleted.
    Failed,
    /// It is not known whether it is there.
    Doubt,
}

impl Phase {
    /// Its number in the journal.
    pub fn number(self) -> u8
        ensures { result ≡ phase_number self }
    {
        match self {
            Phase::Clean => 2,
            Phase::Back => 3,
            Phase::BackClean => 4,
        }
    }
}

impl Why {
    /// Its number in the journal.
    pub fn number(self) -> u8
        ensures { result ≡ why_number self }
    {
        match self {
            Why::Retained => 1,
            Why::Failed => 2,
            Why::Doubt => 3,
        }
    }
}

impl Reason {
    /// Its number in the journal: that of the code, or 0.
    pub fn number(self) -> u8
        ensures { result ≡ reason_number self }
    {
        match self {
            Reason::Code(code) => code.number(),
            Reason::Fault => 0,
        }
    }
}

impl Phase {
    /// Whether a cause stands where it has to: exactly where the operation turns back.
    pub fn has_cause(self, cause: &Option<Cause>) -> bool
        ensures { result ≡ has_cause self cause.now }
    {
        matches!(
            (self, cause),
            (Phase::Back, Some(_)) | (Phase::Clean, None) | (Phase::BackClean, None)
        )
    }
}
