ghost use Rattle.std.specs.Prelude.{◌≡◌};
ghost use Rattle.cf_template.specs.Refusals.{fault_number};

use cf_tree::Txt;
use std::alloc::{AllocError, AllocFailed};

/// Why a template isn't read. A place is a JSON pointer (RFC 6901) into the template.
#[derive(Debug, Drop, PartialEq, Eq)]
pub enum TemplateFault {
    /// `serde_json` doesn't read the bytes, for another cause than memory.
    NotJson,
    /// The template has more than 1,048,576 bytes.
    TooLong { length: u64 },
    /// What stands there has not the shape that it must have there.
    WrongShape { path: Txt },
    /// The template has a section that the template language doesn't know.
    UnknownSection { name: Txt },
    /// The version of the template's format is not `2010-09-09`.
    BadVersion,
    /// A null stands there.
    NullValue { path: Txt },
    /// A number stands there that is no signed whole number of 64 bits.
    BadNumber { path: Txt },
    /// The name of that member is not 1 to 255 ASCII letters and digits.
    BadName { path: Txt },
    /// A section has more members than it may have.
    TooMany { what: Txt, count: u64 },
    /// The function there is none that the template language knows.
    UnknownFunction { path: Txt },
    /// CloudFormation knows what stands there, and this engine doesn't take it.
    Unsupported { path: Txt, name: Txt },
    /// Memory was not there; nothing is said of the template.
    NoMemory,
}

impl TemplateFault {
    /// The number that stands for the fault, the same in every version.
    pub fn number(&self) -> u32
        ensures { result ≡ fault_number self.now }
    {
        match self {
            TemplateFault::NotJson => 1,
            TemplateFault::TooLong { .. } => 2,
            TemplateFault::WrongShape { .. } => 3,
            TemplateFault::UnknownSection { .. } => 4,
            TemplateFault::BadVersion => 5,
            TemplateFault::NullValue { .. } => 6,
            TemplateFault::BadNumber { .. } => 7,
            TemplateFault::BadName { .. } => 8,
            TemplateFault::TooMany { .. } => 9,
            TemplateFault::UnknownFunction { .. } => 10,
            TemplateFault::Unsupported { .. } => 11,
            TemplateFault::NoMemory => 12,
        }
    }
}

impl From<AllocError> for TemplateFault {
    ghost use Rattle.std.specs.Prelude.{◌≡◌};
    ghost use Rattle.cf_template.specs.Refusals.{no_memory};

    ghost from_gives = { λ _ e. e ≡ no_memory };

    fn from(_refused: AllocError) -> TemplateFault {
        TemplateFault::NoMemory
    }
}

impl<T: Drop> From<AllocFailed<T>> for TemplateFault {
    ghost use Rattle.std.specs.Prelude.{◌≡◌};
    ghost use Rattle.cf_template.specs.Refusals.{no_memory};

    ghost from_gives = { λ _ e. e ≡ no_memory };

    fn from(_refused: AllocFailed<T>) -> TemplateFault {
        TemplateFault::NoMemory
    }
}
