//! What is asked of a stack, what it orders, and why it is refused.
use cf_desired::Flaw;
use cf_entry::{Entry, Status};
use cf_tree::{Names, Source, Txt};
use std::alloc::AllocError;

/// What is asked of a stack. A source's own name of a stack, number and imports don't count.
#[derive(Drop)]
pub enum Wish {
    /// Create the stack from a source, or give it another one.
    Deploy { stack: Txt, source: Source },
    /// Keep what that would change as a change set.
    Review { stack: Txt, source: Source },
    /// Do what a change set tells.
    Execute { stack: Txt, number: u64 },
    /// Delete the stack, and keep the resources at these paths.
    Delete { stack: Txt, paths: Names },
    /// Go on with a rollback that failed, and skip the resources at these paths.
    Continue { stack: Txt, paths: Names },
    /// Go on with the operation in progress.
    Resume { stack: Txt },
}

/// What a wish orders.
#[derive(Drop)]
pub enum Order {
    /// An operation begins: its entry `Begin`.
    Begin(Entry),
    /// A change set is kept: its entry `ChangeSet`.
    Review(Entry),
    /// The operation of this number goes on.
    Resume(u64),
}

/// Why a stack is refused.
#[derive(Drop)]
pub enum StackFault {
    /// There is no stack of the name.
    NoStack,
    /// No operation of the kind begins, or goes on, from this status.
    WrongStatus { status: Status },
    /// The stack has no change set of the number.
    NoChangeSet { number: u64 },
    /// The path is not among those that failed.
    NotFailed { path: Txt },
    /// The path is held with another type.
    TypeChanged { path: Txt },
    /// Another stack exports or claims the name, or two outputs export it.
    ExportTaken { name: Txt },
    /// Another stack imports the export, which would be gone.
    ExportInUse { name: Txt },
    /// Nothing changes.
    NoChanges,
    /// The changes are no longer those of the change set.
    Outdated { number: u64 },
}

/// Why a wish orders nothing.
#[derive(Drop)]
pub enum PrepareFault {
    /// The stack is refused.
    Stack { fault: StackFault },
    /// The plan of the source has a flaw.
    Plan { flaw: Flaw },
    /// There is no such type as that of the resource at a path.
    UnknownType { path: Txt, name: Txt },
    /// There was no memory, or no number is left.
    NoMemory,
}

impl From<AllocError> for PrepareFault {
    ghost use Rattle.std.specs.Prelude.{◌≡◌};
    ghost use Rattle.cf_prepare.specs.declared.wish.PrepareFault.TheVariants.{NoMemory};

    ghost from_gives = { λ _ e. e ≡ NoMemory };

    fn from(_failed: AllocError) -> PrepareFault {
        PrepareFault::NoMemory
    }
}
