//! Why an evaluation gives no value.
use cf_funcs::TextMemory;
use cf_tree::Txt;
use std::alloc::{AllocError, AllocFailed};

/// Why an evaluation has a fault.
#[derive(Clone, Copy, Debug, PartialEq, Eq)]
pub enum EvalWhy {
    /// A name that stands for nothing.
    UnknownName,
    /// A resource that is known and has no such attribute.
    UnknownAttribute,
    /// A mapping that has no such key.
    UnknownMapKey,
    /// An index that is not in the list.
    IndexOutside,
    /// A value of another kind than the one that is wanted there.
    WrongKind,
    /// An export that no other stack has.
    UnknownImport,
    /// A condition that needs itself.
    CircularCondition,
    /// A resource or an output whose condition is false.
    NotMade,
    /// A value whose encoding is longer than 262,144 bytes.
    TooBig,
}

/// Why an evaluation ends without an outcome.
#[derive(Debug, Drop, PartialEq, Eq)]
pub enum EvalFault {
    /// The template is at fault: why, in which nested stack (empty for the root), and at which
    /// place of its template.
    Bad { why: EvalWhy, stack: Txt, at: Txt },
    /// There was no memory.
    NoMemory,
}

/// Why the evaluation of a part stops.
#[derive(Drop)]
pub(crate) enum Stop {
    /// The template is at fault at this place.
    Bad { why: EvalWhy, at: Txt },
    /// The condition with this name is asked for at this place, and is not decided.
    Undecided { name: Txt, at: Txt },
    /// An output of the nested stack at a path is at fault, at a place of its template.
    Below { why: EvalWhy, stack: Txt, at: Txt },
    NoMemory,
}

impl From<AllocError> for Stop {
    ghost use Rattle.std.specs.Prelude.{◌≡◌};
    ghost use Rattle.cf_eval.specs.Memory.{out_of_memory};

    ghost from_gives = { λ _ e. e ≡ out_of_memory };

    fn from(_refused: AllocError) -> Stop {
        Stop::NoMemory
    }
}

impl From<TextMemory> for Stop {
    ghost use Rattle.std.specs.Prelude.{◌≡◌};
    ghost use Rattle.cf_eval.specs.Memory.{out_of_memory};

    ghost from_gives = { λ _ e. e ≡ out_of_memory };

    fn from(_refused: TextMemory) -> Stop {
        Stop::NoMemory
    }
}

impl<T: Drop> From<AllocFailed<T>> for Stop {
    ghost use Rattle.std.specs.Prelude.{◌≡◌};
    ghost use Rattle.cf_eval.specs.Memory.{out_of_memory};

    ghost from_gives = { λ _ e. e ≡ out_of_memory };

    fn from(_refused: AllocFailed<T>) -> Stop {
        Stop::NoMemory
    }
}
