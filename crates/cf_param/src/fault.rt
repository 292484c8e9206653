use cf_tree::{NoMemory, Txt};
use std::alloc::AllocError;

/// Why a template's parameters aren't bound. Each names the parameter.
#[derive(Debug, Drop, PartialEq, Eq)]
pub enum BindFault {
    /// A text is given for a name that the template doesn't declare.
    Undeclared { name: Txt },
    /// Neither a text nor a default is there.
    Missing { name: Txt },
    /// The text, or a member of the list, is no number text.
    NotANumber { name: Txt },
    /// The text has fewer characters than `MinLength`.
    TooShort { name: Txt },
    /// The text has more characters than `MaxLength`.
    TooLong { name: Txt },
    /// The number is below `MinValue`.
    TooSmall { name: Txt },
    /// The number is above `MaxValue`.
    TooLarge { name: Txt },
    /// The text, or a member of the list, is not among `AllowedValues`.
    NotAllowed { name: Txt },
    /// `AllowedPattern` doesn't match the whole text, or a whole member of the list.
    NoMatch { name: Txt },
    /// `AllowedPattern` is no pattern by the grammar of `regex`, or nests deeper than it allows; alone or anchored at both ends.
    BadPattern { name: Txt },
    /// Memory was not there, or the built pattern is larger than `regex` allows; nothing is said of the parameters.
    NoMemory,
}

impl From<AllocError> for BindFault {
    ghost use Rattle.std.specs.Prelude.{◌≡◌};
    ghost use Rattle.cf_param.specs.Fault.{no_memory};

    ghost from_gives = { λ _ e. e ≡ no_memory };

    fn from(_refused: AllocError) -> BindFault {
        BindFault::NoMemory
    }
}

impl From<NoMemory> for BindFault {
    ghost use Rattle.std.specs.Prelude.{◌≡◌};
    ghost use Rattle.cf_param.specs.Fault.{no_memory};

    ghost from_gives = { λ _ e. e ≡ no_memory };

    fn from(_refused: NoMemory) -> BindFault {
        BindFault::NoMemory
    }
}
