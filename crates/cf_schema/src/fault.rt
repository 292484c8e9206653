use cf_tree::Txt;
use std::alloc::AllocError;

/// Why a schema isn't read.
#[derive(Debug, Drop, PartialEq, Eq)]
pub enum SchemaFault {
    /// `serde_json` doesn't read the bytes, for another cause than memory.
    NotJson,
    /// The schema lacks this member, which every schema has.
    Missing { name: Txt },
    /// This member isn't of the kind that it has to be; with the empty name, the schema itself is no object.
    WrongShape { name: Txt },
    /// This text names no property of the schema.
    BadPointer { text: Txt },
    /// Memory was not there; nothing is said of the bytes.
    NoMemory,
}

impl From<AllocError> for SchemaFault {
    ghost use Rattle.std.specs.Prelude.{◌≡◌};
    ghost use Rattle.cf_schema.specs.Fault.{no_memory};

    ghost from_gives = { λ _ e. e ≡ no_memory };

    fn from(_refused: AllocError) -> SchemaFault {
        SchemaFault::NoMemory
    }
}
