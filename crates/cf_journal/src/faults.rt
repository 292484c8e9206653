//! Why the calls of a journal fail.
use cf_disk::DiskFail;
use cf_tree::NoMemory;
use std::alloc::AllocError;
use thiserror::Error;

/// Why an entry was not appended.
#[derive(Debug, Drop, PartialEq, Eq, Error)]
pub enum AppendFault {
    /// The disk has no room for it. Nothing has changed.
    #[error("the journal has {length} bytes and the entry needs {need} more, but the disk has room for {room}")]
    Full { length: u64, need: u64, room: u64 },
    /// The disk failed. The journal must be recovered again, and then has the entry or not.
    #[error("the disk failed while an entry was appended")]
    DiskFault,
}

/// Why a journal was not recovered.
#[derive(Debug, Drop, PartialEq, Eq, Error)]
pub enum RecoverFault {
    /// At this offset the disk holds no journal.
    #[error("the disk holds no journal at offset {offset}")]
    NotAJournal { offset: u64 },
    /// The disk failed.
    #[error("the disk failed while the journal was recovered")]
    DiskFault,
    /// Memory was not there.
    #[error("no memory to recover the journal")]
    NoMemory,
}

impl From<DiskFail> for RecoverFault {
    ghost use Rattle.std.specs.Prelude.{◌≡◌};
    ghost use Rattle.cf_journal.specs.declared.faults.RecoverFault.TheVariants.{DiskFault};

    ghost from_gives = { λ _ e. e ≡ DiskFault };

    fn from(_fail: DiskFail) -> RecoverFault {
        RecoverFault::DiskFault
    }
}

impl From<NoMemory> for RecoverFault {
    ghost use Rattle.std.specs.Prelude.{◌≡◌};
    ghost use Rattle.cf_journal.specs.declared.faults.RecoverFault.TheVariants as recover;

    ghost from_gives = { λ _ e. e ≡ recover.NoMemory };

    fn from(_refused: NoMemory) -> RecoverFault {
        RecoverFault::NoMemory
    }
}

impl From<AllocError> for RecoverFault {
    ghost use Rattle.std.specs.Prelude.{◌≡◌};
    ghost use Rattle.cf_journal.specs.declared.faults.RecoverFault.TheVariants as recover;

    ghost from_gives = { λ _ e. e ≡ recover.NoMemory };

    fn from(_refused: AllocError) -> RecoverFault {
        RecoverFault::NoMemory
    }
}
