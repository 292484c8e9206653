//! Why a book was not entered.
use cf_journal::RecoverFault;
use cf_tree::{NoMemory, Txt};
use std::alloc::AllocError;

/// Why a book was not entered.
#[derive(Drop)]
pub enum EnterFault {
    /// At this offset the disk holds no journal.
    NotAJournal { offset: u64 },
    /// The disk failed. It has the entries that it had, or the opening besides, and has to be recovered.
    DiskFault,
    /// Two lanes have this name.
    LaneTwice { name: Txt },
    /// A stack has resources or calls on a lane of this name, and none of it and its type was handed in.
    LaneMissing { name: Txt },
    /// The journal's length and the bytes that the opening needs pass the disk's room.
    Full { length: u64, need: u64, room: u64 },
    /// The fence of the lane of this name is not below the epoch of the opening.
    LaneAhead { name: Txt, fence: u64, epoch: u64 },
    /// The lane of this name failed as its fence was raised.
    LaneFault { name: Txt },
    /// Memory was not there.
    NoMemory,
}

impl From<AllocError> for EnterFault {
    ghost use Rattle.std.specs.Prelude.{◌≡◌};
    ghost use Rattle.cf_book.specs.declared.refused.EnterFault.TheVariants as fault;

    ghost from_gives = { λ _ f. f ≡ fault.NoMemory };

    fn from(_refused: AllocError) -> EnterFault {
        EnterFault::NoMemory
    }
}

impl From<NoMemory> for EnterFault {
    ghost use Rattle.std.specs.Prelude.{◌≡◌};
    ghost use Rattle.cf_book.specs.declared.refused.EnterFault.TheVariants as fault;

    ghost from_gives = { λ _ f. f ≡ fault.NoMemory };

    fn from(_refused: NoMemory) -> EnterFault {
        EnterFault::NoMemory
    }
}

impl From<RecoverFault> for EnterFault {
    ghost use Rattle.std.specs.Prelude.{◌≡◌};
    ghost use Rattle.cf_book.specs.Entering.{recovering};

    ghost from_gives = { λ r f. f ≡ recovering r };

    fn from(fault: RecoverFault) -> EnterFault {
        match fault {
            RecoverFault::NotAJournal { offset } => EnterFault::NotAJournal { offset },
            RecoverFault::DiskFault => EnterFault::DiskFault,
            RecoverFault::NoMemory => EnterFault::NoMemory,
        }
    }
}

/// A book that was not entered: why, with the disk and the lanes, in the order in which they were handed in.
pub struct Refused<D, H> {
    pub fault: EnterFault,
    pub disk: D,
    pub lanes: Vec<H>,
}
