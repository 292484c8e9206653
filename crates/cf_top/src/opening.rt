//! The journal of a disk and the world that its entries leave.
ghost use Rattle.std.specs.Prelude.{◌≡◌, ◌≤◌, ◌^◌, List, IfOk, IfErr, IsTrue};
ghost use Rattle.cf_disk.specs.Disk.{LeavesOnly};
ghost use Rattle.cf_entry.specs.declared.entry.Entry.{Entry};
ghost use Rattle.cf_journal.specs.Record.{IsOldOrKept, KeepsRecord, Stands};
ghost use Rattle.cf_book.specs.Record.{world_left};
ghost use Rattle.cf_top.specs.Opening.{HasOpenCause, Holds};

use cf_disk::Disk;
use cf_face::Exit;
use cf_journal::{Journal, RecoverFault, recover};
use cf_stacks::{World, fold};
use std::alloc::Global;

/// A journal that is open for more entries, and the world that its entries leave.
pub struct Opened {
    pub journal: Journal,
    pub world: World,
}

/// The journal of a disk and the world that its entries leave; a disk that holds no journal gets a new one.
///
/// After each answer the disk has the entries that it had; bytes that are no journal are as they were.
///
/// # Errors
///
/// `NotAJournal` comes exactly where the disk's bytes are no journal, and `DiskFault` only where its count of faults rose.
pub fn journal_on<D: Disk>(alloc: Global, disk: &mut D) -> Result<Opened, Exit>
    requires least { 16 ≤ D.room_of disk.old }
    requires most { D.room_of disk.old ≤ 2 ^ 32 }
    ensures found { IfOk result (λ opened. (es : List Entry) × Holds D.tells (D.seen disk.old) es × (opened.world.world ≡ world_left es)) }
    ensures stands { IfOk result (λ opened. Stands D.tells D.seen D.may_leave D.room_of opened.journal disk.new) }
    ensures kept { IsTrue D.tells → KeepsRecord (D.seen disk.old) (D.seen disk.new) }
    ensures cause { IfErr result (HasOpenCause D.tells (D.seen disk.old) (D.count disk.old) (D.count disk.new)) }
    ensures room { D.room_of disk.new ≡ D.room_of disk.old }
    ensures any_moment { IsTrue D.tells → LeavesOnly D.moment D.left_since disk.old disk.new
        (IsOldOrKept (D.may_leave disk.old) (D.seen disk.old)) }
{
    match recover(alloc, disk) {
        Ok((journal, entries)) => match fold(alloc, entries) {
            Ok(world) => Ok(Opened { journal, world }),
            Err(_) => {
                drop(journal);
                Err(Exit::NoMemory)
            }
        },
        Err(RecoverFault::NotAJournal { offset }) => Err(Exit::NotAJournal { offset }),
        Err(RecoverFault::DiskFault) => Err(Exit::DiskFault),
        Err(RecoverFault::NoMemory) => Err(Exit::NoMemory),
    }
}

/// The world that the entries of a disk leave; a disk that holds no journal gets a new one.
///
/// After each answer the disk has the entries that it had; bytes that are no journal are as they were.
///
/// # Errors
///
/// As `journal_on`.
pub fn world_on<D: Disk>(alloc: Global, disk: &mut D) -> Result<World, Exit>
    requires least { 16 ≤ D.room_of disk.old }
    requires most { D.room_of disk.old ≤ 2 ^ 32 }
    ensures found { IfOk result (λ world. (es : List Entry) × Holds D.tells (D.seen disk.old) es × (world.world ≡ world_left es)) }
    ensures kept { IsTrue D.tells → KeepsRecord (D.seen disk.old) (D.seen disk.new) }
    ensures cause { IfErr result (HasOpenCause D.tells (D.seen disk.old) (D.count disk.old) (D.count disk.new)) }
    ensures room { D.room_of disk.new ≡ D.room_of disk.old }
    ensures any_moment { IsTrue D.tells → LeavesOnly D.moment D.left_since disk.old disk.new
        (IsOldOrKept (D.may_leave disk.old) (D.seen disk.old)) }
{
    match journal_on(alloc, disk) {
        Ok(Opened { journal, world }) => {
            drop(journal);
            Ok(world)
        }
        Err(exit) => Err(exit),
    }
}
