//! The record of a disk.
ghost use Rattle.std.specs.Prelude.{◌≡◌, ◌≤◌, ◌<◌, length, vec_len, vec_capacity, OnOk, OnErr, IsTrue, None};
ghost use Rattle.cf_tree.specs.SizeOf.{capped};
ghost use Rattle.cf_disk.specs.Disk.{LeavesOnly};
ghost use Rattle.cf_entry.specs.Entry.{IsProper, spelling_of};
ghost use Rattle.cf_stacks.specs.Room.{HasRoom, stepped};
ghost use Rattle.cf_journal.specs.Record.{spare_of};
ghost use Rattle.cf_book.specs.Record.{KeepsRoom, LeavesOneMore, world_left};
ghost use Rattle.cf_book.specs.Inside.{AppendsIn, IsOpen, doubt_in, entries_in, known_in};

use crate::stop::StopFault;
use cf_disk::Disk;
use cf_entry::Entry;
use cf_journal::{AppendFault, Journal};
use cf_stacks::World;
use std::snapshot::Snapshot;

/// A disk with its journal, open for more entries, and the world that its entries leave. For contracts alone it keeps the
/// entries that were acknowledged and, after a fault of the disk, the one that it may have.
pub struct Record<D> {
    pub disk: D,
    pub journal: Journal,
    pub entries: Vec<Snapshot<Entry>>,
    pub doubt: Option<Snapshot<Entry>>,
    pub world: World,
}

/// Appends an entry to the journal of the disk, and steps the world over it. It takes no memory: all of it is there.
pub(crate) fn append<D: Disk>(record: &mut Record<D>, entry: Entry) -> Result<(), StopFault>
    requires opened { IsOpen D.Disk record.old }
    requires world { record.old.world.world ≡ world_left (entries_in record.old) }
    requires room { HasRoom record.old.world entry }
    requires proper { IsProper entry }
    requires places { vec_len record.old.entries < vec_capacity record.old.entries }
    requires spare { capped (length (spelling_of entry)) ≤ spare_of record.old.journal }
    ensures appends { AppendsIn D.Disk record.old record.new entry result }
    ensures opened { OnOk result (IsOpen D.Disk record.new) }
    ensures stepped { OnOk result (record.new.world ≡ stepped record.old.world entry) }
    ensures world { record.new.world.world ≡ world_left (entries_in record.new) }
    ensures known { known_in D.Disk record.new }
    ensures moments { IsTrue D.tells → LeavesOnly D.moment D.left_since record.old.disk record.new.disk
        (LeavesOneMore (entries_in record.old) (entries_in record.new) (doubt_in record.new)) }
    ensures keeps { KeepsRoom D.Disk record.old.disk record.new.disk }
    ensures spare { spare_of record.new.journal ≡ spare_of record.old.journal }
    ensures capacity { vec_capacity record.old.entries ≤ vec_capacity record.new.entries }
{
    let kept = Snapshot::of(&entry);
    match record.journal.append(&mut record.disk, &entry) {
        Ok(()) => {
            record.entries.push_reserved(kept);
            record.world.step(entry);
            Ok(())
        }
        Err(fault) => {
            drop(entry);
            match fault {
                AppendFault::Full { length, need, room } => {
                    drop(kept);
                    Err(StopFault::Full { length, need, room })
                }
                AppendFault::DiskFault => {
                    record.doubt = Some(kept);
                    Err(StopFault::DiskFault)
                }
            }
        }
    }
}

/// The disk; the rest is given up.
pub(crate) fn into_disk<D>(record: Record<D>) -> D
    ensures { result ≡ record.disk }
{
    let Record {
        disk,
        journal,
        entries,
        doubt,
        world,
    } = record;
    drop(journal);
    drop(entries);
    drop(doubt);
    drop(world);
    disk
}
