//! Entries for which memory is taken first.
ghost use Rattle.std.specs.Prelude.{◌≡◌, ◌≤◌, ◌<◌, ◌+◌, length, vec_len, vec_capacity, OnOk, IsTrue};
ghost use Rattle.cf_tree.specs.SizeOf.{capped};
ghost use Rattle.cf_disk.specs.Disk.{LeavesOnly};
ghost use Rattle.cf_entry.specs.Entry.{IsProper, spelling_of};
ghost use Rattle.cf_journal.specs.Record.{is_broken, journal_length, spare_of};
ghost use Rattle.cf_stacks.specs.Room.{HasRoom};
ghost use Rattle.cf_book.specs.Inside.{IsOpen, KeepsCalls, StepsOver, WritesIn, doubt_in, entries_in, known_in};
ghost use Rattle.cf_book.specs.Record.{KeepsRoom, LeavesOneMore, world_left};

use crate::record::{Record, append};
use crate::stop::StopFault;
use cf_disk::Disk;
use cf_entry::{Entry, entry_size};
use cf_tree::NoMemory;
use std::alloc::Global;

/// Takes all memory that appending an entry needs, and the outcomes of so many calls after it.
#[tactic(auto, using(crate::proofs::Written::room_made))]
fn make_room<D>(
    alloc: Global,
    record: &mut Record<D>,
    calls: usize,
    entry: &Entry,
) -> Result<(), NoMemory>
    ensures room { OnOk result (HasRoom record.new.world entry.now) }
    ensures places { OnOk result (vec_len record.new.entries + (calls + 1) ≤ vec_capacity record.new.entries) }
    ensures spare { OnOk result (capped (length (spelling_of entry.now)) ≤ spare_of record.new.journal) }
    ensures world { KeepsCalls record.old.world entry.now record.new.world }
    ensures disk { record.new.disk ≡ record.old.disk }
    ensures entries { record.new.entries.items ≡ record.old.entries.items }
    ensures doubt { record.new.doubt ≡ record.old.doubt }
    ensures length { journal_length record.new.journal ≡ journal_length record.old.journal }
    ensures broken { is_broken record.new.journal ≡ is_broken record.old.journal }
    ensures least { spare_of record.old.journal ≤ spare_of record.new.journal }
{
    let places = calls.checked_add(1).ok_or(NoMemory)?;
    record.world.room_for(alloc, entry)?;
    record.entries.reserve(places)?;
    record.journal.reserve(entry_size(entry))
}

/// Appends an entry, with all memory that it and the outcomes of so many calls after it need.
pub(crate) fn write<D: Disk>(
    alloc: Global,
    record: &mut Record<D>,
    calls: usize,
    entry: Entry,
) -> Result<(), StopFault>
    requires opened { IsOpen D.Disk record.old }
    requires world { record.old.world.world ≡ world_left (entries_in record.old) }
    requires proper { IsProper entry }
    ensures writes { WritesIn D.Disk record.old record.new entry result }
    ensures opened { OnOk result (IsOpen D.Disk record.new) }
    ensures steps { OnOk result (StepsOver record.old.world entry record.new.world) }
    ensures keeps { KeepsRoom D.Disk record.old.disk record.new.disk }
    ensures places { OnOk result (vec_len record.new.entries + calls ≤ vec_capacity record.new.entries) }
    ensures spare { spare_of record.old.journal ≤ spare_of record.new.journal }
    ensures world { record.new.world.world ≡ world_left (entries_in record.new) }
    ensures known { known_in D.Disk record.new }
    ensures moments { IsTrue D.tells → LeavesOnly D.moment D.left_since record.old.disk record.new.disk
        (LeavesOneMore (entries_in record.old) (entries_in record.new) (doubt_in record.new)) }
{
    match make_room(alloc, record, calls, &entry) {
        Ok(()) => append(record, entry),
        Err(NoMemory) => {
            drop(entry);
            Err(StopFault::NoMemory)
        }
    }
}
