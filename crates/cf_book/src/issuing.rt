//! Leases that are handed out: the Intent of a call is written first, or there is room for its next outcome.
ghost use Rattle.std.specs.Prelude.{◌≡◌, ◌≤◌, ◌+◌, true, OnOk, IsTrue, length, map, vec_len, vec_capacity};
ghost use Rattle.std.specs.Str.{bytes_eq};
ghost use Rattle.cf_tree.specs.Named.{all_differ};
ghost use Rattle.cf_disk.specs.Disk.{LeavesOnly};
ghost use Rattle.cf_entry.specs.Entry.{IsProper};
ghost use Rattle.cf_journal.specs.Record.{spare_of};
ghost use Rattle.cf_stacks.specs.Room.{with_room};
ghost use Rattle.cf_book.specs.Inside.{IsOpen, doubt_in, entries_in, known_in, name_of, places_now};
ghost use Rattle.cf_book.specs.Lending.{AwaitsAs, EntersIn, IsExpected, LendsTo, call_for, intent_for};
ghost use Rattle.cf_book.specs.Record.{KeepsRoom, LeavesOneMore, world_left};
ghost use Rattle.cf_book.specs.State.{home_of};

use crate::lending::{Asked, lend_for};
use crate::place::{Place, take_home};
use crate::record::Record;
use crate::stop::StopFault;
use crate::writing::write;
use cf_disk::Disk;
use cf_entry::Entry;
use cf_handler::Handler;
use cf_lane::Lease;
use cf_next::Homes;
use cf_tree::NoMemory;
use std::alloc::Global;

/// Makes room for the next outcome of a call that is made again, and for the entries of so many outcomes.
fn await_again<D>(
    alloc: Global,
    record: &mut Record<D>,
    calls: usize,
    intent: &Entry,
) -> Result<(), NoMemory>
    ensures room { OnOk result (record.new.world ≡ with_room intent.now record.old.world) }
    ensures places { OnOk result (vec_len record.new.entries + calls ≤ vec_capacity record.new.entries) }
    ensures world { record.new.world.world ≡ record.old.world.world }
    ensures disk { record.new.disk ≡ record.old.disk }
    ensures entries { record.new.entries.items ≡ record.old.entries.items }
    ensures doubt { record.new.doubt ≡ record.old.doubt }
    ensures journal { record.new.journal ≡ record.old.journal }
{
    record.entries.reserve(calls)?;
    record.world.room_for(alloc, intent)?;
    Ok(())
}

/// Makes room for the next outcome of a call that is made again; its Intent stands.
fn enter_again<D: Disk>(
    alloc: Global,
    record: &mut Record<D>,
    calls: usize,
    intent: Entry,
) -> Result<(), StopFault>
    requires opened { IsOpen D.Disk record.old }
    requires world { record.old.world.world ≡ world_left (entries_in record.old) }
    ensures enters { EntersIn D.Disk record.old record.new true intent result }
    ensures opened { IsOpen D.Disk record.new }
    ensures keeps { KeepsRoom D.Disk record.old.disk record.new.disk }
    ensures awaits { OnOk result (record.new.world ≡ with_room intent record.old.world) }
    ensures places { OnOk result (vec_len record.new.entries + calls ≤ vec_capacity record.new.entries) }
    ensures spare { spare_of record.new.journal ≡ spare_of record.old.journal }
    ensures world { record.new.world.world ≡ world_left (entries_in record.new) }
    ensures known { known_in D.Disk record.new }
    ensures moments { IsTrue D.tells → LeavesOnly D.moment D.left_since record.old.disk record.new.disk
        (LeavesOneMore (entries_in record.old) (entries_in record.new) (doubt_in record.new)) }
{
    let awaited = await_again(alloc, record, calls, &intent);
    drop(intent);
    match awaited {
        Ok(()) => Ok(()),
        Err(NoMemory) => Err(StopFault::NoMemory),
    }
}

/// Writes the Intent of a new call, or makes room for the next outcome of one that is made again.
fn enter_call<D: Disk>(
    alloc: Global,
    record: &mut Record<D>,
    calls: usize,
    repeated: bool,
    intent: Entry,
) -> Result<(), StopFault>
    requires opened { IsOpen D.Disk record.old }
    requires world { record.old.world.world ≡ world_left (entries_in record.old) }
    requires proper { IsProper intent }
    ensures enters { EntersIn D.Disk record.old record.new repeated intent result }
    ensures opened { OnOk result (IsOpen D.Disk record.new) }
    ensures keeps { KeepsRoom D.Disk record.old.disk record.new.disk }
    ensures awaits { OnOk result (AwaitsAs repeated record.old.world intent record.new.world) }
    ensures places { OnOk result (vec_len record.new.entries + calls ≤ vec_capacity record.new.entries) }
    ensures spare { spare_of record.old.journal ≤ spare_of record.new.journal }
    ensures world { record.new.world.world ≡ world_left (entries_in record.new) }
    ensures known { known_in D.Disk record.new }
    ensures moments { IsTrue D.tells → LeavesOnly D.moment D.left_since record.old.disk record.new.disk
        (LeavesOneMore (entries_in record.old) (entries_in record.new) (doubt_in record.new)) }
{
    if repeated {
        enter_again(alloc, record, calls, intent)
    } else {
        write(alloc, record, calls, intent)
    }
}

/// Hands out the lease for the call that is asked for: its lane is lent, and then its Intent is written, or there is room for its next
/// outcome. After an error the lane is at home again.
pub(crate) fn issue<D: Disk, H: Handler>(
    alloc: Global,
    record: &mut Record<D>,
    places: &mut Vec<Place<H>>,
    homes: &mut Homes,
    number: u64,
    asked: Asked,
) -> Result<Lease<H>, StopFault>
    requires opened { IsOpen D.Disk record.old }
    requires world { record.old.world.world ≡ world_left (entries_in record.old) }
    requires homes { homes.old ≡ map home_of (places_now H.Handler places.old.items) }
    requires differ { all_differ bytes_eq (map name_of (places_now H.Handler places.old.items)) ≡ true }
    ensures lends { LendsTo H.Handler (places_now H.Handler places.old.items) (places_now H.Handler places.new.items) asked.lane
        (call_for record.old.world.world.epoch number asked) result }
    ensures homes { homes.new ≡ map home_of (places_now H.Handler places.new.items) }
    ensures expected { OnOk result (IsExpected number record.old.world.world homes.old asked) }
    ensures enters { EntersIn D.Disk record.old record.new asked.repeated (intent_for number asked) result }
    ensures opened { OnOk result (IsOpen D.Disk record.new) }
    ensures keeps { KeepsRoom D.Disk record.old.disk record.new.disk }
    ensures awaits { OnOk result (AwaitsAs asked.repeated record.old.world (intent_for number asked) record.new.world) }
    ensures places { OnOk result
        (vec_len record.new.entries + length (places_now H.Handler places.old.items) ≤ vec_capacity record.new.entries) }
    ensures spare { spare_of record.old.journal ≤ spare_of record.new.journal }
    ensures world { record.new.world.world ≡ world_left (entries_in record.new) }
    ensures known { known_in D.Disk record.new }
    ensures moments { IsTrue D.tells → LeavesOnly D.moment D.left_since record.old.disk record.new.disk
        (LeavesOneMore (entries_in record.old) (entries_in record.new) (doubt_in record.new)) }
{
    let repeated = asked.repeated;
    match lend_for(alloc, &record.world, places, homes, number, asked) {
        Ok((lease, intent)) => {
            let calls = places.len();
            match enter_call(alloc, record, calls, repeated, intent) {
                Ok(()) => Ok(lease),
                Err(fault) => {
                    let _ = take_home(places, homes, lease.back());
                    Err(fault)
                }
            }
        }
        Err(NoMemory) => Err(StopFault::NoMemory),
    }
}
