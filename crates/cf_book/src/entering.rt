//! Books that are made.
ghost use Rattle.std.specs.Prelude.{◌≡◌, ◌≢◌, ◌≤◌, ◌<◌, ◌^◌, [], length, map, slice_get, true, vec_capacity, vec_len, IfOk, IsTrue, OnOk, Some};
ghost use Rattle.std.specs.List.{list_all};
ghost use Rattle.cf_disk.specs.Disk.{LeavesOnly};
ghost use Rattle.cf_handler.specs.Name.{is_lane_name};
ghost use Rattle.cf_handler.specs.declared.fence.FenceAnswer.TheVariants as fence;
ghost use Rattle.cf_journal.specs.Record.{is_broken, journal_length, spare_of};
ghost use Rattle.cf_stacks.specs.Apart.{AreApart};
ghost use Rattle.cf_lane.specs.Lanes.{lane_with};
ghost use Rattle.cf_book.specs.Ended.{ended_in};
ghost use Rattle.cf_book.specs.Entering.{EntersAs, LeavesEither, LeavesOpening, disk_after, opened_over};
ghost use Rattle.cf_book.specs.Fences.{handed_in};
ghost use Rattle.cf_book.specs.Finding.{EntersOver, FindsAs, HasRoomFor, IsFoundOn, IsLaid, IsOfRecord, IsReadyRecord, IsUnraisedBy, OpensOn, PreparesAs, RaisesIn, entries_of, homes_in, unwritten};
ghost use Rattle.cf_book.specs.Inside.{entries_in, places_now};
ghost use Rattle.cf_book.specs.Record.{KeepsRoom, KnowsDisk, world_left};
ghost use Rattle.cf_book.specs.State.{at_home, home_of};

use crate::apart::is_apart;
use crate::book::Book;
use crate::fences::raise_all;
use crate::opening::opening;
use crate::place::Place;
use crate::record::{Record, into_disk};
use crate::refused::{EnterFault, Refused};
use crate::stop::StopFault;
use crate::writing::write;
use cf_disk::Disk;
use cf_entry::{Entries, Entry};
use cf_handler::{FenceAnswer, Handler};
use cf_journal::{Journal, recover};
use cf_lane::Lane;
use cf_next::{Home, Homes};
use cf_stacks::{World, fold};
use cf_tree::{NoMemory, Txt};
use std::alloc::Global;
use std::snapshot::Snapshot;

/// How many bytes the longest outcome of a call takes in a journal.
const OUTCOME: u64 = 525_350;

/// What is found on a disk: its journal, for contracts alone its entries, and the world that they leave.
#[derive(Drop)]
struct Found {
    journal: Journal,
    entries: Vec<Snapshot<Entry>>,
    world: World,
}

/// What a book needs for its lanes: their names, places for them, and the room in which they are given back.
struct Room<H> {
    homes: Homes,
    places: Vec<Place<H>>,
    emptied: Vec<H>,
}

/// Entries, kept for contracts alone.
fn kept(alloc: Global, entries: &[Entry]) -> Result<Vec<Snapshot<Entry>>, NoMemory>
    ensures { IfOk result (λ kept. entries_of kept.items ≡ entries.now) }
{
    let mut kept = Vec::new(alloc);
    for entry in entries {
        kept.push(Snapshot::of(entry))?;
    }
    Ok(kept)
}

/// Entries, kept for contracts alone, and room for an outcome of a call in their journal.
fn kept_with_room(
    alloc: Global,
    journal: &mut Journal,
    entries: &[Entry],
) -> Result<Vec<Snapshot<Entry>>, NoMemory>
    ensures kept { IfOk result (λ kept. entries_of kept.items ≡ entries.now) }
    ensures spare { IfOk result (λ _. 525350 ≤ spare_of journal.new) }
    ensures length { journal_length journal.new ≡ journal_length journal.old }
    ensures broken { is_broken journal.new ≡ is_broken journal.old }
{
    journal.reserve(OUTCOME)?;
    kept(alloc, entries)
}

/// The world that entries leave. Where no run has written them, they may tell of one operation of two stacks: then there is no memory
/// for it.
fn world_of(alloc: Global, entries: Entries) -> Result<World, NoMemory>
    ensures world { IfOk result (λ world. world.world ≡ world_left entries) }
    ensures apart { IfOk result (λ world. AreApart world.world) }
{
    match fold(alloc, entries) {
        Ok(world) => {
            if is_apart(&world) {
                Ok(world)
            } else {
                drop(world);
                Err(NoMemory)
            }
        }
        Err(_) => Err(NoMemory),
    }
}

/// The entries of a journal, with room for an outcome of a call in it, and the world that they leave.
fn read_back(
    alloc: Global,
    journal: &mut Journal,
    entries: Entries,
) -> Result<(Vec<Snapshot<Entry>>, World), NoMemory>
    ensures kept { IfOk result (λ both. entries_of both.0.items ≡ entries) }
    ensures world { IfOk result (λ both. both.1.world ≡ world_left entries) }
    ensures apart { IfOk result (λ both. AreApart both.1.world) }
    ensures spare { IfOk result (λ _. 525350 ≤ spare_of journal.new) }
    ensures length { journal_length journal.new ≡ journal_length journal.old }
    ensures broken { is_broken journal.new ≡ is_broken journal.old }
{
    match kept_with_room(alloc, journal, entries.as_slice()) {
        Ok(kept) => match world_of(alloc, entries) {
            Ok(world) => Ok((kept, world)),
            Err(failed) => {
                drop(kept);
                Err(failed)
            }
        },
        Err(failed) => {
            drop(entries);
            Err(failed)
        }
    }
}

/// A journal laid out with its entries.
fn laid_out(alloc: Global, journal: Journal, entries: Entries) -> Result<Found, NoMemory>
    ensures { IfOk result (IsLaid journal entries) }
{
    let mut journal = journal;
    match read_back(alloc, &mut journal, entries) {
        Ok((entries, world)) => Ok(Found {
            journal,
            entries,
            world,
        }),
        Err(failed) => {
            drop(journal);
            Err(failed)
        }
    }
}

/// What is on the disk; a disk that holds no journal gets a new one.
fn find<D: Disk>(alloc: Global, disk: &mut D) -> Result<Found, EnterFault>
    requires least { 16 ≤ D.room_of disk.old }
    requires most { D.room_of disk.old ≤ 2 ^ 32 }
    ensures { FindsAs D.Disk disk.old disk.new result }
{
    let (journal, entries) = recover(alloc, disk)?;
    Ok(laid_out(alloc, journal, entries)?)
}

/// A lane that is handed in, as it stands in a book.
fn home_for<H: Handler>(alloc: Global, lane: &H) -> Result<Home, NoMemory>
    ensures home { IfOk result (λ home. home ≡ home_of (at_home (lane_with H.Handler lane.now []))) }
    ensures named { IfOk result (λ home. is_lane_name home.name ≡ true) }
{
    let name = Txt::from_str(alloc, lane.name())?;
    let schema = lane.schema().try_clone(alloc)?;
    Ok(Home {
        name,
        schema,
        out: None,
    })
}

/// The lanes, each at home.
fn homes_for<H: Handler>(alloc: Global, lanes: &[H]) -> Result<Homes, NoMemory>
    ensures homes { IfOk result (λ homes. homes ≡ homes_in (handed_in H.Handler lanes.now)) }
    ensures named { IfOk result (λ _. list_all (λ l. is_lane_name l.name) (handed_in H.Handler lanes.now) ≡ true) }
{
    let mut homes = Homes::new(alloc);
    for lane in lanes.iter() {
        homes.push(home_for(alloc, lane)?)?;
    }
    Ok(homes)
}

/// Makes room for so many lanes. After an error there is some of it or none.
fn reserve<H>(room: &mut Room<H>, lanes: usize) -> Result<(), NoMemory>
    requires empty { (room.old.places.items ≡ []) × (room.old.emptied.items ≡ []) }
    ensures homes { room.new.homes ≡ room.old.homes }
    ensures empty { (room.new.places.items ≡ []) × (room.new.emptied.items ≡ []) }
    ensures room { OnOk result ((lanes ≤ vec_capacity room.new.places) × (lanes ≤ vec_capacity room.new.emptied)) }
{
    room.places.reserve(lanes)?;
    room.emptied.reserve(lanes)?;
    Ok(())
}

/// The names of the lanes; the room, in which nothing is yet, is given up.
fn into_homes<H>(room: Room<H>) -> Homes
    requires places { room.places.items ≡ [] }
    requires emptied { room.emptied.items ≡ [] }
    ensures { result ≡ room.homes }
{
    let Room {
        homes,
        places,
        emptied,
    } = room;
    places.destroy_empty();
    emptied.destroy_empty();
    homes
}

/// The room for these lanes.
fn room_for<H: Handler>(alloc: Global, lanes: &[H]) -> Result<Room<H>, NoMemory>
    ensures homes { IfOk result (λ room. room.homes ≡ homes_in (handed_in H.Handler lanes.now)) }
    ensures named { IfOk result (λ _. list_all (λ l. is_lane_name l.name) (handed_in H.Handler lanes.now) ≡ true) }
    ensures empty { IfOk result (λ room. (room.places.items ≡ []) × (room.emptied.items ≡ [])) }
    ensures room { IfOk result (λ room. (length lanes.now ≤ vec_capacity room.places) × (length lanes.now ≤ vec_capacity room.emptied)) }
{
    let mut room = Room {
        homes: homes_for(alloc, lanes)?,
        places: Vec::new(alloc),
        emptied: Vec::new(alloc),
    };
    match reserve(&mut room, lanes.len()) {
        Ok(()) => Ok(room),
        Err(failed) => {
            drop(into_homes(room));
            Err(failed)
        }
    }
}

/// The lanes at home, in their order. It takes no memory.
fn places_for<H: Handler>(alloc: Global, lanes: Vec<H>, places: Vec<Place<H>>) -> Vec<Place<H>>
    requires empty { places.items ≡ [] }
    requires room { length lanes.items ≤ vec_capacity places }
    ensures { places_now H.Handler result.items ≡ map at_home (handed_in H.Handler lanes.items) }
{
    let mut places = places;
    let mut rest = lanes.into_iter();
    while let Some(lane) = rest.next() {
        places.push_reserved(Place::Home(Lane::new(alloc, lane)));
    }
    rest.destroy_empty();
    places
}

/// The name of the lane at a place.
fn name_at(homes: Homes, at: usize) -> Txt
    requires { at < length homes }
    ensures { slice_get (map (λ h. h.name) homes) at ≡ Some result }
{
    let mut homes = homes.into_vec();
    let home = homes.remove(at);
    home.name
}

/// Why a book is not entered whose lane of this name did not raise its fence.
fn unraised(name: Txt, epoch: u64, answer: FenceAnswer) -> EnterFault
    requires { answer ≢ fence.Raised }
    ensures { IsUnraisedBy name epoch answer result }
{
    match answer {
        FenceAnswer::Ahead { fence } => EnterFault::LaneAhead { name, fence, epoch },
        FenceAnswer::Fault => EnterFault::LaneFault { name },
        FenceAnswer::Raised => unreachable!(),
    }
}

/// Why a book is not entered to whose record the opening could not be appended.
fn unwritten(fault: StopFault) -> EnterFault
    requires { IsOfRecord fault }
    ensures { result ≡ unwritten fault }
{
    match fault {
        StopFault::Full { length, need, room } => EnterFault::Full { length, need, room },
        StopFault::DiskFault => EnterFault::DiskFault,
        StopFault::NoMemory => EnterFault::NoMemory,
        StopFault::LaneAhead { .. } => unreachable!(),
    }
}

/// Raises the fences of lanes, over a record to which their opening is appended.
fn raise<D: Disk, H: Handler>(
    alloc: Global,
    base: Record<D>,
    lanes: Vec<H>,
    room: Room<H>,
) -> Result<Book<D, H>, Refused<D, H>>
    requires record { IsReadyRecord D.Disk base }
    requires none_ended { ended_in (entries_in base) ≡ [] }
    requires places { vec_len base.entries ≤ vec_capacity base.entries }
    requires room { HasRoomFor room (handed_in H.Handler lanes.items) }
    ensures { RaisesIn D.Disk H.Handler base lanes.items result }
{
    let mut lanes = lanes;
    let epoch = base.world.epoch();
    match raise_all(&mut lanes, epoch) {
        None => {
            let Room {
                homes,
                places,
                emptied,
            } = room;
            let places = places_for(alloc, lanes, places);
            Ok(Book {
                record: base,
                places,
                homes,
                emptied,
                ended: Vec::new(alloc),
                has_granted: false,
                stopped: None,
            })
        }
        Some(stop) => {
            let homes = into_homes(room);
            Err(Refused {
                fault: unraised(name_at(homes, stop.at), epoch, stop.answer),
                disk: into_disk(base),
                lanes,
            })
        }
    }
}

/// Appends the opening of lanes and raises their fences.
fn open<D: Disk, H: Handler>(
    alloc: Global,
    base: Record<D>,
    lanes: Vec<H>,
    room: Room<H>,
    entry: Entry,
) -> Result<Book<D, H>, Refused<D, H>>
    requires record { IsReadyRecord D.Disk base }
    requires room { HasRoomFor room (handed_in H.Handler lanes.items) }
    requires opening { entry ≡ opened_over (handed_in H.Handler lanes.items) (entries_in base) }
    ensures opens { OpensOn D.Disk H.Handler base.disk (entries_in base) entry lanes.items result }
    ensures known { IfOk result (KnowsDisk D.Disk) }
    ensures keeps { KeepsRoom D.Disk base.disk (disk_after result) }
    ensures moments { IsTrue D.tells → LeavesOnly D.moment D.left_since base.disk (disk_after result)
        (LeavesEither (entries_in base) entry) }
{
    let mut base = base;
    match write(alloc, &mut base, 0, entry) {
        Ok(()) => raise(alloc, base, lanes, room),
        Err(fault) => {
            drop(into_homes(room));
            Err(Refused {
                fault: unwritten(fault),
                disk: into_disk(base),
                lanes,
            })
        }
    }
}

/// Makes the journal of a disk the record of a book over these lanes: it recovers the journal, tests the lanes, appends their opening and
/// raises each fence to its epoch.
///
/// # Errors
///
/// `NotAJournal` comes exactly where the disk's bytes are no journal; `LaneTwice` exactly where two lanes have one name, with the first
/// such name, and else `LaneMissing` exactly where a stack has a resource or an open call on a lane, by name and type, that is not
/// handed in, with the first such name in the order of bytes; `Full` exactly where the disk has no room for the opening; `DiskFault`
/// only where the disk's count of faults rose; `LaneAhead` exactly where the fence of that lane is at least the epoch, and never where
/// journal and lanes agreed; and `LaneFault` only where that lane's count rose. The disk and the lanes come back, the lanes in their
/// order. After `LaneAhead` and `LaneFault` the opening is appended, and the fences of the lanes before that one are raised; after
/// `DiskFault` the disk may have it; after any other the record and the lanes are as they were, and at no moment of the call could a
/// crash have left the opening. `NoMemory` comes also where no number is left for an opening, and where the entries, which no run has
/// written, tell of one operation of two stacks.
pub fn enter<D: Disk, H: Handler>(
    alloc: Global,
    disk: D,
    lanes: Vec<H>,
) -> Result<Book<D, H>, Refused<D, H>>
    requires least { 16 ≤ D.room_of disk }
    requires most { D.room_of disk ≤ 2 ^ 32 }
    ensures enters { EntersAs D.Disk H.Handler disk lanes.items result }
    ensures known { IfOk result (KnowsDisk D.Disk) }
    ensures disk { KeepsRoom D.Disk disk (disk_after result) }
    ensures moments { IsTrue D.tells → LeavesOnly D.moment D.left_since disk (disk_after result)
        (LeavesOpening D.Disk disk (handed_in H.Handler lanes.items)) }
{
    let mut disk = disk;
    match find(alloc, &mut disk) {
        Ok(found) => enter_over(alloc, disk, lanes, found),
        Err(fault) => Err(Refused { fault, disk, lanes }),
    }
}

/// The same over what was found on the disk.
fn enter_over<D: Disk, H: Handler>(
    alloc: Global,
    disk: D,
    lanes: Vec<H>,
    found: Found,
) -> Result<Book<D, H>, Refused<D, H>>
    requires { IsFoundOn D.Disk disk found }
    ensures enters { EntersOver D.Disk H.Handler disk lanes.items (entries_of found.entries.items) result }
    ensures known { IfOk result (KnowsDisk D.Disk) }
    ensures keeps { KeepsRoom D.Disk disk (disk_after result) }
    ensures moments { IsTrue D.tells → LeavesOnly D.moment D.left_since disk (disk_after result)
        (LeavesEither (entries_of found.entries.items) (opened_over (handed_in H.Handler lanes.items) (entries_of found.entries.items))) }
{
    match prepare(alloc, &found.world, lanes.as_slice()) {
        Ok((room, entry)) => {
            let Found {
                journal,
                entries,
                world,
            } = found;
            let record = Record {
                disk,
                journal,
                entries,
                doubt: None,
                world,
            };
            open(alloc, record, lanes, room, entry)
        }
        Err(fault) => {
            drop(found);
            Err(Refused { fault, disk, lanes })
        }
    }
}

/// The room for lanes and the entry of their opening.
fn prepare<H: Handler>(
    alloc: Global,
    world: &World,
    lanes: &[H],
) -> Result<(Room<H>, Entry), EnterFault>
    ensures { PreparesAs world.now.world (handed_in H.Handler lanes.now) result }
{
    let room = room_for(alloc, lanes)?;
    match opening(alloc, world, room.homes.as_slice()) {
        Ok(entry) => Ok((room, entry)),
        Err(fault) => {
            drop(into_homes(room));
            Err(fault)
        }
    }
}
