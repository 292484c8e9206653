//! The worked example, the refusals with their offsets, and a run that is stopped at each call of its disk.
ghost use Rattle.std.specs.Prelude.{◌≡◌, ◌≤◌, ◌^◌};
ghost use Rattle.cf_disk.specs.Memory.{memory_room};
ghost use Rattle.cf_entry.specs.Entry.{IsProper};

use crate::told::is_told;
use cf_disk::{Disk, FuseDisk, MemoryDisk};
use cf_entry::{Entry, LaneNames, entry_size};
use cf_journal::{AppendFault, RecoverFault, recover};
use cf_tree::{NoMemory, Txt};
use std::alloc::{AllocError, Global};
use std::process::Abort;
use std::test::Fail;

// The head, and one entry: the opening of the epoch 1 with the lane f1 of the type Local::Files::File.
const ONE_ENTRY: &[u8; 56] =
    b"\x01CFSTACK1\x01\x00\x00\x00\x29\x01\x00\x00\x00\x00\x00\x00\x00\x01\x00\x00\x00\x01\x00\x00\x00\x02f1\x00\x00\x00\x12Local::Files::File\x00";

fn lanes(alloc: Global) -> Result<LaneNames, AllocError> {
    let mut lanes = LaneNames::new(alloc);
    match add_lane(alloc, &mut lanes) {
        Ok(()) => Ok(lanes),
        Err(failed) => {
            drop(lanes);
            Err(failed)
        }
    }
}

fn add_lane(alloc: Global, lanes: &mut LaneNames) -> Result<(), AllocError> {
    let name = Txt::from_str(alloc, "f1")?;
    let kind = Txt::from_str(alloc, "Local::Files::File")?;
    lanes.push((name, kind))
}

// What the append of an entry answers.
#[derive(Clone, Copy)]
enum Told {
    Done,
    Full { length: u64, need: u64, room: u64 },
    Fault,
    // The opening of the epoch 1 has another size than 41.
    OtherSize,
    // The bytes are more than the disk has room for, or no disk has that room.
    NoDisk,
}

fn told_by(answer: Result<(), AppendFault>) -> Told {
    match answer {
        Ok(()) => Told::Done,
        Err(AppendFault::Full { length, need, room }) => Told::Full { length, need, room },
        Err(AppendFault::DiskFault) => Told::Fault,
    }
}

// What the append of an entry answers, once the journal is recovered.
fn append_to<D: Disk>(alloc: Global, disk: &mut D, entry: &Entry) -> Told
    requires least { 16 ≤ D.room_of disk.old }
    requires most { D.room_of disk.old ≤ 2 ^ 32 }
    requires proper { IsProper entry.now }
    ensures { D.room_of disk.new ≡ D.room_of disk.old }
{
    match recover(alloc, disk) {
        Ok((mut journal, entries)) => {
            drop(entries);
            let told = match journal.reserve(entry_size(entry)) {
                Ok(()) => told_by(journal.append(disk, entry)),
                Err(_) => Told::Fault,
            };
            drop(journal);
            told
        }
        Err(_) => Told::Fault,
    }
}

fn told_line(alloc: Global, told: Told) -> Result<String, AllocError> {
    match told {
        Told::Done => String::from_str(alloc, "done"),
        Told::Full { length, need, room } => format!(in alloc; "full {length} {need} {room}"),
        Told::Fault => String::from_str(alloc, "fault"),
        Told::OtherSize => String::from_str(alloc, "another size"),
        Told::NoDisk => String::from_str(alloc, "no disk"),
    }
}

// The append of the opening. `drop` keeps the check short: an entry let go in place takes a minute of it.
fn append_opening<D: Disk>(alloc: Global, disk: &mut D) -> Result<Told, AllocError>
    requires least { 16 ≤ D.room_of disk.old }
    requires most { D.room_of disk.old ≤ 2 ^ 32 }
    ensures { D.room_of disk.new ≡ D.room_of disk.old }
{
    let lanes = lanes(alloc)?;
    let entry = Entry::Opened { epoch: 1, lanes };
    let told = append_to(alloc, disk, &entry);
    let size = entry_size(&entry);
    drop(entry);
    if size == 41 {
        Ok(told)
    } else {
        Ok(Told::OtherSize)
    }
}

// What an append answers, and whether the disk then holds the one entry.
#[derive(Clone, Copy)]
struct Appended {
    told: Told,
    is_one: bool,
}

fn append_on(alloc: Global, disk: MemoryDisk) -> Result<Appended, AllocError>
    requires least { 16 ≤ memory_room disk }
    requires most { memory_room disk ≤ 2 ^ 32 }
{
    let mut disk = disk;
    let told = append_opening(alloc, &mut disk);
    let is_one = disk.bytes() == ONE_ENTRY.as_slice();
    drop(disk);
    Ok(Appended {
        told: told?,
        is_one,
    })
}

// A disk of these bytes that can note so many calls and bytes, and what the append of the opening answers there.
#[derive(Clone, Copy)]
struct Trial {
    bytes: &'static [u8],
    room: u64,
    calls: u64,
    written: u64,
    told: &'static str,
}

fn tried(alloc: Global, trial: &Trial) -> Result<Appended, NoMemory> {
    let Trial {
        bytes,
        room,
        calls,
        written,
        told: _,
    } = *trial;
    if room < 16 || room > 1 << 32 || bytes.len() as u64 > room {
        return Ok(Appended {
            told: Told::NoDisk,
            is_one: false,
        });
    }
    let disk = MemoryDisk::new(alloc, bytes, room, &[], calls, written)?;
    Ok(append_on(alloc, disk)?)
}

fn are_told(rt: &impl Abort, alloc: Global, trials: &[Trial]) -> Result<(), Fail> {
    for trial in trials {
        let told = tried(alloc, trial)?.told;
        is_told(rt, told_line(alloc, told), trial.told)?;
    }
    Ok(())
}

// Recovering takes a sync, the length and a read.
const CALLS: [Trial; 3] = [
    Trial {
        bytes: ONE_ENTRY,
        room: 200,
        calls: 7,
        written: 47,
        told: "done",
    },
    Trial {
        bytes: ONE_ENTRY,
        room: 200,
        calls: 6,
        written: 47,
        told: "fault",
    },
    Trial {
        bytes: ONE_ENTRY,
        room: 200,
        calls: 7,
        written: 46,
        told: "fault",
    },
];

#[test]
fn an_append_is_four_calls_and_47_bytes(rt: HostRuntime) -> Result<(), Fail> {
    are_told(&rt, rt.alloc(), &CALLS)
}

// A new journal holds the one entry.
const FIRST: Trial = Trial {
    bytes: &[],
    room: 56,
    calls: 40,
    written: 200,
    told: "done",
};

const ROOMS: [Trial; 4] = [
    FIRST,
    Trial {
        bytes: &[],
        room: 55,
        calls: 40,
        written: 200,
        told: "full 10 46 55",
    },
    Trial {
        bytes: ONE_ENTRY,
        room: 101,
        calls: 40,
        written: 200,
        told: "full 56 46 101",
    },
    Trial {
        bytes: ONE_ENTRY,
        room: 102,
        calls: 40,
        written: 200,
        told: "done",
    },
];

#[test]
fn the_first_entry_needs_46_bytes(rt: HostRuntime) -> Result<(), Fail> {
    are_told(&rt, rt.alloc(), &ROOMS)?;
    assert!(rt; tried(rt.alloc(), &FIRST)?.is_one);
    Ok(())
}

// How many entries are read, or at which offset the bytes are no journal.
#[derive(Clone, Copy)]
enum Found {
    Entries(usize),
    NoJournal(u64),
    Nothing,
}

fn found_line(alloc: Global, found: Found) -> Result<String, AllocError> {
    match found {
        Found::Entries(count) => format!(in alloc; "entries {count}"),
        Found::NoJournal(offset) => format!(in alloc; "no journal {offset}"),
        Found::Nothing => String::from_str(alloc, "nothing"),
    }
}

fn found_on(alloc: Global, disk: &mut MemoryDisk) -> Found
    requires least { 16 ≤ memory_room disk.old }
    requires most { memory_room disk.old ≤ 2 ^ 32 }
{
    match recover(alloc, disk) {
        Ok((journal, entries)) => {
            let count = entries.len();
            drop(entries);
            drop(journal);
            Found::Entries(count)
        }
        Err(RecoverFault::NotAJournal { offset }) => Found::NoJournal(offset),
        Err(_) => Found::Nothing,
    }
}

fn found_in(alloc: Global, bytes: &[u8]) -> Result<Found, NoMemory> {
    if bytes.len() > 200 {
        return Ok(Found::Nothing);
    }
    let mut disk = MemoryDisk::new(alloc, bytes, 200, &[], 40, 200)?;
    let found = found_on(alloc, &mut disk);
    drop(disk);
    Ok(found)
}

fn is_found(rt: &impl Abort, alloc: Global, bytes: &[u8], wanted: &str) -> Result<(), Fail> {
    let found = found_in(alloc, bytes)?;
    is_told(rt, found_line(alloc, found), wanted)
}

const NO_JOURNALS: [(&[u8], &str); 5] = [
    (b"hello world", "no journal 1"),
    (b"\x07CFST", "no journal 1"),
    // The first gate is missing.
    (b"\x01CFSTACK1", "no journal 9"),
    // Neither a lone kind nor no bytes at all are an entry.
    (b"\x01CFSTACK1\x01\x00\x00\x00\x01\x03\x00", "no journal 9"),
    (b"\x01CFSTACK1\x01\x00\x00\x00\x00\x00", "no journal 9"),
];

#[test]
fn what_is_no_journal_is_refused(rt: HostRuntime) -> Result<(), Fail> {
    for (bytes, line) in &NO_JOURNALS {
        is_found(&rt, rt.alloc(), bytes, line)?;
    }
    // The next gate is missing.
    is_found(&rt, rt.alloc(), &ONE_ENTRY[..55], "no journal 9")?;
    // Behind an entry an open gate has no frame.
    let mut bytes = *ONE_ENTRY;
    bytes[55] = 1;
    is_found(&rt, rt.alloc(), &bytes, "no journal 55")
}

const CLOSED: [(&[u8], &str); 5] = [
    (ONE_ENTRY, "entries 1"),
    (b"\x01CFSTACK1\x02\x01\x01", "entries 0"),
    (b"\x00CFSTACK2\x01", "entries 0"),
    (b"\x07CFSTACK1\x01", "entries 0"),
    (b"\x01", "entries 0"),
];

#[test]
fn a_closed_gate_ends_the_journal(rt: HostRuntime) -> Result<(), Fail> {
    for (bytes, line) in &CLOSED {
        is_found(&rt, rt.alloc(), bytes, line)?;
    }
    Ok(())
}

// What is found after an append that stops at a call of the disk.
fn found_behind(alloc: Global, disk: MemoryDisk, calls: u64) -> Result<Found, AllocError>
    requires least { 16 ≤ memory_room disk }
    requires most { memory_room disk ≤ 2 ^ 32 }
{
    let mut fuse = FuseDisk::new(disk, calls);
    let told = append_opening(alloc, &mut fuse);
    let mut disk = fuse.into_disk();
    let found = found_on(alloc, &mut disk);
    drop(disk);
    told?;
    Ok(found)
}

fn found_after(alloc: Global, bytes: &[u8], calls: u64) -> Result<Found, NoMemory> {
    if bytes.len() > 200 {
        return Ok(Found::Nothing);
    }
    let disk = MemoryDisk::new(alloc, bytes, 200, &[], 60, 200)?;
    Ok(found_behind(alloc, disk, calls)?)
}

fn is_found_after(
    rt: &impl Abort,
    alloc: Global,
    bytes: &[u8],
    calls: u64,
    wanted: &str,
) -> Result<(), Fail> {
    let found = found_after(alloc, bytes, calls)?;
    is_told(rt, found_line(alloc, found), wanted)
}

#[test]
fn a_stop_leaves_the_old_entries_or_the_new_one_too(rt: HostRuntime) -> Result<(), Fail> {
    // A sync, the length, a read, the making by four writes and four syncs, and the append by two of each. What a read
    // gives has the entry from the last write on.
    for calls in 0..16 {
        let wanted = if calls < 14 { "entries 0" } else { "entries 1" };
        is_found_after(&rt, rt.alloc(), b"\x07CFSTACK1\x01\x00", calls, wanted)?;
    }
    for calls in 0..8 {
        let wanted = if calls < 6 { "entries 1" } else { "entries 2" };
        is_found_after(&rt, rt.alloc(), ONE_ENTRY, calls, wanted)?;
    }
    Ok(())
}
