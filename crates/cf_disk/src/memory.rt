ghost use Rattle.std.specs.Prelude.{◌≡◌, ◌==◌, ◌+◌, ◌-◌, ◌^◌, ◌<◌, ◌≤◌, min, [], ◌∷◌, ◌++◌, true, false, length, reverse, nat_lt, if◌then◌else◌, Some, IsTrue, IfOk, vec_len, vec_capacity};
ghost use Rattle.std.specs.List.{list_any};
ghost use Rattle.cf_disk.specs.Disk.{overwritten, Torn, Shortened, Follows, NoneNew, NoneLost, LeavesHalfDone, Elapses};
ghost use Rattle.cf_tree.specs.Counts.{HasRisen};
ghost use Rattle.cf_disk.specs.Calls.{seen_after, is_possible, now_counts, now_only};
ghost use Rattle.cf_disk.specs.Stays.{memory_stays};

use crate::step::Step;
use crate::{Disk, DiskFail};
use cf_tree::NoMemory;
use std::alloc::{AllocError, Global};

/// A disk in memory, for tests. It took all its memory when it was made.
#[derive(Drop)]
pub struct MemoryDisk {
    first: Vec<u8>,
    bytes: Vec<u8>,
    calls: Vec<Step>,
    log: Vec<u8>,
    fails: Vec<u64>,
    most_calls: u64,
    most_written: u64,
    room: u64,
    faults: u64,
    ghost calls_fit: { most_calls ≤ vec_capacity calls },
    ghost log_fits: { most_written ≤ vec_capacity log },
    ghost bytes_fit: { min room (vec_len first + most_written) ≤ vec_capacity bytes },
    ghost grown: { vec_len bytes ≤ vec_len first + vec_len log },
    ghost current: { bytes.items ≡ seen_after first.items (reverse calls.items) log.items },
    ghost possible: { is_possible first.items (reverse calls.items) log.items ≡ true },
}

impl MemoryDisk {
    ghost use Rattle.cf_disk.specs.Memory.{memory_bytes, memory_may_leave, memory_moment, memory_left_since, memory_passes, memory_reaches, CallIsCounted, IsFresh, IsRefused};

    /// A disk that holds these bytes, all of them synced. They are at most as many as its room.
    ///
    /// The calls of `length`, `read`, `write_at`, `cut` and `sync` are counted from 1, and those whose numbers stand
    /// in `fails` fail. It can note so many calls, and so many bytes in the writes that succeed: a call past one of
    /// these numbers fails too.
    pub fn new(
        alloc: Global,
        bytes: &[u8],
        room: u64,
        fails: &[u64],
        calls: u64,
        written: u64,
    ) -> Result<MemoryDisk, NoMemory>
        requires { length bytes.now ≤ room }
        ensures { IfOk result (IsFresh bytes.now room fails.now calls written) }
    {
        match MemoryDisk::with_room(alloc, bytes, room, fails, calls, written) {
            Ok(disk) => Ok(disk),
            Err(_) => Err(NoMemory),
        }
    }

    fn with_room(
        alloc: Global,
        bytes: &[u8],
        room: u64,
        fails: &[u64],
        calls: u64,
        written: u64,
    ) -> Result<MemoryDisk, AllocError>
        ensures { IfOk result (IsFresh bytes.now room fails.now calls written) }
    {
        let most = room.min((bytes.len() as u64).saturating_add(written));
        let mut seen = Vec::with_capacity(alloc, most as usize)?;
        seen.extend_from_slice(bytes)?;
        Ok(MemoryDisk {
            first: bytes.to_vec(alloc)?,
            bytes: seen,
            calls: Vec::with_capacity(alloc, calls as usize)?,
            log: Vec::with_capacity(alloc, written as usize)?,
            fails: fails.to_vec(alloc)?,
            most_calls: calls,
            most_written: written,
            room,
            faults: 0,
        })
    }

    /// What a read gives.
    pub fn bytes(&self) -> &[u8]
        ensures { result.now ≡ memory_bytes self.now }
    {
        &self.bytes
    }

    // Whether the next call succeeds, if it writes so many bytes.
    fn passes(&self, size: u64) -> bool
        ensures { result ≡ memory_passes self.now size }
    {
        (self.calls.len() as u64) < self.most_calls
            && !is_listed(&self.fails, &self.calls)
            && (self.log.len() as u64) <= self.most_written
            && size <= self.most_written - self.log.len() as u64
    }

    /// Refuses a call that changes nothing in the file.
    pub(crate) fn refuse(&mut self) -> DiskFail
        ensures refused { IsRefused self.old self.new }
        ensures counted { CallIsCounted self.old false 0 self.new }
        ensures crash { NoneNew (memory_may_leave self.old) (memory_may_leave self.new) }
        ensures kept { NoneLost (memory_may_leave self.old) (memory_may_leave self.new) }
        ensures time { Elapses (memory_moment self.old) (memory_moment self.new) (memory_left_since self.old) (memory_left_since self.new) (memory_may_leave self.new) }
    {
        note_if_room(&mut self.calls, self.most_calls, Step::Look);
        fail(&mut self.faults)
    }

    /// Refuses a write of so many bytes, which counts as written.
    pub(crate) fn refuse_write(&mut self, at: u64, size: u64) -> DiskFail
        ensures refused { IsRefused self.old self.new }
        ensures counted { CallIsCounted self.old false size self.new }
        ensures crash { Follows (Torn at size) (memory_may_leave self.old) (memory_may_leave self.new) }
        ensures torn { LeavesHalfDone (Torn at size) (memory_reaches self.old) (memory_may_leave self.old) (memory_may_leave self.new) }
        ensures time { Elapses (memory_moment self.old) (memory_moment self.new) (memory_left_since self.old) (memory_left_since self.new) (memory_may_leave self.new) }
    {
        note_if_room(
            &mut self.calls,
            self.most_calls,
            Step::Write {
                at,
                size,
                done: false,
            },
        );
        fail(&mut self.faults)
    }

    /// Refuses a cut, which counts as done.
    pub(crate) fn refuse_cut(&mut self, to: u64) -> DiskFail
        ensures refused { IsRefused self.old self.new }
        ensures counted { CallIsCounted self.old false 0 self.new }
        ensures crash { Follows (Shortened to) (memory_may_leave self.old) (memory_may_leave self.new) }
        ensures short { LeavesHalfDone (Shortened to) (memory_reaches self.old) (memory_may_leave self.old) (memory_may_leave self.new) }
        ensures time { Elapses (memory_moment self.old) (memory_moment self.new) (memory_left_since self.old) (memory_left_since self.new) (memory_may_leave self.new) }
    {
        note_if_room(
            &mut self.calls,
            self.most_calls,
            Step::Cut {
                size: to,
                done: false,
            },
        );
        fail(&mut self.faults)
    }
}

fn fail(faults: &mut u64) -> DiskFail
    ensures later { faults.old ≤ faults.new }
    ensures counted { faults.new ≡ min (faults.old + 1) (2 ^ 64 - 1) }
{
    *faults = faults.saturating_add(1);
    DiskFail
}

// Whether the next call is one of those that are to fail.
fn is_listed(fails: &Vec<u64>, calls: &Vec<Step>) -> bool
    requires { vec_len calls.now + 1 < 2 ^ 64 }
    ensures { result ≡ list_any (λ k. k == vec_len calls.now + 1) fails.now.items }
{
    fails.contains(&(calls.len() as u64 + 1))
}

fn note(calls: &mut Vec<Step>, call: Step)
    requires { vec_len calls.old < vec_capacity calls.old }
    ensures noted { reverse calls.new.items ≡ call ∷ reverse calls.old.items }
    ensures capacity { vec_capacity calls.old ≤ vec_capacity calls.new }
{
    calls.push(call).unwrap();
}

// Notes a call, unless so many are noted already.
fn note_if_room(calls: &mut Vec<Step>, most: u64, call: Step)
    requires { most ≤ vec_capacity calls.old }
    ensures noted { reverse calls.new.items ≡ (if nat_lt (vec_len calls.old) most then call ∷ reverse calls.old.items else reverse calls.old.items) }
    ensures capacity { vec_capacity calls.old ≤ vec_capacity calls.new }
{
    if (calls.len() as u64) < most {
        note(calls, call);
    }
}

// Puts the bytes over those that are there, and past their end.
fn overwrite(file: &mut Vec<u8>, at: usize, bytes: &[u8])
    requires start { at ≤ vec_len file.old }
    requires room { at + length bytes.now ≤ vec_capacity file.old }
    ensures bytes { file.new.items ≡ overwritten file.old.items at bytes.now }
    ensures grown { vec_len file.new ≤ vec_len file.old + length bytes.now }
    ensures capacity { vec_capacity file.old ≤ vec_capacity file.new }
{
    let end = at + bytes.len();
    if end > file.len() {
        file.truncate(at);
        file.extend_from_slice(bytes).unwrap();
        return;
    }
    file[at..end].copy_from_slice(bytes);
}

impl Disk for MemoryDisk {
    ghost use Rattle.cf_disk.specs.Memory.{memory_may_leave, memory_moment, memory_left_since, memory_passes, memory_reaches, CallIsCounted};

    ghost tells = { true };

    ghost seen = { λ m. m.bytes.items };

    ghost may_leave = { memory_may_leave };

    ghost moment = { memory_moment };

    ghost left_since = { memory_left_since };

    ghost room_of = { λ m. m.room };

    ghost count = { λ m. m.faults };

    ghost passes = { λ m n. Some (memory_passes m n) };

    ghost counts = { λ m n new. CallIsCounted m (memory_passes m n) n new };

    ghost reaches = { memory_reaches };

    ghost seen_may_stay = { λ m told. memory_stays m.first.items (reverse m.calls.items) m.log.items m.bytes.items m.current m.possible };

    ghost counts_now = { λ m t c told early now. now_counts m.first.items (reverse m.calls.items) m.log.items t c now };

    ghost only_now = { λ m c told left. now_only m.first.items (reverse m.calls.items) m.log.items c left };

    fn length(&mut self) -> Result<u64, DiskFail> {
        if !self.passes(0) {
            return Err(self.refuse());
        }
        note(&mut self.calls, Step::Look);
        Ok(self.bytes.len() as u64)
    }

    fn read(&mut self, at: u64, buf: &mut [u8]) -> Result<(), DiskFail> {
        if !self.passes(0) {
            return Err(self.refuse());
        }
        note(&mut self.calls, Step::Look);
        let start = at as usize;
        buf.copy_from_slice(&self.bytes[start..start + buf.len()]);
        Ok(())
    }

    fn write_at(&mut self, at: u64, bytes: &[u8]) -> Result<(), DiskFail> {
        let size = bytes.len() as u64;
        if !self.passes(size) {
            return Err(self.refuse_write(at, size));
        }
        note(
            &mut self.calls,
            Step::Write {
                at,
                size,
                done: true,
            },
        );
        self.log.extend_from_slice(bytes).unwrap();
        overwrite(&mut self.bytes, at as usize, bytes);
        Ok(())
    }

    fn cut(&mut self, to: u64) -> Result<(), DiskFail> {
        if !self.passes(0) {
            return Err(self.refuse_cut(to));
        }
        note(
            &mut self.calls,
            Step::Cut {
                size: to,
                done: true,
            },
        );
        self.bytes.truncate(to as usize);
        Ok(())
    }

    fn sync(&mut self) -> Result<(), DiskFail> {
        if !self.passes(0) {
            return Err(self.refuse());
        }
        note(&mut self.calls, Step::Sync);
        Ok(())
    }

    fn room(&self) -> u64 {
        self.room
    }

    fn faults(&self) -> u64 {
        self.faults
    }
}
