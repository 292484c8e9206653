//! The journal, open for more entries.
ghost use Rattle.std.specs.Prelude.{◌≡◌, ◌≢◌, ◌+◌, ◌^◌, ◌<◌, ◌≤◌, false, length, vec_len, vec_capacity, IsTrue, IfOk, OnOk, OnErr, IfErr};
ghost use Rattle.cf_disk.specs.Disk.{LeavesOnly};
ghost use Rattle.cf_tree.specs.SizeOf.{capped};
ghost use Rattle.cf_entry.specs.Entry.{spelling_of, IsEntry, IsProper};
ghost use Rattle.cf_journal.specs.Frames.{frame_of};

use crate::calls::append_frame;
use crate::faults::AppendFault;
use cf_disk::Disk;
use cf_entry::{Entry, entry_size, write_entry};
use cf_tree::NoMemory;
use std::alloc::{AllocError, Global};

// A frame is a gate, four bytes of length, the body and the next gate. The first of these gates is there already.
const AROUND_BODY: u64 = 5;

/// A journal that was recovered from a disk, and the memory for the frame of one entry. It is broken after an append
/// that the disk failed.
#[derive(Drop)]
pub struct Journal {
    length: u64,
    spare: u64,
    broken: bool,
    frame: Vec<u8>,
    ghost memory: { spare + 5 ≤ vec_capacity frame },
    ghost gate: { 10 ≤ length },
}

// Puts what stands behind the gate of an entry's frame in the place of what is there.
fn build(frame: &mut Vec<u8>, entry: &Entry)
    requires small { length (spelling_of entry.now) < 2 ^ 32 }
    requires room { length (spelling_of entry.now) + 5 ≤ vec_capacity frame.old }
    ensures bytes { frame.new.items ≡ frame_of (spelling_of entry.now) }
    ensures capacity { vec_capacity frame.old ≤ vec_capacity frame.new }
    ensures readable { IsProper entry.now → IsEntry entry.now }
{
    let size = entry_size(entry) as u32;
    frame.clear();
    frame.extend_from_slice(&size.to_be_bytes()).unwrap();
    write_entry(entry, frame);
    frame.push_reserved(0);
}

impl Journal {
    ghost use Rattle.cf_journal.specs.Record.{record_of, one_more, journal_length, spare_of, is_broken, IsBeforeOrAfter, Stands};
    ghost use Rattle.cf_journal.specs.Faults.{HasAppendCause, IsAfterFault};

    /// A journal of this length, without memory for an entry.
    pub(crate) fn new(alloc: Global, length: u64) -> Result<Journal, AllocError>
        requires { 10 ≤ length }
        ensures { IfOk result (λ journal. (journal_length journal ≡ length) × (is_broken journal ≡ false)) }
    {
        let frame = Vec::with_capacity(alloc, 5)?;
        Ok(Journal {
            length,
            spare: 0,
            broken: false,
            frame,
        })
    }

    /// Makes the memory for an entry of so many bytes, and keeps what is there. After an error the journal is as it was.
    pub fn reserve(&mut self, bytes: u64) -> Result<(), NoMemory>
        ensures enough { OnOk result (bytes ≤ spare_of self.new) }
        ensures kept { spare_of self.old ≤ spare_of self.new }
        ensures length { journal_length self.new ≡ journal_length self.old }
        ensures broken { is_broken self.new ≡ is_broken self.old }
        ensures err { OnErr result (spare_of self.new ≡ spare_of self.old) }
    {
        if bytes <= self.spare {
            return Ok(());
        }
        let size = (bytes as usize)
            .checked_add(AROUND_BODY as usize)
            .ok_or(NoMemory)?;
        self.frame.clear();
        self.frame.reserve(size)?;
        self.spare = bytes;
        Ok(())
    }

    /// Appends an entry, by two writes and two syncs. It takes no memory, and `reserve` has made what it needs.
    ///
    /// After `Ok` every crash leaves a disk that has it, and the journal is longer by its size and 5. `Full` comes exactly
    /// where these bytes do not fit behind the journal, and changes nothing. After `DiskFault` the journal is broken and
    /// must be recovered again: a crash at any moment of the call leaves the entries with the new one or without it.
    pub fn append<D: Disk>(&mut self, disk: &mut D, entry: &Entry) -> Result<(), AppendFault>
        requires stands { Stands D.tells D.seen D.may_leave D.room_of self.old disk.old }
        requires spare { capped (length (spelling_of entry.now)) ≤ spare_of self.old }
        requires proper { IsProper entry.now }
        ensures acknowledged { OnOk result (Stands D.tells D.seen D.may_leave D.room_of self.new disk.new) }
        ensures grown { OnOk result (journal_length self.new ≡ journal_length self.old + (capped (length (spelling_of entry.now)) + 5)) }
        ensures added { OnOk result (IsTrue D.tells → record_of (D.seen disk.new) ≡ one_more (record_of (D.seen disk.old)) entry.now) }
        ensures any_moment { IsTrue D.tells → LeavesOnly D.moment D.left_since disk.old disk.new (IsBeforeOrAfter (record_of (D.seen disk.old)) entry.now) }
        ensures cause { HasAppendCause (journal_length self.old) (capped (length (spelling_of entry.now)) + 5) (D.room_of disk.old) (D.count disk.old) (D.count disk.new) result }
        ensures fault { IfErr result (IsAfterFault ((self.new ≡ self.old) × (disk.new ≡ disk.old)) (is_broken self.new)) }
        ensures spare { spare_of self.new ≡ spare_of self.old }
        ensures room { D.room_of disk.new ≡ D.room_of disk.old }
        ensures count { D.count disk.old ≤ D.count disk.new }
    {
        let need = entry_size(entry) + AROUND_BODY;
        let room = disk.room();
        if self.length > room || need > room - self.length {
            return Err(AppendFault::Full {
                length: self.length,
                need,
                room,
            });
        }
        build(&mut self.frame, entry);
        match append_frame(disk, self.length, self.frame.as_slice()) {
            Ok(()) => {
                self.length += need;
                Ok(())
            }
            Err(_) => {
                self.broken = true;
                Err(AppendFault::DiskFault)
            }
        }
    }
}
