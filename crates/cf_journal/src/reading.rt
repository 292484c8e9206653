//! Reading a journal back.
ghost use Rattle.std.specs.Prelude.{◌≡◌, ◌≤◌, ◌<◌, ◌^◌, ◌+◌, ◌-◌, ◌⊎◌, [], List, ℕ, false, Ok, Err, length, take, drop, vec_len, IsTrue, IfOk, IfErr, OnOk, MatchResult};
ghost use Rattle.cf_disk.specs.Disk.{Only, LeavesOnly, HasCause};
ghost use Rattle.cf_tree.specs.Counts.{HasRisen};
ghost use Rattle.cf_entry.specs.EntryReading.{entry_of};
ghost use Rattle.cf_journal.specs.Head.{head_of, IsEmpty, IsMadeEmpty};
ghost use Rattle.cf_journal.specs.Frames.{frames_of, with_front};
ghost use Rattle.cf_journal.specs.Runs.{Unchanged};
ghost use Rattle.cf_journal.specs.Record.{record_of, journal_length, is_broken, IsOldOrKept, KeepsRecord, Stands};
ghost use Rattle.cf_journal.specs.Faults.{HasRecoverCause, HasReadCause, FramesEnd, IfRefused};
ghost use Rattle.cf_journal.specs.Opens.{OpensAs};

use crate::calls::fill;
use crate::faults::RecoverFault;
use crate::frames::read_frame;
use crate::head::{Head, make, read_head};
use crate::journal::Journal;
use cf_disk::{Disk, DiskFail};
use cf_entry::{Entries, read_entry};
use std::alloc::{AllocError, Global};

/// The frames from offset 9 on, with these bytes from there on: their entries, and the length of the journal.
fn read_frames(alloc: Global, frames: &[u8]) -> Result<(Entries, u64), RecoverFault>
    requires { length frames.now + 9 < 2 ^ 63 }
    ensures read { FramesEnd (frames_of entry_of 9 frames.now) result }
    ensures long { IfOk result (λ found. 10 ≤ found.1) }
{
    let mut entries = Entries::new(alloc);
    let mut at: u64 = 9;
    let mut rest = frames;
    while let [gate, behind @ ..] = rest {
        if *gate != 1 {
            return Ok((entries, at + 1));
        }
        let Some((body, next)) = read_frame(behind) else {
            return Err(RecoverFault::NotAJournal { offset: at });
        };
        let Some(entry) = read_entry(alloc, body)? else {
            return Err(RecoverFault::NotAJournal { offset: at });
        };
        entries.push(entry)?;
        at += 5 + body.len() as u64;
        rest = next;
    }
    Err(RecoverFault::NotAJournal { offset: at })
}

fn zeros(alloc: Global, length: u64) -> Result<Vec<u8>, AllocError>
    ensures { IfOk result (λ bytes. vec_len bytes ≡ length) }
{
    let mut bytes = Vec::new(alloc);
    bytes.resize(length as usize, 0)?;
    Ok(bytes)
}

/// Syncs, and reads all the bytes of the disk.
fn read_disk<D: Disk>(alloc: Global, disk: &mut D) -> Result<Vec<u8>, RecoverFault>
    ensures bytes { IfOk result (λ bytes. IsTrue D.tells → bytes.items ≡ D.seen disk.old) }
    ensures durable { OnOk result (IsTrue D.tells → Only (D.seen disk.new) (D.may_leave disk.new)) }
    ensures unchanged { IsTrue D.tells → Unchanged D.seen D.may_leave D.moment D.left_since disk.old disk.new }
    ensures room { D.room_of disk.new ≡ D.room_of disk.old }
    ensures count { D.count disk.old ≤ D.count disk.new }
    ensures cause { IfErr result (HasReadCause (D.count disk.old) (D.count disk.new)) }
{
    disk.sync()?;
    let size = disk.length()?;
    let mut bytes = zeros(alloc, size)?;
    fill(disk, bytes.as_mut_slice())?;
    Ok(bytes)
}

/// Makes the journal of a disk that holds none; these are its bytes.
fn begin<D: Disk>(
    alloc: Global,
    disk: &mut D,
    bytes: &[u8],
) -> Result<(Journal, Entries), RecoverFault>
    requires new { head_of bytes.now ≡ Head.New }
    requires seen { IsTrue D.tells → D.seen disk.old ≡ bytes.now }
    requires durable { IsTrue D.tells → Only (D.seen disk.old) (D.may_leave disk.old) }
    requires room { 16 ≤ D.room_of disk.old }
    ensures found { IfOk result (λ found. (journal_length found.0 ≡ 10) × (is_broken found.0 ≡ false) × (found.1 ≡ [])) }
    ensures begun { OnOk result (IsTrue D.tells → IsMadeEmpty (D.seen disk.new)) }
    ensures empty { IsTrue D.tells → IsEmpty (D.seen disk.new) }
    ensures durable { OnOk result (IsTrue D.tells → Only (D.seen disk.new) (D.may_leave disk.new)) }
    ensures moments { IsTrue D.tells → LeavesOnly D.moment D.left_since disk.old disk.new IsEmpty }
    ensures room { D.room_of disk.new ≡ D.room_of disk.old }
    ensures count { D.count disk.old ≤ D.count disk.new }
    ensures cause { IfErr result (HasReadCause (D.count disk.old) (D.count disk.new)) }
{
    make(disk, bytes)?;
    let journal = Journal::new(alloc, 10)?;
    Ok((journal, Entries::new(alloc)))
}

/// The journal of a disk that holds one; these are its bytes.
fn open(alloc: Global, bytes: &[u8]) -> Result<(Journal, Entries), RecoverFault>
    requires { head_of bytes.now ≡ Head.Made }
    ensures { OpensAs (frames_of entry_of 9 (drop 9 bytes.now)) result }
{
    let (entries, length) = read_frames(alloc, &bytes[9..])?;
    let journal = Journal::new(alloc, length)?;
    Ok((journal, entries))
}

/// The journal of a disk, and its entries. Where the disk holds none, a new one is made.
///
/// It begins with a sync, and reads each byte once. The room of the disk is from 16 to 4,294,967,296 bytes, so that an
/// entry which is too long for a frame finds no room. `NotAJournal` comes exactly where the bytes are no journal, with
/// the offset of the first place that is wrong, and nothing has changed then. `DiskFault` comes only where the disk's
/// count of faults rose. A crash at any moment of the call leaves what it might have left before, or a disk with the
/// same record.
pub fn recover<D: Disk>(alloc: Global, disk: &mut D) -> Result<(Journal, Entries), RecoverFault>
    requires least { 16 ≤ D.room_of disk.old }
    requires most { D.room_of disk.old ≤ 2 ^ 32 }
    ensures found { IfOk result (λ found. IsTrue D.tells → record_of (D.seen disk.old) ≡ Ok found.1) }
    ensures stands { IfOk result (λ found. Stands D.tells D.seen D.may_leave D.room_of found.0 disk.new) }
    ensures kept { IsTrue D.tells → KeepsRecord (D.seen disk.old) (D.seen disk.new) }
    ensures cause { IfErr result (HasRecoverCause D.tells (D.seen disk.old) (D.count disk.old) (D.count disk.new)) }
    ensures refused { IfErr result (IfRefused (IsTrue D.tells → Unchanged D.seen D.may_leave D.moment D.left_since disk.old disk.new)) }
    ensures any_moment { IsTrue D.tells → LeavesOnly D.moment D.left_since disk.old disk.new (IsOldOrKept (D.may_leave disk.old) (D.seen disk.old)) }
    ensures room { D.room_of disk.new ≡ D.room_of disk.old }
    ensures count { D.count disk.old ≤ D.count disk.new }
{
    let bytes = read_disk(alloc, disk)?;
    match read_head(bytes.as_slice()) {
        Head::New => begin(alloc, disk, bytes.as_slice()),
        Head::Foreign => Err(RecoverFault::NotAJournal { offset: 1 }),
        Head::Made => open(alloc, bytes.as_slice()),
    }
}
