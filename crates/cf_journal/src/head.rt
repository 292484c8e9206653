//! The head of a journal.
ghost use Rattle.std.specs.Prelude.{◌≡◌, ◌≢◌, ◌≤◌, ◌<◌, [], ◌∷◌, List, ℕ, length, slice_index, IsTrue, OnOk};
ghost use Rattle.cf_disk.specs.Disk.{Only, LeavesOnly, HasCause};
ghost use Rattle.cf_journal.specs.Head.{head_of, IsEmpty, IsHarmless, IsMadeEmpty};

use crate::calls::write_through;
use cf_disk::{Disk, DiskFail};

const TITLE: &[u8; 8] = b"CFSTACK1";

// The title with the first gate closed behind it.
const TITLE_AND_GATE: &[u8; 9] = b"CFSTACK1\0";

/// What the first bytes of a disk say.
#[derive(Clone, Copy, Debug, PartialEq, Eq)]
pub enum Head {
    /// No journal was made yet.
    New,
    /// Something else than a journal stands there.
    Foreign,
    /// A journal.
    Made,
}

/// What these first bytes of a disk say.
pub fn read_head(bytes: &[u8]) -> Head
    ensures { result ≡ head_of bytes.now }
{
    if bytes.len() < 2 || bytes[0] == 0 {
        return Head::New;
    }
    if bytes.len() < 9 || bytes[1..9] != TITLE[..] {
        return Head::Foreign;
    }
    if bytes[0] == 1 { Head::Made } else { Head::New }
}

/// Makes the journal of a disk that holds none; these are its bytes. A stop at any moment leaves a new journal, or one
/// that is made and has no entry.
pub fn make<D: Disk>(disk: &mut D, bytes: &[u8]) -> Result<(), DiskFail>
    requires new { head_of bytes.now ≡ Head.New }
    requires seen { IsTrue D.tells → D.seen disk.old ≡ bytes.now }
    requires durable { IsTrue D.tells → Only (D.seen disk.old) (D.may_leave disk.old) }
    requires room { 16 ≤ D.room_of disk.old }
    ensures begun { OnOk result (IsTrue D.tells → IsMadeEmpty (D.seen disk.new)) }
    ensures durable { OnOk result (IsTrue D.tells → Only (D.seen disk.new) (D.may_leave disk.new)) }
    ensures moments { IsTrue D.tells → LeavesOnly D.moment D.left_since disk.old disk.new IsEmpty }
    ensures room { D.room_of disk.new ≡ D.room_of disk.old }
    ensures cause { HasCause (D.count disk.old) (D.count disk.new) result }
{
    close_head(disk, bytes)?;
    write_title(disk)
}

// Closes the head gate, if it isn't closed already.
fn close_head<D: Disk>(disk: &mut D, bytes: &[u8]) -> Result<(), DiskFail>
    requires new { head_of bytes.now ≡ Head.New }
    requires seen { IsTrue D.tells → D.seen disk.old ≡ bytes.now }
    requires durable { IsTrue D.tells → Only (D.seen disk.old) (D.may_leave disk.old) }
    requires room { 16 ≤ D.room_of disk.old }
    ensures closed { OnOk result (IsTrue D.tells → (rest : List ℕ) × (D.seen disk.new ≡ 0 ∷ rest)) }
    ensures durable { OnOk result (IsTrue D.tells → Only (D.seen disk.new) (D.may_leave disk.new)) }
    ensures moments { IsTrue D.tells → LeavesOnly D.moment D.left_since disk.old disk.new IsEmpty }
    ensures room { D.room_of disk.new ≡ D.room_of disk.old }
    ensures cause { HasCause (D.count disk.old) (D.count disk.new) result }
{
    if !bytes.is_empty() && bytes[0] == 0 {
        return Ok(());
    }
    close_frames(disk, bytes)?;
    write_through(disk, 0, &[0])
}

// Closes the first gate, if the head gate is neither open nor closed: that one may be torn open when it is written.
fn close_frames<D: Disk>(disk: &mut D, bytes: &[u8]) -> Result<(), DiskFail>
    requires new { head_of bytes.now ≡ Head.New }
    requires gate { slice_index bytes.now 0 ≡ 0 → length bytes.now ≡ 0 }
    requires seen { IsTrue D.tells → D.seen disk.old ≡ bytes.now }
    requires durable { IsTrue D.tells → Only (D.seen disk.old) (D.may_leave disk.old) }
    requires room { 16 ≤ D.room_of disk.old }
    ensures harmless { OnOk result (IsTrue D.tells → IsHarmless (D.seen disk.new)) }
    ensures durable { OnOk result (IsTrue D.tells → Only (D.seen disk.new) (D.may_leave disk.new)) }
    ensures moments { IsTrue D.tells → LeavesOnly D.moment D.left_since disk.old disk.new IsEmpty }
    ensures room { D.room_of disk.new ≡ D.room_of disk.old }
    ensures cause { HasCause (D.count disk.old) (D.count disk.new) result }
{
    if bytes.len() < 2 {
        return Ok(());
    }
    write_through(disk, 9, &[0])
}

// Writes the title behind a closed head gate, and then opens that gate.
fn write_title<D: Disk>(disk: &mut D) -> Result<(), DiskFail>
    requires closed { IsTrue D.tells → (rest : List ℕ) × (D.seen disk.old ≡ 0 ∷ rest) }
    requires durable { IsTrue D.tells → Only (D.seen disk.old) (D.may_leave disk.old) }
    requires room { 16 ≤ D.room_of disk.old }
    ensures begun { OnOk result (IsTrue D.tells → IsMadeEmpty (D.seen disk.new)) }
    ensures durable { OnOk result (IsTrue D.tells → Only (D.seen disk.new) (D.may_leave disk.new)) }
    ensures moments { IsTrue D.tells → LeavesOnly D.moment D.left_since disk.old disk.new IsEmpty }
    ensures room { D.room_of disk.new ≡ D.room_of disk.old }
    ensures cause { HasCause (D.count disk.old) (D.count disk.new) result }
{
    write_through(disk, 1, TITLE_AND_GATE)?;
    write_through(disk, 0, &[1])
}
