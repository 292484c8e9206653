//! Runs of calls of a disk.
ghost use Rattle.std.specs.Prelude.{◌≡◌, ◌+◌, ◌-◌, ◌≤◌, ◌<◌, ℕ, List, [], ◌∷◌, length, take, OnOk, IfOk, IsTrue};
ghost use Rattle.cf_disk.specs.Disk.{overwritten, Torn, Only, LeavesOnly, HasCause};
ghost use Rattle.cf_journal.specs.Runs.{Unchanged, gate_opened, IsMidway};

use cf_disk::{Disk, DiskFail};

/// The disk is read in pieces of so many bytes.
const PIECE: usize = 65_536;

/// Writes, and syncs. Then the bytes are on the disk, whatever happens.
pub fn write_through<D: Disk>(disk: &mut D, at: u64, bytes: &[u8]) -> Result<(), DiskFail>
    requires durable { IsTrue D.tells → Only (D.seen disk.old) (D.may_leave disk.old) }
    requires start { IsTrue D.tells → at ≤ length (D.seen disk.old) }
    requires room { at + length bytes.now ≤ D.room_of disk.old }
    ensures written { OnOk result (IsTrue D.tells → D.seen disk.new ≡ overwritten (D.seen disk.old) at bytes.now) }
    ensures durable { OnOk result (IsTrue D.tells → Only (D.seen disk.new) (D.may_leave disk.new)) }
    ensures moments { IsTrue D.tells → LeavesOnly D.moment D.left_since disk.old disk.new (Torn at (length bytes.now) (D.seen disk.old)) }
    ensures room { D.room_of disk.new ≡ D.room_of disk.old }
    ensures cause { HasCause (D.count disk.old) (D.count disk.new) result }
{
    disk.write_at(at, bytes)?;
    disk.sync()
}

/// Puts a frame behind the last gate, which stands right before `end`, and then opens that gate.
pub fn append_frame<D: Disk>(disk: &mut D, end: u64, frame: &[u8]) -> Result<(), DiskFail>
    requires durable { IsTrue D.tells → Only (D.seen disk.old) (D.may_leave disk.old) }
    requires gate { 0 < end }
    requires start { IsTrue D.tells → end ≤ length (D.seen disk.old) }
    requires room { end + length frame.now ≤ D.room_of disk.old }
    ensures written { OnOk result (IsTrue D.tells → D.seen disk.new ≡ gate_opened (D.seen disk.old) end frame.now) }
    ensures durable { OnOk result (IsTrue D.tells → Only (D.seen disk.new) (D.may_leave disk.new)) }
    ensures moments { IsTrue D.tells → LeavesOnly D.moment D.left_since disk.old disk.new (IsMidway (D.seen disk.old) end frame.now) }
    ensures room { D.room_of disk.new ≡ D.room_of disk.old }
    ensures cause { HasCause (D.count disk.old) (D.count disk.new) result }
{
    write_through(disk, end, frame)?;
    write_through(disk, end - 1, &[1])
}

/// All the bytes of the disk, of which so many are there.
pub fn fill<D: Disk>(disk: &mut D, bytes: &mut [u8]) -> Result<(), DiskFail>
    requires { IsTrue D.tells → length bytes.old ≤ length (D.seen disk.old) }
    ensures filled { OnOk result (IsTrue D.tells → bytes.new ≡ take (length bytes.old) (D.seen disk.old)) }
    ensures unchanged { IsTrue D.tells → Unchanged D.seen D.may_leave D.moment D.left_since disk.old disk.new }
    ensures room { D.room_of disk.new ≡ D.room_of disk.old }
    ensures cause { HasCause (D.count disk.old) (D.count disk.new) result }
{
    let mut at = 0;
    while at < bytes.len() {
        let end = at + PIECE.min(bytes.len() - at);
        disk.read(at as u64, &mut bytes[at..end])?;
        at = end;
    }
    Ok(())
}
