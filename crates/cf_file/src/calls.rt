//! What is asked of the system for one file, and what is taken from its answers.
ghost use Rattle.std.specs.Prelude.{◌≡◌, ◌⊎◌, ◌+◌, ◌≤◌, Bool, ℕ, List, IsTrue, IfOk, OnOk, OnErr, length, take, drop};
ghost use Rattle.cf_disk.specs.Disk.{overwritten, Torn, Shortened, Follows, NoneNew, NoneLost, LeavesHalfDone, Only, Elapses};
ghost use Rattle.cf_file.specs.File.{most_bytes, IsSame};

use std::io;

/// How far a file is on its way to being used.
#[derive(Clone, Copy, Debug, PartialEq, Eq)]
pub enum Stage {
    /// It is not open, or open without the lock.
    Closed,

    /// This process has the exclusive lock, and nobody else changes the file. Nothing of it was synced by this process.
    Locked,

    /// Its folder was synced since, so a crash leaves the file there. What is in it was not synced by this process.
    Placed,

    /// It was synced too, so a crash loses nothing of what was found in it.
    Synced,

    /// A sync failed. What was written may be lost with no further error, so no more is asked of the file.
    Broken,
}

/// The calls of the system on one file. Each is one call of std, made by nobody else, and its clauses are what is taken from it.
///
/// A file of the system tells nothing (`tells`): its bytes are in no memory that a proof sees. Of one that does tell, as
/// a file in memory, the clauses say what it holds, and a disk over it is proved from them.
pub trait FileCalls {
    ghost use Rattle.cf_file.specs.declared.calls.Stage.{Stage};

    /// Whether files of this type tell what they hold.
    ghost tells: { Bool };

    /// The bytes that a read gives. A file that is missing has none.
    ghost seen: { Self → List ℕ };

    /// What a crash at this moment may leave.
    ghost may_leave: { Self → List ℕ → Type 0 };

    /// The moment, as a number that doesn't fall.
    ghost moment: { Self → ℕ };

    /// What a crash at some moment from that one on might have left.
    ghost left_since: { Self → ℕ → List ℕ → Type 0 };

    /// How far it is.
    ghost stage_of: { Self → Stage };

    /// Whether the next write or cut reaches the file. One that doesn't fails.
    ghost reaches: { Self → Type 0 } = { λ _. Unit {0} };

    /// How far it is.
    fn stage(&self) -> Stage
        ensures { result ≡ stage_of self.now };

    /// Opens the file, and makes an empty one where there is none. A file that was open is closed, and its lock let go.
    fn open(&mut self) -> io::Result<()>
        ensures closed { stage_of self.new ≡ Stage.Closed }
        ensures same { IsTrue tells → IsSame seen may_leave moment left_since self.old self.new };

    /// Takes the exclusive lock of the open file, and answers whether it has it: no, where another opening of the file has.
    fn lock(&mut self) -> io::Result<bool>
        requires { stage_of self.old ≡ Stage.Closed }
        ensures locked { IfOk result (λ taken. IsTrue taken → stage_of self.new ≡ Stage.Locked) }
        ensures same { IsTrue tells → IsSame seen may_leave moment left_since self.old self.new };

    /// Syncs the folder of the file, so that a crash leaves the file there.
    fn sync_folder(&mut self) -> io::Result<()>
        requires { stage_of self.old ≡ Stage.Locked }
        ensures placed { OnOk result (stage_of self.new ≡ Stage.Placed) }
        ensures same { IsTrue tells → IsSame seen may_leave moment left_since self.old self.new };

    /// The length of the file in bytes.
    fn length(&mut self) -> io::Result<u64>
        requires { stage_of self.old ≡ Stage.Synced }
        ensures length { IfOk result (λ n. IsTrue tells → n ≡ length (seen self.old)) }
        ensures seen { IsTrue tells → seen self.new ≡ seen self.old }
        ensures crash { IsTrue tells → NoneNew (may_leave self.old) (may_leave self.new) }
        ensures kept { IsTrue tells → NoneLost (may_leave self.old) (may_leave self.new) }
        ensures time { IsTrue tells → Elapses (moment self.old) (moment self.new) (left_since self.old) (left_since self.new) (may_leave self.new) }
        ensures stage { stage_of self.new ≡ stage_of self.old };

    /// Fills `buf` with the bytes from the offset `at` on.
    fn read(&mut self, at: u64, buf: &mut [u8]) -> io::Result<()>
        requires synced { stage_of self.old ≡ Stage.Synced }
        requires range { IsTrue tells → at + length buf.old ≤ length (seen self.old) }
        ensures bytes { OnOk result (IsTrue tells → buf.new ≡ take (length buf.old) (drop at (seen self.old))) }
        ensures seen { IsTrue tells → seen self.new ≡ seen self.old }
        ensures crash { IsTrue tells → NoneNew (may_leave self.old) (may_leave self.new) }
        ensures kept { IsTrue tells → NoneLost (may_leave self.old) (may_leave self.new) }
        ensures time { IsTrue tells → Elapses (moment self.old) (moment self.new) (left_since self.old) (left_since self.new) (may_leave self.new) }
        ensures stage { stage_of self.new ≡ stage_of self.old };

    /// Writes over what is there, and past the end.
    fn write_at(&mut self, at: u64, bytes: &[u8]) -> io::Result<()>
        requires synced { stage_of self.old ≡ Stage.Synced }
        requires start { IsTrue tells → at ≤ length (seen self.old) }
        requires room { at + length bytes.now ≤ most_bytes }
        ensures written { OnOk result (IsTrue tells → seen self.new ≡ overwritten (seen self.old) at bytes.now) }
        ensures crash { IsTrue tells → Follows (Torn at (length bytes.now)) (may_leave self.old) (may_leave self.new) }
        ensures torn { IsTrue tells → LeavesHalfDone (Torn at (length bytes.now)) (reaches self.old) (may_leave self.old) (may_leave self.new) }
        ensures reached { OnOk result (reaches self.old) }
        ensures time { IsTrue tells → Elapses (moment self.old) (moment self.new) (left_since self.old) (left_since self.new) (may_leave self.new) }
        ensures stage { stage_of self.new ≡ stage_of self.old };

    /// Cuts the file to a length that is at most its own.
    fn cut(&mut self, to: u64) -> io::Result<()>
        requires synced { stage_of self.old ≡ Stage.Synced }
        requires below { IsTrue tells → to ≤ length (seen self.old) }
        ensures cut { OnOk result (IsTrue tells → seen self.new ≡ take to (seen self.old)) }
        ensures crash { IsTrue tells → Follows (Shortened to) (may_leave self.old) (may_leave self.new) }
        ensures short { IsTrue tells → LeavesHalfDone (Shortened to) (reaches self.old) (may_leave self.old) (may_leave self.new) }
        ensures reached { OnOk result (reaches self.old) }
        ensures time { IsTrue tells → Elapses (moment self.old) (moment self.new) (left_since self.old) (left_since self.new) (may_leave self.new) }
        ensures stage { stage_of self.new ≡ stage_of self.old };

    /// Syncs the file. After it, a crash leaves what a read gives. After a first sync a read gives what the disk has, and
    /// nothing that an earlier process wrote and the disk lost.
    fn sync(&mut self) -> io::Result<()>
        requires { (stage_of self.old ≡ Stage.Placed) ⊎ (stage_of self.old ≡ Stage.Synced) }
        ensures synced { OnOk result (stage_of self.new ≡ Stage.Synced) }
        ensures broken { OnErr result (stage_of self.new ≡ Stage.Broken) }
        ensures durable { OnOk result (IsTrue tells → Only (seen self.old) (may_leave self.new)) }
        ensures seen { IsTrue tells → seen self.new ≡ seen self.old }
        ensures crash { IsTrue tells → NoneNew (may_leave self.old) (may_leave self.new) }
        ensures kept { OnErr result (IsTrue tells → NoneLost (may_leave self.old) (may_leave self.new)) }
        ensures time { IsTrue tells → Elapses (moment self.old) (moment self.new) (left_since self.old) (left_since self.new) (may_leave self.new) };

    /// Tells people of an error of this file, in one line.
    fn report(&self, error: &io::Error);

    /// What a read gives is always among what a crash now may leave.
    ghost seen_may_stay: { (file : Self) → IsTrue tells → may_leave file (seen file) };

    /// This moment is one of those since an earlier one.
    ghost counts_now: { (file : Self) (t : ℕ) (c : List ℕ) → IsTrue tells → t ≤ moment file → may_leave file c → left_since file t c };

    /// Since this moment there is no other.
    ghost only_now: { (file : Self) (c : List ℕ) → IsTrue tells → left_since file (moment file) c → may_leave file c };
}
