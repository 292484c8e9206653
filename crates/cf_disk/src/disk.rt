ghost use Rattle.std.specs.Prelude.{◌≡◌, ◌+◌, ◌≤◌, Bool, ℕ, List, Option, None, IsTrue, IfOk, OnOk, OnErr, length, take, drop};
ghost use Rattle.cf_disk.specs.Disk.{overwritten, Torn, Shortened, Follows, NoneNew, NoneLost, LeavesHalfDone, IsAsKnown, Only, Elapses, HasCause};

/// The disk refused a call. Its count of faults has risen.
#[derive(Clone, Copy, Debug, PartialEq, Eq)]
pub struct DiskFail;

/// One file on a disk. Since the last sync that succeeded, a crash may leave any bytes in each range that was written
/// and past the old end, and any length between the least and the greatest since then; all other bytes stay. After
/// a sync that succeeded it leaves what a read gives. A write that fails counts as written.
pub trait Disk {
    /// Whether disks of this type tell what they hold. Those in memory do, and real files don't: of them nothing
    /// is said but the room and the count of faults.
    ghost tells: { Bool };

    /// The bytes that a read gives.
    ghost seen: { Self → List ℕ };

    /// What a crash at this moment may leave.
    ghost may_leave: { Self → List ℕ → Type 0 };

    /// The moment, as a number that doesn't fall.
    ghost moment: { Self → ℕ };

    /// What a crash at some moment from that one on might have left, during a call or between two.
    ghost left_since: { Self → ℕ → List ℕ → Type 0 };

    /// How long the file may become.
    ghost room_of: { Self → ℕ };

    /// How many calls have failed. The count stops at its last value.
    ghost count: { Self → ℕ };

    /// Whether the next call succeeds, if it writes so many bytes. None where that isn't known before.
    ghost passes: { Self → ℕ → Option Bool } = { λ _ _. None };

    /// What a call that writes so many bytes makes of what a type keeps to know this, whether it succeeds or not.
    /// Nothing is said of it where a type leaves this out.
    ghost counts: { Self → ℕ → Self → Type 0 } = { λ _ _ _. Unit {0} };

    /// Whether the next call reaches the file. A write or a cut that doesn't fails, and need not count for what a crash
    /// may leave.
    ghost reaches: { Self → Type 0 } = { λ _. Unit {0} };

    /// The length of the file in bytes.
    fn length(&mut self) -> Result<u64, DiskFail>
        ensures length { IfOk result (λ n. IsTrue tells → n ≡ length (seen self.old)) }
        ensures seen { IsTrue tells → seen self.new ≡ seen self.old }
        ensures crash { IsTrue tells → NoneNew (may_leave self.old) (may_leave self.new) }
        ensures kept { IsTrue tells → NoneLost (may_leave self.old) (may_leave self.new) }
        ensures time { IsTrue tells → Elapses (moment self.old) (moment self.new) (left_since self.old) (left_since self.new) (may_leave self.new) }
        ensures room { room_of self.new ≡ room_of self.old }
        ensures cause { HasCause (count self.old) (count self.new) result }
        ensures known { IsAsKnown (passes self.old 0) result }
        ensures counted { counts self.old 0 self.new };

    /// Fills `buf` with the bytes from the offset `at` on. They lie below the length.
    fn read(&mut self, at: u64, buf: &mut [u8]) -> Result<(), DiskFail>
        requires { IsTrue tells → at + length buf.old ≤ length (seen self.old) }
        ensures bytes { OnOk result (IsTrue tells → buf.new ≡ take (length buf.old) (drop at (seen self.old))) }
        ensures seen { IsTrue tells → seen self.new ≡ seen self.old }
        ensures crash { IsTrue tells → NoneNew (may_leave self.old) (may_leave self.new) }
        ensures kept { IsTrue tells → NoneLost (may_leave self.old) (may_leave self.new) }
        ensures time { IsTrue tells → Elapses (moment self.old) (moment self.new) (left_since self.old) (left_since self.new) (may_leave self.new) }
        ensures room { room_of self.new ≡ room_of self.old }
        ensures cause { HasCause (count self.old) (count self.new) result }
        ensures known { IsAsKnown (passes self.old 0) result }
        ensures counted { counts self.old 0 self.new };

    /// Writes over what is there, and past the end. It starts at most at the length and ends at most at the room.
    fn write_at(&mut self, at: u64, bytes: &[u8]) -> Result<(), DiskFail>
        requires start { IsTrue tells → at ≤ length (seen self.old) }
        requires room { at + length bytes.now ≤ room_of self.old }
        ensures written { OnOk result (IsTrue tells → seen self.new ≡ overwritten (seen self.old) at bytes.now) }
        ensures crash { IsTrue tells → Follows (Torn at (length bytes.now)) (may_leave self.old) (may_leave self.new) }
        ensures torn { IsTrue tells → LeavesHalfDone (Torn at (length bytes.now)) (reaches self.old) (may_leave self.old) (may_leave self.new) }
        ensures reached { OnOk result (reaches self.old) }
        ensures time { IsTrue tells → Elapses (moment self.old) (moment self.new) (left_since self.old) (left_since self.new) (may_leave self.new) }
        ensures room { room_of self.new ≡ room_of self.old }
        ensures cause { HasCause (count self.old) (count self.new) result }
        ensures known { IsAsKnown (passes self.old (length bytes.now)) result }
        ensures counted { counts self.old (length bytes.now) self.new };

    /// Cuts the file to a length that is at most its own.
    fn cut(&mut self, to: u64) -> Result<(), DiskFail>
        requires { IsTrue tells → to ≤ length (seen self.old) }
        ensures cut { OnOk result (IsTrue tells → seen self.new ≡ take to (seen self.old)) }
        ensures crash { IsTrue tells → Follows (Shortened to) (may_leave self.old) (may_leave self.new) }
        ensures short { IsTrue tells → LeavesHalfDone (Shortened to) (reaches self.old) (may_leave self.old) (may_leave self.new) }
        ensures reached { OnOk result (reaches self.old) }
        ensures time { IsTrue tells → Elapses (moment self.old) (moment self.new) (left_since self.old) (left_since self.new) (may_leave self.new) }
        ensures room { room_of self.new ≡ room_of self.old }
        ensures cause { HasCause (count self.old) (count self.new) result }
        ensures known { IsAsKnown (passes self.old 0) result }
        ensures counted { counts self.old 0 self.new };

    /// After it, a crash leaves what a read gives.
    fn sync(&mut self) -> Result<(), DiskFail>
        ensures durable { OnOk result (IsTrue tells → Only (seen self.old) (may_leave self.new)) }
        ensures seen { IsTrue tells → seen self.new ≡ seen self.old }
        ensures crash { IsTrue tells → NoneNew (may_leave self.old) (may_leave self.new) }
        ensures kept { OnErr result (IsTrue tells → NoneLost (may_leave self.old) (may_leave self.new)) }
        ensures time { IsTrue tells → Elapses (moment self.old) (moment self.new) (left_since self.old) (left_since self.new) (may_leave self.new) }
        ensures room { room_of self.new ≡ room_of self.old }
        ensures cause { HasCause (count self.old) (count self.new) result }
        ensures known { IsAsKnown (passes self.old 0) result }
        ensures counted { counts self.old 0 self.new };

    /// How long the file may become, in bytes. It never changes.
    fn room(&self) -> u64
        ensures { result ≡ room_of self.now };

    /// How many calls have failed. It never falls.
    fn faults(&self) -> u64
        ensures { result ≡ count self.now };

    /// What a read gives is always among what a crash now may leave.
    ghost seen_may_stay: { (disk : Self) → IsTrue tells → may_leave disk (seen disk) };

    /// This moment is one of those since an earlier one.
    ghost counts_now: { (disk : Self) (t : ℕ) (c : List ℕ) → IsTrue tells → t ≤ moment disk → may_leave disk c → left_since disk t c };

    /// Since this moment there is no other.
    ghost only_now: { (disk : Self) (c : List ℕ) → IsTrue tells → left_since disk (moment disk) c → may_leave disk c };
}
