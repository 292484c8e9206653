ghost use Rattle.std.specs.Prelude.{◌≡◌, ◌==◌, ◌-◌, ◌&&◌, true, Some, not, length, reverse};
ghost use Rattle.cf_disk.specs.Calls.{now_counts, now_only};
ghost use Rattle.cf_disk.specs.Stays.{memory_stays};

use crate::{Disk, DiskFail, MemoryDisk};

/// A disk that passes so many calls on to another one and then fails each call, so that a test can stop a run at any
/// of them. A call that it fails is noted by the other disk as one that failed, so a write counts as written.
#[derive(Drop)]
pub struct FuseDisk {
    disk: MemoryDisk,
    left: u64,
}

impl FuseDisk {
    ghost use Rattle.cf_disk.specs.Fuse.{disk_of, calls_left};

    /// A fuse before this disk.
    pub fn new(disk: MemoryDisk, calls: u64) -> FuseDisk
        ensures disk { disk_of result ≡ disk }
        ensures calls { calls_left result ≡ calls }
    {
        FuseDisk { disk, left: calls }
    }

    /// The disk behind the fuse.
    pub fn into_disk(self) -> MemoryDisk
        ensures { result ≡ disk_of self }
    {
        let FuseDisk { disk, left: _ } = self;
        disk
    }
}

// Whether the next call passes. It is counted.
fn passes(left: &mut u64) -> bool
    ensures passes { result ≡ not (left.old == 0) }
    ensures counted { left.new ≡ left.old - 1 }
{
    if *left == 0 {
        return false;
    }
    *left -= 1;
    true
}

impl Disk for FuseDisk {
    ghost use Rattle.cf_disk.specs.Memory.{memory_passes, CallIsCounted};

    ghost tells = { true };

    ghost seen = { λ f. ⟦<MemoryDisk as Disk>⟧.seen f.disk };

    ghost may_leave = { λ f. ⟦<MemoryDisk as Disk>⟧.may_leave f.disk };

    ghost moment = { λ f. ⟦<MemoryDisk as Disk>⟧.moment f.disk };

    ghost left_since = { λ f. ⟦<MemoryDisk as Disk>⟧.left_since f.disk };

    ghost room_of = { λ f. ⟦<MemoryDisk as Disk>⟧.room_of f.disk };

    ghost count = { λ f. ⟦<MemoryDisk as Disk>⟧.count f.disk };

    ghost passes = { λ f n. Some (not (f.left == 0) && memory_passes f.disk n) };

    ghost counts = { λ f n new. (new.left ≡ f.left - 1) × CallIsCounted f.disk (not (f.left == 0) && memory_passes f.disk n) n new.disk };

    ghost reaches = { λ f. ⟦<MemoryDisk as Disk>⟧.reaches f.disk };

    ghost seen_may_stay = { λ f told. memory_stays f.disk.first.items (reverse f.disk.calls.items) f.disk.log.items f.disk.bytes.items f.disk.current f.disk.possible };

    ghost counts_now = { λ f t c told early now. now_counts f.disk.first.items (reverse f.disk.calls.items) f.disk.log.items t c now };

    ghost only_now = { λ f c told left. now_only f.disk.first.items (reverse f.disk.calls.items) f.disk.log.items c left };

    fn length(&mut self) -> Result<u64, DiskFail> {
        if !passes(&mut self.left) {
            return Err(self.disk.refuse());
        }
        self.disk.length()
    }

    fn read(&mut self, at: u64, buf: &mut [u8]) -> Result<(), DiskFail> {
        if !passes(&mut self.left) {
            return Err(self.disk.refuse());
        }
        self.disk.read(at, buf)
    }

    fn write_at(&mut self, at: u64, bytes: &[u8]) -> Result<(), DiskFail> {
        if !passes(&mut self.left) {
            return Err(self.disk.refuse_write(at, bytes.len() as u64));
        }
        self.disk.write_at(at, bytes)
    }

    fn cut(&mut self, to: u64) -> Result<(), DiskFail> {
        if !passes(&mut self.left) {
            return Err(self.disk.refuse_cut(to));
        }
        self.disk.cut(to)
    }

    fn sync(&mut self) -> Result<(), DiskFail> {
        if !passes(&mut self.left) {
            return Err(self.disk.refuse());
        }
        self.disk.sync()
    }

    fn room(&self) -> u64 {
        self.disk.room()
    }

    fn faults(&self) -> u64 {
        self.disk.faults()
    }
}
