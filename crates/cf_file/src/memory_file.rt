ghost use Rattle.std.specs.Prelude.{◌≡◌, true, reverse};
ghost use Rattle.cf_disk.specs.Calls.{now_counts, now_only};
ghost use Rattle.cf_disk.specs.Memory.{memory_room};
ghost use Rattle.cf_disk.specs.Stays.{memory_stays};
ghost use Rattle.cf_file.specs.File.{most_bytes};

use crate::calls::{FileCalls, Stage};
use cf_disk::{Disk, DiskFail, MemoryDisk};
use std::io;

/// A file in memory, which tells what it holds, for tests: a disk in memory stands for its bytes.
#[derive(Drop)]
pub struct MemoryFile {
    disk: MemoryDisk,
    stage: Stage,
    taken: bool,
    ghost roomy: { memory_room disk ≡ most_bytes },
}

impl MemoryFile {
    ghost use Rattle.cf_file.specs.Memory.{bytes_of, is_taken};

    /// The file of these bytes, with the lock taken by another opening of it or free. Its calls that fail are those of the disk.
    pub fn new(disk: MemoryDisk, taken: bool) -> MemoryFile
        requires { memory_room disk ≡ most_bytes }
        ensures disk { bytes_of result ≡ disk }
        ensures taken { is_taken result ≡ taken }
    {
        MemoryFile {
            disk,
            stage: Stage::Closed,
            taken,
        }
    }
}

// The error of a call that is planned to fail.
fn planned() -> io::Error {
    io::Error::other("planned to fail")
}

impl FileCalls for MemoryFile {
    ghost tells = { true };

    ghost seen = { λ f. ⟦<MemoryDisk as Disk>⟧.seen f.disk };

    ghost may_leave = { λ f. ⟦<MemoryDisk as Disk>⟧.may_leave f.disk };

    ghost moment = { λ f. ⟦<MemoryDisk as Disk>⟧.moment f.disk };

    ghost left_since = { λ f. ⟦<MemoryDisk as Disk>⟧.left_since f.disk };

    ghost stage_of = { λ f. f.stage };

    ghost reaches = { λ f. ⟦<MemoryDisk as Disk>⟧.reaches f.disk };

    ghost seen_may_stay = { λ f told. memory_stays f.disk.first.items (reverse f.disk.calls.items) f.disk.log.items f.disk.bytes.items f.disk.current f.disk.possible };

    ghost counts_now = { λ f t c told early now. now_counts f.disk.first.items (reverse f.disk.calls.items) f.disk.log.items t c now };

    ghost only_now = { λ f c told left. now_only f.disk.first.items (reverse f.disk.calls.items) f.disk.log.items c left };

    fn stage(&self) -> Stage {
        self.stage
    }

    fn open(&mut self) -> io::Result<()> {
        self.stage = Stage::Closed;
        Ok(())
    }

    fn lock(&mut self) -> io::Result<bool> {
        if self.taken {
            return Ok(false);
        }
        self.stage = Stage::Locked;
        Ok(true)
    }

    fn sync_folder(&mut self) -> io::Result<()> {
        self.stage = Stage::Placed;
        Ok(())
    }

    fn length(&mut self) -> io::Result<u64> {
        match self.disk.length() {
            Ok(length) => Ok(length),
            Err(DiskFail) => Err(planned()),
        }
    }

    fn read(&mut self, at: u64, buf: &mut [u8]) -> io::Result<()> {
        match self.disk.read(at, buf) {
            Ok(()) => Ok(()),
            Err(DiskFail) => Err(planned()),
        }
    }

    fn write_at(&mut self, at: u64, bytes: &[u8]) -> io::Result<()> {
        match self.disk.write_at(at, bytes) {
            Ok(()) => Ok(()),
            Err(DiskFail) => Err(planned()),
        }
    }

    fn cut(&mut self, to: u64) -> io::Result<()> {
        match self.disk.cut(to) {
            Ok(()) => Ok(()),
            Err(DiskFail) => Err(planned()),
        }
    }

    fn sync(&mut self) -> io::Result<()> {
        match self.disk.sync() {
            Ok(()) => {
                self.stage = Stage::Synced;
                Ok(())
            }
            Err(DiskFail) => {
                self.stage = Stage::Broken;
                Err(planned())
            }
        }
    }

    fn report(&self, _error: &io::Error) {}
}
