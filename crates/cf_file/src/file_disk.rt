ghost use Rattle.std.specs.Prelude.{◌≡◌, ◌⊎◌, ◌≤◌, IsTrue, OnOk, OnErr};
ghost use Rattle.cf_disk.specs.Disk.{NoneNew, NoneLost, Only, Elapses};
ghost use Rattle.cf_tree.specs.Counts.{HasRisen};
ghost use Rattle.cf_file.specs.File.{most_bytes, IsSame};

use crate::calls::{FileCalls, Stage};
use cf_disk::{Disk, DiskFail};
use std::io;
use std::io::ErrorKind;

/// How long the file may become, in bytes.
const ROOM: u64 = 4_294_967_296;

/// A disk over one file, which it opens at its first sync. It then takes the exclusive lock, syncs the folder and the file, and only
/// after that anything is read or written. Its room is 4,294,967,296 bytes.
///
/// A call fails where the system's does, where another opening of the file has the lock, before the first sync that succeeded, and
/// after one that failed. It then reports the error, and the count of faults rises. Where the lock is held nothing has changed, and a
/// later sync tries to open the file again. After a sync that failed each call fails.
#[derive(Drop)]
pub struct FileDisk<F: FileCalls + Drop> {
    file: F,
    faults: u64,
}

impl<F: FileCalls + Drop> FileDisk<F> {
    ghost use Rattle.cf_file.specs.Disk.{file_of};

    /// The disk over this file.
    pub fn new(file: F) -> FileDisk<F>
        ensures file { file_of result ≡ file }
        ensures faultless { ⟦<FileDisk<F> as Disk>⟧.count result ≡ 0 }
    {
        FileDisk { file, faults: 0 }
    }

    // Reports the error of a call that failed, and counts it.
    fn failed(&mut self, error: &io::Error) -> DiskFail
        ensures file { self.new.file ≡ self.old.file }
        ensures later { self.old.faults ≤ self.new.faults }
        ensures risen { HasRisen self.old.faults self.new.faults }
    {
        self.file.report(error);
        self.faults = self.faults.saturating_add(1);
        DiskFail
    }
}

// No call is made on a file that is not synced.
fn unusable() -> io::Error {
    io::Error::other("not used before a sync of it succeeded, nor after one failed")
}

// Opens the file for this process alone, and syncs its folder.
#[tactic(auto, using(crate::proofs::Steps::same_on))]
fn open_placed<F: FileCalls>(file: &mut F) -> io::Result<()>
    ensures placed { OnOk result (F.stage_of file.new ≡ Stage.Placed) }
    ensures same { IsTrue F.tells → IsSame F.seen F.may_leave F.moment F.left_since file.old file.new }
{
    file.open()?;
    if file.lock()? {
        return file.sync_folder();
    }
    Err(io::Error::new(ErrorKind::WouldBlock, "another process has it open"))
}

// Opens the file for this process alone and syncs its folder, unless that was done.
#[tactic(auto, using(crate::proofs::Steps::same_itself))]
fn make_ready<F: FileCalls>(file: &mut F) -> io::Result<()>
    ensures ready { OnOk result ((F.stage_of file.new ≡ Stage.Placed) ⊎ (F.stage_of file.new ≡ Stage.Synced)) }
    ensures same { IsTrue F.tells → IsSame F.seen F.may_leave F.moment F.left_since file.old file.new }
{
    match file.stage() {
        Stage::Synced => Ok(()),
        Stage::Closed | Stage::Locked | Stage::Placed => open_placed(file),
        Stage::Broken => Err(unusable()),
    }
}

// Syncs the file, which is opened first where it isn't open.
#[tactic(auto, using(crate::proofs::Steps::elapses_on))]
fn sync_opened<F: FileCalls>(file: &mut F) -> io::Result<()>
    ensures durable { OnOk result (IsTrue F.tells → Only (F.seen file.old) (F.may_leave file.new)) }
    ensures seen { IsTrue F.tells → F.seen file.new ≡ F.seen file.old }
    ensures crash { IsTrue F.tells → NoneNew (F.may_leave file.old) (F.may_leave file.new) }
    ensures kept { OnErr result (IsTrue F.tells → NoneLost (F.may_leave file.old) (F.may_leave file.new)) }
    ensures time { IsTrue F.tells → Elapses (F.moment file.old) (F.moment file.new) (F.left_since file.old) (F.left_since file.new) (F.may_leave file.new) }
{
    make_ready(file)?;
    file.sync()
}

impl<F: FileCalls + Drop> Disk for FileDisk<F> {
    ghost use Rattle.cf_file.specs.declared.calls.Stage.TheVariants.{Synced};

    ghost tells = { F.tells };

    ghost seen = { λ d. F.seen d.file };

    ghost may_leave = { λ d. F.may_leave d.file };

    ghost moment = { λ d. F.moment d.file };

    ghost left_since = { λ d. F.left_since d.file };

    ghost room_of = { λ _. most_bytes };

    ghost count = { λ d. d.faults };

    ghost reaches = { λ d. (F.stage_of d.file ≡ Synced) × F.reaches d.file };

    ghost seen_may_stay = { λ d told. F.seen_may_stay d.file told };

    ghost counts_now = { λ d t c told early now. F.counts_now d.file t c told early now };

    ghost only_now = { λ d c told left. F.only_now d.file c told left };

    #[tactic(auto, using(crate::proofs::Steps::no_time))]
    fn length(&mut self) -> Result<u64, DiskFail> {
        match self.file.stage() {
            Stage::Synced => match self.file.length() {
                Ok(length) => Ok(length),
                Err(error) => Err(self.failed(&error)),
            },
            _ => Err(self.failed(&unusable())),
        }
    }

    #[tactic(auto, using(crate::proofs::Steps::no_time))]
    fn read(&mut self, at: u64, buf: &mut [u8]) -> Result<(), DiskFail> {
        match self.file.stage() {
            Stage::Synced => match self.file.read(at, buf) {
                Ok(()) => Ok(()),
                Err(error) => Err(self.failed(&error)),
            },
            _ => Err(self.failed(&unusable())),
        }
    }

    #[tactic(auto, using(crate::proofs::Steps::no_time, crate::proofs::Steps::none_torn, crate::proofs::Steps::not_reached, crate::proofs::Steps::less_reached))]
    fn write_at(&mut self, at: u64, bytes: &[u8]) -> Result<(), DiskFail> {
        match self.file.stage() {
            Stage::Synced => match self.file.write_at(at, bytes) {
                Ok(()) => Ok(()),
                Err(error) => Err(self.failed(&error)),
            },
            _ => Err(self.failed(&unusable())),
        }
    }

    #[tactic(auto, using(crate::proofs::Steps::no_time, crate::proofs::Steps::none_shortened, crate::proofs::Steps::not_reached, crate::proofs::Steps::less_reached))]
    fn cut(&mut self, to: u64) -> Result<(), DiskFail> {
        match self.file.stage() {
            Stage::Synced => match self.file.cut(to) {
                Ok(()) => Ok(()),
                Err(error) => Err(self.failed(&error)),
            },
            _ => Err(self.failed(&unusable())),
        }
    }

    fn sync(&mut self) -> Result<(), DiskFail> {
        match sync_opened(&mut self.file) {
            Ok(()) => Ok(()),
            Err(error) => Err(self.failed(&error)),
        }
    }

    fn room(&self) -> u64 {
        ROOM
    }

    fn faults(&self) -> u64 {
        self.faults
    }
}
