ghost use Rattle.std.specs.Prelude.{◌≡◌, ◌++◌, ◌∷◌, [], false, IfOk, string_bytes};

use crate::calls::{FileCalls, Stage};
use cf_tree::NoMemory;
use std::alloc::{AllocError, Global};
use std::fs::{File, OpenOptions, TryLockError};
use std::io;
use std::io::ErrorKind;
use std::os::unix::fs::FileExt;
use std::rt::Files;

/// A file of a folder of the system.
///
/// It tells nothing of its bytes. Each call is the call of std of that name; opening makes the file where it is missing, and refuses
/// what is no regular file. The first sync is of the file whole, later ones are of its data. The lock is that of `flock`: it ends with
/// the process, and binds those who ask for it.
#[derive(Drop)]
pub struct RealFile<R: Drop> {
    rt: R,
    folder: String,
    path: String,
    file: Option<File>,
    stage: Stage,
}

impl<R: AllocGlobal + Drop> RealFile<R> {
    ghost use Rattle.cf_file.specs.Real.{folder_of_file, path_of_file};

    /// The file of this name in this folder. Nothing is opened yet.
    pub fn new(rt: R, folder: &str, name: &str) -> Result<RealFile<R>, NoMemory>
        ensures folder { IfOk result (λ file. folder_of_file file ≡ folder.now) }
        ensures path { IfOk result (λ file. path_of_file file ≡ folder.now ++ 47 ∷ name.now) }
    {
        let alloc = rt.alloc();
        let path = path_of(alloc, folder, name)?;
        let folder = String::from_str(alloc, folder)?;
        Ok(RealFile {
            rt,
            folder,
            path,
            file: None,
            stage: Stage::Closed,
        })
    }
}

// The path of a file of a folder.
fn path_of(alloc: Global, folder: &str, name: &str) -> Result<String, AllocError>
    ensures { IfOk result (λ path. string_bytes path ≡ folder.now ++ 47 ∷ name.now) }
{
    let mut path = String::from_str(alloc, folder)?;
    path.push('/')?;
    path.push_str(name)?;
    Ok(path)
}

// The file, once it is open.
fn opened(file: &Option<File>) -> io::Result<&File> {
    match file {
        Some(file) => Ok(file),
        None => Err(io::Error::other("not open")),
    }
}

// Opens a regular file, and makes it where there is none.
fn open_regular<R: Files<File = File>>(rt: &R, path: &str) -> io::Result<File> {
    let file = OpenOptions::new()
        .read(true)
        .write(true)
        .create(true)
        .open(rt, path)?;
    if !file.metadata()?.is_file() {
        return Err(io::Error::new(ErrorKind::InvalidInput, "not a regular file"));
    }
    Ok(file)
}

// Whether the exclusive lock was there to take.
fn lock_file(file: &Option<File>) -> io::Result<bool> {
    match opened(file)?.try_lock() {
        Ok(()) => Ok(true),
        Err(TryLockError::WouldBlock) => Ok(false),
        Err(TryLockError::Error(error)) => Err(error),
    }
}

// Syncs the file, which was synced before or wasn't.
fn sync_file(file: &Option<File>, stage: Stage) -> io::Result<()> {
    let file = opened(file)?;
    match stage {
        Stage::Synced => file.sync_data(),
        _ => file.sync_all(),
    }
}

impl<R: Files<File = File> + Eprint + Drop> FileCalls for RealFile<R> {
    ghost tells = { false };

    ghost seen = { λ _. [] };

    ghost may_leave = { λ _ _. Unit {0} };

    ghost moment = { λ _. 0 };

    ghost left_since = { λ _ _ _. Unit {0} };

    ghost stage_of = { λ f. f.stage };

    ghost seen_may_stay = { λ f told. tt };

    ghost counts_now = { λ f t c told early now. tt };

    ghost only_now = { λ f c told left. tt };

    fn stage(&self) -> Stage {
        self.stage
    }

    fn open(&mut self) -> io::Result<()> {
        self.stage = Stage::Closed;
        self.file = None;
        self.file = Some(open_regular(&self.rt, self.path.as_str())?);
        Ok(())
    }

    fn lock(&mut self) -> io::Result<bool> {
        match lock_file(&self.file) {
            Ok(true) => {
                self.stage = Stage::Locked;
                Ok(true)
            }
            Ok(false) => Ok(false),
            Err(error) => Err(error),
        }
    }

    fn sync_folder(&mut self) -> io::Result<()> {
        File::open(&self.rt, self.folder.as_str())?.sync_all()?;
        self.stage = Stage::Placed;
        Ok(())
    }

    fn length(&mut self) -> io::Result<u64> {
        Ok(opened(&self.file)?.metadata()?.len())
    }

    fn read(&mut self, at: u64, buf: &mut [u8]) -> io::Result<()> {
        opened(&self.file)?.read_exact_at(buf, at)
    }

    fn write_at(&mut self, at: u64, bytes: &[u8]) -> io::Result<()> {
        opened(&self.file)?.write_all_at(bytes, at)
    }

    fn cut(&mut self, to: u64) -> io::Result<()> {
        opened(&self.file)?.set_len(to)
    }

    fn sync(&mut self) -> io::Result<()> {
        match sync_file(&self.file, self.stage) {
            Ok(()) => {
                self.stage = Stage::Synced;
                Ok(())
            }
            Err(error) => {
                self.stage = Stage::Broken;
                Err(error)
            }
        }
    }

    fn report(&self, error: &io::Error) {
        drop(eprintln!(self.rt; "cfstack: {}: {}", self.path, error));
    }
}
