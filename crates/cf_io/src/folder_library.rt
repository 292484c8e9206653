ghost use Rattle.std.specs.Prelude.{◌≡◌, ◌≤◌, ◌++◌, ◌∷◌, length, false, IfOk, Ok, Err, None, string_bytes};
ghost use Rattle.cf_io.specs.Library.{Fetches, HasFetchCause, CountsMisses};
ghost use Rattle.cf_io.specs.Stores.{folder_of, is_file_name, most_file_bytes, IsBounded};

use crate::library::{FetchFault, Library};
use std::alloc::{AllocError, Global};
use std::fs::{File, Metadata};
use std::io::{ErrorKind, Read};
use std::rt::Files;
use std::{fs, io};

/// The largest file that is read, in bytes.
const MOST_BYTES: u64 = 1_073_741_824;

/// The files of a folder, each under its name.
///
/// A name that is empty, holds `/` or begins with `.` stands for no file. A folder that is not there counts as a
/// failure, and so do a file over 1,073,741,824 bytes, what stands under a name and is no regular file (it is not
/// opened), and each error of the system but two: one of kind `NotFound` for the file means that the folder has no such
/// file, and one of kind `OutOfMemory` is want of memory. A failure is told in one line on standard error, with the path
/// and the system's words; where that can't be printed, nothing else changes. Each fetch looks at the folder and opens its
/// file anew.
#[derive(Drop)]
pub struct FolderLibrary<R: Files + AllocGlobal + Eprint + Drop> {
    rt: R,
    folder: String,
    faults: u64,
    misses: u64,
}

impl<R: Files + AllocGlobal + Eprint + Drop> FolderLibrary<R> {
    /// The library of this folder, which is not opened yet.
    pub fn new(rt: R, folder: String) -> FolderLibrary<R>
        ensures folder { folder_of result ≡ string_bytes folder }
        ensures faultless { ⟦<FolderLibrary<R> as Library>⟧.count result ≡ 0 }
        ensures unmissed { ⟦<FolderLibrary<R> as Library>⟧.missed result ≡ 0 }
    {
        FolderLibrary {
            rt,
            folder,
            faults: 0,
            misses: 0,
        }
    }

    // Notes that nothing stands under a name.
    fn missed(&mut self) -> Option<Vec<u8>>
        ensures none { result ≡ None }
        ensures faults { self.new.faults ≡ self.old.faults }
        ensures misses { CountsMisses self.old.misses self.new.misses (Ok result) }
        ensures folder { self.new.folder ≡ self.old.folder }
    {
        self.misses = self.misses.saturating_add(1);
        None
    }

    // What an error of the system means. One that counts is told on standard error.
    fn failed(&mut self, path: &str, error: &io::Error) -> FetchFault
        ensures cause { HasFetchCause self.old.faults self.new.faults (Err result) }
        ensures misses { self.new.misses ≡ self.old.misses }
        ensures folder { self.new.folder ≡ self.old.folder }
    {
        if error.kind() == ErrorKind::OutOfMemory {
            return FetchFault::NoMemory;
        }
        self.faults = self.faults.saturating_add(1);
        drop(eprintln!(self.rt; "cfstack: {path}: {error}"));
        FetchFault::Failed
    }
}

// Whether a name may stand for a file of the folder.
fn is_file_name(name: &str) -> bool
    ensures { result ≡ is_file_name name.now }
{
    let bytes = name.as_bytes();
    match bytes.first() {
        Some(first) => *first != b'.' && !bytes.contains(&b'/'),
        None => false,
    }
}

// The path of a file of a folder.
fn path_of(alloc: Global, folder: &str, name: &str) -> Result<String, AllocError>
    ensures { IfOk result (λ path. string_bytes path ≡ folder.now ++ 47 ∷ name.now) }
{
    let mut path = String::from_str(alloc, folder)?;
    path.push('/')?;
    path.push_str(name)?;
    Ok(path)
}

// Whether this is a file that is read.
fn check_file(found: &Metadata) -> io::Result<()> {
    if !found.is_file() {
        return Err(io::Error::from(ErrorKind::InvalidInput));
    }
    if found.len() > MOST_BYTES {
        return Err(io::Error::from(ErrorKind::FileTooLarge));
    }
    Ok(())
}

// The bytes of a file. It is looked at before it is opened, since a pipe may keep its opener waiting, and no more is
// read than may be, since a file can grow meanwhile.
fn read_file<R: Files + AllocGlobal>(rt: &R, path: &str) -> io::Result<Vec<u8>>
    ensures { IfOk result (λ bytes. length bytes.items ≤ most_file_bytes) }
{
    check_file(&fs::metadata(rt, path)?)?;
    let mut bytes = Vec::new(rt.alloc());
    File::open(rt, path)?
        .take(MOST_BYTES + 1)
        .read_to_end(&mut bytes)?;
    if bytes.len() as u64 > MOST_BYTES {
        return Err(io::Error::from(ErrorKind::FileTooLarge));
    }
    Ok(bytes)
}

// The bytes of a file of a folder, and None where the folder has no such file.
fn find_file<R: Files + AllocGlobal>(
    rt: &R,
    folder: &str,
    path: &str,
) -> io::Result<Option<Vec<u8>>>
    ensures { IfOk result IsBounded }
{
    if !fs::metadata(rt, folder)?.is_dir() {
        return Err(io::Error::from(ErrorKind::NotADirectory));
    }
    match read_file(rt, path) {
        Ok(bytes) => Ok(Some(bytes)),
        Err(error) if error.kind() == ErrorKind::NotFound => Ok(None),
        Err(error) => Err(error),
    }
}

impl<R: Files + AllocGlobal + Eprint + Drop> Library for FolderLibrary<R> {
    ghost count = { λ l. l.faults };

    ghost missed = { λ l. l.misses };

    fn fetch(&mut self, name: &str) -> Result<Option<Vec<u8>>, FetchFault>
        ensures found { Fetches None name.now result }
        ensures same { ⟦<FolderLibrary<R> as Library>⟧.texts self.new ≡ ⟦<FolderLibrary<R> as Library>⟧.texts self.old }
        ensures cause { HasFetchCause self.old.faults self.new.faults result }
        ensures misses { CountsMisses self.old.misses self.new.misses result }
        ensures outside { is_file_name name.now ≡ false → result ≡ Ok None }
        ensures bounded { IfOk result IsBounded }
        ensures folder { folder_of self.new ≡ folder_of self.old }
    {
        if !is_file_name(name) {
            return Ok(self.missed());
        }
        let Ok(path) = path_of(self.rt.alloc(), self.folder.as_str(), name) else {
            return Err(FetchFault::NoMemory);
        };
        match find_file(&self.rt, self.folder.as_str(), path.as_str()) {
            Ok(Some(bytes)) => Ok(Some(bytes)),
            Ok(None) => Ok(self.missed()),
            Err(error) => Err(self.failed(path.as_str(), &error)),
        }
    }

    fn faults(&self) -> u64 {
        self.faults
    }

    fn misses(&self) -> u64 {
        self.misses
    }
}
