//! What is asked of the system.
//!
//! Each function is a few calls of std, and what the file holds then is trusted: after `sync_all` succeeded a crash leaves what was
//! written before it, and a read gives what was written last.
use crate::system::System;
use std::fs::{File, OpenOptions};
use std::io::ErrorKind;
use std::os::unix::fs::FileExt;
use std::{fs, io};

/// Syncs a folder, so that a crash leaves the names that stand in it.
///
/// # Errors
/// The system's.
pub fn sync_folder<R: System>(rt: &R, folder: &str) -> io::Result<()> {
    File::open(rt, folder)?.sync_all()
}

// Makes a folder where there is none.
fn make_folder<R: System>(rt: &R, folder: &str) -> io::Result<()> {
    match fs::create_dir(rt, folder) {
        Ok(()) => Ok(()),
        Err(error) if error.kind() == ErrorKind::AlreadyExists => Ok(()),
        Err(error) => Err(error),
    }
}

// Opens a regular file, and makes an empty one where there is none.
fn open_regular<R: System>(rt: &R, path: &str) -> io::Result<File> {
    let file = OpenOptions::new()
        .read(true)
        .write(true)
        .create(true)
        .open(rt, path)?;
    if !file.metadata()?.is_file() {
        return Err(io::Error::new(ErrorKind::InvalidInput, "not a regular file"));
    }
    Ok(file)
}

/// Opens the table of a folder. Folder and table are made where they are not there, and a crash leaves their names from then on. What
/// the table holds is not synced here: the first call does it, after it has read the rows.
pub fn open_table<R: System>(rt: &R, home: &str, folder: &str, path: &str) -> io::Result<File> {
    make_folder(rt, folder)?;
    let file = open_regular(rt, path)?;
    sync_folder(rt, folder)?;
    sync_folder(rt, home)?;
    Ok(file)
}

/// How long the file is.
pub fn length_of(file: &File) -> io::Result<u64> {
    Ok(file.metadata()?.len())
}

/// Fills the bytes from a place of the file on.
pub fn fill(file: &File, at: u64, bytes: &mut [u8]) -> io::Result<()> {
    file.read_exact_at(bytes, at)
}

/// Puts a row behind the gate at a place, and then opens the gate, each with a sync: a crash leaves the row with its gate or none.
pub fn append_row(file: &File, at: u64, gate: u8, row: &[u8]) -> io::Result<()> {
    file.write_all_at(row, at.saturating_add(1))?;
    file.sync_all()?;
    file.write_all_at(&[gate], at)?;
    file.sync_all()
}

/// Sets the gate at a place. No sync: the next row's first sync has it.
pub fn set_gate(file: &File, at: u64, gate: u8) -> io::Result<()> {
    file.write_all_at(&[gate], at)
}
