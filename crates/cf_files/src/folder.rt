//! What is asked of the system for the files of a folder.
//!
//! Each function is a few calls of std. It is trusted that a file holds what was written and synced, that a name is given to a file,
//! moved to another one in its place, or removed as a whole or not at all, and that a crash leaves the names that stood in a folder
//! when it was synced.
use cf_tokens::{System, sync_folder};
use std::fs::File;
use std::io::{ErrorKind, Write};
use std::{fs, io};

/// Whether something stands at a path, whatever it is.
///
/// # Errors
/// The system's.
pub fn stands<R: System>(rt: &R, path: &str) -> io::Result<bool> {
    match fs::symlink_metadata(rt, path) {
        Ok(_) => Ok(true),
        Err(error) if error.kind() == ErrorKind::NotFound => Ok(false),
        Err(error) => Err(error),
    }
}

// Whether a regular file that holds just this stands at a path.
fn holds<R: System>(rt: &R, path: &str, content: &str) -> io::Result<bool> {
    let found = fs::symlink_metadata(rt, path)?;
    if !found.is_file() || found.len() != content.len() as u64 {
        return Ok(false);
    }
    Ok(fs::read(rt, path)?.as_slice() == content.as_bytes())
}

// Removes the file at a path, where there is one.
fn clear<R: System>(rt: &R, path: &str) -> io::Result<()> {
    match fs::remove_file(rt, path) {
        Ok(()) => Ok(()),
        Err(error) if error.kind() == ErrorKind::NotFound => Ok(()),
        Err(error) => Err(error),
    }
}

/// Writes a file of its own that holds this, and syncs it.
///
/// # Errors
/// The system's. There may be no such file then, or one that holds a part.
pub fn write_new<R: System>(rt: &R, new: &str, content: &str) -> io::Result<()> {
    clear(rt, new)?;
    let mut file = File::create_new(rt, new)?;
    file.write_all(content.as_bytes())?;
    file.sync_all()
}

/// Gives the file that was written its name, for good. A file that has the name already is left as it is. It may only be the one that
/// an earlier try gave the name, so it has to hold the same.
///
/// # Errors
/// The system's, and `AlreadyExists` where something else has the name. Where it is another one the file may have its name then, but
/// not for good.
pub fn put_in_free_place<R: System>(
    rt: &R,
    folder: &str,
    new: &str,
    path: &str,
    content: &str,
) -> io::Result<()> {
    match fs::hard_link(rt, new, path) {
        Ok(()) => {}
        Err(error) if error.kind() == ErrorKind::AlreadyExists => {
            if !holds(rt, path, content)? {
                return Err(error);
            }
        }
        Err(error) => return Err(error),
    }
    clear(rt, new)?;
    sync_folder(rt, folder)
}

/// Puts the file that was written in the place of the one that has its name, for good.
///
/// # Errors
/// The system's. It may be in its place then, but not for good.
pub fn put_in_place<R: System>(rt: &R, folder: &str, new: &str, path: &str) -> io::Result<()> {
    fs::rename(rt, new, path)?;
    sync_folder(rt, folder)
}

/// Removes the file at a path, where it is there, for good.
///
/// # Errors
/// The system's. It may be gone then, but not for good.
pub fn remove<R: System>(rt: &R, folder: &str, path: &str) -> io::Result<()> {
    clear(rt, path)?;
    sync_folder(rt, folder)
}
