//! Faults, each of which is told.
use cf_tree::NoMemory;
use std::alloc::AllocError;
use std::fmt::Display;
use std::io;

/// That a fault was told: a line on standard error has its path and what was wrong there. Only `tell` makes one, so that no fault goes
/// without its line.
#[derive(Clone, Copy, Debug)]
pub struct Told {
    told: (),
}

/// Why a call came to no answer of its own.
#[derive(Clone, Copy, Debug)]
pub enum Trouble {
    /// Memory was wanting before anything was changed.
    NoMemory,
    /// A fault, which was told.
    Fault(Told),
}

impl From<AllocError> for Trouble {
    fn from(_error: AllocError) -> Trouble {
        Trouble::NoMemory
    }
}

impl From<NoMemory> for Trouble {
    fn from(_error: NoMemory) -> Trouble {
        Trouble::NoMemory
    }
}

/// Tells a fault: one line on standard error, the program, the path and these words. A line that can't be written is lost.
pub fn tell<R: Eprint, D: Display + Drop>(rt: &R, path: &str, words: D) -> Trouble {
    match eprintln!(rt; "cfstack: {path}: {words}") {
        Ok(()) => {}
        Err(_) => {}
    }
    Trouble::Fault(Told { told: () })
}

/// What the system answered. An error is told, in the system's words.
///
/// # Errors
/// The fault that was told.
pub fn noted<R: Eprint, T: Drop>(rt: &R, path: &str, answer: io::Result<T>) -> Result<T, Trouble> {
    match answer {
        Ok(value) => Ok(value),
        Err(error) => Err(tell(rt, path, error)),
    }
}
