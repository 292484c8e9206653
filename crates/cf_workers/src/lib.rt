//! Those who make the calls of a book's operations: one after another, on the caller's thread.
#![tactic(auto)]

mod drive;

pub use drive::{Drove, drive_alone};
