//! A disk over a file of the system: the journal of a folder, which one process has at a time.
#![tactic(auto)]

mod calls;
mod file_disk;
mod memory_file;
mod real_file;

pub use calls::{FileCalls, Stage};
pub use file_disk::FileDisk;
pub use memory_file::MemoryFile;
pub use real_file::RealFile;
