//! A disk as the journal sees it: what a read gives, and what a crash at any moment may leave.
#![tactic(auto)]

mod disk;
mod fuse;
mod memory;
mod step;

pub use disk::{Disk, DiskFail};
pub use fuse::FuseDisk;
pub use memory::MemoryDisk;
