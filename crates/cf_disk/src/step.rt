/// A call that a disk in memory has noted. A write or a cut that was not done still counts for what a crash may leave.
#[derive(Clone, Copy, Debug)]
pub enum Step {
    /// It asked for the length or for bytes, or was a sync that failed.
    Look,
    Write { at: u64, size: u64, done: bool },
    Cut { size: u64, done: bool },
    Sync,
}
