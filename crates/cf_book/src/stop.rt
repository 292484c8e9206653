//! Why a book stops.

/// What stops a book: from then on nothing is appended to its journal.
#[derive(Clone, Copy, Debug, Drop)]
pub enum StopFault {
    /// The journal's length and the bytes that the next entry needs pass the disk's room.
    Full { length: u64, need: u64, room: u64 },
    /// The disk failed. It has the entry that was to be appended or not, and has to be recovered.
    DiskFault,
    /// The lane at this place, in the order handed in, has a fence above the epoch of the opening.
    LaneAhead { lane: u64, fence: u64, epoch: u64 },
    /// Memory was not there.
    NoMemory,
}
