//! Fences.

/// How the raising of a fence ends.
#[derive(Clone, Copy, Debug, PartialEq, Eq)]
pub enum FenceAnswer {
    /// The fence stands at the epoch.
    Raised,
    /// The fence stood at the epoch or above it, and stands so still.
    Ahead { fence: u64 },
    /// The raising broke off: the fence stands as it did, or at the epoch.
    Fault,
}
