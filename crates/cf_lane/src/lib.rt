//! Lanes: a handler with the log of its calls, lent out for one call at a time.
#![tactic(auto)]

mod lane;
mod lease;
mod note;
mod told;

pub use lane::{Lane, Unlent};
pub use lease::{Answered, Lease};
pub use note::{Note, Notes};
pub use told::Told;
