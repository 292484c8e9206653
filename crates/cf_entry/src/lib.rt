//! The entries of the journal, and the one spelling of each in bytes.
#![tactic(auto)]

mod copies;
mod entry;
mod put;
mod size;
mod status;
mod take;
mod turn;
mod unread;

pub use entry::{Begun, Entries, Entry, LaneNames, Reply};
pub use put::entry::write_entry;
pub use size::entry_size;
pub use status::Status;
pub use take::entry::read_entry;
pub use turn::{Cause, Phase, Reason, Why};
