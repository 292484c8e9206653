//! The journal of an engine: appending that survives any crash, and reading it back.
#![tactic(auto)]

mod calls;
mod faults;
mod frames;
mod head;
mod journal;
mod reading;

pub use faults::{AppendFault, RecoverFault};
pub use journal::Journal;
pub use reading::recover;
