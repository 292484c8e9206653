//! Lanes whose calls are told on standard error, where a command line asks for it.
#![tactic(auto)]

mod line;
mod watched;
mod words;

pub use watched::Watched;
pub use words::{asks_progress, behind_progress};
