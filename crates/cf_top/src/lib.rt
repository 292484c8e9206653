//! The top calls of the engine: what a command does over a library of templates, a sink, a disk with a journal, and lanes of
//! resources.
#![tactic(auto)]

mod asking;
mod deployment;
mod doing;
mod executing;
mod history;
mod not_yet;
mod opening;
mod planning;
mod refusals;
mod resuming;
mod reviewing;
mod schemas;
mod telling;
mod top;
mod validation;
mod wishing;

pub use history::{histories_agree, new_agrees};
pub use top::{Ended, alone, answer, cfstack};
