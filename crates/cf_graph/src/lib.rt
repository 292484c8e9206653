//! Which resource of a template needs which, and in which order work on them is done.
#![tactic(auto)]

mod before;
mod cycle;
mod fault;
mod graph;
mod mentions;
mod needs;
mod notes;
mod sequence;
mod unknown;

pub use fault::GraphFault;
pub use graph::order;
pub use needs::is_made;
pub use sequence::Needs;
