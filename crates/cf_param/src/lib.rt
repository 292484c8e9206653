//! Binding of a template's parameters to the texts that are given for them.
#![tactic(auto)]

mod binding;
mod constraints;
mod fault;
mod offered;
mod patterns;

pub use binding::{bind, bound_to};
pub use fault::BindFault;
pub use offered::{Given, Piece};
