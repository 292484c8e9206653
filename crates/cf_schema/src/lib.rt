//! Schemas of resource types: their reading, and how far two versions of a resource's properties differ.
#![tactic(auto)]

mod changed;
mod described;
mod fault;
mod kinds;
mod members;
mod pointers;
mod reading;

pub use changed::{Difference, differs};
pub use described::Schema;
pub use fault::SchemaFault;
pub use kinds::Schemas;
pub use reading::read_schema;
