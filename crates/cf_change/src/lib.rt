//! What an update would change.
#![tactic(auto)]

mod details;
mod found;
mod held;
mod laws;
mod rows;
mod same;
mod set;

pub use found::{Found, found_of};
pub use held::{HeldAt, HeldMap};
pub use laws::{changes_hide, held_shows_more, shape_is_held, shape_stays_forward};
pub use set::{ChangeFault, ChangeSet, change_set, change_set_by};
