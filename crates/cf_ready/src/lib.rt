//! Which of the paths of an operation are ready, since all that they need is made, kept in rows of flags.
#![tactic(auto)]

mod flags;
mod ready;

pub use flags::Flags;
pub use ready::{Readiness, is_made_in, none_ready, touch};
