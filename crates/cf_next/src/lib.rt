//! What comes next in an operation: all steps that are due, and the one that is taken.
#![tactic(auto)]

mod chosen;
mod creation;
mod deletions;
mod dues;
mod facts;
mod first;
mod forward;
mod home;
mod last;
mod lookups;
mod marks;
mod needed;
mod offer;
mod opens;
mod past;
mod removals;
mod repeats;
mod restores;
mod restoring;
mod retained;
mod rollback;
mod stage;
mod step;
mod tallies;
mod unmaking;

pub use cf_plan::{Ask, Start, Starts};
pub use chosen::{NextFault, next};
pub use dues::Dues;
pub use home::{Home, Homes, leases_of, schemas_of};
pub use offer::{Keeping, Keepings, Offer, Turn};
pub use stage::due;
pub use step::Next;
