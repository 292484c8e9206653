//! The book: what a run owns of its disk and its lanes, and the calls by which an operation goes on.
#![tactic(auto)]

mod apart;
mod beginning;
mod book;
mod ending;
mod entering;
mod fences;
mod granting;
mod homing;
mod issuing;
mod lending;
mod opening;
mod place;
mod record;
mod refused;
mod stop;
mod writing;

pub use book::Book;
pub use entering::enter;
pub use granting::Grant;
pub use homing::Parked;
pub use refused::{EnterFault, Refused};
pub use stop::StopFault;
