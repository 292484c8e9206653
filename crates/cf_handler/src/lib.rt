//! Handlers: who makes, changes and deletes the resources of a lane, and the schemas of the types that are shipped.
#![tactic(auto)]

mod fence;
mod handler;
mod settled;
mod shipped;

pub use fence::FenceAnswer;
pub use handler::Handler;
pub use settled::{Settled, Settlement, settlement_of};
pub use shipped::{FILE_SCHEMA, RECORD_SCHEMA, file_schema, record_schema};
