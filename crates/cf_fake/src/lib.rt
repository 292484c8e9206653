//! Handlers in memory, which answer by a table and fail by plan.
#![tactic(auto)]

mod late;
mod memory;
mod plan;
mod planned;
mod store;
mod told;
mod waiting;

pub use cf_answers::LiveResource;
pub use memory::MemoryHandler;
pub use plan::Plan;
pub use planned::{Break, Planned};
