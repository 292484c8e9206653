//! What a wish orders, and why it is refused before anything is done.
#![tactic(auto)]

mod exported;
mod held;
mod imports;
mod laws;
mod paths;
mod planned;
mod preparing;
mod refusals;
mod resume;
mod rows;
mod same;
mod source;
mod stack;
mod taken;
mod wish;
mod work;

pub use held::held_of;
pub use laws::{first_deployment, used_suffice};
pub use preparing::{prepare, set_of};
pub use refusals::status_refusal;
pub use stack::set_in;
pub use wish::{Order, PrepareFault, StackFault, Wish};
