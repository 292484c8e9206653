//! What the template functions and parameters do with texts: numbers, lists, pieces and base64.
#![tactic(auto)]

mod cuts;
mod encoding;
mod memory;
mod numbers;

pub use cuts::{comma_list, cut, split};
pub use encoding::base64_of;
pub use memory::TextMemory;
pub use numbers::number;
