//! What handlers of a type answer: a table over the request and what is live, the same for handlers that keep their
//! resources in memory and for those that keep them on a disk.
#![tactic(auto)]

mod answer;
mod counts;
mod live;
mod live_set;
mod noted;
mod table;
mod within;

pub use answer::{answer_to, found, is_apart, look_at};
pub use counts::{count_answer, count_fence, count_look};
pub use live::{LiveResource, apply};
pub use live_set::LiveSet;
pub use noted::Noted;
pub use within::{is_of_lane, lane_answer, shows_short};
