//! Which entry may follow, and how far an operation has come in its forward phase.
#![tactic(auto)]

mod bad;
mod calls;
mod cause;
mod done;
mod end;
mod failing;
mod forward;
mod found;
mod index;
mod lanes;
mod laws;
mod overview;
mod path_flaws;
mod path_starts;
mod path_state;
mod progress;
mod repeats;
mod start;
mod starts;
mod states;
mod stepping;

pub use calls::{call_of, doubts_in, path_of_token, was_answered_at, was_not_updatable};
pub use cause::{Failure, failure_of};
pub use cf_desired::plan_text;
pub use done::done_paths;
pub use end::{failed_paths, is_cleared, is_refusal};
pub use failing::{difference_to, first_failing};
pub use forward::{Wants, is_free, wants_at};
pub use found::{Found, finding_at, is_held_right, wanted_at};
pub use lanes::{first_home, is_lane_leased, is_of_lane};
pub use laws::granted_is_proper;
pub use overview::{Overview, overview_of};
pub use path_starts::{create_of, may_begin, update_of};
pub use path_state::{PathFinding, PathState};
pub use progress::{Progress, goes_on, progress_of};
pub use repeats::{
    doubts_of, is_in_flight, is_repeat_in_flight, may_repeat, none_in_flight, waits_for_repeats,
};
pub use start::{Ask, Start, Starts};
pub use starts::starts_of;
pub use stepping::{has_nested, plan_before, plan_now};
