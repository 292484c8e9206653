//! What a journal's entry leaves of the stack that it is of: what a stack holds, its calls, and in `specs/` the fold.
#![tactic(auto)]

mod ahead;
mod begin;
mod call;
mod copies;
mod effect;
mod end;
mod events;
mod findings;
mod following;
mod heard;
mod held;
mod index;
mod layout;
mod ledger;
mod lines;
mod listed;
mod outset;
mod reply;
mod resources;
mod restoring;
mod seen;
mod state;
mod statuses;
mod terms;
mod tokens;
mod undoing;

pub use ahead::{Ahead, Way, follow_call, has_setback};
pub use begin::source_for;
pub use call::{Call, Ledger, Settled, new_call};
pub use cf_export::{Output, Outputs};
pub use effect::effect_at;
pub use events::intent_line;
pub use findings::{Findings, Found, Unlooked, find_at, findings_of, layout_of, look};
pub use following::follow;
pub use heard::{HeardEntries, HeardEntry};
pub use held::{
    Abandoned, GivenUp, Held, HeldStatus, Helds, KeptSet, KeptSets, Leftover, Leftovers, Pending,
    Pendings, open_call,
};
pub use index::{FoundByPath, PathIndex};
pub use layout::{Layout, Placed};
pub use ledger::call_with;
pub use lines::{growing_line, line_in_room};
pub use listed::{Listed, Lists, listed_exports, listed_pins};
pub use outset::Outset;
pub use resources::current_at;
pub use restoring::{Restoring, follow_restore, follow_restored, held_ranked, look_restoring};
pub use seen::seen_in;
pub use state::{Lines, State};
pub use statuses::{begun, is_in_progress};
pub use terms::Terms;
pub use tokens::{is_open, pending_with};
pub use undoing::{Undoing, follow_deletion, follow_try, look_back};
