//! The world of all stacks, as a journal's entries leave it: stepped over without memory, where there is room.
#![tactic(auto)]

mod laws;
mod ready;
mod room;
mod stack;
mod standing;
mod world;

pub use cf_effect::{
    Abandoned, Ahead, Call, Findings, Found, GivenUp, HeardEntries, HeardEntry, Held, HeldStatus,
    Helds, KeptSet, KeptSets, Layout, Ledger, Leftover, Leftovers, Lines, Output, Outputs, Outset,
    Pending, Pendings, Placed, Restoring, Settled, Terms, Undoing, Way, begun, call_with,
    current_at, held_ranked, is_in_progress, seen_in, source_for,
};
pub use laws::{awaited_stays, repeat_is_awaited, room_stays, stay_apart};
pub use stack::{StackState, Stacks};
pub use world::{World, fold};
