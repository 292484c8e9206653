//! The core: journal and lanes agree in every life of an engine, and each stack keeps what its status promises.
#![tactic(auto)]

mod advancing;
mod beginnings;
mod blaming;
mod completing;
mod events;
mod fitting;
mod foretold;
mod hiding;
mod laws;
mod more;
mod moves;
mod returning;
mod theorem;
mod tidying;
mod tokens;

pub use advancing::{advancing_begins, advancing_goes_on, advancing_stays, course_is_free};
pub use beginnings::{event_keeps, event_writes, start_is_sound_life};
pub use blaming::{failed_are_blamed, none_is_booked, stay_booked};
pub use completing::{
    back_is_restored, cleanup_keeps_whole, cleared_is_restored, course_keeps_promise,
    creation_is_whole, held_is_found, rest_keeps_whole, stays_at_rest, update_ends_at_rest,
    update_is_whole, whole_is_complete,
};
pub use events::{held_is_live, lanes_keep, opened_keeps, repeat_keeps, settle_keeps};
pub use fitting::{each_is_written, fits_kept};
pub use foretold::{
    begun_is_told, calls_are_told, cleanup_is_told, completed_is_told, made_is_told,
};
pub use hiding::{
    described_is_kept, intended_is_hidden, none_is_ordered, order_stays, rest_begins_seen,
    rest_stays_seen, said_is_in_order, shape_stays_advancing, start_is_described,
};
pub use laws::{cleared_stays, ends_cleared, unmaking_begins, unmaking_stays, written_is_to};
pub use more::{
    completes_begun_stays, leases_once_stays, leases_stay_open, leaves_apart_stays,
    leaves_once_stays, lists_given_up_stays, settles_once_stays, start_is_once,
};
pub use moves::{
    done_moves, doubt_moves, intent_moves, kept_may, kept_moves, one_is_put, opening_moves,
    outcome_moves, own_kept, phase_moves,
};
pub use returning::{
    back_holds, back_stays_at_rest, back_stays_in_cleanup, failed_rollbacks_stay, updates_go_back,
    updates_skip_none, updates_turn_back,
};
pub use theorem::{
    back_is_told, event_holds, events_hold, holds_keeps_promises, lanes_are_named,
    lives_keep_promises, none_failed_yet, operations_go_on, starts_hold, turns_had_cause,
    way_is_kept,
};
pub use tidying::{
    back_tidying_begins, cleanup_goes_on, deletion_goes_on, forward_goes_on, nothing_deleted,
    operation_goes_on, rollback_goes_on, tidying_begins, tidying_ends, tidying_stays, told_begins,
    told_stays, tries_stay_left,
};
pub use tokens::{few_changes, few_stay, one_is_open, tokens_are_few};
