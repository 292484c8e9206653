//! What is kept of a creation that goes forward, which holds nothing from before: which of its paths are ready.
ghost use Rattle.std.specs.Prelude.{◌≡◌, ◌∷◌, ◌++◌, ◌<◌, ◌&&◌, not, [], ℕ, IfOk, IfSome, None, length, option_copied, true, false};
ghost use Rattle.std.specs.List.{list_any};
ghost use Rattle.cf_effect.specs.Ahead.{FollowsCall, FollowsFound, FollowsMade, GoesForth, IsAhead, IsReadiness, Touches, found_in, is_setback, is_sound, is_update_of, nestings_of, unless_kept, waiting_for, waits_for};
ghost use Rattle.cf_effect.specs.Layout.{AreRows, is_place, source_members, users_at};
ghost use Rattle.cf_effect.specs.Words.{is_create};
ghost use Rattle.cf_effect.specs.State.{state_of};
ghost use Rattle.cf_effect.specs.World.{StackState};

use crate::call::Call;
use crate::findings::{Findings, Found};
use crate::heard::HeardEntry;
use crate::held::Pending;
use crate::layout::{Layout, Placed};
use crate::state::State;
use cf_desired::{Evaluated, Shared, has_nested};
use cf_entry::{Entry, Reply, Status};
use cf_ready::{Readiness, none_ready, touch};
use cf_tree::Request;
use std::alloc::{AllocError, Global};
use std::mem;

/// Which way an operation goes: it makes resources, or takes back what it made.
#[derive(Clone, Copy)]
pub enum Way {
    Forth,
    Back,
}

/// What is kept of a creation that goes forward: the layout of its source, and which of its paths are ready.
#[derive(Drop)]
pub struct Ahead {
    pub layout: Shared<Layout>,
    pub readiness: Readiness,
}

/// Whether an entry is an outcome that may fail the phase.
fn is_setback(entry: &Entry) -> bool
    ensures { result ≡ is_setback entry.now }
{
    match entry {
        Entry::Outcome {
            number: _,
            token: _,
            answer,
            before: _,
            after: _,
        } => !matches!(
            answer,
            Reply::Success {
                physical: _,
                attrs: _
            }
        ),
        _ => false,
    }
}

/// Whether an entry as the stack keeps it is an outcome that may fail the phase.
#[tactic(auto, using(crate::proofs::Setbacks::no_setback))]
fn is_heard_setback(heard: &HeardEntry) -> bool
    ensures { result ≡ is_setback heard.now }
{
    match heard.as_entry() {
        Some(entry) => is_setback(entry),
        None => false,
    }
}

/// Whether one of these entries is an outcome that may fail the phase: a refusal or a doubt. It goes over the entries once.
pub fn has_setback(entries: &[HeardEntry]) -> bool
    ensures { result ≡ list_any is_setback entries.now }
{
    entries.iter().any(is_heard_setback)
}

/// Whether a call is an update of an operation.
fn is_update_of(number: u64, call: &Call) -> bool
    ensures { result ≡ is_update_of number call.now }
{
    call.number == number
        && matches!(
            call.request,
            Request::Update {
                physical: _,
                props: _
            }
        )
}

/// Whether a request is a create.
fn is_create(request: &Request) -> bool
    ensures { result ≡ is_create request.now }
{
    matches!(request, Request::Create { kind: _, props: _ })
}

/// Whether one of these calls is an update of an operation.
fn has_update(number: u64, calls: &[Call]) -> bool
    ensures { result ≡ list_any (is_update_of number) calls.now }
{
    calls.iter().any(|call| is_update_of(number, call))
}

/// Whether a stack may be nested in the one that the source of the last create or update describes.
#[tactic(auto, using(crate::proofs::Setbacks::none_nested, crate::proofs::Setbacks::nothing_nested))]
fn has_nestings(state: &State) -> bool
    ensures { result ≡ false → nestings_of (state_of state.now) ≡ [] }
{
    match &state.outset {
        Some(outset) => has_nested(outset.shape()),
        None => false,
    }
}

/// Whether a creation goes forward that holds nothing from before and had no setback and no update, and no stack is nested in it.
fn goes_forth(state: &State) -> bool
    ensures { result ≡ true → GoesForth (state_of state.now) }
{
    if !matches!(state.status, Status::CreateInProgress)
        || !state.held.is_empty()
        || has_update(state.operation, state.ledger.as_slice())
        || has_setback(state.entries.as_slice())
    {
        return false;
    }
    !has_nestings(state)
}

/// What is kept of the properties at a place.
fn found_in(found: &[Option<Found>], at: usize) -> Option<&Found>
    ensures { option_copied result ≡ found_in found.now at }
{
    match found.get(at) {
        Some(found) => found.as_ref(),
        None => None,
    }
}

/// Whether properties are worked out, and at no fault.
fn is_sound(found: Option<&Found>) -> bool
    ensures { result ≡ is_sound (option_copied found.entry) }
{
    match found {
        Some(found) => matches!(found.evaluated, Evaluated::Known { props: _ }),
        None => false,
    }
}

/// What a path waits for: where a creation goes forward all that it needs, and where it is rolled back all that needs it.
fn waits_for<'a>(way: Way, layout: &'a Layout, at: usize, row: &'a Placed) -> &'a [usize]
    ensures { result.now ≡ waits_for way layout.now at row.now }
{
    match way {
        Way::Forth => row.needs.as_slice(),
        Way::Back => layout.users_at(at),
    }
}

/// Sets the flags of the path at a place anew.
#[tactic(auto, using(crate::proofs::Readied::one_touched, crate::proofs::Readied::none_touched))]
fn touch_at(
    way: Way,
    layout: &Layout,
    made: &[Option<usize>],
    found: &[Option<Found>],
    readiness: &mut Readiness,
    at: usize,
)
    ensures { Touches way layout.now made.now found.now (λ k. is_place k (at ∷ []) ≡ true) readiness.old readiness.new }
{
    if let Some(row) = layout.row_at(at) {
        let sound = is_sound(found_in(found, at));
        touch(readiness, at, waits_for(way, layout, at, row), made, sound);
    }
}

/// Sets the flags of the paths at some places anew.
#[tactic(auto, using(crate::proofs::Readied::touched_first))]
fn touch_each(
    way: Way,
    layout: &Layout,
    made: &[Option<usize>],
    found: &[Option<Found>],
    readiness: &mut Readiness,
    places: &[usize],
)
    ensures { Touches way layout.now made.now found.now (λ k. is_place k places.now ≡ true) readiness.old readiness.new }
{
    for at in places {
        touch_at(way, layout, made, found, readiness, *at);
    }
}

/// Sets the flags of the paths at so many first places anew.
#[tactic(auto, using(crate::proofs::Readied::below_first))]
fn touch_below(
    way: Way,
    layout: &Layout,
    made: &[Option<usize>],
    found: &[Option<Found>],
    readiness: &mut Readiness,
    count: usize,
)
    ensures { Touches way layout.now made.now found.now (λ k. k < count) readiness.old readiness.new }
{
    for at in 0..count {
        touch_at(way, layout, made, found, readiness, at);
    }
}

/// Which of the paths of a layout are ready.
pub(crate) fn readiness_of(
    alloc: Global,
    way: Way,
    layout: &Layout,
    made: &[Option<usize>],
    found: &[Option<Found>],
) -> Result<Readiness, AllocError>
    ensures { IfOk result (λ r. (s : StackState) → AreRows (source_members s) layout.now → IsReadiness way layout.now made.now found.now r) }
{
    let count = layout.rows.len();
    let mut readiness = none_ready(alloc, layout.places.as_slice(), count)?;
    touch_below(way, layout, made, found, &mut readiness, count);
    Ok(readiness)
}

/// What is kept of a creation whose source has this layout.
#[tactic(auto, using(crate::proofs::Readied::ahead_with))]
fn ahead_with(
    alloc: Global,
    layout: Shared<Layout>,
    made: &[Option<usize>],
    found: &[Option<Found>],
) -> Result<Ahead, AllocError>
    ensures { IfOk result (λ a. (s : StackState) → GoesForth s → AreRows (source_members s) layout → IsAhead s made.now found.now a) }
{
    match readiness_of(alloc, Way::Forth, &layout, made, found) {
        Ok(readiness) => Ok(Ahead { layout, readiness }),
        Err(failed) => {
            drop(layout);
            Err(failed)
        }
    }
}

/// What is kept of the creation of a stack, where it goes forward so.
///
/// # Errors
///
/// Only for want of memory.
pub(crate) fn ahead_of(
    alloc: Global,
    state: &State,
    made: &[Option<usize>],
    found: &[Option<Found>],
) -> Result<Option<Ahead>, AllocError>
    ensures { IfOk result (λ ahead. IfSome ahead (IsAhead (state_of state.now) made.now found.now)) }
{
    if !goes_forth(state) {
        return Ok(None);
    }
    match &state.outset {
        Some(outset) => {
            let layout = outset.share_layout(alloc)?;
            Ok(Some(ahead_with(alloc, layout, made, found)?))
        }
        None => Ok(None),
    }
}

/// What waits for the path at a place.
fn waiting_for(way: Way, layout: &Layout, at: usize) -> &[usize]
    ensures { result.now ≡ waiting_for way layout.now at }
{
    match way {
        Way::Forth => layout.users_at(at),
        Way::Back => layout.needs_at(at),
    }
}

/// Sets the flags of the path at a place, and of those that wait for it, anew.
pub(crate) fn touch_around(
    way: Way,
    layout: &Layout,
    made: &[Option<usize>],
    found: &[Option<Found>],
    readiness: &mut Readiness,
    at: usize,
)
    ensures { Touches way layout.now made.now found.now (λ k. is_place k (waiting_for way layout.now at ++ at ∷ []) ≡ true) readiness.old readiness.new }
{
    touch_each(
        way,
        layout,
        made,
        found,
        readiness,
        waiting_for(way, layout, at),
    );
    touch_at(way, layout, made, found, readiness, at);
}

/// Follows that the path at a place is made, and that what was found of those that need it is gone.
pub(crate) fn follow_made(
    ahead: &mut Option<Ahead>,
    made: &[Option<usize>],
    found: &[Option<Found>],
    at: usize,
)
    ensures { FollowsMade made.now found.now at ahead.old ahead.new }
{
    if let Some(ahead) = ahead {
        touch_around(
            Way::Forth,
            &ahead.layout,
            made,
            found,
            &mut ahead.readiness,
            at,
        );
    }
}

/// Follows that something is found at a place.
pub(crate) fn follow_found(
    ahead: &mut Option<Ahead>,
    made: &[Option<usize>],
    found: &[Option<Found>],
    at: usize,
)
    ensures { FollowsFound made.now found.now at ahead.old ahead.new }
{
    if let Some(ahead) = ahead {
        touch_at(
            Way::Forth,
            &ahead.layout,
            made,
            found,
            &mut ahead.readiness,
            at,
        );
    }
}

/// Lets go what is kept of a creation that may go forward no longer.
pub(crate) fn lose_ahead(ahead: &mut Option<Ahead>)
    ensures { ahead.new ≡ None }
{
    drop(mem::replace(ahead, None));
}

/// Lets go what is kept of a creation, unless it stays.
pub(crate) fn lose_unless(findings: &mut Findings, stays: bool)
    ensures { findings.new ≡ unless_kept stays findings.old }
{
    if !stays {
        lose_ahead(&mut findings.ahead);
    }
}

/// Whether a creation goes forward still once this call goes out and its stack hears of this entry.
fn goes_on(pending: &Pending, entry: &Entry) -> bool
    ensures { result ≡ (is_create pending.now.request && not (is_setback entry.now)) }
{
    is_create(&pending.request) && !is_setback(entry)
}

/// Lets what is kept of a creation follow a call that goes out, and the entry of which its stack hears then: it is let go, unless the
/// call is a create. It takes no memory.
#[tactic(auto, using(crate::proofs::Followed::called_none))]
pub fn follow_call(pending: &Pending, entry: &Entry, findings: &mut Option<Findings>)
    ensures { FollowsCall pending.now entry.now findings.old findings.new }
{
    if let Some(findings) = findings {
        lose_unless(findings, goes_on(pending, entry));
    }
}
