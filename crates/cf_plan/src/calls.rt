//! What came of the calls of a stack, and which of its entries are of which phase. None of these takes memory; each goes over
//! the calls, or over the entries, once.
ghost use Rattle.std.specs.Prelude.{◌≡◌, ◌==◌, ◌≤◌, ◌&&◌, false, is_some, length, option_map};
ghost use Rattle.std.specs.List.{list_any};
ghost use Rattle.std.specs.Option.{option_copied};
ghost use Rattle.std.specs.Str.{bytes_eq};
ghost use Rattle.cf_effect.specs.Calls.{call_under, succeeded};
ghost use Rattle.cf_effect.specs.Operation.{after_last, before_first, doubts_in, is_doubt, is_phase, is_turn_or_opening, up_to_last};
ghost use Rattle.cf_effect.specs.Words.{deletes, is_update, updates};
ghost use Rattle.cf_plan.specs.Called.{last_place, reply_passes};
ghost use Rattle.cf_plan.specs.Done.{is_good_update};
ghost use Rattle.cf_plan.specs.Forward.{path_of_token, was_answered_at};
ghost use Rattle.cf_plan.specs.Follow.{is_not_updatable, was_not_updatable};

use cf_entry::{Entry, Reply};
use cf_stacks::{Call, HeardEntry, Held, Settled, StackState, call_with};
use cf_tree::{Code, Request, Txt};

/// The call of a token.
pub fn call_of(stack: &StackState, token: u64) -> Option<&Call>
    ensures { option_copied result ≡ call_under token stack.now.stack }
{
    call_with(stack.ledger().as_slice(), token)
}

/// The path of a token's call.
pub fn path_of_token(stack: &StackState, token: u64) -> Option<&Txt>
    ensures { option_map (λ t. t.now) result ≡ path_of_token token stack.now.stack }
{
    match call_of(stack, token) {
        Some(call) => Some(&call.path),
        None => None,
    }
}

/// Whether a request is an update.
fn is_update(request: &Request) -> bool
    ensures { result ≡ is_update request.now }
{
    matches!(
        request,
        Request::Update {
            physical: _,
            props: _
        }
    )
}

/// Whether a request updates a resource.
fn updates(physical: &Txt, request: &Request) -> bool
    ensures { result ≡ updates physical.now request.now }
{
    match request {
        Request::Update {
            physical: updated,
            props: _,
        } => *physical == *updated,
        _ => false,
    }
}

/// Whether a request deletes a resource.
pub(crate) fn deletes(physical: &Txt, request: &Request) -> bool
    ensures { result ≡ deletes physical.now request.now }
{
    match request {
        Request::Delete { physical: deleted } => *physical == *deleted,
        _ => false,
    }
}

/// Whether a call is an update that succeeded.
pub(crate) fn is_good_update(call: &Call) -> bool
    ensures { result ≡ is_good_update call.now }
{
    is_update(&call.request) && matches!(call.answer, Some(Settled::Success))
}

/// Whether a call is an update that was answered for good.
pub(crate) fn is_answered_update(call: &Call) -> bool
    ensures { result ≡ (is_update call.now.request && is_some call.now.answer) }
{
    is_update(&call.request) && call.answer.is_some()
}

/// Whether a call is an update of a path that was answered for good.
fn is_answered_at(path: &Txt, call: &Call) -> bool
    ensures { result ≡ (bytes_eq path.now call.now.path && (is_update call.now.request && is_some call.now.answer)) }
{
    *path == call.path && is_answered_update(call)
}

/// Whether one of these calls, of an operation, is an update of a path that was answered for good.
fn has_answered(calls: &[Call], number: u64, path: &Txt) -> bool
    ensures { result ≡ list_any (λ c. c.number == number && (bytes_eq path.now c.path && (is_update c.request && is_some c.answer))) calls.now }
{
    calls
        .iter()
        .any(|call| call.number == number && is_answered_at(path, call))
}

/// Whether this operation's update of a path was answered, be it refused.
pub fn was_answered_at(stack: &StackState, path: &Txt) -> bool
    ensures { result ≡ was_answered_at path.now stack.now.stack }
{
    has_answered(stack.ledger().as_slice(), stack.operation(), path)
}

/// Whether an answer says that the resource can't be updated.
fn is_not_updatable(answer: &Option<Settled>) -> bool
    ensures { result ≡ is_not_updatable answer.now }
{
    match answer {
        Some(Settled::Failed { code }) => *code == Code::NotUpdatable,
        _ => false,
    }
}

/// Whether one of these calls, of an operation, is an update of a resource that can't be updated.
fn has_refused(calls: &[Call], number: u64, physical: &Txt) -> bool
    ensures { result ≡ list_any (λ c. c.number == number && (updates physical.now c.request && is_not_updatable c.answer)) calls.now }
{
    calls.iter().any(|call| {
        call.number == number && updates(physical, &call.request) && is_not_updatable(&call.answer)
    })
}

/// Whether this operation's update of a resource was refused because it can't be updated.
pub fn was_not_updatable(stack: &StackState, held: &Held) -> bool
    ensures { result ≡ was_not_updatable stack.now.stack held.now }
{
    has_refused(stack.ledger().as_slice(), stack.operation(), &held.physical)
}

/// Whether an entry answers a token by a doubt.
fn is_doubt_of(token: u64, entry: &Entry) -> bool
    ensures { result ≡ reply_passes (λ r. token == r.token && is_doubt r.answer) entry.now }
{
    match entry {
        Entry::Outcome {
            number: _,
            token: answered,
            answer,
            before: _,
            after: _,
        } => token == *answered && matches!(answer, Reply::Doubt),
        _ => false,
    }
}

/// Whether an entry as the stack keeps it answers a token by a doubt.
#[tactic(auto, using(crate::proofs::Successes::no_doubt))]
fn is_heard_doubt(token: u64, heard: &HeardEntry) -> bool
    ensures { result ≡ reply_passes (λ r. token == r.token && is_doubt r.answer) heard.now }
{
    match heard.as_entry() {
        Some(entry) => is_doubt_of(token, entry),
        None => false,
    }
}

/// How often a token was answered by a doubt in these entries.
#[tactic(auto, using(crate::proofs::Answered::count_replied))]
pub fn doubts_in(entries: &[HeardEntry], token: u64) -> usize
    ensures { result ≡ doubts_in token entries.now }
{
    let mut count = 0;
    for heard in entries.iter() {
        if is_heard_doubt(token, heard) {
            count += 1;
        }
    }
    count
}

/// Whether an entry begins a phase or an opening.
fn is_turn_or_opening(entry: &Entry) -> bool
    ensures { result ≡ is_turn_or_opening entry.now }
{
    matches!(
        entry,
        Entry::Opened { epoch: _, lanes: _ }
            | Entry::Begin {
                number: _,
                stack: _,
                kind: _
            }
            | Entry::Phase {
                number: _,
                phase: _,
                cause: _
            }
    )
}

/// Whether an entry as the stack keeps it begins a phase or an opening.
#[tactic(auto, using(crate::proofs::Successes::no_turn))]
fn is_heard_turn(heard: &HeardEntry) -> bool
    ensures { result ≡ is_turn_or_opening heard.now }
{
    match heard.as_entry() {
        Some(entry) => is_turn_or_opening(entry),
        None => false,
    }
}

/// How many of these entries there are up to the last that begins a phase or an opening, this one included.
#[tactic(auto, using(crate::proofs::Parting::ends_last, crate::proofs::Parting::stays_last))]
fn last_turn(entries: &[HeardEntry]) -> usize
    ensures place { result ≡ last_place is_turn_or_opening entries.now }
    ensures within { result ≤ length entries.now }
{
    let mut at = entries.len();
    while at > 0 {
        if is_heard_turn(&entries[at - 1]) {
            return at;
        }
        at -= 1;
    }
    0
}

/// The entries of this phase and opening.
pub fn now_of(entries: &[HeardEntry]) -> &[HeardEntry]
    ensures { result.now ≡ after_last is_turn_or_opening entries.now }
{
    &entries[last_turn(entries)..]
}

/// These entries up to the last that begins a phase or an opening, this one included.
pub fn up_to_last_turn(entries: &[HeardEntry]) -> &[HeardEntry]
    ensures { result.now ≡ up_to_last is_turn_or_opening entries.now }
{
    &entries[..last_turn(entries)]
}

/// Whether an entry begins a later phase.
fn is_phase(entry: &Entry) -> bool
    ensures { result ≡ is_phase entry.now }
{
    matches!(
        entry,
        Entry::Phase {
            number: _,
            phase: _,
            cause: _
        }
    )
}

/// Whether an entry as the stack keeps it begins a later phase.
#[tactic(auto, using(crate::proofs::Successes::no_phase))]
fn is_heard_phase(heard: &HeardEntry) -> bool
    ensures { result ≡ is_phase heard.now }
{
    match heard.as_entry() {
        Some(entry) => is_phase(entry),
        None => false,
    }
}

/// The entries before the first later phase.
#[tactic(auto, using(crate::proofs::Parting::before_next, crate::proofs::Parting::before_here, crate::proofs::Parting::before_none))]
pub fn forward_of(entries: &[HeardEntry]) -> &[HeardEntry]
    ensures { result.now ≡ before_first is_phase entries.now }
{
    for (at, heard) in entries.iter().enumerate() {
        if is_heard_phase(heard) {
            return &entries[..at];
        }
    }
    entries
}
