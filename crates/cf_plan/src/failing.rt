//! The outcome that fails the forward phase of an operation.
ghost use Rattle.std.specs.Prelude.{◌≡◌, ◌==◌, ◌&&◌, [], find, is_some};
ghost use Rattle.std.specs.Option.{option_copied};
ghost use Rattle.cf_effect.specs.Calls.{call_under};
ghost use Rattle.cf_effect.specs.Operation.{doubts_in};
ghost use Rattle.cf_effect.specs.Words.{has_physical};
ghost use Rattle.cf_plan.specs.Forward.{difference_to, doubting, first_failing, first_failing_behind, first_refusing, held_before, is_excused, is_refused_call, refusing};

use crate::calls::{call_of, doubts_in, forward_of, now_of, up_to_last_turn};
use cf_effect::has_setback;
use cf_entry::{Entry, Reason, Reply};
use cf_schema::{Difference, Schemas, differs};
use cf_stacks::{HeardEntry, Held, StackState};
use cf_tree::{Code, Dict, Request, Txt};

/// How other properties differ from those that are held, by the schema of the resource's type; where there is none, as if a
/// plain property differed.
pub fn difference_to(schemas: &Schemas, held: &Held, props: &Dict) -> Difference
    ensures { result ≡ difference_to schemas.now held.now props.now }
{
    match schemas.find(held.kind.as_str()) {
        Some(schema) => differs(schema, &held.props, props),
        None => Difference::Update,
    }
}

/// What a list holds under a physical id.
fn with_physical<'a>(helds: &'a [Held], physical: &Txt) -> Option<&'a Held>
    ensures { option_copied result ≡ find (has_physical physical.now) helds.now }
{
    helds.iter().find(|held| *physical == held.physical)
}

/// What was held under a physical id as the operation began.
fn held_before<'a>(stack: &'a StackState, physical: &Txt) -> Option<&'a Held>
    ensures { option_copied result ≡ held_before physical.now stack.now.stack }
{
    with_physical(stack.before(), physical)
}

/// Whether a refusal is no failure, since a new resource is made in place of the one that can't be updated.
fn is_excused(schemas: &Schemas, stack: &StackState, request: &Request, code: Code) -> bool
    ensures { result ≡ is_excused schemas.now stack.now.stack request.now code }
{
    match (request, code) {
        (Request::Update { physical, props }, Code::NotUpdatable) => {
            match held_before(stack, physical) {
                Some(held) => matches!(difference_to(schemas, held, props), Difference::MayReplace),
                None => false,
            }
        }
        _ => false,
    }
}

/// Whether a refusal of a token fails the phase. It goes over the calls.
fn is_refused_call(schemas: &Schemas, stack: &StackState, token: u64, code: Code) -> bool
    ensures { result ≡ is_refused_call schemas.now stack.now.stack (call_under token stack.now.stack) code }
{
    match call_of(stack, token) {
        Some(call) => !is_excused(schemas, stack, &call.request, code),
        None => false,
    }
}

/// The token and the code, where an entry is a refusal that fails the phase.
fn refusing(schemas: &Schemas, stack: &StackState, entry: &Entry) -> Option<(u64, Reason)>
    ensures { result ≡ refusing schemas.now stack.now.stack entry.now }
{
    match entry {
        Entry::Outcome {
            number: _,
            token,
            answer: Reply::Failed { code },
            before: _,
            after: _,
        } => {
            if is_refused_call(schemas, stack, *token, *code) {
                Some((*token, Reason::Code(*code)))
            } else {
                None
            }
        }
        _ => None,
    }
}

/// The token and the code, where an entry as the stack keeps it is a refusal that fails the phase.
#[tactic(auto, using(crate::proofs::Successes::no_refusal))]
fn refusing_heard(
    schemas: &Schemas,
    stack: &StackState,
    heard: &HeardEntry,
) -> Option<(u64, Reason)>
    ensures { result ≡ refusing schemas.now stack.now.stack heard.now }
{
    match heard.as_entry() {
        Some(entry) => refusing(schemas, stack, entry),
        None => None,
    }
}

/// Whether a doubt of a token is the third one of a call: it stands in the ledger, and two doubts are in these entries.
fn is_third_doubt(stack: &StackState, earlier: &[HeardEntry], token: u64) -> bool
    ensures { result ≡ (is_some (call_under token stack.now.stack) && doubts_in token earlier.now == 2) }
{
    call_of(stack, token).is_some() && doubts_in(earlier, token) == 2
}

/// The token, where an entry is the third doubt of its call: two are in those before it.
fn doubting(stack: &StackState, earlier: &[HeardEntry], entry: &Entry) -> Option<(u64, Reason)>
    ensures { result ≡ doubting stack.now.stack earlier.now entry.now }
{
    match entry {
        Entry::Outcome {
            number: _,
            token,
            answer,
            before: _,
            after: _,
        } => match answer {
            Reply::Doubt => {
                if is_third_doubt(stack, earlier, *token) {
                    Some((*token, Reason::Fault))
                } else {
                    None
                }
            }
            Reply::Success {
                physical: _,
                attrs: _,
            } => None,
            Reply::Failed { code: _ } => None,
        },
        _ => None,
    }
}

/// The token, where an entry as the stack keeps it is the third doubt of its call.
#[tactic(auto, using(crate::proofs::Successes::no_third))]
fn doubting_heard(
    stack: &StackState,
    earlier: &[HeardEntry],
    heard: &HeardEntry,
) -> Option<(u64, Reason)>
    ensures { result ≡ doubting stack.now.stack earlier.now heard.now }
{
    match heard.as_entry() {
        Some(entry) => doubting(stack, earlier, entry),
        None => None,
    }
}

/// The first refusal among these entries that fails the phase.
fn first_refusing(
    schemas: &Schemas,
    stack: &StackState,
    entries: &[HeardEntry],
) -> Option<(u64, Reason)>
    ensures { result ≡ first_refusing schemas.now stack.now.stack entries.now }
{
    for heard in entries.iter() {
        if let Some(failing) = refusing_heard(schemas, stack, heard) {
            return Some(failing);
        }
    }
    None
}

/// The first of the entries of this phase and opening that fails the phase.
fn first_failing_now(
    schemas: &Schemas,
    stack: &StackState,
    entries: &[HeardEntry],
) -> Option<(u64, Reason)>
    ensures { result ≡ first_failing_behind schemas.now stack.now.stack [] entries.now }
{
    for (at, heard) in entries.iter().enumerate() {
        if let Some(failing) = refusing_heard(schemas, stack, heard) {
            return Some(failing);
        }
        if let Some(failing) = doubting_heard(stack, &entries[..at], heard) {
            return Some(failing);
        }
    }
    None
}

/// The first outcome that fails the forward phase, looked for among the entries of the phase.
fn first_among(schemas: &Schemas, stack: &StackState) -> Option<(u64, Reason)>
    ensures { result ≡ first_failing schemas.now stack.now.stack }
{
    let entries = stack.entries().as_slice();
    let earlier = up_to_last_turn(forward_of(entries));
    match first_refusing(schemas, stack, earlier) {
        Some(failing) => Some(failing),
        None => first_failing_now(schemas, stack, now_of(entries)),
    }
}

/// The token of the first outcome that fails the forward phase, and the reason: a refusal that is not excused, at any time in
/// the phase, and in this opening a call's third doubt. Where no outcome is a refusal or a doubt it goes over the entries once; else
/// once more, and once for each refusal and each doubt.
#[tactic(auto, using(crate::proofs::Calm::none_fails))]
pub fn first_failing(schemas: &Schemas, stack: &StackState) -> Option<(u64, Reason)>
    ensures { result ≡ first_failing schemas.now stack.now.stack }
{
    if has_setback(stack.entries().as_slice()) {
        first_among(schemas, stack)
    } else {
        None
    }
}
