//! Open calls: which are out, and which may go out again.
ghost use Rattle.std.specs.Prelude.{◌≡◌, ◌==◌, ◌&&◌, ◌||◌, not, false, nat_lt};
ghost use Rattle.std.specs.List.{list_any};
ghost use Rattle.cf_effect.specs.Calls.{doubts_of};
ghost use Rattle.cf_effect.specs.Status.{Forward, Back};
ghost use Rattle.cf_plan.specs.Follow.{is_in_flight, is_repeat_in_flight, is_repeated, may_repeat, none_in_flight, waits_for_repeats};

use crate::calls::call_of;
use cf_stacks::{Call, Pending, StackState};

/// Whether a token is out.
pub fn is_in_flight(out: &[u64], token: u64) -> bool
    ensures { result ≡ is_in_flight out.now token }
{
    out.iter().any(|other| token == *other)
}

/// How often a call was in doubt in this phase and opening.
pub fn doubts_of(token: u64, stack: &StackState) -> u64
    ensures { result ≡ doubts_of token stack.now.stack }
{
    match call_of(stack, token) {
        Some(call) => call.doubts,
        None => 0,
    }
}

/// Whether the call of an open token may be made again, in a phase that names no paths.
pub fn may_repeat(out: &[u64], stack: &StackState, pending: &Pending) -> bool
    ensures forward { result ≡ may_repeat Forward out.now stack.now.stack pending.now }
    ensures back { result ≡ may_repeat Back out.now stack.now.stack pending.now }
{
    !is_in_flight(out, pending.token) && doubts_of(pending.token, stack) < 3
}

/// Whether one of these calls is out.
fn has_call_in_flight(out: &[u64], calls: &[Call]) -> bool
    ensures { result ≡ list_any (λ c. is_in_flight out.now c.token) calls.now }
{
    if out.is_empty() {
        return false;
    }
    calls.iter().any(|call| is_in_flight(out, call.token))
}

/// Whether no call of a stack is out.
pub fn none_in_flight(out: &[u64], stack: &StackState) -> bool
    ensures { result ≡ none_in_flight out.now stack.now.stack }
{
    !has_call_in_flight(out, stack.ledger().as_slice())
}

/// Whether a call is a repeat where it is out: it was in doubt, or went out before this phase and opening.
fn is_repeated(call: &Call) -> bool
    ensures { result ≡ is_repeated call.now }
{
    call.doubts > 0 || !call.fresh
}

/// Whether one of these calls is out for a repeat.
fn has_repeat_in_flight(out: &[u64], calls: &[Call]) -> bool
    ensures { result ≡ list_any (λ c. is_in_flight out.now c.token && is_repeated c) calls.now }
{
    if out.is_empty() {
        return false;
    }
    calls
        .iter()
        .any(|call| is_in_flight(out, call.token) && is_repeated(call))
}

/// Whether a repeat is out.
pub fn is_repeat_in_flight(out: &[u64], stack: &StackState) -> bool
    ensures { result ≡ is_repeat_in_flight out.now stack.now.stack }
{
    has_repeat_in_flight(out, stack.ledger().as_slice())
}

/// Whether one of these open calls may go out again.
fn has_repeat(out: &[u64], stack: &StackState, tokens: &[Pending]) -> bool
    ensures { result ≡ list_any (may_repeat Back out.now stack.now.stack) tokens.now }
{
    tokens.iter().any(|pending| may_repeat(out, stack, pending))
}

/// Whether a rollback waits for repeats: one is out, or may come.
pub fn waits_for_repeats(out: &[u64], stack: &StackState) -> bool
    ensures { result ≡ waits_for_repeats Back out.now stack.now.stack }
{
    is_repeat_in_flight(out, stack) || has_repeat(out, stack, stack.tokens().as_slice())
}
