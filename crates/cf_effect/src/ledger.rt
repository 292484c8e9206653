//! What entries change of the ledger of a stack.
ghost use Rattle.std.specs.Prelude.{◌≡◌, false, filter, find, map, option_copied, vec_len, vec_capacity};
ghost use Rattle.std.specs.Option.{option_map_or};
ghost use Rattle.cf_effect.specs.Calls.{anew, answered_call, is_call, is_open_call, one_more, where_call};
ghost use Rattle.cf_effect.specs.Status.{goes_back};

use crate::call::{Call, Ledger, Settled};
use crate::held::Pending;
use crate::statuses::goes_back;
use cf_entry::Reply;

/// As a phase or an opening begins: no call is new in it, and none is in doubt yet.
pub(crate) fn count_anew(ledger: &mut Ledger)
    ensures items { ledger.new.items ≡ map anew ledger.old.items }
    ensures len { vec_len ledger.new ≡ vec_len ledger.old }
    ensures capacity { vec_capacity ledger.new ≡ vec_capacity ledger.old }
{
    for call in ledger.iter_mut() {
        call.fresh = false;
        call.doubts = 0;
    }
}

/// Whether a call is open.
fn is_open(tokens: &[Pending], call: &Call) -> bool
    ensures { result ≡ is_open_call tokens.now call.now }
{
    tokens.iter().any(|pending| call.token == pending.token)
}

/// Keeps the rows of the calls that are open.
pub(crate) fn keep_open(ledger: &mut Ledger, tokens: &[Pending])
    ensures { ledger.new.items ≡ filter (is_open_call tokens.now) ledger.old.items }
{
    ledger.retain(|call| is_open(tokens, call));
}

/// One doubt more, of up to three.
fn one_more(doubts: u64) -> u64
    ensures { result ≡ one_more doubts }
{
    if doubts < 3 { doubts + 1 } else { doubts }
}

/// Writes an answer down in the row of its call.
fn note_answer(call: &mut Call, answer: &Reply)
    ensures { call.new ≡ answered_call answer.now call.old }
{
    match answer {
        Reply::Success { .. } => call.answer = Some(Settled::Success),
        Reply::Failed { code } => call.answer = Some(Settled::Failed { code: *code }),
        Reply::Doubt => call.doubts = one_more(call.doubts),
    }
}

/// Writes an answer down in the row of the call of a token.
pub(crate) fn answer_call(ledger: &mut Ledger, token: u64, answer: &Reply)
    ensures items { ledger.new.items ≡ where_call token (answered_call answer.now) ledger.old.items }
    ensures len { vec_len ledger.new ≡ vec_len ledger.old }
    ensures capacity { vec_capacity ledger.new ≡ vec_capacity ledger.old }
{
    for call in ledger.iter_mut() {
        if token == call.token {
            note_answer(call, answer);
        }
    }
}

/// The call of a token.
pub fn call_with(ledger: &[Call], token: u64) -> Option<&Call>
    ensures { option_copied result ≡ find (is_call token) ledger.now }
{
    ledger.iter().find(|call| token == call.token)
}

/// Whether the call of a token gives a resource back what it had.
pub(crate) fn is_restore(ledger: &[Call], token: u64) -> bool
    ensures { result ≡ option_map_or (λ c. goes_back c.status) (find (is_call token) ledger.now) false }
{
    match call_with(ledger, token) {
        Some(call) => goes_back(call.status),
        None => false,
    }
}
