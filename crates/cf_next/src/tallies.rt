//! How often an operation began to delete each resource, and how often that was refused.
ghost use Rattle.std.specs.Prelude.{◌≡◌, ℕ, List, [], IfOk, fold};
ghost use Rattle.cf_effect.specs.Calls.{one_more, was_refused};
ghost use Rattle.cf_next.specs.Tallies.{deleted_id, no_tally, one_tallied, tallied_under, tally_of, tally_under, with_call};

use crate::lookups::LentMap;
use cf_plan::is_refusal;
use cf_stacks::{Call, StackState};
use cf_tree::{Request, Txt};
use std::alloc::{AllocError, Global};

/// How often an operation began to delete a resource, and how often that was refused; three times and more are not told apart.
#[derive(Clone, Copy)]
pub(crate) struct Tally {
    pub begun: u64,
    pub refused: u64,
}

/// One more, of up to three.
fn one_more(count: u64) -> u64
    ensures { result ≡ one_more count }
{
    if count < 3 { count + 1 } else { count }
}

/// Tallies, by the physical ids of resources.
pub(crate) type Tallies<'a> = LentMap<'a, Tally>;

/// The tally of a resource, by its physical id.
pub(crate) fn tally_under(tallies: &Tallies, physical: &Txt) -> Tally
    ensures { result ≡ tally_under physical.now tallies.now }
{
    match tallies.get(physical) {
        Some(tally) => *tally,
        None => Tally {
            begun: 0,
            refused: 0,
        },
    }
}

/// The tally of a resource, with one more deletion.
fn one_tallied(call: &Call, tally: Tally) -> Tally
    ensures { result ≡ one_tallied call.now tally }
{
    let refused = if is_refusal(&call.request, &call.answer) {
        one_more(tally.refused)
    } else {
        tally.refused
    };
    Tally {
        begun: one_more(tally.begun),
        refused,
    }
}

/// Counts a call, where it deletes a resource. After an error the tallies are as they were.
fn tally_call<'a>(tallies: &mut Tallies<'a>, call: &'a Call) -> Result<(), AllocError>
    ensures { IfOk result (λ _. tallies.new ≡ tallied_under (deleted_id call.now.request) call.now tallies.old) }
{
    match &call.request {
        Request::Delete { physical } => {
            let more = one_tallied(call, tally_under(tallies, physical));
            tallies.insert(physical, more)
        }
        _ => Ok(()),
    }
}

/// Counts a call, where it is one of an operation. After an error the tallies are as they were.
fn tally_own<'a>(tallies: &mut Tallies<'a>, number: u64, call: &'a Call) -> Result<(), AllocError>
    ensures { IfOk result (λ _. tallies.new ≡ with_call number tallies.old call.now) }
{
    if call.number == number {
        tally_call(tallies, call)
    } else {
        Ok(())
    }
}

/// The tallies of these calls, of an operation.
fn tallies_of<'a>(alloc: Global, number: u64, calls: &'a [Call]) -> Result<Tallies<'a>, AllocError>
    ensures { IfOk result (λ tallies. tallies ≡ fold (with_call number) [] calls.now) }
{
    let mut tallies = Tallies::new(alloc);
    for call in calls {
        tally_own(&mut tallies, number, call)?;
    }
    Ok(tallies)
}

/// The tallies of the operation of a stack.
pub(crate) fn tallies<'a>(alloc: Global, stack: &'a StackState) -> Result<Tallies<'a>, AllocError>
    ensures { IfOk result (λ tallies. (id : List ℕ) → tally_under id tallies ≡ tally_of id stack.now.stack) }
{
    tallies_of(alloc, stack.operation(), stack.ledger().as_slice())
}
