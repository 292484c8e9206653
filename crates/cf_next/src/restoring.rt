//! The rollback of an update: what is given back, and when that is over.
ghost use Rattle.std.specs.Prelude.{◌≡◌, ◌==◌, ◌&&◌, ◌++◌, ℕ, List, IfOk};
ghost use Rattle.std.specs.List.{list_any};
ghost use Rattle.cf_schema.specs.declared.described.Schema.{Schema};
ghost use Rattle.cf_entry.specs.declared.status.Status.TheVariants as status;
ghost use Rattle.cf_effect.specs.Calls.{was_refused};
ghost use Rattle.cf_effect.specs.Status.{goes_back, Back};
ghost use Rattle.cf_effect.specs.Words.{is_update};
ghost use Rattle.cf_effect.specs.World.{World};
ghost use Rattle.cf_plan.specs.Follow.{has_refused_restore};
ghost use Rattle.cf_next.specs.Offer.{IsOffer};
ghost use Rattle.cf_next.specs.Restoring.{AreMarksOf, is_restored, is_to_restore, may_restore, restore_of, restores, restores_out, turn_restored};

use crate::marks::is_marked;
use crate::offer::{Keepings, Offer, Turn};
use crate::past::{Past, goes_back, past_of};
use crate::repeats::repeats;
use cf_entry::Phase;
use cf_plan::{Ask, Start, Starts, waits_for_repeats};
use cf_stacks::{Call, Held, Settled, StackState};
use cf_tree::Request;
use std::alloc::{AllocError, Global};

/// Whether a resource of before is to be given back what it had.
fn is_to_restore(stack: &StackState, past: &Past, held: &Held) -> bool
    requires { AreMarksOf stack.now.stack past.now }
    ensures { result ≡ is_to_restore stack.now.stack held.now }
{
    is_marked(&past.updated, &held.physical)
        && !is_marked(&past.restored, &held.physical)
        && !is_marked(&past.skipped, &held.path)
}

/// Whether a call may begin that gives a resource of before back what it had, if no repeat is waited for.
fn may_restore(stack: &StackState, past: &Past, held: &Held) -> bool
    requires { AreMarksOf stack.now.stack past.now }
    ensures { result ≡ may_restore stack.now.stack held.now }
{
    is_to_restore(stack, past, held)
        && !is_marked(&past.tried, &held.physical)
        && !is_marked(&past.called, &held.path)
}

/// The call that gives a resource back what it had.
pub(crate) fn restore_of(held: &Held) -> Start<'_>
    ensures { result ≡ restore_of held.now }
{
    let physical = &held.physical;
    let props = &held.props;
    Start::new(&held.path, Ask::Update { physical, props })
}

/// Adds the calls that may begin of these resources of before. After an error nothing is said of the
/// list.
fn add_restores<'a>(
    stack: &StackState,
    past: &Past,
    starts: &mut Starts<'a>,
    helds: &'a [Held],
) -> Result<(), AllocError>
    requires { AreMarksOf stack.now.stack past.now }
    ensures { IfOk result (λ _. starts.new ≡ starts.old ++ restores stack.now.stack helds.now) }
{
    for held in helds {
        if may_restore(stack, past, held) {
            starts.push(restore_of(held))?;
        }
    }
    Ok(())
}

/// The calls that may begin, none while a repeat is waited for.
fn restores_out<'a>(
    alloc: Global,
    stack: &'a StackState,
    past: &Past,
    out: &[u64],
) -> Result<Starts<'a>, AllocError>
    requires { AreMarksOf stack.now.stack past.now }
    ensures { IfOk result (λ starts. starts ≡ restores_out out.now stack.now.stack) }
{
    let mut starts = Starts::new(alloc);
    if !waits_for_repeats(out, stack) {
        add_restores(stack, past, &mut starts, stack.before())?;
    }
    Ok(starts)
}

/// Whether one of these resources of before is to be given back what it had.
fn has_to_restore(stack: &StackState, past: &Past, helds: &[Held]) -> bool
    requires { AreMarksOf stack.now.stack past.now }
    ensures { result ≡ list_any (is_to_restore stack.now.stack) helds.now }
{
    helds.iter().any(|held| is_to_restore(stack, past, held))
}

/// Whether a call is an update that was refused.
fn is_refused_update(call: &Call) -> bool
    ensures { result ≡ (is_update call.now.request && was_refused call.now) }
{
    match (&call.request, &call.answer) {
        (
            Request::Update {
                physical: _,
                props: _,
            },
            Some(Settled::Failed { code: _ }),
        ) => true,
        _ => false,
    }
}

/// Whether one of these calls, of an operation, went out in a rollback to give back what a resource had, and was refused.
fn has_refused(calls: &[Call], number: u64) -> bool
    ensures { result ≡ list_any (λ c. c.number == number && (goes_back c.status && (is_update c.request && was_refused c))) calls.now }
{
    calls.iter().any(|call| {
        call.number == number && goes_back(call.status) && is_refused_update(call)
    })
}

/// Whether the operation was refused to give back what a resource had.
fn has_refused_restore(stack: &StackState) -> bool
    ensures { result ≡ has_refused_restore stack.now.stack }
{
    has_refused(stack.ledger().as_slice(), stack.operation())
}

/// Whether all is given back.
fn is_restored(stack: &StackState, past: &Past) -> bool
    requires { AreMarksOf stack.now.stack past.now }
    ensures { result ≡ is_restored stack.now.stack }
{
    stack.tokens().as_slice().len() == 0
        && !has_to_restore(stack, past, stack.before())
        && !has_refused_restore(stack)
}

/// The phase that begins where all is given back.
fn turn_restored(over: bool) -> Option<Turn>
    ensures { result ≡ turn_restored over }
{
    if over {
        Some(Turn {
            phase: Phase::BackClean,
            cause: None,
        })
    } else {
        None
    }
}

/// What the rollback of an update offers: repeats; each resource that the update changed in place is given back what it had; and,
/// where all is given back and nothing was refused, the deletion of what was made.
pub(crate) fn offer_restoring<'a>(
    alloc: Global,
    stack: &'a StackState,
    out: &[u64],
) -> Result<Offer<'a>, AllocError>
    requires { stack.now.stack.status ≡ status.UpdateRollbackInProgress }
    ensures { IfOk result (λ o. (schemas : List Schema) (name : List ℕ) (x : World)
        → IsOffer schemas name x out.now stack.now.stack Back o) }
{
    let past = past_of(alloc, stack)?;
    let starts = restores_out(alloc, stack, &past, out)?;
    let turn = turn_restored(is_restored(stack, &past));
    drop(past);
    let repeats = repeats(alloc, stack, out)?;
    Ok(Offer {
        repeats,
        starts,
        keepings: Keepings::new(alloc),
        turn,
        is_made: false,
    })
}
