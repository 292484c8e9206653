//! What an operation has to offer in a stage that deletes.
ghost use Rattle.std.specs.Prelude.{◌≡◌, IfOk, false};
ghost use Rattle.cf_entry.specs.declared.status.Status.TheVariants as status;
ghost use Rattle.cf_effect.specs.Status.{Back, BackClean, Clean, Gone};
ghost use Rattle.cf_plan.specs.Follow.{waits_for_repeats};
ghost use Rattle.cf_next.specs.Repeats.{AreRepeatsBut, retained_in};
ghost use Rattle.cf_next.specs.Removals.{AreRemovals, IsOfferIn, IsOfferWith, IsWalked};
ghost use Rattle.cf_next.specs.Unmaking.{stage_in, status_in};

use crate::facts::{Facts, facts_of};
use crate::lookups::Lents;
use crate::offer::{Keepings, Offer};
use crate::removals::{add_all_given_up, add_resources};
use crate::repeats::repeats_in;
use crate::retained::retained_in;
use crate::unmaking::{Unmaking, held_for, is_cleanup, made_for};
use cf_plan::{Starts, is_repeat_in_flight};
use cf_stacks::{Pending, StackState};
use cf_tree::Listing;
use std::alloc::{AllocError, Global};

/// What comes of the resources of a stack.
#[derive(Drop)]
struct Removals<'a> {
    starts: Starts<'a>,
    keepings: Keepings,
}

/// Whether a stage waits for its repeats: one is out, or may come. A cleanup never does.
pub(crate) fn waits(
    stage: Unmaking,
    stack: &StackState,
    out: &[u64],
    repeats: &Listing<Pending>,
) -> bool
    requires { AreRepeatsBut (retained_in (stage_in stage) stack.now.stack) out.now stack.now.stack repeats.now }
    ensures { result ≡ waits_for_repeats (stage_in stage) out.now stack.now.stack }
{
    !is_cleanup(stage) && (is_repeat_in_flight(out, stack) || !repeats.is_empty())
}

/// What comes of the resources that a stage looks at.
fn all_removals<'a>(
    alloc: Global,
    stage: Unmaking,
    stack: &'a StackState,
    facts: &Facts,
) -> Result<Removals<'a>, AllocError>
    ensures { IfOk result (λ r. IsWalked stage stack.now.stack facts.now r) }
{
    let mut starts = Starts::new(alloc);
    let mut keepings = Keepings::new(alloc);
    let held = held_for(stage, stack);
    add_resources(alloc, &mut starts, &mut keepings, stage, facts, held)?;
    let made = made_for(stage, stack);
    add_resources(alloc, &mut starts, &mut keepings, stage, facts, made)?;
    Ok(Removals { starts, keepings })
}

/// What may begin of a stage that waits for no repeat, and what it may keep of its resources.
fn removals_now<'a>(
    alloc: Global,
    stage: Unmaking,
    stack: &'a StackState,
    out: &[u64],
    retained: &Lents<'a>,
) -> Result<Removals<'a>, AllocError>
    requires status { status_in stage ≡ stack.now.stack.status }
    requires retained { retained.now ≡ retained_in (stage_in stage) stack.now.stack }
    requires idle { waits_for_repeats (stage_in stage) out.now stack.now.stack ≡ false }
    ensures { IfOk result (λ r. AreRemovals stage out.now stack.now.stack r) }
{
    let facts = facts_of(alloc, stage, stack, retained)?;
    let all = all_removals(alloc, stage, stack, &facts);
    drop(facts);
    all
}

/// What may begin, and what of its resources a stage may keep, whether it waits for repeats or not.
fn removals_in<'a>(
    alloc: Global,
    stage: Unmaking,
    stack: &'a StackState,
    out: &[u64],
    retained: &Lents<'a>,
    repeats: &Listing<Pending>,
) -> Result<Removals<'a>, AllocError>
    requires status { status_in stage ≡ stack.now.stack.status }
    requires retained { retained.now ≡ retained_in (stage_in stage) stack.now.stack }
    requires repeats { AreRepeatsBut (retained_in (stage_in stage) stack.now.stack) out.now stack.now.stack repeats.now }
    ensures { IfOk result (λ r. AreRemovals stage out.now stack.now.stack r) }
{
    if waits(stage, stack, out, repeats) {
        Ok(Removals {
            starts: Starts::new(alloc),
            keepings: Keepings::new(alloc),
        })
    } else {
        removals_now(alloc, stage, stack, out, retained)
    }
}

/// What may be kept, the open creates of retained paths with it. After an error nothing is said of it.
fn offer_of<'a>(
    alloc: Global,
    stack: &StackState,
    retained: &Lents,
    repeats: Listing<Pending>,
    removals: Removals<'a>,
) -> Result<Offer<'a>, AllocError>
    ensures { IfOk result (λ o. IsOfferWith retained.now stack.now.stack repeats removals.entry o) }
{
    let Removals {
        starts,
        mut keepings,
    } = removals;
    add_all_given_up(
        alloc,
        &mut keepings,
        retained.as_slice(),
        stack.tokens().as_slice(),
    )?;
    Ok(Offer {
        repeats,
        starts,
        keepings,
        turn: None,
        is_made: false,
    })
}

/// What an operation has to offer in a stage that deletes.
fn offer_unmaking<'a>(
    alloc: Global,
    stage: Unmaking,
    stack: &'a StackState,
    out: &[u64],
) -> Result<Offer<'a>, AllocError>
    requires { status_in stage ≡ stack.now.stack.status }
    ensures { IfOk result (λ o. IsOfferIn (stage_in stage) out.now stack.now.stack o) }
{
    let retained = retained_in(alloc, stage, stack)?;
    let repeats = repeats_in(alloc, stack, out, retained.as_slice())?;
    let removals = removals_in(alloc, stage, stack, out, &retained, &repeats)?;
    offer_of(alloc, stack, &retained, repeats, removals)
}

/// What the rollback of a creation has to offer: what may go that nothing needs, once no repeat is left.
///
/// # Errors
///
/// Only for want of memory.
pub(crate) fn offer_rolling_back<'a>(
    alloc: Global,
    stack: &'a StackState,
    out: &[u64],
) -> Result<Offer<'a>, AllocError>
    requires { stack.now.stack.status ≡ status.RollbackInProgress }
    ensures { IfOk result (λ o. IsOfferIn Back out.now stack.now.stack o) }
{
    offer_unmaking(alloc, Unmaking::Back, stack, out)
}

/// What the cleanup of an update has to offer: what it replaced or removed goes.
///
/// # Errors
///
/// Only for want of memory.
pub(crate) fn offer_clean<'a>(
    alloc: Global,
    stack: &'a StackState,
    out: &[u64],
) -> Result<Offer<'a>, AllocError>
    requires { stack.now.stack.status ≡ status.UpdateCompleteCleanupInProgress }
    ensures { IfOk result (λ o. IsOfferIn Clean out.now stack.now.stack o) }
{
    offer_unmaking(alloc, Unmaking::Clean, stack, out)
}

/// What the cleanup of an update that was rolled back has to offer: what it made goes.
///
/// # Errors
///
/// Only for want of memory.
pub(crate) fn offer_back_clean<'a>(
    alloc: Global,
    stack: &'a StackState,
    out: &[u64],
) -> Result<Offer<'a>, AllocError>
    requires { stack.now.stack.status ≡ status.UpdateRollbackCompleteCleanupInProgress }
    ensures { IfOk result (λ o. IsOfferIn BackClean out.now stack.now.stack o) }
{
    offer_unmaking(alloc, Unmaking::BackClean, stack, out)
}

/// What the deletion of a stack has to offer: all goes that nothing needs, once no repeat is left, but for the paths that it is to
/// retain.
///
/// # Errors
///
/// Only for want of memory.
pub(crate) fn offer_gone<'a>(
    alloc: Global,
    stack: &'a StackState,
    out: &[u64],
) -> Result<Offer<'a>, AllocError>
    requires { stack.now.stack.status ≡ status.DeleteInProgress }
    ensures { IfOk result (λ o. IsOfferIn Gone out.now stack.now.stack o) }
{
    offer_unmaking(alloc, Unmaking::Gone, stack, out)
}
