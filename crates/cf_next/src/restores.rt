//! The call that comes next in the rollback of an update, read off what is kept of it: which resources are still to be given back what
//! they had is told by flags in the order of paths, and only the resource that is taken is looked at whole.
ghost use Rattle.std.specs.Prelude.{◌≡◌, IfOk, IfSome, false};
ghost use Rattle.cf_effect.specs.Restoring.{IsRestoring};
ghost use Rattle.cf_effect.specs.Status.{Back};
ghost use Rattle.cf_plan.specs.Follow.{waits_for_repeats};
ghost use Rattle.cf_next.specs.Restores.{IsFirstRestore, restore_fitting, restore_ranked};
ghost use Rattle.cf_next.specs.Rollback.{IsTaken};

use crate::first::{LaneHome, fits_one, homes_now, new_call};
use crate::restoring::restore_of;
use crate::rollback::is_idle;
use crate::step::Next;
use cf_plan::{Start, is_free};
use cf_stacks::{Held, Restoring, StackState, World, held_ranked};
use std::alloc::{AllocError, Global};

/// The call that gives a resource back what it had, where no call of its path is open and a lane at home fits it.
fn restore_fitting<'a>(homes: &[LaneHome], stack: &StackState, held: &'a Held) -> Option<Start<'a>>
    ensures { result ≡ restore_fitting homes.now stack.now.stack held.now }
{
    let start = restore_of(held);
    if is_free(stack, &held.path) && fits_one(homes, &start) {
        Some(start)
    } else {
        None
    }
}

/// The call that gives the resource of the path of a rank back what it had, where it fits.
fn restore_ranked<'a>(
    homes: &[LaneHome],
    stack: &'a StackState,
    restoring: &Restoring,
    rank: usize,
) -> Option<Start<'a>>
    ensures { result ≡ restore_ranked homes.now stack.now.stack restoring.now rank }
{
    match held_ranked(stack.before(), restoring, rank) {
        Some(held) => restore_fitting(homes, stack, held),
        None => None,
    }
}

/// The first call by path that gives a resource back what it had. Only those are looked at that are still to be: the first of them,
/// and further ones while they have an open call or no lane at home.
#[tactic(auto, using(crate::proofs::FirstRestore::none_yet, crate::proofs::FirstRestore::none_more, crate::proofs::FirstRestore::found_first, cf_ready::proofs::Flagged::next_within))]
fn first_restore<'a>(
    homes: &[LaneHome],
    stack: &'a StackState,
    restoring: &Restoring,
) -> Option<Start<'a>>
    ensures { IfSome result (IsFirstRestore homes.now stack.now.stack restoring.now) }
{
    let mut from = 0;
    'ranks: while from < restoring.awaited.len() {
        let rank = match restoring.awaited.next(from) {
            Some(rank) => rank,
            None => return None,
        };
        match restore_ranked(homes, stack, restoring, rank) {
            Some(start) => return Some(start),
            None => from = rank + 1,
        }
    }
    None
}

/// The first call that gives a resource back what it had and that a lane at home fits, under the next token, where no call is to be
/// made again.
fn restore_by(
    alloc: Global,
    out: &[u64],
    world: &World,
    restoring: &Restoring,
    stack: &StackState,
) -> Result<Option<Next>, AllocError>
    requires restoring { IsRestoring stack.now.stack restoring.now }
    requires idle { waits_for_repeats Back out.now stack.now.stack ≡ false }
    ensures { IfOk result (IsTaken out.now world.now.world stack.now.stack) }
{
    let homes = homes_now(alloc, out, world)?;
    let lanes = homes.as_slice();
    match first_restore(lanes, stack, restoring) {
        Some(start) => new_call(alloc, lanes, world, &start),
        None => Ok(None),
    }
}

/// The call that comes next where an update is rolled back, by what is kept of that; `None` where it may be another step that comes
/// next, and in any other stage. It goes over the open calls, and over no more than the resources that are still to be given back what
/// they had; nothing is laid out but the call that is taken.
///
/// # Errors
///
/// For want of memory, or of a token.
pub(crate) fn next_restore(
    alloc: Global,
    out: &[u64],
    world: &World,
    stack: &StackState,
) -> Result<Option<Next>, AllocError>
    ensures { IfOk result (IsTaken out.now world.now.world stack.now.stack) }
{
    match stack.restoring() {
        Some(restoring) => {
            if is_idle(alloc, stack, out)? {
                restore_by(alloc, out, world, restoring, stack)
            } else {
                Ok(None)
            }
        }
        None => Ok(None),
    }
}
