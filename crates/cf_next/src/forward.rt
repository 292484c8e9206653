//! The forward phase of a create or an update: what it may begin, and where it turns.
ghost use Rattle.std.specs.Prelude.{◌≡◌, ◌↔◌, ◌&&◌, Some, IfOk, IsTrue};
ghost use Rattle.cf_effect.specs.Status.{stage_of, Forward};
ghost use Rattle.cf_plan.specs.Forward.{AllDone, HasFailed};
ghost use Rattle.cf_plan.specs.Overview.{IsOverview};
ghost use Rattle.cf_plan.specs.Starts.{AreOpen};
ghost use Rattle.cf_next.specs.Forward.{failed_offer, is_updating, turn_made};
ghost use Rattle.cf_next.specs.Offer.{IsOffer};

use crate::offer::{Keepings, Offer, Turn};
use crate::repeats::repeats;
use cf_entry::{Cause, Phase, Status};
use cf_plan::{Overview, Progress, Starts, progress_of};
use cf_schema::Schemas;
use cf_stacks::{StackState, World};
use cf_tree::{Listing, Txt};
use std::alloc::{AllocError, Global};

/// What is offered where the phase has failed: it turns back.
fn failed_offer<'a>(alloc: Global, cause: Cause) -> Offer<'a>
    ensures { result ≡ failed_offer cause }
{
    Offer {
        repeats: Listing::new(alloc),
        starts: Starts::new(alloc),
        keepings: Keepings::new(alloc),
        turn: Some(Turn {
            phase: Phase::Back,
            cause: Some(cause),
        }),
        is_made: false,
    }
}

/// Whether an update goes forward.
fn is_updating(status: Status) -> bool
    ensures { result ≡ is_updating status }
{
    matches!(status, Status::UpdateInProgress)
}

/// The phase that begins where an update has made all that its template says.
fn turn_made(status: Status, is_done: bool) -> Option<Turn>
    ensures { result ≡ turn_made (is_updating status && is_done) }
{
    if is_updating(status) && is_done {
        Some(Turn {
            phase: Phase::Clean,
            cause: None,
        })
    } else {
        None
    }
}

/// What is offered while the phase has not failed, with the calls that may begin.
fn offer_going<'a>(
    alloc: Global,
    schemas: &Schemas,
    name: &Txt,
    world: &World,
    stack: &StackState,
    out: &[u64],
    starts: Starts<'a>,
    is_done: bool,
) -> Result<Offer<'a>, AllocError>
    requires forward { stage_of stack.now.stack.status ≡ Some Forward }
    requires going { ¬ HasFailed schemas.now name.now world.now.world stack.now.stack }
    requires may_begin { AreOpen schemas.now stack.now.stack starts }
    requires done { IsTrue is_done ↔ AllDone stack.now.stack }
    ensures { IfOk result (λ o. IsOffer schemas.now name.now world.now.world out.now stack.now.stack Forward o) }
{
    let repeats = repeats(alloc, stack, out)?;
    Ok(Offer {
        repeats,
        starts,
        keepings: Keepings::new(alloc),
        turn: turn_made(stack.status(), is_done),
        is_made: is_done,
    })
}

/// What the forward phase of a create or an update offers: repeats and the calls of each path that is ready while it has not
/// failed; the rollback, with its cause, where it has; and the cleanup where an update has made all that its template says.
pub(crate) fn offer_forward<'a>(
    alloc: Global,
    schemas: &Schemas,
    name: &Txt,
    world: &World,
    stack: &'a StackState,
    out: &[u64],
    overview: &'a Overview<'a>,
) -> Result<Offer<'a>, AllocError>
    requires forward { stage_of stack.now.stack.status ≡ Some Forward }
    requires overview { IsOverview schemas.now stack.now.stack overview.now }
    ensures { IfOk result (λ o. IsOffer schemas.now name.now world.now.world out.now stack.now.stack Forward o) }
{
    match progress_of(alloc, schemas, name, world, stack, overview)? {
        Progress::Failed { cause } => Ok(failed_offer(alloc, cause)),
        Progress::Going { starts, is_done } => offer_going(
            alloc, schemas, name, world, stack, out, starts, is_done,
        ),
    }
}
