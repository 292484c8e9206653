//! What an operation has to offer in its stage, and the steps that are due in it.
ghost use Rattle.std.specs.Prelude.{◌≡◌, ◌↔◌, Some, IfOk};
ghost use Rattle.cf_effect.specs.Status.{Forward, Stage, goes_forward, stage_of};
ghost use Rattle.cf_next.specs.declared.step.Next.{Next};
ghost use Rattle.cf_next.specs.Chosen.{IsInProgress};
ghost use Rattle.cf_next.specs.Due.{AreDue, AreDueOn};
ghost use Rattle.cf_next.specs.Forward.{IsOverviewIn};
ghost use Rattle.cf_next.specs.Joining.{IsLast};
ghost use Rattle.cf_next.specs.Offer.{IsOffer, IsOfferOn};

use crate::deletions::{offer_back_clean, offer_clean, offer_gone, offer_rolling_back};
use crate::dues::{Dues, begun_by, with_last};
use crate::forward::offer_forward;
use crate::last::last_by;
use crate::offer::{Keepings, Offer};
use crate::restoring::offer_restoring;
use crate::step::Next;
use cf_entry::Status;
use cf_plan::{Overview, Starts, none_in_flight, overview_of};
use cf_schema::Schemas;
use cf_stacks::{StackState, World};
use cf_tree::{Listing, Txt};
use std::alloc::{AllocError, Global};

/// Nothing.
fn no_offer<'a>(alloc: Global) -> Offer<'a> {
    Offer {
        repeats: Listing::new(alloc),
        starts: Starts::new(alloc),
        keepings: Keepings::new(alloc),
        turn: None,
        is_made: false,
    }
}

/// Whether a stack that has this status goes forward.
pub(crate) fn goes_forward(status: Status) -> bool
    ensures { result ≡ goes_forward status }
{
    matches!(status, Status::CreateInProgress | Status::UpdateInProgress)
}

/// What is known of the paths of an operation that goes forward; of any other nothing.
pub(crate) fn overview_in<'a>(
    alloc: Global,
    schemas: &Schemas,
    stack: &'a StackState,
) -> Result<Option<Overview<'a>>, AllocError>
    ensures { IfOk result (λ o. IsOverviewIn schemas.now stack.now.stack o) }
{
    if goes_forward(stack.status()) {
        let overview = overview_of(alloc, schemas, stack)?;
        Ok(Some(overview))
    } else {
        Ok(None)
    }
}

/// What the operation of a stack that goes forward has to offer.
fn offer_by<'a>(
    alloc: Global,
    schemas: &Schemas,
    name: &Txt,
    world: &World,
    stack: &'a StackState,
    out: &[u64],
    overview: &'a Option<Overview<'a>>,
) -> Result<Offer<'a>, AllocError>
    requires forward { stage_of stack.now.stack.status ≡ Some Forward }
    requires overview { IsOverviewIn schemas.now stack.now.stack overview.now }
    ensures { IfOk result (λ o. IsOffer schemas.now name.now world.now.world out.now stack.now.stack Forward o) }
{
    match overview {
        Some(overview) => offer_forward(alloc, schemas, name, world, stack, out, overview),
        // It goes forward.
        None => unreachable!(),
    }
}

/// What the operation of a stack has to offer in its stage, while the leases of these tokens are
/// out; where none is in progress, nothing.
pub(crate) fn offer_of<'a>(
    alloc: Global,
    schemas: &Schemas,
    name: &Txt,
    world: &World,
    stack: &'a StackState,
    out: &[u64],
    overview: &'a Option<Overview<'a>>,
) -> Result<Offer<'a>, AllocError>
    requires { IsOverviewIn schemas.now stack.now.stack overview.now }
    ensures { IfOk result (λ o. IsOfferOn schemas.now name.now world.now.world out.now stack.now.stack o) }
{
    match stack.status() {
        Status::CreateInProgress => offer_by(alloc, schemas, name, world, stack, out, overview),
        Status::UpdateInProgress => offer_by(alloc, schemas, name, world, stack, out, overview),
        Status::UpdateCompleteCleanupInProgress => offer_clean(alloc, stack, out),
        Status::RollbackInProgress => offer_rolling_back(alloc, stack, out),
        Status::UpdateRollbackInProgress => offer_restoring(alloc, stack, out),
        Status::UpdateRollbackCompleteCleanupInProgress => offer_back_clean(alloc, stack, out),
        Status::DeleteInProgress => offer_gone(alloc, stack, out),
        _ => Ok(no_offer(alloc)),
    }
}

/// The phase that begins, or the end, once no call of the stack is out. What is offered over no
/// leases tells it: that is the offer itself where none is out, else it is worked out.
pub(crate) fn last_of<'a>(
    alloc: Global,
    schemas: &Schemas,
    name: &Txt,
    world: &World,
    stack: &'a StackState,
    out: &[u64],
    offer: &Offer,
    overview: &'a Option<Overview<'a>>,
) -> Result<Option<Next>, AllocError>
    requires overview { IsOverviewIn schemas.now stack.now.stack overview.now }
    requires offer { IsOfferOn schemas.now name.now world.now.world out.now stack.now.stack offer.now }
    ensures { IfOk result (λ last. (stage : Stage) → stage_of stack.now.stack.status ≡ Some stage
        → (n : Next) → IsLast schemas.now name.now world.now.world stack.now.stack stage n ↔ (last ≡ Some n)) }
{
    if out.is_empty() {
        return last_by(alloc, world, stack, offer);
    }
    let open = offer_of(alloc, schemas, name, world, stack, &[], overview)?;
    let last = last_by(alloc, world, stack, &open);
    drop(open);
    last
}

/// All steps that are due in the operation of a stack, of which this is offered.
fn dues_by<'a>(
    alloc: Global,
    schemas: &Schemas,
    name: &Txt,
    world: &World,
    stack: &'a StackState,
    out: &[u64],
    offer: &Offer,
    overview: &'a Option<Overview<'a>>,
) -> Result<Dues, AllocError>
    requires overview { IsOverviewIn schemas.now stack.now.stack overview.now }
    requires offer { IsOfferOn schemas.now name.now world.now.world out.now stack.now.stack offer.now }
    ensures { IfOk result (λ dues. AreDueOn schemas.now name.now world.now.world out.now stack.now.stack dues) }
{
    let begun = begun_by(alloc, out, world, offer)?;
    if !none_in_flight(out, stack) {
        return Ok(begun);
    }
    let last = last_of(alloc, schemas, name, world, stack, out, offer, overview)?;
    with_last(begun, last)
}

/// All steps that are due in the operation of a stack of whose paths this is known.
fn dues_over<'o, 'a>(
    alloc: Global,
    schemas: &Schemas,
    name: &Txt,
    world: &World,
    stack: &'a StackState,
    out: &[u64],
    overview: &'o Option<Overview<'a>>,
) -> Result<Dues, AllocError>
    requires { IsOverviewIn schemas.now stack.now.stack overview.now }
    ensures { IfOk result (λ dues. AreDueOn schemas.now name.now world.now.world out.now stack.now.stack dues) }
{
    let offer = offer_of(alloc, schemas, name, world, &*stack, out, &*overview)?;
    let dues = dues_by(
        alloc, schemas, name, world, &*stack, out, &offer, &*overview,
    );
    drop(offer);
    dues
}

/// All steps that are due in the operation of a stack.
fn dues_on(
    alloc: Global,
    schemas: &Schemas,
    name: &Txt,
    world: &World,
    stack: &StackState,
    out: &[u64],
) -> Result<Dues, AllocError>
    ensures { IfOk result (λ dues. AreDueOn schemas.now name.now world.now.world out.now stack.now.stack dues) }
{
    let overview = overview_in(alloc, schemas, stack)?;
    let dues = dues_over(alloc, schemas, name, world, stack, out, &overview);
    drop(overview);
    dues
}

/// Whether the operation of this number goes forward, or rolls a creation or an update back.
fn is_looked_at(world: &World, number: u64) -> bool {
    match world.stack_of_operation(number) {
        Some(going) => {
            let status = going.1.status();
            goes_forward(status)
                || matches!(
                    status,
                    Status::RollbackInProgress | Status::UpdateRollbackInProgress
                )
        }
        None => false,
    }
}

/// Works out beforehand what an operation that goes forward, or rolls a creation or an update back, will look up.
pub(crate) fn look_ahead(alloc: Global, world: &mut World, number: u64) -> Result<(), AllocError>
    ensures { world.new ≡ world.old }
{
    if is_looked_at(world, number) {
        world.look(alloc, number)
    } else {
        Ok(())
    }
}

/// All steps that are due in the operation of this number.
fn due_in(
    alloc: Global,
    world: &World,
    number: u64,
    out: &[u64],
    schemas: &Schemas,
) -> Result<Dues, AllocError>
    requires { IsInProgress world.now.world number }
    ensures { IfOk result (λ dues. AreDue schemas.now world.now.world out.now number dues) }
{
    match world.stack_of_operation(number) {
        Some(going) => dues_on(alloc, schemas, &going.0, world, &going.1, out),
        // The operation is in progress.
        None => unreachable!(),
    }
}

/// All steps that are due in the operation of this number, while the leases of these tokens are out,
/// and no others, each once: every repeat, every new call, every resource to keep, and a phase or
/// the end, in the order of steps. A create is listed once, with an empty lane name, where a lane of
/// its type is at home; any other new call on each lane at home that its physical id names. A repeat
/// is listed whether its lane is at home or not. The world stays as it is, but for what is kept
/// beside it.
///
/// `out` are open tokens; the schemas have one for each type of the lanes of the last opening and of
/// each resource.
///
/// # Errors
///
/// It comes where memory is lacking, and where a new call may begin and no token is left.
pub fn due(
    alloc: Global,
    world: &mut World,
    number: u64,
    out: &[u64],
    schemas: &Schemas,
) -> Result<Dues, AllocError>
    requires { IsInProgress world.old.world number }
    ensures stays { world.new ≡ world.old }
    ensures due { IfOk result (λ dues. AreDue schemas.now world.old.world out.now number dues) }
{
    look_ahead(alloc, world, number)?;
    due_in(alloc, world, number, out, schemas)
}
