//! The step that comes next: the first that is due and whose lane is at home.
ghost use Rattle.std.specs.Prelude.{◌≡◌, None, Some, Err, IfOk};
ghost use Rattle.cf_entry.specs.declared.entry.Entry.{Entry};
ghost use Rattle.cf_plan.specs.Follow.{MayFollow};
ghost use Rattle.cf_next.specs.declared.chosen.NextFault.TheVariants.{NoStep};
ghost use Rattle.cf_next.specs.Chosen.{HasNoStep, IsInProgress, IsNext, entry_for, leases_of, schemas_of};
ghost use Rattle.cf_next.specs.First.{first_begun};
ghost use Rattle.cf_next.specs.Forward.{IsOverviewIn};
ghost use Rattle.cf_next.specs.Offer.{IsOfferOn};
ghost use Rattle.cf_next.specs.Taking.{Chooses, IsLastOn};

use crate::creation::next_create;
use crate::first::first_begun;
use crate::home::{Homes, leases_of, schemas_of};
use crate::offer::Offer;
use crate::opens::next_open;
use crate::restores::next_restore;
use crate::rollback::next_deletion;
use crate::stage::{last_of, look_ahead, offer_of, overview_in};
use crate::step::Next;
use cf_plan::{Overview, none_in_flight};
use cf_schema::Schemas;
use cf_stacks::{StackState, World};
use cf_tree::Txt;
use std::alloc::{AllocError, Global};

/// Why there is no next step.
#[derive(Debug, Drop)]
pub enum NextFault {
    /// No memory was left, or no token for a new call.
    NoMemory,
    /// No step may start, and no lease is out that could come home.
    NoStep,
}

impl From<AllocError> for NextFault {
    ghost use Rattle.std.specs.Prelude.{◌≡◌};
    ghost use Rattle.cf_next.specs.declared.chosen.NextFault.TheVariants.{NoMemory};

    ghost from_gives = { λ _ e. e ≡ NoMemory };

    fn from(_failed: AllocError) -> NextFault {
        NextFault::NoMemory
    }
}

/// The phase that begins, or the end, where no call of the stack is out.
fn last_in<'a>(
    alloc: Global,
    schemas: &Schemas,
    name: &Txt,
    world: &World,
    stack: &'a StackState,
    out: &[u64],
    offer: &Offer,
    overview: &'a Option<Overview<'a>>,
) -> Result<Option<Next>, AllocError>
    requires overview { IsOverviewIn schemas.now stack.now.stack overview.now }
    requires offer { IsOfferOn schemas.now name.now world.now.world out.now stack.now.stack offer.now }
    ensures { IfOk result (λ last. IsLastOn schemas.now name.now world.now.world out.now stack.now.stack last) }
{
    if none_in_flight(out, stack) {
        last_of(alloc, schemas, name, world, stack, out, offer, overview)
    } else {
        Ok(None)
    }
}

/// What comes next where nothing may begin: a phase or the end, or else to wait for a lease that is out.
fn last_or_wait<'a>(
    alloc: Global,
    schemas: &Schemas,
    name: &Txt,
    world: &World,
    stack: &'a StackState,
    out: &[u64],
    offer: &Offer,
    overview: &'a Option<Overview<'a>>,
) -> Result<Next, NextFault>
    requires overview { IsOverviewIn schemas.now stack.now.stack overview.now }
    requires offer { IsOfferOn schemas.now name.now world.now.world out.now stack.now.stack offer.now }
    requires none { first_begun out.now world.now.world offer.now ≡ None }
    ensures { Chooses schemas.now name.now world.now.world out.now stack.now.stack result }
{
    let last = last_in(alloc, schemas, name, world, stack, out, offer, overview)?;
    match last {
        Some(step) => Ok(step),
        None => {
            if out.is_empty() {
                Err(NextFault::NoStep)
            } else {
                Ok(Next::Wait)
            }
        }
    }
}

/// What comes next in the operation of a stack, of which this is offered: the first that a lane can take at once, on that lane.
fn next_by<'a>(
    alloc: Global,
    schemas: &Schemas,
    name: &Txt,
    world: &World,
    stack: &'a StackState,
    out: &[u64],
    offer: &Offer,
    overview: &'a Option<Overview<'a>>,
) -> Result<Next, NextFault>
    requires overview { IsOverviewIn schemas.now stack.now.stack overview.now }
    requires offer { IsOfferOn schemas.now name.now world.now.world out.now stack.now.stack offer.now }
    ensures { Chooses schemas.now name.now world.now.world out.now stack.now.stack result }
{
    let begun = first_begun(alloc, out, world, offer)?;
    match begun {
        Some(step) => Ok(step),
        None => last_or_wait(alloc, schemas, name, world, stack, out, offer, overview),
    }
}

/// What comes next in the operation of a stack of whose paths this is known.
fn next_over<'o, 'a>(
    alloc: Global,
    schemas: &Schemas,
    name: &Txt,
    world: &World,
    stack: &'a StackState,
    out: &[u64],
    overview: &'o Option<Overview<'a>>,
) -> Result<Next, NextFault>
    requires { IsOverviewIn schemas.now stack.now.stack overview.now }
    ensures { Chooses schemas.now name.now world.now.world out.now stack.now.stack result }
{
    let offer = offer_of(alloc, schemas, name, world, &*stack, out, &*overview)?;
    let next = next_by(
        alloc, schemas, name, world, &*stack, out, &offer, &*overview,
    );
    drop(offer);
    next
}

/// What comes next in the operation of a stack of whose paths this is known: a call that may begin, where one is found at once, or else
/// what all that is offered tells.
fn next_known<'o, 'a>(
    alloc: Global,
    schemas: &Schemas,
    name: &Txt,
    world: &World,
    stack: &'a StackState,
    out: &[u64],
    overview: &'o Option<Overview<'a>>,
) -> Result<Next, NextFault>
    requires { IsOverviewIn schemas.now stack.now.stack overview.now }
    ensures { Chooses schemas.now name.now world.now.world out.now stack.now.stack result }
{
    if let Some(call) = next_open(alloc, schemas, name, world, stack, out, overview)? {
        return Ok(call);
    }
    next_over(alloc, schemas, name, world, stack, out, overview)
}

/// What comes next in the operation of a stack.
fn next_on(
    alloc: Global,
    schemas: &Schemas,
    name: &Txt,
    world: &World,
    stack: &StackState,
    out: &[u64],
) -> Result<Next, NextFault>
    ensures { Chooses schemas.now name.now world.now.world out.now stack.now.stack result }
{
    if let Some(deletion) = next_deletion(alloc, out, world, stack)? {
        return Ok(deletion);
    }
    if let Some(restore) = next_restore(alloc, out, world, stack)? {
        return Ok(restore);
    }
    if let Some(create) = next_create(alloc, out, world, stack)? {
        return Ok(create);
    }
    let overview = overview_in(alloc, schemas, stack)?;
    let next = next_known(alloc, schemas, name, world, stack, out, &overview);
    drop(overview);
    next
}

/// What comes next in the operation of this number, while the leases of these tokens are out.
fn next_in(
    alloc: Global,
    world: &World,
    number: u64,
    out: &[u64],
    schemas: &Schemas,
) -> Result<Next, NextFault>
    requires { IsInProgress world.now.world number }
    ensures chosen { IfOk result (λ n. IsNext schemas.now world.now.world out.now number n) }
    ensures no_step { result ≡ Err NoStep → HasNoStep schemas.now world.now.world out.now number }
{
    match world.stack_of_operation(number) {
        Some(going) => next_on(alloc, schemas, &going.0, world, &going.1, out),
        // The operation is in progress.
        None => unreachable!(),
    }
}

/// The one step that comes next in the operation of this number: of those that may start the first
/// in the order of steps, a create on the first lane at home of its type; or to wait, where none may
/// start and a lease is out. The lanes that are handed in tell which leases are out, and have a
/// schema for each type. The world stays as it is, but for what is kept beside it.
///
/// # Errors
///
/// `NoMemory` where memory is lacking, or a token for a new call; `NoStep` where no step may start
/// and no lease is out.
pub fn next(alloc: Global, world: &mut World, number: u64, homes: &Homes) -> Result<Next, NextFault>
    requires { IsInProgress world.old.world number }
    ensures stays { world.new ≡ world.old }
    ensures chosen { IfOk result (λ n. IsNext (schemas_of homes.now) world.old.world (leases_of homes.now) number n) }
    ensures may_follow { IfOk result (λ n. (e : Entry) → entry_for number n ≡ Some e
        → MayFollow (schemas_of homes.now) world.old.world (leases_of homes.now) e) }
    ensures no_step { result ≡ Err NoStep → HasNoStep (schemas_of homes.now) world.old.world (leases_of homes.now) number }
{
    look_ahead(alloc, world, number)?;
    let out = leases_of(alloc, homes)?;
    let schemas = schemas_of(alloc, homes)?;
    let next = next_in(alloc, world, number, out.as_slice(), &schemas);
    drop(schemas);
    next
}
