//! How far a forward phase has come: whether it has failed, and what may begin where it has not.
ghost use Rattle.std.specs.Prelude.{◌≡◌, ◌↔◌, [], IfOk, IsTrue, option_map};
ghost use Rattle.cf_plan.specs.Causes.{IsFailureOf, is_nothing, or_path};
ghost use Rattle.cf_plan.specs.Failed.{bad_of};
ghost use Rattle.cf_plan.specs.Forward.{AllDone, HasFailed, plan_now};
ghost use Rattle.cf_plan.specs.Overview.{IsOverview};
ghost use Rattle.cf_plan.specs.PathStates.{AreStatesOf, are_enough, done_by_places};
ghost use Rattle.cf_plan.specs.Progress.{IsProgressOf};
ghost use Rattle.cf_plan.specs.Starts.{AreOpen, AreRequests};
ghost use Rattle.cf_plan.specs.declared.cause.Failure.TheVariants.{Nothing};

use crate::bad::BadAt;
use crate::cause::{Failure, failure_by, failure_of_call, failure_of_flaw};
use crate::done::done_by;
use crate::failing::first_failing;
use crate::forward::Wants;
use crate::index::PlanIndex;
use crate::overview::Overview;
use crate::path_flaws::first_ready_flaw;
use crate::path_starts::starts_from_all;
use crate::path_state::{PathState, are_all_done_at};
use crate::start::Starts;
use crate::stepping::{has_nested, listed, plan_now};
use cf_desired::Plan;
use cf_effect::PathIndex;
use cf_entry::Cause;
use cf_schema::Schemas;
use cf_stacks::{Held, StackState, World};
use cf_tree::{ByName, Txt};
use std::alloc::{AllocError, Global};

/// How far a create or an update has come in its forward phase.
#[derive(Drop)]
pub enum Progress<'a> {
    /// It has not failed: these requests may begin.
    Going { starts: Starts<'a>, is_done: bool },
    /// It has failed, for this cause.
    Failed { cause: Cause },
}

/// Whether the phase has failed and why, by all that the source wants over the resources of now.
fn failure_over(
    alloc: Global,
    schemas: &Schemas,
    name: &Txt,
    world: &World,
    stack: &StackState,
    now: &PlanIndex,
    held: &PathIndex<Held>,
) -> Result<Failure, AllocError>
    requires now { now.now ≡ plan_now stack.now.stack }
    requires held { held.now ≡ stack.now.stack.held }
    ensures { IfOk result (λ failure. IsFailureOf schemas.now name.now world.now.world stack.now.stack failure) }
{
    let done = done_by(alloc, stack, now, now, held)?;
    failure_by(alloc, schemas, name, world, stack, now, now, &done)
}

/// The same, where its paths are to be looked up, as in what is held.
fn failure_in(
    alloc: Global,
    schemas: &Schemas,
    name: &Txt,
    world: &World,
    stack: &StackState,
    now: &Plan,
) -> Result<Failure, AllocError>
    requires now { now.now ≡ plan_now stack.now.stack }
    ensures { IfOk result (λ failure. IsFailureOf schemas.now name.now world.now.world stack.now.stack failure) }
{
    let now = PlanIndex::new(alloc, now)?;
    let held = PathIndex::new(alloc, stack.held().as_slice())?;
    failure_over(alloc, schemas, name, world, stack, &now, &held)
}

/// The same, where all that the source wants is to be worked out.
fn failure_anew(
    alloc: Global,
    schemas: &Schemas,
    name: &Txt,
    world: &World,
    stack: &StackState,
) -> Result<Failure, AllocError>
    ensures { IfOk result (λ failure. IsFailureOf schemas.now name.now world.now.world stack.now.stack failure) }
{
    let now = plan_now(alloc, stack)?;
    let failure = failure_in(alloc, schemas, name, world, stack, &now);
    drop(now);
    failure
}

/// The failure that the flaw of a path makes, where there is one.
fn failure_of_path(alloc: Global, bad: Option<BadAt>) -> Result<Failure, AllocError>
    ensures { IfOk result (λ failure. failure ≡ or_path (option_map bad_of bad.entry) Nothing) }
{
    match bad {
        Some(bad) => failure_of_flaw(alloc, bad.flaw),
        None => Ok(Failure::Nothing),
    }
}

/// Whether the phase has failed and why, while a path is still to be done, and where no stack is nested in this one: by a call,
/// or else by a path that is ready and at fault.
fn failure_on_the_way(
    alloc: Global,
    schemas: &Schemas,
    name: &Txt,
    world: &World,
    stack: &StackState,
    states: &[PathState],
    done: &[bool],
) -> Result<Failure, AllocError>
    requires states { AreStatesOf stack.now.stack states.now }
    requires done { done.now ≡ done_by_places states.now }
    requires enough { IsTrue (are_enough done.now states.now) }
    requires nested { (plan_now stack.now.stack).nested ≡ [] }
    requires to_do { ¬ AllDone stack.now.stack }
    ensures { IfOk result (λ failure. IsFailureOf schemas.now name.now world.now.world stack.now.stack failure) }
{
    match first_failing(schemas, stack) {
        Some((token, reason)) => failure_of_call(alloc, stack, token, reason),
        None => failure_of_path(alloc, first_ready_flaw(done, states)),
    }
}

/// Whether all paths are done, by what is known of each.
fn is_done(stack: &StackState, states: &[PathState], done: &[bool]) -> bool
    requires states { AreStatesOf stack.now.stack states.now }
    requires done { done.now ≡ done_by_places states.now }
    requires enough { IsTrue (are_enough done.now states.now) }
    ensures { IsTrue result ↔ AllDone stack.now.stack }
{
    are_all_done_at(done, states)
}

/// Whether the phase has failed and why. Outputs, exports and nested stacks are looked at in all that the source wants: once all
/// paths are done, and where a stack is nested in this one.
fn failure_kept(
    alloc: Global,
    schemas: &Schemas,
    name: &Txt,
    world: &World,
    stack: &StackState,
    states: &[PathState],
    done: &[bool],
) -> Result<Failure, AllocError>
    requires states { AreStatesOf stack.now.stack states.now }
    requires done { done.now ≡ done_by_places states.now }
    requires enough { IsTrue (are_enough done.now states.now) }
    ensures { IfOk result (λ failure. IsFailureOf schemas.now name.now world.now.world stack.now.stack failure) }
{
    if is_done(stack, states, done) {
        return failure_anew(alloc, schemas, name, world, stack);
    }
    if has_nested(stack) {
        return failure_anew(alloc, schemas, name, world, stack);
    }
    failure_on_the_way(alloc, schemas, name, world, stack, states, done)
}

/// What may begin, by what is known of each path.
fn open_starts<'a>(
    alloc: Global,
    schemas: &Schemas,
    stack: &StackState,
    states: &[PathState<'a>],
    done: &[bool],
) -> Result<Starts<'a>, AllocError>
    requires states { AreStatesOf stack.now.stack states.now }
    requires done { done.now ≡ done_by_places states.now }
    requires enough { IsTrue (are_enough done.now states.now) }
    ensures { IfOk result (λ starts. AreOpen schemas.now stack.now.stack starts) }
{
    starts_from_all(alloc, schemas, stack, done, states)
}

/// How far it has come, by what is known of each path.
fn progress_kept<'a>(
    alloc: Global,
    schemas: &Schemas,
    name: &Txt,
    world: &World,
    stack: &StackState,
    states: &[PathState<'a>],
    done: &[bool],
) -> Result<Progress<'a>, AllocError>
    requires states { AreStatesOf stack.now.stack states.now }
    requires done { done.now ≡ done_by_places states.now }
    requires enough { IsTrue (are_enough done.now states.now) }
    ensures { IfOk result (λ p. IsProgressOf schemas.now name.now world.now.world stack.now.stack p) }
{
    match failure_kept(alloc, schemas, name, world, stack, states, done)? {
        Failure::Because { cause } => Ok(Progress::Failed { cause }),
        Failure::Nothing => {
            let starts = open_starts(alloc, schemas, stack, states, done)?;
            let is_done = is_done(stack, states, done);
            Ok(Progress::Going { starts, is_done })
        }
    }
}

/// What may begin, as a list.
fn listed_starts<'a>(
    alloc: Global,
    schemas: &Schemas,
    stack: &StackState,
    starts: &'a ByName<Wants>,
) -> Result<Starts<'a>, AllocError>
    requires { AreRequests schemas.now stack.now.stack starts.now }
    ensures { IfOk result (λ starts. AreOpen schemas.now stack.now.stack starts) }
{
    listed(alloc, starts)
}

/// How far it has come, by what may begin and whether all is done.
fn progress_anew<'a>(
    alloc: Global,
    schemas: &Schemas,
    name: &Txt,
    world: &World,
    stack: &StackState,
    starts: &'a ByName<Wants>,
    is_done: bool,
) -> Result<Progress<'a>, AllocError>
    requires starts { AreRequests schemas.now stack.now.stack starts.now }
    requires done { IsTrue is_done ↔ AllDone stack.now.stack }
    ensures { IfOk result (λ p. IsProgressOf schemas.now name.now world.now.world stack.now.stack p) }
{
    match failure_anew(alloc, schemas, name, world, stack)? {
        Failure::Because { cause } => Ok(Progress::Failed { cause }),
        Failure::Nothing => {
            let starts = listed_starts(alloc, schemas, stack, starts)?;
            Ok(Progress::Going { starts, is_done })
        }
    }
}

/// Whether the phase has failed and why, by what is known of its paths.
fn failure_seen(
    alloc: Global,
    schemas: &Schemas,
    name: &Txt,
    world: &World,
    stack: &StackState,
    overview: &Overview,
) -> Result<Failure, AllocError>
    requires { IsOverview schemas.now stack.now.stack overview.now }
    ensures { IfOk result (λ failure. IsFailureOf schemas.now name.now world.now.world stack.now.stack failure) }
{
    match overview {
        Overview::Kept { states, done } => failure_kept(
            alloc,
            schemas,
            name,
            world,
            stack,
            states.as_slice(),
            done.as_slice(),
        ),
        Overview::Anew {
            starts: _,
            is_done: _,
        } => failure_anew(alloc, schemas, name, world, stack),
    }
}

/// Whether nothing has failed.
fn is_nothing(failure: &Failure) -> bool
    ensures { result ≡ is_nothing failure.now }
{
    matches!(failure, Failure::Nothing)
}

/// Whether the forward phase of a create or an update has not failed, by what is known of its paths. What may begin is not laid out.
///
/// # Errors
///
/// Only for want of memory.
pub fn goes_on(
    alloc: Global,
    schemas: &Schemas,
    name: &Txt,
    world: &World,
    stack: &StackState,
    overview: &Overview,
) -> Result<bool, AllocError>
    requires { IsOverview schemas.now stack.now.stack overview.now }
    ensures { IfOk result (λ so. IsTrue so ↔ ¬ HasFailed schemas.now name.now world.now.world stack.now.stack) }
{
    let failure = failure_seen(alloc, schemas, name, world, stack, overview)?;
    Ok(is_nothing(&failure))
}

/// How far a create or an update has come in its forward phase, by what is known of its paths. The requests that may begin borrow
/// from that, in the order of work.
///
/// # Errors
///
/// Only for want of memory.
pub fn progress_of<'a>(
    alloc: Global,
    schemas: &Schemas,
    name: &Txt,
    world: &World,
    stack: &StackState,
    overview: &'a Overview<'a>,
) -> Result<Progress<'a>, AllocError>
    requires { IsOverview schemas.now stack.now.stack overview.now }
    ensures { IfOk result (λ p. IsProgressOf schemas.now name.now world.now.world stack.now.stack p) }
{
    match overview {
        Overview::Kept { states, done } => progress_kept(
            alloc,
            schemas,
            name,
            world,
            stack,
            states.as_slice(),
            done.as_slice(),
        ),
        Overview::Anew { starts, is_done } => {
            progress_anew(alloc, schemas, name, world, stack, starts, *is_done)
        }
    }
}
