//! Why the forward phase of an operation has failed.
ghost use Rattle.std.specs.Prelude.{◌≡◌, true, IfOk, find, is_some};
ghost use Rattle.std.specs.List.{list_any};
ghost use Rattle.std.specs.Option.{option_copied};
ghost use Rattle.cf_desired.specs.FlawText.{flaw_text};
ghost use Rattle.cf_plan.specs.Failed.{are_all_done};
ghost use Rattle.cf_plan.specs.Forward.{is_lost, keeps_value, path_of_token, plan_before, plan_now};
ghost use Rattle.cf_plan.specs.Done.{AreDone, HasTerms};
ghost use Rattle.cf_plan.specs.Causes.{IsFailureOf, end_failure, failure_of_call, of_export, plan_failure};
ghost use Rattle.cf_plan.specs.declared.cause.Failure.TheVariants as failed;
ghost use Rattle.cf_entry.specs.declared.turn.Cause.TheVariants as told;

use crate::bad::first_bad;
use crate::calls::path_of_token;
use crate::failing::first_failing;
use crate::index::{NameIndex, PlanIndex};
use cf_desired::{Flaw, Plan, plan_text};
use cf_entry::{Cause, Reason};
use cf_export::{Export, pinned};
use cf_schema::Schemas;
use cf_stacks::{StackState, World};
use cf_tree::{Names, Txt};
use std::alloc::{AllocError, Global};

/// Whether a forward phase has failed, and why.
#[derive(Drop)]
pub enum Failure {
    /// It has not.
    Nothing,
    /// It has, for this cause.
    Because { cause: Cause },
}

/// Whether a plan exports a name with its value.
fn keeps_value(export: &Export, planned: &(Txt, Option<Txt>)) -> bool
    ensures { result ≡ keeps_value export.now planned.now }
{
    match &planned.1 {
        Some(value) => planned.0 == export.name && *value == export.value,
        None => false,
    }
}

/// Whether a plan keeps an export.
fn is_kept(now: &Plan, export: &Export) -> bool
    ensures { result ≡ list_any (keeps_value export.now) now.now.exports }
{
    now.exports
        .as_slice()
        .iter()
        .any(|planned| keeps_value(export, planned))
}

/// Whether an export of this stack, which another one pins, would be gone or have another value.
fn is_lost(name: &Txt, world: &World, now: &Plan, export: &Export) -> bool
    ensures { result ≡ is_lost name.now world.now.world now.now export.now }
{
    *name == export.stack && pinned(world.pins(), &export.name, name) && !is_kept(now, export)
}

/// The first such export.
fn lost_export<'a>(name: &Txt, world: &'a World, now: &Plan) -> Option<&'a Export>
    ensures { option_copied result ≡ find (is_lost name.now world.now.world now.now) world.now.world.exports }
{
    world
        .exports()
        .as_slice()
        .iter()
        .find(|export| is_lost(name, world, now, export))
}

/// Whether all wanted paths are done.
pub(crate) fn are_all_done(before: &PlanIndex, done: &NameIndex) -> bool
    ensures { result ≡ are_all_done before.now done.now }
{
    are_done(before.plan(), done)
}

/// Whether all paths of a plan are done.
fn are_done(before: &Plan, done: &NameIndex) -> bool
    ensures { result ≡ are_all_done before.now done.now }
{
    before
        .wanted
        .as_slice()
        .iter()
        .all(|wanted| done.contains(&wanted.path))
}

/// The failure that a call makes, which has its row in the ledger.
pub(crate) fn failure_of_call(
    alloc: Global,
    stack: &StackState,
    token: u64,
    reason: Reason,
) -> Result<Failure, AllocError>
    requires { is_some (path_of_token token stack.now.stack) ≡ true }
    ensures { IfOk result (λ failure. failure ≡ failure_of_call (path_of_token token stack.now.stack) reason) }
{
    match path_of_token(stack, token) {
        Some(path) => {
            let path = path.try_clone(alloc)?;
            Ok(Failure::Because {
                cause: Cause::Handler { path, reason },
            })
        }
        // The call has its row.
        None => unreachable!(),
    }
}

/// The failure that a flaw makes.
pub(crate) fn failure_of_flaw(alloc: Global, flaw: &Flaw) -> Result<Failure, AllocError>
    ensures { IfOk result (λ failure. failure ≡ failed.Because (told.Plan (flaw_text flaw.now))) }
{
    let fault = plan_text(alloc, flaw)?;
    Ok(Failure::Because {
        cause: Cause::Plan { fault },
    })
}

/// The failure that an export makes that would be lost.
fn failure_of_export(
    alloc: Global,
    name: &Txt,
    world: &World,
    now: &Plan,
) -> Result<Failure, AllocError>
    ensures { IfOk result (λ failure. failure ≡ of_export (find (is_lost name.now world.now.world now.now) world.now.world.exports)) }
{
    match lost_export(name, world, now) {
        Some(export) => {
            let name = export.name.try_clone(alloc)?;
            Ok(Failure::Because {
                cause: Cause::Export { name },
            })
        }
        None => Ok(Failure::Nothing),
    }
}

/// What fails the phase where all paths are done: an output, or an export.
fn end_failure(alloc: Global, name: &Txt, world: &World, now: &Plan) -> Result<Failure, AllocError>
    ensures { IfOk result (λ failure. failure ≡ end_failure name.now world.now.world now.now) }
{
    match now.flaws.as_slice().split_first() {
        Some((flaw, _)) => failure_of_flaw(alloc, flaw),
        None => failure_of_export(alloc, name, world, now),
    }
}

/// What fails the phase by what the template says.
fn plan_failure(
    alloc: Global,
    name: &Txt,
    world: &World,
    before: &PlanIndex,
    now: &PlanIndex,
    done: &NameIndex,
) -> Result<Failure, AllocError>
    ensures { IfOk result (λ failure. failure ≡ plan_failure name.now world.now.world before.now now.now done.now) }
{
    match first_bad(before, now, done) {
        Some(bad) => failure_of_flaw(alloc, bad.flaw),
        None => {
            if are_all_done(before, done) {
                end_failure(alloc, name, world, now.plan())
            } else {
                Ok(Failure::Nothing)
            }
        }
    }
}

/// Whether the forward phase of a stack has failed, and why, by any plan with the paths and the needs of the operation's source, by
/// what that says over the resources of now, and by the paths that are done.
pub(crate) fn failure_by<'a>(
    alloc: Global,
    schemas: &Schemas,
    name: &Txt,
    world: &World,
    stack: &StackState,
    terms: &PlanIndex<'a>,
    now: &PlanIndex<'a>,
    done: &NameIndex,
) -> Result<Failure, AllocError>
    requires terms { HasTerms stack.now.stack terms.now }
    requires now { now.now ≡ plan_now stack.now.stack }
    requires done { AreDone stack.now.stack done.now }
    ensures { IfOk result (λ failure. IsFailureOf schemas.now name.now world.now.world stack.now.stack failure) }
{
    match first_failing(schemas, stack) {
        Some((token, reason)) => failure_of_call(alloc, stack, token, reason),
        None => plan_failure(alloc, name, world, terms, now, done),
    }
}

/// Whether the forward phase of a stack has failed, and why: the first outcome that fails it, else the flaw of the first path
/// in byte order, outputs after all paths, else the first export that would be lost.
///
/// `before` is what the operation's source says over what was held before, `now` what it says over the resources of now, and
/// `done` are the paths that are done.
///
/// # Errors
///
/// Only for want of memory.
#[tactic(auto, using(crate::proofs::PlanTerms::over_before))]
pub fn failure_of(
    alloc: Global,
    schemas: &Schemas,
    name: &Txt,
    world: &World,
    stack: &StackState,
    before: &Plan,
    now: &Plan,
    done: &Names,
) -> Result<Failure, AllocError>
    requires before { before.now ≡ plan_before stack.now.stack }
    requires now { now.now ≡ plan_now stack.now.stack }
    requires done { AreDone stack.now.stack done.now }
    ensures { IfOk result (λ failure. IsFailureOf schemas.now name.now world.now.world stack.now.stack failure) }
{
    let before = PlanIndex::new(alloc, before)?;
    let now = PlanIndex::new(alloc, now)?;
    let done = NameIndex::of(alloc, done)?;
    failure_by(alloc, schemas, name, world, stack, &before, &now, &done)
}
