//! Whether the operation in progress on a stack can go on.
ghost use Rattle.std.specs.Prelude.{◌≡◌, true, None, IfOk};
ghost use Rattle.std.specs.Option.{option_copied};
ghost use Rattle.cf_plan.specs.Done.{AreDone};
ghost use Rattle.cf_plan.specs.Forward.{plan_before};
ghost use Rattle.cf_prepare.specs.Refusals.{resume_refusal};
ghost use Rattle.cf_plan.specs.Follow.{lane_kinds};
ghost use Rattle.cf_prepare.specs.Resuming.{IsNotStuck, ResumesAs, first_stuck};
ghost use Rattle.cf_effect.specs.Status.{goes_forward};
ghost use Rattle.cf_effect.specs.World.{known_stack};

use crate::planned::{lane_kinds, sooner, unknown};
use crate::refusals::{test_in_progress, test_there};
use crate::wish::{Order, PrepareFault};
use cf_desired::{Plan, Wanted};
use cf_entry::Status;
use cf_plan::{done_paths, plan_before, plan_now};
use cf_stacks::{StackState, World};
use cf_tree::{Names, Txt};
use std::alloc::{AllocError, Global};

/// Whether an operation of this status is in its forward phase.
fn goes_forward(status: Status) -> bool
    ensures { result ≡ goes_forward status }
{
    matches!(status, Status::CreateInProgress | Status::UpdateInProgress)
}

/// The first of what is wanted, by path, that is still to be done and whose type is not among these.
fn first_stuck<'a>(kinds: &Names, done: &Names, wanted: &'a [Wanted]) -> Option<&'a Wanted>
    ensures { option_copied result ≡ first_stuck kinds.now done.now wanted.now }
{
    let mut first = None;
    for one in wanted {
        if !kinds.contains(&one.kind) && !done.contains(&one.path) {
            first = Some(sooner(first, one));
        }
    }
    first
}

/// Refuses the first path that is still to be done and has a type that no lane has.
fn test_wanted(
    alloc: Global,
    kinds: &Names,
    stack: &StackState,
    before: &Plan,
    done: &Names,
) -> Result<(), PrepareFault>
    requires plan { before.now ≡ plan_before stack.now.stack }
    requires done { AreDone stack.now.stack done.now }
    requires forward { goes_forward stack.now.stack.status ≡ true }
    ensures { IsNotStuck kinds.now stack.now.stack result }
{
    match first_stuck(kinds, done, before.wanted.as_slice()) {
        Some(wanted) => Err(unknown(alloc, &wanted.path, &wanted.kind)),
        None => Ok(()),
    }
}

/// The same of a stack whose operation is in its forward phase.
fn test_forward(alloc: Global, kinds: &Names, stack: &StackState) -> Result<(), PrepareFault>
    requires { goes_forward stack.now.stack.status ≡ true }
    ensures { IsNotStuck kinds.now stack.now.stack result }
{
    let before = plan_before(alloc, stack)?;
    match paths_done(alloc, stack, &before) {
        Ok(done) => {
            let tested = test_wanted(alloc, kinds, stack, &before, &done);
            drop(done);
            drop(before);
            tested
        }
        Err(_) => {
            drop(before);
            Err(PrepareFault::NoMemory)
        }
    }
}

/// The paths that are done.
fn paths_done(alloc: Global, stack: &StackState, before: &Plan) -> Result<Names, AllocError>
    requires { before.now ≡ plan_before stack.now.stack }
    ensures { IfOk result (λ done. AreDone stack.now.stack done) }
{
    let now = plan_now(alloc, stack)?;
    let done = done_paths(alloc, stack, before, &now);
    drop(now);
    done
}

/// Refuses a path that the operation can't do.
fn test_stuck(alloc: Global, world: &World, stack: &StackState) -> Result<(), PrepareFault>
    ensures { IsNotStuck (lane_kinds world.now.world) stack.now.stack result }
{
    if !goes_forward(stack.status()) {
        return Ok(());
    }
    let kinds = lane_kinds(alloc, world)?;
    let tested = test_forward(alloc, &kinds, stack);
    drop(kinds);
    tested
}

/// The operation in progress on a stack goes on, where it can.
fn resume_on(alloc: Global, world: &World, stack: &StackState) -> Result<Order, PrepareFault>
    ensures { ResumesAs None (lane_kinds world.now.world) stack.now.stack result }
{
    test_stuck(alloc, world, stack)?;
    Ok(Order::Resume(stack.operation()))
}

/// The operation in progress on the stack of a name goes on, where there is one and it can.
pub(crate) fn resume(alloc: Global, world: &World, name: &Txt) -> Result<Order, PrepareFault>
    ensures { ResumesAs (resume_refusal world.now.world name.now) (lane_kinds world.now.world) (known_stack name.now world.now.world)
        result }
{
    test_there(world, name)?;
    test_in_progress(world, name)?;
    match world.stack(name.as_str()) {
        Some(stack) => resume_on(alloc, world, stack),
        None => unreachable!(),
    }
}
