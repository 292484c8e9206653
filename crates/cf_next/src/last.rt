//! What comes last in a stage: a phase that begins, or the end of the operation.
ghost use Rattle.std.specs.Prelude.{◌≡◌, ℕ, ◌↔◌, List, None, false, IfOk, IsTrue};
ghost use Rattle.std.specs.List.{list_any};
ghost use Rattle.cf_plan.specs.Follow.{AreFailed, is_cleared, is_failed_status};
ghost use Rattle.cf_next.specs.declared.step.Next.TheVariants as next;
ghost use Rattle.cf_next.specs.Joining.{HasNothing, IsLastBy, end_status, has_lane};

use crate::home::has_lane;
use crate::offer::{Offer, Turn};
use crate::step::Next;
use cf_entry::{Cause, Status};
use cf_plan::{Start, failed_paths, is_cleared};
use cf_stacks::{StackState, World};
use cf_tree::{Names, TryClone};
use std::alloc::{AllocError, Global};

/// A copy of a cause, where there is one.
fn cause_of(alloc: Global, cause: &Option<Cause>) -> Result<Option<Cause>, AllocError>
    ensures { IfOk result (λ c. c ≡ cause.now) }
{
    match cause {
        Some(cause) => Ok(Some(cause.try_clone(alloc)?)),
        None => Ok(None),
    }
}

/// A phase begins.
fn turn_by(alloc: Global, turn: &Turn) -> Result<Next, AllocError>
    ensures { IfOk result (λ n. n ≡ next.Turn turn.now.phase turn.now.cause) }
{
    let cause = cause_of(alloc, &turn.cause)?;
    Ok(Next::Turn {
        phase: turn.phase,
        cause,
    })
}

/// Whether a lane of the last opening fits one of these calls.
fn has_start(world: &World, starts: &[Start]) -> bool
    ensures { result ≡ list_any (has_lane world.now.world) starts.now }
{
    starts.iter().any(|start| has_lane(world, start))
}

/// Whether an offer over no leases has nothing that a lane of the last opening could take.
fn has_nothing(world: &World, open: &Offer) -> bool
    ensures { IsTrue result ↔ HasNothing world.now.world open.now }
{
    open.repeats.is_empty()
        && open.keepings.is_empty()
        && open.turn.is_none()
        && !has_start(world, open.starts.as_slice())
}

/// The status in which an operation ends that is at its end.
fn end_of(stack: &StackState, is_made: bool) -> Option<Status>
    ensures { result ≡ end_status stack.now.stack.status is_made (is_cleared stack.now.stack) }
{
    match stack.status() {
        Status::CreateInProgress => {
            if is_made {
                Some(Status::CreateComplete)
            } else {
                None
            }
        }
        Status::RollbackInProgress => {
            if is_cleared(stack) {
                Some(Status::RollbackComplete)
            } else {
                Some(Status::RollbackFailed)
            }
        }
        Status::DeleteInProgress => {
            if is_cleared(stack) {
                Some(Status::DeleteComplete)
            } else {
                Some(Status::DeleteFailed)
            }
        }
        Status::UpdateCompleteCleanupInProgress => Some(Status::UpdateComplete),
        Status::UpdateRollbackCompleteCleanupInProgress => Some(Status::UpdateRollbackComplete),
        Status::UpdateRollbackInProgress => Some(Status::UpdateRollbackFailed),
        _ => None,
    }
}

/// Whether a status tells which paths failed.
fn is_failed_status(status: Status) -> bool
    ensures { result ≡ is_failed_status status }
{
    matches!(
        status,
        Status::RollbackFailed | Status::UpdateRollbackFailed | Status::DeleteFailed
    )
}

/// The paths that failed, where a status tells them.
fn failed_in(alloc: Global, stack: &StackState, status: Status) -> Result<Names, AllocError>
    ensures { IfOk result (λ failed. AreFailed stack.now.stack status failed) }
{
    if is_failed_status(status) {
        failed_paths(alloc, stack)
    } else {
        Ok(Names::new(alloc))
    }
}

/// The end of an operation in a status.
fn ending(alloc: Global, stack: &StackState, status: Status) -> Result<Next, AllocError>
    ensures { IfOk result (λ n. (failed : List (List ℕ)) × (n ≡ next.End status failed) × AreFailed stack.now.stack status failed) }
{
    let failed = failed_in(alloc, stack, status)?;
    Ok(Next::End { status, failed })
}

/// The end, where an operation has come to it of which no phase may begin.
fn end_by(
    alloc: Global,
    world: &World,
    stack: &StackState,
    open: &Offer,
) -> Result<Option<Next>, AllocError>
    requires { open.now.turn ≡ None }
    ensures { IfOk result (λ last. IsLastBy world.now.world stack.now.stack open.now last) }
{
    if !has_nothing(world, open) {
        return Ok(None);
    }
    match end_of(stack, open.is_made) {
        Some(status) => Ok(Some(ending(alloc, stack, status)?)),
        None => Ok(None),
    }
}

/// The phase that begins, or the end, once no call of the stack is out: told by what the operation
/// has to offer over no leases.
pub(crate) fn last_by(
    alloc: Global,
    world: &World,
    stack: &StackState,
    open: &Offer,
) -> Result<Option<Next>, AllocError>
    ensures { IfOk result (λ last. IsLastBy world.now.world stack.now.stack open.now last) }
{
    match &open.turn {
        Some(turn) => Ok(Some(turn_by(alloc, turn)?)),
        None => end_by(alloc, world, stack, open),
    }
}
