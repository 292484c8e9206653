//! What is known of a stack, and which operations its status lets begin.
ghost use Rattle.std.specs.Prelude.{◌≡◌, ◌+◌, ◌==◌, IfOk, find};
ghost use Rattle.std.specs.Option.{option_copied};
ghost use Rattle.cf_plan.specs.Accept.{creates_from};
ghost use Rattle.cf_plan.specs.Follow.{continues_from, deletes_from, set_number, updates_from};
ghost use Rattle.cf_effect.specs.World.{known_stack};
ghost use Rattle.cf_plan.specs.Follow.{deploys_from};

use cf_entry::Status;
use cf_stacks::{KeptSet, World};
use cf_tree::Txt;
use std::alloc::AllocError;

/// Whether a stack is created from a status.
pub(crate) fn creates_from(status: Status) -> bool
    ensures { result ≡ creates_from status }
{
    matches!(status, Status::DeleteComplete | Status::ReviewInProgress)
}

/// Whether a stack is updated from a status.
fn updates_from(status: Status) -> bool
    ensures { result ≡ updates_from status }
{
    matches!(
        status,
        Status::CreateComplete | Status::UpdateComplete | Status::UpdateRollbackComplete
    )
}

/// Whether a stack is created or updated from a status.
pub(crate) fn deploys_from(status: Status) -> bool
    ensures { result ≡ deploys_from status }
{
    creates_from(status) || updates_from(status)
}

/// Whether a stack is deleted from a status.
pub(crate) fn deletes_from(status: Status) -> bool
    ensures { result ≡ deletes_from status }
{
    matches!(
        status,
        Status::ReviewInProgress
            | Status::RollbackComplete
            | Status::RollbackFailed
            | Status::UpdateRollbackFailed
            | Status::DeleteFailed
    ) || updates_from(status)
}

/// Whether a rollback goes on from a status.
pub(crate) fn continues_from(status: Status) -> bool
    ensures { result ≡ continues_from status }
{
    matches!(status, Status::UpdateRollbackFailed)
}

/// The status of the stack of a name; that of a deleted one where there is none.
pub(crate) fn status_of(world: &World, name: &Txt) -> Status
    ensures { result ≡ (known_stack name.now world.now.world).status }
{
    match world.stack(name.as_str()) {
        Some(stack) => stack.status(),
        None => Status::DeleteComplete,
    }
}

/// The number behind the last one.
pub(crate) fn next_number(last: u64) -> Result<u64, AllocError>
    ensures { IfOk result (λ n. n ≡ last + 1) }
{
    last.checked_add(1).ok_or(AllocError)
}

/// The number of the operation that created the stack, or would create it, for the values that a
/// source takes from that.
pub(crate) fn creating_number(world: &World, name: &Txt) -> Result<u64, AllocError>
    ensures { IfOk result (λ n. n ≡ set_number world.now.world (known_stack name.now world.now.world)) }
{
    match world.stack(name.as_str()) {
        Some(stack) => {
            if creates_from(stack.status()) {
                next_number(world.operation())
            } else {
                Ok(stack.number())
            }
        }
        None => next_number(world.operation()),
    }
}

/// The change set of a number among those of a stack.
pub fn set_in(sets: &[KeptSet], number: u64) -> Option<&KeptSet>
    ensures { option_copied result ≡ find (λ k. number == k.number) sets.now }
{
    sets.iter().find(|set| set.number == number)
}
