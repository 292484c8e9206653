//! Why the stack of a wish is refused.
ghost use Rattle.std.specs.Prelude.{◌≡◌, ⊤, Some, None, not, find, option_copied, option_map, if◌then◌else◌};
ghost use Rattle.cf_tree.specs.Lists.{is_among};
ghost use Rattle.cf_plan.specs.Follow.{continues_from, deletes_from};
ghost use Rattle.cf_prepare.specs.Answer.{RefusesAs, TestsAs};
ghost use Rattle.cf_prepare.specs.Refusals.{if_barred, if_missing, if_not_failed};
ghost use Rattle.cf_plan.specs.Follow.{deploys_from};
ghost use Rattle.cf_prepare.specs.declared.wish.StackFault.TheVariants as stack;
ghost use Rattle.cf_prepare.specs.declared.wish.PrepareFault.TheVariants as fault;
ghost use Rattle.cf_effect.specs.Status.{is_in_progress};
ghost use Rattle.cf_effect.specs.World.{known_stack};

use crate::stack::{continues_from, deletes_from, deploys_from, status_of};
use crate::wish::{PrepareFault, StackFault};
use cf_entry::Status;
use cf_stacks::{World, is_in_progress};
use cf_tree::{Names, Txt};
use std::alloc::Global;

/// The refusal of a stack.
pub(crate) fn refused(why: StackFault) -> PrepareFault
    ensures { result ≡ fault.Stack why }
{
    PrepareFault::Stack { fault: why }
}

/// Refuses where there is no stack of the name.
pub(crate) fn test_there(world: &World, name: &Txt) -> Result<(), PrepareFault>
    ensures { TestsAs (if_missing name.now world.now.world) (λ _. ⊤) result }
{
    match world.stack(name.as_str()) {
        Some(_) => Ok(()),
        None => Err(refused(StackFault::NoStack)),
    }
}

/// Refuses a status, unless it lets the operation begin.
fn test_status(lets: bool, status: Status) -> Result<(), PrepareFault>
    ensures { TestsAs (if lets then None else Some (fault.Stack (stack.WrongStatus status))) (λ _. ⊤) result }
{
    if lets {
        Ok(())
    } else {
        Err(refused(StackFault::WrongStatus { status }))
    }
}

/// Why nothing is deployed to the stack of a name, by its status: it is created where nothing is left of it, and updated from
/// CREATE_COMPLETE, UPDATE_COMPLETE and UPDATE_ROLLBACK_COMPLETE. It takes no memory.
pub fn status_refusal(world: &World, name: &Txt) -> Option<PrepareFault>
    ensures { result ≡ if_barred deploys_from (known_stack name.now world.now.world) }
{
    let status = status_of(world, name);
    if deploys_from(status) {
        None
    } else {
        Some(refused(StackFault::WrongStatus { status }))
    }
}

/// Refuses a stack that is neither created nor updated from its status.
pub(crate) fn test_deploys(world: &World, name: &Txt) -> Result<(), PrepareFault>
    ensures { TestsAs (if_barred deploys_from (known_stack name.now world.now.world)) (λ _. ⊤) result }
{
    match status_refusal(world, name) {
        None => Ok(()),
        Some(fault) => Err(fault),
    }
}

/// Refuses a stack that is not deleted from its status.
pub(crate) fn test_deletes(world: &World, name: &Txt) -> Result<(), PrepareFault>
    ensures { TestsAs (if_barred deletes_from (known_stack name.now world.now.world)) (λ _. ⊤) result }
{
    let status = status_of(world, name);
    test_status(deletes_from(status), status)
}

/// Refuses a stack whose rollback can't go on from its status.
pub(crate) fn test_continues(world: &World, name: &Txt) -> Result<(), PrepareFault>
    ensures { TestsAs (if_barred continues_from (known_stack name.now world.now.world)) (λ _. ⊤) result }
{
    let status = status_of(world, name);
    test_status(continues_from(status), status)
}

/// Refuses a stack on which no operation is in progress.
pub(crate) fn test_in_progress(world: &World, name: &Txt) -> Result<(), PrepareFault>
    ensures { TestsAs (if_barred is_in_progress (known_stack name.now world.now.world)) (λ _. ⊤) result }
{
    let status = status_of(world, name);
    test_status(is_in_progress(status), status)
}

/// The first path that is not among those that failed.
fn not_failed<'a>(failed: &Names, paths: &'a [Txt]) -> Option<&'a Txt>
    ensures { option_copied result ≡ find (λ p. not (is_among p failed.now)) paths.now }
{
    paths.iter().find(|path| !failed.contains(path))
}

/// The refusal of a path.
fn path_refused(alloc: Global, path: &Txt) -> PrepareFault
    ensures { RefusesAs (fault.Stack (stack.NotFailed path.now)) result }
{
    match path.try_clone(alloc) {
        Ok(path) => refused(StackFault::NotFailed { path }),
        Err(_) => PrepareFault::NoMemory,
    }
}

/// Refuses the first path that is not among those that failed.
pub(crate) fn test_failed(alloc: Global, failed: &Names, paths: &Names) -> Result<(), PrepareFault>
    ensures { TestsAs (if_not_failed failed.now paths.now) (λ _. ⊤) result }
{
    match not_failed(failed, paths.as_slice()) {
        Some(path) => Err(path_refused(alloc, path)),
        None => Ok(()),
    }
}
