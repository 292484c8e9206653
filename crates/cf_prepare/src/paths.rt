//! The paths that failed as a stack's last operation ended, and paths in their order.
ghost use Rattle.std.specs.Prelude.{◌≡◌, ◌++◌, ◌∷◌, [], IfOk, List, filter, fold, flat_map, map};
ghost use Rattle.cf_desired.specs.Shape.{put_name};
ghost use Rattle.cf_plan.specs.Follow.{failed_in, failed_of};
ghost use Rattle.cf_prepare.specs.Orders.{IsSorted};
ghost use Rattle.cf_prepare.specs.Refusals.{may_keep};
ghost use Rattle.cf_effect.specs.Operation.{is_of};
ghost use Rattle.cf_effect.specs.World.{known_stack};

use cf_entry::{Entry, Status};
use cf_stacks::{HeardEntry, StackState, World};
use cf_tree::{ByName, Names, Txt};
use std::alloc::{AllocError, Global};

/// Adds names behind others. After an error nothing is said of the list.
fn add_all(alloc: Global, names: &mut Names, more: &Names) -> Result<(), AllocError>
    ensures { IfOk result (λ _. names.new ≡ names.old ++ more.now) }
{
    for name in more.as_slice() {
        names.push(name.try_clone(alloc)?)?;
    }
    Ok(())
}

/// Adds the paths that an entry tells to have failed, where it ends the operation of a number. After
/// an error nothing is said of the list.
fn add_failed(
    alloc: Global,
    paths: &mut Names,
    operation: u64,
    heard: &HeardEntry,
) -> Result<(), AllocError>
    ensures { IfOk result (λ _. paths.new ≡ paths.old ++ flat_map failed_in (filter (is_of operation) (heard.now ∷ []))) }
{
    match heard.as_entry() {
        Some(
            Entry::Done {
                number,
                status: _,
                failed,
            },
        ) => {
            if operation == *number {
                add_all(alloc, paths, failed)
            } else {
                Ok(())
            }
        }
        _ => Ok(()),
    }
}

/// The paths that entries tell to have failed as the operation of a number ended.
fn failed_among(alloc: Global, operation: u64, entries: &[HeardEntry]) -> Result<Names, AllocError>
    ensures { IfOk result (λ paths. paths ≡ flat_map failed_in (filter (is_of operation) entries.now)) }
{
    let mut paths = Names::new(alloc);
    for heard in entries {
        add_failed(alloc, &mut paths, operation, heard)?;
    }
    Ok(paths)
}

/// The paths that failed as the last operation of a stack ended.
fn failed_on(alloc: Global, stack: &StackState) -> Result<Names, AllocError>
    ensures { IfOk result (λ paths. paths ≡ failed_of stack.now.stack) }
{
    failed_among(alloc, stack.operation(), stack.entries().as_slice())
}

/// The paths that failed as the last operation of the stack of a name ended.
pub(crate) fn failed_of(alloc: Global, world: &World, name: &Txt) -> Result<Names, AllocError>
    ensures { IfOk result (λ paths. paths ≡ failed_of (known_stack name.now world.now.world)) }
{
    match world.stack(name.as_str()) {
        Some(stack) => failed_on(alloc, stack),
        None => Ok(Names::new(alloc)),
    }
}

/// The paths that a deletion of the stack of a name may keep.
pub(crate) fn may_keep(alloc: Global, world: &World, name: &Txt) -> Result<Names, AllocError>
    ensures { IfOk result (λ paths. paths ≡ may_keep (known_stack name.now world.now.world).status (known_stack name.now world.now.world)) }
{
    match world.stack(name.as_str()) {
        Some(stack) => match stack.status() {
            Status::DeleteFailed => failed_on(alloc, stack),
            _ => Ok(Names::new(alloc)),
        },
        None => Ok(Names::new(alloc)),
    }
}

/// Each of some names once, in byte order.
fn each_once(alloc: Global, names: &[Txt]) -> Result<ByName<bool>, AllocError>
    ensures { IfOk result (λ ps. ps ≡ fold put_name [] names.now) }
{
    let mut each = ByName::new(alloc);
    for name in names {
        each.insert(name.try_clone(alloc)?, true)?;
    }
    Ok(each)
}

/// The names under which something stands.
fn names_under(alloc: Global, pairs: &[(Txt, bool)]) -> Result<Names, AllocError>
    ensures { IfOk result (λ names. names ≡ map (λ p. p.0) pairs.now) }
{
    let mut names = Names::new(alloc);
    for pair in pairs {
        names.push(pair.0.try_clone(alloc)?)?;
    }
    Ok(names)
}

/// Paths, each once and in byte order.
#[tactic(auto, using(crate::proofs::Sorted::sorted_names))]
pub(crate) fn sorted(alloc: Global, paths: &Names) -> Result<Names, AllocError>
    ensures { IfOk result (λ sorted. IsSorted paths.now sorted) }
{
    let each = each_once(alloc, paths.as_slice())?;
    let names = names_under(alloc, each.as_slice());
    drop(each);
    names
}
