//! Which resources of a stack others need: their physical ids.
ghost use Rattle.std.specs.Prelude.{◌≡◌, ◌++◌, [], IfOk, flat_map, fold};
ghost use Rattle.std.specs.Option.{option_to_list};
ghost use Rattle.cf_tree.specs.Keys.{value_at};
ghost use Rattle.cf_plan.specs.Between.{needs_at};
ghost use Rattle.cf_next.specs.Needed.{AreAllNeeded, AreNeeded, for_create, for_held, for_made, held_ids};
ghost use Rattle.cf_next.specs.Needed.{held_needs, ids_at, needed_ids, resource_ids, with_id};

use crate::lookups::{Lent, LentMap, Lents};
use cf_stacks::{Held, Pending, StackState};
use cf_tree::{Request, Txt};
use std::alloc::{AllocError, Global};

/// Physical ids, by path.
type Ids<'a> = LentMap<'a, Lent<'a>>;

/// Adds the physical id of a resource under its path, where it is the first there and is not superseded. After an error the map is
/// as it was.
fn add_current<'a>(ids: &mut Ids<'a>, held: &'a Held) -> Result<(), AllocError>
    ensures { IfOk result (λ _. ids.new ≡ with_id ids.old held.now) }
{
    if held.superseded {
        Ok(())
    } else {
        ids.add_first(&held.path, Lent::new(&held.physical))
    }
}

/// Adds those of these resources. After an error nothing is said of the map.
fn add_currents<'a>(ids: &mut Ids<'a>, helds: &'a [Held]) -> Result<(), AllocError>
    ensures { IfOk result (λ _. ids.new ≡ fold with_id ids.old helds.now) }
{
    for held in helds {
        add_current(ids, held)?;
    }
    Ok(())
}

/// The physical ids of the held resources, by path.
fn held_ids<'a>(alloc: Global, stack: &'a StackState) -> Result<Ids<'a>, AllocError>
    ensures { IfOk result (λ ids. ids ≡ held_ids stack.now.stack) }
{
    let mut ids = Ids::new(alloc);
    add_currents(&mut ids, stack.held().as_slice())?;
    Ok(ids)
}

/// The physical ids of the resources by path: at each the made one, or else the held one.
fn resource_ids<'a>(alloc: Global, stack: &'a StackState) -> Result<Ids<'a>, AllocError>
    ensures { IfOk result (λ ids. ids ≡ resource_ids stack.now.stack) }
{
    let mut ids = Ids::new(alloc);
    add_currents(&mut ids, stack.made().as_slice())?;
    add_currents(&mut ids, stack.held().as_slice())?;
    Ok(ids)
}

/// Adds the physical id at a path, where there is one. After an error the list is as it was.
fn add_id<'a>(needed: &mut Lents<'a>, ids: &Ids<'a>, path: &Txt) -> Result<(), AllocError>
    ensures { IfOk result (λ _. needed.new ≡ needed.old ++ option_to_list (value_at path.now ids.now)) }
{
    match ids.get(path) {
        Some(id) => needed.push(Lent::new(id.name())),
        None => Ok(()),
    }
}

/// Adds the physical ids at these paths. After an error nothing is said of the list.
fn add_ids<'a>(needed: &mut Lents<'a>, ids: &Ids<'a>, paths: &[Txt]) -> Result<(), AllocError>
    ensures { IfOk result (λ _. needed.new ≡ needed.old ++ ids_at ids.now paths.now) }
{
    for path in paths {
        add_id(needed, ids, path)?;
    }
    Ok(())
}

/// Adds the physical ids of what a path needs. After an error nothing is said of the list.
fn add_needs<'a>(
    needed: &mut Lents<'a>,
    ids: &Ids<'a>,
    stack: &StackState,
    path: &Txt,
) -> Result<(), AllocError>
    ensures { IfOk result (λ _. needed.new ≡ needed.old ++ ids_at ids.now (needs_at path.now stack.now.stack)) }
{
    add_ids(needed, ids, stack.needs_at(path))
}

/// Adds the physical ids of what an open call needs, where it is a create. After an error nothing is said of the list.
fn add_for_create<'a>(
    needed: &mut Lents<'a>,
    ids: &Ids<'a>,
    stack: &StackState,
    pending: &Pending,
) -> Result<(), AllocError>
    ensures { IfOk result (λ _. needed.new ≡ needed.old ++ for_create ids.now stack.now.stack pending.now) }
{
    match pending.request {
        Request::Create { kind: _, props: _ } => { add_needs(needed, ids, stack, &pending.path) }
        _ => Ok(()),
    }
}

/// Adds the physical ids of what a held resource needs, where it is not superseded. After an error nothing is said of the list.
fn add_for_held<'a>(needed: &mut Lents<'a>, ids: &Ids<'a>, held: &Held) -> Result<(), AllocError>
    ensures { IfOk result (λ _. needed.new ≡ needed.old ++ for_held ids.now held.now) }
{
    if held.superseded {
        Ok(())
    } else {
        add_ids(needed, ids, held.needs.as_slice())
    }
}

/// Adds the physical ids of what these made resources need. After an error nothing is said of the list.
fn add_for_mades<'a>(
    needed: &mut Lents<'a>,
    ids: &Ids<'a>,
    stack: &StackState,
    made: &[Held],
) -> Result<(), AllocError>
    ensures { IfOk result (λ _. needed.new ≡ needed.old ++ flat_map (for_made ids.now stack.now.stack) made.now) }
{
    for held in made {
        add_needs(needed, ids, stack, &held.path)?;
    }
    Ok(())
}

/// Adds the physical ids of what the creates among these open calls need. After an error nothing is said of the list.
fn add_for_creates<'a>(
    needed: &mut Lents<'a>,
    ids: &Ids<'a>,
    stack: &StackState,
    tokens: &[Pending],
) -> Result<(), AllocError>
    ensures { IfOk result (λ _. needed.new ≡ needed.old ++ flat_map (for_create ids.now stack.now.stack) tokens.now) }
{
    for pending in tokens {
        add_for_create(needed, ids, stack, pending)?;
    }
    Ok(())
}

/// Adds the physical ids of what these held resources need. After an error nothing is said of the list.
fn add_for_helds<'a>(
    needed: &mut Lents<'a>,
    ids: &Ids<'a>,
    helds: &[Held],
) -> Result<(), AllocError>
    ensures { IfOk result (λ _. needed.new ≡ needed.old ++ flat_map (for_held ids.now) helds.now) }
{
    for held in helds {
        add_for_held(needed, ids, held)?;
    }
    Ok(())
}

/// The physical ids of what made resources and open creates need.
fn ids_of_needed<'a>(alloc: Global, stack: &'a StackState) -> Result<Lents<'a>, AllocError>
    ensures { IfOk result (λ needed. needed ≡ needed_ids stack.now.stack) }
{
    let ids = resource_ids(alloc, stack)?;
    let mut needed = Lents::new(alloc);
    add_for_mades(&mut needed, &ids, stack, stack.made().as_slice())?;
    add_for_creates(&mut needed, &ids, stack, stack.tokens().as_slice())?;
    Ok(needed)
}

/// Adds the physical ids of what held resources need. After an error nothing is said of the list.
fn add_held_needs<'a>(
    alloc: Global,
    needed: &mut Lents<'a>,
    stack: &'a StackState,
) -> Result<(), AllocError>
    ensures { IfOk result (λ _. needed.new ≡ needed.old ++ held_needs stack.now.stack) }
{
    let ids = held_ids(alloc, stack)?;
    let added = add_for_helds(needed, &ids, stack.held().as_slice());
    drop(ids);
    added
}

/// The physical ids of what made resources and open creates need: whether a resource is needed by them is whether its id is one of
/// these.
pub(crate) fn needed_in_rollback<'a>(
    alloc: Global,
    stack: &'a StackState,
) -> Result<Lents<'a>, AllocError>
    ensures { IfOk result (λ needed. AreNeeded stack.now.stack needed) }
{
    ids_of_needed(alloc, stack)
}

/// The physical ids of what made resources, open creates and held resources need.
pub(crate) fn needed_in_deletion<'a>(
    alloc: Global,
    stack: &'a StackState,
) -> Result<Lents<'a>, AllocError>
    ensures { IfOk result (λ needed. AreAllNeeded stack.now.stack needed) }
{
    let mut needed = ids_of_needed(alloc, stack)?;
    add_held_needs(alloc, &mut needed, stack)?;
    Ok(needed)
}
