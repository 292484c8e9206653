//! What a stack holds, as a change set compares it.
ghost use Rattle.std.specs.Prelude.{◌≡◌, ◌++◌, IfOk, OnOk, filter, map, not};
ghost use Rattle.cf_change.specs.Changes.{HeldAt as Resource};
ghost use Rattle.cf_plan.specs.Accept.{exports_by, held_as, held_by};
ghost use Rattle.cf_effect.specs.World.{known_stack};

use crate::exported::exports_by;
use cf_change::{HeldAt, HeldMap};
use cf_export::Outputs;
use cf_stacks::{Held, World};
use cf_tree::{Listing, TryClone, Txt};
use std::alloc::{AllocError, Global};

/// A resource without what a change set doesn't compare.
fn held_as(alloc: Global, held: &Held) -> Result<HeldAt, AllocError>
    ensures { IfOk result (λ h. h ≡ held_as held.now) }
{
    let path = held.path.try_clone(alloc)?;
    let kind = held.kind.try_clone(alloc)?;
    let physical = held.physical.try_clone(alloc)?;
    let props = held.props.try_clone(alloc)?;
    Ok(HeldAt {
        path,
        kind,
        physical,
        props,
        attrs: held.attrs.try_clone(alloc)?,
        deletion: held.deletion,
        replace: held.replace,
        unsure: held.unsure,
    })
}

/// The resource of each path, and none that is superseded.
fn resources_in(alloc: Global, helds: &[Held]) -> Result<Listing<HeldAt>, AllocError>
    ensures { IfOk result (λ hs. hs ≡ map held_as (filter (λ h. not h.superseded) helds.now)) }
{
    let mut resources = Listing::new(alloc);
    for held in helds {
        if !held.superseded {
            resources.push(held_as(alloc, held)?)?;
        }
    }
    Ok(resources)
}

/// The resources of the stack of a name: none, where there is no such stack.
fn resources_of(alloc: Global, world: &World, name: &Txt) -> Result<Listing<HeldAt>, AllocError>
    ensures { IfOk result (λ hs. hs ≡ held_by (known_stack name.now world.now.world)) }
{
    match world.stack(name.as_str()) {
        Some(stack) => resources_in(alloc, stack.held().as_slice()),
        None => Ok(Listing::new(alloc)),
    }
}

/// Its outputs.
fn outputs_of(alloc: Global, world: &World, name: &Txt) -> Result<Outputs, AllocError>
    ensures { IfOk result (λ os. os ≡ (known_stack name.now world.now.world).outputs) }
{
    match world.stack(name.as_str()) {
        Some(stack) => stack.outputs().try_clone(alloc),
        None => Ok(Outputs::new(alloc)),
    }
}

/// What the stack of a name holds: its resources, outputs and exports; nothing, where there is no
/// such stack.
///
/// # Errors
///
/// Only for want of memory.
pub fn held_of(alloc: Global, world: &World, name: &Txt) -> Result<HeldMap, AllocError>
    ensures { IfOk result (λ m. m ≡ record {
      resources = held_by (known_stack name.now world.now.world);
      outputs = (known_stack name.now world.now.world).outputs;
      exports = exports_by name.now world.now.world;
    }) }
{
    let outputs = outputs_of(alloc, world, name)?;
    let exports = exports_by(alloc, world, name)?;
    match resources_of(alloc, world, name) {
        Ok(resources) => Ok(HeldMap {
            resources,
            outputs,
            exports,
        }),
        Err(failed) => Err(failed),
    }
}
