//! What executing a change set orders.
ghost use Rattle.std.specs.Prelude.{◌≡◌, IfOk, Some};
ghost use Rattle.cf_desired.specs.Templates.{templates_of};
ghost use Rattle.cf_effect.specs.World.{known_stack};
ghost use Rattle.cf_effect.specs.declared.held.KeptSet.{KeptSet as Kept};
ghost use Rattle.cf_prepare.specs.Refusals.{set_of};
ghost use Rattle.cf_prepare.specs.declared.wish.Wish.TheVariants.{Execute};
ghost use Rattle.cf_top.specs.Tasks.{PreparesWish};

use crate::wishing::order_wish;
use cf_desired::{Templates, templates_of};
use cf_face::Exit;
use cf_prepare::{Order, Wish, set_of};
use cf_schema::Schemas;
use cf_stacks::World;
use cf_tree::{TryClone, Txt};
use std::alloc::{AllocError, Global};

/// The templates of a change set of a stack; none where there is no such set.
fn templates_in_set(
    alloc: Global,
    world: &World,
    stack: &Txt,
    number: u64,
) -> Result<Templates, AllocError>
    ensures { IfOk result (λ templates. (k : Kept) → set_of number (known_stack stack.now world.now.world) ≡ Some k
        → templates ≡ templates_of k.source) }
{
    match set_of(world, stack, number) {
        Some(set) => templates_of(alloc, &set.source),
        None => Ok(Templates::new(alloc)),
    }
}

/// The beginning of what a change set of a stack tells: its source creates the stack or updates it.
///
/// # Errors
///
/// `StackRefused` where there is no stack of the name, none is created or updated from its status, or it has no change set of the
/// number. Then `TemplateRefused`: the first flaw of the plan of the set's source, or the first resource, by path, whose type no lane of
/// the opening has. Then `StackRefused` again: a path that is held with another type, an export that another stack has or that another
/// imports, that nothing changes, and `Outdated` where other rows change by now than those of the set. `NoMemory` where memory was not
/// there.
pub fn order_execution(
    alloc: Global,
    world: &World,
    schemas: &Schemas,
    stack: &Txt,
    number: u64,
) -> Result<Order, Exit>
    ensures { PreparesWish schemas.now world.now.world (Execute stack.now number) result }
{
    let Ok(templates) = templates_in_set(alloc, world, stack, number) else {
        return Err(Exit::NoMemory);
    };
    match stack.try_clone(alloc) {
        Ok(stack) => {
            let wish = Wish::Execute { stack, number };
            order_wish(alloc, world, schemas, wish, templates)
        }
        Err(_) => {
            drop(templates);
            Err(Exit::NoMemory)
        }
    }
}
