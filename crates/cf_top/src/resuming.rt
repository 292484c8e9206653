//! What goes on with an operation: one that is in progress, or a rollback that failed.
ghost use Rattle.std.specs.Prelude.{IfOk};
ghost use Rattle.cf_prepare.specs.declared.wish.Wish.TheVariants.{Continue, Resume};
ghost use Rattle.cf_top.specs.Tasks.{GoesOnBy, IsNumbered, PreparesWish};

use crate::wishing::order_wish;
use cf_desired::Templates;
use cf_face::Exit;
use cf_prepare::{Order, Wish};
use cf_schema::Schemas;
use cf_stacks::World;
use cf_tree::{Names, Txt};
use std::alloc::Global;

/// The beginning of a continued rollback of a stack, which skips these paths.
///
/// # Errors
///
/// `StackRefused`: there is no stack of the name, its status is not UPDATE_ROLLBACK_FAILED, or the first of the paths, in their order,
/// that is not among those that failed. `NoMemory` where memory was not there.
pub fn order_continuation(
    alloc: Global,
    world: &World,
    schemas: &Schemas,
    stack: &Txt,
    paths: &Names,
) -> Result<Order, Exit>
    ensures { PreparesWish schemas.now world.now.world (Continue stack.now paths.now) result }
{
    match stack.try_clone(alloc) {
        Ok(stack) => match paths.try_clone(alloc) {
            Ok(paths) => {
                let wish = Wish::Continue { stack, paths };
                order_wish(alloc, world, schemas, wish, Templates::new(alloc))
            }
            Err(_) => {
                drop(stack);
                Err(Exit::NoMemory)
            }
        },
        Err(_) => Err(Exit::NoMemory),
    }
}

/// An operation that goes on, but where its number is 0: entries that no run has written may have more than one of that number.
fn numbered(ordered: Order) -> Result<Order, Exit>
    ensures { GoesOnBy ordered result }
{
    match ordered {
        Order::Resume(0) => Err(Exit::NoMemory),
        Order::Resume(number) => Ok(Order::Resume(number)),
        Order::Begin(entry) => Ok(Order::Begin(entry)),
        Order::Review(entry) => Ok(Order::Review(entry)),
    }
}

/// The operation that is in progress on a stack.
///
/// # Errors
///
/// `StackRefused`: there is no stack of the name, or no operation is in progress on it. `TemplateRefused`: the first path, in byte order,
/// that the forward phase has still to do and whose type no lane of the opening has. `NoMemory` where memory was not there, and where the
/// operation has the number 0, which no run writes.
pub fn order_resumption(
    alloc: Global,
    world: &World,
    schemas: &Schemas,
    stack: &Txt,
) -> Result<Order, Exit>
    ensures prepares { PreparesWish schemas.now world.now.world (Resume stack.now) result }
    ensures numbered { IfOk result IsNumbered }
{
    match stack.try_clone(alloc) {
        Ok(stack) => {
            let wish = Wish::Resume { stack };
            match order_wish(alloc, world, schemas, wish, Templates::new(alloc)) {
                Ok(ordered) => numbered(ordered),
                Err(exit) => Err(exit),
            }
        }
        Err(_) => Err(Exit::NoMemory),
    }
}
