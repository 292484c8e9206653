//! Copies of values and of lists.
ghost use Rattle.std.specs.Prelude.{◌≡◌, ◌++◌, IfOk};

use cf_tree::TryClone;
use std::alloc::{AllocError, Global};

/// Makes one value a copy of another. After an error nothing is said of it.
pub(crate) fn copy_into<T: TryClone + Drop>(
    alloc: Global,
    from: &T,
    copy: &mut T,
) -> Result<(), AllocError>
    ensures { IfOk result (λ _. copy.new ≡ from.now) }
{
    match from.try_clone(alloc) {
        Ok(value) => {
            *copy = value;
            Ok(())
        }
        Err(failed) => Err(failed),
    }
}

/// Adds copies of the items of a list to another one. After an error nothing is said of it.
fn add_copies<T: TryClone + Drop>(
    alloc: Global,
    items: &[T],
    all: &mut Vec<T>,
) -> Result<(), AllocError>
    ensures { IfOk result (λ _. all.new.items ≡ all.old.items ++ items.now) }
{
    for item in items {
        all.push(item.try_clone(alloc)?)?;
    }
    Ok(())
}

/// Makes one list a copy of another. After an error nothing is said of it.
pub(crate) fn copy_list<T: TryClone + Drop>(
    alloc: Global,
    items: &[T],
    copy: &mut Vec<T>,
) -> Result<(), AllocError>
    ensures { IfOk result (λ _. copy.new.items ≡ items.now) }
{
    copy.clear();
    add_copies(alloc, items, copy)
}
