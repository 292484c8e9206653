//! A source as its stack would work by it.
ghost use Rattle.std.specs.Prelude.{◌≡◌, IfOk};
ghost use Rattle.cf_plan.specs.Accept.{with_imports};
ghost use Rattle.cf_prepare.specs.Refusals.{proposal};
ghost use Rattle.cf_effect.specs.Begin.{source_for};

use crate::exported::exports_of_others;
use crate::stack::creating_number;
use cf_stacks::{World, source_for};
use cf_tree::{Pairs, Source, Txt};
use std::alloc::{AllocError, Global};

/// A copy of a source under the name of a stack and a number, with these imports.
pub(crate) fn importing(
    alloc: Global,
    name: &Txt,
    number: u64,
    source: &Source,
    imports: Pairs,
) -> Result<Source, AllocError>
    ensures { IfOk result (λ s. s ≡ with_imports (source_for name.now number source.now) imports) }
{
    match source_for(alloc, name, number, source) {
        Ok(mut copy) => {
            copy.imports = imports;
            Ok(copy)
        }
        Err(failed) => {
            drop(imports);
            Err(failed)
        }
    }
}

/// The source as the stack of a name would work by it, with every export of other stacks to import.
pub(crate) fn proposal(
    alloc: Global,
    world: &World,
    name: &Txt,
    source: &Source,
) -> Result<Source, AllocError>
    ensures { IfOk result (λ s. s ≡ proposal world.now.world name.now source.now) }
{
    let number = creating_number(world, name)?;
    let imports = exports_of_others(alloc, world, name)?;
    importing(alloc, name, number, source, imports)
}
