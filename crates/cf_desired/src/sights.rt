//! What is seen of the resources of a stack.
ghost use Rattle.std.specs.Prelude.{◌≡◌, IfOk};
ghost use Rattle.cf_desired.specs.Kept.{nesting_in};
ghost use Rattle.cf_desired.specs.Listed.{made_by, not_made_by};
ghost use Rattle.cf_desired.specs.Seeing.{seen_nested};

use crate::pseudo::stack_id;
use crate::shape::Nesting;
use cf_eval::{OutputSight, Sight, Sights};
use cf_graph::is_made;
use cf_tree::{ByName, CondMap, Names, Source, Template, TryClone, Txt};
use std::alloc::{AllocError, Global};

/// Whether each resource of a template is made, where these are the logical ids of its own that are. Nested stacks are not among
/// them, unless their condition is false.
pub(crate) fn made_by(
    alloc: Global,
    template: &Template,
    conds: &CondMap,
    own: &Names,
) -> Result<ByName<bool>, AllocError>
    ensures { IfOk result (λ made. made ≡ made_by conds.now template.now own.now) }
{
    let mut made = not_made(alloc, template, conds)?;
    for id in own.as_slice() {
        made.insert(id.try_clone(alloc)?, true)?;
    }
    Ok(made)
}

/// The resources whose condition is false.
fn not_made(alloc: Global, template: &Template, conds: &CondMap) -> Result<ByName<bool>, AllocError>
    ensures { IfOk result (λ made. made ≡ not_made_by conds.now template.now) }
{
    let mut made = ByName::new(alloc);
    for resource in template.resources.as_slice() {
        if !is_made(conds, resource) {
            made.insert(resource.name.try_clone(alloc)?, false)?;
        }
    }
    Ok(made)
}

/// Puts in a nested stack that has come, with what is seen of its outputs.
pub(crate) fn add_nested(
    alloc: Global,
    source: &Source,
    nesting: &Nesting,
    outputs: ByName<OutputSight>,
    sights: &mut Sights,
) -> Result<(), AllocError>
    ensures { IfOk result (λ _. sights.new ≡ seen_nested source.now (nesting_in nesting.now) outputs sights.old) }
{
    let id = Txt::new(stack_id(alloc, &nesting.name, source.number)?);
    sights.put(nesting.id.try_clone(alloc)?, Sight::Nested { id, outputs })
}
