//! The names of stacks, and places in templates.
ghost use Rattle.std.specs.Prelude.{◌≡◌, IfOk};
ghost use Rattle.cf_desired.specs.Names.{name_in};
ghost use Rattle.cf_desired.specs.Seeing.{output_attribute, output_place};
ghost use Rattle.cf_desired.specs.Shape.{resource_place};

use cf_tree::Txt;
use std::alloc::{AllocError, Global};

/// A nested stack's name: the name of the stack around it, a hyphen and its logical id.
pub(crate) fn name_in(alloc: Global, stack: &Txt, id: &Txt) -> Result<Txt, AllocError>
    ensures { IfOk result (λ name. name ≡ name_in stack.now id.now) }
{
    let stack = stack.as_str();
    let id = id.as_str();
    Ok(Txt::new(format!(in alloc; "{stack}-{id}")?))
}

/// The attribute of a nested stack that names one of its outputs.
pub(crate) fn output_attribute(alloc: Global, name: &Txt) -> Result<Txt, AllocError>
    ensures { IfOk result (λ attribute. attribute ≡ output_attribute name.now) }
{
    let name = name.as_str();
    Ok(Txt::new(format!(in alloc; "Outputs.{name}")?))
}

/// The place of a resource's condition.
pub(crate) fn resource_place(alloc: Global, id: &Txt) -> Result<Txt, AllocError>
    ensures { IfOk result (λ place. place ≡ resource_place id.now) }
{
    let id = id.as_str();
    Ok(Txt::new(format!(in alloc; "/Resources/{id}/Condition")?))
}

/// The place of an output's condition.
pub(crate) fn output_place(alloc: Global, name: &Txt) -> Result<Txt, AllocError>
    ensures { IfOk result (λ place. place ≡ output_place name.now) }
{
    let name = name.as_str();
    Ok(Txt::new(format!(in alloc; "/Outputs/{name}/Condition")?))
}
