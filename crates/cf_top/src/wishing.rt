//! What a wish orders, or the exit of what it is refused for.
ghost use Rattle.cf_prepare.specs.Prepare.{HasTemplates};
ghost use Rattle.cf_top.specs.Tasks.{PreparesWish};

use crate::refusals::refused;
use cf_desired::Templates;
use cf_face::Exit;
use cf_prepare::{Order, Wish, prepare};
use cf_schema::Schemas;
use cf_stacks::World;
use std::alloc::Global;

/// What a wish orders over the templates of its source; one without a source asks nothing of them.
///
/// # Errors
///
/// `TemplateRefused` and `StackRefused` with what `prepare` refuses, and `NoMemory` where memory was not there.
pub fn order_wish(
    alloc: Global,
    world: &World,
    schemas: &Schemas,
    wish: Wish,
    templates: Templates,
) -> Result<Order, Exit>
    requires { HasTemplates world.now.world wish templates }
    ensures { PreparesWish schemas.now world.now.world wish result }
{
    let prepared = prepare(alloc, world, &wish, &templates, schemas);
    drop(wish);
    drop(templates);
    match prepared {
        Ok(ordered) => Ok(ordered),
        Err(fault) => Err(refused(fault)),
    }
}
