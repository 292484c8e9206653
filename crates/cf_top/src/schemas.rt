//! The schemas of lanes.
ghost use Rattle.std.specs.Prelude.{◌≡◌, map, IfOk};
ghost use Rattle.cf_top.specs.Lanes.{one_of_each, with_each};

use cf_handler::Handler;
use cf_schema::Schemas;
use cf_tree::NoMemory;
use std::alloc::Global;

/// The schemas of the lanes' types, the first lane of a type giving its schema.
pub fn schemas_of<H: Handler>(alloc: Global, lanes: &[H]) -> Result<Schemas, NoMemory>
    ensures { IfOk result (λ schemas. schemas ≡ one_of_each (map H.schema_of lanes.now)) }
{
    let mut schemas = Schemas::new(alloc);
    match add_schemas(alloc, &mut schemas, lanes) {
        Ok(()) => Ok(schemas),
        Err(failed) => {
            drop(schemas);
            Err(failed)
        }
    }
}

/// Adds the schemas of lanes to those that are there, of which the first one of a type stays. After an error nothing is said of
/// them.
fn add_schemas<H: Handler>(
    alloc: Global,
    schemas: &mut Schemas,
    lanes: &[H],
) -> Result<(), NoMemory>
    ensures { IfOk result (λ _. schemas.new ≡ with_each schemas.old (map H.schema_of lanes.now)) }
{
    for lane in lanes.iter() {
        schemas.add(lane.schema().try_clone(alloc)?)?;
    }
    Ok(())
}
