//! What is ordered by the template that is found in the library, or by that of the load mode.
ghost use Rattle.std.specs.Prelude.{◌≡◌, ◌≤◌};
ghost use Rattle.cf_face.specs.Words.{load_choice};
ghost use Rattle.cf_top.specs.Tasks.{FindsChoice, load_library};
ghost use Rattle.cf_top.specs.declared.planning.Purpose.TheVariants.{Deploy};

use crate::planning::{Purpose, check_template};
use crate::refusals::missing;
use cf_face::{Choice, Exit, load_choice};
use cf_io::{FetchFault, Library};
use cf_load::load_text;
use cf_prepare::Order;
use cf_schema::Schemas;
use cf_stacks::World;
use cf_tree::Txt;
use std::alloc::Global;

/// What a deployment or a review orders by the template that the library holds.
///
/// # Errors
///
/// `LibraryFault` comes only where the library's count of faults rose; then `TemplateRefused` where the library holds none of the name, and
/// what `check_template` refuses.
pub fn order_choice<L: Library>(
    alloc: Global,
    library: &mut L,
    world: &World,
    schemas: &Schemas,
    choice: &Choice,
    stack: &Txt,
    purpose: Purpose,
) -> Result<Order, Exit>
    ensures same { L.texts library.new ≡ L.texts library.old }
    ensures faults { L.count library.old ≤ L.count library.new }
    ensures misses { L.missed library.old ≤ L.missed library.new }
    ensures finds { FindsChoice (record {
      texts = L.texts library.old;
      faults = L.count library.old;
      faults' = L.count library.new;
      misses = L.missed library.old;
      misses' = L.missed library.new;
    })
        purpose schemas.now world.now.world stack.now choice.now result }
{
    match library.fetch(choice.template.as_str()) {
        Ok(Some(bytes)) => check_template(alloc, world, schemas, choice, stack, purpose, bytes),
        Ok(None) => Err(missing(alloc, &choice.template)),
        Err(FetchFault::Failed) => Err(Exit::LibraryFault),
        Err(FetchFault::NoMemory) => Err(Exit::NoMemory),
    }
}

/// What a load of so many records orders: what a deployment by the template of the load mode does.
///
/// # Errors
///
/// What `check_template` refuses.
pub fn order_load(
    alloc: Global,
    world: &World,
    schemas: &Schemas,
    count: u32,
    stack: &Txt,
) -> Result<Order, Exit>
    requires some { 1 ≤ count }
    requires few { count ≤ 500 }
    ensures { FindsChoice (load_library count) Deploy schemas.now world.now.world stack.now (load_choice count) result }
{
    let Ok(choice) = load_choice(alloc, count) else {
        return Err(Exit::NoMemory);
    };
    match load_text(alloc, count) {
        Ok(text) => {
            let purpose = Purpose::Deploy;
            let ordered = check_template(alloc, world, schemas, &choice, stack, purpose, text);
            drop(choice);
            ordered
        }
        Err(_) => {
            drop(choice);
            Err(Exit::NoMemory)
        }
    }
}
