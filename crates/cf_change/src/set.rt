//! The change set of an update.
ghost use Rattle.std.specs.Prelude.{◌≡◌, []};
ghost use Rattle.std.specs.Option.{option_copied};
ghost use Rattle.cf_change.specs.Changes.{Changed, changes_by, changes_of, least_of, refused};
ghost use Rattle.cf_desired.specs.Templates.{templates_of};

use crate::found::{Found, found_of};
use crate::held::HeldMap;
use crate::rows::{add_removed, by_path};
use crate::same::{are_same_exports, are_same_outputs};
use cf_desired::{DesiredFault, Plan, Templates, desired};
use cf_schema::Schemas;
use cf_tree::{Names, Rows, Source, Txt};
use std::alloc::{AllocError, Global};

/// What an update would change: rows by path, and whether outputs differ, or may.
#[derive(Drop)]
pub struct ChangeSet {
    pub rows: Rows,
    pub outputs_differ: bool,
}

/// Why there is no change set.
#[derive(Drop)]
pub enum ChangeFault {
    /// The source has a flaw.
    Plan { fault: DesiredFault },
    /// A path is held with another type.
    TypeChanged { path: Txt },
    /// Nothing changes.
    NoChanges,
    /// There was no memory.
    NoMemory,
}

impl From<AllocError> for ChangeFault {
    ghost use Rattle.std.specs.Prelude.{◌≡◌};
    ghost use Rattle.cf_change.specs.declared.set.ChangeFault.TheVariants.{NoMemory};

    ghost from_gives = { λ _ e. e ≡ NoMemory };

    fn from(_failed: AllocError) -> ChangeFault {
        ChangeFault::NoMemory
    }
}

/// What a source would change of what a stack holds.
///
/// # Errors
///
/// In this order: `Plan` with the first flaw over what is seen in the end, `TypeChanged` with the least path that is held with
/// another type, `NoChanges` where there is no row and the outputs are the same. `NoMemory` may come anywhere.
pub fn change_set(
    alloc: Global,
    held: &HeldMap,
    source: &Source,
    templates: &Templates,
    schemas: &Schemas,
) -> Result<ChangeSet, ChangeFault>
    requires templates { templates.now ≡ templates_of source.now }
    ensures { Changed (changes_of schemas.now held.now.resources held.now.outputs held.now.exports source.now) result }
{
    let found = found_of(alloc, schemas, &held.resources, source, templates)?;
    let plan = match desired(alloc, source, templates, &found.seen) {
        Ok(plan) => plan,
        Err(fault) => return Err(refused(fault)),
    };
    change_set_by(alloc, held, found, &plan)
}

/// Why there is no plan, as a refusal of the change set.
fn refused(fault: DesiredFault) -> ChangeFault
    ensures { result ≡ refused fault }
{
    match fault {
        DesiredFault::NoMemory => ChangeFault::NoMemory,
        fault => ChangeFault::Plan { fault },
    }
}

/// What a source would change of what a stack holds, by what was found of it and by its plan, which has no flaw.
///
/// # Errors
///
/// In this order: `TypeChanged` with the least path that is held with another type, `NoChanges` where there is no row and the
/// outputs are the same. `NoMemory` may come anywhere.
pub fn change_set_by(
    alloc: Global,
    held: &HeldMap,
    found: Found,
    plan: &Plan,
) -> Result<ChangeSet, ChangeFault>
    requires flawless { plan.now.flaws ≡ [] }
    ensures { Changed (changes_by held.now.resources held.now.outputs held.now.exports found plan.now) result }
{
    let Found { rows, seen, clash } = found;
    if let Some(path) = least_of(&clash) {
        let path = path.try_clone(alloc)?;
        return Err(ChangeFault::TypeChanged { path });
    }
    let mut rows = rows;
    add_removed(alloc, &mut rows, held.resources.as_slice(), &seen)?;
    let rows = by_path(alloc, rows)?;
    let outputs_differ = !(are_same_outputs(held.outputs.as_slice(), plan.outputs.as_slice())
        && are_same_exports(&held.exports, plan.exports.as_slice()));
    if rows.is_empty() && !outputs_differ {
        return Err(ChangeFault::NoChanges);
    }
    Ok(ChangeSet {
        rows,
        outputs_differ,
    })
}

/// The least of paths in byte order.
fn least_of(paths: &Names) -> Option<&Txt>
    ensures { option_copied result ≡ least_of paths.now }
{
    let mut least: Option<&Txt> = None;
    for path in paths.as_slice() {
        least = match least {
            Some(before) if *path >= *before => Some(before),
            _ => Some(path),
        };
    }
    least
}
