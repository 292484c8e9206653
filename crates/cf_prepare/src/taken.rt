//! Why a wish is refused for exports.
ghost use Rattle.std.specs.Prelude.{◌≡◌, ◌++◌, ◌∷◌, ◌&&◌, if◌then◌else◌, ⊤, Some, None, [], IfOk, filter, map, not, option_map};
ghost use Rattle.std.specs.List.{list_any};
ghost use Rattle.std.specs.Option.{option_copied};
ghost use Rattle.std.specs.Str.{bytes_eq};
ghost use Rattle.cf_change.specs.Changes.{least_of};
ghost use Rattle.cf_tree.specs.Lists.{is_among};
ghost use Rattle.cf_plan.specs.Accept.{is_exported_elsewhere, is_taken_away};
ghost use Rattle.cf_prepare.specs.Answer.{RefusesAs, TestsAs};
ghost use Rattle.cf_prepare.specs.Refusals.{if_in_use, if_taken, lost_names, taken_names, twice_in};
ghost use Rattle.cf_desired.specs.Whole.{export_names};
ghost use Rattle.cf_prepare.specs.declared.wish.StackFault.TheVariants as stack;
ghost use Rattle.cf_prepare.specs.declared.wish.PrepareFault.TheVariants as fault;

use crate::planned::least_of;
use crate::refusals::refused;
use crate::wish::{PrepareFault, StackFault};
use cf_desired::Plan;
use cf_export::{Export, pinned};
use cf_stacks::World;
use cf_tree::{Names, Txt};
use std::alloc::{AllocError, Global};

/// The names of exports.
fn names_among(alloc: Global, exports: &[(Txt, Option<Txt>)]) -> Result<Names, AllocError>
    ensures { IfOk result (λ names. names ≡ map (λ e. e.0) exports.now) }
{
    let mut names = Names::new(alloc);
    for export in exports {
        names.push(export.0.try_clone(alloc)?)?;
    }
    Ok(names)
}

/// The names that a plan exports.
pub(crate) fn export_names(alloc: Global, plan: &Plan) -> Result<Names, AllocError>
    ensures { IfOk result (λ names. names ≡ export_names plan.now) }
{
    names_among(alloc, plan.exports.as_slice())
}

/// Whether a name is among these.
fn is_among(name: &Txt, names: &[Txt]) -> bool
    ensures { result ≡ is_among name.now names.now }
{
    names.iter().any(|other| *name == *other)
}

/// Whether a stack other than this one exports a name.
fn is_exported(exports: &[Export], name: &Txt, export: &Txt) -> bool
    ensures { result ≡ list_any (λ e. bytes_eq export.now e.name && not (bytes_eq name.now e.stack)) exports.now }
{
    exports
        .iter()
        .any(|other| *export == other.name && !(*name == other.stack))
}

/// Whether a stack other than this one exports a name or means to.
fn is_exported_elsewhere(world: &World, name: &Txt, export: &Txt) -> bool
    ensures { result ≡ is_exported_elsewhere name.now world.now.world export.now }
{
    is_exported(world.exports().as_slice(), name, export) || pinned(world.claims(), export, name)
}

/// Adds a copy of a name where it counts. After an error nothing is said of the list.
fn add_if(alloc: Global, names: &mut Names, counts: bool, name: &Txt) -> Result<(), AllocError>
    ensures { IfOk result (λ _. names.new ≡ names.old ++ (if counts then name.now ∷ [] else [])) }
{
    if counts {
        names.push(name.try_clone(alloc)?)
    } else {
        Ok(())
    }
}

/// Adds the names that stand again behind themselves. After an error nothing is said of the list.
fn add_twice(alloc: Global, taken: &mut Names, names: &[Txt]) -> Result<(), AllocError>
    ensures { IfOk result (λ _. taken.new ≡ taken.old ++ twice_in names.now) }
{
    for at in 0..names.len() {
        let again = is_among(&names[at], &names[at + 1..]);
        add_if(alloc, taken, again, &names[at])?;
    }
    Ok(())
}

/// Adds the names that another stack exports or means to. After an error nothing is said of the
/// list.
fn add_elsewhere(
    alloc: Global,
    taken: &mut Names,
    world: &World,
    name: &Txt,
    names: &[Txt],
) -> Result<(), AllocError>
    ensures { IfOk result (λ _. taken.new ≡ taken.old ++ filter (is_exported_elsewhere name.now world.now.world) names.now) }
{
    for export in names {
        let elsewhere = is_exported_elsewhere(world, name, export);
        add_if(alloc, taken, elsewhere, export)?;
    }
    Ok(())
}

/// The names that can't be exported.
fn taken_names(alloc: Global, world: &World, name: &Txt, names: &[Txt]) -> Result<Names, AllocError>
    ensures { IfOk result (λ taken. taken ≡ taken_names name.now world.now.world names.now) }
{
    let mut taken = Names::new(alloc);
    add_twice(alloc, &mut taken, names)?;
    add_elsewhere(alloc, &mut taken, world, name, names)?;
    Ok(taken)
}

/// Whether another stack imports an export of this one that is no longer among these.
fn is_lost(world: &World, name: &Txt, kept: &Names, export: &Export) -> bool
    ensures { result ≡ is_taken_away name.now world.now.world kept.now export.now }
{
    *name == export.stack
        && pinned(world.pins(), &export.name, name)
        && !kept.contains(&export.name)
}

/// The names of such exports.
fn lost_among(
    alloc: Global,
    exports: &[Export],
    world: &World,
    name: &Txt,
    kept: &Names,
) -> Result<Names, AllocError>
    ensures { IfOk result (λ lost. lost ≡ map (λ e. e.name) (filter (is_taken_away name.now world.now.world kept.now) exports.now)) }
{
    let mut lost = Names::new(alloc);
    for export in exports {
        let gone = is_lost(world, name, kept, export);
        add_if(alloc, &mut lost, gone, &export.name)?;
    }
    Ok(lost)
}

/// The refusal of a name that is taken.
fn taken(alloc: Global, name: &Txt) -> PrepareFault
    ensures { RefusesAs (fault.Stack (stack.ExportTaken name.now)) result }
{
    match name.try_clone(alloc) {
        Ok(name) => refused(StackFault::ExportTaken { name }),
        Err(_) => PrepareFault::NoMemory,
    }
}

/// The refusal of a name that is imported.
fn in_use(alloc: Global, name: &Txt) -> PrepareFault
    ensures { RefusesAs (fault.Stack (stack.ExportInUse name.now)) result }
{
    match name.try_clone(alloc) {
        Ok(name) => refused(StackFault::ExportInUse { name }),
        Err(_) => PrepareFault::NoMemory,
    }
}

/// Refuses the least name that can't be exported.
pub(crate) fn test_taken(
    alloc: Global,
    world: &World,
    name: &Txt,
    names: &Names,
) -> Result<(), PrepareFault>
    ensures { TestsAs (option_map (λ n. fault.Stack (stack.ExportTaken n)) (least_of (taken_names name.now world.now.world names.now)))
        (λ _. ⊤) result }
{
    let all = taken_names(alloc, world, name, names.as_slice())?;
    let tested = match least_of(all.as_slice()) {
        Some(export) => Err(taken(alloc, export)),
        None => Ok(()),
    };
    drop(all);
    tested
}

/// Refuses the least name of an export that another stack imports, unless it is kept.
pub(crate) fn test_in_use(
    alloc: Global,
    world: &World,
    name: &Txt,
    kept: &Names,
) -> Result<(), PrepareFault>
    ensures { TestsAs (if_in_use name.now world.now.world kept.now) (λ _. ⊤) result }
{
    let lost = lost_among(alloc, world.exports().as_slice(), world, name, kept)?;
    let tested = match least_of(lost.as_slice()) {
        Some(export) => Err(in_use(alloc, export)),
        None => Ok(()),
    };
    drop(lost);
    tested
}
