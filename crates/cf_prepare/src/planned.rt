//! Why a source is refused for what it wants: its flaws, the types that it names, and the paths whose
//! type it changes.
ghost use Rattle.std.specs.Prelude.{◌≡◌, ⊤, Some, None, IfOk, map, option_map};
ghost use Rattle.std.specs.Option.{option_copied};
ghost use Rattle.cf_tree.specs.Lists.{is_among, least_by};
ghost use Rattle.cf_change.specs.Changes.{least_of};
ghost use Rattle.cf_prepare.specs.Answer.{RefusesAs, TestsAs};
ghost use Rattle.cf_prepare.specs.Refusals.{first_unknown, if_flawed, if_unknown};
ghost use Rattle.cf_plan.specs.Accept.{schema_kinds};
ghost use Rattle.cf_plan.specs.Follow.{lane_kinds};
ghost use Rattle.cf_prepare.specs.declared.wish.StackFault.TheVariants as stack;
ghost use Rattle.cf_prepare.specs.declared.wish.PrepareFault.TheVariants as fault;

use crate::refusals::refused;
use crate::wish::{PrepareFault, StackFault};
use cf_desired::{Flaw, Plan, Wanted};
use cf_schema::{Schema, Schemas};
use cf_stacks::World;
use cf_tree::{Names, TryClone, Txt};
use std::alloc::{AllocError, Global};

/// The types of lanes.
fn kinds_among(alloc: Global, lanes: &[(Txt, Txt)]) -> Result<Names, AllocError>
    ensures { IfOk result (λ kinds. kinds ≡ map (λ l. l.1) lanes.now) }
{
    let mut kinds = Names::new(alloc);
    for lane in lanes {
        kinds.push(lane.1.try_clone(alloc)?)?;
    }
    Ok(kinds)
}

/// The types of the lanes of the last opening.
pub(crate) fn lane_kinds(alloc: Global, world: &World) -> Result<Names, AllocError>
    ensures { IfOk result (λ kinds. kinds ≡ lane_kinds world.now.world) }
{
    kinds_among(alloc, world.lanes().as_slice())
}

fn kinds_described(alloc: Global, schemas: &[Schema]) -> Result<Names, AllocError>
    ensures { IfOk result (λ kinds. kinds ≡ map (λ g. g.kind) schemas.now) }
{
    let mut kinds = Names::new(alloc);
    for schema in schemas {
        kinds.push(schema.kind.try_clone(alloc)?)?;
    }
    Ok(kinds)
}

/// The types that have a schema.
pub(crate) fn schema_kinds(alloc: Global, schemas: &Schemas) -> Result<Names, AllocError>
    ensures { IfOk result (λ kinds. kinds ≡ schema_kinds schemas.now) }
{
    kinds_described(alloc, schemas.as_slice())
}

/// The one of two resources that comes first by path; the earlier one where both have one path.
pub(crate) fn sooner<'a>(first: Option<&'a Wanted>, one: &'a Wanted) -> &'a Wanted
    ensures { Some result.now ≡ least_by (λ w. w.path) (option_copied first.entry) one.now }
{
    match first {
        Some(first) if one.path >= first.path => first,
        _ => one,
    }
}

/// The first resource, by path, whose type is not among these.
fn first_unknown<'a>(kinds: &Names, wanted: &'a [Wanted]) -> Option<&'a Wanted>
    ensures { option_copied result ≡ first_unknown kinds.now wanted.now }
{
    let mut first = None;
    for one in wanted {
        if !kinds.contains(&one.kind) {
            first = Some(sooner(first, one));
        }
    }
    first
}

/// The refusal of a plan for a flaw.
fn flawed(alloc: Global, flaw: &Flaw) -> PrepareFault
    ensures { RefusesAs (fault.Plan flaw.now) result }
{
    match flaw.try_clone(alloc) {
        Ok(flaw) => PrepareFault::Plan { flaw },
        Err(_) => PrepareFault::NoMemory,
    }
}

/// The refusal of the type of a resource.
pub(crate) fn unknown(alloc: Global, path: &Txt, kind: &Txt) -> PrepareFault
    ensures { RefusesAs (fault.UnknownType path.now kind.now) result }
{
    match (path.try_clone(alloc), kind.try_clone(alloc)) {
        (Ok(path), Ok(name)) => PrepareFault::UnknownType { path, name },
        _ => PrepareFault::NoMemory,
    }
}

/// The refusal of a path that is held with another type.
fn changed(alloc: Global, path: &Txt) -> PrepareFault
    ensures { RefusesAs (fault.Stack (stack.TypeChanged path.now)) result }
{
    match path.try_clone(alloc) {
        Ok(path) => refused(StackFault::TypeChanged { path }),
        Err(_) => PrepareFault::NoMemory,
    }
}

/// Refuses a plan for its first flaw.
pub(crate) fn test_flaws(alloc: Global, plan: &Plan) -> Result<(), PrepareFault>
    ensures { TestsAs (if_flawed plan.now) (λ _. ⊤) result }
{
    match plan.flaws.as_slice().first() {
        Some(flaw) => Err(flawed(alloc, flaw)),
        None => Ok(()),
    }
}

/// Refuses a plan for the first resource, by path, whose type is not among these.
pub(crate) fn test_kinds(alloc: Global, kinds: &Names, plan: &Plan) -> Result<(), PrepareFault>
    ensures { TestsAs (if_unknown kinds.now plan.now) (λ _. ⊤) result }
{
    match first_unknown(kinds, plan.wanted.as_slice()) {
        Some(wanted) => Err(unknown(alloc, &wanted.path, &wanted.kind)),
        None => Ok(()),
    }
}

/// Refuses the least of paths that are held with another type.
pub(crate) fn test_clash(alloc: Global, clash: &[Txt]) -> Result<(), PrepareFault>
    ensures { TestsAs (option_map (λ p. fault.Stack (stack.TypeChanged p)) (least_of clash.now)) (λ _. ⊤) result }
{
    match least_of(clash) {
        Some(path) => Err(changed(alloc, path)),
        None => Ok(()),
    }
}

/// The least of texts in byte order.
pub(crate) fn least_of(texts: &[Txt]) -> Option<&Txt>
    ensures { option_copied result ≡ least_of texts.now }
{
    let mut least: Option<&Txt> = None;
    for text in texts {
        least = match least {
            Some(before) if *text >= *before => Some(before),
            _ => Some(text),
        };
    }
    least
}
