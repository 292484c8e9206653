//! What a source comes to on a stack: the imports that it uses and what it changes, or why it is refused.
ghost use Rattle.std.specs.Prelude.{◌≡◌, ◌∷◌, ⊤, [], None, IfOk, false};
ghost use Rattle.cf_change.specs.declared.set.ChangeFault.TheVariants as change;
ghost use Rattle.cf_change.specs.Changes.{Changes as Changed, changes_by, found_of, is_unchanged, least_of};
ghost use Rattle.cf_change.specs.declared.held.HeldMap.{HeldMap as Resources};
ghost use Rattle.cf_desired.specs.Plan.{plan_of};
ghost use Rattle.cf_desired.specs.Templates.{templates_of};
ghost use Rattle.cf_prepare.specs.Answer.{TestsAs, first_of};
ghost use Rattle.cf_prepare.specs.Refusals.{if_in_use, if_taken, if_unchanged, proposal, refusals_by, source_refusals};
ghost use Rattle.cf_desired.specs.Whole.{export_names};
ghost use Rattle.cf_prepare.specs.Worked.{IsMild, IsWorked, WorksAs, WorksBy, refusal_over, set_by};

use crate::held::held_of;
use crate::imports::imports_used;
use crate::planned::{test_clash, test_flaws, test_kinds};
use crate::refusals::refused;
use crate::source::proposal;
use crate::taken::{export_names, test_in_use, test_taken};
use crate::wish::{PrepareFault, StackFault};
use cf_change::{ChangeFault, ChangeSet, Found, HeldMap, change_set_by, found_of};
use cf_desired::{Plan, Templates, plan};
use cf_schema::Schemas;
use cf_stacks::World;
use cf_tree::{Names, Pairs, Rows, Source, Txt};
use std::alloc::{AllocError, Global};

/// What a source comes to: the imports that it uses, and what it changes.
#[derive(Drop)]
pub(crate) struct Worked {
    pub(crate) imports: Pairs,
    pub(crate) changes: ChangeSet,
}

/// Where a source is looked at: on a stack of the world, by the schemas and the types that there are.
#[derive(Drop)]
pub(crate) struct Place<'a> {
    pub(crate) world: &'a World,
    pub(crate) name: &'a Txt,
    pub(crate) schemas: &'a Schemas,
    pub(crate) kinds: &'a Names,
}

/// Refuses names of exports that are taken, and names that are imported and missing.
fn test_exports(alloc: Global, place: &Place, plan: &Plan) -> Result<(), PrepareFault>
    ensures { TestsAs (first_of (if_taken place.now.name.now place.now.world.now.world plan.now
        ∷ if_in_use place.now.name.now place.now.world.now.world (export_names plan.now) ∷ [])) (λ _. ⊤) result }
{
    let names = export_names(alloc, plan)?;
    test_taken(alloc, place.world, place.name, &names)?;
    test_in_use(alloc, place.world, place.name, &names)
}

/// Refuses a source for its plan, its types, and its changes and exports.
fn test_source(alloc: Global, place: &Place, clash: &Names, plan: &Plan) -> Result<(), PrepareFault>
    ensures { (c : Changed) → c.clash ≡ clash.now → TestsAs (first_of (refusals_by place.now.kinds.now place.now.world.now.world
        place.now.name.now c plan.now)) (λ _. ⊤) result }
{
    test_flaws(alloc, plan)?;
    test_kinds(alloc, place.kinds, plan)?;
    test_clash(alloc, clash.as_slice())?;
    test_exports(alloc, place, plan)
}

/// The change set of a source that changes nothing.
fn no_change(alloc: Global, fault: ChangeFault) -> Result<ChangeSet, AllocError>
    requires { IsMild fault }
    ensures { IfOk result (λ set. (fault ≡ change.NoChanges) × (set ≡ record { rows = []; outputs_differ = false })) }
{
    match fault {
        ChangeFault::NoChanges => Ok(ChangeSet {
            rows: Rows::new(alloc),
            outputs_differ: false,
        }),
        ChangeFault::NoMemory => Err(AllocError),
        ChangeFault::Plan { fault: _ } => unreachable!(),
        ChangeFault::TypeChanged { path: _ } => unreachable!(),
    }
}

/// What a source changes of what is held, by what was found of it and by its plan, where no path has another type and the plan
/// has no flaw.
#[tactic(auto, using(crate::proofs::Working::mild, crate::proofs::Working::set_left))]
fn changes_over(
    alloc: Global,
    held: &HeldMap,
    found: Found,
    plan: &Plan,
) -> Result<ChangeSet, AllocError>
    requires flawless { plan.now.flaws ≡ [] }
    requires clash { least_of found.clash ≡ None }
    ensures { IfOk result (λ set. set ≡ set_by (changes_by held.now.resources held.now.outputs held.now.exports found plan.now)) }
{
    match change_set_by(alloc, held, found, plan) {
        Ok(set) => Ok(set),
        Err(fault) => no_change(alloc, fault),
    }
}

/// What a source comes to that is not refused.
fn finish(
    alloc: Global,
    held: &HeldMap,
    source: &Source,
    templates: &Templates,
    found: Found,
    plan: &Plan,
) -> Result<Worked, AllocError>
    requires templates { templates.now ≡ templates_of source.now }
    requires plan { plan.now ≡ plan_of source.now found.seen }
    requires flawless { plan.now.flaws ≡ [] }
    requires clash { least_of found.clash ≡ None }
    ensures { IfOk result (WorksAs held.now source.now found plan.now) }
{
    match imports_used(alloc, source, templates, &found.seen, plan) {
        Ok(imports) => finish_with(alloc, held, found, plan, imports),
        Err(failed) => {
            drop(found);
            Err(failed)
        }
    }
}

/// What a source comes to that uses these imports.
fn finish_with(
    alloc: Global,
    held: &HeldMap,
    found: Found,
    plan: &Plan,
    imports: Pairs,
) -> Result<Worked, AllocError>
    requires flawless { plan.now.flaws ≡ [] }
    requires clash { least_of found.clash ≡ None }
    ensures { IfOk result (λ w. (w.imports ≡ imports) × (w.changes
        ≡ set_by (changes_by held.now.resources held.now.outputs held.now.exports found plan.now))) }
{
    match changes_over(alloc, held, found, plan) {
        Ok(changes) => Ok(Worked { imports, changes }),
        Err(failed) => {
            drop(imports);
            Err(failed)
        }
    }
}

/// What a source comes to by what was found of it and by its plan, unless it is refused.
fn work_by(
    alloc: Global,
    place: &Place,
    held: &HeldMap,
    source: &Source,
    templates: &Templates,
    found: Found,
    plan: &Plan,
) -> Result<Worked, PrepareFault>
    requires templates { templates.now ≡ templates_of source.now }
    requires found { found ≡ found_of place.now.schemas.now held.now.resources source.now }
    requires plan { plan.now ≡ plan_of source.now found.seen }
    ensures { TestsAs (refusal_over place.now.kinds.now place.now.world.now.world place.now.name.now place.now.schemas.now held.now
        source.now) (WorksBy place.now.schemas.now held.now source.now) result }
{
    match test_source(alloc, place, &found.clash, plan) {
        Ok(()) => {
            let worked = finish(alloc, held, source, templates, found, plan)?;
            Ok(worked)
        }
        Err(fault) => {
            drop(found);
            Err(fault)
        }
    }
}

/// What a source comes to on what is held, unless it is refused.
fn work_over(
    alloc: Global,
    place: &Place,
    held: &HeldMap,
    source: &Source,
    templates: &Templates,
) -> Result<Worked, PrepareFault>
    requires templates { templates.now ≡ templates_of source.now }
    ensures { TestsAs (refusal_over place.now.kinds.now place.now.world.now.world place.now.name.now place.now.schemas.now held.now
        source.now) (WorksBy place.now.schemas.now held.now source.now) result }
{
    let found = found_of(alloc, place.schemas, &held.resources, source, templates)?;
    match plan(alloc, source, templates, &found.seen) {
        Ok(plan) => {
            let worked = work_by(alloc, place, held, source, templates, found, &plan);
            drop(plan);
            worked
        }
        Err(_) => {
            drop(found);
            Err(PrepareFault::NoMemory)
        }
    }
}

/// What a source comes to on a stack, unless it is refused.
pub(crate) fn work_out(
    alloc: Global,
    place: &Place,
    source: &Source,
    templates: &Templates,
) -> Result<Worked, PrepareFault>
    requires templates { templates.now ≡ templates_of source.now }
    ensures { TestsAs (first_of (source_refusals place.now.kinds.now place.now.schemas.now place.now.world.now.world place.now.name.now
        source.now)) (IsWorked place.now.schemas.now place.now.world.now.world place.now.name.now source.now) result }
{
    let held = held_of(alloc, place.world, place.name)?;
    match proposal(alloc, place.world, place.name, source) {
        Ok(proposed) => {
            let worked = work_over(alloc, place, &held, &proposed, templates);
            drop(proposed);
            drop(held);
            worked
        }
        Err(_) => {
            drop(held);
            Err(PrepareFault::NoMemory)
        }
    }
}

/// Refuses a source that changes nothing.
pub(crate) fn test_changing(changes: &ChangeSet) -> Result<(), PrepareFault>
    ensures { (c : Changed) → changes.now ≡ set_by c → TestsAs (if_unchanged c) (λ _. ⊤) result }
{
    if changes.rows.is_empty() && !changes.outputs_differ {
        Err(refused(StackFault::NoChanges))
    } else {
        Ok(())
    }
}
