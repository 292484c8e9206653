//! The order of a wish, or why it is refused.
ghost use Rattle.std.specs.Prelude.{◌≡◌, ◌+◌, ◌∷◌, [], ⊤, None, Some, IfOk};
ghost use Rattle.std.specs.Option.{option_copied};
ghost use Rattle.cf_plan.specs.Follow.{failed_of};
ghost use Rattle.cf_effect.specs.declared.held.KeptSet.{KeptSet as Kept};
ghost use Rattle.cf_change.specs.Changes.{Changes as Changed};
ghost use Rattle.cf_desired.specs.Templates.{templates_of};
ghost use Rattle.cf_entry.specs.declared.entry.Entry.TheVariants as entry;
ghost use Rattle.cf_entry.specs.declared.entry.Begun.TheVariants as begin;
ghost use Rattle.cf_plan.specs.Accept.{with_imports};
ghost use Rattle.cf_prepare.specs.Answer.{TestsAs, first_of};
ghost use Rattle.cf_prepare.specs.Orders.{IsContinuation, IsDeletion, IsDeployment, IsReview, kind_by};
ghost use Rattle.cf_prepare.specs.Prepare.{ExecutesAs, ExecutesSet, HasTemplates, OrderFollows, PreparesAs};
ghost use Rattle.cf_prepare.specs.Refusals.{continue_refusal, delete_refusal, deploy_refusal, execute_refusal, if_in_use, if_not_failed, if_unchanged, may_keep, proposed_changes, review_refusal, set_of, set_refusal, unless_created};
ghost use Rattle.cf_prepare.specs.Worked.{IsWorked, set_by};
ghost use Rattle.cf_prepare.specs.declared.wish.Order.TheVariants as order;
ghost use Rattle.cf_effect.specs.Begin.{source_for};
ghost use Rattle.cf_effect.specs.World.{known_stack};

use crate::paths::{failed_of, may_keep, sorted};
use crate::planned::{lane_kinds, schema_kinds};
use crate::refusals::{
    refused, test_continues, test_deletes, test_deploys, test_failed, test_there,
};
use crate::resume::resume;
use crate::rows::same_rows;
use crate::source::importing;
use crate::stack::{creates_from, next_number, set_in, status_of};
use crate::taken::test_in_use;
use crate::wish::{Order, PrepareFault, StackFault, Wish};
use crate::work::{Place, Worked, test_changing, work_out};
use cf_change::ChangeSet;
use cf_desired::Templates;
use cf_entry::{Begun, Entry};
use cf_schema::Schemas;
use cf_stacks::{KeptSet, World};
use cf_tree::{Names, Pairs, Source, Txt};
use std::alloc::{AllocError, Global};

/// The entry that begins the next operation on a stack.
fn begin(alloc: Global, world: &World, name: &Txt, kind: Begun) -> Result<Order, AllocError>
    ensures { IfOk result (λ o. o ≡ order.Begin (entry.Begin (world.now.world.operation + 1) name.now kind)) }
{
    let number = next_number(world.operation());
    let stack = name.try_clone(alloc);
    match (number, stack) {
        (Ok(number), Ok(stack)) => Ok(Order::Begin(Entry::Begin {
            number,
            stack,
            kind,
        })),
        _ => Err(AllocError),
    }
}

/// How a source is taken to a stack: it is created by it or updated.
fn kind_by(world: &World, name: &Txt, written: Source) -> Begun
    ensures { result ≡ kind_by (known_stack name.now world.now.world) written }
{
    if creates_from(status_of(world, name)) {
        Begun::Create { source: written }
    } else {
        Begun::Update { source: written }
    }
}

/// The entry that creates a stack or updates it by a source with these imports.
fn deployment(
    alloc: Global,
    world: &World,
    name: &Txt,
    source: &Source,
    imports: Pairs,
) -> Result<Order, AllocError>
    ensures { IfOk result (λ o. o ≡ order.Begin (entry.Begin (world.now.world.operation + 1) name.now (kind_by (known_stack name.now
        world.now.world) (with_imports (source_for name.now 0 source.now) imports)))) }
{
    match importing(alloc, name, 0, source, imports) {
        Ok(written) => begin(alloc, world, name, kind_by(world, name, written)),
        Err(failed) => Err(failed),
    }
}

/// Refuses a source that changes nothing, unless the stack is created.
fn test_update(world: &World, name: &Txt, changes: &ChangeSet) -> Result<(), PrepareFault>
    ensures { (c : Changed) → changes.now ≡ set_by c → TestsAs (unless_created (known_stack name.now world.now.world) (if_unchanged c))
        (λ _. ⊤) result }
{
    if creates_from(status_of(world, name)) {
        Ok(())
    } else {
        test_changing(changes)
    }
}

/// The order of a source that is not refused so far.
fn deploy_worked(
    alloc: Global,
    world: &World,
    name: &Txt,
    source: &Source,
    worked: Worked,
) -> Result<Order, PrepareFault>
    ensures { (c : Changed) → worked.changes ≡ set_by c → TestsAs (unless_created (known_stack name.now world.now.world) (if_unchanged c))
        (λ o. o ≡ order.Begin (entry.Begin (world.now.world.operation + 1) name.now (kind_by (known_stack name.now world.now.world)
        (with_imports (source_for name.now 0 source.now) worked.imports)))) result }
{
    let Worked { imports, changes } = worked;
    let tested = test_update(world, name, &changes);
    drop(changes);
    match tested {
        Ok(()) => Ok(deployment(alloc, world, name, source, imports)?),
        Err(fault) => {
            drop(imports);
            Err(fault)
        }
    }
}

/// A source is to create the stack of a name, or to update it.
fn deploy(
    alloc: Global,
    world: &World,
    name: &Txt,
    source: &Source,
    templates: &Templates,
    schemas: &Schemas,
) -> Result<Order, PrepareFault>
    requires templates { templates.now ≡ templates_of source.now }
    ensures { TestsAs (deploy_refusal schemas.now world.now.world name.now source.now) (IsDeployment schemas.now world.now.world name.now
        source.now) result }
{
    test_deploys(world, name)?;
    let kinds = lane_kinds(alloc, world)?;
    let place = Place {
        world,
        name,
        schemas,
        kinds: &kinds,
    };
    let worked = work_out(alloc, &place, source, templates);
    drop(kinds);
    match worked {
        Ok(worked) => deploy_worked(alloc, world, name, source, worked),
        Err(fault) => Err(fault),
    }
}

/// The entry that keeps what a source changes as the next change set.
fn review_worked(
    alloc: Global,
    world: &World,
    name: &Txt,
    source: &Source,
    worked: Worked,
) -> Result<Order, PrepareFault>
    ensures { (c : Changed) → worked.changes ≡ set_by c → TestsAs (if_unchanged c) (λ o. o
        ≡ order.Review (entry.ChangeSet (world.now.world.set + 1) name.now (with_imports (source_for name.now 0 source.now) worked.imports)
        c.rows c.outputs_differ)) result }
{
    let Worked { imports, changes } = worked;
    match test_changing(&changes) {
        Ok(()) => Ok(kept(alloc, world, name, source, imports, changes)?),
        Err(fault) => {
            drop(imports);
            drop(changes);
            Err(fault)
        }
    }
}

/// The entry that keeps changes.
fn kept(
    alloc: Global,
    world: &World,
    name: &Txt,
    source: &Source,
    imports: Pairs,
    changes: ChangeSet,
) -> Result<Order, AllocError>
    ensures { IfOk result (λ o. o ≡ order.Review (entry.ChangeSet (world.now.world.set + 1) name.now (with_imports (source_for name.now 0
        source.now) imports) changes.rows changes.outputs_differ)) }
{
    let number = next_number(world.set());
    let stack = name.try_clone(alloc);
    let written = importing(alloc, name, 0, source, imports);
    let ChangeSet {
        rows,
        outputs_differ,
    } = changes;
    match (number, stack, written) {
        (Ok(number), Ok(stack), Ok(source)) => Ok(Order::Review(Entry::ChangeSet {
            number,
            stack,
            source,
            rows,
            outputs: outputs_differ,
        })),
        _ => Err(AllocError),
    }
}

/// What a source would change is to be kept.
fn review(
    alloc: Global,
    world: &World,
    name: &Txt,
    source: &Source,
    templates: &Templates,
    schemas: &Schemas,
) -> Result<Order, PrepareFault>
    requires templates { templates.now ≡ templates_of source.now }
    ensures { TestsAs (review_refusal schemas.now world.now.world name.now source.now) (IsReview schemas.now world.now.world name.now
        source.now) result }
{
    test_deploys(world, name)?;
    let kinds = schema_kinds(alloc, schemas)?;
    let place = Place {
        world,
        name,
        schemas,
        kinds: &kinds,
    };
    let worked = work_out(alloc, &place, source, templates);
    drop(kinds);
    match worked {
        Ok(worked) => review_worked(alloc, world, name, source, worked),
        Err(fault) => Err(fault),
    }
}

/// The order of a change set that is executed, unless what it changes now differs from what was kept.
fn execute_worked(
    alloc: Global,
    world: &World,
    name: &Txt,
    number: u64,
    set: &KeptSet,
    worked: Worked,
) -> Result<Order, PrepareFault>
    ensures { (c : Changed) → worked.changes ≡ set_by c → ExecutesSet (if_unchanged c) number c.rows set.now.rows (λ o. o
        ≡ order.Begin (entry.Begin (world.now.world.operation + 1) name.now (kind_by (known_stack name.now world.now.world) (with_imports
        (source_for name.now 0 set.now.source) worked.imports)))) result }
{
    let Worked { imports, changes } = worked;
    let tested = test_changing(&changes);
    let same = same_rows(&changes.rows, &set.rows);
    drop(changes);
    match tested {
        Ok(()) => {
            if same {
                Ok(deployment(alloc, world, name, &set.source, imports)?)
            } else {
                drop(imports);
                Err(refused(StackFault::Outdated { number }))
            }
        }
        Err(fault) => {
            drop(imports);
            Err(fault)
        }
    }
}

/// The order of a change set of a stack.
fn execute_set(
    alloc: Global,
    world: &World,
    name: &Txt,
    number: u64,
    set: &KeptSet,
    templates: &Templates,
    schemas: &Schemas,
) -> Result<Order, PrepareFault>
    requires templates { templates.now ≡ templates_of set.now.source }
    ensures { ExecutesSet (execute_refusal schemas.now world.now.world name.now set.now.source) number (proposed_changes schemas.now
        world.now.world name.now set.now.source).rows set.now.rows (IsDeployment schemas.now world.now.world name.now set.now.source)
        result }
{
    let kinds = lane_kinds(alloc, world)?;
    let place = Place {
        world,
        name,
        schemas,
        kinds: &kinds,
    };
    let worked = work_out(alloc, &place, &set.source, templates);
    drop(kinds);
    match worked {
        Ok(worked) => execute_worked(alloc, world, name, number, set, worked),
        Err(fault) => Err(fault),
    }
}

/// The change set of a number of the stack of a name, if there are both.
pub fn set_of<'a>(world: &'a World, name: &Txt, number: u64) -> Option<&'a KeptSet>
    ensures { option_copied result ≡ set_of number (known_stack name.now world.now.world) }
{
    match world.stack(name.as_str()) {
        Some(stack) => set_in(stack.sets().as_slice(), number),
        None => None,
    }
}

/// A change set of the stack of a name is to be executed.
fn execute(
    alloc: Global,
    world: &World,
    name: &Txt,
    number: u64,
    templates: &Templates,
    schemas: &Schemas,
) -> Result<Order, PrepareFault>
    requires templates { (k : Kept) → set_of number (known_stack name.now world.now.world) ≡ Some k
        → templates.now ≡ templates_of k.source }
    ensures { ExecutesAs (set_refusal world.now.world name.now number) schemas.now world.now.world name.now number result }
{
    test_there(world, name)?;
    test_deploys(world, name)?;
    match set_of(world, name, number) {
        Some(set) => execute_set(alloc, world, name, number, set, templates, schemas),
        None => Err(refused(StackFault::NoChangeSet { number })),
    }
}

/// Refuses a deletion for a path that it can't keep, and for an export that another stack imports.
fn test_deletion(
    alloc: Global,
    world: &World,
    name: &Txt,
    paths: &Names,
) -> Result<(), PrepareFault>
    ensures { TestsAs (first_of (if_not_failed (may_keep (known_stack name.now world.now.world).status (known_stack name.now
        world.now.world)) paths.now ∷ if_in_use name.now world.now.world [] ∷ [])) (λ _. ⊤) result }
{
    let failed = may_keep(alloc, world, name)?;
    let tested = test_failed(alloc, &failed, paths);
    drop(failed);
    tested?;
    test_in_use(alloc, world, name, &Names::new(alloc))
}

/// The entry that deletes a stack and keeps the resources at these paths.
fn deletion(alloc: Global, world: &World, name: &Txt, paths: &Names) -> Result<Order, AllocError>
    ensures { IfOk result (IsDeletion world.now.world name.now paths.now) }
{
    let paths = sorted(alloc, paths)?;
    begin(alloc, world, name, Begun::Delete { paths })
}

/// The stack of a name is to be deleted.
fn delete(alloc: Global, world: &World, name: &Txt, paths: &Names) -> Result<Order, PrepareFault>
    ensures { TestsAs (delete_refusal world.now.world name.now paths.now) (IsDeletion world.now.world name.now paths.now) result }
{
    test_there(world, name)?;
    test_deletes(world, name)?;
    test_deletion(alloc, world, name, paths)?;
    Ok(deletion(alloc, world, name, paths)?)
}

/// Refuses a rollback that goes on for a path that did not fail.
fn test_skipped(alloc: Global, world: &World, name: &Txt, paths: &Names) -> Result<(), PrepareFault>
    ensures { TestsAs (if_not_failed (failed_of (known_stack name.now world.now.world)) paths.now) (λ _. ⊤) result }
{
    let failed = failed_of(alloc, world, name)?;
    let tested = test_failed(alloc, &failed, paths);
    drop(failed);
    tested
}

/// The entry by which a rollback goes on and skips the resources at these paths.
fn continuation(
    alloc: Global,
    world: &World,
    name: &Txt,
    paths: &Names,
) -> Result<Order, AllocError>
    ensures { IfOk result (IsContinuation world.now.world name.now paths.now) }
{
    let paths = sorted(alloc, paths)?;
    begin(alloc, world, name, Begun::Continue { paths })
}

/// The rollback of the stack of a name is to go on.
fn go_on(alloc: Global, world: &World, name: &Txt, paths: &Names) -> Result<Order, PrepareFault>
    ensures { TestsAs (continue_refusal world.now.world name.now paths.now) (IsContinuation world.now.world name.now paths.now) result }
{
    test_there(world, name)?;
    test_continues(world, name)?;
    test_skipped(alloc, world, name, paths)?;
    Ok(continuation(alloc, world, name, paths)?)
}

/// What a wish orders: the entry that begins its operation, by the number that is next and with just
/// the exports of other stacks that its source uses, with their values of now; the entry that keeps its
/// change set; or the number of the operation that goes on. It may follow, whatever calls are out; a
/// rollback that goes on, where the engine was opened since it failed.
///
/// `templates` are those of the source of the wish, or of the change set that is executed; the other
/// wishes ask nothing of them. A type of a lane of the last opening that has no schema counts as one
/// without create-only properties.
///
/// # Errors
///
/// Exactly where it stands first in this order: `NoStack` where there is no stack of the name, unless
/// a source is deployed or reviewed; `WrongStatus` where nothing of the kind begins, or goes on, from
/// the stack's status; `NoChangeSet`; `Plan` with the first flaw of what the source wants over what its
/// changes leave to be seen; `UnknownType` with the first path, in byte order, whose type no lane of
/// the last opening has, or for a review no schema, and of an operation in progress only in its forward
/// phase and among the paths that are still to be done; `NotFailed` with the first path named that may
/// not be kept or skipped; `TypeChanged` with the least path that is held with another type;
/// `ExportTaken` and `ExportInUse` with the least such name; `NoChanges`, but of a deployment that
/// creates the stack; `Outdated` where the rows are no longer those of the change set. `NoMemory` may
/// come anywhere, and comes where no number is left.
#[tactic(auto, using(crate::proofs::Follows::order_follows))]
pub fn prepare(
    alloc: Global,
    world: &World,
    wish: &Wish,
    templates: &Templates,
    schemas: &Schemas,
) -> Result<Order, PrepareFault>
    requires templates { HasTemplates world.now.world wish.now templates.now }
    ensures exact { PreparesAs schemas.now world.now.world wish.now result }
    ensures follows { IfOk result (OrderFollows schemas.now world.now.world wish.now) }
{
    match wish {
        Wish::Deploy { stack, source } => deploy(alloc, world, stack, source, templates, schemas),
        Wish::Review { stack, source } => review(alloc, world, stack, source, templates, schemas),
        Wish::Execute { stack, number } => {
            execute(alloc, world, stack, *number, templates, schemas)
        }
        Wish::Delete { stack, paths } => delete(alloc, world, stack, paths),
        Wish::Continue { stack, paths } => go_on(alloc, world, stack, paths),
        Wish::Resume { stack } => resume(alloc, world, stack),
    }
}
