//! What is worked out of a stack once, before a stage goes through the resources that it may delete.
ghost use Rattle.std.specs.Prelude.{◌≡◌, ◌&&◌, ℕ, List, [], IfOk, fold, not, false};
ghost use Rattle.cf_tree.specs.Keys.{value_at};
ghost use Rattle.cf_tree.specs.Lists.{is_among};
ghost use Rattle.cf_effect.specs.declared.held.Held.{Held as Resource};
ghost use Rattle.cf_plan.specs.Follow.{is_free};
ghost use Rattle.cf_next.specs.Facts.{AreFacts, with_doubted, with_open, with_policy};
ghost use Rattle.cf_next.specs.Lookups.{has_key};
ghost use Rattle.cf_next.specs.Repeats.{retained_in};
ghost use Rattle.cf_next.specs.Unmaking.{is_cleanup, is_doubted, is_needed, policy_at, stage_in};

use crate::lookups::{LentMap, LentSet, Lents, set_of};
use crate::needed::{needed_in_deletion, needed_in_rollback};
use crate::tallies::{Tallies, tallies};
use crate::unmaking::{Unmaking, is_cleanup};
use cf_plan::doubts_of;
use cf_stacks::{Held, Pending, StackState};
use cf_tree::{Replace, Request};
use std::alloc::{AllocError, Global};

/// What is worked out of a stack once.
#[derive(Drop)]
pub(crate) struct Facts<'a> {
    /// The physical ids of the resources that others need, where the stage goes by that.
    pub needed: LentSet<'a>,
    /// How often the operation began to delete each resource, by physical id.
    pub tallies: Tallies<'a>,
    /// The paths with an open call.
    pub busy: LentSet<'a>,
    /// In a cleanup, the physical ids of the resources of which an open deletion was three times in doubt.
    pub doubted: LentSet<'a>,
    /// In the cleanup of an update, the policies of the resources that took the place of others, by path.
    pub policies: LentMap<'a, Replace>,
    /// The paths that are to be retained.
    pub retained: LentSet<'a>,
}

/// The physical ids of the resources that others need, where a stage goes by that.
fn needed_for<'a>(
    alloc: Global,
    stage: Unmaking,
    stack: &'a StackState,
) -> Result<Lents<'a>, AllocError>
    ensures { IfOk result (λ ids. (r : Resource) → is_among r.physical ids ≡ is_needed stage stack.now.stack r) }
{
    match stage {
        Unmaking::Back => needed_in_rollback(alloc, stack),
        Unmaking::Gone => needed_in_deletion(alloc, stack),
        Unmaking::Clean | Unmaking::BackClean => Ok(Lents::new(alloc)),
    }
}

/// The paths of these open calls.
fn opened_at<'a>(alloc: Global, tokens: &'a [Pending]) -> Result<LentSet<'a>, AllocError>
    ensures { IfOk result (λ paths. paths ≡ fold with_open [] tokens.now) }
{
    let mut paths = LentSet::new(alloc);
    for pending in tokens {
        paths.add_first(&pending.path, ())?;
    }
    Ok(paths)
}

/// The paths with an open call.
fn open_paths<'a>(alloc: Global, stack: &'a StackState) -> Result<LentSet<'a>, AllocError>
    ensures { IfOk result (λ paths. (path : List ℕ) → has_key path paths ≡ not (is_free path stack.now.stack)) }
{
    opened_at(alloc, stack.tokens().as_slice())
}

/// Adds the resource that an open call deletes, where that was three times in doubt. After an error the set is as it was.
fn add_doubted<'a>(
    ids: &mut LentSet<'a>,
    stack: &StackState,
    pending: &'a Pending,
) -> Result<(), AllocError>
    ensures { IfOk result (λ _. ids.new ≡ with_doubted stack.now.stack ids.old pending.now) }
{
    if doubts_of(pending.token, stack) < 3 {
        return Ok(());
    }
    match &pending.request {
        Request::Delete { physical } => ids.add_first(physical, ()),
        _ => Ok(()),
    }
}

/// The resources that these open calls delete, where that was three times in doubt.
fn doubted_by<'a>(
    alloc: Global,
    stack: &StackState,
    tokens: &'a [Pending],
) -> Result<LentSet<'a>, AllocError>
    ensures { IfOk result (λ ids. ids ≡ fold (with_doubted stack.now.stack) [] tokens.now) }
{
    let mut ids = LentSet::new(alloc);
    for pending in tokens {
        add_doubted(&mut ids, stack, pending)?;
    }
    Ok(ids)
}

/// In a cleanup, the resources of which an open deletion was three times in doubt.
fn doubted_for<'a>(
    alloc: Global,
    stage: Unmaking,
    stack: &'a StackState,
) -> Result<LentSet<'a>, AllocError>
    ensures { IfOk result (λ ids. (id : List ℕ) → has_key id ids ≡ (is_cleanup stage && is_doubted id stack.now.stack)) }
{
    if is_cleanup(stage) {
        doubted_by(alloc, stack, stack.tokens().as_slice())
    } else {
        Ok(LentSet::new(alloc))
    }
}

/// Adds the policy of a resource under its path, where it is the first there and is not superseded. After an error the map is as it
/// was.
fn add_policy<'a>(policies: &mut LentMap<'a, Replace>, held: &'a Held) -> Result<(), AllocError>
    ensures { IfOk result (λ _. policies.new ≡ with_policy policies.old held.now) }
{
    if held.superseded {
        Ok(())
    } else {
        policies.add_first(&held.path, held.replace)
    }
}

/// The policies of those of these resources that are not superseded.
fn policies_of<'a>(alloc: Global, helds: &'a [Held]) -> Result<LentMap<'a, Replace>, AllocError>
    ensures { IfOk result (λ policies. policies ≡ fold with_policy [] helds.now) }
{
    let mut policies = LentMap::new(alloc);
    for held in helds {
        add_policy(&mut policies, held)?;
    }
    Ok(policies)
}

/// In the cleanup of an update, the policies of the resources that took the place of others.
fn policies_for<'a>(
    alloc: Global,
    stage: Unmaking,
    stack: &'a StackState,
) -> Result<LentMap<'a, Replace>, AllocError>
    ensures { IfOk result (λ policies. (path : List ℕ) → value_at path policies ≡ policy_at stage stack.now.stack path) }
{
    match stage {
        Unmaking::Clean => policies_of(alloc, stack.held().as_slice()),
        Unmaking::Back | Unmaking::BackClean | Unmaking::Gone => Ok(LentMap::new(alloc)),
    }
}

/// The set of the physical ids of the resources that others need, where a stage goes by that.
fn needed_set<'a>(
    alloc: Global,
    stage: Unmaking,
    stack: &'a StackState,
) -> Result<LentSet<'a>, AllocError>
    ensures { IfOk result (λ ids. (r : Resource) → has_key r.physical ids ≡ is_needed stage stack.now.stack r) }
{
    let ids = needed_for(alloc, stage, stack)?;
    let set = set_of(alloc, ids.as_slice());
    drop(ids);
    set
}

/// What a stage has to know of its stack; the paths are those that it is to retain.
pub(crate) fn facts_of<'a>(
    alloc: Global,
    stage: Unmaking,
    stack: &'a StackState,
    retained: &Lents<'a>,
) -> Result<Facts<'a>, AllocError>
    requires { retained.now ≡ retained_in (stage_in stage) stack.now.stack }
    ensures { IfOk result (λ facts. AreFacts stage stack.now.stack facts) }
{
    Ok(Facts {
        needed: needed_set(alloc, stage, stack)?,
        tallies: tallies(alloc, stack)?,
        busy: open_paths(alloc, stack)?,
        doubted: doubted_for(alloc, stage, stack)?,
        policies: policies_for(alloc, stage, stack)?,
        retained: set_of(alloc, retained.as_slice())?,
    })
}
