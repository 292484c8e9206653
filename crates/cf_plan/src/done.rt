//! Which paths are done.
ghost use Rattle.std.specs.Prelude.{◌≡◌, ◌==◌, ◌&&◌, ◌↔◌, ℕ, ◌++◌, List, IfOk, IsTrue, filter, map, not};
ghost use Rattle.std.specs.List.{list_all};
ghost use Rattle.cf_tree.specs.Lists.{is_among};
ghost use Rattle.cf_plan.specs.Forward.{plan_before, plan_now};
ghost use Rattle.cf_plan.specs.Done.{AddsPath, AreDone, HasTerms, IsFresh, CanJoin, Joined, are_met, is_good_update, made_paths, updated_paths};

use crate::calls::is_good_update;
use crate::found::is_right_at;
use crate::index::{NameIndex, PlanIndex};
use cf_desired::Plan;
use cf_effect::PathIndex;
use cf_stacks::{Call, Held, StackState};
use cf_tree::{Names, Txt};
use std::alloc::{AllocError, Global};

/// Whether all of these are among others.
pub(crate) fn are_among(needs: &Names, names: &NameIndex) -> bool
    ensures { result ≡ list_all (λ n. is_among n names.now) needs.now }
{
    needs.as_slice().iter().all(|need| names.contains(need))
}

/// Whether all that a path needs by a plan is among these.
pub(crate) fn are_met(plan: &PlanIndex, done: &NameIndex, path: &Txt) -> bool
    ensures { result ≡ are_met path.now plan.now done.now }
{
    match plan.wanted_at(path) {
        Some(wanted) => are_among(&wanted.needs, done),
        None => true,
    }
}

/// The paths of the resources of a list that are not superseded.
fn current_paths(alloc: Global, helds: &[Held]) -> Result<NameIndex, AllocError>
    ensures { IfOk result (λ paths. paths ≡ map (λ h. h.path) (filter (λ h. not h.superseded) helds.now)) }
{
    let mut paths = NameIndex::new(alloc);
    for held in helds {
        if !held.superseded {
            paths.push(alloc, &held.path)?;
        }
    }
    Ok(paths)
}

/// The paths of what the operation made.
fn made_paths(alloc: Global, stack: &StackState) -> Result<NameIndex, AllocError>
    ensures { IfOk result (λ paths. paths ≡ made_paths stack.now.stack) }
{
    current_paths(alloc, stack.made().as_slice())
}

/// Whether a call is an update of an operation that succeeded.
fn is_own_update(number: u64, call: &Call) -> bool
    ensures { result ≡ (call.now.number == number && is_good_update call.now) }
{
    call.number == number && is_good_update(call)
}

/// Adds the paths of the calls of an operation that are updates which succeeded. After an error nothing is said of the list.
fn push_calls(
    alloc: Global,
    paths: &mut NameIndex,
    calls: &[Call],
    number: u64,
) -> Result<(), AllocError>
    ensures { IfOk result (λ _. paths.new ≡ paths.old ++ map (λ c. c.path) (filter (λ c. c.number == number && is_good_update c) calls.now)) }
{
    for call in calls {
        if is_own_update(number, call) {
            paths.push(alloc, &call.path)?;
        }
    }
    Ok(())
}

/// Adds the paths that the operation updated. After an error nothing is said of the list.
fn push_updated(alloc: Global, stack: &StackState, paths: &mut NameIndex) -> Result<(), AllocError>
    ensures { IfOk result (λ _. paths.new ≡ paths.old ++ updated_paths stack.now.stack) }
{
    push_calls(alloc, paths, stack.ledger().as_slice(), stack.operation())
}

/// Whether a path is not among those that are done, though what is held there is right and its needs are done.
fn is_fresh(
    alloc: Global,
    before: &PlanIndex,
    now: &PlanIndex,
    held: &PathIndex<Held>,
    done: &NameIndex,
    path: &Txt,
) -> Result<bool, AllocError>
    ensures { IfOk result (λ fresh. IsTrue fresh ↔ IsFresh before.now now.now held.now done.now path.now) }
{
    if done.contains(path) || !are_met(before, done, path) {
        Ok(false)
    } else {
        is_right_at(alloc, now, held, path)
    }
}

/// Adds a path, where it is not among those that are done though what is held there is right and its needs are done. After an
/// error the list is as it was.
fn add_one(
    alloc: Global,
    before: &PlanIndex,
    now: &PlanIndex,
    held: &PathIndex<Held>,
    done: &mut NameIndex,
    path: &Txt,
) -> Result<(), AllocError>
    ensures { IfOk result (λ _. AddsPath before.now now.now held.now path.now done.old done.new) }
{
    if is_fresh(alloc, before, now, held, done, path)? {
        done.push(alloc, path)
    } else {
        Ok(())
    }
}

/// Adds, in the order of work, each wanted path that is right and whose needs are done. After an error nothing is said of the
/// list.
fn add_right(
    alloc: Global,
    before: &PlanIndex,
    now: &PlanIndex,
    held: &PathIndex<Held>,
    done: &mut NameIndex,
) -> Result<(), AllocError>
    ensures joined { IfOk result (λ _. Joined before.now now.now held.now done.old done.new) }
    ensures all { IfOk result (λ _. done.new ≡ done.old → (p : List ℕ) → CanJoin before.now now.now held.now done.old p → ⊥) }
{
    for wanted in before.plan().wanted.as_slice() {
        add_one(alloc, before, now, held, done, &wanted.path)?;
    }
    Ok(())
}

/// Adds each wanted path that is right and whose needs are done, until there is none. A plan has its paths in the order of
/// work, so the second time finds no more. After an error nothing is said of the list.
fn add_all_right(
    alloc: Global,
    before: &PlanIndex,
    now: &PlanIndex,
    held: &PathIndex<Held>,
    done: &mut NameIndex,
) -> Result<(), AllocError>
    ensures joined { IfOk result (λ _. Joined before.now now.now held.now done.old done.new) }
    ensures all { IfOk result (λ _. (p : List ℕ) → CanJoin before.now now.now held.now done.new p → ⊥) }
{
    loop {
        let count = done.len();
        add_right(alloc, before, now, held, done)?;
        if done.len() == count {
            return Ok(());
        }
    }
}

/// The paths that are done, by any plan with the paths and the needs of the operation's source, and by what that says over the
/// resources of now.
pub(crate) fn done_by<'a>(
    alloc: Global,
    stack: &StackState,
    terms: &PlanIndex<'a>,
    now: &PlanIndex<'a>,
    held: &PathIndex<Held>,
) -> Result<NameIndex, AllocError>
    requires terms { HasTerms stack.now.stack terms.now }
    requires now { now.now ≡ plan_now stack.now.stack }
    requires held { held.now ≡ stack.now.stack.held }
    ensures { IfOk result (λ done. AreDone stack.now.stack done) }
{
    let mut done = made_paths(alloc, stack)?;
    push_updated(alloc, stack, &mut done)?;
    add_all_right(alloc, terms, now, held, &mut done)?;
    Ok(done)
}

/// The paths that are done: those of what was made and of the updates that succeeded, and those whose needs are done and whose
/// held resource is sure and has the type and the properties of now.
///
/// `before` is what the operation's source says over what was held before, `now` what it says over the resources of now.
/// In each round it looks each wanted path up by halves, with all that it needs; two rounds at most where the plan is in the order
/// of work.
///
/// # Errors
///
/// Only for want of memory.
#[tactic(auto, using(crate::proofs::PlanTerms::over_before))]
pub fn done_paths(
    alloc: Global,
    stack: &StackState,
    before: &Plan,
    now: &Plan,
) -> Result<Names, AllocError>
    requires before { before.now ≡ plan_before stack.now.stack }
    requires now { now.now ≡ plan_now stack.now.stack }
    ensures { IfOk result (λ done. AreDone stack.now.stack done) }
{
    let before = PlanIndex::new(alloc, before)?;
    let now = PlanIndex::new(alloc, now)?;
    let held = PathIndex::new(alloc, stack.held().as_slice())?;
    let done = done_by(alloc, stack, &before, &now, &held)?;
    Ok(done.into_names())
}
