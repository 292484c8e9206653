//! Where the forward phase of an operation may begin, and with which requests.
ghost use Rattle.std.specs.Prelude.{◌≡◌, [], IfOk, fold};
ghost use Rattle.cf_plan.specs.Forward.{plan_before, plan_now};
ghost use Rattle.cf_plan.specs.Done.{AreDone, HasTerms};
ghost use Rattle.cf_plan.specs.Starts.{AreRequests, may_start, starts_by, with_start};

use crate::done::are_met;
use crate::forward::{Wants, is_free, wants_over};
use crate::index::{NameIndex, PlanIndex};
use cf_desired::Plan;
use cf_effect::PathIndex;
use cf_schema::Schemas;
use cf_stacks::{Held, StackState};
use cf_tree::{ByName, Names, Txt};
use std::alloc::{AllocError, Global};

/// Whether a path is not done, all that it needs is done, and no token of it is open.
fn may_start(stack: &StackState, before: &PlanIndex, done: &NameIndex, path: &Txt) -> bool
    ensures { result ≡ may_start stack.now.stack before.now done.now path.now }
{
    !done.contains(path) && are_met(before, done, path) && is_free(stack, path)
}

/// Adds what a path may begin with, where it may. After an error nothing is said of the map.
fn add_start(
    alloc: Global,
    schemas: &Schemas,
    stack: &StackState,
    before: &PlanIndex,
    now: &PlanIndex,
    held: &PathIndex<Held>,
    done: &NameIndex,
    starts: &mut ByName<Wants>,
    path: &Txt,
) -> Result<(), AllocError>
    requires { held.now ≡ stack.now.stack.held }
    ensures { IfOk result (λ _. starts.new ≡ with_start schemas.now stack.now.stack before.now now.now done.now starts.old path.now) }
{
    if may_start(stack, before, done, path) {
        let (wanted, held) = (now.wanted_at(path), held.get(path));
        let wants = wants_over(alloc, schemas, stack, path, wanted, held)?;
        let path = path.try_clone(alloc)?;
        starts.insert(path, wants)
    } else {
        Ok(())
    }
}

/// What each wanted path may begin with, where it may.
fn starts_by(
    alloc: Global,
    schemas: &Schemas,
    stack: &StackState,
    before: &PlanIndex,
    now: &PlanIndex,
    held: &PathIndex<Held>,
    done: &NameIndex,
) -> Result<ByName<Wants>, AllocError>
    requires { held.now ≡ stack.now.stack.held }
    ensures { IfOk result (λ starts. starts ≡ starts_by schemas.now stack.now.stack before.now now.now done.now) }
{
    let mut starts = ByName::new(alloc);
    for wanted in before.plan().wanted.as_slice() {
        add_start(
            alloc,
            schemas,
            stack,
            before,
            now,
            held,
            done,
            &mut starts,
            &wanted.path,
        )?;
    }
    Ok(starts)
}

/// What the forward phase may begin with, by any plan with the paths and the needs of the operation's source, by what that says over
/// the resources of now, and by the paths that are done.
pub(crate) fn starts_over<'a>(
    alloc: Global,
    schemas: &Schemas,
    stack: &StackState,
    terms: &PlanIndex<'a>,
    now: &PlanIndex<'a>,
    held: &PathIndex<Held>,
    done: &NameIndex,
) -> Result<ByName<Wants>, AllocError>
    requires terms { HasTerms stack.now.stack terms.now }
    requires now { now.now ≡ plan_now stack.now.stack }
    requires held { held.now ≡ stack.now.stack.held }
    requires done { AreDone stack.now.stack done.now }
    ensures { IfOk result (λ starts. AreRequests schemas.now stack.now.stack starts) }
{
    starts_by(alloc, schemas, stack, terms, now, held, done)
}

/// What the forward phase may begin with, by path in byte order: the requests of each path that is ready and not done, and of
/// which no token is open. That the phase has not failed is for the caller to see.
///
/// `before` is what the operation's source says over what was held before, `now` what it says over the resources of now, and
/// `done` are the paths that are done.
///
/// # Errors
///
/// Only for want of memory.
#[tactic(auto, using(crate::proofs::PlanTerms::over_before))]
pub fn starts_of(
    alloc: Global,
    schemas: &Schemas,
    stack: &StackState,
    before: &Plan,
    now: &Plan,
    done: &Names,
) -> Result<ByName<Wants>, AllocError>
    requires before { before.now ≡ plan_before stack.now.stack }
    requires now { now.now ≡ plan_now stack.now.stack }
    requires done { AreDone stack.now.stack done.now }
    ensures { IfOk result (λ starts. AreRequests schemas.now stack.now.stack starts) }
{
    let before = PlanIndex::new(alloc, before)?;
    let now = PlanIndex::new(alloc, now)?;
    let held = PathIndex::new(alloc, stack.held().as_slice())?;
    let done = NameIndex::of(alloc, done)?;
    starts_over(alloc, schemas, stack, &before, &now, &held, &done)
}
