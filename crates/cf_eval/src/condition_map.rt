//! What the conditions of a template come to.
ghost use Rattle.std.specs.Prelude.{◌≡◌, Some, IfOk, map};
ghost use Rattle.cf_tree.specs.Keys.{value_at};
ghost use Rattle.cf_eval.specs.Conditions.{conditions_found, conditions_of};
ghost use Rattle.cf_eval.specs.Deciding.{Answers, AreNotedRight, GivesConds, context_scope};
ghost use Rattle.cf_eval.specs.Env.{Decides};

use crate::decide::{ConditionContext, descend};
use crate::evaluation::fault_by;
use crate::fault::{EvalFault, Stop};
use cf_tree::{Bound, Cond, CondMap, Dict, Names, Resources, Template, Txt, Verdict};
use std::alloc::{AllocError, Global};

/// What each condition of a template comes to.
///
/// Conditions are decided in the order of their names, and one that another one asks for is decided
/// then, each of them once. `pseudo` has the pseudo parameters but `AWS::NoValue`. A condition may
/// refer to no resource, attribute or import.
///
/// # Errors
///
/// `Bad` exactly where a condition has a fault, with the first one: why, the path `stack`, and the
/// place of the innermost function around it. A condition that needs itself is
/// `CircularCondition`, at the innermost function around the reference that comes back to it.
/// `NoMemory`, where there is no memory for the map.
#[tactic(auto, using(crate::proofs::Refusing::is_refused))]
pub fn conditions(
    alloc: Global,
    template: &Template,
    bound: &Bound,
    pseudo: &Dict,
    stack: &Txt,
) -> Result<CondMap, EvalFault>
    ensures { Decides stack.now (conditions_of template.now bound.now pseudo.now) result }
{
    let Ok(resources) = names_of(alloc, &template.resources) else {
        return Err(EvalFault::NoMemory);
    };
    let context = ConditionContext {
        params: bound,
        mappings: &template.mappings,
        pseudo,
        resources: &resources,
        conds: &template.conds,
    };
    match decide_all(alloc, &context) {
        Ok(conds) => Ok(conds),
        Err(stop) => Err(fault_by(alloc, stack, stop)),
    }
}

/// The logical ids of resources.
fn names_of(alloc: Global, resources: &Resources) -> Result<Names, AllocError>
    ensures { IfOk result (λ n. n ≡ map (λ r. r.name) resources.now) }
{
    let mut names = Names::new(alloc);
    for resource in resources.as_slice() {
        names.push(resource.name.try_clone(alloc)?)?;
    }
    Ok(names)
}

/// All conditions in the order of their names, up to the first fault.
fn decide_all(alloc: Global, context: &ConditionContext) -> Result<CondMap, Stop>
    ensures { GivesConds (conditions_found (context_scope context.now) context.now.conds.now) result }
{
    let mut done = CondMap::new(alloc);
    let mut verdicts = Vec::new(alloc);
    for condition in context.conds.as_slice() {
        match settle(alloc, context, &condition.0, &condition.1, &mut done) {
            Ok(verdict) => verdicts.push((condition.0.try_clone(alloc)?, verdict))?,
            Err(stop) => return Err(stop),
        }
    }
    Ok(CondMap::from_vec(verdicts))
}

/// A condition that is decided, or is decided now.
fn settle(
    alloc: Global,
    context: &ConditionContext,
    name: &Txt,
    cond: &Cond,
    done: &mut CondMap,
) -> Result<Verdict, Stop>
    requires right { AreNotedRight (context_scope context.now) context.now.conds.now done.old }
    requires declared { value_at name.now context.now.conds.now ≡ Some cond.now }
    ensures { Answers (context_scope context.now) context.now.conds.now name.now done.new result }
{
    if let Some(verdict) = done.get(name.as_str()) {
        return Ok(*verdict);
    }
    let mut under = Vec::new(alloc);
    let left = context.conds.len();
    descend(alloc, context, left, &mut under, name, cond, done)
}
