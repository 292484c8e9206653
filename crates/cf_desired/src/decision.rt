//! What the conditions of a template come to, and the order of work in it.
ghost use Rattle.std.specs.Prelude.{◌≡◌, ◌∷◌, IfOk, map};
ghost use Rattle.cf_eval.specs.Env.{Decides};
ghost use Rattle.cf_eval.specs.Conditions.{conditions_of};
ghost use Rattle.cf_eval.specs.Outcome.{got};
ghost use Rattle.cf_eval.specs.Scope.{verdict_of};
ghost use Rattle.cf_desired.specs.Kept.{decision_in, kept_stack_in};
ghost use Rattle.cf_desired.specs.Laying.{decision_of, order_found};
ghost use Rattle.cf_desired.specs.Shape.{first_later};

use crate::evaluations::{blame_of, flaw_by};
use crate::flaw::Flaw;
use crate::shape::Stack;
use cf_eval::{EvalFault, conditions};
use cf_graph::{GraphFault, Needs, order};
use cf_tree::{Bound, CondMap, Dict, Txt, Verdict};
use std::alloc::{AllocError, Global};

/// Whether work on a template can begin.
#[derive(Drop)]
pub(crate) enum Decision {
    /// Its conditions, or the needs in it, have a flaw.
    Halted { flaw: Flaw },
    /// What its conditions come to, and the order of work.
    Opened { conds: CondMap, order: Needs },
}

/// What the conditions of a template come to.
fn conditions_on(
    alloc: Global,
    stack: &Stack,
    bound: &Bound,
    pseudo: &Dict,
) -> Result<CondMap, EvalFault>
    ensures { Decides stack.now.path (conditions_of stack.now.template bound.now pseudo.now) result }
{
    conditions(alloc, &stack.template, bound, pseudo, &stack.path)
}

/// Decides the conditions of a template, and finds the order of work in it.
#[tactic(auto, using(crate::proofs::Decisions::stopped_decision))]
pub(crate) fn decide(
    alloc: Global,
    stack: &Stack,
    bound: &Bound,
    pseudo: &Dict,
) -> Result<Decision, AllocError>
    ensures { IfOk result (λ d. decision_in d ≡ decision_of (kept_stack_in stack.now) (conditions_of stack.now.template bound.now pseudo.now)) }
{
    match conditions_on(alloc, stack, bound, pseudo) {
        Ok(conds) => decided(alloc, stack, conds),
        Err(fault) => Ok(Decision::Halted {
            flaw: flaw_by(blame_of(fault)?),
        }),
    }
}

/// Over decided conditions, none of which may rest on what is not known yet.
fn decided(alloc: Global, stack: &Stack, conds: CondMap) -> Result<Decision, AllocError>
    ensures { IfOk result (λ d. decision_in d ≡ decision_of (kept_stack_in stack.now) (got (map (λ c. (c.0, verdict_of c.1)) conds))) }
{
    match first_later(alloc, &conds)? {
        Some(name) => Ok(Decision::Halted {
            flaw: Flaw::DynamicCondition {
                path: stack.path.try_clone(alloc)?,
                name,
            },
        }),
        None => ordered(alloc, stack, conds),
    }
}

/// The first condition that rests on what is not known yet.
fn first_later(alloc: Global, conds: &CondMap) -> Result<Option<Txt>, AllocError>
    ensures { IfOk result (λ name. name ≡ first_later (map (λ c. (c.0, verdict_of c.1)) conds.now)) }
{
    for cond in conds.as_slice() {
        if matches!(cond.1, Verdict::Later) {
            return Ok(Some(cond.0.try_clone(alloc)?));
        }
    }
    Ok(None)
}

/// With the order of work, or the flaw that there is none.
fn ordered(alloc: Global, stack: &Stack, conds: CondMap) -> Result<Decision, AllocError>
    ensures { IfOk result (λ d. decision_in d ≡ order_found (kept_stack_in stack.now) conds) }
{
    match order(alloc, &stack.template, &conds) {
        Ok(order) => Ok(Decision::Opened { conds, order }),
        Err(GraphFault::NoMemory) => Err(AllocError),
        Err(fault) => Ok(Decision::Halted {
            flaw: Flaw::Graph {
                at: stack.path.try_clone(alloc)?,
                fault,
            },
        }),
    }
}
