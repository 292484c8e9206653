//! What a condition comes to over those that are decided.
ghost use Rattle.std.specs.Prelude.{◌≡◌, Some, if◌then◌else◌, not, unwrap_or};
ghost use Rattle.std.specs.Option.{option_copied};
ghost use Rattle.cf_tree.specs.Test.{test_node_of};
ghost use Rattle.cf_tree.specs.Tests.{tests_of};
ghost use Rattle.cf_eval.specs.Conditions.{test_found, test_node_found, tests_found, all_found, any_found, equals_found};
ghost use Rattle.cf_eval.specs.Outcome.{got, later, on_got};
ghost use Rattle.cf_eval.specs.Gives.{got_found, part_of, GivesVerdict};
ghost use Rattle.cf_eval.specs.Scope.{verdict_of};
ghost use Rattle.cf_eval.specs.ScopeOf.{scope_of};

use crate::compare::equal;
use crate::fault::{EvalWhy, Stop};
use crate::got::Got;
use crate::scope::Scope;
use crate::value::value;
use cf_tree::{Cond, CondNode, Conds, Txt, Verdict};
use std::alloc::Global;

/// A condition, where the innermost function around it stands at `around`.
#[cycle(decide)]
pub(crate) fn test(
    alloc: Global,
    scope: &Scope,
    around: Option<&Txt>,
    cond: &Cond,
) -> Result<Verdict, Stop>
    ensures { GivesVerdict (test_found (scope_of scope.now) (option_copied around.entry) cond.now) result }
{
    node(alloc, scope, around, cond.at(), cond.node())
}

#[cycle(decide)]
#[tactic(auto, using(crate::proofs::Verdicts::equals_stop))]
fn node(
    alloc: Global,
    scope: &Scope,
    around: Option<&Txt>,
    at: &Txt,
    node: &CondNode,
) -> Result<Verdict, Stop>
    ensures { GivesVerdict (test_node_found (scope_of scope.now) (option_copied around.entry) at.now (test_node_of node.now)) result }
{
    match node {
        CondNode::Equals { left, right } => {
            let left = value(alloc, scope, Some(at), left)?;
            match value(alloc, scope, Some(at), right) {
                Ok(right) => equals(alloc, at, &left, &right),
                Err(stop) => Err(stop),
            }
        }
        CondNode::Not(cond) => Ok(negated(test(alloc, scope, Some(at), cond)?)),
        CondNode::And(conds) => all_hold(alloc, scope, at, conds),
        CondNode::Or(conds) => any_holds(alloc, scope, at, conds),
        CondNode::Name(name) => by_name(alloc, scope, around, at, name),
    }
}

/// `Fn::And`.
#[cycle(decide)]
#[tactic(auto, using(crate::proofs::Verdicts::all_is, crate::proofs::TestFalls::test_falls))]
fn all_hold(alloc: Global, scope: &Scope, at: &Txt, conds: &Conds) -> Result<Verdict, Stop>
    ensures { GivesVerdict (all_found (tests_found (scope_of scope.now) (Some at.now) (tests_of conds.now))) result }
{
    let mut late = false;
    let mut all = true;
    for cond in conds.as_slice() {
        match test(alloc, scope, Some(at), cond)? {
            Verdict::True => {}
            Verdict::False => all = false,
            Verdict::Later => late = true,
        }
    }
    Ok(verdict_from(late, all))
}

/// `Fn::Or`.
#[cycle(decide)]
#[tactic(auto, using(crate::proofs::Verdicts::any_is, crate::proofs::TestFalls::test_falls))]
fn any_holds(alloc: Global, scope: &Scope, at: &Txt, conds: &Conds) -> Result<Verdict, Stop>
    ensures { GivesVerdict (any_found (tests_found (scope_of scope.now) (Some at.now) (tests_of conds.now))) result }
{
    let mut late = false;
    let mut any = false;
    for cond in conds.as_slice() {
        match test(alloc, scope, Some(at), cond)? {
            Verdict::True => any = true,
            Verdict::False => {}
            Verdict::Later => late = true,
        }
    }
    Ok(verdict_from(late, any))
}

fn verdict_from(late: bool, holds: bool) -> Verdict
    ensures { part_of (verdict_of result) ≡ (if late then later else got holds) }
{
    if late {
        Verdict::Later
    } else if holds {
        Verdict::True
    } else {
        Verdict::False
    }
}

fn negated(holds: Verdict) -> Verdict
    ensures { part_of (verdict_of result) ≡ on_got (part_of (verdict_of holds)) (λ b. got (not b)) }
{
    match holds {
        Verdict::True => Verdict::False,
        Verdict::False => Verdict::True,
        Verdict::Later => Verdict::Later,
    }
}

/// `Fn::Equals`.
fn equals(alloc: Global, at: &Txt, left: &Got, right: &Got) -> Result<Verdict, Stop>
    ensures { GivesVerdict (equals_found at.now (got_found left.now) (got_found right.now)) result }
{
    match (left, right) {
        (Got::Later, _) | (_, Got::Later) => Ok(Verdict::Later),
        (Got::Value(left), Got::Value(right)) => match equal(alloc, left, right)? {
            Some(same) => Ok(verdict_from(false, same)),
            None => Err(Stop::Bad {
                why: EvalWhy::WrongKind,
                at: at.try_clone(alloc)?,
            }),
        },
        _ => Err(Stop::Bad {
            why: EvalWhy::WrongKind,
            at: at.try_clone(alloc)?,
        }),
    }
}

/// The condition of a name.
fn by_name(
    alloc: Global,
    scope: &Scope,
    around: Option<&Txt>,
    at: &Txt,
    name: &Txt,
) -> Result<Verdict, Stop>
    ensures { GivesVerdict ((scope_of scope.now).decided (unwrap_or (option_copied around.entry) at.now) name.now) result }
{
    match scope.conds.get(name.as_str()) {
        Some(held) => Ok(*held),
        None => {
            let place = match around {
                Some(function) => function,
                None => at,
            };
            Err(Stop::Undecided {
                name: name.try_clone(alloc)?,
                at: place.try_clone(alloc)?,
            })
        }
    }
}
