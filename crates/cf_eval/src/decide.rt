//! Conditions, each decided once.
ghost use Rattle.std.specs.Prelude.{◌≡◌, ℕ, ◌≤◌, List, Some, None, false};
ghost use Rattle.cf_tree.specs.Keys.{value_at};
ghost use Rattle.cf_tree.specs.Lists.{is_among};
ghost use Rattle.cf_eval.specs.Conditions.{condition_found, decided_by, test_found};
ghost use Rattle.cf_eval.specs.Deciding.{Apart, AreNotedRight, Notes, DecidesAs, context_scope, left_of};
ghost use Rattle.cf_eval.specs.Gives.{GivesVerdict, Stops};
ghost use Rattle.cf_eval.specs.Scope.{verdict_among};

use crate::fault::{EvalWhy, Stop};
use crate::scope::{Beyond, Scope};
use crate::verdict::test;
use cf_tree::{Bound, Cond, CondMap, Dict, Mappings, NamedConds, Names, Txt, Verdict};
use std::alloc::Global;

/// What conditions are decided over.
#[derive(Drop)]
pub(crate) struct ConditionContext<'a> {
    pub params: &'a Bound,
    pub mappings: &'a Mappings,
    pub pseudo: &'a Dict,
    pub resources: &'a Names,
    pub conds: &'a NamedConds,
}

/// A condition over those that are decided.
fn look(
    alloc: Global,
    context: &ConditionContext,
    done: &CondMap,
    cond: &Cond,
) -> Result<Verdict, Stop>
    ensures { GivesVerdict (test_found (decided_by (verdict_among done.now) (context_scope context.now)) None cond.now) result }
{
    let scope = Scope {
        params: context.params,
        mappings: context.mappings,
        pseudo: context.pseudo,
        conds: done,
        beyond: Beyond::Closed {
            resources: context.resources,
        },
    };
    test(alloc, &scope, None, cond)
}

/// A condition while those of `under` are under way: each one that it asks for is decided first.
/// `left` is how many conditions are not under way.
#[cycle(decide)]
fn decide(
    alloc: Global,
    context: &ConditionContext,
    left: usize,
    under: &mut Vec<Txt>,
    cond: &Cond,
    done: &mut CondMap,
) -> Result<Verdict, Stop>
    requires right { AreNotedRight (context_scope context.now) context.now.conds.now done.old }
    requires apart { Apart under.old.items done.old }
    requires enough { left_of under.old.items context.now.conds.now ≤ left }
    ensures { DecidesAs context.now left under.old.items under.new.items done.old done.new cond.now result }
{
    'deciding: loop {
        match look(alloc, context, done, cond) {
            Ok(verdict) => return Ok(verdict),
            Err(stop) => match stop {
                Stop::Undecided { name, at } => {
                    match enter(alloc, context, left, under, &name, &at, done) {
                        Ok(_) => {}
                        Err(stop) => return Err(stop),
                    }
                }
                Stop::Bad { why, at } => return Err(Stop::Bad { why, at }),
                Stop::Below { why, stack, at } => return Err(Stop::Below { why, stack, at }),
                Stop::NoMemory => return Err(Stop::NoMemory),
            },
        }
    }
}

/// A condition that is asked for at a place.
#[cycle(decide)]
fn enter(
    alloc: Global,
    context: &ConditionContext,
    left: usize,
    under: &mut Vec<Txt>,
    name: &Txt,
    at: &Txt,
    done: &mut CondMap,
) -> Result<Verdict, Stop>
    requires right { AreNotedRight (context_scope context.now) context.now.conds.now done.old }
    requires apart { Apart under.old.items done.old }
    requires enough { left_of under.old.items context.now.conds.now ≤ left }
    requires fresh { value_at name.now done.old ≡ None }
    ensures { Notes context.now under.old.items under.new.items done.old done.new name.now (Stops (condition_found left (context_scope context.now) context.now.conds.now under.old.items at.now name.now)) result }
{
    if is_among(name, under.as_slice()) {
        return Err(Stop::Bad {
            why: EvalWhy::CircularCondition,
            at: at.try_clone(alloc)?,
        });
    }
    match context.conds.get(name.as_str()) {
        Some(cond) => descend(alloc, context, left, under, name, cond, done),
        None => Err(Stop::Bad {
            why: EvalWhy::UnknownName,
            at: at.try_clone(alloc)?,
        }),
    }
}

/// A condition that is declared and not under way: it is decided and noted.
#[cycle(decide)]
pub(crate) fn descend(
    alloc: Global,
    context: &ConditionContext,
    left: usize,
    under: &mut Vec<Txt>,
    name: &Txt,
    cond: &Cond,
    done: &mut CondMap,
) -> Result<Verdict, Stop>
    requires right { AreNotedRight (context_scope context.now) context.now.conds.now done.old }
    requires apart { Apart under.old.items done.old }
    requires enough { left_of under.old.items context.now.conds.now ≤ left }
    requires fresh { value_at name.now done.old ≡ None }
    requires declared { value_at name.now context.now.conds.now ≡ Some cond.now }
    requires out { is_among name.now under.old.items ≡ false }
    ensures { Notes context.now under.old.items under.new.items done.old done.new name.now (λ w. (at : List ℕ) → Stops (condition_found left (context_scope context.now) context.now.conds.now under.old.items at name.now) w) result }
{
    let depth = under.len();
    let noted = name.try_clone(alloc)?;
    under.push(name.try_clone(alloc)?)?;
    match decide(alloc, context, left - 1, under, cond, done) {
        Ok(verdict) => {
            under.truncate(depth);
            done.insert(noted, verdict)?;
            Ok(verdict)
        }
        Err(stop) => Err(stop),
    }
}

/// Whether a name is among others.
fn is_among(name: &Txt, names: &[Txt]) -> bool
    ensures { result ≡ is_among name.now names.now }
{
    names.iter().any(|other| other.is(name.as_str()))
}
