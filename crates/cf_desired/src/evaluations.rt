//! Evaluations, with their faults as flaws.
ghost use Rattle.std.specs.Prelude.{◌≡◌, [], ◌∷◌, ◌++◌, IfOk, IsTrue, None, option_map};
ghost use Rattle.cf_tree.specs.Datum.{list, items_of};
ghost use Rattle.cf_tree.specs.Keys.{ascends};
ghost use Rattle.cf_tree.specs.Forms.{place_of};
ghost use Rattle.cf_tree.specs.Value.{datum_of};
ghost use Rattle.cf_eval.specs.Env.{scope_in};
ghost use Rattle.cf_eval.specs.Outcome.{fault};
ghost use Rattle.cf_eval.specs.Texts.{text_of};
ghost use Rattle.cf_eval.specs.declared.fault.EvalWhy.TheVariants.{WrongKind};
ghost use Rattle.cf_desired.specs.Kept.{IsBlameOf, blame_at, flaw_of_blame, prop_taken, text_found_as};
ghost use Rattle.cf_desired.specs.Seeing.{text_in};
ghost use Rattle.cf_desired.specs.Stack.{evaluated_in};
ghost use Rattle.cf_eval.specs.Value.{props_of};

use crate::flaw::Flaw;
use crate::props::Props;
use crate::wanted::Evaluated;
use cf_eval::{Env, EvalFault, EvalWhy, Got, eval};
use cf_tree::{Expr, ExprDict, Txt, Val};
use std::alloc::{AllocError, Global};

/// Why an evaluation failed, in the stack at a path, at a place of its template.
#[derive(Drop)]
pub(crate) struct Blame {
    pub why: EvalWhy,
    pub stack: Txt,
    pub at: Txt,
}

/// What an expression that is wanted as a text comes to.
#[derive(Drop)]
pub(crate) enum TextFound {
    Text { text: Txt },
    /// It rests on something that is not known yet.
    Later,
    Bad { blame: Blame },
}

/// What properties come to, one by one: a property that is `AWS::NoValue` is left out, and the first fault is the answer.
#[tactic(auto, using(crate::proofs::Properties::props_in_order, crate::proofs::Ordered::left_in_order))]
pub(crate) fn properties(
    alloc: Global,
    props: &ExprDict,
    env: &Env,
) -> Result<Evaluated, AllocError>
    ensures { IfOk result (λ e. e ≡ evaluated_in env.now.stack.now (props_of (scope_in env.now) props.now)) }
{
    let mut known = Props::new(alloc);
    for prop in props.as_slice() {
        match eval(alloc, &prop.value, env) {
            Ok(got) => add_prop(&mut known, prop.name.try_clone(alloc)?, got)?,
            Err(fault) => {
                return Ok(Evaluated::Flawed {
                    flaw: flaw_by(blame_of(fault)?),
                });
            }
        }
    }
    Ok(Evaluated::Known { props: known })
}

/// Adds a property, as it was evaluated, whose name is above the others.
#[tactic(auto, using(crate::proofs::Ordered::same_names))]
fn add_prop(known: &mut Props, name: Txt, got: Got) -> Result<(), AllocError>
    requires { IsTrue (ascends (known.old ++ (name, None) ∷ [])) }
    ensures { IfOk result (λ _. known.new ≡ known.old ++ prop_taken name got) }
{
    match got {
        Got::Value(value) => known.push(name, Some(value)),
        Got::NoValue => Ok(()),
        Got::Later => known.push(name, None),
    }
}

/// What an expression comes to that is wanted as a text.
pub(crate) fn text_wanted(alloc: Global, expr: &Expr, env: &Env) -> Result<TextFound, AllocError>
    ensures { IfOk result (λ t. t ≡ text_found_as env.now.stack.now (text_in (scope_in env.now) expr.now)) }
{
    match eval(alloc, expr, env) {
        Ok(Got::Value(value)) => match text_of(alloc, value)? {
            Some(text) => Ok(TextFound::Text { text }),
            None => Ok(TextFound::Bad {
                blame: wrong_kind(alloc, env.stack, expr.at())?,
            }),
        },
        Ok(Got::NoValue) => Ok(TextFound::Bad {
            blame: wrong_kind(alloc, env.stack, expr.at())?,
        }),
        Ok(Got::Later) => Ok(TextFound::Later),
        Err(fault) => Ok(TextFound::Bad {
            blame: blame_of(fault)?,
        }),
    }
}

/// A value of another kind was wanted at a place.
pub(crate) fn wrong_kind(alloc: Global, stack: &Txt, at: &Txt) -> Result<Blame, AllocError>
    ensures { IfOk result (λ b. b ≡ blame_at stack.now (fault WrongKind at.now)) }
{
    Ok(Blame {
        why: EvalWhy::WrongKind,
        stack: stack.try_clone(alloc)?,
        at: at.try_clone(alloc)?,
    })
}

/// Why an evaluation failed, by its fault.
pub(crate) fn blame_of(fault: EvalFault) -> Result<Blame, AllocError>
    ensures { IfOk result (IsBlameOf fault) }
{
    match fault {
        EvalFault::Bad { why, stack, at } => Ok(Blame { why, stack, at }),
        EvalFault::NoMemory => Err(AllocError),
    }
}

/// The flaw that an evaluation failed.
pub(crate) fn flaw_by(blame: Blame) -> Flaw
    ensures { result ≡ flaw_of_blame blame }
{
    Flaw::Eval {
        why: blame.why,
        stack: blame.stack,
        at: blame.at,
    }
}

/// The flaw that an evaluation failed, where it did.
pub(crate) fn some_flaw_by(blame: Option<Blame>) -> Option<Flaw>
    ensures { result ≡ option_map flaw_of_blame blame }
{
    match blame {
        Some(blame) => Some(flaw_by(blame)),
        None => None,
    }
}

/// A value as a text, where it is a text, a whole number or a truth value.
pub(crate) fn text_of(alloc: Global, value: Val) -> Result<Option<Txt>, AllocError>
    ensures { IfOk result (λ o. o ≡ text_of (datum_of value)) }
{
    match value {
        Val::Text(text) => Ok(Some(text)),
        Val::Whole(number) => Ok(Some(Txt::new(number.to_string(alloc)?))),
        Val::Truth(true) => Ok(Some(Txt::from_str(alloc, "true")?)),
        Val::Truth(false) => Ok(Some(Txt::from_str(alloc, "false")?)),
        Val::List(_) => Ok(None),
        Val::Dict(_) => Ok(None),
    }
}
