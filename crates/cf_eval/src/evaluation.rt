//! The evaluation of expressions.
ghost use Rattle.std.specs.Prelude.{◌≡◌};
ghost use Rattle.std.specs.Option.{option_copied};
ghost use Rattle.cf_eval.specs.Env.{scope_in, Evaluates, IsStoppedBy};
ghost use Rattle.cf_eval.specs.Knows.{ValuesStay};
ghost use Rattle.cf_eval.specs.ScopeOf.{scope_of};
ghost use Rattle.cf_eval.specs.Value.{value_of, value_within};

use crate::env::Env;
use crate::fault::{EvalFault, EvalWhy, Stop};
use crate::got::Got;
use crate::scope::{Beyond, Scope};
use crate::value::value;
use cf_tree::{Expr, Txt};
use std::alloc::Global;

/// What an expression comes to.
///
/// Parts are evaluated from first to last. The first fault among them is the answer; else, where
/// one of them is Later, the whole is.
///
/// # Errors
///
/// `Bad` exactly where the expression has a fault, with the first one: why, the path of the nested
/// stack, and the place of the innermost function around it, or of the value where there is none.
/// `NoMemory`, where there is no memory for the value.
pub fn eval(alloc: Global, expr: &Expr, env: &Env) -> Result<Got, EvalFault>
    ensures { Evaluates env.now.stack.now (value_of (scope_in env.now) expr.now) result }
{
    eval_within(alloc, None, expr, env)
}

/// What an expression comes to that stands in a function at the place `around`, where there is one: a fault of a value that
/// stands in no function of the expression itself is blamed on that one.
///
/// # Errors
///
/// As `eval`.
#[tactic(auto, using(crate::proofs::Refusing::is_refused))]
pub fn eval_within(
    alloc: Global,
    around: Option<&Txt>,
    expr: &Expr,
    env: &Env,
) -> Result<Got, EvalFault>
    ensures { Evaluates env.now.stack.now (value_within (scope_in env.now) (option_copied around.entry) expr.now) result }
{
    let scope = open_scope(env);
    match value(alloc, &scope, around, expr) {
        Ok(got) => Ok(got),
        Err(stop) => Err(fault_by(alloc, env.stack, stop)),
    }
}

fn open_scope<'a>(env: &'a Env) -> Scope<'a>
    ensures { scope_of result ≡ scope_in env.now }
{
    Scope {
        params: env.bound,
        mappings: env.mappings,
        pseudo: env.pseudo,
        conds: env.conds,
        beyond: Beyond::Open {
            seen: env.seen,
            imports: env.imports,
        },
    }
}

/// Why an evaluation stopped, as a fault of the nested stack at a path. A condition that is asked
/// for and not decided is not declared.
pub(crate) fn fault_by(alloc: Global, stack: &Txt, stop: Stop) -> EvalFault
    ensures { IsStoppedBy stack.now stop result }
{
    let Ok(stack) = stack.try_clone(alloc) else {
        return EvalFault::NoMemory;
    };
    match stop {
        Stop::Bad { why, at } => EvalFault::Bad { why, stack, at },
        Stop::Below {
            why,
            stack: from,
            at,
        } => EvalFault::Bad {
            why,
            stack: from,
            at,
        },
        Stop::Undecided { name: _, at } => EvalFault::Bad {
            why: EvalWhy::UnknownName,
            stack,
            at,
        },
        Stop::NoMemory => EvalFault::NoMemory,
    }
}

/// Knowing more never changes what was known.
///
/// Where a scope that agrees, and in which something is bound, seen or decided that was
/// Later, is put in place of another one, a value or `NoValue` stays the same. Where conditions and
/// nested outputs that were at fault are so still, a fault stays a fault, unless it rests on an
/// import whose name was Later. It does nothing when it runs.
pub fn known_stays()
    ensures { ValuesStay }
{}
