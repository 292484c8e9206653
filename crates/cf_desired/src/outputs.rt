//! The outputs of a stack.
ghost use Rattle.std.specs.Prelude.{◌≡◌, IfOk, filter, map, not, option_map};
ghost use Rattle.std.specs.List.{flat_map};
ghost use Rattle.std.specs.Option.{option_or};
ghost use Rattle.cf_eval.specs.Env.{scope_in};
ghost use Rattle.cf_desired.specs.Kept.{blame_at, kept_stack_in};
ghost use Rattle.cf_desired.specs.Met.{exporting_in, output_at, outputs_wanted};
ghost use Rattle.cf_desired.specs.Plan.{exported};
ghost use Rattle.cf_desired.specs.Seeing.{by_names, export_stop, is_output_made, output_sights, output_stop, sight_of_output, text_in, text_known, unnamed_output};
ghost use Rattle.cf_desired.specs.Stack.{stop_in};
ghost use Rattle.cf_desired.specs.Turns.{unmade_of};

use crate::evaluations::{Blame, TextFound, some_flaw_by, text_wanted, wrong_kind};
use crate::members::is_declared;
use crate::names::{output_attribute, output_place};
use crate::shape::Stack;
use crate::wanted::{Exporting, WantedOutput};
use cf_eval::{Env, EvalWhy, OutputSight};
use cf_tree::{ByName, CondMap, Listing, Names, Out, TryClone, Txt, Verdict};
use std::alloc::{AllocError, Global};

/// The outputs whose condition isn't false.
pub(crate) fn outputs_over(
    alloc: Global,
    stack: &Stack,
    conds: &CondMap,
    env: &Env,
) -> Result<Listing<WantedOutput>, AllocError>
    requires stack { env.now.stack.now ≡ stack.now.path }
    ensures { IfOk result (λ outputs. outputs ≡ outputs_wanted (kept_stack_in stack.now) conds.now (scope_in env.now)) }
{
    let mut outputs = Listing::new(alloc);
    for output in stack.template.outputs.as_slice() {
        if is_output_made(conds, output) {
            outputs.push(output_over(alloc, conds, env, output)?)?;
        }
    }
    Ok(outputs)
}

/// Whether an output has no condition, or one that is not false.
fn is_output_made(conds: &CondMap, output: &Out) -> bool
    ensures { result ≡ is_output_made conds.now output.now }
{
    match &output.condition {
        Some(name) => !matches!(conds.get(name.as_str()), Some(Verdict::False)),
        None => true,
    }
}

/// The names of the outputs whose condition is false.
pub(crate) fn unmade(alloc: Global, stack: &Stack, conds: &CondMap) -> Result<Names, AllocError>
    ensures { IfOk result (λ names. names ≡ unmade_of (kept_stack_in stack.now) conds.now) }
{
    let mut names = Names::new(alloc);
    for output in stack.template.outputs.as_slice() {
        if !is_output_made(conds, output) {
            names.push(output.name.try_clone(alloc)?)?;
        }
    }
    Ok(names)
}

/// What is seen of the outputs of a stack, under the attributes that name them. Of outputs of one name the first counts.
pub(crate) fn output_sights(
    alloc: Global,
    stack: &Stack,
    conds: &CondMap,
    env: &Env,
) -> Result<ByName<OutputSight>, AllocError>
    requires stack { env.now.stack.now ≡ stack.now.path }
    ensures { IfOk result (λ seen. seen ≡ by_names (output_sights (kept_stack_in stack.now) conds.now (scope_in env.now))) }
{
    let outputs = stack.template.outputs.as_slice();
    let mut seen = ByName::new(alloc);
    let mut at = outputs.len();
    while at > 0 {
        at -= 1;
        let output = &outputs[at];
        let sight = output_sight(alloc, conds, env, output)?;
        seen.insert(output_attribute(alloc, &output.name)?, sight)?;
    }
    Ok(seen)
}

/// What is seen of an output.
#[tactic(auto, using(crate::proofs::Blames::made_sight))]
fn output_sight(
    alloc: Global,
    conds: &CondMap,
    env: &Env,
    output: &Out,
) -> Result<OutputSight, AllocError>
    ensures { IfOk result (λ sight. sight ≡ sight_of_output env.now.stack.now conds.now (scope_in env.now) output.now) }
{
    if !is_output_made(conds, output) {
        return Ok(OutputSight::NotMade);
    }
    let OutputFound {
        value,
        export: _,
        blame,
    } = output_told(alloc, conds, env, output)?;
    match blame {
        Some(blame) => Ok(OutputSight::Broken {
            why: blame.why,
            stack: blame.stack,
            at: blame.at,
        }),
        None => Ok(OutputSight::Made { value }),
    }
}

/// What is wanted of an output.
#[tactic(auto, using(crate::proofs::Blames::some_blamed))]
fn output_over(
    alloc: Global,
    conds: &CondMap,
    env: &Env,
    output: &Out,
) -> Result<WantedOutput, AllocError>
    ensures { IfOk result (λ o. o ≡ output_at env.now.stack.now conds.now (scope_in env.now) output.now) }
{
    let name = output.name.try_clone(alloc)?;
    let OutputFound {
        value,
        export,
        blame,
    } = output_told(alloc, conds, env, output)?;
    Ok(WantedOutput {
        name,
        value,
        export,
        fault: some_flaw_by(blame),
    })
}

/// What an output comes to.
#[derive(Drop)]
struct OutputFound {
    value: Option<Txt>,
    export: Exporting,
    blame: Option<Blame>,
}

/// What an output comes to. Of its faults that of its condition comes first, then that of its export, then that of its value.
#[tactic(auto, using(crate::proofs::Blames::first_blamed))]
fn output_told(
    alloc: Global,
    conds: &CondMap,
    env: &Env,
    output: &Out,
) -> Result<OutputFound, AllocError>
    ensures value { IfOk result (λ r. r.value ≡ text_known (text_in (scope_in env.now) output.now.value)) }
    ensures export { IfOk result (λ r. r.export ≡ exporting_in (scope_in env.now) output.now.export) }
    ensures blame { IfOk result (λ r. r.blame ≡ option_map (blame_at env.now.stack.now) (output_stop conds.now (scope_in env.now) output.now)) }
{
    let undeclared = condition_blame(alloc, conds, env.stack, output)?;
    let exported = export_told(alloc, output, env)?;
    let known = value_told(alloc, output, env)?;
    Ok(OutputFound {
        value: known.value,
        export: exported.export,
        blame: undeclared.or(exported.blame.or(known.blame)),
    })
}

/// What is to blame where the condition of an output is not declared.
fn condition_blame(
    alloc: Global,
    conds: &CondMap,
    stack: &Txt,
    output: &Out,
) -> Result<Option<Blame>, AllocError>
    ensures { IfOk result (λ b. b ≡ option_map (blame_at stack.now) (unnamed_output conds.now output.now)) }
{
    if is_declared(conds, &output.condition) {
        return Ok(None);
    }
    Ok(Some(Blame {
        why: EvalWhy::UnknownName,
        stack: stack.try_clone(alloc)?,
        at: output_place(alloc, &output.name)?,
    }))
}

/// The name that an output is exported by, and what is to blame where that is at fault.
#[derive(Drop)]
struct ExportFound {
    export: Exporting,
    blame: Option<Blame>,
}

/// The name that an output is exported by, which may not be Later.
fn export_told(alloc: Global, output: &Out, env: &Env) -> Result<ExportFound, AllocError>
    ensures export { IfOk result (λ r. r.export ≡ exporting_in (scope_in env.now) output.now.export) }
    ensures blame { IfOk result (λ r. r.blame ≡ option_map (blame_at env.now.stack.now) (export_stop (scope_in env.now) output.now.export)) }
{
    let Some(expr) = &output.export else {
        return Ok(ExportFound {
            export: Exporting::Nothing,
            blame: None,
        });
    };
    match text_wanted(alloc, expr, env)? {
        TextFound::Text { text } => Ok(ExportFound {
            export: Exporting::Named { name: text },
            blame: None,
        }),
        TextFound::Later => Ok(ExportFound {
            export: Exporting::Fault,
            blame: Some(wrong_kind(alloc, env.stack, expr.at())?),
        }),
        TextFound::Bad { blame } => Ok(ExportFound {
            export: Exporting::Fault,
            blame: Some(blame),
        }),
    }
}

/// The value of an output, where it is known, and what is to blame where it is at fault.
#[derive(Drop)]
struct ValueFound {
    value: Option<Txt>,
    blame: Option<Blame>,
}

fn value_told(alloc: Global, output: &Out, env: &Env) -> Result<ValueFound, AllocError>
    ensures value { IfOk result (λ r. r.value ≡ text_known (text_in (scope_in env.now) output.now.value)) }
    ensures blame { IfOk result (λ r. r.blame ≡ option_map (blame_at env.now.stack.now) (stop_in (text_in (scope_in env.now) output.now.value))) }
{
    match text_wanted(alloc, &output.value, env)? {
        TextFound::Text { text } => Ok(ValueFound {
            value: Some(text),
            blame: None,
        }),
        TextFound::Later => Ok(ValueFound {
            value: None,
            blame: None,
        }),
        TextFound::Bad { blame } => Ok(ValueFound {
            value: None,
            blame: Some(blame),
        }),
    }
}

/// The exports of outputs with their values.
pub(crate) fn exports(
    alloc: Global,
    outputs: &[WantedOutput],
) -> Result<Listing<(Txt, Option<Txt>)>, AllocError>
    ensures { IfOk result (λ es. es ≡ flat_map exported outputs.now) }
{
    let mut exports = Listing::new(alloc);
    for output in outputs {
        if let Exporting::Named { name } = &output.export {
            exports.push((name.try_clone(alloc)?, output.value.try_clone(alloc)?))?;
        }
    }
    Ok(exports)
}
