//! A plan that is known as a whole.
ghost use Rattle.std.specs.Prelude.{◌≡◌, IfOk};
ghost use Rattle.cf_desired.specs.Whole.{all_of, known_of, right_export, right_of, right_output, whole_in};

use crate::wanted::{Evaluated, Exporting, Plan, Wanted, WantedOutput};
use cf_export::{Output, Outputs};
use cf_tree::{Deletion, Dict, Listing, Names, Replace, TryClone, Txt};
use std::alloc::{AllocError, Global};

/// A resource all of whose parts are known.
#[derive(Drop)]
pub struct Right {
    pub path: Txt,
    pub kind: Txt,
    pub deletion: Deletion,
    pub replace: Replace,
    /// The paths that it needs.
    pub needs: Names,
    pub props: Dict,
}

/// A plan without a flaw, of which nothing is not known yet.
#[derive(Drop)]
pub struct WholePlan {
    /// What is wanted of each path, in the order of work.
    pub wanted: Listing<Right>,
    pub outputs: Outputs,
    /// The exports with their values.
    pub exports: Listing<(Txt, Txt)>,
}

/// A plan as a whole; `None` where it has a flaw, or a property, an output or an export is not known yet.
///
/// # Errors
///
/// Only for want of memory.
pub fn whole(alloc: Global, plan: &Plan) -> Result<Option<WholePlan>, AllocError>
    ensures { IfOk result (λ whole. whole ≡ whole_in plan.now) }
{
    if !plan.flaws.is_empty() {
        return Ok(None);
    }
    let wanted = rights(alloc, plan.wanted.as_slice())?;
    let outputs = right_outputs(alloc, plan.outputs.as_slice())?;
    let exports = right_exports(alloc, plan.exports.as_slice())?;
    match (wanted, outputs, exports) {
        (Some(wanted), Some(outputs), Some(exports)) => Ok(Some(WholePlan {
            wanted,
            outputs,
            exports,
        })),
        _ => Ok(None),
    }
}

#[tactic(auto, using(crate::proofs::All::all_found, crate::proofs::All::one_missing))]
fn rights(alloc: Global, wanted: &[Wanted]) -> Result<Option<Listing<Right>>, AllocError>
    ensures { IfOk result (λ o. o ≡ all_of right_of wanted.now) }
{
    let mut rights = Listing::new(alloc);
    for one in wanted {
        match right_of(alloc, one)? {
            Some(right) => rights.push(right)?,
            None => return Ok(None),
        }
    }
    Ok(Some(rights))
}

/// A resource, where all of its properties are known.
fn right_of(alloc: Global, wanted: &Wanted) -> Result<Option<Right>, AllocError>
    ensures { IfOk result (λ o. o ≡ right_of wanted.now) }
{
    match known_of(alloc, &wanted.props)? {
        Some(props) => Ok(Some(Right {
            path: wanted.path.try_clone(alloc)?,
            kind: wanted.kind.try_clone(alloc)?,
            deletion: wanted.deletion,
            replace: wanted.replace,
            needs: wanted.needs.try_clone(alloc)?,
            props,
        })),
        None => Ok(None),
    }
}

/// Properties, where they are without fault and all known.
fn known_of(alloc: Global, props: &Evaluated) -> Result<Option<Dict>, AllocError>
    ensures { IfOk result (λ o. o ≡ known_of props.now) }
{
    match props {
        Evaluated::Known { props } => props.known(alloc),
        Evaluated::Flawed { flaw: _ } => Ok(None),
    }
}

#[tactic(auto, using(crate::proofs::All::all_found, crate::proofs::All::one_missing))]
fn right_outputs(alloc: Global, outputs: &[WantedOutput]) -> Result<Option<Outputs>, AllocError>
    ensures { IfOk result (λ o. o ≡ all_of right_output outputs.now) }
{
    let mut rights = Outputs::new(alloc);
    for output in outputs {
        match right_output(alloc, output)? {
            Some(right) => rights.push(right)?,
            None => return Ok(None),
        }
    }
    Ok(Some(rights))
}

/// An output, where its value and the name that it is exported by are known.
fn right_output(alloc: Global, output: &WantedOutput) -> Result<Option<Output>, AllocError>
    ensures { IfOk result (λ o. o ≡ right_output output.now) }
{
    let Some(value) = &output.value else {
        return Ok(None);
    };
    let export = match &output.export {
        Exporting::Nothing => None,
        Exporting::Named { name } => Some(name.try_clone(alloc)?),
        Exporting::Fault => return Ok(None),
    };
    Ok(Some(Output {
        name: output.name.try_clone(alloc)?,
        value: value.try_clone(alloc)?,
        export,
    }))
}

#[tactic(auto, using(crate::proofs::All::all_found, crate::proofs::All::one_missing))]
fn right_exports(
    alloc: Global,
    exports: &[(Txt, Option<Txt>)],
) -> Result<Option<Listing<(Txt, Txt)>>, AllocError>
    ensures { IfOk result (λ o. o ≡ all_of right_export exports.now) }
{
    let mut rights = Listing::new(alloc);
    for export in exports {
        match &export.1 {
            Some(value) => rights.push((export.0.try_clone(alloc)?, value.try_clone(alloc)?))?,
            None => return Ok(None),
        }
    }
    Ok(Some(rights))
}
