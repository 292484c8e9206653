//! What is known of the paths of an operation in its forward phase.
ghost use Rattle.std.specs.Prelude.{◌≡◌, IfOk, Some};
ghost use Rattle.cf_effect.specs.Findings.{AreFindings};
ghost use Rattle.cf_effect.specs.Layout.{IsLayoutOf};
ghost use Rattle.cf_plan.specs.Forward.{plan_now};
ghost use Rattle.cf_plan.specs.Overview.{IsOverview};
ghost use Rattle.cf_plan.specs.PathStates.{AreStatesOf};

use crate::done::done_by;
use crate::forward::Wants;
use crate::index::PlanIndex;
use crate::path_state::{PathState, are_enough, done_by_places};
use crate::starts::starts_over;
use crate::states::states_by;
use crate::stepping::{is_all_done, plan_now};
use cf_desired::Plan;
use cf_effect::PathIndex;
use cf_schema::Schemas;
use cf_stacks::{Findings, Held, Layout, StackState};
use cf_tree::ByName;
use std::alloc::{AllocError, Global};

/// What is known of the paths of an operation in its forward phase.
#[derive(Drop)]
pub enum Overview<'a> {
    /// Of each path, read off what its stack keeps; and by place which are done.
    Kept {
        states: Vec<PathState<'a>>,
        done: Vec<bool>,
    },
    /// What may begin and whether all is done, worked out anew.
    Anew {
        starts: ByName<Wants>,
        is_done: bool,
    },
}

/// What may begin and whether all is done, by what the source wants over the resources of now.
fn anew_by<'a>(
    alloc: Global,
    schemas: &Schemas,
    stack: &StackState,
    now: &PlanIndex,
    held: &PathIndex<Held>,
) -> Result<Overview<'a>, AllocError>
    requires now { now.now ≡ plan_now stack.now.stack }
    requires held { held.now ≡ stack.now.stack.held }
    ensures { IfOk result (λ o. IsOverview schemas.now stack.now.stack o) }
{
    let done = done_by(alloc, stack, now, now, held)?;
    let starts = starts_over(alloc, schemas, stack, now, now, held, &done)?;
    let is_done = is_all_done(stack, now, &done);
    Ok(Overview::Anew { starts, is_done })
}

/// What may begin and whether all is done, worked out anew.
fn anew<'a>(
    alloc: Global,
    schemas: &Schemas,
    stack: &StackState,
) -> Result<Overview<'a>, AllocError>
    ensures { IfOk result (λ o. IsOverview schemas.now stack.now.stack o) }
{
    let now = plan_now(alloc, stack)?;
    let overview = anew_over(alloc, schemas, stack, &now);
    drop(now);
    overview
}

/// The same, by what the source wants over the resources of now, in which paths are looked up, as in what is held.
fn anew_over<'a>(
    alloc: Global,
    schemas: &Schemas,
    stack: &StackState,
    now: &Plan,
) -> Result<Overview<'a>, AllocError>
    requires { now.now ≡ plan_now stack.now.stack }
    ensures { IfOk result (λ o. IsOverview schemas.now stack.now.stack o) }
{
    let now = PlanIndex::new(alloc, now)?;
    let held = PathIndex::new(alloc, stack.held().as_slice())?;
    anew_by(alloc, schemas, stack, &now, &held)
}

/// What is known of each path, where that is enough; else what may begin and whether all is done, worked out anew.
fn kept_or_anew<'a>(
    alloc: Global,
    schemas: &Schemas,
    stack: &StackState,
    states: Vec<PathState<'a>>,
) -> Result<Overview<'a>, AllocError>
    requires { AreStatesOf stack.now.stack states.items }
    ensures { IfOk result (λ o. IsOverview schemas.now stack.now.stack o) }
{
    let done = done_by_places(alloc, states.as_slice())?;
    if are_enough(done.as_slice(), states.as_slice()) {
        return Ok(Overview::Kept { states, done });
    }
    drop(states);
    drop(done);
    anew(alloc, schemas, stack)
}

/// What is known of the paths by what the stack keeps, where that is enough.
fn by_findings<'a>(
    alloc: Global,
    schemas: &Schemas,
    stack: &'a StackState,
    layout: &'a Layout,
    findings: &'a Findings,
) -> Result<Overview<'a>, AllocError>
    requires layout { IsLayoutOf stack.now.stack (Some layout.now) }
    requires findings { AreFindings stack.now.stack findings.now }
    ensures { IfOk result (λ o. IsOverview schemas.now stack.now.stack o) }
{
    let states = states_by(alloc, stack, layout, findings)?;
    kept_or_anew(alloc, schemas, stack, states)
}

/// What is known of the paths of an operation in its forward phase: read off what its stack keeps, where that is enough, in a
/// time in proportion to the paths and their needs; worked out anew where it is not.
///
/// # Errors
///
/// Only for want of memory.
pub fn overview_of<'a>(
    alloc: Global,
    schemas: &Schemas,
    stack: &'a StackState,
) -> Result<Overview<'a>, AllocError>
    ensures { IfOk result (λ o. IsOverview schemas.now stack.now.stack o) }
{
    match (stack.layout(), stack.findings()) {
        (Some(layout), Some(findings)) => by_findings(alloc, schemas, stack, layout, findings),
        _ => anew(alloc, schemas, stack),
    }
}
