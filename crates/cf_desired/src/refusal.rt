//! What a source wants, as one answer.
ghost use Rattle.std.specs.Prelude.{◌≡◌, IfOk, option_map};
ghost use Rattle.cf_tree.specs.Lists.{first_in};
ghost use Rattle.cf_desired.specs.Desired.{Desires, desired_of, fault_of};
ghost use Rattle.cf_desired.specs.Templates.{templates_of};

use crate::flaw::Flaw;
use crate::seen::Seen;
use crate::templates::Templates;
use crate::values::plan;
use crate::wanted::Plan;
use cf_eval::EvalFault;
use cf_graph::GraphFault;
use cf_param::BindFault;
use cf_tree::{Source, TryClone, Txt};
use std::alloc::{AllocError, Global};

/// A plan without a flaw.
pub type Desired = Plan;

/// Why a source has no plan without a flaw: its first flaw. A path is that of a nested stack or of a resource, empty for the
/// root.
#[derive(Drop)]
pub enum DesiredFault {
    /// The parameters of the stack at a path can't be bound.
    Bind { at: Txt, fault: BindFault },
    /// An expression is at fault.
    Eval { fault: EvalFault },
    /// The resources of the stack at a path have no order of work.
    Graph { at: Txt, fault: GraphFault },
    /// The stack resource at a path has a property too many, or lacks its template's name.
    Shape { path: Txt },
    /// The library has no template of the name.
    TemplateMissing { name: Txt },
    /// The nested stack at a path lies too deep.
    TooDeep { path: Txt },
    /// There are so many templates, or so many resources in all of them.
    TooMany { count: u64 },
    /// A condition of the stack at a path rests on what is not known yet.
    DynamicCondition { path: Txt, name: Txt },
    /// The template of the nested stack at a path rests on what is not known yet.
    DynamicTemplate { path: Txt },
    /// There was no memory.
    NoMemory,
}

/// What a source wants of each path, over what is seen: its plan, in which a property, an output or an export may not be known
/// yet.
///
/// # Errors
///
/// The first flaw exactly where there is one, in this order: of the parameters, the conditions, the order of work, the
/// resources in that order, a nested stack in its place by the same order, the outputs. `NoMemory` may come anywhere.
pub fn desired(
    alloc: Global,
    source: &Source,
    templates: &Templates,
    seen: &Seen,
) -> Result<Desired, DesiredFault>
    requires templates { templates.now ≡ templates_of source.now }
    ensures { Desires (desired_of source.now seen.now) result }
{
    let Ok(plan) = plan(alloc, source, templates, seen) else {
        return Err(DesiredFault::NoMemory);
    };
    match first_fault(alloc, plan.flaws.as_slice()) {
        Ok(None) => Ok(plan),
        Ok(Some(fault)) => Err(fault),
        Err(_) => Err(DesiredFault::NoMemory),
    }
}

/// The first of flaws, as a refusal.
fn first_fault(alloc: Global, flaws: &[Flaw]) -> Result<Option<DesiredFault>, AllocError>
    ensures { IfOk result (λ f. f ≡ option_map fault_of (first_in flaws.now)) }
{
    match flaws.first() {
        Some(flaw) => Ok(Some(fault_of(flaw.try_clone(alloc)?))),
        None => Ok(None),
    }
}

/// A flaw as a refusal.
fn fault_of(flaw: Flaw) -> DesiredFault
    ensures { result ≡ fault_of flaw }
{
    match flaw {
        Flaw::Bind { at, fault } => DesiredFault::Bind { at, fault },
        Flaw::Eval { why, stack, at } => DesiredFault::Eval {
            fault: EvalFault::Bad { why, stack, at },
        },
        Flaw::Graph { at, fault } => DesiredFault::Graph { at, fault },
        Flaw::Shape { path } => DesiredFault::Shape { path },
        Flaw::TemplateMissing { name } => DesiredFault::TemplateMissing { name },
        Flaw::TooDeep { path } => DesiredFault::TooDeep { path },
        Flaw::TooMany { count } => DesiredFault::TooMany { count },
        Flaw::DynamicCondition { path, name } => DesiredFault::DynamicCondition { path, name },
        Flaw::DynamicTemplate { path } => DesiredFault::DynamicTemplate { path },
    }
}
