//! Copies of flaws.
ghost use Rattle.std.specs.Prelude.{◌≡◌, IfOk};

use crate::flaw::Flaw;
use cf_graph::GraphFault;
use cf_param::BindFault;
use cf_tree::TryClone;
use std::alloc::{AllocError, Global};

impl TryClone for Flaw {
    fn try_clone(&self, alloc: Global) -> Result<Flaw, AllocError> {
        match self {
            Flaw::Bind { at, fault } => Ok(Flaw::Bind {
                at: at.try_clone(alloc)?,
                fault: bind_fault(alloc, fault)?,
            }),
            Flaw::Eval { why, stack, at } => Ok(Flaw::Eval {
                why: *why,
                stack: stack.try_clone(alloc)?,
                at: at.try_clone(alloc)?,
            }),
            Flaw::Graph { at, fault } => Ok(Flaw::Graph {
                at: at.try_clone(alloc)?,
                fault: graph_fault(alloc, fault)?,
            }),
            Flaw::Shape { path } => Ok(Flaw::Shape {
                path: path.try_clone(alloc)?,
            }),
            Flaw::TemplateMissing { name } => Ok(Flaw::TemplateMissing {
                name: name.try_clone(alloc)?,
            }),
            Flaw::TooDeep { path } => Ok(Flaw::TooDeep {
                path: path.try_clone(alloc)?,
            }),
            Flaw::TooMany { count } => Ok(Flaw::TooMany { count: *count }),
            Flaw::DynamicCondition { path, name } => Ok(Flaw::DynamicCondition {
                path: path.try_clone(alloc)?,
                name: name.try_clone(alloc)?,
            }),
            Flaw::DynamicTemplate { path } => Ok(Flaw::DynamicTemplate {
                path: path.try_clone(alloc)?,
            }),
        }
    }
}

/// A copy of why parameters can't be bound.
pub(crate) fn bind_fault(alloc: Global, fault: &BindFault) -> Result<BindFault, AllocError>
    ensures { IfOk result (λ f. f ≡ fault.now) }
{
    match fault {
        BindFault::Undeclared { name } => Ok(BindFault::Undeclared {
            name: name.try_clone(alloc)?,
        }),
        BindFault::Missing { name } => Ok(BindFault::Missing {
            name: name.try_clone(alloc)?,
        }),
        BindFault::NotANumber { name } => Ok(BindFault::NotANumber {
            name: name.try_clone(alloc)?,
        }),
        BindFault::TooShort { name } => Ok(BindFault::TooShort {
            name: name.try_clone(alloc)?,
        }),
        BindFault::TooLong { name } => Ok(BindFault::TooLong {
            name: name.try_clone(alloc)?,
        }),
        BindFault::TooSmall { name } => Ok(BindFault::TooSmall {
            name: name.try_clone(alloc)?,
        }),
        BindFault::TooLarge { name } => Ok(BindFault::TooLarge {
            name: name.try_clone(alloc)?,
        }),
        BindFault::NotAllowed { name } => Ok(BindFault::NotAllowed {
            name: name.try_clone(alloc)?,
        }),
        BindFault::NoMatch { name } => Ok(BindFault::NoMatch {
            name: name.try_clone(alloc)?,
        }),
        BindFault::BadPattern { name } => Ok(BindFault::BadPattern {
            name: name.try_clone(alloc)?,
        }),
        BindFault::NoMemory => Ok(BindFault::NoMemory),
    }
}

fn graph_fault(alloc: Global, fault: &GraphFault) -> Result<GraphFault, AllocError>
    ensures { IfOk result (λ f. f ≡ fault.now) }
{
    match fault {
        GraphFault::Circular { cycle } => Ok(GraphFault::Circular {
            cycle: cycle.try_clone(alloc)?,
        }),
        GraphFault::UnknownDependency { from, name } => Ok(GraphFault::UnknownDependency {
            from: from.try_clone(alloc)?,
            name: name.try_clone(alloc)?,
        }),
        GraphFault::NoMemory => Ok(GraphFault::NoMemory),
    }
}
