//! The order of work of a template.
ghost use Rattle.std.specs.Prelude.{◌≡◌};
ghost use Rattle.cf_graph.specs.Needs.{all_needs, cycle_of, needs_of, order_of};
ghost use Rattle.cf_graph.specs.Orders.{Orders};

use crate::before::needs_first;
use crate::cycle::cycle_of;
use crate::fault::GraphFault;
use crate::needs::needs_of_each;
use crate::sequence::{Needs, in_order};
use crate::unknown::unknown_dependency;
use cf_tree::{CondMap, Names, Template, Txt};
use std::alloc::Global;

/// Each resource of a template that is made, with those that it needs in the order of the template. Each stands behind all
/// that it needs; of those that could come next the first in the template comes first.
///
/// `conds` has the outcome of each condition of the template: a resource whose condition is false is not made, and of
/// `Fn::If` only the branch counts that is taken.
///
/// It takes time in proportion to what the resources refer to, times the logarithm of how many there are. Only where there is a
/// cycle does the search for it take more: at most the number of resources squared, times their needs, times a logarithm.
///
/// # Errors
/// `UnknownDependency` where a `DependsOn` names what is not declared: the first by resource, and then in its list.
/// `Circular` where there is no such name, but a resource that needs itself, or what needs it. `NoMemory` where there was none.
pub fn order(alloc: Global, template: &Template, conds: &CondMap) -> Result<Needs, GraphFault>
    ensures { Orders (needs_of template.now conds.now) result }
{
    if let Some((from, name)) = unknown_dependency(alloc, template)? {
        return Err(GraphFault::UnknownDependency { from, name });
    }
    let all = needs_of_each(alloc, template, conds)?;
    order_of(alloc, all.as_slice())
}

/// The order of work over what each resource needs.
fn order_of(alloc: Global, all: &[(Txt, Names)]) -> Result<Needs, GraphFault>
    ensures { Orders (order_of all.now (cycle_of all.now)) result }
{
    let needs = in_order(alloc, all)?;
    // Where each stands behind its needs, no search for a cycle is wanted.
    if needs_first(&needs, all) {
        return Ok(needs);
    }
    match cycle_of(alloc, all)? {
        Some(cycle) => Err(GraphFault::Circular { cycle }),
        None => Ok(needs),
    }
}
