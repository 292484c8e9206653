//! What the source of an operation wants, and the requests that may begin in its forward phase.
ghost use Rattle.std.specs.Prelude.{◌≡◌, ◌↔◌, ◌++◌, [], IfOk, IsTrue, false};
ghost use Rattle.cf_tree.specs.Keys.{ascends};
ghost use Rattle.cf_desired.specs.Plan.{no_plan};
ghost use Rattle.cf_effect.specs.Begin.{seen_in};
ghost use Rattle.cf_plan.specs.Forward.{AllDone, plan_before, plan_in, plan_now};
ghost use Rattle.cf_plan.specs.Done.{AreDone, HasTerms};
ghost use Rattle.cf_plan.specs.Asked.{request_of};
ghost use Rattle.cf_plan.specs.Starts.{start_of, starts_at, starts_in};

use crate::cause::are_all_done;
use crate::forward::Wants;
use crate::index::{NameIndex, PlanIndex};
use crate::start::{Ask, Start, Starts};
use cf_desired::{Plan, Seen, plan_by};
use cf_stacks::{StackState, seen_in};
use cf_tree::{ByName, Listing, Names, Request, Txt};
use std::alloc::{AllocError, Global};

/// The plan of no source.
fn no_plan(alloc: Global) -> Plan
    ensures { result ≡ no_plan 0 0 [] }
{
    Plan {
        wanted: Listing::new(alloc),
        outputs: Listing::new(alloc),
        nested: Listing::new(alloc),
        unmade: Names::new(alloc),
        exports: Listing::new(alloc),
        flaws: Listing::new(alloc),
        templates: 0,
        members: 0,
    }
}

/// What the source of a stack's operation wants over what is seen, by the shape that it has over what was held before.
fn plan_over(alloc: Global, stack: &StackState, seen: &Seen) -> Result<Plan, AllocError>
    ensures { IfOk result (λ plan. plan ≡ plan_in stack.now.stack.going (seen_in stack.now.stack.before) seen.now) }
{
    match stack.outset() {
        Some(outset) => plan_by(alloc, outset.source(), outset.shape(), seen),
        None => Ok(no_plan(alloc)),
    }
}

/// What the source of a stack's operation wants over what was held before.
pub fn plan_before(alloc: Global, stack: &StackState) -> Result<Plan, AllocError>
    ensures { IfOk result (λ plan. plan ≡ plan_before stack.now.stack) }
{
    let seen = seen_in(alloc, stack.before())?;
    plan_over(alloc, stack, &seen)
}

/// What it wants over the resources of now.
pub fn plan_now(alloc: Global, stack: &StackState) -> Result<Plan, AllocError>
    ensures { IfOk result (λ plan. plan ≡ plan_now stack.now.stack) }
{
    let seen = stack.seen_now(alloc)?;
    plan_over(alloc, stack, &seen)
}

/// Adds a request, where there is one. After an error nothing is said of the list.
fn push_start<'a>(
    list: &mut Starts<'a>,
    path: &'a Txt,
    request: &'a Option<Request>,
) -> Result<(), AllocError>
    ensures { IfOk result (λ _. list.new ≡ list.old ++ start_of path.now request.now) }
{
    match request {
        Some(request) => list.push(Start::new(path, asked(request))),
        None => Ok(()),
    }
}

/// A request, by what it borrows.
fn asked(request: &Request) -> Ask<'_>
    ensures { request_of result ≡ request.now }
{
    match request {
        Request::Create { kind, props } => Ask::Create { kind, props },
        Request::Update { physical, props } => Ask::Update { physical, props },
        Request::Delete { physical } => Ask::Delete { physical },
    }
}

/// Adds what a path wants. After an error nothing is said of the list.
fn push_starts<'a>(list: &mut Starts<'a>, entry: &'a (Txt, Wants)) -> Result<(), AllocError>
    ensures { IfOk result (λ _. list.new ≡ list.old ++ starts_at entry.now) }
{
    push_start(list, &entry.0, &entry.1.create)?;
    push_start(list, &entry.0, &entry.1.update)
}

/// All that paths want, with the paths.
pub(crate) fn listed<'a>(alloc: Global, starts: &'a ByName<Wants>) -> Result<Starts<'a>, AllocError>
    ensures { IfOk result (λ list. (list ≡ starts_in starts.now) × IsTrue (ascends starts.now)) }
{
    let mut list = Starts::new(alloc);
    for entry in starts.as_slice() {
        push_starts(&mut list, entry)?;
    }
    Ok(list)
}

/// Whether all paths of the operation's template are done.
pub(crate) fn is_all_done(stack: &StackState, terms: &PlanIndex, done: &NameIndex) -> bool
    requires terms { HasTerms stack.now.stack terms.now }
    requires done { AreDone stack.now.stack done.now }
    ensures { IsTrue result ↔ AllDone stack.now.stack }
{
    are_all_done(terms, done)
}

/// Whether a stack is nested in the one that the operation's source describes; it takes a few instructions for each of its resources.
pub fn has_nested(stack: &StackState) -> bool
    ensures { result ≡ false → (plan_now stack.now.stack).nested ≡ [] }
{
    match stack.outset() {
        Some(outset) => cf_desired::has_nested(outset.shape()),
        None => false,
    }
}
