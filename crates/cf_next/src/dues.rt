//! All steps that are due, from what the operation has to offer.
ghost use Rattle.std.specs.Prelude.{◌≡◌, ◌≤◌, ◌+◌, [], Some, false, fold, length, insert, IfOk};
ghost use Rattle.std.specs.List.{list_any};
ghost use Rattle.cf_tree.specs.Lists.{insert_by};
ghost use Rattle.cf_effect.specs.Words.{is_create};
ghost use Rattle.cf_plan.specs.Asked.{request_of};
ghost use Rattle.cf_next.specs.declared.step.Next.TheVariants as next;
ghost use Rattle.cf_next.specs.Joining.{begun_by, goes_last, is_same_step, stays, with_new_call, with_call_on, with_calls_on, with_create, with_due, with_keeping, with_last, with_repeat, with_offered, with_step};

use crate::home::{has_home, is_home_for};
use crate::offer::{Keeping, Offer};
use crate::step::{Next, is_same_step, is_step_before};
use cf_plan::{Ask, Start};
use cf_stacks::{Pending, World};
use cf_tree::{Listing, Request, TryClone, Txt};
use std::alloc::{AllocError, Global};

/// Steps, in the order of steps.
pub type Dues = Listing<Next>;

/// Whether a step keeps its place before one that joins.
fn stays(step: &Next, joining: &Next) -> bool
    ensures { result ≡ stays step.now joining.now }
{
    !is_step_before(joining, step)
}

/// Where a step joins others: after each that it does not precede.
#[tactic(auto, using(cf_tree::proofs::Joins::behind_next, cf_tree::proofs::Joins::behind_here, cf_tree::proofs::Joins::behind_all))]
fn place_for(dues: &[Next], due: &Next) -> usize
    ensures within { result ≤ length dues.now }
    ensures place { insert_by stays dues.now due.now ≡ insert dues.now result due.now }
{
    for (at, other) in dues.iter().enumerate() {
        if !stays(other, due) {
            return at;
        }
    }
    dues.len()
}

/// Puts a step in its place. After an error the steps are as they were.
fn add_step(dues: &mut Dues, step: Next) -> Result<(), AllocError>
    ensures { IfOk result (λ _. dues.new ≡ with_step dues.old step) }
{
    let at = place_for(dues.as_slice(), &step);
    dues.insert(at, step)
}

/// Whether a step is among others.
fn is_there(dues: &[Next], due: &Next) -> bool
    ensures { result ≡ list_any (is_same_step due.now) dues.now }
{
    dues.iter().any(|other| is_same_step(due, other))
}

/// Whether a step comes after the last of these, or there is none.
fn goes_last(dues: &[Next], due: &Next) -> bool
    ensures { result ≡ goes_last dues.now due.now }
{
    match dues.last() {
        Some(last) => is_step_before(last, due),
        None => true,
    }
}

/// Puts a step in its place, where it is not there already. After an error the steps are as they
/// were. Steps mostly come in their order, so that the last one tells the place.
fn add_due(dues: &mut Dues, due: Next) -> Result<(), AllocError>
    ensures { IfOk result (λ _. dues.new ≡ with_due dues.old due) }
{
    if goes_last(dues.as_slice(), &due) {
        return dues.push(due);
    }
    if is_there(dues.as_slice(), &due) {
        Ok(())
    } else {
        add_step(dues, due)
    }
}

/// A call on a lane.
fn step(
    alloc: Global,
    path: &Txt,
    lane: &str,
    token: u64,
    request: Request,
    repeated: bool,
) -> Result<Next, AllocError>
    ensures { IfOk result (λ n. n ≡ next.Step path.now lane.now token request repeated) }
{
    match named(alloc, path, lane) {
        Ok((path, lane)) => Ok(Next::Step {
            path,
            lane,
            token,
            request,
            repeated,
        }),
        Err(failed) => {
            drop(request);
            Err(failed)
        }
    }
}

/// A path and a lane.
fn named(alloc: Global, path: &Txt, lane: &str) -> Result<(Txt, Txt), AllocError>
    ensures { IfOk result (λ both. both ≡ (path.now, lane.now)) }
{
    let path = path.try_clone(alloc)?;
    let lane = Txt::from_str(alloc, lane)?;
    Ok((path, lane))
}

/// Adds the call of an open token, once more. After an error nothing is said of the steps.
fn add_repeat(alloc: Global, dues: &mut Dues, pending: &Pending) -> Result<(), AllocError>
    ensures { IfOk result (λ _. dues.new ≡ with_repeat dues.old pending.now) }
{
    let request = pending.request.try_clone(alloc)?;
    let due = step(
        alloc,
        &pending.path,
        pending.lane.as_str(),
        pending.token,
        request,
        true,
    )?;
    add_due(dues, due)
}

/// Adds the calls of these open tokens, once more. After an error nothing is said of the steps.
fn add_repeats(alloc: Global, dues: &mut Dues, repeats: &[Pending]) -> Result<(), AllocError>
    ensures { IfOk result (λ _. dues.new ≡ fold with_repeat dues.old repeats.now) }
{
    for pending in repeats {
        add_repeat(alloc, dues, pending)?;
    }
    Ok(())
}

/// A new call, under the next token. Where no token is left, this is an error too.
fn call(alloc: Global, world: &World, start: &Start, lane: &str) -> Result<Next, AllocError>
    ensures { IfOk result (λ n. n ≡ next.Step start.now.path lane.now (world.now.world.token + 1) start.now.request false) }
{
    let Some(token) = world.token().checked_add(1) else {
        return Err(AllocError);
    };
    let request = start.request(alloc)?;
    step(alloc, start.path(), lane, token, request, false)
}

/// Adds a call on one lane, where that is at home and fits. After an error nothing is said of the
/// steps.
fn add_call_on(
    alloc: Global,
    dues: &mut Dues,
    out: &[u64],
    world: &World,
    start: &Start,
    lane: &(Txt, Txt),
) -> Result<(), AllocError>
    ensures { IfOk result (λ _. dues.new ≡ with_call_on out.now world.now.world start.now.path start.now.request dues.old lane.now) }
{
    if is_home_for(out, world, start, lane) {
        let due = call(alloc, world, start, lane.0.as_str())?;
        add_due(dues, due)
    } else {
        Ok(())
    }
}

/// Adds a call on each of these lanes that is at home and fits. After an error nothing is said of
/// the steps.
fn add_calls_on_each(
    alloc: Global,
    dues: &mut Dues,
    out: &[u64],
    world: &World,
    start: &Start,
    lanes: &[(Txt, Txt)],
) -> Result<(), AllocError>
    ensures { IfOk result (λ _. dues.new ≡ fold (with_call_on out.now world.now.world start.now.path start.now.request) dues.old lanes.now) }
{
    for lane in lanes {
        add_call_on(alloc, dues, out, world, start, lane)?;
    }
    Ok(())
}

/// Adds a call on each lane at home that fits. After an error nothing is said of the steps.
fn add_calls_on(
    alloc: Global,
    dues: &mut Dues,
    out: &[u64],
    world: &World,
    start: &Start,
) -> Result<(), AllocError>
    ensures { IfOk result (λ _. dues.new ≡ with_calls_on out.now world.now.world start.now.path start.now.request dues.old) }
{
    let lanes = world.lanes().as_slice();
    add_calls_on_each(alloc, dues, out, world, start, lanes)
}

/// Adds a create, where a lane at home fits. After an error nothing is said of the steps.
fn add_create(
    alloc: Global,
    dues: &mut Dues,
    out: &[u64],
    world: &World,
    start: &Start,
) -> Result<(), AllocError>
    ensures { IfOk result (λ _. dues.new ≡ with_create out.now world.now.world start.now.path start.now.request dues.old) }
{
    if has_home(out, world, start) {
        let due = call(alloc, world, start, "")?;
        add_due(dues, due)
    } else {
        Ok(())
    }
}

/// Whether a call creates a resource.
fn creates(ask: &Ask) -> bool
    ensures { result ≡ is_create (request_of ask.now) }
{
    match ask {
        Ask::Create { kind: _, props: _ } => true,
        Ask::Update {
            physical: _,
            props: _,
        } => false,
        Ask::Delete { physical: _ } => false,
    }
}

/// Adds a new call, where a lane at home can take it. After an error nothing is said of the steps.
#[tactic(auto, using(crate::proofs::Asking::offered_create, crate::proofs::Asking::offered_other))]
fn add_start(
    alloc: Global,
    dues: &mut Dues,
    out: &[u64],
    world: &World,
    start: &Start,
) -> Result<(), AllocError>
    ensures { IfOk result (λ _. dues.new ≡ with_offered out.now world.now.world dues.old start.now) }
{
    if creates(start.ask()) {
        add_create(alloc, dues, out, world, start)
    } else {
        add_calls_on(alloc, dues, out, world, start)
    }
}

/// Adds the calls that may begin. After an error nothing is said of the steps.
fn add_starts(
    alloc: Global,
    dues: &mut Dues,
    out: &[u64],
    world: &World,
    starts: &[Start],
) -> Result<(), AllocError>
    ensures { IfOk result (λ _. dues.new ≡ fold (with_offered out.now world.now.world) dues.old starts.now) }
{
    for start in starts {
        add_start(alloc, dues, out, world, start)?;
    }
    Ok(())
}

/// Adds a resource that goes off its stack's list. After an error nothing is said of the steps.
fn add_keeping(alloc: Global, dues: &mut Dues, keeping: &Keeping) -> Result<(), AllocError>
    ensures { IfOk result (λ _. dues.new ≡ with_keeping dues.old keeping.now) }
{
    let path = keeping.path.try_clone(alloc)?;
    let physical = keeping.physical.try_clone(alloc)?;
    let due = Next::Keep {
        path,
        physical,
        why: keeping.why,
    };
    add_due(dues, due)
}

/// Adds the resources that may go off their stack's list. After an error nothing is said of the
/// steps.
fn add_keepings(alloc: Global, dues: &mut Dues, keepings: &[Keeping]) -> Result<(), AllocError>
    ensures { IfOk result (λ _. dues.new ≡ fold with_keeping dues.old keepings.now) }
{
    for keeping in keepings {
        add_keeping(alloc, dues, keeping)?;
    }
    Ok(())
}

/// All that an offer has but for a phase: each call on its lanes at home.
pub(crate) fn begun_by(
    alloc: Global,
    out: &[u64],
    world: &World,
    offer: &Offer,
) -> Result<Dues, AllocError>
    ensures { IfOk result (λ dues. dues ≡ begun_by out.now world.now.world offer.now) }
{
    let mut dues = Dues::new(alloc);
    add_repeats(alloc, &mut dues, offer.repeats.as_slice())?;
    add_starts(alloc, &mut dues, out, world, offer.starts.as_slice())?;
    add_keepings(alloc, &mut dues, offer.keepings.as_slice())?;
    Ok(dues)
}

/// Steps that a phase or the end joins, where there is one.
pub(crate) fn with_last(mut dues: Dues, last: Option<Next>) -> Result<Dues, AllocError>
    ensures { IfOk result (λ all. all ≡ with_last dues last) }
{
    match last {
        Some(step) => {
            add_step(&mut dues, step)?;
            Ok(dues)
        }
        None => Ok(dues),
    }
}
