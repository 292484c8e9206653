//! The call that comes next while a create or an update goes forward, by what is known of each path: paths are looked at in the order of
//! their names up to the one that is taken, and only of those that may begin it is asked what they want.
ghost use Rattle.std.specs.Prelude.{◌≡◌, [], IfOk, IfSome, IsTrue, Some, find, option_map};
ghost use Rattle.std.specs.Option.{option_copied};
ghost use Rattle.cf_effect.specs.Layout.{IsLayoutOf};
ghost use Rattle.cf_effect.specs.Status.{Forward, stage_of};
ghost use Rattle.cf_plan.specs.Asked.{request_of};
ghost use Rattle.cf_plan.specs.Overview.{IsOverview};
ghost use Rattle.cf_plan.specs.PathStates.{AreStatesOf, are_enough, done_by_places, starts_of_path, update_of};
ghost use Rattle.cf_plan.specs.Starts.{start_of};
ghost use Rattle.cf_next.specs.First.{fits_one};
ghost use Rattle.cf_next.specs.Forward.{IsOverviewIn};
ghost use Rattle.cf_next.specs.Opens.{IsFirstOpen, IsOpenCall, IsTakenBy, fitting_from, fitting_placed};
ghost use Rattle.cf_next.specs.Repeats.{AreRepeatsBut};

use crate::creation::is_idle;
use crate::first::{LaneHome, fits_one, homes_now, new_call};
use crate::stage::goes_forward;
use crate::step::Next;
use cf_plan::{Ask, Overview, PathState, Start, create_of, goes_on, may_begin, update_of};
use cf_schema::Schemas;
use cf_stacks::{Layout, StackState, World};
use cf_tree::Txt;
use std::alloc::{AllocError, Global};

/// A request at a path, where there is one and a lane at home fits it.
fn fitting<'a>(homes: &[LaneHome], path: &'a Txt, ask: Option<Ask<'a>>) -> Option<Start<'a>>
    ensures { result ≡ find (fits_one homes.now) (start_of path.now (option_map request_of ask.entry)) }
{
    match ask {
        Some(ask) => {
            let start = Start::new(path, ask);
            if fits_one(homes, &start) {
                Some(start)
            } else {
                None
            }
        }
        None => None,
    }
}

/// The update that a path wants, where a lane at home fits it.
fn fitting_update<'a>(
    homes: &[LaneHome],
    schemas: &Schemas,
    state: &PathState<'a>,
) -> Option<Start<'a>>
    ensures { result ≡ find (fits_one homes.now) (start_of state.now.path.now
        (update_of schemas.now state.now.found state.now.is_answered (option_copied state.now.held))) }
{
    let update = update_of(schemas, &state.found, state.is_answered, state.held);
    fitting(homes, state.path, update)
}

/// The first of the requests that a path wants that a lane at home fits.
fn fitting_path<'a>(
    homes: &[LaneHome],
    schemas: &Schemas,
    stack: &StackState,
    state: &PathState<'a>,
) -> Option<Start<'a>>
    ensures { result ≡ find (fits_one homes.now) (starts_of_path schemas.now stack.now.stack state.now) }
{
    let create = create_of(schemas, stack, &state.found, state.held);
    match fitting(homes, state.path, create) {
        Some(start) => Some(start),
        None => fitting_update(homes, schemas, state),
    }
}

/// The first of the requests that a path may begin with that a lane at home fits.
fn fitting_from<'a>(
    homes: &[LaneHome],
    schemas: &Schemas,
    stack: &StackState,
    done: &[bool],
    state: &PathState<'a>,
) -> Option<Start<'a>>
    ensures { result ≡ fitting_from homes.now schemas.now stack.now.stack done.now state.now }
{
    if may_begin(stack, done, state) {
        fitting_path(homes, schemas, stack, state)
    } else {
        None
    }
}

/// The same, of the path at a place.
fn fitting_placed<'a>(
    homes: &[LaneHome],
    schemas: &Schemas,
    stack: &StackState,
    states: &[PathState<'a>],
    done: &[bool],
    at: usize,
) -> Option<Start<'a>>
    ensures { result ≡ fitting_placed homes.now schemas.now stack.now.stack states.now done.now at }
{
    match states.get(at) {
        Some(state) => fitting_from(homes, schemas, stack, done, state),
        None => None,
    }
}

/// The first call by path that may begin and that a lane at home fits.
#[tactic(auto, using(crate::proofs::FirstOpen::none_yet, crate::proofs::FirstOpen::none_more, crate::proofs::FirstOpen::found_first))]
fn first_open<'a>(
    homes: &[LaneHome],
    schemas: &Schemas,
    stack: &StackState,
    states: &[PathState<'a>],
    done: &[bool],
    names: &[(Txt, usize)],
) -> Option<Start<'a>>
    ensures { IfSome result (IsFirstOpen homes.now schemas.now stack.now.stack states.now done.now names.now) }
{
    for (rank, named) in names.iter().enumerate() {
        if let Some(start) = fitting_placed(homes, schemas, stack, states, done, named.1) {
            return Some(start);
        }
    }
    None
}

/// The first call that a lane at home fits, under the next token, by what is known of each path of a layout, where no call is to be made
/// again.
fn open_by(
    alloc: Global,
    schemas: &Schemas,
    world: &World,
    stack: &StackState,
    out: &[u64],
    layout: &Layout,
    states: &[PathState],
    done: &[bool],
) -> Result<Option<Next>, AllocError>
    requires forward { stage_of stack.now.stack.status ≡ Some Forward }
    requires idle { AreRepeatsBut [] out.now stack.now.stack [] }
    requires layout { IsLayoutOf stack.now.stack (Some layout.now) }
    requires states { AreStatesOf stack.now.stack states.now }
    requires done { done.now ≡ done_by_places states.now }
    requires enough { IsTrue (are_enough done.now states.now) }
    ensures { IfOk result (IsOpenCall out.now world.now.world stack.now.stack schemas.now) }
{
    let homes = homes_now(alloc, out, world)?;
    let lanes = homes.as_slice();
    let names = layout.places.as_slice();
    match first_open(lanes, schemas, stack, states, done, names) {
        Some(start) => new_call(alloc, lanes, world, &start),
        None => Ok(None),
    }
}

/// The first call that a lane at home fits, where each path is known by what its stack keeps, and no call is to be made again.
fn open_kept(
    alloc: Global,
    schemas: &Schemas,
    world: &World,
    stack: &StackState,
    out: &[u64],
    overview: &Overview,
) -> Result<Option<Next>, AllocError>
    requires forward { stage_of stack.now.stack.status ≡ Some Forward }
    requires idle { AreRepeatsBut [] out.now stack.now.stack [] }
    requires overview { IsOverview schemas.now stack.now.stack overview.now }
    ensures { IfOk result (IsOpenCall out.now world.now.world stack.now.stack schemas.now) }
{
    match (stack.layout(), overview) {
        (Some(layout), Overview::Kept { states, done }) => open_by(
            alloc,
            schemas,
            world,
            stack,
            out,
            layout,
            states.as_slice(),
            done.as_slice(),
        ),
        _ => Ok(None),
    }
}

/// The same, where the phase has not failed.
fn open_going(
    alloc: Global,
    schemas: &Schemas,
    name: &Txt,
    world: &World,
    stack: &StackState,
    out: &[u64],
    overview: &Overview,
) -> Result<Option<Next>, AllocError>
    requires forward { stage_of stack.now.stack.status ≡ Some Forward }
    requires idle { AreRepeatsBut [] out.now stack.now.stack [] }
    requires overview { IsOverview schemas.now stack.now.stack overview.now }
    ensures { IfOk result (IsTakenBy out.now world.now.world stack.now.stack schemas.now name.now) }
{
    match open_kept(alloc, schemas, world, stack, out, overview)? {
        Some(call) => {
            if goes_on(alloc, schemas, name, world, stack, overview)? {
                Ok(Some(call))
            } else {
                Ok(None)
            }
        }
        None => Ok(None),
    }
}

/// The call that comes next where a create or an update goes forward, by what is known of its paths; `None` where it may be another step
/// that comes next, and in any other stage. It goes over the open calls, over the paths up to the one that is taken, and once over what
/// may have failed; nothing is laid out but the call that is taken.
///
/// # Errors
///
/// For want of memory, or of a token.
pub(crate) fn next_open(
    alloc: Global,
    schemas: &Schemas,
    name: &Txt,
    world: &World,
    stack: &StackState,
    out: &[u64],
    overview: &Option<Overview>,
) -> Result<Option<Next>, AllocError>
    requires { IsOverviewIn schemas.now stack.now.stack overview.now }
    ensures { IfOk result (IsTakenBy out.now world.now.world stack.now.stack schemas.now name.now) }
{
    match overview {
        Some(overview) => {
            if goes_forward(stack.status()) && is_idle(alloc, stack, out)? {
                open_going(alloc, schemas, name, world, stack, out, overview)
            } else {
                Ok(None)
            }
        }
        None => Ok(None),
    }
}
