//! The requests that paths may begin with.
ghost use Rattle.std.specs.Prelude.{◌≡◌, ◌++◌, IfOk, option_map};
ghost use Rattle.std.specs.Option.{option_copied};
ghost use Rattle.cf_plan.specs.Asked.{request_of};
ghost use Rattle.cf_plan.specs.PathStates.{create_of, may_begin, starts_from, starts_from_all, starts_of_path, update_of, update_unless};
ghost use Rattle.cf_plan.specs.Starts.{create_over, start_of};

use crate::forward::{is_free, wants_new, wants_update};
use crate::path_state::{PathFinding, PathState, are_done_at, is_done_at};
use crate::start::{Ask, Start, Starts};
use cf_schema::Schemas;
use cf_stacks::{Held, StackState};
use cf_tree::{Dict, Txt};
use std::alloc::{AllocError, Global};

/// The create that is wanted over what is held.
fn create_over<'a>(
    schemas: &Schemas,
    stack: &StackState,
    kind: &'a Txt,
    props: &'a Dict,
    held: Option<&'a Held>,
) -> Option<Ask<'a>>
    ensures { option_map request_of result ≡ create_over schemas.now stack.now.stack kind.now props.now (option_copied held.entry) }
{
    if let Some(held) = held {
        if !wants_new(schemas, stack, held, props) {
            return None;
        }
    }
    Some(Ask::Create { kind, props })
}

/// The update that is wanted of what is held, unless one was answered.
fn update_unless<'a>(
    schemas: &Schemas,
    is_answered: bool,
    kind: &'a Txt,
    props: &'a Dict,
    held: Option<&'a Held>,
) -> Option<Ask<'a>>
    ensures { option_map request_of result ≡ update_unless schemas.now is_answered kind.now props.now (option_copied held.entry) }
{
    match held {
        Some(held) => {
            if held.kind == *kind && wants_update(schemas, held, props) && !is_answered {
                Some(Ask::Update {
                    physical: &held.physical,
                    props,
                })
            } else {
                None
            }
        }
        None => None,
    }
}

/// The create that a path wants.
pub fn create_of<'a>(
    schemas: &Schemas,
    stack: &StackState,
    found: &PathFinding<'a>,
    held: Option<&'a Held>,
) -> Option<Ask<'a>>
    ensures { option_map request_of result ≡ create_of schemas.now stack.now.stack found.now (option_copied held.entry) }
{
    match found {
        PathFinding::Known { kind, props } => create_over(schemas, stack, kind, props, held),
        PathFinding::Bad { flaw: _ } => None,
        PathFinding::Later => None,
        PathFinding::Unread => None,
    }
}

/// The update that a path wants.
pub fn update_of<'a>(
    schemas: &Schemas,
    found: &PathFinding<'a>,
    is_answered: bool,
    held: Option<&'a Held>,
) -> Option<Ask<'a>>
    ensures { option_map request_of result ≡ update_of schemas.now found.now is_answered (option_copied held.entry) }
{
    match found {
        PathFinding::Known { kind, props } => {
            update_unless(schemas, is_answered, kind, props, held)
        }
        PathFinding::Bad { flaw: _ } => None,
        PathFinding::Later => None,
        PathFinding::Unread => None,
    }
}

/// Whether a path is not done, all that it needs is done, and no token of it is open.
pub fn may_begin(stack: &StackState, done: &[bool], state: &PathState) -> bool
    ensures { result ≡ may_begin stack.now.stack done.now state.now }
{
    !is_done_at(done, state.place) && are_done_at(done, state.needs) && is_free(stack, state.path)
}

/// Adds a request, where there is one. After an error nothing is said of the list.
fn add_start<'a>(
    starts: &mut Starts<'a>,
    path: &'a Txt,
    ask: Option<Ask<'a>>,
) -> Result<(), AllocError>
    ensures { IfOk result (λ _. starts.new ≡ starts.old ++ start_of path.now (option_map request_of ask.entry)) }
{
    match ask {
        Some(ask) => starts.push(Start::new(path, ask)),
        None => Ok(()),
    }
}

/// Adds the requests that a path wants. After an error nothing is said of the list.
fn add_starts<'a>(
    schemas: &Schemas,
    stack: &StackState,
    starts: &mut Starts<'a>,
    state: &PathState<'a>,
) -> Result<(), AllocError>
    ensures { IfOk result (λ _. starts.new ≡ starts.old ++ starts_of_path schemas.now stack.now.stack state.now) }
{
    let create = create_of(schemas, stack, &state.found, state.held);
    add_start(starts, state.path, create)?;
    let update = update_of(schemas, &state.found, state.is_answered, state.held);
    add_start(starts, state.path, update)
}

/// Adds the requests that a path may begin with. After an error nothing is said of the list.
fn add_starts_from<'a>(
    schemas: &Schemas,
    stack: &StackState,
    done: &[bool],
    starts: &mut Starts<'a>,
    state: &PathState<'a>,
) -> Result<(), AllocError>
    ensures { IfOk result (λ _. starts.new ≡ starts.old ++ starts_from schemas.now stack.now.stack done.now state.now) }
{
    if may_begin(stack, done, state) {
        add_starts(schemas, stack, starts, state)
    } else {
        Ok(())
    }
}

/// The requests that these paths may begin with.
pub(crate) fn starts_from_all<'a>(
    alloc: Global,
    schemas: &Schemas,
    stack: &StackState,
    done: &[bool],
    states: &[PathState<'a>],
) -> Result<Starts<'a>, AllocError>
    ensures { IfOk result (λ starts. starts ≡ starts_from_all schemas.now stack.now.stack done.now states.now) }
{
    let mut starts = Starts::new(alloc);
    for state in states {
        add_starts_from(schemas, stack, done, &mut starts, state)?;
    }
    Ok(starts)
}
