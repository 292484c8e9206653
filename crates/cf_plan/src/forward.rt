//! The requests that the forward phase of an operation may begin with.
ghost use Rattle.std.specs.Prelude.{◌≡◌, IfOk};
ghost use Rattle.std.specs.List.{list_any};
ghost use Rattle.std.specs.Option.{option_copied};
ghost use Rattle.std.specs.Str.{bytes_eq};
ghost use Rattle.cf_plan.specs.Forward.{finding_over, plan_now};
ghost use Rattle.cf_plan.specs.Follow.{is_free};
ghost use Rattle.cf_effect.specs.Words.{current_at};
ghost use Rattle.cf_plan.specs.Starts.{AreIntended, create_over, update_over, wants_by, wants_new, wants_update};

use crate::calls::{was_answered_at, was_not_updatable};
use crate::failing::difference_to;
use crate::found::{Found, finding_over, wanted_at};
use cf_desired::{Plan, Wanted};
use cf_schema::{Difference, Schemas};
use cf_stacks::{Held, Pending, StackState, current_at};
use cf_tree::{Dict, Request, Txt};
use std::alloc::{AllocError, Global};

/// The requests that a path wants: never more than one in a journal each of whose entries may follow those before it.
#[derive(Drop)]
pub struct Wants {
    pub create: Option<Request>,
    pub update: Option<Request>,
}

/// Whether no open token is of a path.
pub fn is_free(stack: &StackState, path: &Txt) -> bool
    ensures { result ≡ is_free path.now stack.now.stack }
{
    !has_token_at(stack.tokens().as_slice(), path)
}

/// Whether one of these open calls is at a path.
fn has_token_at(tokens: &[Pending], path: &Txt) -> bool
    ensures { result ≡ list_any (λ p. bytes_eq path.now p.path) tokens.now }
{
    tokens.iter().any(|pending| *path == pending.path)
}

/// Whether other properties want a new resource in place of the held one.
pub(crate) fn wants_new(schemas: &Schemas, stack: &StackState, held: &Held, props: &Dict) -> bool
    ensures { result ≡ wants_new schemas.now stack.now.stack held.now props.now }
{
    match difference_to(schemas, held, props) {
        Difference::Replace => true,
        Difference::MayReplace => was_not_updatable(stack, held),
        Difference::Same => false,
        Difference::Update => false,
    }
}

/// Whether other properties want an update of the held resource.
pub(crate) fn wants_update(schemas: &Schemas, held: &Held, props: &Dict) -> bool
    ensures { result ≡ wants_update schemas.now held.now props.now }
{
    match difference_to(schemas, held, props) {
        Difference::Replace => false,
        Difference::Same => held.unsure,
        Difference::MayReplace => true,
        Difference::Update => true,
    }
}

/// The create that a path wants over what is held there.
fn create_over(
    alloc: Global,
    schemas: &Schemas,
    stack: &StackState,
    kind: &Txt,
    props: &Dict,
    held: Option<&Held>,
) -> Result<Option<Request>, AllocError>
    ensures { IfOk result (λ create. create ≡ create_over schemas.now stack.now.stack kind.now props.now (option_copied held.entry)) }
{
    if let Some(held) = held {
        if !wants_new(schemas, stack, held, props) {
            return Ok(None);
        }
    }
    let kind = kind.try_clone(alloc)?;
    let props = props.try_clone(alloc)?;
    Ok(Some(Request::Create { kind, props }))
}

/// The update that a path wants of what is held there.
fn update_over(
    alloc: Global,
    schemas: &Schemas,
    stack: &StackState,
    path: &Txt,
    kind: &Txt,
    props: &Dict,
    held: Option<&Held>,
) -> Result<Option<Request>, AllocError>
    ensures { IfOk result (λ update. update ≡ update_over schemas.now stack.now.stack path.now kind.now props.now (option_copied held.entry)) }
{
    match held {
        Some(held) => {
            if held.kind == *kind
                && wants_update(schemas, held, props)
                && !was_answered_at(stack, path)
            {
                let physical = held.physical.try_clone(alloc)?;
                let props = props.try_clone(alloc)?;
                Ok(Some(Request::Update { physical, props }))
            } else {
                Ok(None)
            }
        }
        None => Ok(None),
    }
}

/// The requests that a path wants, by what its properties come to and by what is held there.
pub(crate) fn wants_over(
    alloc: Global,
    schemas: &Schemas,
    stack: &StackState,
    path: &Txt,
    wanted: Option<&Wanted>,
    held: Option<&Held>,
) -> Result<Wants, AllocError>
    requires { option_copied held ≡ current_at path.now stack.now.stack.held }
    ensures { IfOk result (λ wants. wants ≡ wants_by schemas.now stack.now.stack path.now (finding_over (option_copied wanted.entry))) }
{
    match finding_over(alloc, wanted)? {
        Found::Known { kind, props } => {
            let create = create_over(alloc, schemas, stack, kind, &props, held)?;
            let update = update_over(alloc, schemas, stack, path, kind, &props, held)?;
            Ok(Wants { create, update })
        }
        Found::Bad { flaw: _ } => Ok(Wants {
            create: None,
            update: None,
        }),
        Found::Later => Ok(Wants {
            create: None,
            update: None,
        }),
    }
}

/// The requests that the forward phase intends at a path, whether it is ready or not: a create where nothing is held or the
/// difference wants a new resource, and an update where it wants that and none was answered in this operation.
///
/// `now` is what the operation's source says over the resources of now.
///
/// # Errors
///
/// Only for want of memory.
pub fn wants_at(
    alloc: Global,
    schemas: &Schemas,
    stack: &StackState,
    now: &Plan,
    path: &Txt,
) -> Result<Wants, AllocError>
    requires now { now.now ≡ plan_now stack.now.stack }
    ensures { IfOk result (λ wants. AreIntended schemas.now stack.now.stack path.now wants) }
{
    let held = current_at(stack.held().as_slice(), path);
    wants_over(alloc, schemas, stack, path, wanted_at(now, path), held)
}
