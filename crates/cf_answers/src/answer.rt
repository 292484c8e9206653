//! What the table answers to a request.
ghost use Rattle.std.specs.Prelude.{◌≡◌, Some, None, find, option_map, IfOk};
ghost use Rattle.std.specs.Option.{option_copied};
ghost use Rattle.cf_answers.specs.Live.{live_as, lives};
ghost use Rattle.cf_answers.specs.Table.{is_of_id, create_answer, update_answer, delete_answer, answer_to, look_at, is_apart};

use crate::live::{LiveResource, is_taken};
use crate::table::{are_valid, attrs_of, id_of, is_fixed};
use cf_handler::Settlement;
use cf_schema::Schema;
use cf_tree::{Code, Dict, Look, Request, Txt};
use std::alloc::{AllocError, Global};

/// The live resource of an id.
pub fn found<'a>(live: &'a [LiveResource], id: &Txt) -> Option<&'a LiveResource>
    ensures { option_map live_as (option_copied result) ≡ find (is_of_id id.now) (lives live.now) }
{
    for resource in live.iter() {
        if *id == resource.id {
            return Some(resource);
        }
    }
    None
}

/// Makes a resource of the properties, if that may be.
fn create_answer(
    alloc: Global,
    schema: &Schema,
    name: &str,
    token: u64,
    props: &Dict,
    live: &[LiveResource],
) -> Result<Settlement, AllocError>
    ensures { IfOk result (λ s. s ≡ create_answer schema.now name.now token props.now (lives live.now)) }
{
    if !are_valid(schema, props) {
        return Ok(Settlement::Failed {
            code: Code::InvalidRequest,
        });
    }
    if is_taken(schema, props, live) {
        return Ok(Settlement::Failed {
            code: Code::AlreadyExists,
        });
    }
    let physical = id_of(alloc, name, token)?;
    let attrs = attrs_of(alloc, &physical, props)?;
    Ok(Settlement::Success { physical, attrs })
}

/// Gives a resource the properties, if that may be.
fn update_found(
    alloc: Global,
    schema: &Schema,
    id: &Txt,
    props: &Dict,
    resource: &LiveResource,
) -> Result<Settlement, AllocError>
    ensures { IfOk result (λ s. s ≡ update_answer schema.now id.now props.now (Some (live_as resource.now))) }
{
    if !are_valid(schema, props) {
        return Ok(Settlement::Failed {
            code: Code::InvalidRequest,
        });
    }
    if is_fixed(schema, &resource.props, props) {
        return Ok(Settlement::Failed {
            code: Code::NotUpdatable,
        });
    }
    let physical = id.try_clone(alloc)?;
    let attrs = attrs_of(alloc, id, props)?;
    Ok(Settlement::Success { physical, attrs })
}

fn update_answer(
    alloc: Global,
    schema: &Schema,
    id: &Txt,
    props: &Dict,
    live: &[LiveResource],
) -> Result<Settlement, AllocError>
    ensures { IfOk result (λ s. s ≡ update_answer schema.now id.now props.now (find (is_of_id id.now) (lives live.now))) }
{
    match found(live, id) {
        Some(resource) => update_found(alloc, schema, id, props, resource),
        None => Ok(Settlement::Failed {
            code: Code::NotFound,
        }),
    }
}

fn delete_answer(alloc: Global, id: &Txt, live: &[LiveResource]) -> Result<Settlement, AllocError>
    ensures { IfOk result (λ s. s ≡ delete_answer id.now (find (is_of_id id.now) (lives live.now))) }
{
    match found(live, id) {
        Some(_) => Ok(Settlement::Success {
            physical: id.try_clone(alloc)?,
            attrs: Dict::new(alloc),
        }),
        None => Ok(Settlement::Failed {
            code: Code::NotFound,
        }),
    }
}

/// The answer of the table to a call that its handler takes for the first time, where this is live.
///
/// # Errors
/// Want of memory.
pub fn answer_to(
    alloc: Global,
    schema: &Schema,
    name: &str,
    token: u64,
    live: &[LiveResource],
    request: &Request,
) -> Result<Settlement, AllocError>
    ensures { IfOk result (λ s. s ≡ answer_to schema.now name.now token (lives live.now) request.now) }
{
    match request {
        Request::Create { kind: _, props } => {
            create_answer(alloc, schema, name, token, props, live)
        }
        Request::Update { physical, props } => update_answer(alloc, schema, physical, props, live),
        Request::Delete { physical } => delete_answer(alloc, physical, live),
    }
}

/// What is shown of a resource.
fn shown(alloc: Global, resource: &LiveResource) -> Result<Look, AllocError>
    ensures { IfOk result (λ l. l ≡ look_at (Some (live_as resource.now))) }
{
    let props = resource.props.try_clone(alloc)?;
    let attrs = resource.attrs.try_clone(alloc)?;
    Ok(Look::Found { props, attrs })
}

/// What a look at the resource of an id shows: `NotFound` where none of it is live.
pub fn look_at(alloc: Global, live: &[LiveResource], id: &Txt) -> Result<Look, AllocError>
    ensures { IfOk result (λ l. l ≡ look_at (find (is_of_id id.now) (lives live.now))) }
{
    match found(live, id) {
        Some(resource) => shown(alloc, resource),
        None => Ok(Look::Failed {
            code: Code::NotFound,
        }),
    }
}

/// Whether what a settled call makes has an id that no live resource has.
pub fn is_apart(live: &[LiveResource], request: &Request, settlement: &Settlement) -> bool
    ensures { result ≡ is_apart request.now settlement.now (lives live.now) }
{
    let Settlement::Success { physical, attrs: _ } = settlement else {
        return true;
    };
    match request {
        Request::Create { kind: _, props: _ } => match found(live, physical) {
            Some(_) => false,
            None => true,
        },
        Request::Update {
            physical: _,
            props: _,
        } => true,
        Request::Delete { physical: _ } => true,
    }
}
