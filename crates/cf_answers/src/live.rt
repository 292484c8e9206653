//! The live resources of a handler in memory.
ghost use Rattle.std.specs.Prelude.{◌≡◌, ◌<◌, [], ◌∷◌, ◌++◌, length, map, filter, not, set, get_or, IsTrue, IfOk, IfSome, IfNone, true, false, OnErr};
ghost use Rattle.std.specs.List.{list_any};
ghost use Rattle.cf_answers.specs.declared.live.LiveResource.{LiveResource};
ghost use Rattle.cf_handler.specs.Lane.{updated, live_changed};
ghost use Rattle.cf_answers.specs.Live.{live_as, lives, has_this_id, differ, with_values};
ghost use Rattle.cf_answers.specs.Table.{is_taken};

use crate::table::are_same;
use cf_handler::Settlement;
use cf_schema::Schema;
use cf_tree::{Dict, Request, Txt};
use std::alloc::{AllocError, Global};

/// A live resource: its id, its type, its properties and its attributes.
#[derive(Drop)]
pub struct LiveResource {
    pub id: Txt,
    pub kind: Txt,
    pub props: Dict,
    pub attrs: Dict,
}

/// The place of the resource of an id.
pub fn place_of(live: &[LiveResource], id: &Txt) -> Option<usize>
    ensures found { IfSome result (λ at. (at < length live.now) × ((d : LiveResource) → has_this_id id.now (get_or live.now at d) ≡ true)) }
    ensures nowhere { IfNone result (list_any (has_this_id id.now) live.now ≡ false) }
{
    for (at, resource) in live.iter().enumerate() {
        if *id == resource.id {
            return Some(at);
        }
    }
    None
}

/// Whether one of them is the same resource as one with these properties.
pub fn is_taken(schema: &Schema, props: &Dict, live: &[LiveResource]) -> bool
    ensures { result ≡ is_taken schema.now props.now (lives live.now) }
{
    for resource in live.iter() {
        if are_same(schema, &resource.props, props) {
            return true;
        }
    }
    false
}

/// Makes a resource.
fn make(
    alloc: Global,
    live: &mut Vec<LiveResource>,
    id: &Txt,
    kind: &Txt,
    props: &Dict,
    attrs: &Dict,
) -> Result<(), AllocError>
    ensures ok { IfOk result (λ _. lives live.new.items ≡ lives live.old.items ++ record { id = id.now; kind = kind.now; props = props.now; attrs = attrs.now } ∷ []) }
    ensures err { OnErr result (live.new.items ≡ live.old.items) }
{
    let id = id.try_clone(alloc)?;
    let kind = kind.try_clone(alloc)?;
    let props = props.try_clone(alloc)?;
    let attrs = attrs.try_clone(alloc)?;
    live.push(LiveResource {
        id,
        kind,
        props,
        attrs,
    })?;
    Ok(())
}

/// Gives the resource at a place other properties and attributes.
fn put(live: &mut Vec<LiveResource>, at: usize, props: Dict, attrs: Dict)
    requires { at < length live.old.items }
    ensures { (d : LiveResource) → live.new.items ≡ set live.old.items at (with_values props attrs (get_or live.old.items at d)) }
{
    let resource = &mut live[at];
    resource.props = props;
    resource.attrs = attrs;
}

/// Gives the resource of an id other properties and attributes, if it is there.
#[tactic(auto, using(crate::proofs::Changes::updated_nowhere))]
fn change(
    alloc: Global,
    live: &mut Vec<LiveResource>,
    id: &Txt,
    props: &Dict,
    attrs: &Dict,
) -> Result<(), AllocError>
    requires { IsTrue (differ (lives live.old.items)) }
    ensures ok { IfOk result (λ _. lives live.new.items ≡ map (updated id.now props.now attrs.now) (lives live.old.items)) }
    ensures err { OnErr result (live.new.items ≡ live.old.items) }
{
    let props = props.try_clone(alloc)?;
    let attrs = attrs.try_clone(alloc)?;
    match place_of(live.as_slice(), id) {
        Some(at) => put(live, at, props, attrs),
        None => {}
    }
    Ok(())
}

/// Takes the resource of an id away, if it is there.
fn take_away(live: &mut Vec<LiveResource>, id: &Txt)
    ensures { live.new.items ≡ filter (λ r. not (has_this_id id.now r)) live.old.items }
{
    live.retain(|resource| *id != resource.id);
}

/// Does to the live resources what a settled call does. After an error they are as they were.
pub fn apply(
    alloc: Global,
    live: &mut Vec<LiveResource>,
    request: &Request,
    settlement: &Settlement,
) -> Result<(), AllocError>
    requires { IsTrue (differ (lives live.old.items)) }
    ensures ok { IfOk result (λ _. lives live.new.items ≡ live_changed request.now settlement.now (lives live.old.items)) }
    ensures err { OnErr result (live.new.items ≡ live.old.items) }
{
    let Settlement::Success { physical, attrs } = settlement else {
        return Ok(());
    };
    match request {
        Request::Create { kind, props } => make(alloc, live, physical, kind, props, attrs),
        Request::Update {
            physical: id,
            props,
        } => change(alloc, live, id, props, attrs),
        Request::Delete { physical: id } => {
            take_away(live, id);
            Ok(())
        }
    }
}
