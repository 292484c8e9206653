//! What is known of each path of an operation's template, by its place in the order of work, and which of them are done by that.
ghost use Rattle.std.specs.Prelude.{◌≡◌, ◌&&◌, IfOk};
ghost use Rattle.std.specs.Option.{option_copied};
ghost use Rattle.std.specs.Str.{bytes_eq};
ghost use Rattle.cf_tree.specs.Datum.{members_of};
ghost use Rattle.cf_tree.specs.Same.{same_members};
ghost use Rattle.cf_plan.specs.PathStates.{are_all_done_at, are_done_at, are_enough, done_by_places, has_props, is_as_wanted, is_done_at, is_done_by, is_read, is_enough};

use cf_desired::Flaw;
use cf_stacks::Held;
use cf_tree::{Dict, Txt};
use std::alloc::{AllocError, Global};

/// What the properties of a path come to.
#[derive(Drop)]
pub enum PathFinding<'a> {
    /// It is not worked out.
    Unread,
    /// They are at fault.
    Bad { flaw: &'a Flaw },
    /// Not all of them are known yet.
    Later,
    /// They are known: the resource's type and its properties.
    Known { kind: &'a Txt, props: &'a Dict },
}

/// What is known of a path.
#[derive(Drop)]
pub struct PathState<'a> {
    pub path: &'a Txt,
    /// Its place in the order of work.
    pub place: usize,
    /// The places of the paths that it needs.
    pub needs: &'a [usize],
    /// A resource is made there that is not superseded.
    pub is_made: bool,
    /// The operation's update of it succeeded.
    pub is_updated: bool,
    /// The operation's update of it was answered, be it refused.
    pub is_answered: bool,
    /// What is held there.
    pub held: Option<&'a Held>,
    pub found: PathFinding<'a>,
}

/// Whether the path at a place is done.
pub(crate) fn is_done_at(done: &[bool], place: usize) -> bool
    ensures { result ≡ is_done_at done.now place }
{
    match done.get(place) {
        Some(is_done) => *is_done,
        None => false,
    }
}

/// Whether the paths at these places are done.
pub(crate) fn are_done_at(done: &[bool], places: &[usize]) -> bool
    ensures { result ≡ are_done_at done.now places.now }
{
    places.iter().all(|place| is_done_at(done, *place))
}

/// Whether a type and properties are those that are wanted. Properties are compared first, since types seldom differ.
#[tactic(auto, using(crate::proofs::Members::swapped))]
fn are_same(wanted: &Txt, props: &Dict, kind: &Txt, held: &Dict) -> bool
    ensures { result ≡ (bytes_eq wanted.now kind.now && same_members (members_of props.now) (members_of held.now)) }
{
    *props == *held && *wanted == *kind
}

/// Whether this type and these properties are wanted.
fn has_props(found: &PathFinding, kind: &Txt, held: &Dict) -> bool
    ensures { result ≡ has_props found.now kind.now held.now }
{
    match found {
        PathFinding::Known {
            kind: wanted,
            props,
        } => are_same(wanted, props, kind, held),
        PathFinding::Bad { flaw: _ } => false,
        PathFinding::Later => false,
        PathFinding::Unread => false,
    }
}

/// Whether what is held is sure, and of the type and with the properties that are wanted.
fn is_as_wanted(found: &PathFinding, held: Option<&Held>) -> bool
    ensures { result ≡ is_as_wanted found.now (option_copied held.entry) }
{
    match held {
        Some(held) => !held.unsure && has_props(found, &held.kind, &held.props),
        None => false,
    }
}

/// Whether a path is done, by those before it.
fn is_done_by(done: &[bool], state: &PathState) -> bool
    ensures { result ≡ is_done_by done.now state.now }
{
    state.is_made
        || (state.is_updated
            || (are_done_at(done, state.needs) && is_as_wanted(&state.found, state.held)))
}

/// Which paths are done, by place: one pass suffices, since what a path needs has a smaller place.
pub(crate) fn done_by_places(alloc: Global, states: &[PathState]) -> Result<Vec<bool>, AllocError>
    ensures { IfOk result (λ done. done.items ≡ done_by_places states.now) }
{
    let mut done = Vec::with_capacity(alloc, states.len())?;
    for state in states {
        let is_done = is_done_by(done.as_slice(), state);
        done.push(is_done)?;
    }
    Ok(done)
}

/// Whether all of these paths are done.
pub(crate) fn are_all_done_at(done: &[bool], states: &[PathState]) -> bool
    ensures { result ≡ are_all_done_at done.now states.now }
{
    states.iter().all(|state| is_done_at(done, state.place))
}

/// Whether it is worked out what properties come to.
fn is_read(found: &PathFinding) -> bool
    ensures { result ≡ is_read found.now }
{
    !matches!(found, PathFinding::Unread)
}

/// Whether it is worked out what the properties of a path come to, where that is ready.
fn is_enough(done: &[bool], state: &PathState) -> bool
    ensures { result ≡ is_enough done.now state.now }
{
    is_read(&state.found) || !are_done_at(done, state.needs)
}

/// Whether it is worked out what the properties of each path come to that is ready.
pub(crate) fn are_enough(done: &[bool], states: &[PathState]) -> bool
    ensures { result ≡ are_enough done.now states.now }
{
    states.iter().all(|state| is_enough(done, state))
}
