//! What is kept of the paths of an operation's source beside the record of its stack.
ghost use Rattle.std.specs.Prelude.{◌≡◌, ℕ, IfOk, IfSome, None, Some, map, option_copied, length, replicate, set, slice_get};
ghost use Rattle.std.specs.Option.{option_and_then};
ghost use Rattle.cf_desired.specs.Plan.{props_at};
ghost use Rattle.cf_desired.specs.Shape.{shape_of};
ghost use Rattle.cf_desired.specs.Whole.{known_of};
ghost use Rattle.cf_desired.specs.Work.{Member};
ghost use Rattle.cf_effect.specs.Ahead.{AreKept};
ghost use Rattle.cf_effect.specs.Begin.{seen_in};
ghost use Rattle.cf_effect.specs.Findings.{AreFindings, FindsAt, place_among};
ghost use Rattle.cf_effect.specs.Following.{IsFoundBy, IsNothing, Notes, StandAt, kept_at, nowhere, resource_in, seen_of_places};
ghost use Rattle.cf_effect.specs.Layout.{IsLayoutOf, source_members};
ghost use Rattle.cf_effect.specs.State.{state_of};
ghost use Rattle.cf_effect.specs.World.{StackState};

use crate::ahead::{Ahead, ahead_of, follow_found};
use crate::following::put_place;
use crate::held::Held;
use crate::layout::{Layout, Placed};
use crate::outset::Outset;
use crate::seen::see;
use crate::state::State;
use cf_desired::{Evaluated, Seen, props_at};
use cf_tree::{Dict, Txt};
use std::alloc::{AllocError, Global};
use std::mem;

/// What the properties of a path come to, with the properties themselves where all are known.
#[derive(Drop)]
pub struct Found {
    pub evaluated: Evaluated,
    pub known: Option<Dict>,
}

/// Of which paths the properties may be still to be worked out, since all of them were looked at.
#[derive(Drop)]
pub enum Unlooked {
    /// Of none.
    Nothing,
    /// Of those that need the path at this place.
    UsersOf { at: usize },
    /// Of any.
    Anything,
}

/// What is kept of each path of the operation's source, by its place in the order of work.
#[derive(Drop)]
pub struct Findings {
    /// Where its resource stands among those that the operation made.
    pub made: Vec<Option<usize>>,
    /// Where its resource stands among those that are held.
    pub held: Vec<Option<usize>>,
    /// What its properties come to, where that is worked out.
    pub found: Vec<Option<Found>>,
    /// Of which paths that may be still to be worked out; no contract speaks of it.
    pub unlooked: Unlooked,
    /// Which paths are ready, where a creation goes forward.
    pub ahead: Option<Ahead>,
}

/// The layout of the source of a stack's last create or update, where there was one.
#[tactic(auto, using(crate::proofs::Sought::layout_there, crate::proofs::Sought::layout_nowhere))]
pub fn layout_of(state: &State) -> Option<&Layout>
    ensures { IsLayoutOf (state_of state.now) (option_copied result) }
{
    match &state.outset {
        Some(outset) => Some(outset.layout()),
        None => None,
    }
}

/// The rows of its source.
fn rows_of(state: &State) -> &[Placed]
    ensures { map (λ r. r.path) result.now ≡ map (λ m. m.path) (source_members (state_of state.now)) }
{
    match layout_of(state) {
        Some(layout) => layout.rows.as_slice(),
        None => &[],
    }
}

/// So many places of nothing.
#[tactic(auto, using(crate::proofs::Noted::nowhere_more))]
fn no_places(alloc: Global, count: usize) -> Result<Vec<Option<usize>>, AllocError>
    ensures { IfOk result (λ places. places.items ≡ replicate count nowhere) }
{
    let mut places = Vec::new(alloc);
    for _ in 0..count {
        places.push(None)?;
    }
    Ok(places)
}

/// Notes where a resource stands, unless it is superseded or its path has no place; it gives the place at which the next one may be
/// looked for first.
#[tactic(auto, using(crate::proofs::Noted::stands_replaced))]
fn note_place(
    layout: &Layout,
    places: &mut Vec<Option<usize>>,
    near: usize,
    at: usize,
    held: &Held,
) -> usize
    ensures { Notes layout.now at held.now places.old.items places.new.items }
{
    if held.superseded {
        return near;
    }
    match layout.place_near(near, &held.path) {
        Some(place) => {
            put_place(places, place, at);
            place.saturating_add(1)
        }
        None => near,
    }
}

/// The places in a list of the resources that it holds at the paths of a layout. Resources in the order of work are found at once, any
/// other by halves.
#[tactic(auto, using(crate::proofs::Noted::none_stand, crate::proofs::Noted::more_stand))]
fn places_among(
    alloc: Global,
    layout: &Layout,
    helds: &[Held],
) -> Result<Vec<Option<usize>>, AllocError>
    ensures { IfOk result (λ places. StandAt layout.now helds.now places.items) }
{
    let mut places = no_places(alloc, layout.rows.len())?;
    let mut near = 0;
    for (at, held) in helds.iter().enumerate() {
        near = note_place(layout, &mut places, near, at, held);
    }
    Ok(places)
}

/// The places in a list of the resources that it holds at the paths of the source.
#[tactic(auto, using(crate::proofs::Noted::no_paths))]
fn places_in(alloc: Global, state: &State, helds: &[Held]) -> Result<Vec<Option<usize>>, AllocError>
    ensures { IfOk result (λ places. places.items ≡ map (λ m. place_among m.path helds.now) (source_members (state_of state.now))) }
{
    match layout_of(state) {
        Some(layout) => places_among(alloc, layout, helds),
        None => Ok(Vec::new(alloc)),
    }
}

/// Nothing is worked out of so many paths.
#[tactic(auto, using(crate::proofs::Sought::nothing_more))]
fn nothing_found(alloc: Global, count: usize) -> Result<Vec<Option<Found>>, AllocError>
    ensures count { IfOk result (λ found. length found.items ≡ count) }
    ensures none { IfOk result (λ found. IsNothing found.items) }
{
    let mut found = Vec::new(alloc);
    'places: while found.len() < count {
        found.push(None)?;
    }
    Ok(found)
}

/// Findings of a stack, of which nothing is worked out yet.
///
/// # Errors
///
/// Only for want of memory.
pub fn findings_of(alloc: Global, state: &State) -> Result<Findings, AllocError>
    ensures findings { IfOk result (AreFindings (state_of state.now)) }
    ensures kept { IfOk result (AreKept (state_of state.now)) }
{
    let made = places_in(alloc, state, state.made.as_slice())?;
    let held = places_in(alloc, state, state.held.as_slice())?;
    let found = nothing_found(alloc, made.len())?;
    Ok(Findings {
        made,
        held,
        found,
        unlooked: Unlooked::Anything,
        ahead: None,
    })
}

/// The place that is kept of a path, where there is one.
pub(crate) fn place_at(places: &[Option<usize>], at: usize) -> Option<usize>
    ensures { result ≡ kept_at places.now at }
{
    match places.get(at) {
        Some(place) => *place,
        None => None,
    }
}

/// The resource at a place of a list, where there is one.
fn held_at(helds: &[Held], place: Option<usize>) -> Option<&Held>
    ensures { option_copied result ≡ option_and_then (slice_get helds.now) place }
{
    match place {
        Some(place) => helds.get(place),
        None => None,
    }
}

/// The resource of the path at a place: the one that the operation made, or else the held one.
#[tactic(auto, using(crate::proofs::Sought::resource_there))]
fn resource_of<'a>(state: &'a State, findings: &Findings, at: usize) -> Option<&'a Held>
    requires { AreFindings (state_of state.now) findings.now }
    ensures { option_copied result ≡ resource_in (state_of state.now) at }
{
    match held_at(
        state.made.as_slice(),
        place_at(findings.made.as_slice(), at),
    ) {
        Some(held) => Some(held),
        None => held_at(
            state.held.as_slice(),
            place_at(findings.held.as_slice(), at),
        ),
    }
}

/// What the resources of these paths show.
fn seen_at(
    alloc: Global,
    state: &State,
    findings: &Findings,
    needs: &[usize],
) -> Result<Seen, AllocError>
    requires { AreFindings (state_of state.now) findings.now }
    ensures { IfOk result (λ seen. seen ≡ seen_of_places (state_of state.now) needs.now) }
{
    let mut seen = Seen::new(alloc);
    let mut left = needs.len();
    while left > 0 {
        left -= 1;
        if let Some(held) = resource_of(state, findings, needs[left]) {
            see(alloc, &mut seen, held)?;
        }
    }
    Ok(seen)
}

/// What the properties of a row come to over the resources of what it needs.
fn evaluate(
    alloc: Global,
    state: &State,
    outset: &Outset,
    findings: &Findings,
    row: &Placed,
) -> Result<Option<Evaluated>, AllocError>
    requires { AreFindings (state_of state.now) findings.now }
    ensures { IfOk result (λ v. v
        ≡ props_at outset.now.source (shape_of outset.now.source (seen_in outset.now.before)) (seen_of_places (state_of state.now) row.now.needs.items) row.now.path) }
{
    let seen = seen_at(alloc, state, findings, row.needs.as_slice())?;
    let found = props_at(alloc, outset.source(), outset.shape(), &seen, &row.path);
    drop(seen);
    found
}

/// What properties come to, with the properties themselves where all are known.
fn found_of(alloc: Global, evaluated: Evaluated) -> Result<Found, AllocError>
    ensures evaluated { IfOk result (λ found. found.evaluated ≡ evaluated) }
    ensures known { IfOk result (λ found. found.known ≡ known_of evaluated) }
{
    match known_in(alloc, &evaluated) {
        Ok(known) => Ok(Found { evaluated, known }),
        Err(failed) => {
            drop(evaluated);
            Err(failed)
        }
    }
}

/// The properties themselves, where all are known.
fn known_in(alloc: Global, evaluated: &Evaluated) -> Result<Option<Dict>, AllocError>
    ensures { IfOk result (λ known. known ≡ known_of evaluated.now) }
{
    match evaluated {
        Evaluated::Flawed { flaw: _ } => Ok(None),
        Evaluated::Known { props } => props.known(alloc),
    }
}

/// What the properties of a row come to.
fn find_row(
    alloc: Global,
    state: &State,
    outset: &Outset,
    findings: &Findings,
    row: &Placed,
) -> Result<Option<Found>, AllocError>
    requires { AreFindings (state_of state.now) findings.now }
    ensures { IfOk result (IsFoundBy
        (props_at outset.now.source (shape_of outset.now.source (seen_in outset.now.before)) (seen_of_places (state_of state.now) row.now.needs.items) row.now.path)) }
{
    match evaluate(alloc, state, outset, findings, row)? {
        Some(evaluated) => Ok(Some(found_of(alloc, evaluated)?)),
        None => Ok(None),
    }
}

/// What the properties at a place come to over the resources of now; only what they need is looked at.
///
/// # Errors
///
/// Only for want of memory.
#[tactic(auto, using(crate::proofs::Sought::found_at, crate::proofs::Sought::none_at, crate::proofs::Sought::none_without))]
pub fn find_at(
    alloc: Global,
    state: &State,
    findings: &Findings,
    at: usize,
) -> Result<Option<Found>, AllocError>
    requires { AreFindings (state_of state.now) findings.now }
    ensures { IfOk result (λ found. (m : Member) → slice_get (source_members (state_of state.now)) at ≡ Some m
        → FindsAt (state_of state.now) m.path found) }
{
    match &state.outset {
        Some(outset) => match outset.layout().row_at(at) {
            Some(row) => find_row(alloc, state, outset, findings, row),
            None => Ok(None),
        },
        None => Ok(None),
    }
}

/// Whether a path has a resource.
fn is_there(findings: &Findings, at: usize) -> bool {
    place_at(findings.made.as_slice(), at).is_some()
        || place_at(findings.held.as_slice(), at).is_some()
}

/// Whether nothing is worked out at a place, and all that it needs has a resource.
fn is_due(rows: &[Placed], findings: &Findings, at: usize) -> bool {
    match (findings.found.get(at), rows.get(at)) {
        (Some(None), Some(row)) => row.needs.iter().all(|need| is_there(findings, *need)),
        _ => false,
    }
}

/// Puts in what the properties at a place come to.
fn put_found(findings: &mut Findings, at: usize, found: Found)
    ensures made { findings.new.made ≡ findings.old.made }
    ensures held { findings.new.held ≡ findings.old.held }
    ensures found { findings.new.found.items ≡ set findings.old.found.items at (Some found) }
    ensures ahead { findings.new.ahead ≡ findings.old.ahead }
{
    if at < findings.found.len() {
        findings.found[at] = Some(found);
    }
}

/// Works out what the properties at a place come to.
fn find_one(
    alloc: Global,
    state: &State,
    findings: &mut Findings,
    at: usize,
) -> Result<(), AllocError>
    requires { AreKept (state_of state.now) findings.old }
    ensures { AreKept (state_of state.now) findings.new }
{
    if let Some(found) = find_at(alloc, state, findings, at)? {
        put_found(findings, at, found);
        follow_found(
            &mut findings.ahead,
            findings.made.as_slice(),
            findings.found.as_slice(),
            at,
        );
    }
    Ok(())
}

/// Works out what the properties at a place come to, where they are due.
fn find_due(
    alloc: Global,
    state: &State,
    rows: &[Placed],
    findings: &mut Findings,
    at: usize,
) -> Result<(), AllocError>
    requires { AreKept (state_of state.now) findings.old }
    ensures { AreKept (state_of state.now) findings.new }
{
    if is_due(rows, findings, at) {
        find_one(alloc, state, findings, at)
    } else {
        Ok(())
    }
}

/// Works out what the properties of each path come to, where they are due. After an error some of it may be worked out.
fn find_all(alloc: Global, state: &State, findings: &mut Findings) -> Result<(), AllocError>
    requires { AreKept (state_of state.now) findings.old }
    ensures { AreKept (state_of state.now) findings.new }
{
    let rows = rows_of(state);
    for at in 0..rows.len() {
        find_due(alloc, state, rows, findings, at)?;
    }
    Ok(())
}

/// Works out what the properties of the paths at some places come to, where they are due. After an error some of it may be
/// worked out.
fn find_each(
    alloc: Global,
    state: &State,
    places: &[usize],
    findings: &mut Findings,
) -> Result<(), AllocError>
    requires { AreKept (state_of state.now) findings.old }
    ensures { AreKept (state_of state.now) findings.new }
{
    let rows = rows_of(state);
    for at in places {
        find_due(alloc, state, rows, findings, *at)?;
    }
    Ok(())
}

/// Works out what the properties of the paths that need the one at a place come to, where they are due. After an error some of it
/// may be worked out.
fn find_users(
    alloc: Global,
    state: &State,
    at: usize,
    findings: &mut Findings,
) -> Result<(), AllocError>
    requires { AreKept (state_of state.now) findings.old }
    ensures { AreKept (state_of state.now) findings.new }
{
    match layout_of(state) {
        Some(layout) => find_each(alloc, state, layout.users_at(at), findings),
        None => Ok(()),
    }
}

/// Nothing is to be looked at any more.
#[tactic(auto, using(crate::proofs::Followed::kept_looked))]
fn set_looked(findings: &mut Findings)
    ensures { (s : StackState) → AreKept s findings.old → AreKept s findings.new }
{
    findings.unlooked = Unlooked::Nothing;
}

/// Works out what the properties come to of the paths of which that may be to be done, where they are due. After an error some of
/// it may be worked out.
fn find_unlooked(alloc: Global, state: &State, findings: &mut Findings) -> Result<(), AllocError>
    requires { AreKept (state_of state.now) findings.old }
    ensures { AreKept (state_of state.now) findings.new }
{
    match findings.unlooked {
        Unlooked::Nothing => Ok(()),
        Unlooked::UsersOf { at } => find_users(alloc, state, at, findings),
        Unlooked::Anything => find_all(alloc, state, findings),
    }
}

/// Works out what the properties of each path come to all of whose needs are made or held, where that is not known yet: of those
/// that may have become so since all was looked at. After an error some of it may be worked out.
fn find_more(alloc: Global, state: &State, findings: &mut Findings) -> Result<(), AllocError>
    requires { AreKept (state_of state.now) findings.old }
    ensures { AreKept (state_of state.now) findings.new }
{
    find_unlooked(alloc, state, findings)?;
    set_looked(findings);
    Ok(())
}

/// Keeps which paths are ready, where a creation goes forward.
fn put_ahead(findings: &mut Findings, ahead: Option<Ahead>)
    ensures { findings.new ≡ record findings.old { ahead = ahead } }
{
    drop(mem::replace(&mut findings.ahead, ahead));
}

/// Works out which paths are ready, where a creation goes forward and that is not kept yet.
#[tactic(auto, using(crate::proofs::Followed::kept_ahead))]
fn look_ahead(alloc: Global, state: &State, findings: &mut Findings) -> Result<(), AllocError>
    requires { AreKept (state_of state.now) findings.old }
    ensures { AreKept (state_of state.now) findings.new }
{
    if findings.ahead.is_none() {
        let made = findings.made.as_slice();
        let ahead = ahead_of(alloc, state, made, findings.found.as_slice())?;
        put_ahead(findings, ahead);
    }
    Ok(())
}

/// Works out what the properties of each path come to all of whose needs are made or held, and which paths are ready, where that
/// is not known yet. After an error some of it may be worked out.
fn look_on(alloc: Global, state: &State, findings: &mut Findings) -> Result<(), AllocError>
    requires { AreKept (state_of state.now) findings.old }
    ensures { AreKept (state_of state.now) findings.new }
{
    find_more(alloc, state, findings)?;
    look_ahead(alloc, state, findings)
}

/// Works out what the properties of each path come to all of whose needs are made or held, where that is not known yet; the
/// findings are laid out first, where there are none, and which paths are ready is kept, where a creation goes forward. After an error
/// some of it may be worked out.
///
/// # Errors
///
/// Only for want of memory.
pub fn look(alloc: Global, state: &State, findings: &mut Option<Findings>) -> Result<(), AllocError>
    requires { IfSome findings.old (AreKept (state_of state.now)) }
    ensures { IfSome findings.new (AreKept (state_of state.now)) }
{
    match findings {
        Some(findings) => look_on(alloc, state, findings),
        None => {
            let mut first = findings_of(alloc, state)?;
            let found = look_on(alloc, state, &mut first);
            *findings = Some(first);
            found
        }
    }
}
