//! What is kept of a creation that is rolled back, which holds nothing from before: which of the resources that it made may be deleted.
ghost use Rattle.std.specs.Prelude.{◌≡◌, ◌==◌, ◌&&◌, not, IfOk, IfSome, List, [], ℕ, None, Some, false, fold, length, map, option_copied, replicate, set, true};
ghost use Rattle.std.specs.List.{list_any};
ghost use Rattle.cf_entry.specs.declared.entry.Entry.{Entry as Written};
ghost use Rattle.cf_effect.specs.Ahead.{called_heard};
ghost use Rattle.cf_effect.specs.Fold.{effect_at};
ghost use Rattle.cf_effect.specs.Layout.{AreRows, source_members};
ghost use Rattle.cf_effect.specs.State.{state_of};
ghost use Rattle.cf_effect.specs.Undoing.{AreFirst, AreIds, DeletesAt, IsFreeFor, IsPlain, IsTriedAt, IsUndoing, PutsId, RollsBack, StandsAt, TakesOff, TakesOffIf, Undoes, completes_deletion, gone_if, id_at, is_first, with_call};
ghost use Rattle.cf_effect.specs.Words.{has_token};
ghost use Rattle.cf_effect.specs.World.{StackState};

use crate::ahead::{Way, readiness_of, touch_around};
use crate::call::Call;
use crate::following::put_place;
use crate::held::{Held, Pending};
use crate::index::{FoundByPath, places_of};
use crate::layout::Layout;
use crate::state::State;
use crate::tokens::{is_open, pending_with};
use cf_desired::Shared;
use cf_entry::{Entry, Reply, Status};
use cf_ready::Readiness;
use cf_tree::{ByName, Code, Deletion, Request, Txt};
use std::alloc::{AllocError, Global};
use std::mem;

/// What is kept of a creation that is rolled back, by the places of its source's layout.
#[derive(Drop)]
pub struct Undoing {
    pub layout: Shared<Layout>,
    /// The physical id of what is made of each path; none where nothing of it is left.
    pub ids: Vec<Option<Txt>>,
    /// Set where nothing of a path is left, so that what is gone is told just as findings tell what is made.
    pub gone: Vec<Option<usize>>,
    /// Of which paths a deletion went out.
    pub tried: Vec<bool>,
    /// Which paths have something left, and none that needs them has.
    pub readiness: Readiness,
}

/// An id is found by itself.
impl FoundByPath for Option<Txt> {
    ghost use Rattle.cf_effect.specs.Index.{is_path};

    ghost is_found_by = { is_path };

    fn found_by(&self) -> Option<&Txt> {
        self.as_ref()
    }
}

/// What is kept of ids at a place.
fn id_at(ids: &[Option<Txt>], at: usize) -> Option<&Txt>
    ensures { option_copied result ≡ id_at ids.now at }
{
    match ids.get(at) {
        Some(id) => id.as_ref(),
        None => None,
    }
}

/// Whether this id is kept at a place.
fn has_id(ids: &[Option<Txt>], at: usize, physical: &Txt) -> bool
    ensures { result ≡ true → id_at ids.now at ≡ Some physical.now }
{
    match id_at(ids, at) {
        Some(id) => *id == *physical,
        None => false,
    }
}

/// Whether a resource is that of its path, and not to be retained.
fn is_plain(held: &Held) -> bool
    ensures { result ≡ true → IsPlain held.now }
{
    !held.superseded && !matches!(held.deletion, Deletion::Retain)
}

/// The place of the path of a resource, where it is plain and nothing stands there.
fn free_place(layout: &Layout, ids: &[Option<Txt>], held: &Held) -> Option<usize>
    ensures { IfSome result (IsFreeFor layout.now ids.now held.now) }
{
    if !is_plain(held) {
        return None;
    }
    match layout.place_of(&held.path) {
        Some(at) => match ids.get(at) {
            Some(None) => Some(at),
            _ => None,
        },
        None => None,
    }
}

/// Puts the id of a resource at the place of its path; `false` where something stands there, or it isn't plain.
fn put_id(
    alloc: Global,
    layout: &Layout,
    ids: &mut Vec<Option<Txt>>,
    held: &Held,
) -> Result<bool, AllocError>
    ensures { IfOk result (λ so. so ≡ true → PutsId layout.now held.now ids.old.items ids.new.items) }
{
    match free_place(layout, ids.as_slice(), held) {
        Some(at) => {
            ids[at] = Some(held.physical.try_clone(alloc)?);
            Ok(true)
        }
        None => Ok(false),
    }
}

/// Of so many paths nothing is there.
#[tactic(auto, using(crate::proofs::Undone::none_more))]
fn no_ids(alloc: Global, count: usize) -> Result<Vec<Option<Txt>>, AllocError>
    ensures count { IfOk result (λ ids. length ids.items ≡ count) }
    ensures none { IfOk result (λ ids. (at : ℕ) → id_at ids.items at ≡ None) }
{
    let mut ids = Vec::new(alloc);
    'places: while ids.len() < count {
        ids.push(None)?;
    }
    Ok(ids)
}

/// The ids of these resources by the places of their paths; none where one of them is not plain, or no place is its own.
#[tactic(auto, using(crate::proofs::Undone::ids_first, crate::proofs::Undone::ids_more, crate::proofs::Undone::ids_all))]
fn ids_of(
    alloc: Global,
    layout: &Layout,
    made: &[Held],
) -> Result<Option<Vec<Option<Txt>>>, AllocError>
    ensures { IfOk result (λ ids. IfSome ids (λ it. AreIds made.now layout.now it.items)) }
{
    let mut ids = no_ids(alloc, layout.rows.len())?;
    for held in made {
        if !put_id(alloc, layout, &mut ids, held)? {
            return Ok(None);
        }
    }
    Ok(Some(ids))
}

/// Whether an id is found first at a place.
fn is_first(places: &ByName<usize>, at: usize, id: &Option<Txt>) -> bool
    ensures { result ≡ is_first places.now at id.now }
{
    match id {
        Some(id) => match places.get(id.as_str()) {
            Some(first) => *first == at,
            None => false,
        },
        None => true,
    }
}

/// Whether each of these ids is found first at its own place.
#[tactic(auto, using(crate::proofs::Undone::firsts_first, crate::proofs::Undone::firsts_more, crate::proofs::Undone::firsts_all))]
pub(crate) fn are_first(ids: &[Option<Txt>], places: &ByName<usize>) -> bool
    ensures { result ≡ true → AreFirst ids.now places.now }
{
    for (at, id) in ids.iter().enumerate() {
        if !is_first(places, at, id) {
            return false;
        }
    }
    true
}

/// Marks a place, where there is one.
pub(crate) fn mark(marks: &mut Vec<bool>, at: usize)
    ensures { marks.new.items ≡ set marks.old.items at true }
{
    if at < marks.len() {
        marks[at] = true;
    }
}

/// Marks where the resource stands that a call of an operation deletes.
fn mark_call(tried: &mut Vec<bool>, places: &ByName<usize>, number: u64, call: &Call)
    ensures { tried.new.items ≡ with_call number places.now tried.old.items call.now }
{
    if call.number == number {
        if let Request::Delete { physical } = &call.request {
            if let Some(at) = places.get(physical.as_str()) {
                mark(tried, *at);
            }
        }
    }
}

/// Where the resources stand that these calls of an operation delete, of so many places.
fn tried_of(
    alloc: Global,
    places: &ByName<usize>,
    number: u64,
    calls: &[Call],
    count: usize,
) -> Result<Vec<bool>, AllocError>
    ensures { IfOk result (λ tried. tried.items ≡ fold (with_call number places.now) (replicate count false) calls.now) }
{
    let mut tried = vec![in alloc; false; count]?;
    for call in calls {
        mark_call(&mut tried, places, number, call);
    }
    Ok(tried)
}

/// The places where nothing is left.
fn gone_of(alloc: Global, ids: &[Option<Txt>]) -> Result<Vec<Option<usize>>, AllocError>
    ensures { IfOk result (λ gone. gone.items ≡ map gone_if ids.now) }
{
    let mut gone = Vec::new(alloc);
    for id in ids {
        gone.push(match id {
            Some(_) => None,
            None => Some(0),
        })?;
    }
    Ok(gone)
}

/// What is kept of a rollback whose source has this layout, by the ids of what is made.
fn undoing_by(
    alloc: Global,
    state: &State,
    layout: Shared<Layout>,
    ids: Vec<Option<Txt>>,
) -> Result<Option<Undoing>, AllocError>
    ensures { IfOk result (λ undoing. IfSome undoing (λ u. RollsBack (state_of state.now) → AreRows (source_members (state_of state.now)) layout
        → AreIds (state_of state.now).made layout ids.items → IsUndoing (state_of state.now) u)) }
{
    let places = places_of(alloc, ids.as_slice())?;
    if !are_first(ids.as_slice(), &places) {
        return Ok(None);
    }
    let tried = tried_of(
        alloc,
        &places,
        state.operation,
        state.ledger.as_slice(),
        ids.len(),
    )?;
    let gone = gone_of(alloc, ids.as_slice())?;
    let readiness = readiness_of(alloc, Way::Back, &layout, gone.as_slice(), &[])?;
    Ok(Some(Undoing {
        layout,
        ids,
        gone,
        tried,
        readiness,
    }))
}

/// Whether a creation is rolled back that holds nothing from before.
fn rolls_back(state: &State) -> bool
    ensures { result ≡ true → RollsBack (state_of state.now) }
{
    matches!(state.status, Status::RollbackInProgress) && state.held.is_empty()
}

/// What is kept of the rollback of a stack, where it made plain resources alone, each of another id.
///
/// # Errors
///
/// Only for want of memory.
fn undoing_of(alloc: Global, state: &State) -> Result<Option<Undoing>, AllocError>
    ensures { IfOk result (λ undoing. IfSome undoing (IsUndoing (state_of state.now))) }
{
    if !rolls_back(state) {
        return Ok(None);
    }
    match &state.outset {
        Some(outset) => {
            let layout = outset.share_layout(alloc)?;
            match ids_of(alloc, &layout, state.made.as_slice())? {
                Some(ids) => undoing_by(alloc, state, layout, ids),
                None => Ok(None),
            }
        }
        None => Ok(None),
    }
}

/// Works out what is kept of the rollback of a stack, where that is not kept yet.
///
/// # Errors
///
/// Only for want of memory.
pub fn look_back(
    alloc: Global,
    state: &State,
    undoing: &mut Option<Undoing>,
) -> Result<(), AllocError>
    requires { IfSome undoing.old (IsUndoing (state_of state.now)) }
    ensures { IfSome undoing.new (IsUndoing (state_of state.now)) }
{
    if undoing.is_none() {
        *undoing = undoing_of(alloc, state)?;
    }
    Ok(())
}

/// The place of a path, where this id stands there.
fn place_with(undoing: &Undoing, path: &Txt, physical: &Txt) -> Option<usize>
    ensures { IfSome result (λ at. StandsAt undoing.now path.now physical.now at) }
{
    match undoing.layout.place_of(path) {
        Some(at) => {
            if has_id(undoing.ids.as_slice(), at, physical) {
                Some(at)
            } else {
                None
            }
        }
        None => None,
    }
}

/// The place of what a request deletes, where that stands at the place of a path.
fn place_asked(undoing: &Undoing, path: &Txt, request: &Request) -> Option<usize>
    ensures { IfSome result (DeletesAt undoing.now path.now request.now) }
{
    match request {
        Request::Delete { physical } => place_with(undoing, path, physical),
        _ => None,
    }
}

/// Whether a call is of a stack's operation, and under a token that is not open yet.
pub(crate) fn is_own(state: &State, number: u64, token: u64) -> bool
    ensures { result ≡ ((number == (state_of state.now).operation) && not (list_any (has_token token) (state_of state.now).tokens)) }
{
    number == state.operation && !is_open(state.tokens.as_slice(), token)
}

/// The place of what a call is to delete, where it is the operation's deletion of what stands at the place of its path.
fn place_tried(state: &State, number: u64, pending: &Pending, undoing: &Undoing) -> Option<usize>
    ensures { IfSome result (IsTriedAt number pending.now (state_of state.now) undoing.now) }
{
    if is_own(state, number, pending.token) {
        place_asked(undoing, &pending.path, &pending.request)
    } else {
        None
    }
}

/// Marks what a call is to delete; `false` where nothing is said of what is kept once it goes out.
fn note_try(state: &State, number: u64, pending: &Pending, undoing: &mut Undoing) -> bool
    requires { IsUndoing (state_of state.now) undoing.old }
    ensures { result ≡ true → (e : Written) (lines : List (List ℕ))
        → IsUndoing (called_heard number pending.now e lines (state_of state.now)) undoing.new }
{
    match place_tried(state, number, pending, &*undoing) {
        Some(at) => {
            mark(&mut undoing.tried, at);
            true
        }
        None => false,
    }
}

/// Lets what is kept of a rollback follow a call that is to go out: it is let go, unless that is the operation's deletion of what
/// stands at the place of its path. It takes no memory.
pub fn follow_try(state: &State, number: u64, pending: &Pending, undoing: &mut Option<Undoing>)
    requires { IfSome undoing.old (IsUndoing (state_of state.now)) }
    ensures { (e : Written) (lines : List (List ℕ))
        → IfSome undoing.new (IsUndoing (called_heard number pending.now e lines (state_of state.now))) }
{
    let follows = match undoing {
        Some(undoing) => note_try(state, number, pending, undoing),
        None => true,
    };
    if !follows {
        drop(mem::replace(undoing, None));
    }
}

/// Takes an id off.
fn take_id(ids: &mut Vec<Option<Txt>>, at: usize)
    ensures { ids.new.items ≡ set ids.old.items at None }
{
    if at < ids.len() {
        drop(mem::replace(&mut ids[at], None));
    }
}

/// Notes that the resource at a place is deleted.
fn take_off(undoing: &mut Undoing, at: usize)
    ensures { TakesOff at undoing.old undoing.new }
{
    take_id(&mut undoing.ids, at);
    put_place(&mut undoing.gone, at, 0);
    touch_around(
        Way::Back,
        &undoing.layout,
        undoing.gone.as_slice(),
        &[],
        &mut undoing.readiness,
        at,
    );
}

/// Whether an answer completes a deletion; one that finds nothing is complete.
fn completes_deletion(answer: &Reply) -> bool
    ensures { result ≡ completes_deletion answer.now }
{
    match answer {
        Reply::Success { .. } => true,
        Reply::Failed { code } => matches!(code, Code::NotFound),
        Reply::Doubt => false,
    }
}

/// Takes off what stands at a place, where its deletion is complete.
#[tactic(auto, using(crate::proofs::Undone::taken_if, crate::proofs::Undone::kept_if))]
fn take_off_if(undoing: &mut Undoing, at: usize, complete: bool)
    ensures { TakesOffIf complete at undoing.old undoing.new }
{
    if complete {
        take_off(undoing, at);
    }
}

/// Notes what an answer to the deletion of what stands at the place of its path leaves of that; `false` where the call is another one.
fn note_answer(pending: &Pending, answer: &Reply, undoing: &mut Undoing) -> bool
    ensures { result ≡ true → Undoes pending.now answer.now undoing.old undoing.new }
{
    match place_asked(&*undoing, &pending.path, &pending.request) {
        Some(at) => {
            take_off_if(undoing, at, completes_deletion(answer));
            true
        }
        None => false,
    }
}

/// Notes what an entry leaves of what may be deleted, where it is an outcome; `false` where nothing is said of what is kept then.
fn note_deletion(state: &State, entry: &Entry, undoing: &mut Undoing) -> bool
    requires { IsUndoing (state_of state.now) undoing.old }
    ensures { result ≡ true → (place : ℕ) → IsUndoing (effect_at place entry.now (state_of state.now)).stack undoing.new }
{
    match entry {
        Entry::Outcome { token, answer, .. } => {
            match pending_with(state.tokens.as_slice(), *token) {
                Some(pending) => note_answer(pending, answer, undoing),
                None => false,
            }
        }
        _ => false,
    }
}

/// Lets what is kept of a rollback follow an outcome of its stack, which is still to come: it is let go, unless that answers a
/// deletion. It takes no memory.
pub fn follow_deletion(state: &State, entry: &Entry, undoing: &mut Option<Undoing>)
    requires { IfSome undoing.old (IsUndoing (state_of state.now)) }
    ensures { (place : ℕ) → IfSome undoing.new (IsUndoing (effect_at place entry.now (state_of state.now)).stack) }
{
    let follows = match undoing {
        Some(undoing) => note_deletion(state, entry, undoing),
        None => true,
    };
    if !follows {
        drop(mem::replace(undoing, None));
    }
}
