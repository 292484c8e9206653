//! What is kept of the rollback of an update: which of the resources that its stack held before are still to be given back what they had.
ghost use Rattle.std.specs.Prelude.{◌≡◌, ◌==◌, ◌&&◌, IfOk, IfSome, List, [], ℕ, false, flat_map, fold, length, map, option_copied, replicate, set, slice_index_or, true};
ghost use Rattle.std.specs.List.{list_any};
ghost use Rattle.cf_effect.specs.Ahead.{called_heard};
ghost use Rattle.cf_effect.specs.Calls.{succeeded};
ghost use Rattle.cf_effect.specs.Fold.{effect_at};
ghost use Rattle.cf_effect.specs.Operation.{named_in};
ghost use Rattle.cf_effect.specs.Restoring.{AreAwaited, AreOwnPlaces, GivesBack, HasRank, IsRestoreAt, IsRestoring, UpdatesAt, awaits_by, held_ranked, id_of, is_change, is_changed_by, is_return, may_change, path_of, with_updated, with_passed};
ghost use Rattle.cf_effect.specs.State.{state_of};
ghost use Rattle.cf_effect.specs.Status.{goes_forward};
ghost use Rattle.cf_tree.specs.Keys.{ascends};

use crate::call::{Call, Settled};
use crate::heard::HeardEntry;
use crate::held::{Held, Pending};
use crate::index::places_of;
use crate::state::State;
use crate::statuses::goes_back;
use crate::undoing::{are_first, is_own, mark};
use cf_entry::{Begun, Entry, Status};
use cf_ready::Flags;
use cf_tree::{ByName, Request, TryClone, Txt};
use std::alloc::{AllocError, Global};
use std::mem;

/// What is kept of the rollback of an update.
#[derive(Drop)]
pub struct Restoring {
    /// The places of the resources of before, by their paths.
    pub paths: ByName<usize>,
    /// The rank of each path among these, by its place.
    pub ranks: Vec<usize>,
    /// Which resources are still to be given back what they had, by the ranks of their paths.
    pub awaited: Flags,
}

/// Whether a stack that has this status goes forward.
fn goes_forward(status: Status) -> bool
    ensures { result ≡ goes_forward status }
{
    matches!(status, Status::CreateInProgress | Status::UpdateInProgress)
}

/// Whether a call succeeded.
fn succeeded(call: &Call) -> bool
    ensures { result ≡ succeeded call.now }
{
    matches!(call.answer, Some(Settled::Success))
}

/// Whether a call went out in a forward phase and succeeded.
fn is_change(call: &Call) -> bool
    ensures { result ≡ is_change call.now }
{
    goes_forward(call.status) && succeeded(call)
}

/// Whether a call went out in a rollback, and it succeeded or is one of an operation.
fn is_return(number: u64, call: &Call) -> bool
    ensures { result ≡ is_return number call.now }
{
    goes_back(call.status) && (succeeded(call) || call.number == number)
}

/// The ids of these resources.
fn ids_in(alloc: Global, helds: &[Held]) -> Result<Vec<Option<Txt>>, AllocError>
    ensures { IfOk result (λ ids. ids.items ≡ map id_of helds.now) }
{
    let mut ids = Vec::new(alloc);
    for held in helds {
        ids.push(Some(held.physical.try_clone(alloc)?))?;
    }
    Ok(ids)
}

/// The paths of these resources.
fn paths_in(alloc: Global, helds: &[Held]) -> Result<Vec<Option<Txt>>, AllocError>
    ensures { IfOk result (λ paths. paths.items ≡ map path_of helds.now) }
{
    let mut paths = Vec::new(alloc);
    for held in helds {
        paths.push(Some(held.path.try_clone(alloc)?))?;
    }
    Ok(paths)
}

/// The places of names, where each is found at its own.
fn own_places(alloc: Global, names: &[Option<Txt>]) -> Result<Option<ByName<usize>>, AllocError>
    ensures { IfOk result (λ places. IfSome places (AreOwnPlaces names.now)) }
{
    let places = places_of(alloc, names)?;
    if are_first(names, &places) {
        Ok(Some(places))
    } else {
        Ok(None)
    }
}

/// The places of the ids of these resources, where each has its own.
fn own_ids(alloc: Global, helds: &[Held]) -> Result<Option<ByName<usize>>, AllocError>
    ensures { IfOk result (λ places. IfSome places (AreOwnPlaces (map id_of helds.now))) }
{
    let ids = ids_in(alloc, helds)?;
    own_places(alloc, ids.as_slice())
}

/// The places of the paths of these resources, where each has its own.
fn own_paths(alloc: Global, helds: &[Held]) -> Result<Option<ByName<usize>>, AllocError>
    ensures { IfOk result (λ places. IfSome places (AreOwnPlaces (map path_of helds.now))) }
{
    let paths = paths_in(alloc, helds)?;
    own_places(alloc, paths.as_slice())
}

/// Marks where the resource stands that a request updates.
fn mark_request(ids: &ByName<usize>, marks: &mut Vec<bool>, request: &Request)
    ensures { marks.new.items ≡ with_updated ids.now marks.old.items request.now }
{
    if let Request::Update { physical, props: _ } = request {
        if let Some(at) = ids.get(physical.as_str()) {
            mark(marks, *at);
        }
    }
}

/// Where the resources stand that were updated in place, of so many.
fn changed_of(
    alloc: Global,
    ids: &ByName<usize>,
    calls: &[Call],
    count: usize,
) -> Result<Vec<bool>, AllocError>
    ensures { IfOk result (λ marks. marks.items ≡ fold (with_passed is_change ids.now) (replicate count false) calls.now) }
{
    let mut marks = vec![in alloc; false; count]?;
    for call in calls {
        if is_change(call) {
            mark_request(ids, &mut marks, &call.request);
        }
    }
    Ok(marks)
}

/// Where the resources stand that were given back what they had, or of which an operation called to do so, of so many.
fn returned_of(
    alloc: Global,
    ids: &ByName<usize>,
    number: u64,
    calls: &[Call],
    count: usize,
) -> Result<Vec<bool>, AllocError>
    ensures { IfOk result (λ marks. marks.items ≡ fold (with_passed (is_return number) ids.now) (replicate count false) calls.now) }
{
    let mut marks = vec![in alloc; false; count]?;
    for call in calls {
        if is_return(number, call) {
            mark_request(ids, &mut marks, &call.request);
        }
    }
    Ok(marks)
}

/// Whether a place is marked.
fn is_marked(marks: &[bool], at: usize) -> bool
    ensures { result ≡ slice_index_or marks.now at false }
{
    match marks.get(at) {
        Some(marked) => *marked,
        None => false,
    }
}

/// Whether a place is marked by the ones and not by the others.
fn awaits_by(changed: &[bool], returned: &[bool], at: usize) -> bool
    ensures { result ≡ awaits_by changed.now returned.now at }
{
    is_marked(changed, at) && !is_marked(returned, at)
}

/// The flags of paths in their order, by what is marked at their places.
#[tactic(auto, using(crate::proofs::GivenBack::flags_first, crate::proofs::GivenBack::flags_more, crate::proofs::GivenBack::flags_all))]
fn awaited_of(
    alloc: Global,
    paths: &[(Txt, usize)],
    changed: &[bool],
    returned: &[bool],
) -> Result<Flags, AllocError>
    ensures count { IfOk result (λ flags. length flags ≡ length paths.now) }
    ensures flags { IfOk result (AreAwaited paths.now changed.now returned.now) }
{
    let mut flags = Flags::new(alloc, paths.len())?;
    for (rank, named) in paths.iter().enumerate() {
        flags.set(rank, awaits_by(changed, returned, named.1));
    }
    Ok(flags)
}

/// Puts a rank at a place, where there is one.
fn put_rank(ranks: &mut Vec<usize>, at: usize, rank: usize) {
    if at < ranks.len() {
        ranks[at] = rank;
    }
}

/// The ranks of paths in their order, by their places, of so many.
fn ranks_of(alloc: Global, paths: &[(Txt, usize)], count: usize) -> Result<Vec<usize>, AllocError> {
    let mut ranks = vec![in alloc; 0; count]?;
    for (rank, named) in paths.iter().enumerate() {
        put_rank(&mut ranks, named.1, rank);
    }
    Ok(ranks)
}

/// Whether the names of paths ascend, as they do.
fn in_order(paths: &ByName<usize>)
    ensures { ascends paths.now ≡ true }
{
    let _names = paths.as_slice();
}

/// What is kept of the rollback of a stack, by the places of the ids and of the paths of the resources of before.
fn restoring_by(
    alloc: Global,
    state: &State,
    before: &[Held],
    ids: &ByName<usize>,
    paths: ByName<usize>,
) -> Result<Restoring, AllocError>
    ensures { IfOk result (λ r. GivesBack (state_of state.now) → before.now ≡ (state_of state.now).before
        → AreOwnPlaces (map id_of before.now) ids.now → AreOwnPlaces (map path_of before.now) paths → IsRestoring (state_of state.now) r) }
{
    in_order(&paths);
    let count = before.len();
    let calls = state.ledger.as_slice();
    let changed = changed_of(alloc, ids, calls, count)?;
    let returned = returned_of(alloc, ids, state.operation, calls, count)?;
    let awaited = awaited_of(
        alloc,
        paths.as_slice(),
        changed.as_slice(),
        returned.as_slice(),
    )?;
    let ranks = ranks_of(alloc, paths.as_slice(), count)?;
    Ok(Restoring {
        paths,
        ranks,
        awaited,
    })
}

/// Whether an entry names no paths.
fn names_none(entry: &Entry) -> bool
    ensures { result ≡ true → named_in entry.now ≡ [] }
{
    match entry {
        Entry::Begin {
            number: _,
            stack: _,
            kind: Begun::Delete { paths } | Begun::Continue { paths },
        } => paths.is_empty(),
        _ => true,
    }
}

/// Whether an entry as its stack keeps it names no paths.
#[tactic(auto, using(crate::proofs::GivenBack::success_names_none))]
fn heard_none(heard: &HeardEntry) -> bool
    ensures { result ≡ true → named_in heard.now ≡ [] }
{
    match heard.as_entry() {
        Some(entry) => names_none(entry),
        None => true,
    }
}

/// Whether none of these entries names paths.
#[tactic(auto, using(crate::proofs::GivenBack::none_named_more, crate::proofs::GivenBack::none_named_all))]
fn name_none(entries: &[HeardEntry]) -> bool
    ensures { result ≡ true → flat_map named_in entries.now ≡ [] }
{
    for heard in entries {
        if !heard_none(heard) {
            return false;
        }
    }
    true
}

/// Whether an update is rolled back, of which no continued rollback skips a path.
fn gives_back(state: &State) -> bool
    ensures { result ≡ true → GivesBack (state_of state.now) }
{
    matches!(state.status, Status::UpdateRollbackInProgress) && name_none(state.entries.as_slice())
}

/// What is kept of the rollback of a stack, where each resource of before is of a path and an id of its own.
///
/// # Errors
///
/// Only for want of memory.
fn restoring_of(alloc: Global, state: &State) -> Result<Option<Restoring>, AllocError>
    ensures { IfOk result (λ r. IfSome r (IsRestoring (state_of state.now))) }
{
    if !gives_back(state) {
        return Ok(None);
    }
    let before = state.before();
    match own_ids(alloc, before)? {
        Some(ids) => match own_paths(alloc, before)? {
            Some(paths) => Ok(Some(restoring_by(alloc, state, before, &ids, paths)?)),
            None => Ok(None),
        },
        None => Ok(None),
    }
}

/// Works out what is kept of the rollback of the update of a stack, where that is not kept yet.
///
/// # Errors
///
/// Only for want of memory.
pub fn look_restoring(
    alloc: Global,
    state: &State,
    restoring: &mut Option<Restoring>,
) -> Result<(), AllocError>
    requires { IfSome restoring.old (IsRestoring (state_of state.now)) }
    ensures { IfSome restoring.new (IsRestoring (state_of state.now)) }
{
    if restoring.is_none() {
        *restoring = restoring_of(alloc, state)?;
    }
    Ok(())
}

/// The resource of the path of a rank.
pub fn held_ranked<'a>(before: &'a [Held], restoring: &Restoring, rank: usize) -> Option<&'a Held>
    ensures { option_copied result ≡ held_ranked before.now restoring.now.paths rank }
{
    match restoring.paths.as_slice().get(rank) {
        Some(named) => before.get(named.1),
        None => None,
    }
}

/// Whether the resource of the path of a rank has this id.
#[tactic(auto, using(crate::proofs::GivenBack::has_rank_so))]
fn has_rank(before: &[Held], restoring: &Restoring, rank: usize, physical: &Txt) -> bool
    ensures { result ≡ true → HasRank before.now restoring.now.paths physical.now rank }
{
    match held_ranked(before, restoring, rank) {
        Some(held) => held.physical == *physical,
        None => false,
    }
}

/// The rank of a path, where it is one of these; nothing is said of it.
fn rank_of(restoring: &Restoring, path: &Txt) -> Option<usize> {
    match restoring.paths.get(path.as_str()) {
        Some(at) => restoring.ranks.get(*at).copied(),
        None => None,
    }
}

/// The rank of a path whose resource has this id.
fn rank_with(before: &[Held], restoring: &Restoring, path: &Txt, physical: &Txt) -> Option<usize>
    ensures { IfSome result (HasRank before.now restoring.now.paths physical.now) }
{
    match rank_of(restoring, path) {
        Some(rank) => {
            if has_rank(before, restoring, rank, physical) {
                Some(rank)
            } else {
                None
            }
        }
        None => None,
    }
}

/// The rank of a path whose resource a request updates.
fn rank_updated(
    before: &[Held],
    restoring: &Restoring,
    path: &Txt,
    request: &Request,
) -> Option<usize>
    ensures { IfSome result (UpdatesAt before.now restoring.now.paths request.now) }
{
    match request {
        Request::Update { physical, props: _ } => rank_with(before, restoring, path, physical),
        _ => None,
    }
}

/// Takes a flag off, where there is one.
#[tactic(auto, using(cf_ready::proofs::Counted::set_past))]
fn take_flag(flags: &mut Flags, rank: usize)
    ensures { flags.new ≡ set flags.old rank false }
{
    if rank < flags.len() {
        flags.set(rank, false);
    }
}

/// The rank of what a call is to give back what it had, where it is the operation's.
fn rank_restored(
    state: &State,
    number: u64,
    pending: &Pending,
    entry: &Entry,
    restoring: &Restoring,
) -> Option<usize>
    ensures { IfSome result (IsRestoreAt number pending.now entry.now (state_of state.now) restoring.now) }
{
    if !is_own(state, number, pending.token) {
        return None;
    }
    if !names_none(entry) {
        return None;
    }
    let helds = state.before();
    rank_updated(helds, restoring, &pending.path, &pending.request)
}

/// Notes that a call is to give a resource back what it had; `false` where nothing is said of what is kept once it goes out.
fn note_restore(
    state: &State,
    number: u64,
    pending: &Pending,
    entry: &Entry,
    restoring: &mut Restoring,
) -> bool
    requires { IsRestoring (state_of state.now) restoring.old }
    ensures { result ≡ true → (lines : List (List ℕ))
        → IsRestoring (called_heard number pending.now entry.now lines (state_of state.now)) restoring.new }
{
    match rank_restored(state, number, pending, entry, &*restoring) {
        Some(rank) => {
            take_flag(&mut restoring.awaited, rank);
            true
        }
        None => false,
    }
}

/// Notes a call in what is kept, where anything is; `false` where nothing is said of that once it goes out.
fn is_noted(
    state: &State,
    number: u64,
    pending: &Pending,
    entry: &Entry,
    restoring: &mut Option<Restoring>,
) -> bool
    requires { IfSome restoring.old (IsRestoring (state_of state.now)) }
    ensures { result ≡ true → (lines : List (List ℕ))
        → IfSome restoring.new (IsRestoring (called_heard number pending.now entry.now lines (state_of state.now))) }
{
    match restoring {
        Some(restoring) => note_restore(state, number, pending, entry, restoring),
        None => true,
    }
}

/// Lets what is kept of the rollback of an update follow a call that is to go out, and the entry of which its stack hears then: it is
/// let go, unless the operation calls to give a resource back what it had. It takes no memory.
pub fn follow_restore(
    state: &State,
    number: u64,
    pending: &Pending,
    entry: &Entry,
    restoring: &mut Option<Restoring>,
)
    requires { IfSome restoring.old (IsRestoring (state_of state.now)) }
    ensures { (lines : List (List ℕ))
        → IfSome restoring.new (IsRestoring (called_heard number pending.now entry.now lines (state_of state.now))) }
{
    if !is_noted(state, number, pending, entry, restoring) {
        drop(mem::replace(restoring, None));
    }
}

/// Whether an outcome of a call may change what is to be given back.
fn may_change(number: u64, call: &Call) -> bool
    ensures { result ≡ may_change number call.now }
{
    matches!(
        call.request,
        Request::Update {
            physical: _,
            props: _
        }
    ) && !(goes_back(call.status) && call.number == number)
}

/// Whether an outcome under a token may change what is to be given back.
fn is_changed_by(calls: &[Call], number: u64, token: u64) -> bool
    ensures { result ≡ list_any (is_changed_by number token) calls.now }
{
    calls
        .iter()
        .any(|call| token == call.token && may_change(number, call))
}

/// Whether an entry leaves all as it is kept.
fn leaves_all(state: &State, entry: &Entry) -> bool
    ensures { result ≡ true → (place : ℕ) (r : Restoring) → IsRestoring (state_of state.now) r
        → IsRestoring (effect_at place entry.now (state_of state.now)).stack r }
{
    match entry {
        Entry::Outcome { token, .. } => {
            !is_changed_by(state.ledger.as_slice(), state.operation, *token)
        }
        _ => false,
    }
}

/// Whether what is kept stays right over an entry that is still to come.
fn stays(state: &State, entry: &Entry, restoring: &Option<Restoring>) -> bool
    requires { IfSome restoring.now (IsRestoring (state_of state.now)) }
    ensures { result ≡ true → (place : ℕ) → IfSome restoring.now (IsRestoring (effect_at place entry.now (state_of state.now)).stack) }
{
    match restoring {
        Some(_) => leaves_all(state, entry),
        None => true,
    }
}

/// Lets what is kept of the rollback of an update follow an outcome of its stack, which is still to come: it is let go, unless that is
/// of a call that went out in this rollback. It takes no memory.
pub fn follow_restored(state: &State, entry: &Entry, restoring: &mut Option<Restoring>)
    requires { IfSome restoring.old (IsRestoring (state_of state.now)) }
    ensures { (place : ℕ) → IfSome restoring.new (IsRestoring (effect_at place entry.now (state_of state.now)).stack) }
{
    if !stays(state, entry, &*restoring) {
        drop(mem::replace(restoring, None));
    }
}
