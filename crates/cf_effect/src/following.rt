//! How findings follow what the outcome of a call changes of the resources of their stack.
ghost use Rattle.std.specs.Prelude.{◌≡◌, ◌∷◌, [], ℕ, Bool, IfSome, IsTrue, Some, false, find, option_copied};
ghost use Rattle.std.specs.Option.{option_or};
ghost use Rattle.cf_effect.specs.declared.held.Held.{Held as resource};
ghost use Rattle.cf_effect.specs.Ahead.{AreKept, KeepsAhead, StaysAfter, StaysAhead, completes_create, is_created_by};
ghost use Rattle.cf_effect.specs.Findings.{AreFindings};
ghost use Rattle.cf_effect.specs.Fold.{effect_at};
ghost use Rattle.cf_effect.specs.Following.{AreTaken, Forgets, IsPlaceOf, KeepsPath, with_place};
ghost use Rattle.cf_effect.specs.Reply.{answered, changing, making};
ghost use Rattle.cf_effect.specs.State.{state_of};
ghost use Rattle.cf_effect.specs.Words.{has_physical};

use crate::ahead::{follow_made, lose_unless};
use crate::findings::{Findings, Found, Unlooked, layout_of};
use crate::held::{Held, Pending};
use crate::resources::with_physical;
use crate::state::State;
use crate::tokens::pending_with;
use cf_entry::{Entry, Reply};
use cf_tree::{Request, Txt};
use std::mem;

/// Takes off what was found at a place.
#[tactic(auto, using(crate::proofs::Noted::one_taken, crate::proofs::Noted::one_past))]
fn forget_one(found: &mut Vec<Option<Found>>, place: usize)
    ensures { AreTaken (place ∷ []) found.old.items found.new.items }
{
    if place < found.len() {
        drop(mem::replace(&mut found[place], None));
    }
}

/// Takes off what was found at some places.
#[tactic(auto, using(crate::proofs::Noted::none_taken, crate::proofs::Noted::taken_more, crate::proofs::Noted::all_taken))]
fn forget_each(found: &mut Vec<Option<Found>>, places: &[usize])
    ensures { AreTaken places.now found.old.items found.new.items }
{
    for place in places {
        forget_one(found, *place);
    }
}

/// Takes off what was found of the paths that need this one; gives its place, and `None` where it has none, with nothing said of
/// what was found.
fn forget_users(state: &State, found: &mut Vec<Option<Found>>, path: &Txt) -> Option<usize>
    ensures { IfSome result (λ at. Forgets (state_of state.now) path.now found.old.items found.new.items
        × IsPlaceOf (state_of state.now) path.now at) }
{
    match layout_of(state) {
        Some(layout) => match layout.place_of(path) {
            Some(at) => {
                forget_each(found, layout.users_at(at));
                Some(at)
            }
            None => None,
        },
        None => None,
    }
}

/// Takes a place, where there is none yet.
fn take_place(kept: &mut Option<usize>, place: usize)
    ensures { kept.new ≡ option_or kept.old (Some place) }
{
    match kept {
        Some(_) => {}
        None => *kept = Some(place),
    }
}

/// Puts a place in, where there is none yet.
#[tactic(auto, using(crate::proofs::Noted::put_within, crate::proofs::Noted::put_past))]
pub(crate) fn put_place(places: &mut Vec<Option<usize>>, at: usize, place: usize)
    ensures { places.new.items ≡ with_place at place places.old.items }
{
    if at < places.len() {
        take_place(&mut places[at], place);
    }
}

/// What the paths that need the one at a place come to may be still to be worked out.
fn note_users(unlooked: &mut Unlooked, at: usize) {
    match unlooked {
        Unlooked::Nothing => *unlooked = Unlooked::UsersOf { at },
        Unlooked::UsersOf { .. } | Unlooked::Anything => *unlooked = Unlooked::Anything,
    }
}

/// Notes that a resource of a path joins those that the operation made, where the path has a place; else nothing is said of the
/// findings.
fn note_made(state: &State, findings: &mut Findings, path: &Txt) -> bool
    requires { AreFindings (state_of state.now) findings.old }
    ensures ahead { IsTrue result → KeepsAhead (state_of state.now) findings.old → KeepsAhead (state_of state.now) findings.new }
    ensures made { IsTrue result → (h : resource) → h.path ≡ path.now → h.superseded ≡ false
        → AreFindings (making h (state_of state.now)) findings.new }
{
    match forget_users(state, &mut findings.found, path) {
        Some(at) => {
            put_place(&mut findings.made, at, state.made.len());
            note_users(&mut findings.unlooked, at);
            follow_made(
                &mut findings.ahead,
                findings.made.as_slice(),
                findings.found.as_slice(),
                at,
            );
            true
        }
        None => false,
    }
}

/// The resource of a physical id, be it held or else made.
fn resource_with<'a>(state: &'a State, physical: &Txt) -> Option<&'a Held>
    ensures { option_copied result
        ≡ option_or (find (has_physical physical.now) (state_of state.now).held) (find (has_physical physical.now) (state_of state.now).made) }
{
    match with_physical(state.held.as_slice(), physical) {
        Some(held) => Some(held),
        None => with_physical(state.made.as_slice(), physical),
    }
}

/// Notes that the resource of a physical id is changed, where its path has a place; else nothing is said of the findings.
fn note_changed(state: &State, findings: &mut Findings, physical: &Txt) -> bool
    requires { AreFindings (state_of state.now) findings.old }
    ensures same { IsTrue result → AreFindings (state_of state.now) findings.new }
    ensures changed { IsTrue result → (change : resource → resource) → KeepsPath change
        → AreFindings (changing physical.now change (state_of state.now)) findings.new }
    ensures ahead { findings.new.ahead ≡ findings.old.ahead }
{
    match resource_with(state, physical) {
        Some(held) => match forget_users(state, &mut findings.found, &held.path) {
            Some(at) => {
                note_users(&mut findings.unlooked, at);
                true
            }
            None => false,
        },
        None => false,
    }
}

/// Notes what an answer to a call changes; `false` where nothing is said of the findings then.
#[tactic(auto, using(crate::proofs::Followed::stays_other))]
fn note_answer(state: &State, pending: &Pending, answer: &Reply, findings: &mut Findings) -> bool
    requires { AreFindings (state_of state.now) findings.old }
    ensures findings { IsTrue result → (restores : Bool)
        → AreFindings (answered restores pending.now.path pending.now.request answer.now (state_of state.now)) findings.new }
    ensures ahead { IsTrue result → StaysAhead pending.now.request answer.now (state_of state.now) findings.old findings.new }
{
    match &pending.request {
        Request::Create { .. } => match answer {
            Reply::Success { .. } => note_made(state, findings, &pending.path),
            _ => true,
        },
        Request::Update { physical, .. } => match answer {
            Reply::Doubt => true,
            _ => note_changed(state, findings, physical),
        },
        Request::Delete { .. } => matches!(answer, Reply::Doubt),
    }
}

/// Notes what an entry changes, where it is an outcome; `false` where nothing is said of the findings then.
fn note_entry(state: &State, entry: &Entry, findings: &mut Findings) -> bool
    requires { AreFindings (state_of state.now) findings.old }
    ensures findings { IsTrue result → (place : ℕ) → AreFindings (effect_at place entry.now (state_of state.now)).stack findings.new }
    ensures ahead { IsTrue result → StaysAfter entry.now (state_of state.now) findings.old findings.new }
{
    match entry {
        Entry::Outcome { token, answer, .. } => {
            match pending_with(state.tokens.as_slice(), *token) {
                Some(pending) => note_answer(state, pending, answer, findings),
                None => false,
            }
        }
        _ => false,
    }
}

/// Whether an answer completes a call that is a create.
fn completes_create(pending: &Pending, answer: &Reply) -> bool
    ensures { result ≡ completes_create pending.now.request answer.now }
{
    match &pending.request {
        Request::Create { .. } => matches!(answer, Reply::Success { .. }),
        _ => false,
    }
}

/// Whether an entry says that a create of the stack is complete.
fn is_created_by(state: &State, entry: &Entry) -> bool
    ensures { result ≡ is_created_by entry.now (state_of state.now) }
{
    match entry {
        Entry::Outcome { token, answer, .. } => {
            match pending_with(state.tokens.as_slice(), *token) {
                Some(pending) => completes_create(pending, answer),
                None => false,
            }
        }
        _ => false,
    }
}

/// Notes what an entry changes, and lets go what is kept of a creation unless a create is complete; `false` where nothing is said of
/// the findings then.
#[tactic(auto, using(crate::proofs::Followed::lost_found, crate::proofs::Followed::entry_followed))]
fn note_outcome(state: &State, entry: &Entry, findings: &mut Findings) -> bool
    requires { AreKept (state_of state.now) findings.old }
    ensures { IsTrue result → (place : ℕ) → AreKept (effect_at place entry.now (state_of state.now)).stack findings.new }
{
    lose_unless(findings, is_created_by(state, entry));
    note_entry(state, entry, findings)
}

/// Lets findings follow an outcome of their stack, which is still to come; they are dropped where another entry comes, and where
/// the outcome is none of a path's. It takes no memory.
pub fn follow(state: &State, entry: &Entry, findings: &mut Option<Findings>)
    requires { IfSome findings.old (AreKept (state_of state.now)) }
    ensures { (place : ℕ) → IfSome findings.new (AreKept (effect_at place entry.now (state_of state.now)).stack) }
{
    let follows = match findings {
        Some(findings) => note_outcome(state, entry, findings),
        None => true,
    };
    if !follows {
        drop(mem::replace(findings, None));
    }
}
