//! The order of work over what each resource needs.
ghost use Rattle.std.specs.Prelude.{◌≡◌, ℕ, ◌+◌, ◌≤◌, ◌<◌, List, [], ◌∷◌, ◌++◌, ◌&&◌, ◌||◌, IfOk, if◌then◌else◌, map, length, nat_eq, nat_lt, slice_index_or, vec_len, true, count_by, find, is_some, None};
ghost use Rattle.std.specs.BTreeSet.{contains};
ghost use Rattle.std.specs.Ordering.{nat_cmp};
ghost use Rattle.cf_tree.specs.Keys.{value_at};
ghost use Rattle.cf_graph.specs.Needs.{is_next, ordered};
ghost use Rattle.cf_graph.specs.Noted.{places_noted};
ghost use Rattle.cf_graph.specs.Waiting.{times, copies, WaitsFor, GivesNext, needs_nothing, with_next};
ghost use Rattle.cf_graph.specs.UnderWay.{IsOrdering};

use crate::notes::{Notes, behind, note};
use cf_tree::{Names, NoMemory, Txt};
use indexmap::IndexMap;
use std::alloc::Global;
use std::collections::BTreeSet;

/// Resources with what each of them needs.
pub type Needs = IndexMap<Txt, Names>;

/// Under each name the places of those that need it, each as often as it names it.
fn waiting_for(alloc: Global, all: &[(Txt, Names)]) -> Result<Notes, NoMemory>
    ensures { IfOk result (WaitsFor all.now) }
{
    let mut waiting = Notes::new(alloc);
    for (at, entry) in all.iter().enumerate() {
        wait(alloc, &mut waiting, at, &entry.1)?;
    }
    Ok(waiting)
}

fn wait(alloc: Global, waiting: &mut Notes, at: usize, needs: &Names) -> Result<(), NoMemory>
    ensures { IfOk result (λ _. (q : List ℕ) (p : ℕ) → copies p (places_noted waiting.new q) ≡ copies p (places_noted waiting.old q) + (if nat_eq at p then times q needs.now else 0)) }
{
    for need in needs.as_slice() {
        note(alloc, waiting, need, at)?;
    }
    Ok(())
}

/// How many needs each has.
fn counts(alloc: Global, all: &[(Txt, Names)]) -> Result<Vec<usize>, NoMemory>
    ensures { IfOk result (λ v. v.items ≡ map (λ r. length r.1) all.now) }
{
    Ok(all.iter().map(|entry| entry.1.len()).collect(alloc)?)
}

/// The places of those that need nothing.
fn first_ready(alloc: Global, all: &[(Txt, Names)]) -> Result<BTreeSet<usize>, NoMemory>
    ensures { IfOk result (λ s. (p : ℕ) → contains nat_cmp s p ≡ needs_nothing all.now p) }
{
    let mut ready = BTreeSet::new(alloc);
    for (at, entry) in all.iter().enumerate() {
        if entry.1.is_empty() {
            ready.insert(at)?;
        }
    }
    Ok(ready)
}

/// The first of those that are ready and did not come yet, and what is ready besides.
fn next(ready: &mut BTreeSet<usize>, placed: &Needs, all: &[(Txt, Names)]) -> Option<usize>
    requires { (p : ℕ) → contains nat_cmp ready.old p ≡ true → p < length all.now }
    ensures { GivesNext all.now placed.now.entries ready.old ready.new result }
{
    while let Some(at) = ready.pop_first() {
        if !placed.contains_key(&all[at].0) {
            return Some(at);
        }
    }
    None
}

/// Those that waited for what just came wait for one thing less, and are ready where it was the last.
fn release(
    behind: &[usize],
    missing: &mut Vec<usize>,
    ready: &mut BTreeSet<usize>,
) -> Result<(), NoMemory>
    requires { (p : ℕ) → copies p behind.now ≤ slice_index_or missing.old.items p 0 }
    ensures long { IfOk result (λ _. vec_len missing.new ≡ vec_len missing.old) }
    ensures counted { IfOk result (λ _. (p : ℕ) → slice_index_or missing.new.items p 0 + copies p behind.now ≡ slice_index_or missing.old.items p 0) }
    ensures listed { IfOk result (λ _. (p : ℕ) → contains nat_cmp ready.new p ≡ (contains nat_cmp ready.old p || (nat_eq (slice_index_or missing.new.items p 0) 0 && nat_lt 0 (copies p behind.now)))) }
{
    for at in behind {
        missing[*at] -= 1;
        if missing[*at] == 0 {
            ready.insert(*at)?;
        }
    }
    Ok(())
}

/// How far the order has come: how many needs of each have not come, the places of those that have none left, and what came.
#[derive(Drop)]
struct Progress {
    missing: Vec<usize>,
    ready: BTreeSet<usize>,
    placed: Needs,
}

/// Each resource behind all that it needs; of those that could come next the first in the list comes first. What needs itself,
/// or needs such, is left out.
///
/// It takes time in proportion to the needs, times the logarithm of how many resources there are.
pub(crate) fn in_order(alloc: Global, all: &[(Txt, Names)]) -> Result<Needs, NoMemory>
    ensures { IfOk result (λ needs. needs.entries ≡ ordered (length all.now) all.now []) }
{
    let waiting = waiting_for(alloc, all)?;
    let mut progress = begin(alloc, all)?;
    for _entry in all {
        if !place_next(alloc, all, &waiting, &mut progress)? {
            break;
        }
    }
    let Progress {
        missing: _,
        ready: _,
        placed,
    } = progress;
    Ok(placed)
}

fn begin(alloc: Global, all: &[(Txt, Names)]) -> Result<Progress, NoMemory>
    ensures under_way { IfOk result (IsOrdering all.now) }
    ensures empty { IfOk result (λ p. p.placed.entries ≡ []) }
{
    Ok(Progress {
        missing: counts(alloc, all)?,
        ready: first_ready(alloc, all)?,
        placed: Needs::new(alloc),
    })
}

/// Places the next one, and tells whether there was one.
fn place_next(
    alloc: Global,
    all: &[(Txt, Names)],
    waiting: &Notes,
    progress: &mut Progress,
) -> Result<bool, NoMemory>
    requires waits { WaitsFor all.now waiting.now }
    requires under_way { IsOrdering all.now progress.old }
    ensures under_way { IfOk result (λ _. IsOrdering all.now progress.new) }
    ensures placed { IfOk result (λ _. progress.new.placed.entries ≡ with_next progress.old.placed.entries (find (is_next progress.old.placed.entries) all.now)) }
    ensures more { IfOk result (λ more. more ≡ is_some (find (is_next progress.old.placed.entries) all.now)) }
{
    match next(&mut progress.ready, &progress.placed, all) {
        None => Ok(false),
        Some(at) => {
            let entry = &all[at];
            append(alloc, &mut progress.placed, &entry.0, &entry.1)?;
            release(
                behind(waiting, &entry.0),
                &mut progress.missing,
                &mut progress.ready,
            )?;
            Ok(true)
        }
    }
}

/// Adds a resource that is not there yet.
pub(crate) fn append(
    alloc: Global,
    placed: &mut Needs,
    name: &Txt,
    needs: &Names,
) -> Result<(), NoMemory>
    requires { value_at name.now placed.old.entries ≡ None }
    ensures { IfOk result (λ _. placed.new.entries ≡ placed.old.entries ++ (name.now, needs.now) ∷ []) }
{
    match placed.insert(name.try_clone(alloc)?, needs.try_clone(alloc)?) {
        Ok(_) => Ok(()),
        Err(_) => Err(NoMemory),
    }
}
