//! Cycles along the needs.
ghost use Rattle.std.specs.Prelude.{◌≡◌, ℕ, List, [], ◌∷◌, ◌++◌, ◌+◌, ◌≤◌, ◌&&◌, ◌||◌, ◌<◌, IfOk, Some, true, length, find, option_copied};
ghost use Rattle.std.specs.List.{list_any};
ghost use Rattle.std.specs.Str.{bytes_eq};
ghost use Rattle.cf_tree.specs.Lists.{first_in, is_among};
ghost use Rattle.cf_graph.specs.Needs.{cycle_of, needs_listed, shortest_walk, walks};
ghost use Rattle.cf_graph.specs.Cycles.{leads_back, is_on_level, IsLevel, AreLevels, StandAlike};

use crate::sequence::{Needs, append};
use cf_tree::{Names, NoMemory, Txt};
use std::alloc::Global;
use std::collections::BTreeSet;

/// The resources from which a walk of so many steps leads back to the start.
type Level = BTreeSet<Txt>;

/// The resources by name, each with what it needs; of several of one name the first.
fn rows_of(alloc: Global, all: &[(Txt, Names)]) -> Result<Needs, NoMemory>
    ensures { IfOk result (λ rows. StandAlike rows.entries all.now) }
{
    let mut rows = Needs::new(alloc);
    for row in all {
        append_first(alloc, &mut rows, &row.0, &row.1)?;
    }
    Ok(rows)
}

/// Adds a resource, unless one of its name is there.
fn append_first(alloc: Global, rows: &mut Needs, name: &Txt, needs: &Names) -> Result<(), NoMemory>
    ensures { IfOk result (λ _. (ps : List (List ℕ × List (List ℕ))) → StandAlike rows.old.entries ps → StandAlike rows.new.entries (ps ++ (name.now, needs.now) ∷ [])) }
{
    if rows.contains_key(name) {
        Ok(())
    } else {
        append(alloc, rows, name, needs)?;
        Ok(())
    }
}

/// What a resource needs; one that is not there needs nothing.
#[tactic(auto, using(crate::proofs::Lookups::lookup_is_value_at))]
fn needed_by<'a>(rows: &'a Needs, name: &Txt) -> &'a [Txt]
    ensures { result.now ≡ needs_listed rows.now.entries name.now }
{
    match rows.get(name) {
        Some(needs) => needs.as_slice(),
        None => &[],
    }
}

/// Whether a name is among others.
fn is_among(name: &Txt, names: &[Txt]) -> bool
    ensures { result ≡ is_among name.now names.now }
{
    names.iter().any(|other| *other == *name)
}

/// Whether one of the names is of the level.
fn meets(names: &[Txt], level: &Level) -> bool
    ensures { result ≡ list_any (is_on_level level.now) names.now }
{
    names.iter().any(|name| level.contains(name))
}

/// Adds a name to a level where a walk leads back from it.
fn add_where(alloc: Global, level: &mut Level, name: &Txt, leads: bool) -> Result<(), NoMemory>
    ensures { IfOk result (λ _. (q : List ℕ) → is_on_level level.new q ≡ (is_on_level level.old q || (bytes_eq q name.now && leads))) }
{
    if leads {
        level.insert(name.try_clone(alloc)?)?;
    }
    Ok(())
}

/// Walks of one step: the resources that need the start.
fn first_level(
    alloc: Global,
    all: &[(Txt, Names)],
    rows: &Needs,
    start: &Txt,
) -> Result<Level, NoMemory>
    requires { StandAlike rows.now.entries all.now }
    ensures { IfOk result (IsLevel all.now start.now 1) }
{
    let mut level = Level::new(alloc);
    for row in all {
        let leads = is_among(start, needed_by(rows, &row.0));
        add_where(alloc, &mut level, &row.0, leads)?;
    }
    Ok(level)
}

/// Walks of one step more.
fn next_level(
    alloc: Global,
    all: &[(Txt, Names)],
    rows: &Needs,
    level: &Level,
) -> Result<Level, NoMemory>
    requires alike { StandAlike rows.now.entries all.now }
    ensures { IfOk result (λ next. (start : List ℕ) (n : ℕ) → 1 ≤ n → IsLevel all.now start n level.now → IsLevel all.now start (n + 1) next) }
{
    let mut next = Level::new(alloc);
    for row in all {
        let leads = meets(needed_by(rows, &row.0), level);
        add_where(alloc, &mut next, &row.0, leads)?;
    }
    Ok(next)
}

/// The first of the names that is of the level.
fn first_leading<'a>(names: &'a [Txt], level: &Level) -> Option<&'a Txt>
    ensures { option_copied result ≡ find (is_on_level level.now) names.now }
{
    names.iter().find(|name| level.contains(*name))
}

/// The walk that begins at the start, goes to the first in byte order wherever it may, and comes back after as many steps as
/// there are levels.
fn walk_back(
    alloc: Global,
    all: &[(Txt, Names)],
    rows: &Needs,
    levels: &[Level],
    start: &Txt,
) -> Result<Names, NoMemory>
    requires alike { StandAlike rows.now.entries all.now }
    requires levels { AreLevels all.now start.now 1 levels.now }
    requires some { 0 < length levels.now }
    requires leads { leads_back all.now start.now (length levels.now) start.now ≡ true }
    ensures { IfOk result (λ walk. first_in (walks all.now start.now (length levels.now) start.now) ≡ Some walk) }
{
    let mut walk = Names::new(alloc);
    let mut current = start;
    let mut at = levels.len() - 1;
    while at > 0 {
        walk.push(current.try_clone(alloc)?)?;
        at -= 1;
        current = match first_leading(needed_by(rows, current), &levels[at]) {
            Some(next) => next,
            None => unreachable!(),
        };
    }
    walk.push(current.try_clone(alloc)?)?;
    Ok(walk)
}

/// The shortest walk from a resource back to itself, the first in byte order of these, if there is one.
fn shortest(
    alloc: Global,
    all: &[(Txt, Names)],
    rows: &Needs,
    start: &Txt,
) -> Result<Option<Names>, NoMemory>
    requires { StandAlike rows.now.entries all.now }
    ensures { IfOk result (λ walk. walk ≡ shortest_walk all.now start.now (length all.now)) }
{
    let mut levels = Vec::new(alloc);
    for _row in all {
        let level = level_after(alloc, all, rows, levels.as_slice(), start)?;
        let leads = level.contains(start);
        levels.push(level)?;
        if leads {
            return Ok(Some(walk_back(alloc, all, rows, levels.as_slice(), start)?));
        }
    }
    Ok(None)
}

/// The level behind these.
fn level_after(
    alloc: Global,
    all: &[(Txt, Names)],
    rows: &Needs,
    levels: &[Level],
    start: &Txt,
) -> Result<Level, NoMemory>
    requires alike { StandAlike rows.now.entries all.now }
    requires levels { AreLevels all.now start.now 1 levels.now }
    ensures { IfOk result (IsLevel all.now start.now (length levels.now + 1)) }
{
    match levels.last() {
        Some(last) => Ok(next_level(alloc, all, rows, last)?),
        None => first_level(alloc, all, rows, start),
    }
}

/// The cycle of the least resource that lies on one: the shortest from there, and the first in byte order of these.
///
/// It looks for one from each resource in turn, in as many steps as there are resources at most, each of which takes time in
/// proportion to all needs, times a logarithm.
pub(crate) fn cycle_of(alloc: Global, all: &[(Txt, Names)]) -> Result<Option<Names>, NoMemory>
    ensures { IfOk result (λ cycle. cycle ≡ cycle_of all.now) }
{
    let rows = rows_of(alloc, all)?;
    for row in all {
        if let Some(walk) = shortest(alloc, all, &rows, &row.0)? {
            return Ok(Some(walk));
        }
    }
    Ok(None)
}
