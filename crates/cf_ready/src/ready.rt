//! Which of some paths wait for nothing, kept by their places while one after another is made.
ghost use Rattle.std.specs.Prelude.{◌≡◌, ◌&&◌, not, true, IfOk, length, map, replicate, set, slice_index_or, take};
ghost use Rattle.std.specs.List.{slice_get};
ghost use Rattle.cf_ready.specs.Ready.{AreAll, AreRanks, IsShaped, MeetsFrom, Touches, are_made_in, is_made_in, with_rank};

use crate::flags::Flags;
use cf_tree::Txt;
use std::alloc::{AllocError, Global};

/// Of paths that each have a place and a name: which of them are ready, since all that they need is made.
#[derive(Drop)]
pub struct Readiness {
    /// The rank of each path among the names, by its place.
    pub ranks: Vec<usize>,
    /// So many of the first of the needs of each path are made, by its place.
    pub met: Vec<usize>,
    /// Which paths are ready and not made, by rank.
    pub ready: Flags,
    /// Which paths are ready, though what is found of them is not sound, by place.
    pub unsound: Flags,
}

/// Whether the path at a place is made.
pub fn is_made_in(made: &[Option<usize>], at: usize) -> bool
    ensures { result ≡ is_made_in made.now at }
{
    match made.get(at) {
        Some(place) => place.is_some(),
        None => false,
    }
}

/// So many of the first of these needs are made, where it is known of so many.
#[tactic(auto, using(crate::proofs::Counted::met_first, crate::proofs::Counted::met_all, crate::proofs::Counted::met_past))]
fn met_from(made: &[Option<usize>], needs: &[usize], from: usize) -> usize
    ensures { are_made_in made.now (take from needs.now) ≡ true → MeetsFrom made.now needs.now result }
{
    let mut met = from;
    'needs: while met < needs.len() {
        if !is_made_in(made, needs[met]) {
            return met;
        }
        met += 1;
    }
    met
}

/// The number at a place, or else 0.
fn number_at(numbers: &[usize], at: usize) -> usize
    ensures { result ≡ slice_index_or numbers.now at 0 }
{
    match numbers.get(at) {
        Some(number) => *number,
        None => 0,
    }
}

/// The rank at a place, where there is one.
fn rank_at(ranks: &[usize], at: usize) -> Option<usize>
    ensures { result ≡ slice_get ranks.now at }
{
    ranks.get(at).copied()
}

/// Puts a number at a place, where there is one.
#[tactic(auto, using(crate::proofs::Counted::set_past))]
fn put_number(numbers: &mut Vec<usize>, at: usize, number: usize)
    ensures { numbers.new.items ≡ set numbers.old.items at number }
{
    if at < numbers.len() {
        numbers[at] = number;
    }
}

/// Sets the flag at a place, where there is one.
#[tactic(auto, using(crate::proofs::Counted::set_past))]
fn put(flags: &mut Flags, at: usize, flag: bool)
    ensures { flags.new ≡ set flags.old at flag }
{
    if at < flags.len() {
        flags.set(at, flag);
    }
}

/// Sets the flag at a rank, where there is one.
fn put_ranked(flags: &mut Flags, rank: Option<usize>, flag: bool)
    ensures { flags.new ≡ with_rank rank flag flags.old }
{
    match rank {
        Some(rank) => put(flags, rank, flag),
        None => {}
    }
}

/// Whether one is so and the other is not.
fn and_not(one: bool, other: bool) -> bool
    ensures { result ≡ (one && not other) }
{
    one && !other
}

/// Sets the flags of the path at a place, by what it needs, what is made, and whether what is found of it is sound. So many of its
/// first needs as were made before are not looked at again.
pub fn touch(
    readiness: &mut Readiness,
    at: usize,
    needs: &[usize],
    made: &[Option<usize>],
    sound: bool,
)
    ensures { are_made_in made.now (take (slice_index_or readiness.old.met.items at 0) needs.now) ≡ true
        → Touches made.now needs.now sound at readiness.old readiness.new }
{
    let met = met_from(made, needs, number_at(readiness.met.as_slice(), at));
    put_number(&mut readiness.met, at, met);
    let ready = met >= needs.len();
    let waits = and_not(ready, is_made_in(made, at));
    let rank = rank_at(readiness.ranks.as_slice(), at);
    put_ranked(&mut readiness.ready, rank, waits);
    put(&mut readiness.unsound, at, and_not(ready, sound));
}

/// The rank of each of so many places, in the order of the names that have them.
#[tactic(auto, using(crate::proofs::Ranked::none_ranked, crate::proofs::Ranked::more_ranked, crate::proofs::Ranked::all_ranked))]
fn ranks_of(alloc: Global, names: &[(Txt, usize)], count: usize) -> Result<Vec<usize>, AllocError>
    ensures count { IfOk result (λ ranks. length ranks.items ≡ count) }
    ensures ranks { IfOk result (λ ranks. AreAll count (map (λ p. p.1) names.now) → AreRanks (map (λ p. p.1) names.now) ranks.items) }
{
    let mut ranks = vec![in alloc; 0; count]?;
    for (rank, named) in names.iter().enumerate() {
        put_number(&mut ranks, named.1, rank);
    }
    Ok(ranks)
}

/// So many paths, named in this order by their places, of which none has a flag.
///
/// # Errors
///
/// Only for want of memory.
pub fn none_ready(
    alloc: Global,
    names: &[(Txt, usize)],
    count: usize,
) -> Result<Readiness, AllocError>
    ensures shaped { IfOk result (λ r. AreAll count (map (λ p. p.1) names.now) → IsShaped (map (λ p. p.1) names.now) count r) }
    ensures met { IfOk result (λ r. r.met.items ≡ replicate count 0) }
{
    let ranks = ranks_of(alloc, names, count)?;
    let met = vec![in alloc; 0; count]?;
    let ready = Flags::new(alloc, names.len())?;
    let unsound = Flags::new(alloc, count)?;
    Ok(Readiness {
        ranks,
        met,
        ready,
        unsound,
    })
}
