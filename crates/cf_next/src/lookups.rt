//! Maps and sets of names that are lent, made once, where each resource is looked up in them.
ghost use Rattle.std.specs.Prelude.{◌≡◌, ◌≤◌, ◌<◌, ◌++◌, ℕ, List, [], IfOk, IsTrue, OnErr, fold};
ghost use Rattle.std.specs.Option.{option_copied};
ghost use Rattle.std.specs.Ordering.{nat_cmp};
ghost use Rattle.std.specs.Cmp.Lexicographic.{slice_cmp};
ghost use Rattle.cf_tree.specs.Keys.{ascends, place, put, value_at};
ghost use Rattle.cf_tree.specs.Lists.{is_among};
ghost use Rattle.cf_next.specs.Lookups.{has_key, with_first};

use cf_tree::{Listing, Txt};
use std::alloc::{AllocError, Global};
use std::cell::Cell;
use std::cmp::Ordering;
use std::marker::Model;

/// A name that is lent.
#[derive(Drop)]
pub(crate) struct Lent<'a> {
    name: &'a Txt,
}

impl<'a> Model for Lent<'a> {
    ghost use Rattle.std.specs.Prelude.{List, ℕ};

    ghost Value = { List ℕ };

    ghost view = { λ l. l.name.now };
}

impl<'a> Lent<'a> {
    /// A name.
    pub(crate) fn new(name: &'a Txt) -> Lent<'a>
        ensures { result ≡ name.now }
    {
        Lent { name }
    }

    /// The name.
    pub(crate) fn name(&self) -> &'a Txt
        ensures { result.now ≡ self.now }
    {
        self.name
    }

    /// How another name stands to this one in the order of bytes: `Less` where it comes before.
    fn order_of(&self, other: &Txt) -> Ordering
        ensures { result ≡ slice_cmp nat_cmp other.now self.now }
    {
        self.name.order_of(other.as_str())
    }
}

/// Names that are lent.
pub(crate) type Lents<'a> = Listing<Lent<'a>>;

/// Names that are lent with what stands under them, each name once, in the order of their bytes. It remembers where it last looked:
/// names that come in their order are found there, or at the next place.
#[derive(Drop)]
pub(crate) struct LentMap<'a, V> {
    pairs: Vec<(Lent<'a>, V)>,
    near: Cell<usize>,
}

impl<'a, V> Model for LentMap<'a, V> {
    ghost use Rattle.std.specs.Prelude.{List, ℕ, IsTrue};
    ghost use Rattle.cf_tree.specs.Keys.{ascends};

    ghost Value = { List (List ℕ × V) };

    ghost view = { λ d. d.pairs.items };

    ghost invariant = { λ d. IsTrue (ascends d.pairs.items) };
}

/// A set of names.
pub(crate) type LentSet<'a> = LentMap<'a, ()>;

/// Where to look next between two places: near a third, and at the places beside it, or else in the middle.
fn probe(low: usize, high: usize, near: usize) -> usize
    requires { low < high }
    ensures low { low ≤ result }
    ensures high { result < high }
{
    if low <= near && near < high {
        near
    } else if near < low && low - near == 1 {
        low
    } else if near == high {
        high - 1
    } else {
        low + (high - low) / 2
    }
}

/// Where a name is among these, or else where it would go; it is looked for near a place first.
fn place_near<V>(pairs: &[(Lent, V)], near: usize, name: &Txt) -> Result<usize, usize>
    requires { IsTrue (ascends pairs.now) }
    ensures { result ≡ place name.now pairs.now }
{
    let mut low = 0;
    let mut high = pairs.len();
    while low < high {
        let middle = probe(low, high, near);
        match pairs[middle].0.order_of(name) {
            Ordering::Less => high = middle,
            Ordering::Equal => return Ok(middle),
            Ordering::Greater => low = middle + 1,
        }
    }
    Err(low)
}

/// Puts a value under a name; it gives the place. After an error the pairs are as they were.
#[tactic(auto, using(cf_tree::proofs::Placed::entry_in, cf_tree::proofs::Placed::entry_put, cf_tree::proofs::Placed::entry_within, cf_tree::proofs::Placed::entry_new))]
fn put_entry<'a, V: Drop>(
    pairs: &mut Vec<(Lent<'a>, V)>,
    near: usize,
    name: &'a Txt,
    value: V,
) -> Result<usize, AllocError>
    requires { IsTrue (ascends pairs.old.items) }
    ensures ok { IfOk result (λ _. pairs.new.items ≡ put name.now value pairs.old.items) }
    ensures err { OnErr result (pairs.new.items ≡ pairs.old.items) }
{
    match place_near(pairs.as_slice(), near, name) {
        Ok(at) => {
            pairs[at] = (Lent::new(name), value);
            Ok(at)
        }
        Err(at) => {
            pairs.insert(at, (Lent::new(name), value))?;
            Ok(at)
        }
    }
}

/// Adds a value under a name that has none yet; it gives the place. After an error the pairs are as they were.
#[tactic(auto, using(cf_tree::proofs::Placed::entry_within, crate::proofs::Lending::first_kept, crate::proofs::Lending::first_put))]
fn put_first<'a, V: Drop>(
    pairs: &mut Vec<(Lent<'a>, V)>,
    near: usize,
    name: &'a Txt,
    value: V,
) -> Result<usize, AllocError>
    requires { IsTrue (ascends pairs.old.items) }
    ensures ok { IfOk result (λ _. pairs.new.items ≡ with_first name.now value pairs.old.items) }
    ensures err { OnErr result (pairs.new.items ≡ pairs.old.items) }
{
    match place_near(pairs.as_slice(), near, name) {
        Ok(at) => Ok(at),
        Err(at) => {
            pairs.insert(at, (Lent::new(name), value))?;
            Ok(at)
        }
    }
}

impl<'a, V> LentMap<'a, V> {
    /// The empty map; it takes no memory.
    pub(crate) fn new(alloc: Global) -> LentMap<'a, V>
        ensures { result ≡ [] }
    {
        LentMap {
            pairs: Vec::new(alloc),
            near: Cell::new(0),
        }
    }

    /// What stands under a name.
    #[tactic(auto, using(cf_tree::proofs::Lookups::entry_in, cf_tree::proofs::Lookups::entry_found, cf_tree::proofs::Lookups::entry_missed))]
    pub(crate) fn get(&self, name: &Txt) -> Option<&V>
        ensures { option_copied result ≡ value_at name.now self.now }
    {
        match place_near(self.pairs.as_slice(), self.near.get(), name) {
            Ok(at) => {
                self.near.set(at);
                Some(&self.pairs[at].1)
            }
            Err(at) => {
                self.near.set(at);
                None
            }
        }
    }

    /// Whether there is something under a name.
    pub(crate) fn has(&self, name: &Txt) -> bool
        ensures { result ≡ has_key name.now self.now }
    {
        self.get(name).is_some()
    }
}

impl<'a, V: Drop> LentMap<'a, V> {
    /// Puts a value under a name, in place of the one that stood there. After an error the map is as it was.
    #[tactic(auto, using(cf_tree::proofs::Order::ascends_put))]
    pub(crate) fn insert(&mut self, name: &'a Txt, value: V) -> Result<(), AllocError>
        ensures ok { IfOk result (λ _. self.new ≡ put name.now value self.old) }
        ensures err { OnErr result (self.new ≡ self.old) }
    {
        let at = put_entry(&mut self.pairs, self.near.get(), name, value)?;
        self.near.set(at);
        Ok(())
    }

    /// Adds a value under a name that has none yet. After an error the map is as it was.
    #[tactic(auto, using(crate::proofs::Lending::ascends_first))]
    pub(crate) fn add_first(&mut self, name: &'a Txt, value: V) -> Result<(), AllocError>
        ensures ok { IfOk result (λ _. self.new ≡ with_first name.now value self.old) }
        ensures err { OnErr result (self.new ≡ self.old) }
    {
        let at = put_first(&mut self.pairs, self.near.get(), name, value)?;
        self.near.set(at);
        Ok(())
    }
}

/// The set of these names, as they join it one by one.
fn joined<'a>(alloc: Global, names: &[Lent<'a>]) -> Result<LentSet<'a>, AllocError>
    ensures { IfOk result (λ set. set ≡ fold (λ all name. with_first name tt all) [] names.now) }
{
    let mut set = LentSet::new(alloc);
    for name in names {
        set.add_first(name.name(), ())?;
    }
    Ok(set)
}

/// The set of these names.
pub(crate) fn set_of<'a>(alloc: Global, names: &[Lent<'a>]) -> Result<LentSet<'a>, AllocError>
    ensures { IfOk result (λ set. (name : List ℕ) → has_key name set ≡ is_among name names.now) }
{
    joined(alloc, names)
}

/// Whether a name is one of these.
pub(crate) fn is_among(names: &[Lent], name: &Txt) -> bool
    ensures { result ≡ is_among name.now names.now }
{
    names.iter().any(|other| *name == *other.name())
}

/// Adds these names. After an error nothing is said of the list.
pub(crate) fn lend_all<'a>(lents: &mut Lents<'a>, names: &'a [Txt]) -> Result<(), AllocError>
    ensures { IfOk result (λ _. lents.new ≡ lents.old ++ names.now) }
{
    for name in names {
        lents.push(Lent::new(name))?;
    }
    Ok(())
}
