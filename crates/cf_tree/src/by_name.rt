//! Maps of names, kept in the order of their bytes.
ghost use Rattle.std.specs.Prelude.{◌≡◌, [], ◌∷◌, ◌++◌, Some, None, length, IfOk, IsTrue, OnErr, if◌then◌else◌, ◌↔◌};
ghost use Rattle.std.specs.Option.{option_copied};
ghost use Rattle.cf_tree.specs.Keys.{ascends, place, put, value_at, Replaces};

use crate::text::Txt;
use std::alloc::{AllocError, Global};
use std::cmp::Ordering;
use std::marker::Model;
use std::mem;

/// Names with what stands under them, each name once, in the order of their bytes.
#[derive(Drop)]
pub struct ByName<V> {
    pairs: Vec<(Txt, V)>,
}

impl<V> Model for ByName<V> {
    ghost use Rattle.std.specs.Prelude.{List, ℕ, IsTrue};
    ghost use Rattle.cf_tree.specs.Keys.{ascends};

    ghost Value = { List (List ℕ × V) };

    ghost view = { λ d. d.pairs.items };

    ghost invariant = { λ d. IsTrue (ascends d.pairs.items) };
}

impl<V> ByName<V> {
    /// The empty map; it takes no memory.
    pub fn new(alloc: Global) -> ByName<V>
        ensures { result ≡ [] }
    {
        ByName {
            pairs: Vec::new(alloc),
        }
    }

    /// The pairs of a vector whose names ascend, without taking memory.
    pub fn from_vec(pairs: Vec<(Txt, V)>) -> ByName<V>
        requires { IsTrue (ascends pairs.items) }
        ensures { result ≡ pairs.items }
    {
        ByName { pairs }
    }

    /// The pairs as a vector in their order, without taking memory.
    pub fn into_vec(self) -> Vec<(Txt, V)>
        ensures value { result.items ≡ self }
        ensures in_order { IsTrue (ascends result.items) }
    {
        let ByName { pairs } = self;
        pairs
    }

    /// How many names there are.
    pub fn len(&self) -> usize
        ensures { result ≡ length self.now }
    {
        self.pairs.len()
    }

    /// Whether there is no name.
    pub fn is_empty(&self) -> bool
        ensures { IsTrue result ↔ (self.now ≡ []) }
    {
        self.pairs.is_empty()
    }

    /// What stands under a name.
    #[tactic(auto, using(crate::proofs::Lookups::entry_in, crate::proofs::Lookups::entry_found, crate::proofs::Lookups::entry_missed))]
    pub fn get(&self, name: &str) -> Option<&V>
        ensures { option_copied result ≡ value_at name.now self.now }
    {
        match place_of(self.pairs.as_slice(), name) {
            Ok(at) => Some(&self.pairs[at].1),
            Err(_) => None,
        }
    }

    /// The pairs in their order.
    pub fn as_slice(&self) -> &[(Txt, V)]
        ensures value { result.now ≡ self.now }
        ensures in_order { IsTrue (ascends result.now) }
    {
        self.pairs.as_slice()
    }
}

impl<V: Drop> ByName<V> {
    /// The pairs of a vector, and None exactly where their names don't ascend; it takes no memory.
    pub fn try_from_vec(pairs: Vec<(Txt, V)>) -> Option<ByName<V>>
        ensures { result ≡ (if ascends pairs.items then Some pairs.items else None) }
    {
        if names_ascend(pairs.as_slice()) {
            Some(ByName { pairs })
        } else {
            None
        }
    }

    /// Puts a value in place of the one that stands under a name, which it gives back. Where nothing
    /// stands there, it changes nothing and gives the value back as an error. It takes no memory.
    #[tactic(auto, using(crate::proofs::Order::ascends_replaced))]
    pub fn replace(&mut self, name: &str, value: V) -> Result<V, V>
        ensures { Replaces name.now value self.old self.new result }
    {
        replace_entry(&mut self.pairs, name, value)
    }

    /// Puts a value under a name, in place of the one that stood there. After an error the map is
    /// as it was, and the value is gone.
    #[tactic(auto, using(crate::proofs::Order::ascends_put))]
    pub fn insert(&mut self, name: Txt, value: V) -> Result<(), AllocError>
        ensures ok { IfOk result (λ _. self.new ≡ put name value self.old) }
        ensures err { OnErr result (self.new ≡ self.old) }
    {
        put_entry(&mut self.pairs, name, value)?;
        Ok(())
    }
}

/// Whether each name is below the next.
fn names_ascend<V>(pairs: &[(Txt, V)]) -> bool
    ensures { result ≡ ascends pairs.now }
{
    let mut before: Option<&Txt> = None;
    for pair in pairs.iter() {
        if let Some(name) = before {
            if *name >= pair.0 {
                return false;
            }
        }
        before = Some(&pair.0);
    }
    true
}

/// Where a name is, or else where it would go.
fn place_of<V>(pairs: &[(Txt, V)], name: &str) -> Result<usize, usize>
    requires { IsTrue (ascends pairs.now) }
    ensures { result ≡ place name.now pairs.now }
{
    let mut low = 0;
    let mut high = pairs.len();
    while low < high {
        let middle = low + (high - low) / 2;
        match pairs[middle].0.order_of(name) {
            Ordering::Less => high = middle,
            Ordering::Equal => return Ok(middle),
            Ordering::Greater => low = middle + 1,
        }
    }
    Err(low)
}

#[tactic(auto, using(crate::proofs::Placed::entry_in, crate::proofs::Placed::entry_kept, crate::proofs::Lookups::entry_found, crate::proofs::Lookups::entry_missed))]
fn replace_entry<V: Drop>(pairs: &mut Vec<(Txt, V)>, name: &str, value: V) -> Result<V, V>
    requires { IsTrue (ascends pairs.old.items) }
    ensures { Replaces name.now value pairs.old.items pairs.new.items result }
{
    match place_of(pairs.as_slice(), name) {
        Ok(at) => Ok(mem::replace(&mut pairs[at].1, value)),
        Err(_) => Err(value),
    }
}

#[tactic(auto, using(crate::proofs::Placed::entry_in, crate::proofs::Placed::entry_put, crate::proofs::Placed::entry_within, crate::proofs::Placed::entry_new))]
fn put_entry<V: Drop>(pairs: &mut Vec<(Txt, V)>, name: Txt, value: V) -> Result<(), AllocError>
    requires { IsTrue (ascends pairs.old.items) }
    ensures ok { IfOk result (λ _. pairs.new.items ≡ put name value pairs.old.items) }
    ensures err { OnErr result (pairs.new.items ≡ pairs.old.items) }
{
    match place_of(pairs.as_slice(), name.as_str()) {
        Ok(at) => {
            pairs[at] = (name, value);
            Ok(())
        }
        Err(at) => {
            pairs.insert(at, (name, value))?;
            Ok(())
        }
    }
}
