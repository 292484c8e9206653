ghost use Rattle.std.specs.Prelude.{◌≡◌, [], Some, None, length, if◌then◌else◌};
ghost use Rattle.std.specs.Option.{option_copied};
ghost use Rattle.cf_tree.specs.Keys.{value_at};
ghost use Rattle.cf_param.specs.Offered.{names_distinct, has_name};

use cf_tree::{ByName, Txt};
use std::alloc::Global;
use std::marker::Model;

/// What is given for a parameter.
#[derive(Drop, PartialEq, Eq)]
pub enum Piece {
    /// A text.
    Text(Txt),
    /// It rests on something that is not known yet.
    Later,
}

/// What is given for the parameters of a template: names, each once, in the order in which they came.
#[derive(Drop)]
pub struct Given {
    items: Vec<(Txt, Piece)>,
}

impl Model for Given {
    ghost use Rattle.std.specs.Prelude.{List, ℕ, IsTrue};
    ghost use Rattle.cf_param.specs.declared.offered.Piece.{Piece};
    ghost use Rattle.cf_param.specs.Offered.{names_distinct};

    ghost Value = { List (List ℕ × Piece) };

    ghost view = { λ g. g.items.items };

    ghost invariant = { λ g. IsTrue (names_distinct g.items.items) };
}

impl Given {
    /// Nothing is given; it takes no memory.
    pub fn new(alloc: Global) -> Given
        ensures { result ≡ [] }
    {
        Given {
            items: Vec::new(alloc),
        }
    }

    /// What a vector gives, and None exactly where it has a name twice; it takes no memory.
    pub fn try_from_vec(items: Vec<(Txt, Piece)>) -> Option<Given>
        ensures { result ≡ (if names_distinct items.items then Some items.items else None) }
    {
        if are_distinct(items.as_slice()) {
            Some(Given { items })
        } else {
            None
        }
    }

    /// What a map gives, in the order of its names; it takes no memory.
    #[tactic(auto, using(crate::proofs::Ascending::distinct))]
    pub fn from_names(pieces: ByName<Piece>) -> Given
        ensures { result ≡ pieces }
    {
        Given {
            items: pieces.into_vec(),
        }
    }

    /// What is given for a name.
    pub fn get(&self, name: &str) -> Option<&Piece>
        ensures { option_copied result ≡ value_at name.now self.now }
    {
        for pair in self.items.iter() {
            if pair.0.is(name) {
                return Some(&pair.1);
            }
        }
        None
    }

    /// How many names there are.
    pub fn len(&self) -> usize
        ensures { result ≡ length self.now }
    {
        self.items.len()
    }

    /// The names with what is given for each, in their order.
    pub fn as_slice(&self) -> &[(Txt, Piece)]
        ensures { result.now ≡ self.now }
    {
        self.items.as_slice()
    }
}

fn are_distinct(pairs: &[(Txt, Piece)]) -> bool
    ensures { result ≡ names_distinct pairs.now }
{
    for at in 0..pairs.len() {
        if has_name(pairs[at].0.as_str(), &pairs[at + 1..]) {
            return false;
        }
    }
    true
}

fn has_name(name: &str, pairs: &[(Txt, Piece)]) -> bool
    ensures { result ≡ has_name name.now pairs.now }
{
    for pair in pairs.iter() {
        if pair.0.is(name) {
            return true;
        }
    }
    false
}
