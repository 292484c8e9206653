//! The turns of a shape, among which the resource of a path is looked up by halves.
ghost use Rattle.std.specs.Prelude.{◌≡◌, IfOk};
ghost use Rattle.std.specs.List.{slice_get};
ghost use Rattle.std.specs.Option.{option_copied};
ghost use Rattle.cf_desired.specs.TurnPlaces.{ArePlaced, is_resource, others_from, place_of, places_from, with_place};

use crate::shape::Turn;
use cf_tree::{ByName, Listing, Txt};
use std::alloc::{AllocError, Global};
use std::marker::Model;

/// Where turns stand: the resource of each path, of two at one path the first, and the turns that are no resource.
#[derive(Drop)]
struct Index {
    places: ByName<usize>,
    others: Vec<usize>,
}

/// Turns with their places; contracts see them as the list.
#[derive(Drop)]
pub(crate) struct Turns {
    turns: Listing<Turn>,
    index: Index,
}

impl Model for Turns {
    ghost use Rattle.std.specs.Prelude.{List};
    ghost use Rattle.cf_desired.specs.declared.shape.Turn as kept;

    ghost Value = { List kept.Turn };

    ghost use Rattle.std.specs.Coded.{codes};
    ghost use Rattle.cf_tree.specs.Datum.{data_code};
    ghost use Rattle.cf_tree.specs.Forms.{form_code};
    ghost use Rattle.cf_tree.specs.Tests.{test_code};

    ghost coded = { Prim.hlevel (codes, data_code, form_code, test_code) };

    ghost view = { λ t. t.turns };

    ghost use Rattle.cf_desired.specs.TurnPlaces.{ArePlaced};

    ghost invariant = { λ t. ArePlaced t.turns t.index.places t.index.others.items };
}

impl Turns {
    /// Turns in their order.
    pub fn new(alloc: Global, turns: Listing<Turn>) -> Result<Turns, AllocError>
        ensures { IfOk result (λ t. t ≡ turns) }
    {
        match index_of(alloc, turns.as_slice()) {
            Ok(index) => Ok(Turns { turns, index }),
            Err(failed) => {
                drop(turns);
                Err(failed)
            }
        }
    }

    /// The turns in their order.
    pub fn as_slice(&self) -> &[Turn]
        ensures { result.now ≡ self.now }
    {
        self.turns.as_slice()
    }

    /// The turn at a place.
    pub fn get(&self, at: usize) -> Option<&Turn>
        ensures { option_copied result ≡ slice_get self.now at }
    {
        self.turns.as_slice().get(at)
    }

    /// The place of the first resource at a path.
    #[tactic(auto, using(crate::proofs::TurnPlaces::first_place))]
    pub fn place_of(&self, path: &Txt) -> Option<usize>
        ensures { result ≡ place_of path.now self.now }
    {
        self.index.places.get(path.as_str()).copied()
    }

    /// The places of the turns that are no resource.
    pub fn others(&self) -> &[usize]
        ensures { result.now ≡ others_from 0 self.now }
    {
        self.index.others.as_slice()
    }
}

/// Where turns stand.
fn index_of(alloc: Global, turns: &[Turn]) -> Result<Index, AllocError>
    ensures { IfOk result (λ x. ArePlaced turns.now x.places x.others.items) }
{
    Ok(Index {
        places: places_of(alloc, turns)?,
        others: others_of(alloc, turns)?,
    })
}

/// The places of resources. The last is put in first, so that of two at one path the first stays.
fn places_of(alloc: Global, turns: &[Turn]) -> Result<ByName<usize>, AllocError>
    ensures { IfOk result (λ places. places ≡ places_from 0 turns.now) }
{
    let mut places = ByName::new(alloc);
    let mut left = turns.len();
    while left > 0 {
        left -= 1;
        put_place(alloc, &mut places, &turns[left], left)?;
    }
    Ok(places)
}

/// Puts the place of a turn under its path, where it is a resource.
fn put_place(
    alloc: Global,
    places: &mut ByName<usize>,
    turn: &Turn,
    at: usize,
) -> Result<(), AllocError>
    ensures { IfOk result (λ _. places.new ≡ with_place turn.now at places.old) }
{
    match turn {
        Turn::Resource { member } => places.insert(member.path.try_clone(alloc)?, at),
        _ => Ok(()),
    }
}

/// The places of the turns that are no resource.
fn others_of(alloc: Global, turns: &[Turn]) -> Result<Vec<usize>, AllocError>
    ensures { IfOk result (λ others. others.items ≡ others_from 0 turns.now) }
{
    let mut others = Vec::new(alloc);
    for (at, turn) in turns.iter().enumerate() {
        if !is_resource(turn) {
            others.push(at)?;
        }
    }
    Ok(others)
}

/// Whether a turn is a resource.
fn is_resource(turn: &Turn) -> bool
    ensures { result ≡ is_resource turn.now }
{
    matches!(turn, Turn::Resource { member: _ })
}
