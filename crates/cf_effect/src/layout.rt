//! The layout of a source: its resources in the order of work, by their places.
ghost use Rattle.std.specs.Prelude.{◌≡◌, ◌∷◌, [], ℕ, List, false, IfOk, length, map, option_copied, slice_get};
ghost use Rattle.std.specs.List.{filter_map};
ghost use Rattle.cf_tree.specs.Keys.{value_at};
ghost use Rattle.cf_desired.specs.ComeFirst.{ComeFirst};
ghost use Rattle.cf_desired.specs.Turns.{pathed};
ghost use Rattle.cf_desired.specs.Work.{Member};
ghost use Rattle.cf_effect.specs.Layout.{AreRows, row_needs, users_at};
ghost use Rattle.cf_effect.specs.Following.{IsPlaceIn, stands_at};
ghost use Rattle.cf_effect.specs.Laying.{AreUsers, JoinsUsers, is_user, laid_row, row_told};

use crate::index::places_of;
use cf_desired::Terms as Termed;
use cf_tree::{ByName, Names, TryClone, Txt};
use std::alloc::{AllocError, Global};

/// A resource of a source: its path and type, and the places of what it needs.
#[derive(Drop)]
pub struct Placed {
    pub path: Txt,
    pub kind: Txt,
    pub needs: Vec<usize>,
}

/// The resources of a source in the order of work, the places of what needs each, and where each path stands.
#[derive(Drop)]
pub struct Layout {
    pub rows: Vec<Placed>,
    pub users: Vec<Vec<usize>>,
    pub places: ByName<usize>,
}

impl Layout {
    /// The place of a path.
    pub fn place_of(&self, path: &Txt) -> Option<usize>
        ensures { result ≡ value_at path.now self.now.places }
    {
        self.places.get(path.as_str()).copied()
    }

    /// Whether a path stands at a place.
    pub fn stands_at(&self, at: usize, path: &Txt) -> bool
        ensures { result ≡ stands_at self.now at path.now }
    {
        match self.row_at(at) {
            Some(row) => row.path == *path,
            None => false,
        }
    }

    /// The place of a path, which is looked for at a place first.
    #[tactic(auto, using(crate::proofs::Sought::path_placed))]
    pub(crate) fn place_near(&self, near: usize, path: &Txt) -> Option<usize>
        ensures { IsPlaceIn self.now path.now result }
    {
        if self.stands_at(near, path) {
            Some(near)
        } else {
            self.place_of(path)
        }
    }

    /// The row at a place.
    pub fn row_at(&self, at: usize) -> Option<&Placed>
        ensures { option_copied result ≡ slice_get self.now.rows.items at }
    {
        self.rows.get(at)
    }

    /// The places of what the path at a place needs.
    pub fn needs_at(&self, at: usize) -> &[usize]
        ensures { result.now ≡ row_needs self.now.rows.items at }
    {
        match self.rows.get(at) {
            Some(row) => row.needs.as_slice(),
            None => &[],
        }
    }

    /// The places of what needs the path at a place.
    pub fn users_at(&self, at: usize) -> &[usize]
        ensures { result.now ≡ users_at self.now at }
    {
        match self.users.get(at) {
            Some(users) => users.as_slice(),
            None => &[],
        }
    }
}

/// The places of what a path needs.
#[tactic(auto, using(crate::proofs::Laid::filter_some, crate::proofs::Laid::filter_none))]
fn needs_of(alloc: Global, places: &ByName<usize>, needs: &Names) -> Result<Vec<usize>, AllocError>
    ensures { IfOk result (λ found. found.items ≡ filter_map (λ q. value_at q places.now) needs.now) }
{
    let mut found = Vec::new(alloc);
    for need in needs.as_slice() {
        if let Some(at) = places.get(need.as_str()) {
            found.push(*at)?;
        }
    }
    Ok(found)
}

/// The row of a path.
fn row_of(alloc: Global, places: &ByName<usize>, told: &(Txt, Termed)) -> Result<Placed, AllocError>
    ensures { IfOk result (λ row. row_told row ≡ laid_row places.now told.now) }
{
    Ok(Placed {
        path: told.0.try_clone(alloc)?,
        kind: told.1.kind.try_clone(alloc)?,
        needs: needs_of(alloc, places, &told.1.needs)?,
    })
}

/// The rows of all paths.
fn rows_of(
    alloc: Global,
    places: &ByName<usize>,
    all: &[(Txt, Termed)],
) -> Result<Vec<Placed>, AllocError>
    ensures { IfOk result (λ rows. map row_told rows.items ≡ map (laid_row places.now) all.now) }
{
    let mut rows = Vec::new(alloc);
    for told in all {
        rows.push(row_of(alloc, places, told)?)?;
    }
    Ok(rows)
}

/// So many places that nothing needs.
#[tactic(auto, using(crate::proofs::Laid::none_empty))]
fn no_users(alloc: Global, count: usize) -> Result<Vec<Vec<usize>>, AllocError>
    ensures count { IfOk result (λ users. length users.items ≡ count) }
    ensures none { IfOk result (λ users. (at other : ℕ) → is_user other at users.items ≡ false) }
{
    let mut users = Vec::new(alloc);
    while users.len() < count {
        users.push(Vec::new(alloc))?;
    }
    Ok(users)
}

/// One more needs a place.
#[tactic(auto, using(crate::proofs::Laid::user_joined, crate::proofs::Laid::user_passed))]
fn add_user(users: &mut Vec<Vec<usize>>, at: usize, other: usize) -> Result<(), AllocError>
    ensures { IfOk result (λ _. JoinsUsers (at ∷ []) other users.old.items users.new.items) }
{
    if at < users.len() {
        users[at].push(other)?;
    }
    Ok(())
}

/// One more needs each of these places.
#[tactic(auto, using(crate::proofs::Laid::none_joined, crate::proofs::Laid::joined_more))]
fn add_users(users: &mut Vec<Vec<usize>>, needs: &[usize], other: usize) -> Result<(), AllocError>
    ensures { IfOk result (λ _. JoinsUsers needs.now other users.old.items users.new.items) }
{
    for at in needs {
        add_user(users, *at, other)?;
    }
    Ok(())
}

/// What needs each of these rows.
#[tactic(auto, using(crate::proofs::Laid::users_first, crate::proofs::Laid::users_more, crate::proofs::Laid::users_all))]
fn users_of(alloc: Global, rows: &[Placed]) -> Result<Vec<Vec<usize>>, AllocError>
    ensures { IfOk result (λ users. AreUsers rows.now users.items) }
{
    let mut users = no_users(alloc, rows.len())?;
    for (other, row) in rows.iter().enumerate() {
        add_users(&mut users, row.needs.as_slice(), other)?;
    }
    Ok(users)
}

/// Lays out what is told of each path in the order of work.
#[tactic(auto, using(crate::proofs::Rowed::laid_rows))]
pub(crate) fn lay_out(alloc: Global, all: &[(Txt, Termed)]) -> Result<Layout, AllocError>
    ensures { IfOk result (λ layout. (ms : List Member) → all.now ≡ map pathed ms → ComeFirst [] ms → AreRows ms layout) }
{
    let places = places_of(alloc, all)?;
    let rows = rows_of(alloc, &places, all)?;
    let users = users_of(alloc, rows.as_slice())?;
    Ok(Layout {
        rows,
        users,
        places,
    })
}
