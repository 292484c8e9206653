//! Rows among which that of a path is looked up by halves.
ghost use Rattle.std.specs.Prelude.{◌≡◌, Bool, List, ℕ, IfOk, find};
ghost use Rattle.std.specs.Option.{option_copied};
ghost use Rattle.cf_effect.specs.Index.{ArePlacesOf, is_path, put_place};

use crate::held::Held;
use cf_desired::{Right, Terms as Termed, Wanted};
use cf_tree::{ByName, TryClone, Txt};
use std::alloc::{AllocError, Global};
use std::marker::Model;

/// A row that is found by a path, or by none.
pub trait FoundByPath: Sized {
    ghost is_found_by: { List ℕ → Self → Bool };

    /// The path that it is found by; none where no path finds it.
    fn found_by(&self) -> Option<&Txt>
        ensures { (path : List ℕ) → is_found_by path self.now ≡ is_path path (option_copied result) };
}

/// A resource is found by its path, unless it is superseded.
impl FoundByPath for Held {
    ghost use Rattle.cf_effect.specs.Words.{is_current_at};

    ghost is_found_by = { is_current_at };

    #[tactic(auto, using(crate::proofs::Indexed::none_current, crate::proofs::Indexed::one_current))]
    fn found_by(&self) -> Option<&Txt> {
        if self.superseded {
            None
        } else {
            Some(&self.path)
        }
    }
}

/// What a template wants at a path.
impl FoundByPath for Right {
    ghost use Rattle.cf_effect.specs.End.{is_right_at};

    ghost is_found_by = { is_right_at };

    fn found_by(&self) -> Option<&Txt> {
        Some(&self.path)
    }
}

/// What a plan wants at a path.
impl FoundByPath for Wanted {
    ghost use Rattle.cf_desired.specs.Whole.{is_wanted_at};

    ghost is_found_by = { is_wanted_at };

    fn found_by(&self) -> Option<&Txt> {
        Some(&self.path)
    }
}

/// What is told of a path.
impl FoundByPath for (Txt, Termed) {
    ghost use Rattle.cf_effect.specs.Laying.{are_terms_of};

    ghost is_found_by = { are_terms_of };

    fn found_by(&self) -> Option<&Txt> {
        Some(&self.0)
    }
}

/// Rows with the places of those of their paths; contracts see them as the list.
#[derive(Drop)]
pub struct PathIndex<'a, T: FoundByPath> {
    rows: &'a [T],
    places: ByName<usize>,
}

impl<'a, T: FoundByPath> Model for PathIndex<'a, T> {
    ghost use Rattle.std.specs.Prelude.{List};

    ghost Value = { List T };

    ghost use Rattle.cf_effect.specs.Index.{ArePlacesOf};

    ghost view = { λ i. i.rows.now };

    ghost invariant = { λ i. ArePlacesOf T.is_found_by i.rows.now i.places };
}

/// Puts a place under a path, unless there is one already. After an error nothing is said of the places.
fn put_place(
    alloc: Global,
    places: &mut ByName<usize>,
    path: &Txt,
    at: usize,
) -> Result<(), AllocError>
    ensures { IfOk result (λ _. places.new ≡ put_place places.old path.now at) }
{
    if places.get(path.as_str()).is_some() {
        Ok(())
    } else {
        places.insert(path.try_clone(alloc)?, at)
    }
}

/// The places of the rows of paths, of two of one path the first.
#[tactic(auto, using(crate::proofs::Indexed::one_passed, crate::proofs::Indexed::one_placed))]
pub(crate) fn places_of<T: FoundByPath>(
    alloc: Global,
    rows: &[T],
) -> Result<ByName<usize>, AllocError>
    ensures { IfOk result (ArePlacesOf T.is_found_by rows.now) }
{
    let mut places = ByName::new(alloc);
    for (at, row) in rows.iter().enumerate() {
        if let Some(path) = row.found_by() {
            put_place(alloc, &mut places, path, at)?;
        }
    }
    Ok(places)
}

impl<'a, T: FoundByPath> PathIndex<'a, T> {
    /// Rows, to look up those of paths.
    pub fn new(alloc: Global, rows: &'a [T]) -> Result<PathIndex<'a, T>, AllocError>
        ensures { IfOk result (λ i. i ≡ rows.now) }
    {
        let places = places_of(alloc, rows)?;
        Ok(PathIndex { rows, places })
    }

    /// The row of a path.
    #[tactic(auto, using(crate::proofs::Places::first_there))]
    pub fn get(&self, path: &Txt) -> Option<&'a T>
        ensures { option_copied result ≡ find (T.is_found_by path.now) self.now }
    {
        match self.places.get(path.as_str()) {
            Some(at) => self.rows.get(*at),
            None => None,
        }
    }
}
