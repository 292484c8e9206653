//! Places noted under names.
ghost use Rattle.std.specs.Prelude.{◌≡◌, ℕ, List, [], ◌∷◌, ◌++◌, IfOk, if◌then◌else◌};
ghost use Rattle.std.specs.Str.{bytes_eq};
ghost use Rattle.cf_graph.specs.Noted.{places_noted};

use cf_tree::{NoMemory, Txt};
use std::alloc::Global;
use std::collections::BTreeMap;

/// Under each name the places that were noted there, in the order in which they were.
pub(crate) type Notes = BTreeMap<Txt, Vec<usize>>;

/// Notes a place under a name, behind those that stand there.
pub(crate) fn note(alloc: Global, notes: &mut Notes, name: &Txt, at: usize) -> Result<(), NoMemory>
    ensures { IfOk result (λ _. (q : List ℕ) → places_noted notes.new q ≡ (if bytes_eq q name.now then places_noted notes.old q ++ at ∷ [] else places_noted notes.old q)) }
{
    match notes.get_mut(name) {
        Some(places) => places.push(at)?,
        None => {
            let mut places = Vec::new(alloc);
            places.push(at)?;
            notes.insert(name.try_clone(alloc)?, places)?;
        }
    }
    Ok(())
}

/// The places that are noted under a name.
pub(crate) fn behind<'a>(notes: &'a Notes, name: &Txt) -> &'a [usize]
    ensures { result.now ≡ places_noted notes.now name.now }
{
    match notes.get(name) {
        Some(places) => places.as_slice(),
        None => &[],
    }
}
