//! Whether each resource stands behind all that it needs.
ghost use Rattle.std.specs.Prelude.{◌≡◌};
ghost use Rattle.std.specs.List.{list_all};
ghost use Rattle.cf_graph.specs.Before.{comes_before, needs_first};

use crate::sequence::Needs;
use cf_tree::{Names, Txt};

/// Whether all that each needs comes before it among those that are placed.
///
/// It takes time in proportion to the needs.
pub(crate) fn needs_first(placed: &Needs, all: &[(Txt, Names)]) -> bool
    ensures { result ≡ needs_first placed.now.entries all.now }
{
    all.iter()
        .all(|entry| all_before(placed, &entry.1, &entry.0))
}

/// Whether all the needs come before a name.
fn all_before(placed: &Needs, needs: &Names, name: &Txt) -> bool
    ensures { result ≡ list_all (λ n. comes_before placed.now.entries n name.now) needs.now }
{
    needs
        .as_slice()
        .iter()
        .all(|need| comes_before(placed, need, name))
}

fn comes_before(placed: &Needs, need: &Txt, name: &Txt) -> bool
    ensures { result ≡ comes_before placed.now.entries need.now name.now }
{
    match (placed.get_index_of(need), placed.get_index_of(name)) {
        (Some(first), Some(second)) => first < second,
        _ => false,
    }
}
