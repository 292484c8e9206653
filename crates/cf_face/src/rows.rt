//! What a stack holds, in the order of a report.
ghost use Rattle.std.specs.Prelude.{◌≡◌, ◌≤◌, ◌||◌, ◌&&◌, IfOk, insert, length, map};
ghost use Rattle.cf_tree.specs.Lists.{insert_by};
ghost use Rattle.cf_face.specs.Report.{is_held_before, held_in_order};
ghost use Rattle.cf_change.specs.Rising.{Rises};

use cf_stacks::Held;
use cf_tree::NoMemory;
use std::alloc::Global;

/// Whether a resource stands before another: by its path and then by its physical id.
fn is_held_before(a: &Held, b: &Held) -> bool
    ensures { result ≡ is_held_before a.now b.now }
{
    a.path < b.path || (a.path == b.path && a.physical < b.physical)
}

/// Where a resource joins others that stand in their order, by halves: behind those that stand before it.
#[tactic(auto, using(crate::proofs::Rising::around_all, crate::proofs::Rising::joins))]
fn place_of(rows: &[&Held], held: &Held) -> usize
    requires { Rises is_held_before (map (λ r. r.now) rows.now) }
    ensures within { result ≤ length rows.now }
    ensures place { insert_by is_held_before (map (λ r. r.now) rows.now) held.now ≡ insert (map (λ r. r.now) rows.now) result held.now }
{
    let mut low = 0;
    let mut high = rows.len();
    while low < high {
        let middle = low + (high - low) / 2;
        if is_held_before(rows[middle], held) {
            low = middle + 1;
        } else {
            high = middle;
        }
    }
    low
}

/// Puts a resource in its place.
#[tactic(auto, using(crate::proofs::Joined::map_insert))]
fn insert_row<'a>(rows: &mut Vec<&'a Held>, held: &'a Held) -> Result<(), NoMemory>
    requires { Rises is_held_before (map (λ r. r.now) rows.old.items) }
    ensures { IfOk result (λ _. map (λ r. r.now) rows.new.items ≡ insert_by is_held_before (map (λ r. r.now) rows.old.items) held.now) }
{
    let at = place_of(rows.as_slice(), held);
    rows.insert(at, held)?;
    Ok(())
}

/// What is held, by path and then by physical id.
#[tactic(auto, using(crate::proofs::Rising::held_rise))]
pub fn in_order<'a>(alloc: Global, held: &'a [Held]) -> Result<Vec<&'a Held>, NoMemory>
    ensures { IfOk result (λ rows. map (λ r. r.now) rows.items ≡ held_in_order held.now) }
{
    let mut rows = Vec::new(alloc);
    for one in held {
        insert_row(&mut rows, one)?;
    }
    Ok(rows)
}
