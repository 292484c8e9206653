//! What the resources of a stack show to a template.
ghost use Rattle.std.specs.Prelude.{◌≡◌, ◌++◌, ℕ, List, IfOk, filter, map, not};
ghost use Rattle.cf_tree.specs.Keys.{put};
ghost use Rattle.cf_desired.specs.Seeing.{SeenAt, by_names};
ghost use Rattle.cf_effect.specs.Begin.{seen_as_held, seen_in, shown_under};

use crate::held::Held;
use cf_desired::{Seen, SeenAt};
use cf_tree::TryClone;
use std::alloc::{AllocError, Global};

/// What a resource shows.
fn shown(alloc: Global, held: &Held) -> Result<SeenAt, AllocError>
    ensures { IfOk result (λ shown. shown ≡ seen_as_held held.now) }
{
    let physical = held.physical.try_clone(alloc)?;
    match held.attrs.try_clone(alloc) {
        Ok(attrs) => Ok(SeenAt {
            physical: Some(physical),
            attrs: Some(attrs),
        }),
        Err(failed) => Err(failed),
    }
}

/// Adds what a resource shows of its path, in place of what another one shows there. After an error
/// nothing is said of what is seen.
pub(crate) fn see(alloc: Global, seen: &mut Seen, held: &Held) -> Result<(), AllocError>
    ensures { IfOk result (λ _. seen.new ≡ put held.now.path (seen_as_held held.now) seen.old) }
{
    let path = held.path.try_clone(alloc)?;
    match shown(alloc, held) {
        Ok(shown) => seen.insert(path, shown),
        Err(failed) => Err(failed),
    }
}

/// Puts what a list of resources shows before what others show, but for those that are superseded.
/// After an error nothing is said of what is seen.
fn see_each(alloc: Global, seen: &mut Seen, helds: &[Held]) -> Result<(), AllocError>
    ensures { IfOk result (λ _. (others : List (List ℕ × SeenAt)) → seen.old ≡ by_names others → seen.new ≡ by_names (map shown_under (filter (λ h. not h.superseded) helds.now) ++ others)) }
{
    let mut at = helds.len();
    while at > 0 {
        at -= 1;
        let held = &helds[at];
        if !held.superseded {
            see(alloc, seen, held)?;
        }
    }
    Ok(())
}

/// What a list of resources shows, by path: of two at one path the first, and none that is
/// superseded.
///
/// # Errors
///
/// Only for want of memory.
pub fn seen_in(alloc: Global, helds: &[Held]) -> Result<Seen, AllocError>
    ensures { IfOk result (λ seen. seen ≡ seen_in helds.now) }
{
    let mut seen = Seen::new(alloc);
    match see_each(alloc, &mut seen, helds) {
        Ok(()) => Ok(seen),
        Err(failed) => {
            drop(seen);
            Err(failed)
        }
    }
}

/// What two lists of resources show: the first before the second.
pub(crate) fn seen_in_both(
    alloc: Global,
    first: &[Held],
    second: &[Held],
) -> Result<Seen, AllocError>
    ensures { IfOk result (λ seen. seen ≡ seen_in (first.now ++ second.now)) }
{
    let mut seen = seen_in(alloc, second)?;
    match see_each(alloc, &mut seen, first) {
        Ok(()) => Ok(seen),
        Err(failed) => {
            drop(seen);
            Err(failed)
        }
    }
}
