//! The deletion that comes next in the rollback of a creation, read off what is kept of it: what nothing that is left needs is told by
//! flags in the order of names, and only the resource that is taken is looked at whole.
ghost use Rattle.std.specs.Prelude.{◌≡◌, ◌&&◌, IfOk, IfSome, false, slice_index_or, true};
ghost use Rattle.std.specs.List.{list_any};
ghost use Rattle.std.specs.Option.{option_copied};
ghost use Rattle.cf_tree.specs.Keys.{ascends};
ghost use Rattle.cf_tree.specs.Lists.{is_among};
ghost use Rattle.cf_effect.specs.Status.{Back};
ghost use Rattle.cf_effect.specs.Undoing.{IsUndoing, id_at};
ghost use Rattle.cf_effect.specs.Words.{is_create};
ghost use Rattle.cf_plan.specs.Between.{needs_at};
ghost use Rattle.cf_plan.specs.Follow.{waits_for_repeats};
ghost use Rattle.cf_next.specs.Rollback.{IsFirstFound, IsTaken, deletion_at, deletion_ranked, fitting_of, has_create, may_delete};

use crate::deletions::waits;
use crate::first::{LaneHome, fits_one, homes_now, new_call};
use crate::repeats::repeats;
use crate::step::Next;
use crate::unmaking::Unmaking;
use cf_plan::{Ask, Start, is_free};
use cf_stacks::{Layout, Pending, StackState, Undoing, World};
use cf_tree::{Request, Txt};
use std::alloc::{AllocError, Global};

/// The id of what stands at a place.
fn id_at(undoing: &Undoing, at: usize) -> Option<&Txt>
    ensures { option_copied result ≡ id_at undoing.now.ids.items at }
{
    match undoing.ids.get(at) {
        Some(id) => id.as_ref(),
        None => None,
    }
}

/// Whether a flag at a place is set.
fn is_set(flags: &[bool], at: usize) -> bool
    ensures { result ≡ slice_index_or flags.now at false }
{
    match flags.get(at) {
        Some(flag) => *flag,
        None => false,
    }
}

/// Whether a path is among those that another one needs.
fn needs_path(stack: &StackState, path: &Txt, other: &Txt) -> bool
    ensures { result ≡ is_among path.now (needs_at other.now stack.now.stack) }
{
    stack.needs_at(other).iter().any(|need| *path == *need)
}

/// Whether an open call is a create of what needs a path.
fn creates_user(stack: &StackState, path: &Txt, pending: &Pending) -> bool
    ensures { result ≡ (is_create pending.now.request && is_among path.now (needs_at pending.now.path stack.now.stack)) }
{
    matches!(pending.request, Request::Create { kind: _, props: _ })
        && needs_path(stack, path, &pending.path)
}

/// Whether one of these open calls is a create of what needs a path.
fn has_create(stack: &StackState, path: &Txt, tokens: &[Pending]) -> bool
    ensures { result ≡ list_any (λ p. is_create p.request && is_among path.now (needs_at p.path stack.now.stack)) tokens.now }
{
    tokens
        .iter()
        .any(|pending| creates_user(stack, path, pending))
}

/// Whether what stands at the place of a path may be deleted once nothing that is left needs it.
fn may_delete(stack: &StackState, undoing: &Undoing, at: usize, path: &Txt) -> bool
    ensures { result ≡ may_delete stack.now.stack undoing.now at path.now }
{
    is_free(stack, path)
        && !is_set(undoing.tried.as_slice(), at)
        && !has_create(stack, path, stack.tokens().as_slice())
}

/// The deletion of what stands at the place of a path, where it may be deleted and a lane at home fits it.
fn fitting_of<'a>(
    homes: &[LaneHome],
    stack: &StackState,
    undoing: &Undoing,
    at: usize,
    path: &'a Txt,
    physical: &'a Txt,
) -> Option<Start<'a>>
    ensures { result ≡ fitting_of homes.now stack.now.stack undoing.now at path.now physical.now }
{
    let start = Start::new(path, Ask::Delete { physical });
    if may_delete(stack, undoing, at, path) && fits_one(homes, &start) {
        Some(start)
    } else {
        None
    }
}

/// The deletion of what stands at a place, where it may be deleted and a lane at home fits it.
fn deletion_at<'a>(
    homes: &[LaneHome],
    stack: &StackState,
    undoing: &'a Undoing,
    at: usize,
) -> Option<Start<'a>>
    ensures { result ≡ deletion_at homes.now stack.now.stack undoing.now at }
{
    match undoing.layout.row_at(at) {
        Some(row) => match id_at(undoing, at) {
            Some(physical) => fitting_of(homes, stack, undoing, at, &row.path, physical),
            None => None,
        },
        None => None,
    }
}

/// The deletion of what stands at the place of the name of a rank, where it fits.
fn deletion_ranked<'a>(
    homes: &[LaneHome],
    stack: &StackState,
    undoing: &'a Undoing,
    rank: usize,
) -> Option<Start<'a>>
    ensures { result ≡ deletion_ranked homes.now stack.now.stack undoing.now rank }
{
    match undoing.layout.places.as_slice().get(rank) {
        Some(named) => deletion_at(homes, stack, undoing, named.1),
        None => None,
    }
}

/// The first deletion by path of what nothing that is left needs. Only those paths are looked at: the first of them, and further ones
/// while they have an open call, a deletion that was refused, or no lane at home.
#[tactic(auto, using(crate::proofs::FirstLeft::none_yet, crate::proofs::FirstLeft::none_more, crate::proofs::FirstLeft::found_first, cf_ready::proofs::Flagged::next_within))]
fn first_deletion<'a>(
    homes: &[LaneHome],
    stack: &StackState,
    undoing: &'a Undoing,
) -> Option<Start<'a>>
    ensures { IfSome result (IsFirstFound homes.now stack.now.stack undoing.now) }
{
    let mut from = 0;
    'ranks: while from < undoing.readiness.ready.len() {
        let rank = match undoing.readiness.ready.next(from) {
            Some(rank) => rank,
            None => return None,
        };
        match deletion_ranked(homes, stack, undoing, rank) {
            Some(start) => return Some(start),
            None => from = rank + 1,
        }
    }
    None
}

/// Whether a rollback waits for no repeat.
pub(crate) fn is_idle(alloc: Global, stack: &StackState, out: &[u64]) -> Result<bool, AllocError>
    ensures { IfOk result (λ so. so ≡ true → waits_for_repeats Back out.now stack.now.stack ≡ false) }
{
    let repeats = repeats(alloc, stack, out)?;
    let waits = waits(Unmaking::Back, stack, out, &repeats);
    drop(repeats);
    Ok(!waits)
}

/// The names of a layout are in the order of their bytes.
fn in_order(layout: &Layout)
    ensures { ascends layout.now.places ≡ true }
{
    let _names = layout.places.as_slice();
}

/// The first deletion that a lane at home fits, under the next token, where no call is to be made again.
fn deletion_by(
    alloc: Global,
    out: &[u64],
    world: &World,
    undoing: &Undoing,
    stack: &StackState,
) -> Result<Option<Next>, AllocError>
    requires undoing { IsUndoing stack.now.stack undoing.now }
    requires idle { waits_for_repeats Back out.now stack.now.stack ≡ false }
    ensures { IfOk result (IsTaken out.now world.now.world stack.now.stack) }
{
    in_order(&undoing.layout);
    let homes = homes_now(alloc, out, world)?;
    let lanes = homes.as_slice();
    match first_deletion(lanes, stack, undoing) {
        Some(start) => new_call(alloc, lanes, world, &start),
        None => Ok(None),
    }
}

/// The deletion that comes next where the creation of a stack is rolled back, by what is kept of that; `None` where it may be another
/// step that comes next, and in any other stage. It goes over the open calls, and over no more than the paths that nothing needs;
/// nothing is laid out but the call that is taken.
///
/// # Errors
///
/// For want of memory, or of a token.
pub(crate) fn next_deletion(
    alloc: Global,
    out: &[u64],
    world: &World,
    stack: &StackState,
) -> Result<Option<Next>, AllocError>
    ensures { IfOk result (IsTaken out.now world.now.world stack.now.stack) }
{
    match stack.undoing() {
        Some(undoing) => {
            if is_idle(alloc, stack, out)? {
                deletion_by(alloc, out, world, undoing, stack)
            } else {
                Ok(None)
            }
        }
        None => Ok(None),
    }
}
