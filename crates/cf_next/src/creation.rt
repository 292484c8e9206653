//! The create that comes next while a creation goes forward, read off what is kept of it: which paths are ready is told by flags in the
//! order of their names, and only the path that is taken is looked at whole.
ghost use Rattle.std.specs.Prelude.{◌≡◌, ℕ, [], IfOk, Some, false, find, slice_index_or, true};
ghost use Rattle.std.specs.Option.{option_copied};
ghost use Rattle.cf_tree.specs.Keys.{ascends};
ghost use Rattle.cf_effect.specs.Ahead.{AreKept, IsAhead, found_in};
ghost use Rattle.cf_effect.specs.Findings.{AreFindings};
ghost use Rattle.cf_next.specs.Creation.{are_made, create_at, creates_of, first_named, fitting_at, fitting_ranked, known_at, may_create};
ghost use Rattle.cf_next.specs.First.{fits_one, homes_now};
ghost use Rattle.cf_next.specs.Repeats.{AreRepeatsBut};
ghost use Rattle.cf_next.specs.Rollback.{IsTaken};

use crate::first::{LaneHome, fits_one, homes_now, new_call};
use crate::repeats::repeats;
use crate::step::Next;
use cf_plan::{Ask, Start, is_free};
use cf_ready::{Readiness, is_made_in};
use cf_stacks::{Ahead, Findings, Found, Layout, Placed, StackState, World};
use cf_tree::Dict;
use std::alloc::{AllocError, Global};

/// What is kept of the properties at a place.
fn found_at(findings: &Findings, at: usize) -> Option<&Found>
    ensures { option_copied result ≡ found_in findings.now.found.items at }
{
    match findings.found.get(at) {
        Some(found) => found.as_ref(),
        None => None,
    }
}

/// Whether the paths at these places are made.
fn are_made(findings: &Findings, needs: &[usize]) -> bool
    ensures { result ≡ are_made findings.now needs.now }
{
    needs
        .iter()
        .all(|need| is_made_in(findings.made.as_slice(), *need))
}

/// Whether a path is ready and not made, and has no open call.
fn may_create(stack: &StackState, findings: &Findings, at: usize, row: &Placed) -> bool
    ensures { result ≡ may_create stack.now.stack findings.now at row.now }
{
    !is_made_in(findings.made.as_slice(), at)
        && are_made(findings, row.needs.as_slice())
        && is_free(stack, &row.path)
}

/// The properties at a place, where all are known.
fn known_at(findings: &Findings, at: usize) -> Option<&Dict>
    ensures { option_copied result ≡ known_at findings.now at }
{
    match found_at(findings, at) {
        Some(found) => found.known.as_ref(),
        None => None,
    }
}

/// The create of a path, where all of its properties are known and a lane at home fits it.
fn fitting<'a>(homes: &[LaneHome], row: &'a Placed, known: Option<&'a Dict>) -> Option<Start<'a>>
    ensures { result ≡ find (fits_one homes.now) (create_at row.now.path row.now.kind (option_copied known.entry)) }
{
    match known {
        Some(props) => {
            let kind = &row.kind;
            let start = Start::new(&row.path, Ask::Create { kind, props });
            if fits_one(homes, &start) {
                Some(start)
            } else {
                None
            }
        }
        None => None,
    }
}

/// The create of the path of a row, where it may begin and a lane at home fits it.
fn fitting_of<'a>(
    homes: &[LaneHome],
    stack: &StackState,
    findings: &'a Findings,
    at: usize,
    row: &'a Placed,
) -> Option<Start<'a>>
    ensures { result ≡ find (fits_one homes.now) (creates_of stack.now.stack findings.now at row.now) }
{
    if may_create(stack, findings, at, row) {
        fitting(homes, row, known_at(findings, at))
    } else {
        None
    }
}

/// The create of the path at a place, where it may begin and a lane at home fits it.
fn fitting_at<'a>(
    homes: &[LaneHome],
    stack: &StackState,
    layout: &'a Layout,
    findings: &'a Findings,
    at: usize,
) -> Option<Start<'a>>
    ensures { result ≡ fitting_at homes.now stack.now.stack layout.now findings.now at }
{
    match layout.row_at(at) {
        Some(row) => fitting_of(homes, stack, findings, at, row),
        None => None,
    }
}

/// The create of the path of the name of a rank, where it may begin and a lane at home fits it.
fn fitting_ranked<'a>(
    homes: &[LaneHome],
    stack: &StackState,
    layout: &'a Layout,
    findings: &'a Findings,
    rank: usize,
) -> Option<Start<'a>>
    ensures { result ≡ fitting_ranked homes.now stack.now.stack layout.now findings.now rank }
{
    match layout.places.as_slice().get(rank) {
        Some(named) => fitting_at(homes, stack, layout, findings, named.1),
        None => None,
    }
}

/// The first create by path that may begin and that a lane at home fits. Only those paths are looked at that are ready: the first of
/// them, and further ones while they have an open call or no lane at home.
#[tactic(auto, using(crate::proofs::FirstReady::named_first, crate::proofs::FirstReady::named_none, crate::proofs::FirstReady::named_past, crate::proofs::FirstReady::named_later, cf_ready::proofs::Flagged::next_within))]
fn first_create<'a>(
    homes: &[LaneHome],
    stack: &StackState,
    ahead: &'a Ahead,
    findings: &'a Findings,
) -> Option<Start<'a>>
    requires { IsAhead stack.now.stack findings.now.made.items findings.now.found.items ahead.now }
    ensures { result ≡ first_named homes.now stack.now.stack ahead.now.layout findings.now ahead.now.layout.places }
{
    let mut from = 0;
    'ranks: while from < ahead.readiness.ready.len() {
        let rank = match ahead.readiness.ready.next(from) {
            Some(rank) => rank,
            None => return None,
        };
        match fitting_ranked(homes, stack, &ahead.layout, findings, rank) {
            Some(start) => return Some(start),
            None => from = rank + 1,
        }
    }
    None
}

/// Whether the properties of each path that is ready are worked out, and at no fault.
#[tactic(auto, using(cf_ready::proofs::Flagged::none_set))]
fn is_sound(readiness: &Readiness) -> bool
    ensures { result ≡ true → (at : ℕ) → slice_index_or readiness.now.unsound at false ≡ false }
{
    match readiness.unsound.next(0) {
        Some(_) => false,
        None => true,
    }
}

/// Whether no call of a stack is to be made again.
pub(crate) fn is_idle(alloc: Global, stack: &StackState, out: &[u64]) -> Result<bool, AllocError>
    ensures { IfOk result (λ so. so ≡ true → AreRepeatsBut [] out.now stack.now.stack []) }
{
    let repeats = repeats(alloc, stack, out)?;
    Ok(repeats.is_empty())
}

/// The names of a layout are in the order of their bytes.
fn in_order(layout: &Layout)
    ensures { ascends layout.now.places ≡ true }
{
    let _names = layout.places.as_slice();
}

/// The first create that a lane at home fits, under the next token, where no call is to be made again.
fn create_by(
    alloc: Global,
    out: &[u64],
    world: &World,
    ahead: &Ahead,
    findings: &Findings,
    stack: &StackState,
) -> Result<Option<Next>, AllocError>
    requires ahead { IsAhead stack.now.stack findings.now.made.items findings.now.found.items ahead.now }
    requires findings { AreFindings stack.now.stack findings.now }
    requires sound { (at : ℕ) → slice_index_or ahead.now.readiness.unsound at false ≡ false }
    requires idle { AreRepeatsBut [] out.now stack.now.stack [] }
    ensures { IfOk result (IsTaken out.now world.now.world stack.now.stack) }
{
    in_order(&ahead.layout);
    let homes = homes_now(alloc, out, world)?;
    let lanes = homes.as_slice();
    match first_create(lanes, stack, ahead, findings) {
        Some(start) => new_call(alloc, lanes, world, &start),
        None => Ok(None),
    }
}

/// The first create that a lane at home fits, where these findings of the stack keep that its creation goes forward, each path that is
/// ready is sound, and no call is to be made again.
fn create_kept(
    alloc: Global,
    out: &[u64],
    world: &World,
    findings: &Findings,
    stack: &StackState,
) -> Result<Option<Next>, AllocError>
    requires { AreKept stack.now.stack findings.now }
    ensures { IfOk result (IsTaken out.now world.now.world stack.now.stack) }
{
    match &findings.ahead {
        Some(ahead) => {
            if is_sound(&ahead.readiness) && is_idle(alloc, stack, out)? {
                create_by(alloc, out, world, ahead, findings, stack)
            } else {
                Ok(None)
            }
        }
        None => Ok(None),
    }
}

/// The create that comes next where the creation of a stack goes forward, by what is kept of it; `None` where it may be another step
/// that comes next, and in any other stage. It goes over the open calls, and over no more than the paths that are ready; nothing is
/// laid out but the call that is taken.
///
/// # Errors
///
/// For want of memory, or of a token.
pub(crate) fn next_create(
    alloc: Global,
    out: &[u64],
    world: &World,
    stack: &StackState,
) -> Result<Option<Next>, AllocError>
    ensures { IfOk result (IsTaken out.now world.now.world stack.now.stack) }
{
    match stack.findings() {
        Some(findings) => create_kept(alloc, out, world, findings, stack),
        None => Ok(None),
    }
}
