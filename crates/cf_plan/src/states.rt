//! What is known of each path, read off the layout of its source, the findings that its stack keeps, and the calls of its
//! operation.
ghost use Rattle.std.specs.Prelude.{◌≡◌, IfOk, Some, false, fold, length, option_and_then, set, true, if◌then◌else◌};
ghost use Rattle.std.specs.List.{slice_get};
ghost use Rattle.std.specs.Option.{option_copied};
ghost use Rattle.cf_tree.specs.Keys.{value_at};
ghost use Rattle.cf_effect.specs.Findings.{AreFindings};
ghost use Rattle.cf_effect.specs.Layout.{IsLayoutOf};
ghost use Rattle.cf_plan.specs.PathStates.{AreStatesOf, finding_in};
ghost use Rattle.cf_plan.specs.StatesKept.{AreRead, IsRead, at_place, finding_kept, marks_of, updated_place, with_mark};

use crate::calls::{is_answered_update, is_good_update};
use crate::path_state::{PathFinding, PathState, is_done_at};
use cf_desired::Evaluated;
use cf_stacks::{Call, Findings, Found, Held, Layout, Placed, StackState};
use cf_tree::Txt;
use std::alloc::{AllocError, Global};

/// Which paths an operation updated, by place.
#[derive(Drop)]
struct Marks {
    /// Those of which an update succeeded.
    updated: Vec<bool>,
    /// Those of which an update was answered, be it refused.
    answered: Vec<bool>,
}

/// Marks a place, where there is one.
fn mark(marks: &mut Vec<bool>, place: usize)
    ensures { marks.new.items ≡ set marks.old.items place true }
{
    if place < marks.len() {
        marks[place] = true;
    }
}

/// Marks a place in both lists; in that of the updates that succeeded where it is one.
fn mark_both(marks: &mut Marks, good: bool, place: usize)
    ensures updated { marks.new.updated.items ≡ (if good then set marks.old.updated.items place true else marks.old.updated.items) }
    ensures answered { marks.new.answered.items ≡ set marks.old.answered.items place true }
{
    if good {
        mark(&mut marks.updated, place);
        mark(&mut marks.answered, place)
    } else {
        mark(&mut marks.answered, place)
    }
}

/// The place of a path in the layout of a stack's source, which is looked for at a place first.
fn place_from(stack: &StackState, layout: &Layout, near: usize, path: &Txt) -> Option<usize>
    requires { IsLayoutOf stack.now.stack (Some layout.now) }
    ensures { result ≡ value_at path.now layout.now.places }
{
    let _of = stack;
    if layout.stands_at(near, path) {
        Some(near)
    } else {
        layout.place_of(path)
    }
}

/// The place of a call's path, where it is an update of the operation that was answered; it is looked for at a place first.
fn updated_from(
    stack: &StackState,
    layout: &Layout,
    number: u64,
    near: usize,
    call: &Call,
) -> Option<usize>
    requires { IsLayoutOf stack.now.stack (Some layout.now) }
    ensures { result ≡ updated_place layout.now.places number call.now }
{
    if call.number == number && is_answered_update(call) {
        place_from(stack, layout, near, &call.path)
    } else {
        None
    }
}

/// Marks the place of a call's path, where it is an update of the operation that was answered; it gives the place at which the next one
/// is to be looked for first.
#[tactic(auto, using(crate::proofs::Marking::updated_marked, crate::proofs::Marking::updated_unmarked, crate::proofs::Marking::answered_marked, crate::proofs::Marking::answered_unmarked))]
fn add_mark(
    stack: &StackState,
    layout: &Layout,
    number: u64,
    near: usize,
    marks: &mut Marks,
    call: &Call,
) -> usize
    requires { IsLayoutOf stack.now.stack (Some layout.now) }
    ensures updated { marks.new.updated.items ≡ with_mark layout.now.places true number marks.old.updated.items call.now }
    ensures answered { marks.new.answered.items ≡ with_mark layout.now.places false number marks.old.answered.items call.now }
{
    match updated_from(stack, layout, number, near, call) {
        Some(place) => {
            mark_both(marks, is_good_update(call), place);
            place.saturating_add(1)
        }
        None => near,
    }
}

/// Marks the paths of these calls, so far as they are updates of the operation that were answered. Calls in the order of work are found
/// at once, any other by halves.
fn add_marks(stack: &StackState, layout: &Layout, number: u64, marks: &mut Marks, calls: &[Call])
    requires { IsLayoutOf stack.now.stack (Some layout.now) }
    ensures updated { marks.new.updated.items ≡ fold (with_mark layout.now.places true number) marks.old.updated.items calls.now }
    ensures answered { marks.new.answered.items ≡ fold (with_mark layout.now.places false number) marks.old.answered.items calls.now }
{
    let mut near = 0;
    for call in calls {
        near = add_mark(stack, layout, number, near, marks, call);
    }
}

/// Which paths an operation updated, by place.
fn marks_of(
    alloc: Global,
    stack: &StackState,
    layout: &Layout,
    number: u64,
    calls: &[Call],
) -> Result<Marks, AllocError>
    requires { IsLayoutOf stack.now.stack (Some layout.now) }
    ensures updated { IfOk result (λ marks. marks.updated.items ≡ marks_of (length layout.now.rows.items) layout.now.places true number calls.now) }
    ensures answered { IfOk result (λ marks. marks.answered.items ≡ marks_of (length layout.now.rows.items) layout.now.places false number calls.now) }
{
    let updated = vec![in alloc; false; layout.rows.len()]?;
    let answered = vec![in alloc; false; layout.rows.len()]?;
    let mut marks = Marks { updated, answered };
    add_marks(stack, layout, number, &mut marks, calls);
    Ok(marks)
}

/// The place that is kept at a place, where one is.
fn place_at(places: &[Option<usize>], place: usize) -> Option<usize>
    ensures { result ≡ at_place places.now place }
{
    match places.get(place) {
        Some(kept) => *kept,
        None => None,
    }
}

/// The resource at a place of a list, where there is one.
fn held_at(helds: &[Held], place: Option<usize>) -> Option<&Held>
    ensures { option_copied result ≡ option_and_then (slice_get helds.now) place }
{
    match place {
        Some(place) => helds.get(place),
        None => None,
    }
}

/// What is kept of the properties at a place, where they are worked out.
fn found_at(found: &[Option<Found>], place: usize) -> Option<&Found>
    ensures { option_copied result ≡ at_place found.now place }
{
    match found.get(place) {
        Some(kept) => kept.as_ref(),
        None => None,
    }
}

/// What properties come to that are kept.
fn finding_from<'a>(kind: &'a Txt, found: &'a Found) -> PathFinding<'a>
    ensures { finding_in result ≡ finding_kept kind.now (Some found.now) }
{
    match (&found.evaluated, &found.known) {
        (Evaluated::Flawed { flaw }, _) => PathFinding::Bad { flaw },
        (Evaluated::Known { props: _ }, Some(props)) => PathFinding::Known { kind, props },
        (Evaluated::Known { props: _ }, None) => PathFinding::Later,
    }
}

/// What the properties at a place come to.
fn finding_at<'a>(kind: &'a Txt, found: Option<&'a Found>) -> PathFinding<'a>
    ensures { finding_in result ≡ finding_kept kind.now (option_copied found.entry) }
{
    match found {
        Some(found) => finding_from(kind, found),
        None => PathFinding::Unread,
    }
}

/// What is read of a row.
fn state_at<'a>(
    findings: &'a Findings,
    updated: &[bool],
    answered: &[bool],
    helds: &'a [Held],
    place: usize,
    row: &'a Placed,
) -> PathState<'a>
    ensures { IsRead findings.now updated.now answered.now helds.now place row.now result }
{
    PathState {
        path: &row.path,
        place,
        needs: row.needs.as_slice(),
        is_made: place_at(findings.made.as_slice(), place).is_some(),
        is_updated: is_done_at(updated, place),
        is_answered: is_done_at(answered, place),
        held: held_at(helds, place_at(findings.held.as_slice(), place)),
        found: finding_at(&row.kind, found_at(findings.found.as_slice(), place)),
    }
}

/// What is read of these rows.
#[tactic(auto, using(crate::proofs::StatesRead::read_more))]
fn read_each<'a>(
    alloc: Global,
    findings: &'a Findings,
    updated: &[bool],
    answered: &[bool],
    helds: &'a [Held],
    rows: &'a [Placed],
) -> Result<Vec<PathState<'a>>, AllocError>
    ensures { IfOk result (λ states. AreRead findings.now updated.now answered.now helds.now 0 rows.now states.items) }
{
    let mut states = Vec::with_capacity(alloc, rows.len())?;
    for (place, row) in rows.iter().enumerate() {
        states.push(state_at(findings, updated, answered, helds, place, row))?;
    }
    Ok(states)
}

/// What is known of each path of the operation of a stack, by what the stack keeps.
#[tactic(auto, using(crate::proofs::StatesRead::read_so))]
pub(crate) fn states_by<'a>(
    alloc: Global,
    stack: &'a StackState,
    layout: &'a Layout,
    findings: &'a Findings,
) -> Result<Vec<PathState<'a>>, AllocError>
    requires layout { IsLayoutOf stack.now.stack (Some layout.now) }
    requires findings { AreFindings stack.now.stack findings.now }
    ensures { IfOk result (λ states. AreStatesOf stack.now.stack states.items) }
{
    let calls = stack.ledger().as_slice();
    let marks = marks_of(alloc, stack, layout, stack.operation(), calls)?;
    read_each(
        alloc,
        findings,
        marks.updated.as_slice(),
        marks.answered.as_slice(),
        stack.held().as_slice(),
        layout.rows.as_slice(),
    )
}
