//! What the calls and the entries of a stack tell of the resources that it held before.
ghost use Rattle.std.specs.Prelude.{◌≡◌, ◌==◌, ◌&&◌, [], ℕ, List, true, fold, not, IfOk};
ghost use Rattle.cf_effect.specs.declared.held.Pending.{Pending as Open};
ghost use Rattle.cf_effect.specs.Calls.{succeeded};
ghost use Rattle.cf_effect.specs.Operation.{named_in, was_skipped};
ghost use Rattle.cf_effect.specs.Status.{goes_back, goes_forward};
ghost use Rattle.cf_plan.specs.Follow.{is_free};
ghost use Rattle.cf_next.specs.Restoring.{AreMarksOf, is_marked, noting_call, mark_if, with_marks, with_update};

use crate::marks::{Marks, mark, mark_all};
use cf_entry::{Begun, Entry, Status};
use cf_stacks::{Call, HeardEntry, Pending, Settled, StackState};
use cf_tree::{Request, Txt};
use std::alloc::{AllocError, Global};

/// What is known of resources, to be looked up by name.
#[derive(Drop)]
pub(crate) struct Past<'a> {
    /// The ids of those that were updated in place since the update began.
    pub(crate) updated: Marks<'a>,
    /// The ids of those that were given back what they had.
    pub(crate) restored: Marks<'a>,
    /// The ids of those of which the operation called to give back what they had.
    pub(crate) tried: Marks<'a>,
    /// The paths that a continued rollback skips.
    pub(crate) skipped: Marks<'a>,
    /// The paths at which a call is open.
    pub(crate) called: Marks<'a>,
}

/// Whether a stack that has this status goes forward.
fn goes_forward(status: Status) -> bool
    ensures { result ≡ goes_forward status }
{
    matches!(status, Status::CreateInProgress | Status::UpdateInProgress)
}

/// Whether a stack that has this status goes back.
pub(crate) fn goes_back(status: Status) -> bool
    ensures { result ≡ goes_back status }
{
    matches!(
        status,
        Status::RollbackInProgress | Status::UpdateRollbackInProgress
    )
}

/// Whether a call succeeded.
fn succeeded(call: &Call) -> bool
    ensures { result ≡ succeeded call.now }
{
    matches!(call.answer, Some(Settled::Success))
}

/// Marks what a call tells of the resource that it updates. After an error nothing is said of the
/// marks.
fn note_update<'a>(
    past: &mut Past<'a>,
    number: u64,
    call: &Call,
    physical: &'a Txt,
) -> Result<(), AllocError>
    ensures { IfOk result (λ _. past.new ≡ with_update number past.old call.now physical.now) }
{
    let updated = goes_forward(call.status) && succeeded(call);
    let restored = goes_back(call.status) && succeeded(call);
    let tried = call.number == number && goes_back(call.status);
    mark(&mut past.updated, updated, physical)?;
    mark(&mut past.restored, restored, physical)?;
    mark(&mut past.tried, tried, physical)
}

/// Marks what a call tells. After an error nothing is said of the marks.
fn note<'a>(past: &mut Past<'a>, number: u64, call: &'a Call) -> Result<(), AllocError>
    ensures { IfOk result (λ _. past.new ≡ noting_call number past.old call.now) }
{
    match &call.request {
        Request::Update { physical, props: _ } => note_update(past, number, call, physical),
        _ => Ok(()),
    }
}

/// Marks what these calls tell. After an error nothing is said of the marks.
fn note_all<'a>(past: &mut Past<'a>, number: u64, calls: &'a [Call]) -> Result<(), AllocError>
    ensures { IfOk result (λ _. past.new ≡ fold (noting_call number) past.old calls.now) }
{
    for call in calls {
        note(past, number, call)?;
    }
    Ok(())
}

/// Marks the paths that an entry names. After an error nothing is said of the marks.
fn mark_named<'a>(marks: &mut Marks<'a>, entry: &'a Entry) -> Result<(), AllocError>
    ensures { IfOk result (λ _. marks.new ≡ with_marks (named_in entry.now) marks.old) }
{
    match entry {
        Entry::Begin {
            number: _,
            stack: _,
            kind: Begun::Delete { paths } | Begun::Continue { paths },
        } => mark_all(marks, paths),
        _ => Ok(()),
    }
}

/// Marks the paths that an entry as the stack keeps it names. After an error nothing is said of the
/// marks.
fn mark_heard<'a>(marks: &mut Marks<'a>, heard: &'a HeardEntry) -> Result<(), AllocError>
    ensures { IfOk result (λ _. marks.new ≡ with_marks (named_in heard.now) marks.old) }
{
    match heard.as_entry() {
        Some(entry) => mark_named(marks, entry),
        None => Ok(()),
    }
}

/// The paths that these entries name.
fn named_by<'a>(alloc: Global, entries: &'a [HeardEntry]) -> Result<Marks<'a>, AllocError>
    ensures { IfOk result (λ marks. marks ≡ fold (λ ms e. with_marks (named_in e) ms) [] entries.now) }
{
    let mut marks = Marks::new(alloc);
    for heard in entries {
        mark_heard(&mut marks, heard)?;
    }
    Ok(marks)
}

/// The paths that a continued rollback skips.
fn skipped_paths<'a>(alloc: Global, stack: &'a StackState) -> Result<Marks<'a>, AllocError>
    ensures { IfOk result (λ marks. (path : List ℕ) → is_marked path marks ≡ was_skipped path stack.now.stack) }
{
    named_by(alloc, stack.entries().as_slice())
}

/// The paths of these open calls.
fn paths_of<'a>(alloc: Global, tokens: &'a [Pending]) -> Result<Marks<'a>, AllocError>
    ensures { IfOk result (λ marks. marks ≡ fold (λ ms (p : Open). mark_if true p.path ms) [] tokens.now) }
{
    let mut marks = Marks::new(alloc);
    for pending in tokens {
        mark(&mut marks, true, &pending.path)?;
    }
    Ok(marks)
}

/// The paths at which a call is open.
fn called_paths<'a>(alloc: Global, stack: &'a StackState) -> Result<Marks<'a>, AllocError>
    ensures { IfOk result (λ marks. (path : List ℕ) → not (is_marked path marks) ≡ is_free path stack.now.stack) }
{
    paths_of(alloc, stack.tokens().as_slice())
}

/// What is known of the resources of a stack.
pub(crate) fn past_of<'a>(alloc: Global, stack: &'a StackState) -> Result<Past<'a>, AllocError>
    ensures { IfOk result (λ past. AreMarksOf stack.now.stack past) }
{
    let skipped = skipped_paths(alloc, stack)?;
    let called = called_paths(alloc, stack)?;
    let mut past = Past {
        updated: Marks::new(alloc),
        restored: Marks::new(alloc),
        tried: Marks::new(alloc),
        skipped,
        called,
    };
    note_all(&mut past, stack.operation(), stack.ledger().as_slice())?;
    Ok(past)
}
