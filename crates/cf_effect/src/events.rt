//! The lines that tell what happened to a stack.
ghost use Rattle.std.specs.Prelude.{◌≡◌, ◌∷◌, ◌++◌, [], IfOk, List, codes, option_copied, ℕ, if◌then◌else◌, false};
ghost use Rattle.cf_effect.specs.Event.{action_name, event_line, kept_name, line_in, lines_of, reply_line};
ghost use Rattle.cf_effect.specs.Fold.{is_intent, is_opening};
ghost use Rattle.cf_effect.specs.State.{state_of};
ghost use Rattle.cf_effect.specs.Status.{is_deleted};

use crate::held::Pending;
use crate::lines::{answer_line, growing_line};
use crate::state::State;
use crate::statuses::{begun, is_deleted, turned};
use crate::tokens::pending_with;
use cf_entry::{Entry, Reply, Status, Why};
use cf_tree::{Request, Txt};
use std::alloc::{AllocError, Global};

/// What a request does to a resource.
pub(crate) fn action_name(request: &Request) -> &'static str
    ensures { result.now ≡ action_name request.now }
{
    match request {
        Request::Create { .. } => "CREATE",
        Request::Update { .. } => "UPDATE",
        Request::Delete { .. } => "DELETE",
    }
}

/// The line for the entry at a place: of which resource, or `-`, and what happened.
fn event_line(alloc: Global, place: u64, subject: &str, what: &str) -> Result<Txt, AllocError>
    ensures { IfOk result (λ line. line ≡ event_line place subject.now what.now) }
{
    match format!(in alloc; "event {place} {subject} {what}") {
        Ok(line) => Ok(Txt::new(line)),
        Err(failed) => Err(failed),
    }
}

/// What became of a resource that a stack no longer holds.
fn kept_name(why: Why) -> &'static str
    ensures { result.now ≡ kept_name why }
{
    match why {
        Why::Retained => "DELETE_SKIPPED",
        _ => "DELETE_FAILED",
    }
}

/// A line that is there.
fn shown(line: Result<Txt, AllocError>) -> Result<Option<Txt>, AllocError>
    ensures { (l : List ℕ) → IfOk line (λ there. there ≡ l) → IfOk result (λ shown. line_in shown ≡ l ∷ []) }
{
    match line {
        Ok(line) => Ok(Some(line)),
        Err(failed) => Err(failed),
    }
}

/// The line for an answer, where the token that it closes was open.
fn reply_line(
    alloc: Global,
    place: u64,
    answer: &Reply,
    pending: Option<&Pending>,
) -> Result<Option<Txt>, AllocError>
    ensures { IfOk result (λ line. line_in line ≡ reply_line place answer.now (option_copied pending.entry)) }
{
    match pending {
        Some(pending) => match growing_line(alloc, &pending.path) {
            Ok(line) => {
                let (path, request) = (pending.path.as_str(), &pending.request);
                Ok(Some(answer_line(line, place, path, request, answer)))
            }
            Err(failed) => Err(failed),
        },
        None => Ok(None),
    }
}

/// What a request does to a resource, and how that goes.
fn going_on(alloc: Global, request: &Request, how: &str) -> Result<Txt, AllocError>
    ensures { IfOk result (λ name. name ≡ action_name request.now ++ how.now) }
{
    let action = action_name(request);
    match format!(in alloc; "{action}{how}") {
        Ok(name) => Ok(Txt::new(name)),
        Err(failed) => Err(failed),
    }
}

/// The line that `events` prints of a request that is made, in the entry at a place.
///
/// # Errors
///
/// Only for want of memory.
pub fn intent_line(
    alloc: Global,
    place: u64,
    path: &Txt,
    request: &Request,
) -> Result<Txt, AllocError>
    ensures { IfOk result (λ line. line ≡ event_line place path.now (action_name request.now ++ codes "_IN_PROGRESS")) }
{
    let what = going_on(alloc, request, "_IN_PROGRESS")?;
    event_line(alloc, place, path.as_str(), what.as_str())
}

/// The line for a change set, where it makes its stack.
fn reviewed_line(alloc: Global, place: u64, status: Status) -> Result<Option<Txt>, AllocError>
    ensures { IfOk result (λ line. line_in line
        ≡ (if is_deleted status then event_line place (codes "-") (codes "REVIEW_IN_PROGRESS") ∷ [] else [])) }
{
    if is_deleted(status) {
        shown(event_line(alloc, place, "-", "REVIEW_IN_PROGRESS"))
    } else {
        Ok(None)
    }
}

/// The line for the entry at a place, which is neither an opening nor an intent, over the stack as it was
/// before it; None where the entry has none.
pub(crate) fn line_of(
    alloc: Global,
    place: u64,
    entry: &Entry,
    stack: &State,
) -> Result<Option<Txt>, AllocError>
    requires opening { is_opening entry.now ≡ false }
    requires intent { is_intent entry.now ≡ false }
    ensures { IfOk result (λ line. line_in line ≡ lines_of place entry.now (state_of stack.now)) }
{
    match entry {
        Entry::Begin { kind, .. } => shown(event_line(alloc, place, "-", begun(kind).name())),
        Entry::Kept { path, why, .. } => shown(event_line(
            alloc,
            place,
            path.as_str(),
            kept_name(*why),
        )),
        Entry::Outcome { token, answer, .. } => reply_line(
            alloc,
            place,
            answer,
            pending_with(stack.tokens.as_slice(), *token),
        ),
        Entry::Phase { phase, .. } => shown(event_line(
            alloc,
            place,
            "-",
            turned(stack.status, *phase).name(),
        )),
        Entry::Done { status, .. } => shown(event_line(alloc, place, "-", status.name())),
        Entry::ChangeSet { .. } => reviewed_line(alloc, place, stack.status),
        Entry::Opened { .. } | Entry::Intent { .. } => unreachable!(),
    }
}
