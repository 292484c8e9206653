//! The end of an operation: its status, and the paths that failed.
ghost use Rattle.std.specs.Prelude.{◌≡◌, ◌==◌, ◌&&◌, false, IfOk, nat_lt, fold, Some};
ghost use Rattle.std.specs.List.{list_any};
ghost use Rattle.cf_effect.specs.Calls.{is_refusal, refusals_of, was_refused};
ghost use Rattle.cf_effect.specs.Operation.{is_doubt};
ghost use Rattle.cf_effect.specs.Words.{deletes};
ghost use Rattle.cf_plan.specs.Follow.{is_cleared, is_bad_outcome, settled_by, AreFailed};
ghost use Rattle.cf_entry.specs.declared.status.Status.TheVariants as status;
ghost use Rattle.cf_change.specs.Changes.{is_empty};
ghost use Rattle.cf_plan.specs.Blaming.{with_outcome, bad_paths, with_refused, blames_of, bad_among};

use crate::calls::{call_of, deletes};
use cf_entry::{Entry, Reply};
use cf_stacks::{Call, HeardEntry, Held, Pending, Settled, StackState};
use cf_tree::{ByName, Code, Names, Request, Txt};
use std::alloc::{AllocError, Global};

/// Whether a call was refused; a deletion that finds nothing was not.
pub fn is_refusal(request: &Request, answer: &Option<Settled>) -> bool
    ensures { result ≡ is_refusal request.now answer.now }
{
    match (request, answer) {
        (
            Request::Delete { physical: _ },
            Some(
                Settled::Failed {
                    code: Code::NotFound,
                },
            ),
        ) => false,
        (_, Some(Settled::Failed { code: _ })) => true,
        _ => false,
    }
}

/// How an answer settles a call.
fn settled_by(answer: &Reply) -> Option<Settled>
    ensures { result ≡ settled_by answer.now }
{
    match answer {
        Reply::Success {
            physical: _,
            attrs: _,
        } => Some(Settled::Success),
        Reply::Failed { code } => Some(Settled::Failed { code: *code }),
        Reply::Doubt => None,
    }
}

/// Whether an answer is a doubt.
fn is_doubt(answer: &Reply) -> bool
    ensures { result ≡ is_doubt answer.now }
{
    match answer {
        Reply::Doubt => true,
        Reply::Success {
            physical: _,
            attrs: _,
        } => false,
        Reply::Failed { code: _ } => false,
    }
}

/// Whether an answer to a call is a doubt or a refusal.
fn is_bad(call: &Call, answer: &Reply) -> bool
    ensures { result ≡ is_bad_outcome (Some call.now) answer.now }
{
    let settled = settled_by(answer);
    is_doubt(answer) || is_refusal(&call.request, &settled)
}

/// Notes what an entry tells of the outcomes at a path. After an error nothing is said of the
/// verdicts.
fn note_entry(
    alloc: Global,
    verdicts: &mut ByName<bool>,
    stack: &StackState,
    entry: &Entry,
) -> Result<(), AllocError>
    ensures { IfOk result (λ _. verdicts.new ≡ with_outcome stack.now.stack verdicts.old entry.now) }
{
    let Entry::Outcome {
        number,
        token,
        answer,
        before: _,
        after: _,
    } = entry
    else {
        return Ok(());
    };
    if stack.operation() != *number {
        return Ok(());
    }
    match call_of(stack, *token) {
        Some(call) => {
            let bad = is_bad(call, answer);
            verdicts.insert(call.path.try_clone(alloc)?, bad)
        }
        None => Ok(()),
    }
}

/// Notes what an entry as the stack keeps it tells of the outcomes at a path. After an error nothing is said of the verdicts.
fn note(
    alloc: Global,
    verdicts: &mut ByName<bool>,
    stack: &StackState,
    heard: &HeardEntry,
) -> Result<(), AllocError>
    ensures { IfOk result (λ _. verdicts.new ≡ with_outcome stack.now.stack verdicts.old heard.now) }
{
    match heard.as_entry() {
        Some(entry) => note_entry(alloc, verdicts, stack, entry),
        None => {
            let entry = heard.entry(alloc)?;
            let noted = note_entry(alloc, verdicts, stack, &entry);
            drop(entry);
            noted
        }
    }
}

/// What these entries tell of the outcomes at each path. After an error nothing is said of the
/// verdicts.
fn note_all(
    alloc: Global,
    verdicts: &mut ByName<bool>,
    stack: &StackState,
    entries: &[HeardEntry],
) -> Result<(), AllocError>
    ensures { IfOk result (λ _. verdicts.new ≡ fold (with_outcome stack.now.stack) verdicts.old entries.now) }
{
    for heard in entries {
        note(alloc, verdicts, stack, heard)?;
    }
    Ok(())
}

/// Of each path, whether the operation's last outcome at it is a doubt or a refusal.
fn verdicts_of(alloc: Global, stack: &StackState) -> Result<ByName<bool>, AllocError>
    ensures { IfOk result (λ v. v ≡ bad_paths stack.now.stack) }
{
    let mut verdicts = ByName::new(alloc);
    note_all(alloc, &mut verdicts, stack, stack.entries().as_slice())?;
    Ok(verdicts)
}

/// Whether one of these calls, of an operation, is a deletion of a resource that was refused.
fn has_refused_deletion(calls: &[Call], number: u64, physical: &Txt) -> bool
    ensures { result ≡ list_any (λ c. c.number == number && (deletes physical.now c.request && was_refused c)) calls.now }
{
    calls.iter().any(|call| {
        call.number == number
            && deletes(physical, &call.request)
            && is_refusal(&call.request, &call.answer)
    })
}

/// Whether one of the operation's deletions of a resource was refused.
fn has_refusal(stack: &StackState, physical: &Txt) -> bool
    ensures { result ≡ nat_lt 0 (refusals_of physical.now stack.now.stack) }
{
    has_refused_deletion(stack.ledger().as_slice(), stack.operation(), physical)
}

/// Blames the paths of the resources whose deletion was refused. After an error nothing is said of
/// the verdicts.
fn blame(
    alloc: Global,
    verdicts: &mut ByName<bool>,
    stack: &StackState,
    helds: &[Held],
) -> Result<(), AllocError>
    ensures { IfOk result (λ _. verdicts.new ≡ fold (with_refused stack.now.stack) verdicts.old helds.now) }
{
    for held in helds {
        if has_refusal(stack, &held.physical) {
            verdicts.insert(held.path.try_clone(alloc)?, true)?;
        }
    }
    Ok(())
}

/// The names under which true stands.
fn bad_among(alloc: Global, verdicts: &ByName<bool>) -> Result<Names, AllocError>
    ensures { IfOk result (λ names. names ≡ bad_among verdicts.now) }
{
    let mut names = Names::new(alloc);
    for verdict in verdicts.as_slice() {
        if verdict.1 {
            names.push(verdict.0.try_clone(alloc)?)?;
        }
    }
    Ok(names)
}

/// Whether a list has no resource.
fn has_none(helds: &[Held]) -> bool
    ensures { result ≡ is_empty helds.now }
{
    helds.first().is_none()
}

/// Whether a stack holds and has made nothing, and no call is open.
#[tactic(auto, using(crate::proofs::Told::empty_joined))]
pub fn is_cleared(stack: &StackState) -> bool
    ensures { result ≡ is_cleared stack.now.stack }
{
    has_none(stack.held().as_slice())
        && has_none(stack.made().as_slice())
        && has_no_token(stack.tokens().as_slice())
}

/// Whether a list has no call.
fn has_no_token(tokens: &[Pending]) -> bool
    ensures { result ≡ is_empty tokens.now }
{
    tokens.first().is_none()
}

/// Of each path, whether it failed.
fn blames_of(alloc: Global, stack: &StackState) -> Result<ByName<bool>, AllocError>
    ensures { IfOk result (λ v. v ≡ blames_of stack.now.stack) }
{
    let mut verdicts = verdicts_of(alloc, stack)?;
    blame(alloc, &mut verdicts, stack, stack.held().as_slice())?;
    blame(alloc, &mut verdicts, stack, stack.made().as_slice())?;
    Ok(verdicts)
}

/// The paths that failed in a stack's operation, in the order of their bytes: those whose last
/// outcome is a doubt or a refusal, and those of a resource whose deletion was refused.
pub fn failed_paths(alloc: Global, stack: &StackState) -> Result<Names, AllocError>
    ensures { IfOk result (λ failed. AreFailed stack.now.stack status.RollbackFailed failed) }
{
    let verdicts = blames_of(alloc, stack)?;
    bad_among(alloc, &verdicts)
}
