//! Copies of entries.
ghost use Rattle.std.specs.Prelude.{◌≡◌, IfOk};
ghost use Rattle.cf_entry.specs.declared.entry.Entry.TheVariants as entry;

use crate::entry::{Begun, Entry, Reply};
use crate::status::Status;
use crate::turn::{Cause, Phase, Why};
use cf_tree::{Names, Request, Rows, Source, TryClone, Txt};
use std::alloc::{AllocError, Global};

impl TryClone for Begun {
    fn try_clone(&self, alloc: Global) -> Result<Begun, AllocError> {
        match self {
            Begun::Create { source } => {
                let source = source.try_clone(alloc)?;
                Ok(Begun::Create { source })
            }
            Begun::Update { source } => {
                let source = source.try_clone(alloc)?;
                Ok(Begun::Update { source })
            }
            Begun::Delete { paths } => {
                let paths = paths.try_clone(alloc)?;
                Ok(Begun::Delete { paths })
            }
            Begun::Continue { paths } => {
                let paths = paths.try_clone(alloc)?;
                Ok(Begun::Continue { paths })
            }
        }
    }
}

impl TryClone for Reply {
    fn try_clone(&self, alloc: Global) -> Result<Reply, AllocError> {
        match self {
            Reply::Success { physical, attrs } => {
                let physical = physical.try_clone(alloc)?;
                let attrs = attrs.try_clone(alloc)?;
                Ok(Reply::Success { physical, attrs })
            }
            Reply::Failed { code } => Ok(Reply::Failed { code: *code }),
            Reply::Doubt => Ok(Reply::Doubt),
        }
    }
}

impl TryClone for Cause {
    fn try_clone(&self, alloc: Global) -> Result<Cause, AllocError> {
        match self {
            Cause::Handler { path, reason } => {
                let path = path.try_clone(alloc)?;
                Ok(Cause::Handler {
                    path,
                    reason: *reason,
                })
            }
            Cause::Plan { fault } => {
                let fault = fault.try_clone(alloc)?;
                Ok(Cause::Plan { fault })
            }
            Cause::Export { name } => {
                let name = name.try_clone(alloc)?;
                Ok(Cause::Export { name })
            }
        }
    }
}

/// The beginning of an operation, with copies of these.
fn begin(alloc: Global, number: u64, stack: &Txt, kind: &Begun) -> Result<Entry, AllocError>
    ensures { IfOk result (λ e. e ≡ entry.Begin number stack.now kind.now) }
{
    let stack = stack.try_clone(alloc)?;
    let kind = kind.try_clone(alloc)?;
    Ok(Entry::Begin {
        number,
        stack,
        kind,
    })
}

/// A resource that is kept, with copies of these.
fn kept(
    alloc: Global,
    number: u64,
    path: &Txt,
    physical: &Txt,
    why: Why,
) -> Result<Entry, AllocError>
    ensures { IfOk result (λ e. e ≡ entry.Kept number path.now physical.now why) }
{
    let path = path.try_clone(alloc)?;
    let physical = physical.try_clone(alloc)?;
    Ok(Entry::Kept {
        number,
        path,
        physical,
        why,
    })
}

/// The intent of a call, with copies of these.
fn intent(
    alloc: Global,
    number: u64,
    token: u64,
    lane: &Txt,
    path: &Txt,
    request: &Request,
) -> Result<Entry, AllocError>
    ensures { IfOk result (λ e. e ≡ entry.Intent number token lane.now path.now request.now) }
{
    let lane = lane.try_clone(alloc)?;
    let path = path.try_clone(alloc)?;
    let request = request.try_clone(alloc)?;
    Ok(Entry::Intent {
        number,
        token,
        lane,
        path,
        request,
    })
}

/// The outcome of a call, with a copy of its answer.
fn outcome(
    alloc: Global,
    number: u64,
    token: u64,
    answer: &Reply,
    before: u64,
    after: u64,
) -> Result<Entry, AllocError>
    ensures { IfOk result (λ e. e ≡ entry.Outcome number token answer.now before after) }
{
    let answer = answer.try_clone(alloc)?;
    Ok(Entry::Outcome {
        number,
        token,
        answer,
        before,
        after,
    })
}

/// The turn into a phase, with a copy of its cause.
fn turn(
    alloc: Global,
    number: u64,
    phase: Phase,
    cause: &Option<Cause>,
) -> Result<Entry, AllocError>
    ensures { IfOk result (λ e. e ≡ entry.Phase number phase cause.now) }
{
    let cause = cause.try_clone(alloc)?;
    Ok(Entry::Phase {
        number,
        phase,
        cause,
    })
}

/// The end of an operation, with copies of its failed paths.
fn done(alloc: Global, number: u64, status: Status, failed: &Names) -> Result<Entry, AllocError>
    ensures { IfOk result (λ e. e ≡ entry.Done number status failed.now) }
{
    let failed = failed.try_clone(alloc)?;
    Ok(Entry::Done {
        number,
        status,
        failed,
    })
}

/// A change set, with copies of these.
fn change_set(
    alloc: Global,
    number: u64,
    stack: &Txt,
    source: &Source,
    rows: &Rows,
    outputs: bool,
) -> Result<Entry, AllocError>
    ensures { IfOk result (λ e. e ≡ entry.ChangeSet number stack.now source.now rows.now outputs) }
{
    let stack = stack.try_clone(alloc)?;
    let source = source.try_clone(alloc)?;
    let rows = rows.try_clone(alloc)?;
    Ok(Entry::ChangeSet {
        number,
        stack,
        source,
        rows,
        outputs,
    })
}

impl TryClone for Entry {
    fn try_clone(&self, alloc: Global) -> Result<Entry, AllocError> {
        match self {
            Entry::Opened { epoch, lanes } => Ok(Entry::Opened {
                epoch: *epoch,
                lanes: lanes.try_clone(alloc)?,
            }),
            Entry::Begin {
                number,
                stack,
                kind,
            } => begin(alloc, *number, stack, kind),
            Entry::Kept {
                number,
                path,
                physical,
                why,
            } => kept(alloc, *number, path, physical, *why),
            Entry::Intent {
                number,
                token,
                lane,
                path,
                request,
            } => intent(alloc, *number, *token, lane, path, request),
            Entry::Outcome {
                number,
                token,
                answer,
                before,
                after,
            } => outcome(alloc, *number, *token, answer, *before, *after),
            Entry::Phase {
                number,
                phase,
                cause,
            } => turn(alloc, *number, *phase, cause),
            Entry::Done {
                number,
                status,
                failed,
            } => done(alloc, *number, *status, failed),
            Entry::ChangeSet {
                number,
                stack,
                source,
                rows,
                outputs,
            } => change_set(alloc, *number, stack, source, rows, *outputs),
        }
    }
}
