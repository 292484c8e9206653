//! What a command tells of a stack.
ghost use Rattle.std.specs.Prelude.{◌≡◌, ◌≤◌, ◌++◌, ◌&&◌, [], if◌then◌else◌, filter, filter_map, IfOk, None, Some};
ghost use Rattle.std.specs.List.{flat_map, list_any};
ghost use Rattle.std.specs.Option.{option_copied};
ghost use Rattle.cf_tree.specs.Lists.{first_in};
ghost use Rattle.cf_effect.specs.World.{StackState as Stack, stack_at};
ghost use Rattle.cf_effect.specs.Operation.{is_of};
ghost use Rattle.cf_plan.specs.Follow.{failed_in, failed_of};
ghost use Rattle.cf_face.specs.declared.exit.Exit.TheVariants.{RolledBack};
ghost use Rattle.cf_face.specs.Print.{PrintTells};
ghost use Rattle.cf_face.specs.Report.{load_report, stack_report};
ghost use Rattle.cf_top.specs.Telling.{exit_back, exit_for, task_report};
ghost use Rattle.cf_core.specs.Turned.{cause_in, is_continuation};
ghost use Rattle.cf_workers.specs.Turning.{cause_of};

use cf_entry::{Begun, Cause, Entry, Phase, Status};
use cf_face::{Exit, Task, load_report, put, report};
use cf_io::Sink;
use cf_stacks::{HeardEntry, StackState, World};
use cf_tree::{Names, NoMemory, TryClone, Txt};
use std::alloc::{AllocError, Global};

/// Whether an entry is of the operation of this number.
fn is_of(operation: u64, entry: &Entry) -> bool
    ensures { result ≡ is_of operation entry.now }
{
    match entry {
        Entry::Opened { .. } | Entry::ChangeSet { .. } => false,
        Entry::Begin { number, .. }
        | Entry::Kept { number, .. }
        | Entry::Intent { number, .. }
        | Entry::Outcome { number, .. }
        | Entry::Phase { number, .. }
        | Entry::Done { number, .. } => operation == *number,
    }
}

/// The cause for which an entry turns its operation back.
fn cause_in(entry: &Entry) -> Option<&Cause>
    ensures { option_copied result ≡ cause_in entry.now }
{
    match entry {
        Entry::Phase {
            number: _,
            phase: Phase::Back,
            cause,
        } => cause.as_ref(),
        _ => None,
    }
}

/// The same, if the entry is of the operation of this number.
fn own_cause(operation: u64, entry: &Entry) -> Option<&Cause>
    ensures { option_copied result ≡ (if is_of operation entry.now then cause_in entry.now else None) }
{
    if is_of(operation, entry) {
        cause_in(entry)
    } else {
        None
    }
}

/// A copy of a cause, where there is one.
fn copied(alloc: Global, cause: Option<&Cause>) -> Result<Option<Cause>, AllocError>
    ensures { IfOk result (λ c. c ≡ option_copied cause.entry) }
{
    match cause {
        Some(cause) => Ok(Some(cause.try_clone(alloc)?)),
        None => Ok(None),
    }
}

/// The cause of an entry that a stack heard, if it is of the operation of this number.
fn heard_cause(
    alloc: Global,
    operation: u64,
    heard: &HeardEntry,
) -> Result<Option<Cause>, AllocError>
    ensures { IfOk result (λ c. c ≡ (if is_of operation heard.now then cause_in heard.now else None)) }
{
    match heard.as_entry() {
        Some(entry) => copied(alloc, own_cause(operation, entry)),
        None => {
            let entry = heard.entry(alloc)?;
            let cause = copied(alloc, own_cause(operation, &entry));
            drop(entry);
            cause
        }
    }
}

/// Why the operation of this number turned back, where these entries say so.
#[tactic(auto, using(cf_workers::proofs::Told::cause_passed, cf_workers::proofs::Told::cause_found))]
fn first_cause(
    alloc: Global,
    operation: u64,
    entries: &[HeardEntry],
) -> Result<Option<Cause>, AllocError>
    ensures { IfOk result (λ c. c ≡ first_in (filter_map cause_in (filter (is_of operation) entries.now))) }
{
    for heard in entries {
        if let Some(cause) = heard_cause(alloc, operation, heard)? {
            return Ok(Some(cause));
        }
    }
    Ok(None)
}

/// Why the stack's last operation turned back.
fn cause_of(alloc: Global, stack: &StackState) -> Result<Cause, AllocError>
    ensures { IfOk result (λ c. c ≡ cause_of stack.now.stack) }
{
    match first_cause(alloc, stack.operation(), stack.entries().as_slice())? {
        Some(cause) => Ok(cause),
        // Each rollback has a cause.
        None => Ok(Cause::Plan {
            fault: Txt::from_str(alloc, "")?,
        }),
    }
}

/// Adds the paths of an operation's end.
fn add_failed(alloc: Global, names: &mut Names, failed: &Names) -> Result<(), AllocError>
    ensures { IfOk result (λ _. names.new ≡ names.old ++ failed.now) }
{
    for name in failed.as_slice() {
        names.push(name.try_clone(alloc)?)?;
    }
    Ok(())
}

/// Adds the paths that failed as the operation of this number ended, if this entry is its end.
fn add_own_failed(
    alloc: Global,
    names: &mut Names,
    operation: u64,
    entry: &Entry,
) -> Result<(), AllocError>
    ensures { IfOk result (λ _. names.new ≡ names.old ++ (if is_of operation entry.now then failed_in entry.now else [])) }
{
    match entry {
        Entry::Done {
            number,
            status: _,
            failed,
        } if operation == *number => add_failed(alloc, names, failed),
        _ => Ok(()),
    }
}

/// Adds the paths that failed as the operation of this number ended, if this entry, which a stack heard, is its end.
fn add_heard_failed(
    alloc: Global,
    names: &mut Names,
    operation: u64,
    heard: &HeardEntry,
) -> Result<(), AllocError>
    ensures { IfOk result (λ _. names.new ≡ names.old ++ (if is_of operation heard.now then failed_in heard.now else [])) }
{
    match heard.as_entry() {
        Some(entry) => add_own_failed(alloc, names, operation, entry),
        None => {
            let entry = heard.entry(alloc)?;
            let added = add_own_failed(alloc, names, operation, &entry);
            drop(entry);
            added
        }
    }
}

/// The paths that failed as the operation of this number ended, where these entries say so.
#[tactic(auto, using(cf_workers::proofs::Told::failed_next))]
fn failed_in_all(alloc: Global, operation: u64, entries: &[HeardEntry]) -> Result<Names, AllocError>
    ensures { IfOk result (λ names. names ≡ flat_map failed_in (filter (is_of operation) entries.now)) }
{
    let mut names = Names::new(alloc);
    for heard in entries {
        add_heard_failed(alloc, &mut names, operation, heard)?;
    }
    Ok(names)
}

/// The paths that failed when the stack's last operation ended.
fn failed_of(alloc: Global, stack: &StackState) -> Result<Names, AllocError>
    ensures { IfOk result (λ names. names ≡ failed_of stack.now.stack) }
{
    failed_in_all(alloc, stack.operation(), stack.entries().as_slice())
}

/// Whether an entry goes on with a rollback that failed.
fn is_continuation(entry: &Entry) -> bool
    ensures { result ≡ is_continuation entry.now }
{
    matches!(
        entry,
        Entry::Begin {
            kind: Begun::Continue { .. },
            ..
        }
    )
}

/// Whether an entry that a stack heard does so in the operation of this number.
fn is_own_continuation(
    alloc: Global,
    operation: u64,
    heard: &HeardEntry,
) -> Result<bool, AllocError>
    ensures { IfOk result (λ b. b ≡ (is_of operation heard.now && is_continuation heard.now)) }
{
    match heard.as_entry() {
        Some(entry) => Ok(is_of(operation, entry) && is_continuation(entry)),
        None => {
            let entry = heard.entry(alloc)?;
            let own = is_of(operation, &entry) && is_continuation(&entry);
            drop(entry);
            Ok(own)
        }
    }
}

/// Whether the operation of this number goes on with a rollback that failed, as these entries say.
#[tactic(auto, using(cf_workers::proofs::Told::continued_next))]
fn is_continued(alloc: Global, operation: u64, entries: &[HeardEntry]) -> Result<bool, AllocError>
    ensures { IfOk result (λ b. b ≡ list_any is_continuation (filter (is_of operation) entries.now)) }
{
    for heard in entries {
        if is_own_continuation(alloc, operation, heard)? {
            return Ok(true);
        }
    }
    Ok(false)
}

/// Why the stack's last operation was rolled back, as an exit.
fn rolled_back(alloc: Global, stack: &StackState) -> Result<Exit, AllocError>
    ensures { IfOk result (λ e. e ≡ RolledBack (cause_of stack.now.stack)) }
{
    Ok(Exit::RolledBack {
        cause: cause_of(alloc, stack)?,
    })
}

/// How a rollback ended, which may have been continued.
fn restored(alloc: Global, stack: &StackState) -> Result<Exit, AllocError>
    ensures { IfOk result (λ e. e ≡ exit_back stack.now.stack) }
{
    if is_continued(alloc, stack.operation(), stack.entries().as_slice())? {
        Ok(Exit::Done)
    } else {
        rolled_back(alloc, stack)
    }
}

/// How an operation ended, by its stack's status.
fn exit_for(alloc: Global, stack: &StackState) -> Result<Exit, AllocError>
    ensures { IfOk result (λ e. e ≡ exit_for stack.now.stack) }
{
    match stack.status() {
        Status::CreateComplete | Status::UpdateComplete | Status::DeleteComplete => Ok(Exit::Done),
        Status::RollbackComplete | Status::UpdateRollbackComplete => restored(alloc, stack),
        _ => Ok(Exit::Failed {
            blamed: failed_of(alloc, stack)?,
        }),
    }
}

/// Prints the report on a stack with an exit, and answers that.
pub fn tell_stack<K: Sink>(
    alloc: Global,
    out: &mut K,
    name: &Txt,
    stack: &StackState,
    exit: Exit,
) -> Exit
    ensures faults { K.count out.old ≤ K.count out.new }
    ensures tells { PrintTells (K.held out.old) (K.held out.new) (K.count out.old) (K.count out.new)
        (stack_report name.now stack.now.stack exit) exit result }
{
    match report(alloc, name, stack, &exit) {
        Ok(text) => put(out, text.as_str(), exit),
        Err(NoMemory) => {
            drop(exit);
            Exit::NoMemory
        }
    }
}

/// Prints the report on a stack of the load mode with an exit, and answers that.
fn tell_load<K: Sink>(
    alloc: Global,
    out: &mut K,
    count: u32,
    name: &Txt,
    stack: &StackState,
    exit: Exit,
) -> Exit
    ensures faults { K.count out.old ≤ K.count out.new }
    ensures tells { PrintTells (K.held out.old) (K.held out.new) (K.count out.old) (K.count out.new)
        (load_report count name.now stack.now.stack exit) exit result }
{
    match load_report(alloc, count, name, stack, &exit) {
        Ok(text) => put(out, text.as_str(), exit),
        Err(NoMemory) => {
            drop(exit);
            Exit::NoMemory
        }
    }
}

/// Prints the report of a task on the stack that it left with an exit, and answers that.
fn tell_left<K: Sink>(
    alloc: Global,
    out: &mut K,
    name: &Txt,
    task: &Task,
    stack: &StackState,
    exit: Exit,
) -> Exit
    ensures faults { K.count out.old ≤ K.count out.new }
    ensures tells { PrintTells (K.held out.old) (K.held out.new) (K.count out.old) (K.count out.new)
        (task_report task.now name.now stack.now.stack exit) exit result }
{
    match task {
        Task::Load(count) => tell_load(alloc, out, *count, name, stack, exit),
        Task::Deploy(_) | Task::Continue(_) | Task::Resume | Task::Execute(_) => {
            tell_stack(alloc, out, name, stack, exit)
        }
    }
}

/// Prints the report of a task on the stack whose operation has ended, and answers how it ended.
fn tell_ended<K: Sink>(
    alloc: Global,
    out: &mut K,
    name: &Txt,
    task: &Task,
    stack: &StackState,
) -> Exit
    ensures faults { K.count out.old ≤ K.count out.new }
    ensures tells { PrintTells (K.held out.old) (K.held out.new) (K.count out.old) (K.count out.new)
        (task_report task.now name.now stack.now.stack (exit_for stack.now.stack)) (exit_for stack.now.stack) result }
{
    match exit_for(alloc, stack) {
        Ok(exit) => tell_left(alloc, out, name, task, stack, exit),
        Err(_) => Exit::NoMemory,
    }
}

/// Prints the report of a task on the stack of a name whose operation has ended, and answers how it ended.
pub fn tell_over<K: Sink>(
    alloc: Global,
    out: &mut K,
    name: &Txt,
    task: &Task,
    world: &World,
) -> Exit
    requires { (st : Stack) × (stack_at name.now world.now.world ≡ Some st) }
    ensures faults { K.count out.old ≤ K.count out.new }
    ensures tells { (st : Stack) × (stack_at name.now world.now.world ≡ Some st)
        × PrintTells (K.held out.old) (K.held out.new) (K.count out.old) (K.count out.new) (task_report task.now name.now st (exit_for st)) (exit_for st) result }
{
    match world.stack(name.as_str()) {
        Some(stack) => tell_ended(alloc, out, name, task, stack),
        None => unreachable!(),
    }
}
