//! The reports on what became of a stack, and on all stacks. The last line of each is that of the exit.
ghost use Rattle.std.specs.Prelude.{◌≡◌, ◌++◌, IfOk, map, string_bytes};
ghost use Rattle.std.specs.List.{flat_map};
ghost use Rattle.cf_effect.specs.Status.{is_deleted};
ghost use Rattle.cf_stacks.specs.Standing.{stack_in};
ghost use Rattle.cf_face.specs.Report.{event_line, events_report, list_report, listed_line};

use crate::exit::Exit;
use crate::telling::push_stack;
use cf_entry::Status;
use cf_stacks::{StackState, Stacks};
use cf_tree::{NoMemory, Txt};
use std::alloc::Global;

/// Adds a line.
fn push_event(report: &mut String, line: &Txt) -> Result<(), NoMemory>
    ensures { IfOk result (λ _. string_bytes report.new ≡ string_bytes report.old ++ event_line line.now) }
{
    report.push_str(line.as_str())?;
    report.push('\n')?;
    Ok(())
}

/// Adds lines.
fn push_events(report: &mut String, lines: &[Txt]) -> Result<(), NoMemory>
    ensures { IfOk result (λ _. string_bytes report.new ≡ string_bytes report.old ++ flat_map event_line lines.now) }
{
    for line in lines {
        push_event(report, line)?;
    }
    Ok(())
}

/// The report on what became of a stack: a line `event PLACE SUBJECT WHAT` for each entry of the journal that concerns it, the
/// earliest first, and the line of the exit.
///
/// # Errors
///
/// Only for want of memory.
pub fn events_report(alloc: Global, stack: &StackState, exit: &Exit) -> Result<String, NoMemory>
    ensures { IfOk result (λ text. string_bytes text ≡ events_report stack.now.stack exit.now) }
{
    let mut text = String::new(alloc);
    push_events(&mut text, stack.events().as_slice())?;
    exit.push_line(alloc, &mut text)?;
    Ok(text)
}

/// Whether a stack in this status is deleted.
fn is_deleted(status: Status) -> bool
    ensures { result ≡ is_deleted status }
{
    matches!(status, Status::DeleteComplete)
}

/// Adds the line of a stack, unless it is deleted.
fn push_listed(
    alloc: Global,
    report: &mut String,
    name: &Txt,
    stack: &StackState,
) -> Result<(), NoMemory>
    ensures { IfOk result (λ _. string_bytes report.new ≡ string_bytes report.old ++ listed_line (name.now, stack.now.stack)) }
{
    if is_deleted(stack.status()) {
        Ok(())
    } else {
        push_stack(alloc, report, name, stack.status().name(), stack.number())
    }
}

/// Adds the line of each stack that is not deleted.
fn push_stacks(
    alloc: Global,
    report: &mut String,
    stacks: &[(Txt, StackState)],
) -> Result<(), NoMemory>
    ensures { IfOk result (λ _. string_bytes report.new ≡ string_bytes report.old ++ flat_map listed_line (map stack_in stacks.now)) }
{
    for stack in stacks {
        push_listed(alloc, report, &stack.0, &stack.1)?;
    }
    Ok(())
}

/// The report on all stacks: a line `stack NAME STATUS NUMBER` for each that is not deleted, by name, with the number of the
/// operation that created it, and the line of the exit.
///
/// # Errors
///
/// Only for want of memory.
pub fn list_report(alloc: Global, stacks: &Stacks, exit: &Exit) -> Result<String, NoMemory>
    ensures { IfOk result (λ text. string_bytes text ≡ list_report (map stack_in stacks.now) exit.now) }
{
    let mut text = String::new(alloc);
    push_stacks(alloc, &mut text, stacks.as_slice())?;
    exit.push_line(alloc, &mut text)?;
    Ok(text)
}
