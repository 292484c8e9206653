//! The report on a stack. Its last line is that of the exit.
ghost use Rattle.std.specs.Prelude.{◌≡◌, ◌++◌, IfOk, map, string_bytes};
ghost use Rattle.std.specs.List.{flat_map};
ghost use Rattle.std.specs.Option.{option_copied};
ghost use Rattle.cf_face.specs.Line.{spaced};
ghost use Rattle.cf_face.specs.Report.{export_words, failed_in, failed_line, held_line, held_status_name, held_in_order, last_failed, leftover_line, output_line, stack_line, stack_report, unsure_words, leftover_why};

use crate::exit::Exit;
use crate::line::{push_named, push_number, push_text, push_word};
use crate::parameters::{push_parameters, told_source};
use crate::rows::in_order;
use cf_entry::{Entry, Status, Why};
use cf_stacks::{HeardEntry, Held, HeldStatus, Leftover, Output, StackState};
use cf_tree::{Names, NoMemory, Txt};
use std::alloc::Global;

/// Adds the line `stack NAME STATUS NUMBER`, with the number of the operation that created the stack.
pub fn push_stack(
    alloc: Global,
    report: &mut String,
    name: &Txt,
    status: &str,
    number: u64,
) -> Result<(), NoMemory>
    ensures { IfOk result (λ _. string_bytes report.new
        ≡ string_bytes report.old ++ stack_line name.now status.now number) }
{
    report.push_str("stack")?;
    push_word(report, name.as_str())?;
    push_word(report, status)?;
    push_number(alloc, report, number)?;
    report.push('\n')?;
    Ok(())
}

/// The name of a resource's status.
fn held_status_name(status: HeldStatus) -> &'static str
    ensures { result.now ≡ held_status_name status }
{
    match status {
        HeldStatus::CreateComplete => "CREATE_COMPLETE",
        HeldStatus::UpdateComplete => "UPDATE_COMPLETE",
        HeldStatus::UpdateFailed => "UPDATE_FAILED",
        HeldStatus::DeleteFailed => "DELETE_FAILED",
    }
}

/// Adds that a resource's live properties are not known, where they are not.
pub fn push_unsure(report: &mut String, unsure: bool) -> Result<(), NoMemory>
    ensures { IfOk result (λ _. string_bytes report.new ≡ string_bytes report.old ++ spaced (unsure_words unsure)) }
{
    if unsure {
        push_word(report, "unsure")
    } else {
        Ok(())
    }
}

/// Adds the line `resource PATH TYPE PHYSICAL STATUS`, with ` unsure` where the resource is.
fn push_held(report: &mut String, held: &Held) -> Result<(), NoMemory>
    ensures { IfOk result (λ _. string_bytes report.new ≡ string_bytes report.old ++ held_line held.now) }
{
    report.push_str("resource")?;
    push_word(report, held.path.as_str())?;
    push_word(report, held.kind.as_str())?;
    push_word(report, held.physical.as_str())?;
    push_word(report, held_status_name(held.status))?;
    push_unsure(report, held.unsure)?;
    report.push('\n')?;
    Ok(())
}

/// Adds the lines of resources.
fn push_rows(report: &mut String, rows: &[&Held]) -> Result<(), NoMemory>
    ensures { IfOk result (λ _. string_bytes report.new ≡ string_bytes report.old ++ flat_map held_line (map (λ r. r.now) rows.now)) }
{
    for row in rows {
        push_held(report, row)?;
    }
    Ok(())
}

/// Adds a line for each resource that is held, by path and then by physical id.
fn push_helds(alloc: Global, report: &mut String, held: &[Held]) -> Result<(), NoMemory>
    ensures { IfOk result (λ _. string_bytes report.new ≡ string_bytes report.old ++ flat_map held_line (held_in_order held.now)) }
{
    let rows = in_order(alloc, held)?;
    push_rows(report, rows.as_slice())
}

/// Adds the name of an export, where there is one.
fn push_export(alloc: Global, report: &mut String, export: Option<&Txt>) -> Result<(), NoMemory>
    ensures { IfOk result (λ _. string_bytes report.new ≡ string_bytes report.old ++ spaced (export_words (option_copied export.entry))) }
{
    match export {
        Some(name) => push_named(alloc, report, "export", name),
        None => Ok(()),
    }
}

/// Adds the line `output NAME VALUE`, with ` export NAME` where the output is exported.
fn push_output(alloc: Global, report: &mut String, output: &Output) -> Result<(), NoMemory>
    ensures { IfOk result (λ _. string_bytes report.new ≡ string_bytes report.old ++ output_line output.now) }
{
    report.push_str("output")?;
    push_word(report, output.name.as_str())?;
    push_text(alloc, report, &output.value)?;
    push_export(alloc, report, output.export.as_ref())?;
    report.push('\n')?;
    Ok(())
}

/// Adds the lines of outputs.
fn push_outputs(alloc: Global, report: &mut String, outputs: &[Output]) -> Result<(), NoMemory>
    ensures { IfOk result (λ _. string_bytes report.new ≡ string_bytes report.old ++ flat_map output_line outputs.now) }
{
    for output in outputs {
        push_output(alloc, report, output)?;
    }
    Ok(())
}

/// Why a resource is left over, in a word.
fn why_name(why: Why) -> &'static str
    ensures { result.now ≡ leftover_why why }
{
    match why {
        Why::Retained => "retained",
        Why::Failed => "failed",
        Why::Doubt => "doubt",
    }
}

/// Adds the line `leftover PATH PHYSICAL WHY`.
fn push_leftover(report: &mut String, leftover: &Leftover) -> Result<(), NoMemory>
    ensures { IfOk result (λ _. string_bytes report.new ≡ string_bytes report.old ++ leftover_line leftover.now) }
{
    report.push_str("leftover")?;
    push_word(report, leftover.path.as_str())?;
    push_word(report, leftover.physical.as_str())?;
    push_word(report, why_name(leftover.why))?;
    report.push('\n')?;
    Ok(())
}

/// Adds the lines of leftovers.
fn push_leftovers(report: &mut String, leftovers: &[Leftover]) -> Result<(), NoMemory>
    ensures { IfOk result (λ _. string_bytes report.new ≡ string_bytes report.old ++ flat_map leftover_line leftovers.now) }
{
    for leftover in leftovers {
        push_leftover(report, leftover)?;
    }
    Ok(())
}

/// Adds the line `failed PATH`.
fn push_path(report: &mut String, path: &Txt) -> Result<(), NoMemory>
    ensures { IfOk result (λ _. string_bytes report.new ≡ string_bytes report.old ++ failed_line path.now) }
{
    report.push_str("failed")?;
    push_word(report, path.as_str())?;
    report.push('\n')?;
    Ok(())
}

/// Adds the lines of paths that failed.
fn push_paths(report: &mut String, paths: &[Txt]) -> Result<(), NoMemory>
    ensures { IfOk result (λ _. string_bytes report.new ≡ string_bytes report.old ++ flat_map failed_line paths.now) }
{
    for path in paths {
        push_path(report, path)?;
    }
    Ok(())
}

/// The paths that failed in an operation, where the entry is its end.
fn failed_in(alloc: Global, entry: &Entry) -> Result<Option<Names>, NoMemory>
    ensures { IfOk result (λ paths. paths ≡ failed_in entry.now) }
{
    match entry {
        Entry::Done { failed, .. } => Ok(Some(failed.try_clone(alloc)?)),
        _ => Ok(None),
    }
}

/// The same of an entry that a stack heard.
fn failed_of(alloc: Global, heard: &HeardEntry) -> Result<Option<Names>, NoMemory>
    ensures { IfOk result (λ paths. paths ≡ failed_in heard.now) }
{
    match heard.as_entry() {
        Some(entry) => failed_in(alloc, entry),
        None => {
            let entry = heard.entry(alloc)?;
            let failed = failed_in(alloc, &entry);
            drop(entry);
            failed
        }
    }
}

/// The paths that failed in the last operation of these entries that ended.
fn last_failed(alloc: Global, entries: &[HeardEntry]) -> Result<Names, NoMemory>
    ensures { IfOk result (λ paths. paths ≡ last_failed entries.now) }
{
    for at in (0..entries.len()).rev() {
        if let Some(failed) = failed_of(alloc, &entries[at])? {
            return Ok(failed);
        }
    }
    Ok(Names::new(alloc))
}

/// Adds a line for each path that failed in the last operation that ended.
fn push_failed(alloc: Global, report: &mut String, entries: &[HeardEntry]) -> Result<(), NoMemory>
    ensures { IfOk result (λ _. string_bytes report.new ≡ string_bytes report.old ++ flat_map failed_line (last_failed entries.now)) }
{
    let failed = last_failed(alloc, entries)?;
    push_paths(report, failed.as_slice())
}

/// The report on a stack: the line of the stack, one line for each parameter of what it was made from, each resource that it
/// holds (by path and then by physical id), each output, each leftover and each path that failed in its last operation that
/// ended, and the line of the exit.
///
/// # Errors
///
/// Only for want of memory.
pub fn report(
    alloc: Global,
    name: &Txt,
    stack: &StackState,
    exit: &Exit,
) -> Result<String, NoMemory>
    ensures { IfOk result (λ text. string_bytes text ≡ stack_report name.now stack.now.stack exit.now) }
{
    let mut text = String::new(alloc);
    push_stack(
        alloc,
        &mut text,
        name,
        stack.status().name(),
        stack.number(),
    )?;
    push_parameters(alloc, &mut text, told_source(stack))?;
    push_helds(alloc, &mut text, stack.held().as_slice())?;
    push_outputs(alloc, &mut text, stack.outputs().as_slice())?;
    push_leftovers(&mut text, stack.leftovers().as_slice())?;
    push_failed(alloc, &mut text, stack.entries().as_slice())?;
    exit.push_line(alloc, &mut text)?;
    Ok(text)
}
