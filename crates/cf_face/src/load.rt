//! The report on a stack of the load mode.
ghost use Rattle.std.specs.Prelude.{◌≡◌, ◌++◌, [], ◌∷◌, IfOk, codes, decimal, string_bytes};
ghost use Rattle.std.specs.List.{flat_map};
ghost use Rattle.cf_face.specs.Line.{line_of};
ghost use Rattle.cf_face.specs.Report.{last_line, load_report};

use crate::exit::Exit;
use crate::line::{push_number, push_text, push_word};
use cf_stacks::{Output, StackState};
use cf_tree::{NoMemory, Txt};
use std::alloc::Global;

/// Adds a line of a word and a number.
fn push_count(alloc: Global, report: &mut String, word: &str, number: u64) -> Result<(), NoMemory>
    ensures { IfOk result (λ _. string_bytes report.new ≡ string_bytes report.old ++ line_of word.now (decimal number ∷ [])) }
{
    report.push_str(word)?;
    push_number(alloc, report, number)?;
    report.push('\n')?;
    Ok(())
}

/// Adds the line `stack NAME STATUS`.
fn push_status(report: &mut String, name: &Txt, status: &str) -> Result<(), NoMemory>
    ensures { IfOk result (λ _. string_bytes report.new ≡ string_bytes report.old ++ line_of (codes "stack") (name.now ∷ status.now ∷ [])) }
{
    report.push_str("stack")?;
    push_word(report, name.as_str())?;
    push_word(report, status)?;
    report.push('\n')?;
    Ok(())
}

/// Adds the line `last VALUE` of an output, if it is `Last`.
fn push_last(alloc: Global, report: &mut String, output: &Output) -> Result<(), NoMemory>
    ensures { IfOk result (λ _. string_bytes report.new ≡ string_bytes report.old ++ last_line output.now) }
{
    if output.name.is("Last") {
        report.push_str("last")?;
        push_text(alloc, report, &output.value)?;
        report.push('\n')?;
    }
    Ok(())
}

/// Adds the line of the output `Last`, where it is among these.
fn push_lasts(alloc: Global, report: &mut String, outputs: &[Output]) -> Result<(), NoMemory>
    ensures { IfOk result (λ _. string_bytes report.new ≡ string_bytes report.old ++ flat_map last_line outputs.now) }
{
    for output in outputs {
        push_last(alloc, report, output)?;
    }
    Ok(())
}

/// The report on a stack of the load mode with so many records: the lines `load COUNT`, `stack NAME STATUS`, `resources COUNT` with
/// the number of the resources that it holds, `last VALUE` with its output `Last`, where it is there, and the line of the exit.
///
/// # Errors
///
/// Only for want of memory.
pub fn load_report(
    alloc: Global,
    count: u32,
    name: &Txt,
    stack: &StackState,
    exit: &Exit,
) -> Result<String, NoMemory>
    ensures { IfOk result (λ text. string_bytes text ≡ load_report count name.now stack.now.stack exit.now) }
{
    let mut text = String::new(alloc);
    let held = stack.held().as_slice().len();
    push_count(alloc, &mut text, "load", u64::from(count))?;
    push_status(&mut text, name, stack.status().name())?;
    push_count(alloc, &mut text, "resources", held as u64)?;
    push_lasts(alloc, &mut text, stack.outputs().as_slice())?;
    exit.push_line(alloc, &mut text)?;
    Ok(text)
}
