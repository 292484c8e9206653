//! The report on a change set. Its last line is that of the exit.
ghost use Rattle.std.specs.Prelude.{◌≡◌, ◌++◌, [], ◌∷◌, IfOk, codes, decimal, map, string_bytes, if◌then◌else◌};
ghost use Rattle.std.specs.List.{flat_map};
ghost use Rattle.cf_face.specs.Line.{line_of, spaced};
ghost use Rattle.cf_face.specs.SetReport.{action_name, attribute_name, change_line, detail_line, detail_name, evaluation_name, outputs_line, recreation_name, replacement_name, replacement_words, row_lines, set_line, set_report};

use crate::exit::Exit;
use crate::line::{push_number, push_word};
use crate::telling::push_unsure;
use cf_tree::{Action, Attribute, Detail, Evaluation, NoMemory, Recreation, Replacement, Row, Txt};
use std::alloc::Global;

/// What is done with a resource, in a word.
fn action_name(action: Action) -> &'static str
    ensures { result.now ≡ action_name action }
{
    match action {
        Action::Add => "Add",
        Action::Modify => "Modify",
        Action::Remove => "Remove",
    }
}

/// Whether a resource is replaced, in a word.
fn replacement_name(replacement: Replacement) -> &'static str
    ensures { result.now ≡ replacement_name replacement }
{
    match replacement {
        Replacement::True => "True",
        Replacement::False => "False",
        Replacement::Conditional => "Conditional",
    }
}

/// What of a resource changes, in a word.
fn attribute_name(attribute: Attribute) -> &'static str
    ensures { result.now ≡ attribute_name attribute }
{
    match attribute {
        Attribute::Properties => "Properties",
        Attribute::DeletionPolicy => "DeletionPolicy",
        Attribute::UpdateReplacePolicy => "UpdateReplacePolicy",
    }
}

/// Whether a change of a property replaces the resource, in a word.
fn recreation_name(recreation: Recreation) -> &'static str
    ensures { result.now ≡ recreation_name recreation }
{
    match recreation {
        Recreation::Never => "Never",
        Recreation::Conditionally => "Conditionally",
        Recreation::Always => "Always",
    }
}

/// Whether a new value is known, in a word.
fn evaluation_name(evaluation: Evaluation) -> &'static str
    ensures { result.now ≡ evaluation_name evaluation }
{
    match evaluation {
        Evaluation::Static => "Static",
        Evaluation::Dynamic => "Dynamic",
    }
}

/// The name of the property that a detail is about, and `-` for a policy.
fn detail_name(detail: &Detail) -> &str
    ensures { result.now ≡ detail_name detail.now.attribute detail.now.name }
{
    match detail.attribute {
        Attribute::Properties => detail.name.as_str(),
        Attribute::DeletionPolicy | Attribute::UpdateReplacePolicy => "-",
    }
}

/// Adds the line `detail ATTRIBUTE NAME RECREATION EVALUATION`.
fn push_detail(report: &mut String, detail: &Detail) -> Result<(), NoMemory>
    ensures { IfOk result (λ _. string_bytes report.new ≡ string_bytes report.old ++ detail_line detail.now) }
{
    report.push_str("detail")?;
    push_word(report, attribute_name(detail.attribute))?;
    push_word(report, detail_name(detail))?;
    push_word(report, recreation_name(detail.recreation))?;
    push_word(report, evaluation_name(detail.evaluation))?;
    report.push('\n')?;
    Ok(())
}

/// Adds the lines of details.
fn push_details(report: &mut String, details: &[Detail]) -> Result<(), NoMemory>
    ensures { IfOk result (λ _. string_bytes report.new ≡ string_bytes report.old ++ flat_map detail_line details.now) }
{
    for detail in details {
        push_detail(report, detail)?;
    }
    Ok(())
}

/// Adds whether a resource is replaced, where it is modified.
#[tactic(auto, using(crate::proofs::Spaced::one_word))]
fn push_replacement(report: &mut String, replacement: Option<Replacement>) -> Result<(), NoMemory>
    ensures { IfOk result (λ _. string_bytes report.new ≡ string_bytes report.old ++ spaced (replacement_words replacement)) }
{
    match replacement {
        Some(replacement) => push_word(report, replacement_name(replacement)),
        None => Ok(()),
    }
}

/// Adds the line `change ACTION PATH TYPE`, with whether the resource is replaced and ` unsure` where it is modified and is.
fn push_change(report: &mut String, row: &Row) -> Result<(), NoMemory>
    ensures { IfOk result (λ _. string_bytes report.new ≡ string_bytes report.old ++ change_line row.now) }
{
    report.push_str("change")?;
    push_word(report, action_name(row.action))?;
    push_word(report, row.path.as_str())?;
    push_word(report, row.kind.as_str())?;
    push_replacement(report, row.replacement)?;
    push_unsure(report, row.unsure)?;
    report.push('\n')?;
    Ok(())
}

/// Adds the lines of a row: its change and its details.
fn push_row(report: &mut String, row: &Row) -> Result<(), NoMemory>
    ensures { IfOk result (λ _. string_bytes report.new ≡ string_bytes report.old ++ row_lines row.now) }
{
    push_change(report, row)?;
    push_details(report, row.details.as_slice())
}

/// Adds the lines of rows.
fn push_rows(report: &mut String, rows: &[Row]) -> Result<(), NoMemory>
    ensures { IfOk result (λ _. string_bytes report.new ≡ string_bytes report.old ++ flat_map row_lines rows.now) }
{
    for row in rows {
        push_row(report, row)?;
    }
    Ok(())
}

/// Adds the line that says whether outputs differ or may.
fn push_outputs(report: &mut String, differ: bool) -> Result<(), NoMemory>
    ensures { IfOk result (λ _. string_bytes report.new ≡ string_bytes report.old ++ outputs_line differ) }
{
    report.push_str("outputs")?;
    push_word(report, if differ { "changed" } else { "same" })?;
    report.push('\n')?;
    Ok(())
}

/// Adds a line of a word, a name and a number.
fn push_numbered(
    alloc: Global,
    report: &mut String,
    word: &str,
    name: &Txt,
    number: u64,
) -> Result<(), NoMemory>
    ensures { IfOk result (λ _. string_bytes report.new
        ≡ string_bytes report.old ++ line_of word.now (name.now ∷ decimal number ∷ [])) }
{
    report.push_str(word)?;
    push_word(report, name.as_str())?;
    push_number(alloc, report, number)?;
    report.push('\n')?;
    Ok(())
}

/// Adds the line `change-set NAME NUMBER`.
fn push_set(alloc: Global, report: &mut String, name: &Txt, number: u64) -> Result<(), NoMemory>
    ensures { IfOk result (λ _. string_bytes report.new ≡ string_bytes report.old ++ set_line name.now number) }
{
    push_numbered(alloc, report, "change-set", name, number)
}

/// The report on the change set of a number of the stack of a name, with these rows and whether outputs differ or may: a line
/// `change ACTION PATH TYPE` for each row, with whether the resource is replaced where it is modified, and behind it a line
/// `detail ATTRIBUTE NAME RECREATION EVALUATION` for each of its details; then `outputs same` or `outputs changed`, and the line of
/// the exit.
///
/// # Errors
///
/// Only for want of memory.
pub fn set_report(
    alloc: Global,
    name: &Txt,
    number: u64,
    rows: &[Row],
    outputs: bool,
    exit: &Exit,
) -> Result<String, NoMemory>
    ensures { IfOk result (λ text. string_bytes text ≡ set_report name.now number rows.now outputs exit.now) }
{
    let mut text = String::new(alloc);
    push_set(alloc, &mut text, name, number)?;
    push_rows(&mut text, rows)?;
    push_outputs(&mut text, outputs)?;
    exit.push_line(alloc, &mut text)?;
    Ok(text)
}
