//! The lines of a report that tell a stack's parameters.
ghost use Rattle.std.specs.Prelude.{◌≡◌, ◌++◌, [], ◌∷◌, IfOk, codes, string_bytes};
ghost use Rattle.std.specs.List.{flat_map};
ghost use Rattle.std.specs.Option.{option_copied};
ghost use Rattle.cf_funcs.specs.Pieces.{members_of};
ghost use Rattle.cf_desired.specs.Templates.{template_named};
ghost use Rattle.cf_face.specs.Line.{line_of, texts_word};
ghost use Rattle.cf_face.specs.Report.{text_for, value_word, told_word, told_source, parameter_line, parameter_lines, tells_parameters};

use crate::line::{push_text, push_texts, push_word};
use cf_entry::Status;
use cf_funcs::comma_list;
use cf_stacks::StackState;
use cf_template::{TemplateFault, read_template};
use cf_tree::{Kind, NoMemory, Pairs, Param, Source, Template, Txt};
use std::alloc::Global;

/// What is told of a parameter that may not be echoed.
const HIDDEN: &str = "\"****\"";

/// Whether the parameters of a stack in this status are told: not once all was taken back or deleted.
fn tells_parameters(status: Status) -> bool
    ensures { result ≡ tells_parameters status }
{
    !matches!(status, Status::RollbackComplete | Status::DeleteComplete)
}

/// The source whose parameters are told: the one that was completed last, where it is this stack's
/// and not that of one that had the name before; none once all was taken back or deleted.
pub fn told_source(stack: &StackState) -> Option<&Source>
    ensures { option_copied result ≡ told_source stack.now.stack }
{
    match stack.source() {
        Some(source) if source.number == stack.number() && tells_parameters(stack.status()) => {
            Some(source)
        }
        _ => None,
    }
}

/// Adds a line `parameter NAME VALUE` for each parameter of what a stack was made from: the value is compact JSON, and
/// four stars for one that may not be echoed. A source whose template can't be read has none.
pub fn push_parameters(
    alloc: Global,
    report: &mut String,
    source: Option<&Source>,
) -> Result<(), NoMemory>
    ensures { IfOk result (λ _. string_bytes report.new ≡ string_bytes report.old ++ parameter_lines (option_copied source.entry)) }
{
    let Some(source) = source else {
        return Ok(());
    };
    match root_template(alloc, source)? {
        Some(template) => push_settings(alloc, report, &source.given, template.params.as_slice()),
        None => Ok(()),
    }
}

/// The template that a source begins with, if its text can be read.
fn root_template(alloc: Global, source: &Source) -> Result<Option<Template>, NoMemory>
    ensures { IfOk result (λ t. t ≡ template_named source.now.root source.now) }
{
    let Some(bytes) = source.texts.get(source.root.as_str()) else {
        return Ok(None);
    };
    match read_template(alloc, bytes.as_slice()) {
        Ok(template) => Ok(Some(template)),
        Err(TemplateFault::NoMemory) => Err(NoMemory),
        Err(_) => Ok(None),
    }
}

/// Adds the lines of parameters.
fn push_settings(
    alloc: Global,
    report: &mut String,
    given: &Pairs,
    params: &[Param],
) -> Result<(), NoMemory>
    ensures { IfOk result (λ _. string_bytes report.new ≡ string_bytes report.old ++ flat_map (parameter_line given.now) params.now) }
{
    for param in params {
        push_parameter(alloc, report, given, param)?;
    }
    Ok(())
}

/// Adds the line of a parameter.
fn push_parameter(
    alloc: Global,
    report: &mut String,
    given: &Pairs,
    param: &Param,
) -> Result<(), NoMemory>
    ensures { IfOk result (λ _. string_bytes report.new ≡ string_bytes report.old ++ parameter_line given.now param.now) }
{
    match text_for(given, param) {
        Some(text) => push_setting(alloc, report, param, text),
        None => Ok(()),
    }
}

/// The text of a parameter: what is given for it, or else its default.
fn text_for<'a>(given: &'a Pairs, param: &'a Param) -> Option<&'a Txt>
    ensures { option_copied result ≡ text_for given.now param.now }
{
    match given.get(param.name.as_str()) {
        Some(text) => Some(text),
        None => param.default.as_ref(),
    }
}

fn push_setting(
    alloc: Global,
    report: &mut String,
    param: &Param,
    text: &Txt,
) -> Result<(), NoMemory>
    ensures { IfOk result (λ _. string_bytes report.new
        ≡ string_bytes report.old ++ line_of (codes "parameter") (param.now.name ∷ told_word param.now text.now ∷ [])) }
{
    report.push_str("parameter")?;
    push_word(report, param.name.as_str())?;
    push_told(alloc, report, param, text)?;
    report.push('\n')?;
    Ok(())
}

/// Adds the value of a parameter as it is told, after a space.
fn push_told(alloc: Global, report: &mut String, param: &Param, text: &Txt) -> Result<(), NoMemory>
    ensures { IfOk result (λ _. string_bytes report.new ≡ string_bytes report.old ++ 32 ∷ told_word param.now text.now) }
{
    if param.no_echo {
        push_word(report, HIDDEN)
    } else {
        push_value(alloc, report, param.kind, text)
    }
}

/// Adds the value of a parameter as compact JSON, after a space.
fn push_value(alloc: Global, report: &mut String, kind: Kind, text: &Txt) -> Result<(), NoMemory>
    ensures { IfOk result (λ _. string_bytes report.new ≡ string_bytes report.old ++ 32 ∷ value_word kind text.now) }
{
    match kind {
        Kind::Text | Kind::Number => push_text(alloc, report, text),
        Kind::Numbers | Kind::Commas => push_members(alloc, report, text),
    }
}

/// Adds the members of a list that is written with commas, after a space.
fn push_members(alloc: Global, report: &mut String, text: &Txt) -> Result<(), NoMemory>
    ensures { IfOk result (λ _. string_bytes report.new ≡ string_bytes report.old ++ 32 ∷ texts_word (members_of text.now)) }
{
    let members = members_of(alloc, text)?;
    push_texts(alloc, report, members.as_slice())
}

fn members_of(alloc: Global, text: &Txt) -> Result<Vec<Txt>, NoMemory>
    ensures { IfOk result (λ ts. ts.items ≡ members_of text.now) }
{
    let Ok(texts) = comma_list(alloc, text.as_str()) else {
        return Err(NoMemory);
    };
    let mut members = Vec::new(alloc);
    for text in texts {
        members.push(Txt::new(text))?;
    }
    Ok(members)
}
