//! How a flaw of a template is told.
ghost use Rattle.std.specs.Prelude.{◌≡◌, ◌++◌, [], ◌∷◌, IfOk, codes, flat_map, string_bytes};
ghost use Rattle.json.specs.Print.{quoted};
ghost use Rattle.cf_desired.specs.FlawText.{bind_text, flaw_text, graph_fault_text, names_text, words_text, why_name};
ghost use Rattle.cf_desired.specs.declared.flaw.Flaw.TheVariants as flaw;

use crate::flaw::Flaw;
use cf_eval::EvalWhy;
use cf_graph::GraphFault;
use cf_param::BindFault;
use cf_tree::{Names, Txt};
use serde_json::Value;
use std::alloc::{AllocError, Global};

/// A text as compact JSON.
fn quoted(alloc: Global, text: &Txt) -> Result<String, AllocError>
    ensures { IfOk result (λ s. string_bytes s ≡ quoted text.now) }
{
    Value::try_from_str(alloc, text.as_str())?.to_string(alloc)
}

/// Adds texts to a list of which one stands already, each as compact JSON after a comma.
fn push_others(alloc: Global, list: &mut String, names: &[Txt]) -> Result<(), AllocError>
    ensures { IfOk result (λ _. string_bytes list.new ≡ string_bytes list.old ++ flat_map (λ name. codes "," ++ quoted name) names.now) }
{
    for name in names.iter() {
        list.push_str(",")?;
        list.push_str(quoted(alloc, name)?.as_str())?;
    }
    Ok(())
}

/// A list of texts as compact JSON.
fn quoted_list(alloc: Global, names: &Names) -> Result<String, AllocError>
    ensures { IfOk result (λ s. string_bytes s ≡ names_text names.now) }
{
    let mut list = String::from_str(alloc, "[")?;
    match names.as_slice().split_first() {
        Some((first, rest)) => {
            list.push_str(quoted(alloc, first)?.as_str())?;
            push_others(alloc, &mut list, rest)?;
        }
        None => {}
    }
    list.push_str("]")?;
    Ok(list)
}

/// A word and another one behind it.
fn pair(alloc: Global, word: &str, other: &str) -> Result<String, AllocError>
    ensures { IfOk result (λ s. string_bytes s ≡ words_text (word.now ∷ other.now ∷ [])) }
{
    format!(in alloc; "{word} {other}")
}

/// A word and a text as compact JSON.
fn one(alloc: Global, word: &str, text: &Txt) -> Result<String, AllocError>
    ensures { IfOk result (λ s. string_bytes s ≡ words_text (word.now ∷ quoted text.now ∷ [])) }
{
    let text = quoted(alloc, text)?;
    pair(alloc, word, text.as_str())
}

/// A word and two others behind it.
fn two(alloc: Global, word: &str, first: &str, second: &str) -> Result<String, AllocError>
    ensures { IfOk result (λ s. string_bytes s ≡ words_text (word.now ∷ first.now ∷ second.now ∷ [])) }
{
    format!(in alloc; "{word} {first} {second}")
}

/// Why an evaluation has a fault, by name.
fn why_name(why: EvalWhy) -> &'static str
    ensures { result.now ≡ why_name why }
{
    match why {
        EvalWhy::UnknownName => "UnknownName",
        EvalWhy::UnknownAttribute => "UnknownAttribute",
        EvalWhy::UnknownMapKey => "UnknownMapKey",
        EvalWhy::IndexOutside => "IndexOutside",
        EvalWhy::WrongKind => "WrongKind",
        EvalWhy::UnknownImport => "UnknownImport",
        EvalWhy::CircularCondition => "CircularCondition",
        EvalWhy::NotMade => "NotMade",
        EvalWhy::TooBig => "TooBig",
    }
}

/// Why a template has no order of work.
fn graph_fault_text(alloc: Global, fault: &GraphFault) -> Result<String, AllocError>
    ensures { IfOk result (λ s. string_bytes s ≡ graph_fault_text fault.now) }
{
    match fault {
        GraphFault::Circular { cycle } => {
            let cycle = quoted_list(alloc, cycle)?;
            pair(alloc, "Circular", cycle.as_str())
        }
        GraphFault::UnknownDependency { from, name } => {
            let from = quoted(alloc, from)?;
            let name = quoted(alloc, name)?;
            two(alloc, "UnknownDependency", from.as_str(), name.as_str())
        }
        GraphFault::NoMemory => String::from_str(alloc, "NoMemory"),
    }
}

/// Why the parameters of a template aren't bound.
fn bind_text(alloc: Global, fault: &BindFault) -> Result<String, AllocError>
    ensures { IfOk result (λ s. string_bytes s ≡ bind_text fault.now) }
{
    match fault {
        BindFault::Undeclared { name } => one(alloc, "Undeclared", name),
        BindFault::Missing { name } => one(alloc, "Missing", name),
        BindFault::NotANumber { name } => one(alloc, "NotANumber", name),
        BindFault::TooShort { name } => one(alloc, "TooShort", name),
        BindFault::TooLong { name } => one(alloc, "TooLong", name),
        BindFault::TooSmall { name } => one(alloc, "TooSmall", name),
        BindFault::TooLarge { name } => one(alloc, "TooLarge", name),
        BindFault::NotAllowed { name } => one(alloc, "NotAllowed", name),
        BindFault::NoMatch { name } => one(alloc, "NoMatch", name),
        BindFault::BadPattern { name } => one(alloc, "BadPattern", name),
        BindFault::NoMemory => String::from_str(alloc, "NoMemory"),
    }
}

/// A fault of an evaluation: why, in which nested stack, and at which place.
fn eval_text(alloc: Global, why: EvalWhy, stack: &Txt, at: &Txt) -> Result<String, AllocError>
    ensures { IfOk result (λ s. string_bytes s ≡ flaw_text (flaw.Eval why stack.now at.now)) }
{
    let why = why_name(why);
    let stack = quoted(alloc, stack)?;
    let at = quoted(alloc, at)?;
    format!(in alloc; "Eval Bad {why} {stack} {at}")
}

/// A flaw in words: its name and its fields in order, texts and lists of texts as compact JSON, and numbers in decimal.
fn words_of(alloc: Global, flaw: &Flaw) -> Result<String, AllocError>
    ensures { IfOk result (λ s. string_bytes s ≡ flaw_text flaw.now) }
{
    match flaw {
        Flaw::Bind { at, fault } => {
            let at = quoted(alloc, at)?;
            let fault = bind_text(alloc, fault)?;
            two(alloc, "Bind", at.as_str(), fault.as_str())
        }
        Flaw::Eval { why, stack, at } => eval_text(alloc, *why, stack, at),
        Flaw::Graph { at, fault } => {
            let at = quoted(alloc, at)?;
            let fault = graph_fault_text(alloc, fault)?;
            two(alloc, "Graph", at.as_str(), fault.as_str())
        }
        Flaw::Shape { path } => one(alloc, "Shape", path),
        Flaw::TemplateMissing { name } => one(alloc, "TemplateMissing", name),
        Flaw::TooDeep { path } => one(alloc, "TooDeep", path),
        Flaw::TooMany { count } => {
            let count = count.to_string(alloc)?;
            pair(alloc, "TooMany", count.as_str())
        }
        Flaw::DynamicCondition { path, name } => {
            let path = quoted(alloc, path)?;
            let name = quoted(alloc, name)?;
            two(alloc, "DynamicCondition", path.as_str(), name.as_str())
        }
        Flaw::DynamicTemplate { path } => one(alloc, "DynamicTemplate", path),
    }
}

/// The text that the cause of a rollback tells of a flaw: its name and its fields in order, texts and lists of texts as compact
/// JSON, and numbers in decimal.
///
/// # Errors
///
/// Only for want of memory.
pub fn plan_text(alloc: Global, flaw: &Flaw) -> Result<Txt, AllocError>
    ensures { IfOk result (λ text. text ≡ flaw_text flaw.now) }
{
    Ok(Txt::new(words_of(alloc, flaw)?))
}
