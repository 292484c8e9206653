//! The words that say why a template was not read.
ghost use Rattle.std.specs.Prelude.{◌≡◌, ◌++◌, [], ◌∷◌, IfOk, codes, decimal, string_bytes};
ghost use Rattle.cf_face.specs.Line.{spaced, text_word};
ghost use Rattle.cf_face.specs.Exit.{unread_words};

use crate::line::{push_named, push_number, push_text, push_word};
use cf_template::TemplateFault;
use cf_tree::{NoMemory, Txt};
use std::alloc::Global;

/// Adds why a template was not read: the fault's name and its fields, each after a space.
pub fn push_unread(alloc: Global, line: &mut String, fault: &TemplateFault) -> Result<(), NoMemory>
    ensures { IfOk result (λ _. string_bytes line.new ≡ string_bytes line.old ++ spaced (unread_words fault.now)) }
{
    match fault {
        TemplateFault::NotJson => push_word(line, "NotJson"),
        TemplateFault::TooLong { length } => push_counted(alloc, line, "TooLong", *length),
        TemplateFault::WrongShape { path } => push_named(alloc, line, "WrongShape", path),
        TemplateFault::UnknownSection { name } => push_named(alloc, line, "UnknownSection", name),
        TemplateFault::BadVersion => push_word(line, "BadVersion"),
        TemplateFault::NullValue { path } => push_named(alloc, line, "NullValue", path),
        TemplateFault::BadNumber { path } => push_named(alloc, line, "BadNumber", path),
        TemplateFault::BadName { path } => push_named(alloc, line, "BadName", path),
        TemplateFault::TooMany { what, count } => push_too_many(alloc, line, what, *count),
        TemplateFault::UnknownFunction { path } => push_named(alloc, line, "UnknownFunction", path),
        TemplateFault::Unsupported { path, name } => push_unsupported(alloc, line, path, name),
        TemplateFault::NoMemory => push_word(line, "NoMemory"),
    }
}

/// Adds a word and a number, each after a space.
#[tactic(auto, using(crate::proofs::Spaced::two_words))]
pub fn push_counted(
    alloc: Global,
    line: &mut String,
    word: &str,
    count: u64,
) -> Result<(), NoMemory>
    ensures { IfOk result (λ _. string_bytes line.new ≡ string_bytes line.old ++ spaced (word.now ∷ decimal count ∷ [])) }
{
    push_word(line, word)?;
    push_number(alloc, line, count)?;
    Ok(())
}

#[tactic(auto, using(crate::proofs::Spaced::three_words))]
fn push_too_many(alloc: Global, line: &mut String, what: &Txt, count: u64) -> Result<(), NoMemory>
    ensures { IfOk result (λ _. string_bytes line.new ≡ string_bytes line.old ++ spaced (codes "TooMany" ∷ text_word what.now ∷ decimal count ∷ [])) }
{
    push_word(line, "TooMany")?;
    push_text(alloc, line, what)?;
    push_number(alloc, line, count)?;
    Ok(())
}

#[tactic(auto, using(crate::proofs::Spaced::three_words))]
fn push_unsupported(
    alloc: Global,
    line: &mut String,
    path: &Txt,
    name: &Txt,
) -> Result<(), NoMemory>
    ensures { IfOk result (λ _. string_bytes line.new ≡ string_bytes line.old ++ spaced (codes "Unsupported" ∷ text_word path.now ∷ text_word name.now ∷ [])) }
{
    push_word(line, "Unsupported")?;
    push_text(alloc, line, path)?;
    push_text(alloc, line, name)?;
    Ok(())
}
