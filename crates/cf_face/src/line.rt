//! Lines of words.

ghost use Rattle.std.specs.Prelude.{◌≡◌, ◌++◌, [], ◌∷◌, IfOk, decimal, map, string_bytes};
ghost use Rattle.serde_json.specs.Data.{string};
ghost use Rattle.serde_json.specs.View.{view};
ghost use Rattle.cf_face.specs.Line.{spaced, text_word, texts_word};

use cf_tree::{NoMemory, Txt};
use serde_json::Value;
use std::alloc::Global;

/// Adds a space and a word.
pub fn push_word(line: &mut String, word: &str) -> Result<(), NoMemory>
    ensures { IfOk result (λ _. string_bytes line.new ≡ string_bytes line.old ++ 32 ∷ word.now) }
{
    line.push(' ')?;
    line.push_str(word)?;
    Ok(())
}

/// Adds a space and a number in decimal.
pub fn push_number(alloc: Global, line: &mut String, number: u64) -> Result<(), NoMemory>
    ensures { IfOk result (λ _. string_bytes line.new ≡ string_bytes line.old ++ 32 ∷ decimal number) }
{
    let digits = number.to_string(alloc)?;
    push_word(line, digits.as_str())
}

/// Adds a space and a text as compact JSON.
#[tactic(auto, unfolding(crate::specs::Line::text_word))]
pub fn push_text(alloc: Global, line: &mut String, text: &Txt) -> Result<(), NoMemory>
    ensures { IfOk result (λ _. string_bytes line.new ≡ string_bytes line.old ++ 32 ∷ text_word text.now) }
{
    let json = Value::try_from_str(alloc, text.as_str())?.to_string(alloc)?;
    push_word(line, json.as_str())
}

/// Adds a space and a list of texts as compact JSON.
pub fn push_texts(alloc: Global, line: &mut String, texts: &[Txt]) -> Result<(), NoMemory>
    ensures { IfOk result (λ _. string_bytes line.new ≡ string_bytes line.old ++ 32 ∷ texts_word texts.now) }
{
    let json = texts_json(alloc, texts)?;
    push_word(line, json.as_str())
}

/// Adds a word and a text as compact JSON, each after a space.
#[tactic(auto, using(crate::proofs::Spaced::two_words))]
pub fn push_named(alloc: Global, line: &mut String, word: &str, text: &Txt) -> Result<(), NoMemory>
    ensures { IfOk result (λ _. string_bytes line.new ≡ string_bytes line.old ++ spaced (word.now ∷ text_word text.now ∷ [])) }
{
    push_word(line, word)?;
    push_text(alloc, line, text)?;
    Ok(())
}

// The texts as JSON values.
fn text_values(alloc: Global, texts: &[Txt]) -> Result<Vec<Value>, NoMemory>
    ensures { IfOk result (λ values. map view values.items ≡ map string texts.now) }
{
    let mut values = Vec::new(alloc);
    for text in texts {
        values.push(Value::try_from_str(alloc, text.as_str())?)?;
    }
    Ok(values)
}

// A list of texts as compact JSON.
fn texts_json(alloc: Global, texts: &[Txt]) -> Result<String, NoMemory>
    ensures { IfOk result (λ json. string_bytes json ≡ texts_word texts.now) }
{
    let values = text_values(alloc, texts)?;
    let json = Value::Array(values).to_string(alloc)?;
    Ok(json)
}
