ghost use Rattle.std.specs.Prelude.{◌≡◌, ◌<◌, [], ◌∷◌, ◌++◌, All, length, map, IfOk, OnOk, option_map, string_bytes};
ghost use Rattle.std.specs.Str.Iter.{HasSubslice};
ghost use Rattle.cf_funcs.specs.Pieces.{cut_at, joined, members_of, pieces_of, without_spaces};

use crate::memory::TextMemory;
use std::alloc::{AllocError, Global};

/// What comes before the first place of a delimiter, and what follows it there.
pub fn cut<'a>(text: &'a str, delimiter: &str) -> Option<(&'a str, &'a str)>
    requires { 0 < length delimiter.now }
    ensures { option_map (λ c. (c.0.now, c.1.now)) result ≡ cut_at delimiter.now text.now }
{
    text.split_once(delimiter)
}

/// The pieces of a text, cut at each place of the delimiter from the left, without overlap.
///
/// # Errors
///
/// `TextMemory`, where there is no memory for the pieces.
pub fn split(alloc: Global, delimiter: &str, text: &str) -> Result<Vec<String>, TextMemory>
    requires { 0 < length delimiter.now }
    ensures pieces { IfOk result (λ v. map string_bytes v.items ≡ pieces_of delimiter.now text.now) }
    ensures joined { IfOk result (λ v. joined delimiter.now (map string_bytes v.items) ≡ text.now) }
    ensures apart { IfOk result (λ v. All (λ piece. ¬ (HasSubslice piece delimiter.now)) (map string_bytes v.items)) }
{
    pieces(alloc, delimiter, text)
}

fn pieces(alloc: Global, delimiter: &str, text: &str) -> Result<Vec<String>, TextMemory>
    requires { 0 < length delimiter.now }
    ensures { IfOk result (λ v. map string_bytes v.items ≡ pieces_of delimiter.now text.now) }
{
    let mut pieces = Vec::new(alloc);
    let mut rest = text;
    while let Some((piece, after)) = cut(rest, delimiter) {
        push_text(alloc, &mut pieces, piece)?;
        rest = after;
    }
    push_text(alloc, &mut pieces, rest)?;
    Ok(pieces)
}

/// The members of a list that is written with commas, each without the spaces (U+0020) at both its ends. The empty text is the empty list.
///
/// # Errors
///
/// `TextMemory`, where there is no memory for the members.
pub fn comma_list(alloc: Global, text: &str) -> Result<Vec<String>, TextMemory>
    ensures { IfOk result (λ v. map string_bytes v.items ≡ members_of text.now) }
{
    let mut members = Vec::new(alloc);
    if text.is_empty() {
        return Ok(members);
    }
    let mut rest = text;
    while let Some((member, after)) = cut(rest, ",") {
        push_text(alloc, &mut members, without_spaces(member))?;
        rest = after;
    }
    push_text(alloc, &mut members, without_spaces(rest))?;
    Ok(members)
}

fn push_text(alloc: Global, texts: &mut Vec<String>, text: &str) -> Result<(), AllocError>
    ensures { OnOk result (map string_bytes texts.new.items ≡ map string_bytes texts.old.items ++ text.now ∷ []) }
{
    texts.push(String::from_str(alloc, text)?)?;
    Ok(())
}

fn without_spaces(text: &str) -> &str
    ensures { result.now ≡ without_spaces text.now }
{
    text.trim_start_matches(' ').trim_end_matches(' ')
}
