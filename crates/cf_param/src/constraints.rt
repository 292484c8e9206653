ghost use Rattle.std.specs.Prelude.{◌≡◌, chars, length, is_none};
ghost use Rattle.std.specs.List.{list_any};
ghost use Rattle.cf_funcs.specs.Number.{number_of};
ghost use Rattle.cf_param.specs.Binding.{breaks, is_foreign, is_larger, is_longer, is_shorter, is_below, plain_breach_of};

use cf_funcs::number;
use cf_tree::{Kind, Names, Param, Txt};

/// A constraint of a parameter, by the way in which a value may break it (template reference, Parameters).
#[derive(Clone, Copy, Debug, PartialEq, Eq)]
pub enum Breach {
    NotANumber,
    TooShort,
    TooLong,
    TooSmall,
    TooLarge,
    NotAllowed,
    BadPattern,
    NoMatch,
}

/// The first constraint but those on the pattern that the texts break.
pub(crate) fn plain_breach(param: &Param, parts: &[Txt]) -> Option<Breach>
    ensures { result ≡ plain_breach_of param.now parts.now }
{
    if breaks_number(param, parts) {
        Some(Breach::NotANumber)
    } else if breaks_min_length(param, parts) {
        Some(Breach::TooShort)
    } else if breaks_max_length(param, parts) {
        Some(Breach::TooLong)
    } else if breaks_min_value(param, parts) {
        Some(Breach::TooSmall)
    } else if breaks_max_value(param, parts) {
        Some(Breach::TooLarge)
    } else if breaks_allowed(param, parts) {
        Some(Breach::NotAllowed)
    } else {
        None
    }
}

fn breaks_number(param: &Param, parts: &[Txt]) -> bool
    ensures { result ≡ breaks param.now parts.now Breach.NotANumber }
{
    match param.kind {
        Kind::Number | Kind::Numbers => any_no_number(parts),
        Kind::Text | Kind::Commas => false,
    }
}

fn breaks_min_length(param: &Param, parts: &[Txt]) -> bool
    ensures { result ≡ breaks param.now parts.now Breach.TooShort }
{
    match param.kind {
        Kind::Text => any_shorter(param.min_length, parts),
        Kind::Number | Kind::Numbers | Kind::Commas => false,
    }
}

fn breaks_max_length(param: &Param, parts: &[Txt]) -> bool
    ensures { result ≡ breaks param.now parts.now Breach.TooLong }
{
    match param.kind {
        Kind::Text => any_longer(param.max_length, parts),
        Kind::Number | Kind::Numbers | Kind::Commas => false,
    }
}

fn breaks_min_value(param: &Param, parts: &[Txt]) -> bool
    ensures { result ≡ breaks param.now parts.now Breach.TooSmall }
{
    match param.kind {
        Kind::Number => any_smaller(param.min_value, parts),
        Kind::Text | Kind::Numbers | Kind::Commas => false,
    }
}

fn breaks_max_value(param: &Param, parts: &[Txt]) -> bool
    ensures { result ≡ breaks param.now parts.now Breach.TooLarge }
{
    match param.kind {
        Kind::Number => any_larger(param.max_value, parts),
        Kind::Text | Kind::Numbers | Kind::Commas => false,
    }
}

fn breaks_allowed(param: &Param, parts: &[Txt]) -> bool
    ensures { result ≡ breaks param.now parts.now Breach.NotAllowed }
{
    parts.iter().any(|part| is_foreign(&param.allowed, part))
}

fn any_no_number(parts: &[Txt]) -> bool
    ensures { result ≡ list_any (λ t. is_none (number_of t)) parts.now }
{
    parts.iter().any(|part| number(part.as_str()).is_none())
}

fn any_shorter(least: Option<u64>, parts: &[Txt]) -> bool
    ensures { result ≡ list_any (is_shorter least) parts.now }
{
    parts.iter().any(|part| is_shorter(least, part.as_str()))
}

fn any_longer(most: Option<u64>, parts: &[Txt]) -> bool
    ensures { result ≡ list_any (is_longer most) parts.now }
{
    parts.iter().any(|part| is_longer(most, part.as_str()))
}

fn any_smaller(least: Option<i128>, parts: &[Txt]) -> bool
    ensures { result ≡ list_any (is_below least) parts.now }
{
    parts.iter().any(|part| is_smaller(least, part.as_str()))
}

fn any_larger(most: Option<i128>, parts: &[Txt]) -> bool
    ensures { result ≡ list_any (is_larger most) parts.now }
{
    parts.iter().any(|part| is_larger(most, part.as_str()))
}

fn is_shorter(least: Option<u64>, text: &str) -> bool
    ensures { result ≡ is_shorter least text.now }
{
    match least {
        Some(least) => characters(text) < least,
        None => false,
    }
}

fn is_longer(most: Option<u64>, text: &str) -> bool
    ensures { result ≡ is_longer most text.now }
{
    match most {
        Some(most) => characters(text) > most,
        None => false,
    }
}

fn is_smaller(least: Option<i128>, text: &str) -> bool
    ensures { result ≡ is_below least text.now }
{
    match (least, number(text)) {
        (Some(least), Some(size)) => size < least,
        _ => false,
    }
}

fn is_larger(most: Option<i128>, text: &str) -> bool
    ensures { result ≡ is_larger most text.now }
{
    match (most, number(text)) {
        (Some(most), Some(size)) => size > most,
        _ => false,
    }
}

fn is_foreign(allowed: &Option<Names>, part: &Txt) -> bool
    ensures { result ≡ is_foreign allowed.now part.now }
{
    match allowed {
        Some(names) => !names.as_slice().contains(part),
        None => false,
    }
}

/// How many characters the text has.
fn characters(text: &str) -> u64
    ensures { result ≡ length (chars text.now) }
{
    text.chars().count() as u64
}
