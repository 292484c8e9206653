//! How values are read.
ghost use Rattle.std.specs.Prelude.{◌≡◌};
ghost use Rattle.cf_tree.specs.Value.{datum_of, data_of, pairs_of};
ghost use Rattle.cf_entry.specs.Reading.{Decodes, datum_at, dict_at, many_at, then_at, pick_at, list_at, text_at, byte_at, truth_of};

use crate::take::{take_byte, take_eight, take_four, take_text};
use crate::unread::Unread;
use cf_tree::{Dict, Pair, Val, Vals};
use std::alloc::Global;

/// A value behind the byte for its kind, of at most so many levels of lists and dictionaries.
#[cycle(take_value)]
#[tactic(auto, unfolding(crate::specs::Reading::datum_at))]
fn take_value(alloc: Global, depth: usize, bytes: &[u8]) -> Result<(Val, &[u8]), Unread>
    ensures { Decodes (λ x. (datum_of x.0, x.1.now)) result (datum_at depth bytes.now) }
{
    if depth == 0 {
        return Err(Unread::NoEntry);
    }
    let (kind, rest) = take_byte(bytes)?;
    match kind {
        1 => {
            let (text, rest) = take_text(alloc, rest)?;
            Ok((Val::Text(text), rest))
        }
        2 => {
            let (number, rest) = take_eight(rest)?;
            Ok((Val::Whole(number.cast_signed()), rest))
        }
        3 => {
            let (truth, rest) = take_truth(rest)?;
            Ok((Val::Truth(truth), rest))
        }
        4 => {
            let (values, rest) = take_values(alloc, depth - 1, rest)?;
            Ok((Val::List(values), rest))
        }
        5 => {
            let (pairs, rest) = take_dict(alloc, depth - 1, rest)?;
            Ok((Val::Dict(pairs), rest))
        }
        _ => Err(Unread::NoEntry),
    }
}

/// A truth value.
pub fn take_truth(bytes: &[u8]) -> Result<(bool, &[u8]), Unread>
    ensures { Decodes (λ x. (x.0, x.1.now)) result (pick_at truth_of byte_at bytes.now) }
{
    let (truth, rest) = take_byte(bytes)?;
    match truth {
        0 => Ok((false, rest)),
        1 => Ok((true, rest)),
        _ => Err(Unread::NoEntry),
    }
}

/// Values behind their number.
#[cycle(take_value)]
#[tactic(auto, unfolding(crate::specs::Reading::list_at))]
fn take_values(alloc: Global, depth: usize, bytes: &[u8]) -> Result<(Vals, &[u8]), Unread>
    ensures { Decodes (λ x. (x.0, x.1.now)) result (list_at (datum_at depth) bytes.now) }
{
    let (count, rest) = take_four(bytes)?;
    let (values, rest) = take_many_values(alloc, depth, count, rest)?;
    Ok((Vals::from_vec(values), rest))
}

/// So many values.
#[cycle(take_value)]
fn take_many_values(
    alloc: Global,
    depth: usize,
    count: u32,
    bytes: &[u8],
) -> Result<(Vec<Val>, &[u8]), Unread>
    ensures { Decodes (λ x. (data_of x.0.items, x.1.now)) result (many_at (datum_at depth) count bytes.now) }
{
    let mut values = Vec::new(alloc);
    let mut rest = bytes;
    for _ in 0..count {
        match take_value(alloc, depth, rest) {
            Ok((value, after)) => {
                values.push(value)?;
                rest = after;
            }
            Err(refused) => return Err(refused),
        }
    }
    Ok((values, rest))
}

/// Pairs behind their number, the keys strictly ascending.
#[cycle(take_value)]
#[tactic(auto, unfolding(crate::specs::Reading::list_at))]
pub fn take_dict(alloc: Global, depth: usize, bytes: &[u8]) -> Result<(Dict, &[u8]), Unread>
    ensures { Decodes (λ x. (x.0, x.1.now)) result (dict_at depth bytes.now) }
{
    let (count, rest) = take_four(bytes)?;
    let (pairs, rest) = take_many_pairs(alloc, depth, count, rest)?;
    match Dict::try_from_pairs(pairs) {
        Some(pairs) => Ok((pairs, rest)),
        None => Err(Unread::NoEntry),
    }
}

/// So many pairs of a text and a value.
#[cycle(take_value)]
fn take_many_pairs(
    alloc: Global,
    depth: usize,
    count: u32,
    bytes: &[u8],
) -> Result<(Vec<Pair>, &[u8]), Unread>
    ensures { Decodes (λ x. (pairs_of x.0.items, x.1.now)) result (many_at (then_at text_at (datum_at depth)) count bytes.now) }
{
    let mut pairs = Vec::new(alloc);
    let mut rest = bytes;
    for _ in 0..count {
        match take_pair(alloc, depth, rest) {
            Ok((pair, after)) => {
                pairs.push(pair)?;
                rest = after;
            }
            Err(refused) => return Err(refused),
        }
    }
    Ok((pairs, rest))
}

/// A text and a value.
#[cycle(take_value)]
fn take_pair(alloc: Global, depth: usize, bytes: &[u8]) -> Result<(Pair, &[u8]), Unread>
    ensures { Decodes (λ x. ((x.0.name, datum_of x.0.value), x.1.now)) result (then_at text_at (datum_at depth) bytes.now) }
{
    let (name, rest) = take_text(alloc, bytes)?;
    let (value, rest) = take_value(alloc, depth, rest)?;
    Ok((Pair { name, value }, rest))
}
