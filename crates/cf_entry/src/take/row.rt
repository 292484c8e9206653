//! How the rows of change sets are read.
ghost use Rattle.std.specs.Prelude.{◌≡◌};
ghost use Rattle.cf_entry.specs.Reading.{Decodes, pick_at, byte_at};
ghost use Rattle.cf_entry.specs.Numbers.{action_of, attribute_numbered, recreation_numbered, evaluation_of, replacement_numbered, is_named};
ghost use Rattle.cf_entry.specs.EntryReading.{detail_at, row_at};

use crate::take::{Member, take_byte, take_list, take_text, take_truth};
use crate::unread::Unread;
use cf_tree::{Action, Attribute, Detail, Evaluation, Listing, Recreation, Replacement, Row, Txt};
use std::alloc::Global;

impl Member for Row {
    ghost read_at = { row_at };

    fn take(alloc: Global, bytes: &[u8]) -> Result<(Row, &[u8]), Unread> {
        take_row(alloc, bytes)
    }
}

#[tactic(auto, unfolding(crate::specs::EntryReading::row_at))]
fn take_row(alloc: Global, bytes: &[u8]) -> Result<(Row, &[u8]), Unread>
    ensures { Decodes (λ x. (x.0, x.1.now)) result (row_at bytes.now) }
{
    let (action, rest) = take_action(bytes)?;
    let (path, rest) = take_text(alloc, rest)?;
    let (kind, rest) = take_text(alloc, rest)?;
    let (replacement, rest) = take_replacement(rest)?;
    let (unsure, rest) = take_truth(rest)?;
    let (details, rest) = take_list(alloc, rest)?;
    let row = Row {
        action,
        path,
        kind,
        replacement,
        unsure,
        details: Listing::from_vec(details),
    };
    Ok((row, rest))
}

impl Member for Detail {
    ghost read_at = { detail_at };

    fn take(alloc: Global, bytes: &[u8]) -> Result<(Detail, &[u8]), Unread> {
        take_detail(alloc, bytes)
    }
}

#[tactic(auto, unfolding(crate::specs::EntryReading::detail_at))]
fn take_detail(alloc: Global, bytes: &[u8]) -> Result<(Detail, &[u8]), Unread>
    ensures { Decodes (λ x. (x.0, x.1.now)) result (detail_at bytes.now) }
{
    let (attribute, rest) = take_attribute(bytes)?;
    let (name, rest) = take_text(alloc, rest)?;
    let (recreation, rest) = take_recreation(rest)?;
    let (evaluation, rest) = take_evaluation(rest)?;
    if !is_named(attribute, &name) {
        return Err(Unread::NoEntry);
    }
    let detail = Detail {
        attribute,
        name,
        recreation,
        evaluation,
    };
    Ok((detail, rest))
}

// Whether a detail may have this name: a policy has none.
fn is_named(attribute: Attribute, name: &Txt) -> bool
    ensures { result ≡ is_named attribute name.now }
{
    match attribute {
        Attribute::Properties => true,
        Attribute::DeletionPolicy | Attribute::UpdateReplacePolicy => name.as_str().is_empty(),
    }
}

fn take_action(bytes: &[u8]) -> Result<(Action, &[u8]), Unread>
    ensures { Decodes (λ x. (x.0, x.1.now)) result (pick_at action_of byte_at bytes.now) }
{
    let (number, rest) = take_byte(bytes)?;
    match number {
        1 => Ok((Action::Add, rest)),
        2 => Ok((Action::Modify, rest)),
        3 => Ok((Action::Remove, rest)),
        _ => Err(Unread::NoEntry),
    }
}

fn take_attribute(bytes: &[u8]) -> Result<(Attribute, &[u8]), Unread>
    ensures { Decodes (λ x. (x.0, x.1.now)) result (pick_at attribute_numbered byte_at bytes.now) }
{
    let (number, rest) = take_byte(bytes)?;
    match number {
        1 => Ok((Attribute::Properties, rest)),
        2 => Ok((Attribute::DeletionPolicy, rest)),
        3 => Ok((Attribute::UpdateReplacePolicy, rest)),
        _ => Err(Unread::NoEntry),
    }
}

fn take_recreation(bytes: &[u8]) -> Result<(Recreation, &[u8]), Unread>
    ensures { Decodes (λ x. (x.0, x.1.now)) result (pick_at recreation_numbered byte_at bytes.now) }
{
    let (number, rest) = take_byte(bytes)?;
    match number {
        1 => Ok((Recreation::Never, rest)),
        2 => Ok((Recreation::Conditionally, rest)),
        3 => Ok((Recreation::Always, rest)),
        _ => Err(Unread::NoEntry),
    }
}

fn take_evaluation(bytes: &[u8]) -> Result<(Evaluation, &[u8]), Unread>
    ensures { Decodes (λ x. (x.0, x.1.now)) result (pick_at evaluation_of byte_at bytes.now) }
{
    let (number, rest) = take_byte(bytes)?;
    match number {
        1 => Ok((Evaluation::Static, rest)),
        2 => Ok((Evaluation::Dynamic, rest)),
        _ => Err(Unread::NoEntry),
    }
}

fn take_replacement(bytes: &[u8]) -> Result<(Option<Replacement>, &[u8]), Unread>
    ensures { Decodes (λ x. (x.0, x.1.now)) result (pick_at replacement_numbered byte_at bytes.now) }
{
    let (number, rest) = take_byte(bytes)?;
    match number {
        0 => Ok((None, rest)),
        1 => Ok((Some(Replacement::True), rest)),
        2 => Ok((Some(Replacement::False), rest)),
        3 => Ok((Some(Replacement::Conditional), rest)),
        _ => Err(Unread::NoEntry),
    }
}
