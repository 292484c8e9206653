//! The pieces that every entry is read from, each from the front of some bytes.
ghost use Rattle.std.specs.Prelude.{◌≡◌, ℕ, List, Option};
ghost use Rattle.cf_entry.specs.Reading.{Decodes, byte_at, four_at, eight_at, run_at, text_at, list_at, many_at, pair_at, template_at};

pub mod entry;
mod row;
mod turn;
mod value;

use crate::unread::Unread;
use cf_tree::{Bytes, Txt};
use std::alloc::Global;
use std::str;
pub use turn::{take_cause_if_any, take_phase, take_why};
pub use value::{take_dict, take_truth};

/// One byte.
pub fn take_byte(bytes: &[u8]) -> Result<(u8, &[u8]), Unread>
    ensures { Decodes (λ x. (x.0, x.1.now)) result (byte_at bytes.now) }
{
    match bytes {
        [] => Err(Unread::NoEntry),
        [byte, rest @ ..] => Ok((*byte, rest)),
    }
}

/// A number in four bytes.
pub fn take_four(bytes: &[u8]) -> Result<(u32, &[u8]), Unread>
    ensures { Decodes (λ x. (x.0, x.1.now)) result (four_at bytes.now) }
{
    if bytes.len() < 4 {
        return Err(Unread::NoEntry);
    }
    let (front, rest) = bytes.split_at(4);
    let number = u32::from_be_bytes([front[0], front[1], front[2], front[3]]);
    Ok((number, rest))
}

/// A number in eight bytes.
pub fn take_eight(bytes: &[u8]) -> Result<(u64, &[u8]), Unread>
    ensures { Decodes (λ x. (x.0, x.1.now)) result (eight_at bytes.now) }
{
    if bytes.len() < 8 {
        return Err(Unread::NoEntry);
    }
    let (front, rest) = bytes.split_at(8);
    let number = u64::from_be_bytes([
        front[0], front[1], front[2], front[3], front[4], front[5], front[6], front[7],
    ]);
    Ok((number, rest))
}

/// Bytes behind their length.
#[tactic(auto, unfolding(crate::specs::Reading::run_at))]
pub fn take_run(bytes: &[u8]) -> Result<(&[u8], &[u8]), Unread>
    ensures { Decodes (λ x. (x.0.now, x.1.now)) result (run_at bytes.now) }
{
    let (length, rest) = take_four(bytes)?;
    let length = length as usize;
    if rest.len() < length {
        return Err(Unread::NoEntry);
    }
    Ok(rest.split_at(length))
}

/// A text behind its length.
#[tactic(auto, using(crate::proofs::Texts::utf8_yes, crate::proofs::Texts::utf8_no), unfolding(crate::specs::Reading::text_at))]
pub fn take_text(alloc: Global, bytes: &[u8]) -> Result<(Txt, &[u8]), Unread>
    ensures { Decodes (λ x. (x.0, x.1.now)) result (text_at bytes.now) }
{
    let (run, rest) = take_run(bytes)?;
    match str::from_utf8(run) {
        Ok(text) => Ok((Txt::from_str(alloc, text)?, rest)),
        Err(_) => Err(Unread::NoEntry),
    }
}

/// What lists are made of.
pub trait Member: Sized + Drop {
    ghost read_at: { List ℕ → Option (Self × List ℕ) };

    /// One member from the front of the bytes.
    fn take(alloc: Global, bytes: &[u8]) -> Result<(Self, &[u8]), Unread>
        ensures { Decodes (λ x. (x.0, x.1.now)) result (read_at bytes.now) };
}

impl Member for Txt {
    ghost read_at = { text_at };

    fn take(alloc: Global, bytes: &[u8]) -> Result<(Txt, &[u8]), Unread> {
        take_text(alloc, bytes)
    }
}

impl Member for (Txt, Txt) {
    ghost read_at = { pair_at };

    fn take(alloc: Global, bytes: &[u8]) -> Result<((Txt, Txt), &[u8]), Unread> {
        let (name, rest) = take_text(alloc, bytes)?;
        let (text, rest) = take_text(alloc, rest)?;
        Ok(((name, text), rest))
    }
}

impl Member for (Txt, Bytes) {
    ghost read_at = { template_at };

    fn take(alloc: Global, bytes: &[u8]) -> Result<((Txt, Bytes), &[u8]), Unread> {
        let (name, rest) = take_text(alloc, bytes)?;
        let (run, rest) = take_run(rest)?;
        let template = Bytes::from_vec(Vec::from_slice(alloc, run)?);
        Ok(((name, template), rest))
    }
}

/// Members behind their number.
#[tactic(auto, unfolding(crate::specs::Reading::list_at))]
pub fn take_list<T: Member>(alloc: Global, bytes: &[u8]) -> Result<(Vec<T>, &[u8]), Unread>
    ensures { Decodes (λ x. (x.0.items, x.1.now)) result (list_at T.read_at bytes.now) }
{
    let (count, rest) = take_four(bytes)?;
    take_many(alloc, count, rest)
}

/// So many members.
fn take_many<T: Member>(alloc: Global, count: u32, bytes: &[u8]) -> Result<(Vec<T>, &[u8]), Unread>
    ensures { Decodes (λ x. (x.0.items, x.1.now)) result (many_at T.read_at count bytes.now) }
{
    let mut members = Vec::new(alloc);
    let mut rest = bytes;
    for _ in 0..count {
        match T::take(alloc, rest) {
            Ok((member, after)) => {
                members.push(member)?;
                rest = after;
            }
            Err(refused) => return Err(refused),
        }
    }
    Ok((members, rest))
}
