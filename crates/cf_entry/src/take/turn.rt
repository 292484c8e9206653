//! How turns and their causes are read.
ghost use Rattle.std.specs.Prelude.{◌≡◌};
ghost use Rattle.cf_entry.specs.Reading.{Decodes, pick_at, byte_at, option_at};
ghost use Rattle.cf_entry.specs.Numbers.{why_of, phase_of, reason_of};
ghost use Rattle.cf_entry.specs.EntryReading.{cause_at};

use crate::take::{take_byte, take_text};
use crate::turn::{Cause, Phase, Reason, Why};
use crate::unread::Unread;
use cf_tree::Code;
use std::alloc::Global;

/// A cause, or that there is none.
#[tactic(auto, unfolding(crate::specs::Reading::option_at))]
pub fn take_cause_if_any(alloc: Global, bytes: &[u8]) -> Result<(Option<Cause>, &[u8]), Unread>
    ensures { Decodes (λ x. (x.0, x.1.now)) result (option_at cause_at bytes.now) }
{
    let (flag, rest) = take_byte(bytes)?;
    match flag {
        0 => Ok((None, rest)),
        1 => {
            let (cause, rest) = take_cause(alloc, rest)?;
            Ok((Some(cause), rest))
        }
        _ => Err(Unread::NoEntry),
    }
}

#[tactic(auto, unfolding(crate::specs::EntryReading::cause_at))]
fn take_cause(alloc: Global, bytes: &[u8]) -> Result<(Cause, &[u8]), Unread>
    ensures { Decodes (λ x. (x.0, x.1.now)) result (cause_at bytes.now) }
{
    let (kind, rest) = take_byte(bytes)?;
    match kind {
        1 => {
            let (path, rest) = take_text(alloc, rest)?;
            let (reason, rest) = take_reason(rest)?;
            Ok((Cause::Handler { path, reason }, rest))
        }
        2 => {
            let (fault, rest) = take_text(alloc, rest)?;
            Ok((Cause::Plan { fault }, rest))
        }
        3 => {
            let (name, rest) = take_text(alloc, rest)?;
            Ok((Cause::Export { name }, rest))
        }
        _ => Err(Unread::NoEntry),
    }
}

fn take_reason(bytes: &[u8]) -> Result<(Reason, &[u8]), Unread>
    ensures { Decodes (λ x. (x.0, x.1.now)) result (pick_at reason_of byte_at bytes.now) }
{
    let (number, rest) = take_byte(bytes)?;
    if number == 0 {
        return Ok((Reason::Fault, rest));
    }
    match Code::from_number(number) {
        Some(code) => Ok((Reason::Code(code), rest)),
        None => Err(Unread::NoEntry),
    }
}

/// A phase.
pub fn take_phase(bytes: &[u8]) -> Result<(Phase, &[u8]), Unread>
    ensures { Decodes (λ x. (x.0, x.1.now)) result (pick_at phase_of byte_at bytes.now) }
{
    let (number, rest) = take_byte(bytes)?;
    match number {
        2 => Ok((Phase::Clean, rest)),
        3 => Ok((Phase::Back, rest)),
        4 => Ok((Phase::BackClean, rest)),
        _ => Err(Unread::NoEntry),
    }
}

/// Why a resource became a leftover.
pub fn take_why(bytes: &[u8]) -> Result<(Why, &[u8]), Unread>
    ensures { Decodes (λ x. (x.0, x.1.now)) result (pick_at why_of byte_at bytes.now) }
{
    let (number, rest) = take_byte(bytes)?;
    match number {
        1 => Ok((Why::Retained, rest)),
        2 => Ok((Why::Failed, rest)),
        3 => Ok((Why::Doubt, rest)),
        _ => Err(Unread::NoEntry),
    }
}
