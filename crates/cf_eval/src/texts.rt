//! Values as the functions want them.
ghost use Rattle.std.specs.Prelude.{◌≡◌, Some, IfOk};
ghost use Rattle.std.specs.Option.{option_copied};
ghost use Rattle.cf_tree.specs.Value.{datum_of, data_of};
ghost use Rattle.cf_eval.specs.Texts.{text_of, truth_text, wanted_text, as_text, wanted_list, as_list, wanted_index, index_of, list_in, whole_number_of, within};
ghost use Rattle.cf_eval.specs.Gives.{got_found, Gives, GivesPart, GivesNow, GivesList, GivesMembers};

use crate::fault::{EvalWhy, Stop};
use crate::got::Got;
use cf_tree::{Txt, Val, Vals, size_of_val};
use std::alloc::{AllocError, Global};

/// The longest encoding of a value.
const MOST_BYTES: u64 = 262_144;

/// A value as a text, where it is a text, a whole number or a truth value.
pub(crate) fn text_of(alloc: Global, value: &Val) -> Result<Option<Txt>, AllocError>
    ensures { IfOk result (λ o. o ≡ text_of (datum_of value.now)) }
{
    match value {
        Val::Text(text) => Ok(Some(text.try_clone(alloc)?)),
        Val::Whole(number) => Ok(Some(Txt::new(number.to_string(alloc)?))),
        Val::Truth(true) => Ok(Some(Txt::from_str(alloc, "true")?)),
        Val::Truth(false) => Ok(Some(Txt::from_str(alloc, "false")?)),
        Val::List(_) => Ok(None),
        Val::Dict(_) => Ok(None),
    }
}

/// A value that is wanted as a text at a place.
pub(crate) fn wanted_text(alloc: Global, at: &Txt, value: &Val) -> Result<Txt, Stop>
    ensures { GivesNow (wanted_text at.now (Some (datum_of value.now))) result }
{
    match text_of(alloc, value)? {
        Some(text) => Ok(text),
        None => Err(Stop::Bad {
            why: EvalWhy::WrongKind,
            at: at.try_clone(alloc)?,
        }),
    }
}

/// A part that is wanted as a text, `None` where it is Later.
pub(crate) fn as_text(alloc: Global, at: &Txt, part: &Got) -> Result<Option<Txt>, Stop>
    ensures { GivesPart (as_text at.now (got_found part.now)) result }
{
    match part {
        Got::Value(value) => Ok(Some(wanted_text(alloc, at, value)?)),
        Got::NoValue => Err(Stop::Bad {
            why: EvalWhy::WrongKind,
            at: at.try_clone(alloc)?,
        }),
        Got::Later => Ok(None),
    }
}

/// A part, but `TooBig` where its encoding is too long.
pub(crate) fn within(alloc: Global, at: &Txt, part: Got) -> Result<Got, Stop>
    ensures { Gives (within at.now (got_found part)) result }
{
    match part {
        Got::Value(value) => {
            if MOST_BYTES < size_of_val(&value) {
                return Err(Stop::Bad {
                    why: EvalWhy::TooBig,
                    at: at.try_clone(alloc)?,
                });
            }
            Ok(Got::Value(value))
        }
        Got::NoValue => Ok(Got::NoValue),
        Got::Later => Ok(Got::Later),
    }
}

/// The number whose decimal text this is, where it is one of 64 bits.
pub(crate) fn whole_of(alloc: Global, text: &Txt) -> Result<Option<i64>, AllocError>
    ensures { IfOk result (λ o. o ≡ whole_number_of text.now) }
{
    match text.as_str().parse::<i64>() {
        Ok(number) => {
            let written = number.to_string(alloc)?;
            if text.is(written.as_str()) {
                Ok(Some(number))
            } else {
                Ok(None)
            }
        }
        Err(_) => Ok(None),
    }
}

/// The number that an index is, where it is one.
pub(crate) fn index_of(alloc: Global, value: &Val) -> Result<Option<i64>, AllocError>
    ensures { IfOk result (λ o. o ≡ index_of (datum_of value.now)) }
{
    match value {
        Val::Whole(number) => Ok(Some(*number)),
        Val::Text(text) => whole_of(alloc, text),
        Val::Truth(_) => Ok(None),
        Val::List(_) => Ok(None),
        Val::Dict(_) => Ok(None),
    }
}

#[tactic(auto, using(crate::proofs::Lists::members_are))]
fn list_in(value: &Val) -> Option<&Vals>
    ensures { option_copied result ≡ list_in (datum_of value.now) }
{
    match value {
        Val::List(members) => Some(members),
        _ => None,
    }
}

/// A value that is wanted as a list at a place.
pub(crate) fn wanted_list<'a>(alloc: Global, at: &Txt, value: &'a Val) -> Result<&'a Vals, Stop>
    ensures { GivesMembers (wanted_list at.now (Some (datum_of value.now))) result }
{
    match list_in(value) {
        Some(members) => Ok(members),
        None => Err(Stop::Bad {
            why: EvalWhy::WrongKind,
            at: at.try_clone(alloc)?,
        }),
    }
}

/// A part that is wanted as a list, `None` where it is Later.
pub(crate) fn as_list<'a>(alloc: Global, at: &Txt, part: &'a Got) -> Result<Option<&'a Vals>, Stop>
    ensures { GivesList (as_list at.now (got_found part.now)) result }
{
    match part {
        Got::Value(value) => match wanted_list(alloc, at, value) {
            Ok(members) => Ok(Some(members)),
            Err(stop) => Err(stop),
        },
        Got::NoValue => Err(Stop::Bad {
            why: EvalWhy::WrongKind,
            at: at.try_clone(alloc)?,
        }),
        Got::Later => Ok(None),
    }
}

/// A value that is wanted as an index at a place.
pub(crate) fn wanted_index(alloc: Global, at: &Txt, value: &Val) -> Result<i64, Stop>
    ensures { GivesNow (wanted_index at.now (Some (datum_of value.now))) result }
{
    match index_of(alloc, value)? {
        Some(number) => Ok(number),
        None => Err(Stop::Bad {
            why: EvalWhy::WrongKind,
            at: at.try_clone(alloc)?,
        }),
    }
}
