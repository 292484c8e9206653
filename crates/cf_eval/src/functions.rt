//! The intrinsic functions, over their evaluated parts.
ghost use Rattle.std.specs.Prelude.{◌≡◌, IfOk, Some, map, option_map, string_bytes};
ghost use Rattle.cf_tree.specs.Value.{datum_of, data_of};
ghost use Rattle.cf_eval.specs.Texts.{wanted_text};
ghost use Rattle.cf_eval.specs.Functions.{base64_found, split_found, split_at, join_found, select_found, nth, joined_by};
ghost use Rattle.cf_eval.specs.Outcome.{got, bad, fault, each};
ghost use Rattle.cf_tree.specs.Datum.{text};
ghost use Rattle.cf_eval.specs.declared.fault.EvalWhy.TheVariants.{IndexOutside};
ghost use Rattle.cf_eval.specs.Gives.{got_found, Gives, GivesNow, GivesTexts};

use crate::fault::{EvalWhy, Stop};
use crate::got::Got;
use crate::texts::{as_list, as_text, wanted_index, wanted_list, wanted_text};
use cf_funcs::base64_of;
use cf_tree::{Txt, Val, Vals};
use std::alloc::{AllocError, Global};

/// `Fn::Base64`.
pub(crate) fn base64(alloc: Global, at: &Txt, part: &Got) -> Result<Got, Stop>
    ensures { Gives (base64_found at.now (got_found part.now)) result }
{
    match as_text(alloc, at, part)? {
        Some(text) => {
            let encoded = base64_of(alloc, text.as_str())?;
            Ok(Got::Value(Val::Text(Txt::new(encoded))))
        }
        None => Ok(Got::Later),
    }
}

/// `Fn::Join`.
pub(crate) fn join(alloc: Global, at: &Txt, delimiter: &Txt, part: &Got) -> Result<Got, Stop>
    ensures { Gives (join_found at.now delimiter.now (got_found part.now)) result }
{
    match as_list(alloc, at, part)? {
        Some(members) => {
            let texts = texts_of(alloc, at, members)?;
            let text = joined(alloc, delimiter, texts.as_slice())?;
            Ok(Got::Value(Val::Text(Txt::new(text))))
        }
        None => Ok(Got::Later),
    }
}

#[tactic(auto, using(crate::proofs::Each::each_is))]
fn texts_of(alloc: Global, at: &Txt, members: &Vals) -> Result<Vec<Txt>, Stop>
    ensures { GivesTexts (each (map (λ m. wanted_text at.now (Some m)) members.now)) result }
{
    let mut texts = Vec::new(alloc);
    for member in members.as_slice() {
        texts.push(wanted_text(alloc, at, member)?)?;
    }
    Ok(texts)
}

fn joined(alloc: Global, delimiter: &Txt, texts: &[Txt]) -> Result<String, AllocError>
    ensures { IfOk result (λ s. string_bytes s ≡ joined_by delimiter.now texts.now) }
{
    let mut joined = String::new(alloc);
    let Some((first, rest)) = texts.split_first() else {
        return Ok(joined);
    };
    joined.push_str(first.as_str())?;
    for text in rest {
        joined.push_str(delimiter.as_str())?;
        joined.push_str(text.as_str())?;
    }
    Ok(joined)
}

/// `Fn::Select`.
pub(crate) fn select(alloc: Global, at: &Txt, index: &Got, list: &Got) -> Result<Got, Stop>
    ensures { Gives (select_found at.now (got_found index.now) (got_found list.now)) result }
{
    match (index, list) {
        (Got::Later, _) | (_, Got::Later) => Ok(Got::Later),
        (Got::Value(index), Got::Value(list)) => {
            let number = wanted_index(alloc, at, index)?;
            let members = wanted_list(alloc, at, list)?;
            nth(alloc, at, members, number)
        }
        _ => Err(Stop::Bad {
            why: EvalWhy::WrongKind,
            at: at.try_clone(alloc)?,
        }),
    }
}

fn nth(alloc: Global, at: &Txt, members: &Vals, number: i64) -> Result<Got, Stop>
    ensures { Gives (nth at.now members.now number) result }
{
    if number < 0 {
        return outside(alloc, at);
    }
    match members.as_slice().get(number as usize) {
        Some(member) => Ok(Got::Value(member.try_clone(alloc)?)),
        None => outside(alloc, at),
    }
}

fn outside(alloc: Global, at: &Txt) -> Result<Got, Stop>
    ensures { Gives (bad (fault IndexOutside at.now)) result }
{
    Err(Stop::Bad {
        why: EvalWhy::IndexOutside,
        at: at.try_clone(alloc)?,
    })
}

/// `Fn::Split`.
pub(crate) fn split(alloc: Global, at: &Txt, delimiter: &Txt, part: &Got) -> Result<Got, Stop>
    ensures { Gives (split_found at.now delimiter.now (got_found part.now)) result }
{
    match as_text(alloc, at, part)? {
        Some(text) => split_at(alloc, at, delimiter, &text),
        None => Ok(Got::Later),
    }
}

fn split_at(alloc: Global, at: &Txt, delimiter: &Txt, text: &Txt) -> Result<Got, Stop>
    ensures { Gives (split_at at.now delimiter.now text.now) result }
{
    if delimiter.as_str().is_empty() {
        return Err(Stop::Bad {
            why: EvalWhy::WrongKind,
            at: at.try_clone(alloc)?,
        });
    }
    let pieces = cf_funcs::split(alloc, delimiter.as_str(), text.as_str())?;
    let values = texts_as_values(alloc, pieces.as_slice())?;
    Ok(Got::Value(Val::List(values)))
}

fn texts_as_values(alloc: Global, texts: &[String]) -> Result<Vals, AllocError>
    ensures { IfOk result (λ v. v ≡ map text (map string_bytes texts.now)) }
{
    let mut values = Vals::new(alloc);
    for text in texts {
        values.push(Val::Text(Txt::from_str(alloc, text.as_str())?))?;
    }
    Ok(values)
}
