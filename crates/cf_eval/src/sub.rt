//! `Fn::Sub`.
ghost use Rattle.std.specs.Prelude.{◌≡◌, IfOk, map, option_map, string_bytes};
ghost use Rattle.std.specs.Option.{option_copied};
ghost use Rattle.std.specs.List.{concat};
ghost use Rattle.cf_tree.specs.Keys.{value_at};
ghost use Rattle.cf_eval.specs.Functions.{sub_found, piece_found, put_together};
ghost use Rattle.cf_eval.specs.Outcome.{each};
ghost use Rattle.cf_eval.specs.Texts.{wanted_text};
ghost use Rattle.cf_eval.specs.Gives.{got_found, member_found, got_value, Gives, GivesAll, GivesTexts};
ghost use Rattle.cf_eval.specs.ScopeOf.{scope_of};

use crate::collect::{any_late, late_binding};
use crate::fault::{EvalWhy, Stop};
use crate::got::Got;
use crate::names::named;
use crate::scope::Scope;
use crate::texts::wanted_text;
use cf_tree::{Part, Parts, Txt, Val};
use std::alloc::{AllocError, Global};

/// `Fn::Sub`, over the members of its own map.
#[tactic(auto, using(crate::proofs::Gots::pieces_stop, crate::proofs::Gots::each_of_gots, crate::proofs::Gots::each_of_outcomes))]
pub(crate) fn sub(
    alloc: Global,
    scope: &Scope,
    at: &Txt,
    own: &[(Txt, Got)],
    parts: &Parts,
) -> Result<Got, Stop>
    ensures { Gives (sub_found (scope_of scope.now) at.now (map member_found own.now) parts.now) result }
{
    let pieces = pieces(alloc, scope, at, own, parts)?;
    if late_binding(own) || any_late(pieces.as_slice()) {
        return Ok(Got::Later);
    }
    put_together(alloc, at, pieces.as_slice())
}

/// The pieces of the text, up to the first fault.
fn pieces(
    alloc: Global,
    scope: &Scope,
    at: &Txt,
    own: &[(Txt, Got)],
    parts: &Parts,
) -> Result<Vec<Got>, Stop>
    ensures { GivesAll (map (piece_found (scope_of scope.now) at.now (map member_found own.now)) parts.now) result }
{
    let mut pieces = Vec::new(alloc);
    for part in parts.as_slice() {
        match piece(alloc, scope, at, own, part) {
            Ok(got) => pieces.push(got)?,
            Err(stop) => return Err(stop),
        }
    }
    Ok(pieces)
}

fn piece(
    alloc: Global,
    scope: &Scope,
    at: &Txt,
    own: &[(Txt, Got)],
    part: &Part,
) -> Result<Got, Stop>
    ensures { Gives (piece_found (scope_of scope.now) at.now (map member_found own.now) part.now) result }
{
    match part {
        Part::Plain(text) => Ok(Got::Value(Val::Text(text.try_clone(alloc)?))),
        Part::Name(name) => match own_value(own, name) {
            Some(got) => Ok(copied(alloc, got)?),
            None => named(alloc, scope, at, name),
        },
    }
}

/// What stands under a name in the function's own map.
fn own_value<'a>(own: &'a [(Txt, Got)], name: &Txt) -> Option<&'a Got>
    ensures { option_map got_found (option_copied result) ≡ value_at name.now (map member_found own.now) }
{
    for binding in own {
        if binding.0.is(name.as_str()) {
            return Some(&binding.1);
        }
    }
    None
}

fn copied(alloc: Global, got: &Got) -> Result<Got, AllocError>
    ensures { IfOk result (λ g. got_found g ≡ got_found got.now) }
{
    match got {
        Got::Value(value) => Ok(Got::Value(value.try_clone(alloc)?)),
        Got::NoValue => Ok(Got::NoValue),
        Got::Later => Ok(Got::Later),
    }
}

/// Pieces put together, each as a text.
fn put_together(alloc: Global, at: &Txt, pieces: &[Got]) -> Result<Got, Stop>
    ensures { Gives (put_together at.now (map got_value pieces.now)) result }
{
    let texts = texts_of(alloc, at, pieces)?;
    let text = concatenated(alloc, texts.as_slice())?;
    Ok(Got::Value(Val::Text(Txt::new(text))))
}

#[tactic(auto, using(crate::proofs::Each::each_is))]
fn texts_of(alloc: Global, at: &Txt, pieces: &[Got]) -> Result<Vec<Txt>, Stop>
    ensures { GivesTexts (each (map (wanted_text at.now) (map got_value pieces.now))) result }
{
    let mut texts = Vec::new(alloc);
    for piece in pieces {
        match piece {
            Got::Value(value) => texts.push(wanted_text(alloc, at, value)?)?,
            _ => {
                return Err(Stop::Bad {
                    why: EvalWhy::WrongKind,
                    at: at.try_clone(alloc)?,
                });
            }
        }
    }
    Ok(texts)
}

fn concatenated(alloc: Global, texts: &[Txt]) -> Result<String, AllocError>
    ensures { IfOk result (λ s. string_bytes s ≡ concat texts.now) }
{
    let mut whole = String::new(alloc);
    for text in texts {
        whole.push_str(text.as_str())?;
    }
    Ok(whole)
}
