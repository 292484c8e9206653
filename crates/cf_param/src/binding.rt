ghost use Rattle.std.specs.Prelude.{◌≡◌, [], ◌∷◌, IfOk, map, option_map};
ghost use Rattle.std.specs.Option.{option_copied};
ghost use Rattle.cf_tree.specs.Datum.{text};
ghost use Rattle.cf_funcs.specs.Pieces.{members_of};
ghost use Rattle.cf_param.specs.Fault.{Binds, BindFaults};
ghost use Rattle.cf_param.specs.Binding.{binding_of, bound_to, breach_of, default_of, breach_fault, constrained_texts, setting_from, settings_of, undeclared, setting_value};

use crate::constraints::{Breach, plain_breach};
use crate::fault::BindFault;
use crate::offered::{Given, Piece};
use crate::patterns::pattern_breach;
use cf_funcs::comma_list;
use cf_tree::{Bound, Kind, Names, NoMemory, Param, Params, Setting, Template, Txt, Val, Vals};
use std::alloc::{AllocError, Global};

/// What each parameter of a template is bound to (template reference, Parameters): the text that is given for it, or else its default.
///
/// A `Number` keeps its text; a `List<Number>` and a `CommaDelimitedList` become the list of their members. What is not known yet is
/// `Later`, and breaks no constraint.
///
/// # Errors
///
/// The first in this order: `Undeclared` for the first given name; then for each parameter, in the order of the template, `Missing`,
/// `NotANumber`, `TooShort`, `TooLong`, `TooSmall`, `TooLarge`, `NotAllowed`, `BadPattern`, `NoMatch`. `NoMemory` may come anywhere.
pub fn bind(alloc: Global, template: &Template, given: &Given) -> Result<Bound, BindFault>
    ensures { Binds (binding_of template.now.params given.now) result }
{
    match undeclared(&template.params, given) {
        Some(name) => Err(BindFault::Undeclared {
            name: name.try_clone(alloc)?,
        }),
        None => settings(alloc, &template.params, given),
    }
}

/// The first name that is given and not declared.
fn undeclared<'a>(params: &Params, given: &'a Given) -> Option<&'a Txt>
    ensures { option_copied result ≡ undeclared params.now given.now }
{
    for pair in given.as_slice() {
        if params.find(pair.0.as_str()).is_none() {
            return Some(&pair.0);
        }
    }
    None
}

fn settings(alloc: Global, params: &Params, given: &Given) -> Result<Bound, BindFault>
    ensures { Binds (settings_of params.now given.now []) result }
{
    let mut bound = Bound::new(alloc);
    for param in params.as_slice() {
        let setting = bound_to(alloc, param, given.get(param.name.as_str()))?;
        bound.insert(param.name.try_clone(alloc)?, setting)?;
    }
    Ok(bound)
}

/// What one parameter of a template is bound to: what is given for it, or else its default. What is not known yet is `Later`, and
/// breaks no constraint.
///
/// # Errors
///
/// The first in this order: `Missing`, `NotANumber`, `TooShort`, `TooLong`, `TooSmall`, `TooLarge`, `NotAllowed`, `BadPattern`,
/// `NoMatch`. `NoMemory` may come anywhere.
pub fn bound_to(alloc: Global, param: &Param, piece: Option<&Piece>) -> Result<Setting, BindFault>
    ensures { Binds (bound_to param.now (option_map (λ p. p.now) piece.entry)) result }
{
    match piece {
        Some(Piece::Later) => Ok(Setting::Later),
        Some(Piece::Text(text)) => setting(alloc, param, text.as_str()),
        None => default(alloc, param),
    }
}

fn default(alloc: Global, param: &Param) -> Result<Setting, BindFault>
    ensures { Binds (default_of param.now param.now.default) result }
{
    match &param.default {
        Some(text) => setting(alloc, param, text.as_str()),
        None => Err(BindFault::Missing {
            name: param.name.try_clone(alloc)?,
        }),
    }
}

/// What a text binds a parameter to.
fn setting(alloc: Global, param: &Param, text: &str) -> Result<Setting, BindFault>
    ensures { Binds (setting_from param.now text.now) result }
{
    let parts = parts(alloc, param.kind, text)?;
    match breach(alloc, param, parts.as_slice())? {
        Some(breach) => Err(fault(alloc, &param.name, breach)),
        None => Ok(Setting::Value(value(alloc, param.kind, text, parts)?)),
    }
}

/// The texts that the constraints of a parameter look at.
fn parts(alloc: Global, kind: Kind, text: &str) -> Result<Names, NoMemory>
    ensures { IfOk result (λ ts. ts ≡ constrained_texts kind text.now) }
{
    match kind {
        Kind::Text | Kind::Number => one(alloc, text),
        Kind::Numbers | Kind::Commas => members(alloc, text),
    }
}

fn one(alloc: Global, text: &str) -> Result<Names, NoMemory>
    ensures { IfOk result (λ ts. ts ≡ text.now ∷ []) }
{
    let mut names = Names::new(alloc);
    names.push(Txt::from_str(alloc, text)?)?;
    Ok(names)
}

fn members(alloc: Global, text: &str) -> Result<Names, NoMemory>
    ensures { IfOk result (λ ts. ts ≡ members_of text.now) }
{
    let Ok(texts) = comma_list(alloc, text) else {
        return Err(NoMemory);
    };
    let mut names = Names::new(alloc);
    for text in texts {
        names.push(Txt::new(text))?;
    }
    Ok(names)
}

/// The first constraint that the texts break.
fn breach(alloc: Global, param: &Param, parts: &[Txt]) -> Result<Option<Breach>, NoMemory>
    ensures { IfOk result (λ b. b ≡ breach_of param.now parts.now) }
{
    match plain_breach(param, parts) {
        Some(breach) => Ok(Some(breach)),
        None => pattern_breach(alloc, param, parts),
    }
}

/// How a breach is told.
fn fault(alloc: Global, name: &Txt, breach: Breach) -> BindFault
    ensures { BindFaults (breach_fault name.now breach) result }
{
    let Ok(name) = name.try_clone(alloc) else {
        return BindFault::NoMemory;
    };
    match breach {
        Breach::NotANumber => BindFault::NotANumber { name },
        Breach::TooShort => BindFault::TooShort { name },
        Breach::TooLong => BindFault::TooLong { name },
        Breach::TooSmall => BindFault::TooSmall { name },
        Breach::TooLarge => BindFault::TooLarge { name },
        Breach::NotAllowed => BindFault::NotAllowed { name },
        Breach::BadPattern => BindFault::BadPattern { name },
        Breach::NoMatch => BindFault::NoMatch { name },
    }
}

/// The value of a parameter.
fn value(alloc: Global, kind: Kind, text: &str, parts: Names) -> Result<Val, AllocError>
    requires { parts ≡ constrained_texts kind text.now }
    ensures { IfOk result (λ v. v ≡ setting_value kind text.now) }
{
    match kind {
        Kind::Text | Kind::Number => Ok(Val::Text(Txt::from_str(alloc, text)?)),
        Kind::Numbers | Kind::Commas => Ok(Val::List(list(alloc, parts)?)),
    }
}

fn list(alloc: Global, parts: Names) -> Result<Vals, AllocError>
    ensures { IfOk result (λ vs. vs ≡ map text parts) }
{
    let mut values = Vals::new(alloc);
    for part in parts.into_vec() {
        values.push(Val::Text(part))?;
    }
    Ok(values)
}
