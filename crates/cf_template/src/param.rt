//! The parameters of a template.
ghost use Rattle.std.specs.Prelude.{◌≡◌, [], IfOk};
ghost use Rattle.std.specs.Char.{is_ascii_digit};
ghost use Rattle.std.specs.List.{list_all};
ghost use Rattle.cf_funcs.specs.Number.{are_digits, digits_of, number_of};
ghost use Rattle.serde_json.specs.View.{view, items_view, members_view};
ghost use Rattle.cf_template.specs.Params.{bound_of, is_param_member, found_or, kind_named, kind_form, length_in, length_of, limits_of, param_fields, param_of, param_with, params_in, scalar_of, scalars_of, truth_form, words_of};
ghost use Rattle.cf_template.specs.Shapes.{all_named, has_only, items_from, optional, required};
ghost use Rattle.cf_template.specs.Refusals.{ReadsAs, mapped};

use crate::path::{item_at, member_at};
use crate::refusal::TemplateFault;
use crate::shape::{has, optional_text};
use crate::words::is_name;
use cf_funcs::number;
use cf_tree::{Kind, Names, Param, Params, Txt};
use serde_json::{Map, Value};
use std::alloc::{AllocError, Global};

/// The longest length that a bound may give.
const LONGEST: u64 = 999_999_999;

/// Reads the section of parameters behind those found before.
pub(crate) fn parameters(
    alloc: Global,
    members: &Map<String, Value>,
    at: &Txt,
    found: &mut Params,
) -> Result<(), TemplateFault>
    ensures { ReadsAs (params_in (members_view members.now.entries) at.now found.old) (mapped (λ _. found.new) result) }
{
    for (name, member) in members.iter() {
        let place = member_at(alloc, at.as_str(), name.as_str())?;
        if !is_name(name.as_str()) {
            return Err(TemplateFault::BadName { path: place });
        }
        let parameter = parameter(alloc, name.as_str(), member, &place)?;
        found.push(parameter)?;
    }
    Ok(())
}

fn parameter(alloc: Global, name: &str, value: &Value, at: &Txt) -> Result<Param, TemplateFault>
    ensures { ReadsAs (param_of name.now (view value.now) at.now) result }
{
    if has_only_known(value) && has(value, "Type") {
        fields(alloc, name, value, at)
    } else {
        Err(TemplateFault::WrongShape {
            path: at.try_clone(alloc)?,
        })
    }
}

fn is_param_member(name: &str) -> bool
    ensures { result ≡ is_param_member name.now }
{
    matches!(
        name,
        "AllowedPattern"
            | "AllowedValues"
            | "ConstraintDescription"
            | "Default"
            | "Description"
            | "MaxLength"
            | "MaxValue"
            | "MinLength"
            | "MinValue"
            | "NoEcho"
            | "Type"
    )
}

/// Whether the value is an object with only such members as a parameter has.
fn has_only_known(value: &Value) -> bool
    ensures { result ≡ has_only is_param_member (view value.now) }
{
    match value {
        Value::Object(members) => are_known(members),
        Value::Null | Value::Bool(_) | Value::Number(_) | Value::String(_) | Value::Array(_) =>
            false,
    }
}

fn are_known(members: &Map<String, Value>) -> bool
    ensures { result ≡ all_named is_param_member (members_view members.now.entries) }
{
    for (name, _) in members.iter() {
        if !is_param_member(name.as_str()) {
            return false;
        }
    }
    true
}

/// The members of a parameter that are texts.
#[derive(Drop)]
pub struct Words {
    pub pattern: Option<Txt>,
    pub allowed: Option<Names>,
    pub constraint: Option<Txt>,
    pub default: Option<Txt>,
    pub description: Option<Txt>,
}

/// The members of a parameter that are none.
#[derive(Clone, Copy)]
pub struct Limits {
    pub max_length: Option<u64>,
    pub max_value: Option<i128>,
    pub min_length: Option<u64>,
    pub min_value: Option<i128>,
    pub no_echo: Option<bool>,
    pub kind: Kind,
}

fn fields(alloc: Global, name: &str, object: &Value, at: &Txt) -> Result<Param, TemplateFault>
    ensures { ReadsAs (param_fields name.now (view object.now) at.now) result }
{
    let words = words_of(alloc, object, at)?;
    match limits_of(alloc, object, at) {
        Ok(limits) => Ok(parameter_with(alloc, name, words, limits)?),
        Err(fault) => {
            drop(words);
            Err(fault)
        }
    }
}

fn parameter_with(
    alloc: Global,
    name: &str,
    words: Words,
    limits: Limits,
) -> Result<Param, AllocError>
    ensures { IfOk result (λ p. p ≡ param_with name.now words limits) }
{
    match Txt::from_str(alloc, name) {
        Ok(name) => Ok(Param {
            name,
            kind: limits.kind,
            default: words.default,
            allowed: words.allowed,
            pattern: words.pattern,
            min_length: limits.min_length,
            max_length: limits.max_length,
            min_value: limits.min_value,
            max_value: limits.max_value,
            no_echo: limits.no_echo.unwrap_or(false),
            description: words.description,
            constraint: words.constraint,
        }),
        Err(failed) => {
            drop(words);
            Err(failed)
        }
    }
}

fn words_of(alloc: Global, object: &Value, at: &Txt) -> Result<Words, TemplateFault>
    ensures { ReadsAs (words_of (view object.now) at.now) result }
{
    let mut words = Words {
        pattern: None,
        allowed: None,
        constraint: None,
        default: None,
        description: None,
    };
    match read_words(alloc, object, at, &mut words) {
        Ok(()) => Ok(words),
        Err(fault) => {
            drop(words);
            Err(fault)
        }
    }
}

/// Reads each of the members that are texts into its place. After an error nothing is said of what stands there.
fn read_words(
    alloc: Global,
    object: &Value,
    at: &Txt,
    words: &mut Words,
) -> Result<(), TemplateFault>
    ensures { ReadsAs (words_of (view object.now) at.now) (mapped (λ _. words.new) result) }
{
    words.pattern = optional_text(alloc, object, "AllowedPattern", at)?;
    words.allowed = optional_scalars(alloc, object, "AllowedValues", at)?;
    words.constraint = optional_text(alloc, object, "ConstraintDescription", at)?;
    words.default = optional_scalar(alloc, object, "Default", at)?;
    words.description = optional_text(alloc, object, "Description", at)?;
    Ok(())
}

fn limits_of(alloc: Global, object: &Value, at: &Txt) -> Result<Limits, TemplateFault>
    ensures { ReadsAs (limits_of (view object.now) at.now) result }
{
    let max_length = optional_length(alloc, object, "MaxLength", at)?;
    let max_value = optional_bound(alloc, object, "MaxValue", at)?;
    let min_length = optional_length(alloc, object, "MinLength", at)?;
    let min_value = optional_bound(alloc, object, "MinValue", at)?;
    let no_echo = optional_truth(alloc, object, "NoEcho", at)?;
    let kind = required_kind(alloc, object, "Type", at)?;
    Ok(Limits {
        max_length,
        max_value,
        min_length,
        min_value,
        no_echo,
        kind,
    })
}

/// A text, a whole number or a truth value, as a text.
fn scalar(alloc: Global, value: &Value, at: Txt) -> Result<Txt, TemplateFault>
    ensures { ReadsAs (scalar_of (view value.now) at) result }
{
    match value {
        Value::String(text) => Ok(Txt::from_str(alloc, text.as_str())?),
        Value::Bool(true) => Ok(Txt::from_str(alloc, "true")?),
        Value::Bool(false) => Ok(Txt::from_str(alloc, "false")?),
        Value::Number(number) => match number.as_i64() {
            Some(whole) => Ok(Txt::new(whole.to_string(alloc)?)),
            None => Err(TemplateFault::WrongShape { path: at }),
        },
        Value::Null | Value::Array(_) | Value::Object(_) => Err(TemplateFault::WrongShape {
            path: at,
        }),
    }
}

fn optional_scalar(
    alloc: Global,
    object: &Value,
    name: &str,
    at: &Txt,
) -> Result<Option<Txt>, TemplateFault>
    ensures { ReadsAs (optional scalar_of name.now (view object.now) at.now) result }
{
    match object.get(name) {
        Some(value) => {
            let place = member_at(alloc, at.as_str(), name)?;
            Ok(Some(scalar(alloc, value, place)?))
        }
        None => Ok(None),
    }
}

fn scalars(alloc: Global, value: &Value, at: Txt) -> Result<Names, TemplateFault>
    ensures { ReadsAs (scalars_of (view value.now) at) result }
{
    match value {
        Value::Array(items) => each_scalar(alloc, items, &at),
        Value::Null | Value::Bool(_) | Value::Number(_) | Value::String(_) | Value::Object(_) => {
            Err(TemplateFault::WrongShape { path: at })
        }
    }
}

fn each_scalar(alloc: Global, items: &Vec<Value>, at: &Txt) -> Result<Names, TemplateFault>
    ensures { ReadsAs (items_from scalar_of (items_view items.now.items) at.now 0 []) result }
{
    let mut found = Names::new(alloc);
    let mut index = 0;
    for item in items {
        let place = item_at(alloc, at.as_str(), index)?;
        found.push(scalar(alloc, item, place)?)?;
        index += 1;
    }
    Ok(found)
}

fn optional_scalars(
    alloc: Global,
    object: &Value,
    name: &str,
    at: &Txt,
) -> Result<Option<Names>, TemplateFault>
    ensures { ReadsAs (optional scalars_of name.now (view object.now) at.now) result }
{
    match object.get(name) {
        Some(value) => {
            let place = member_at(alloc, at.as_str(), name)?;
            Ok(Some(scalars(alloc, value, place)?))
        }
        None => Ok(None),
    }
}

/// A bound on lengths: 0 to 999,999,999, as a number or in 1 to 18 digits.
fn length(value: &Value, at: Txt) -> Result<u64, TemplateFault>
    ensures { ReadsAs (length_of (view value.now) at) result }
{
    match length_in(value) {
        Some(length) => {
            if length <= LONGEST {
                Ok(length)
            } else {
                Err(TemplateFault::WrongShape { path: at })
            }
        }
        None => Err(TemplateFault::WrongShape { path: at }),
    }
}

/// What a number or 1 to 18 digits write.
fn length_in(value: &Value) -> Option<u64>
    ensures { result ≡ length_in (view value.now) }
{
    match value {
        Value::Number(number) => number.as_u64(),
        Value::String(text) => digits(text.as_str()),
        Value::Null | Value::Bool(_) | Value::Array(_) | Value::Object(_) => None,
    }
}

/// What 1 to 18 digits write.
fn digits(text: &str) -> Option<u64>
    ensures { result ≡ digits_of 18 text.now }
{
    if are_digits(text) {
        text.parse::<u64>().ok()
    } else {
        None
    }
}

fn are_digits(text: &str) -> bool
    ensures { result ≡ are_digits 18 text.now }
{
    !text.is_empty() && text.len() <= 18 && all_digits(text.as_bytes())
}

fn all_digits(bytes: &[u8]) -> bool
    ensures { result ≡ list_all is_ascii_digit bytes.now }
{
    bytes.iter().all(|byte| byte.is_ascii_digit())
}

fn optional_length(
    alloc: Global,
    object: &Value,
    name: &str,
    at: &Txt,
) -> Result<Option<u64>, TemplateFault>
    ensures { ReadsAs (optional length_of name.now (view object.now) at.now) result }
{
    match object.get(name) {
        Some(value) => {
            let place = member_at(alloc, at.as_str(), name)?;
            Ok(Some(length(value, place)?))
        }
        None => Ok(None),
    }
}

/// A bound on values, in 10^-9: a number text, or a number whose decimal text is one.
fn bound(alloc: Global, value: &Value, at: Txt) -> Result<i128, TemplateFault>
    ensures { ReadsAs (bound_of (view value.now) at) result }
{
    match value {
        Value::Number(whole) => match whole.as_i64() {
            Some(whole) => {
                let text = whole.to_string(alloc)?;
                bound_text(text.as_str(), at)
            }
            None => Err(TemplateFault::WrongShape { path: at }),
        },
        Value::String(text) => bound_text(text.as_str(), at),
        Value::Null | Value::Bool(_) | Value::Array(_) | Value::Object(_) => Err(
            TemplateFault::WrongShape { path: at },
        ),
    }
}

fn bound_text(text: &str, at: Txt) -> Result<i128, TemplateFault>
    ensures { ReadsAs (found_or at (number_of text.now)) result }
{
    match number(text) {
        Some(value) => Ok(value),
        None => Err(TemplateFault::WrongShape { path: at }),
    }
}

fn optional_bound(
    alloc: Global,
    object: &Value,
    name: &str,
    at: &Txt,
) -> Result<Option<i128>, TemplateFault>
    ensures { ReadsAs (optional bound_of name.now (view object.now) at.now) result }
{
    match object.get(name) {
        Some(value) => {
            let place = member_at(alloc, at.as_str(), name)?;
            Ok(Some(bound(alloc, value, place)?))
        }
        None => Ok(None),
    }
}

/// A truth value, also as a text.
fn truth(value: &Value, at: Txt) -> Result<bool, TemplateFault>
    ensures { ReadsAs (truth_form (view value.now) at) result }
{
    match value {
        Value::Bool(truth) => Ok(*truth),
        Value::String(text) => {
            if text.as_str() == "true" {
                Ok(true)
            } else if text.as_str() == "false" {
                Ok(false)
            } else {
                Err(TemplateFault::WrongShape { path: at })
            }
        }
        Value::Null | Value::Number(_) | Value::Array(_) | Value::Object(_) => Err(
            TemplateFault::WrongShape { path: at },
        ),
    }
}

fn optional_truth(
    alloc: Global,
    object: &Value,
    name: &str,
    at: &Txt,
) -> Result<Option<bool>, TemplateFault>
    ensures { ReadsAs (optional truth_form name.now (view object.now) at.now) result }
{
    match object.get(name) {
        Some(value) => {
            let place = member_at(alloc, at.as_str(), name)?;
            Ok(Some(truth(value, place)?))
        }
        None => Ok(None),
    }
}

fn kind(alloc: Global, value: &Value, at: Txt) -> Result<Kind, TemplateFault>
    ensures { ReadsAs (kind_form (view value.now) at) result }
{
    match value {
        Value::String(text) => kind_named(alloc, text.as_str(), at),
        Value::Null | Value::Bool(_) | Value::Number(_) | Value::Array(_) | Value::Object(_) => {
            Err(TemplateFault::WrongShape { path: at })
        }
    }
}

fn kind_named(alloc: Global, text: &str, at: Txt) -> Result<Kind, TemplateFault>
    ensures { ReadsAs (kind_named text.now at) result }
{
    match text {
        "String" => Ok(Kind::Text),
        "Number" => Ok(Kind::Number),
        "List<Number>" => Ok(Kind::Numbers),
        "CommaDelimitedList" => Ok(Kind::Commas),
        _ => Err(TemplateFault::Unsupported {
            path: at,
            name: Txt::from_str(alloc, text)?,
        }),
    }
}

fn required_kind(alloc: Global, object: &Value, name: &str, at: &Txt) -> Result<Kind, TemplateFault>
    ensures { ReadsAs (required kind_form name.now (view object.now) at.now) result }
{
    match object.get(name) {
        Some(value) => {
            let place = member_at(alloc, at.as_str(), name)?;
            kind(alloc, value, place)
        }
        None => Err(TemplateFault::WrongShape {
            path: at.try_clone(alloc)?,
        }),
    }
}
