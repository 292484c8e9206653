//! The outputs of a template.
ghost use Rattle.std.specs.Prelude.{◌≡◌, []};
ghost use Rattle.serde_json.specs.View.{view, members_view};
ghost use Rattle.cf_template.specs.Exprs.{form_of};
ghost use Rattle.cf_template.specs.Outputs.{export_form, is_output_member, output_fields, output_form, outputs_form};
ghost use Rattle.cf_template.specs.Shapes.{all_named, has_only, optional, required};
ghost use Rattle.cf_template.specs.Refusals.{ReadsAs, mapped};

use crate::expr::value;
use crate::path::member_at;
use crate::refusal::TemplateFault;
use crate::shape::{has, optional_text};
use crate::words::is_name;
use cf_tree::{Expr, Out, Outs, Params, Txt};
use serde_json::{Map, Value};
use std::alloc::Global;

/// Reads the section of outputs behind those found before.
pub(crate) fn outputs(
    alloc: Global,
    params: &Params,
    members: &Map<String, Value>,
    at: &Txt,
    found: &mut Outs,
) -> Result<(), TemplateFault>
    ensures { ReadsAs (outputs_form params.now (members_view members.now.entries) at.now found.old) (mapped (λ _. found.new) result) }
{
    for (name, member) in members.iter() {
        let place = member_at(alloc, at.as_str(), name.as_str())?;
        if !is_name(name.as_str()) {
            return Err(TemplateFault::BadName { path: place });
        }
        let output = output(alloc, params, name.as_str(), member, &place)?;
        found.push(output)?;
    }
    Ok(())
}

fn output(
    alloc: Global,
    params: &Params,
    name: &str,
    value: &Value,
    at: &Txt,
) -> Result<Out, TemplateFault>
    ensures { ReadsAs (output_form params.now name.now (view value.now) at.now) result }
{
    if has_only_known(value) && has(value, "Value") {
        fields(alloc, params, name, value, at)
    } else {
        Err(TemplateFault::WrongShape {
            path: at.try_clone(alloc)?,
        })
    }
}

fn is_output_member(name: &str) -> bool
    ensures { result ≡ is_output_member name.now }
{
    matches!(name, "Condition" | "Description" | "Export" | "Value")
}

/// Whether the value is an object with only such members as an output has.
fn has_only_known(value: &Value) -> bool
    ensures { result ≡ has_only is_output_member (view value.now) }
{
    match value {
        Value::Object(members) => are_known(members),
        Value::Null | Value::Bool(_) | Value::Number(_) | Value::String(_) | Value::Array(_) =>
            false,
    }
}

fn are_known(members: &Map<String, Value>) -> bool
    ensures { result ≡ all_named is_output_member (members_view members.now.entries) }
{
    for (name, _) in members.iter() {
        if !is_output_member(name.as_str()) {
            return false;
        }
    }
    true
}

fn fields(
    alloc: Global,
    params: &Params,
    name: &str,
    object: &Value,
    at: &Txt,
) -> Result<Out, TemplateFault>
    ensures { ReadsAs (output_fields params.now name.now (view object.now) at.now) result }
{
    let name = Txt::from_str(alloc, name)?;
    let condition = optional_text(alloc, object, "Condition", at)?;
    let description = optional_text(alloc, object, "Description", at)?;
    let export = optional_export(alloc, params, object, "Export", at)?;
    match required_value(alloc, params, object, "Value", at) {
        Ok(value) => Ok(Out {
            name,
            value,
            description,
            condition,
            export,
        }),
        Err(fault) => {
            drop(export);
            Err(fault)
        }
    }
}

/// An object with the one member `Name`.
fn export(alloc: Global, params: &Params, object: &Value, at: Txt) -> Result<Expr, TemplateFault>
    ensures { ReadsAs (export_form params.now (view object.now) at) result }
{
    let Value::Object(members) = object else {
        return Err(TemplateFault::WrongShape { path: at });
    };
    let mut left = members.iter();
    let (Some((key, name)), None) = (left.next(), left.next()) else {
        return Err(TemplateFault::WrongShape { path: at });
    };
    if key.as_str() == "Name" {
        let place = member_at(alloc, at.as_str(), key.as_str())?;
        value(alloc, params, name, place)
    } else {
        Err(TemplateFault::WrongShape { path: at })
    }
}

fn optional_export(
    alloc: Global,
    params: &Params,
    object: &Value,
    name: &str,
    at: &Txt,
) -> Result<Option<Expr>, TemplateFault>
    ensures { ReadsAs (optional (export_form params.now) name.now (view object.now) at.now) result }
{
    match object.get(name) {
        Some(value) => {
            let place = member_at(alloc, at.as_str(), name)?;
            Ok(Some(export(alloc, params, value, place)?))
        }
        None => Ok(None),
    }
}

fn required_value(
    alloc: Global,
    params: &Params,
    object: &Value,
    name: &str,
    at: &Txt,
) -> Result<Expr, TemplateFault>
    ensures { ReadsAs (required (form_of params.now) name.now (view object.now) at.now) result }
{
    match object.get(name) {
        Some(found) => {
            let place = member_at(alloc, at.as_str(), name)?;
            value(alloc, params, found, place)
        }
        None => Err(TemplateFault::WrongShape {
            path: at.try_clone(alloc)?,
        }),
    }
}
