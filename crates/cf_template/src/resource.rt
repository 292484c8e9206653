//! The resources of a template.
ghost use Rattle.std.specs.Prelude.{◌≡◌, []};
ghost use Rattle.serde_json.specs.Data.{object};
ghost use Rattle.serde_json.specs.View.{view, members_view};
ghost use Rattle.cf_template.specs.Exprs.{values_of};
ghost use Rattle.cf_template.specs.Resources.{deletion_form, deletion_named, depends_form, replace_named, replace_of, resource_fields, resource_member_fault, resource_members_fault, resource_of, resources_in, is_resource_member, is_untaken_member};
ghost use Rattle.cf_template.specs.Shapes.{optional};
ghost use Rattle.cf_template.specs.Refusals.{ReadsAs, Finds, mapped};

use crate::expr::map_of;
use crate::path::member_at;
use crate::refusal::TemplateFault;
use crate::shape::{has, optional_text, plain_texts, required_text, skip_object};
use crate::words::is_name;
use cf_tree::{Deletion, ExprDict, Names, Params, Replace, Res, Resources, Txt};
use serde_json::{Map, Value};
use std::alloc::Global;

/// Reads the section of resources behind those found before.
pub(crate) fn resources(
    alloc: Global,
    params: &Params,
    members: &Map<String, Value>,
    at: &Txt,
    found: &mut Resources,
) -> Result<(), TemplateFault>
    ensures { ReadsAs (resources_in params.now (members_view members.now.entries) at.now found.old) (mapped (λ _. found.new) result) }
{
    for (name, member) in members.iter() {
        let place = member_at(alloc, at.as_str(), name.as_str())?;
        if !is_name(name.as_str()) {
            return Err(TemplateFault::BadName { path: place });
        }
        let resource = resource(alloc, params, name.as_str(), member, &place)?;
        found.push(resource)?;
    }
    Ok(())
}

fn resource(
    alloc: Global,
    params: &Params,
    name: &str,
    value: &Value,
    at: &Txt,
) -> Result<Res, TemplateFault>
    ensures { ReadsAs (resource_of params.now name.now (view value.now) at.now) result }
{
    let Value::Object(members) = value else {
        return Err(TemplateFault::WrongShape {
            path: at.try_clone(alloc)?,
        });
    };
    test_members(alloc, members, at)?;
    if has(value, "Type") {
        fields(alloc, params, name, value, at)
    } else {
        Err(TemplateFault::WrongShape {
            path: at.try_clone(alloc)?,
        })
    }
}

/// Refuses the first member that a resource may not have.
fn test_members(alloc: Global, members: &Map<String, Value>, at: &Txt) -> Result<(), TemplateFault>
    ensures { Finds (resource_members_fault (members_view members.now.entries) at.now) result }
{
    for (name, _) in members.iter() {
        test_member(alloc, name.as_str(), at)?;
    }
    Ok(())
}

fn test_member(alloc: Global, name: &str, at: &Txt) -> Result<(), TemplateFault>
    ensures { Finds (resource_member_fault name.now at.now) result }
{
    if is_resource_member(name) {
        Ok(())
    } else if is_untaken_member(name) {
        Err(TemplateFault::Unsupported {
            path: member_at(alloc, at.as_str(), name)?,
            name: Txt::from_str(alloc, name)?,
        })
    } else {
        Err(TemplateFault::WrongShape {
            path: at.try_clone(alloc)?,
        })
    }
}

fn is_resource_member(name: &str) -> bool
    ensures { result ≡ is_resource_member name.now }
{
    matches!(
        name,
        "Condition"
            | "DeletionPolicy"
            | "DependsOn"
            | "Metadata"
            | "Properties"
            | "Type"
            | "UpdateReplacePolicy"
    )
}

fn is_untaken_member(name: &str) -> bool
    ensures { result ≡ is_untaken_member name.now }
{
    matches!(name, "CreationPolicy" | "UpdatePolicy")
}

fn fields(
    alloc: Global,
    params: &Params,
    name: &str,
    object: &Value,
    at: &Txt,
) -> Result<Res, TemplateFault>
    ensures { ReadsAs (resource_fields params.now name.now (view object.now) at.now) result }
{
    let condition = optional_text(alloc, object, "Condition", at)?;
    let deletion = optional_deletion(alloc, object, "DeletionPolicy", at)?;
    let depends = optional_names(alloc, object, "DependsOn", at)?;
    skip_object(alloc, object, "Metadata", at)?;
    let props = optional_values(alloc, params, object, "Properties", at)?;
    let kind = required_text(alloc, object, "Type", at)?;
    let replace = optional_replace(alloc, object, "UpdateReplacePolicy", at)?;
    Ok(Res {
        name: Txt::from_str(alloc, name)?,
        kind,
        props: props.unwrap_or(ExprDict::new(alloc)),
        depends: depends.unwrap_or(Names::new(alloc)),
        condition,
        deletion,
        replace,
    })
}

/// A text, or a list of texts.
fn names(alloc: Global, value: &Value, at: Txt) -> Result<Names, TemplateFault>
    ensures { ReadsAs (depends_form (view value.now) at) result }
{
    match value {
        Value::String(text) => {
            let mut found = Names::new(alloc);
            found.push(Txt::from_str(alloc, text.as_str())?)?;
            Ok(found)
        }
        Value::Array(items) => plain_texts(alloc, items, &at),
        Value::Null | Value::Bool(_) | Value::Number(_) | Value::Object(_) => {
            Err(TemplateFault::WrongShape { path: at })
        }
    }
}

fn optional_names(
    alloc: Global,
    object: &Value,
    name: &str,
    at: &Txt,
) -> Result<Option<Names>, TemplateFault>
    ensures { ReadsAs (optional depends_form name.now (view object.now) at.now) result }
{
    match object.get(name) {
        Some(value) => {
            let place = member_at(alloc, at.as_str(), name)?;
            Ok(Some(names(alloc, value, place)?))
        }
        None => Ok(None),
    }
}

fn optional_values(
    alloc: Global,
    params: &Params,
    object: &Value,
    name: &str,
    at: &Txt,
) -> Result<Option<ExprDict>, TemplateFault>
    ensures { ReadsAs (optional (values_of params.now) name.now (view object.now) at.now) result }
{
    match object.get(name) {
        Some(value) => {
            let place = member_at(alloc, at.as_str(), name)?;
            Ok(Some(map_of(alloc, params, value, place)?))
        }
        None => Ok(None),
    }
}

fn deletion(alloc: Global, value: &Value, at: Txt) -> Result<Deletion, TemplateFault>
    ensures { ReadsAs (deletion_form (view value.now) at) result }
{
    match value {
        Value::String(text) => deletion_named(alloc, text.as_str(), at),
        Value::Null | Value::Bool(_) | Value::Number(_) | Value::Array(_) | Value::Object(_) => {
            Err(TemplateFault::WrongShape { path: at })
        }
    }
}

fn deletion_named(alloc: Global, text: &str, at: Txt) -> Result<Deletion, TemplateFault>
    ensures { ReadsAs (deletion_named text.now at) result }
{
    match text {
        "Delete" => Ok(Deletion::Delete),
        "Retain" => Ok(Deletion::Retain),
        "RetainExceptOnCreate" => Ok(Deletion::RetainExceptOnCreate),
        "Snapshot" => Err(TemplateFault::Unsupported {
            path: at,
            name: Txt::from_str(alloc, text)?,
        }),
        _ => Err(TemplateFault::WrongShape { path: at }),
    }
}

fn optional_deletion(
    alloc: Global,
    object: &Value,
    name: &str,
    at: &Txt,
) -> Result<Option<Deletion>, TemplateFault>
    ensures { ReadsAs (optional deletion_form name.now (view object.now) at.now) result }
{
    match object.get(name) {
        Some(value) => {
            let place = member_at(alloc, at.as_str(), name)?;
            Ok(Some(deletion(alloc, value, place)?))
        }
        None => Ok(None),
    }
}

fn replace(alloc: Global, value: &Value, at: Txt) -> Result<Replace, TemplateFault>
    ensures { ReadsAs (replace_of (view value.now) at) result }
{
    match value {
        Value::String(text) => replace_named(alloc, text.as_str(), at),
        Value::Null | Value::Bool(_) | Value::Number(_) | Value::Array(_) | Value::Object(_) => {
            Err(TemplateFault::WrongShape { path: at })
        }
    }
}

fn replace_named(alloc: Global, text: &str, at: Txt) -> Result<Replace, TemplateFault>
    ensures { ReadsAs (replace_named text.now at) result }
{
    match text {
        "Delete" => Ok(Replace::Delete),
        "Retain" => Ok(Replace::Retain),
        "Snapshot" => Err(TemplateFault::Unsupported {
            path: at,
            name: Txt::from_str(alloc, text)?,
        }),
        _ => Err(TemplateFault::WrongShape { path: at }),
    }
}

fn optional_replace(
    alloc: Global,
    object: &Value,
    name: &str,
    at: &Txt,
) -> Result<Option<Replace>, TemplateFault>
    ensures { ReadsAs (optional replace_of name.now (view object.now) at.now) result }
{
    match object.get(name) {
        Some(value) => {
            let place = member_at(alloc, at.as_str(), name)?;
            Ok(Some(replace(alloc, value, place)?))
        }
        None => Ok(None),
    }
}
