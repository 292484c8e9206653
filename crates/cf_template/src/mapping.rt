//! The mappings of a template.
ghost use Rattle.std.specs.Prelude.{◌≡◌, []};
ghost use Rattle.cf_tree.specs.Value.{datum_of};
ghost use Rattle.serde_json.specs.View.{view, items_view, members_view};
ghost use Rattle.cf_template.specs.Maps.{mapped_text, mapped_value, mapping_of, mappings_in, mapping_row, rows_in, values_in};
ghost use Rattle.cf_template.specs.Shapes.{items_from};
ghost use Rattle.cf_template.specs.Refusals.{ReadsAs, GivesBy, mapped};

use crate::path::{item_at, member_at};
use crate::refusal::TemplateFault;
use crate::shape::plain_text;
use crate::words::is_name;
use cf_tree::{ByName, Dict, Mappings, Txt, Val, Vals};
use serde_json::{Map, Value};
use std::alloc::Global;

/// Reads the section of mappings into those found before.
pub(crate) fn mappings(
    alloc: Global,
    members: &Map<String, Value>,
    at: &Txt,
    found: &mut Mappings,
) -> Result<(), TemplateFault>
    ensures { ReadsAs (mappings_in (members_view members.now.entries) at.now found.old) (mapped (λ _. found.new) result) }
{
    for (name, member) in members.iter() {
        let place = member_at(alloc, at.as_str(), name.as_str())?;
        if !is_name(name.as_str()) {
            return Err(TemplateFault::BadName { path: place });
        }
        let key = Txt::from_str(alloc, name.as_str())?;
        found.insert(key, mapping(alloc, member, place)?)?;
    }
    Ok(())
}

fn mapping(alloc: Global, value: &Value, at: Txt) -> Result<ByName<Dict>, TemplateFault>
    ensures { ReadsAs (mapping_of (view value.now) at) result }
{
    match value {
        Value::Object(members) => rows(alloc, members, &at),
        Value::Null | Value::Bool(_) | Value::Number(_) | Value::String(_) | Value::Array(_) => {
            Err(TemplateFault::WrongShape { path: at })
        }
    }
}

fn rows(
    alloc: Global,
    members: &Map<String, Value>,
    at: &Txt,
) -> Result<ByName<Dict>, TemplateFault>
    ensures { ReadsAs (rows_in (members_view members.now.entries) at.now []) result }
{
    let mut found = ByName::new(alloc);
    match put_rows(alloc, members, at, &mut found) {
        Ok(()) => Ok(found),
        Err(fault) => {
            drop(found);
            Err(fault)
        }
    }
}

/// Reads the members of a mapping into those found before.
fn put_rows(
    alloc: Global,
    members: &Map<String, Value>,
    at: &Txt,
    found: &mut ByName<Dict>,
) -> Result<(), TemplateFault>
    ensures { ReadsAs (rows_in (members_view members.now.entries) at.now found.old) (mapped (λ _. found.new) result) }
{
    for (name, member) in members.iter() {
        let place = member_at(alloc, at.as_str(), name.as_str())?;
        let key = Txt::from_str(alloc, name.as_str())?;
        found.insert(key, row(alloc, member, place)?)?;
    }
    Ok(())
}

fn row(alloc: Global, value: &Value, at: Txt) -> Result<Dict, TemplateFault>
    ensures { ReadsAs (mapping_row (view value.now) at) result }
{
    match value {
        Value::Object(members) => cells(alloc, members, &at),
        Value::Null | Value::Bool(_) | Value::Number(_) | Value::String(_) | Value::Array(_) => {
            Err(TemplateFault::WrongShape { path: at })
        }
    }
}

fn cells(alloc: Global, members: &Map<String, Value>, at: &Txt) -> Result<Dict, TemplateFault>
    ensures { ReadsAs (values_in (members_view members.now.entries) at.now []) result }
{
    let mut found = Dict::new(alloc);
    match put_cells(alloc, members, at, &mut found) {
        Ok(()) => Ok(found),
        Err(fault) => {
            drop(found);
            Err(fault)
        }
    }
}

/// Reads the members of a row into those found before.
fn put_cells(
    alloc: Global,
    members: &Map<String, Value>,
    at: &Txt,
    found: &mut Dict,
) -> Result<(), TemplateFault>
    ensures { ReadsAs (values_in (members_view members.now.entries) at.now found.old) (mapped (λ _. found.new) result) }
{
    for (name, member) in members.iter() {
        let place = member_at(alloc, at.as_str(), name.as_str())?;
        let key = Txt::from_str(alloc, name.as_str())?;
        found.insert(key, cell(alloc, member, place)?)?;
    }
    Ok(())
}

/// A text, a whole number, a truth value, or a list of texts.
fn cell(alloc: Global, value: &Value, at: Txt) -> Result<Val, TemplateFault>
    ensures { GivesBy datum_of (mapped_value (view value.now) at) result }
{
    match value {
        Value::String(text) => Ok(Val::Text(Txt::from_str(alloc, text.as_str())?)),
        Value::Bool(truth) => Ok(Val::Truth(*truth)),
        Value::Number(number) => match number.as_i64() {
            Some(whole) => Ok(Val::Whole(whole)),
            None => Err(TemplateFault::WrongShape { path: at }),
        },
        Value::Array(items) => Ok(Val::List(texts(alloc, items, &at)?)),
        Value::Null | Value::Object(_) => Err(TemplateFault::WrongShape { path: at }),
    }
}

fn texts(alloc: Global, items: &Vec<Value>, at: &Txt) -> Result<Vals, TemplateFault>
    ensures { ReadsAs (items_from mapped_text (items_view items.now.items) at.now 0 []) result }
{
    let mut found = Vals::new(alloc);
    let mut index = 0;
    for item in items {
        let place = item_at(alloc, at.as_str(), index)?;
        let text = plain_text(alloc, item, place)?;
        found.push(Val::Text(text))?;
        index += 1;
    }
    Ok(found)
}
