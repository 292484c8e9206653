//! The values of properties, outputs and conditions.
ghost use Rattle.std.specs.Prelude.{◌≡◌, []};
ghost use Rattle.serde_json.specs.Data.{array, object};
ghost use Rattle.serde_json.specs.View.{view, items_view, members_view};
ghost use Rattle.cf_tree.specs.Form.{node_of};
ghost use Rattle.cf_template.specs.Functions.{function_in};
ghost use Rattle.cf_template.specs.Exprs.{call_of, choice_of, fields_in, form_of, forms_in, holed_text, join_of, map_of, select_of, split_of, sub_of, values_of};
ghost use Rattle.cf_template.specs.Refusals.{ReadsAs, GivesBy, inside, mapped};
ghost use Rattle.cf_template.specs.Places.{item_at};

use crate::arguments::{
    cut_at_item, get_att, stray, stray_object, text, text_form, text_item, wrong_shape,
};
use crate::find::find;
use crate::function::{Function, function_named, has_function};
use crate::path::{item_at, member_at};
use crate::refusal::TemplateFault;
use crate::subs::{SubFault, sub_parts};
use cf_tree::{Expr, ExprDict, ExprNode, Exprs, Params, Parts, Txt, Val};
use serde_json::{Map, Value};
use std::alloc::Global;

/// A value, as an expression.
#[cycle(form)]
pub(crate) fn value(
    alloc: Global,
    params: &Params,
    value: &Value,
    at: Txt,
) -> Result<Expr, TemplateFault>
    ensures { ReadsAs (form_of params.now (view value.now) at) result }
{
    match value {
        Value::Null => Err(TemplateFault::WrongShape { path: at }),
        Value::Bool(truth) => Ok(Expr::new(at, ExprNode::Lit(Val::Truth(*truth)))),
        Value::Number(number) => match number.as_i64() {
            Some(whole) => Ok(Expr::new(at, ExprNode::Lit(Val::Whole(whole)))),
            None => Err(TemplateFault::WrongShape { path: at }),
        },
        Value::String(text) => text_form(alloc, text.as_str(), at),
        Value::Array(items) => {
            let items = values(alloc, params, items, &at)?;
            Ok(Expr::new(at, ExprNode::List(items)))
        }
        Value::Object(members) => object(alloc, params, members, at),
    }
}

#[cycle(form)]
fn object(
    alloc: Global,
    params: &Params,
    members: &Map<String, Value>,
    at: Txt,
) -> Result<Expr, TemplateFault>
    ensures { ReadsAs (form_of params.now (object (members_view members.now.entries)) at) result }
{
    if has_function(members) {
        let node = call(alloc, params, members, &at)?;
        Ok(Expr::new(at, node))
    } else {
        let fields = fields(alloc, params, members, &at)?;
        Ok(Expr::new(at, ExprNode::Dict(fields)))
    }
}

#[cycle(form)]
fn values(
    alloc: Global,
    params: &Params,
    items: &Vec<Value>,
    at: &Txt,
) -> Result<Exprs, TemplateFault>
    ensures { ReadsAs (forms_in params.now (items_view items.now.items) at.now 0 []) result }
{
    let mut found = Exprs::new(alloc);
    match push_values(alloc, params, items, at, &mut found) {
        Ok(()) => Ok(found),
        Err(fault) => {
            drop(found);
            Err(fault)
        }
    }
}

/// Reads the items of a list behind those found before.
#[cycle(form)]
fn push_values(
    alloc: Global,
    params: &Params,
    items: &Vec<Value>,
    at: &Txt,
    found: &mut Exprs,
) -> Result<(), TemplateFault>
    ensures { ReadsAs (forms_in params.now (items_view items.now.items) at.now 0 found.old) (mapped (λ _. found.new) result) }
{
    let mut index = 0;
    for item in items {
        let place = item_at(alloc, at.as_str(), index)?;
        found.push(value(alloc, params, item, place)?)?;
        index += 1;
    }
    Ok(())
}

#[cycle(form)]
fn fields(
    alloc: Global,
    params: &Params,
    members: &Map<String, Value>,
    at: &Txt,
) -> Result<ExprDict, TemplateFault>
    ensures { ReadsAs (fields_in params.now (members_view members.now.entries) at.now []) result }
{
    let mut found = ExprDict::new(alloc);
    match put_fields(alloc, params, members, at, &mut found) {
        Ok(()) => Ok(found),
        Err(fault) => {
            drop(found);
            Err(fault)
        }
    }
}

/// Reads the members of an object into those found before.
#[cycle(form)]
fn put_fields(
    alloc: Global,
    params: &Params,
    members: &Map<String, Value>,
    at: &Txt,
    found: &mut ExprDict,
) -> Result<(), TemplateFault>
    ensures { ReadsAs (fields_in params.now (members_view members.now.entries) at.now found.old) (mapped (λ _. found.new) result) }
{
    for (name, member) in members.iter() {
        let place = member_at(alloc, at.as_str(), name.as_str())?;
        let key = Txt::from_str(alloc, name.as_str())?;
        found.insert(key, value(alloc, params, member, place)?)?;
    }
    Ok(())
}

#[cycle(form)]
fn call(
    alloc: Global,
    params: &Params,
    members: &Map<String, Value>,
    at: &Txt,
) -> Result<ExprNode, TemplateFault>
    ensures { GivesBy node_of (call_of params.now (function_in (members_view members.now.entries)) (members_view members.now.entries) at.now) result }
{
    let mut left = members.iter();
    let (Some((name, argument)), None) = (left.next(), left.next()) else {
        return Err(TemplateFault::WrongShape {
            path: at.try_clone(alloc)?,
        });
    };
    let place = member_at(alloc, at.as_str(), name.as_str())?;
    match function_named(name.as_str()) {
        Function::Ref => Ok(ExprNode::Ref(text(alloc, argument, place)?)),
        Function::GetAtt => get_att(alloc, params, argument, place),
        Function::Sub => sub(alloc, params, argument, place),
        Function::Join => join(alloc, params, argument, place),
        Function::Split => split(alloc, params, argument, place),
        Function::Select => select(alloc, params, argument, place),
        Function::FindInMap => find(alloc, params, argument, place),
        Function::If => choice(alloc, params, argument, place),
        Function::ImportValue => Ok(ExprNode::Import(value_box(alloc, params, argument, place)?)),
        Function::Base64 => Ok(ExprNode::Base64(value_box(alloc, params, argument, place)?)),
        Function::Equals
        | Function::Not
        | Function::And
        | Function::Or
        | Function::Unsupported
        | Function::Unknown => Err(stray(alloc, name.as_str(), at)?),
    }
}

#[cycle(form)]
fn value_box(
    alloc: Global,
    params: &Params,
    argument: &Value,
    at: Txt,
) -> Result<Box<Expr>, TemplateFault>
    ensures { GivesBy inside (form_of params.now (view argument.now) at) result }
{
    let value = value(alloc, params, argument, at)?;
    Ok(Box::new(alloc, value)?)
}

#[cycle(form)]
fn value_item(
    alloc: Global,
    params: &Params,
    argument: &Value,
    at: &Txt,
    index: usize,
) -> Result<Box<Expr>, TemplateFault>
    ensures { GivesBy inside (form_of params.now (view argument.now) (item_at at.now index)) result }
{
    let place = item_at(alloc, at.as_str(), index)?;
    let value = value(alloc, params, argument, place)?;
    Ok(Box::new(alloc, value)?)
}

/// A text with holes, or such a text and a map of values for its names.
#[cycle(form)]
fn sub(alloc: Global, params: &Params, argument: &Value, at: Txt) -> Result<ExprNode, TemplateFault>
    ensures { GivesBy node_of (sub_of params.now (view argument.now) at) result }
{
    match argument {
        Value::String(_) => {
            let parts = holed_text(alloc, argument, at)?;
            let map = ExprDict::new(alloc);
            Ok(ExprNode::Sub { parts, map })
        }
        Value::Array(items) => sub_items(alloc, params, items, &at),
        Value::Null | Value::Bool(_) | Value::Number(_) | Value::Object(_) => {
            Err(TemplateFault::WrongShape { path: at })
        }
    }
}

#[cycle(form)]
fn sub_items(
    alloc: Global,
    params: &Params,
    items: &Vec<Value>,
    at: &Txt,
) -> Result<ExprNode, TemplateFault>
    ensures { GivesBy node_of (sub_of params.now (array (items_view items.now.items)) at.now) result }
{
    let [text, map] = items.as_slice() else {
        return Err(wrong_shape(alloc, at)?);
    };
    let parts = holed_item(alloc, text, at, 0)?;
    match map_item(alloc, params, map, at, 1) {
        Ok(map) => Ok(ExprNode::Sub { parts, map }),
        Err(fault) => {
            drop(parts);
            Err(fault)
        }
    }
}

#[cycle(form)]
fn map_item(
    alloc: Global,
    params: &Params,
    value: &Value,
    at: &Txt,
    index: usize,
) -> Result<ExprDict, TemplateFault>
    ensures { ReadsAs (map_of params.now (view value.now) (item_at at.now index)) result }
{
    let place = item_at(alloc, at.as_str(), index)?;
    map_of(alloc, params, value, place)
}

/// An object that is a map of values and no function.
#[cycle(form)]
pub(crate) fn map_of(
    alloc: Global,
    params: &Params,
    value: &Value,
    at: Txt,
) -> Result<ExprDict, TemplateFault>
    ensures { ReadsAs (map_of params.now (view value.now) at) result }
{
    match value {
        Value::Object(members) => {
            if has_function(members) {
                Err(stray_object(alloc, members, at)?)
            } else {
                fields(alloc, params, members, &at)
            }
        }
        Value::Null | Value::Bool(_) | Value::Number(_) | Value::String(_) | Value::Array(_) => {
            Err(TemplateFault::WrongShape { path: at })
        }
    }
}

#[cycle(form)]
fn join(
    alloc: Global,
    params: &Params,
    argument: &Value,
    at: Txt,
) -> Result<ExprNode, TemplateFault>
    ensures { GivesBy node_of (join_of params.now (view argument.now) at) result }
{
    match argument {
        Value::Array(items) => join_items(alloc, params, items, &at),
        Value::Null | Value::Bool(_) | Value::Number(_) | Value::String(_) | Value::Object(_) => {
            Err(TemplateFault::WrongShape { path: at })
        }
    }
}

#[cycle(form)]
fn join_items(
    alloc: Global,
    params: &Params,
    items: &Vec<Value>,
    at: &Txt,
) -> Result<ExprNode, TemplateFault>
    ensures { GivesBy node_of (join_of params.now (array (items_view items.now.items)) at.now) result }
{
    let [delimiter, list] = items.as_slice() else {
        return Err(wrong_shape(alloc, at)?);
    };
    let delimiter = text_item(alloc, delimiter, at, 0)?;
    let list = value_item(alloc, params, list, at, 1)?;
    Ok(ExprNode::Join { delimiter, list })
}

#[cycle(form)]
fn split(
    alloc: Global,
    params: &Params,
    argument: &Value,
    at: Txt,
) -> Result<ExprNode, TemplateFault>
    ensures { GivesBy node_of (split_of params.now (view argument.now) at) result }
{
    match argument {
        Value::Array(items) => split_items(alloc, params, items, &at),
        Value::Null | Value::Bool(_) | Value::Number(_) | Value::String(_) | Value::Object(_) => {
            Err(TemplateFault::WrongShape { path: at })
        }
    }
}

#[cycle(form)]
fn split_items(
    alloc: Global,
    params: &Params,
    items: &Vec<Value>,
    at: &Txt,
) -> Result<ExprNode, TemplateFault>
    ensures { GivesBy node_of (split_of params.now (array (items_view items.now.items)) at.now) result }
{
    let [delimiter, text] = items.as_slice() else {
        return Err(wrong_shape(alloc, at)?);
    };
    let delimiter = cut_at_item(alloc, delimiter, at, 0)?;
    let text = value_item(alloc, params, text, at, 1)?;
    Ok(ExprNode::Split { delimiter, text })
}

#[cycle(form)]
fn select(
    alloc: Global,
    params: &Params,
    argument: &Value,
    at: Txt,
) -> Result<ExprNode, TemplateFault>
    ensures { GivesBy node_of (select_of params.now (view argument.now) at) result }
{
    match argument {
        Value::Array(items) => select_items(alloc, params, items, &at),
        Value::Null | Value::Bool(_) | Value::Number(_) | Value::String(_) | Value::Object(_) => {
            Err(TemplateFault::WrongShape { path: at })
        }
    }
}

#[cycle(form)]
fn select_items(
    alloc: Global,
    params: &Params,
    items: &Vec<Value>,
    at: &Txt,
) -> Result<ExprNode, TemplateFault>
    ensures { GivesBy node_of (select_of params.now (array (items_view items.now.items)) at.now) result }
{
    let [index, list] = items.as_slice() else {
        return Err(wrong_shape(alloc, at)?);
    };
    let index = value_item(alloc, params, index, at, 0)?;
    match value_item(alloc, params, list, at, 1) {
        Ok(list) => Ok(ExprNode::Select { index, list }),
        Err(fault) => {
            drop(index);
            Err(fault)
        }
    }
}

/// The name of a condition, and a value for each outcome.
#[cycle(form)]
fn choice(
    alloc: Global,
    params: &Params,
    argument: &Value,
    at: Txt,
) -> Result<ExprNode, TemplateFault>
    ensures { GivesBy node_of (choice_of params.now (view argument.now) at) result }
{
    match argument {
        Value::Array(items) => choice_items(alloc, params, items, &at),
        Value::Null | Value::Bool(_) | Value::Number(_) | Value::String(_) | Value::Object(_) => {
            Err(TemplateFault::WrongShape { path: at })
        }
    }
}

#[cycle(form)]
fn choice_items(
    alloc: Global,
    params: &Params,
    items: &Vec<Value>,
    at: &Txt,
) -> Result<ExprNode, TemplateFault>
    ensures { GivesBy node_of (choice_of params.now (array (items_view items.now.items)) at.now) result }
{
    let [name, yes, no] = items.as_slice() else {
        return Err(wrong_shape(alloc, at)?);
    };
    let name = text_item(alloc, name, at, 0)?;
    let yes = value_item(alloc, params, yes, at, 1)?;
    match value_item(alloc, params, no, at, 2) {
        Ok(no) => Ok(ExprNode::If { name, yes, no }),
        Err(fault) => {
            drop(yes);
            Err(fault)
        }
    }
}

/// A text with holes.
fn holed_text(alloc: Global, value: &Value, at: Txt) -> Result<Parts, TemplateFault>
    ensures { ReadsAs (holed_text (view value.now) at) result }
{
    let place = at.try_clone(alloc)?;
    let text = text(alloc, value, at)?;
    match sub_parts(alloc, text.as_str()) {
        Ok(parts) => Ok(parts),
        Err(SubFault::NoMemory) => Err(TemplateFault::NoMemory),
        Err(SubFault::Unclosed { at: _ } | SubFault::Empty { at: _ }) => Err(
            TemplateFault::WrongShape { path: place },
        ),
    }
}

fn holed_item(alloc: Global, value: &Value, at: &Txt, index: usize) -> Result<Parts, TemplateFault>
    ensures { ReadsAs (holed_text (view value.now) (item_at at.now index)) result }
{
    let place = item_at(alloc, at.as_str(), index)?;
    holed_text(alloc, value, place)
}
