//! The arguments of `Fn::FindInMap`.
ghost use Rattle.std.specs.Prelude.{◌≡◌};
ghost use Rattle.serde_json.specs.Data.{array};
ghost use Rattle.serde_json.specs.View.{view, items_view, members_view};
ghost use Rattle.cf_tree.specs.Form.{node_of};
ghost use Rattle.cf_template.specs.Exprs.{find_of, key_call, key_of, may_find};
ghost use Rattle.cf_template.specs.Functions.{function_in};
ghost use Rattle.cf_template.specs.Refusals.{ReadsAs, GivesBy, inside};
ghost use Rattle.cf_template.specs.Places.{item_at};

use crate::arguments::{stray, text, text_form, wrong_shape};
use crate::function::{Function, function_named, has_function, is_declared, is_pseudo};
use crate::path::{item_at, member_at};
use crate::refusal::TemplateFault;
use cf_tree::{Expr, ExprNode, Params, Txt};
use serde_json::{Map, Value};
use std::alloc::Global;

/// The name of a mapping and two keys.
#[cycle(find)]
pub(crate) fn find(
    alloc: Global,
    params: &Params,
    argument: &Value,
    at: Txt,
) -> Result<ExprNode, TemplateFault>
    ensures { GivesBy node_of (find_of params.now (view argument.now) at) result }
{
    match argument {
        Value::Array(items) => find_items(alloc, params, items, &at),
        Value::Null | Value::Bool(_) | Value::Number(_) | Value::String(_) | Value::Object(_) => {
            Err(TemplateFault::WrongShape { path: at })
        }
    }
}

#[cycle(find)]
fn find_items(
    alloc: Global,
    params: &Params,
    items: &Vec<Value>,
    at: &Txt,
) -> Result<ExprNode, TemplateFault>
    ensures { GivesBy node_of (find_of params.now (array (items_view items.now.items)) at.now) result }
{
    let [map, first, second] = items.as_slice() else {
        return Err(wrong_shape(alloc, at)?);
    };
    let map = key_item(alloc, params, map, at, 0)?;
    let first = match key_item(alloc, params, first, at, 1) {
        Ok(first) => first,
        Err(fault) => {
            drop(map);
            return Err(fault);
        }
    };
    match key_item(alloc, params, second, at, 2) {
        Ok(second) => Ok(ExprNode::FindInMap { map, first, second }),
        Err(fault) => {
            drop(map);
            drop(first);
            Err(fault)
        }
    }
}

#[cycle(find)]
fn key_item(
    alloc: Global,
    params: &Params,
    value: &Value,
    at: &Txt,
    index: usize,
) -> Result<Box<Expr>, TemplateFault>
    ensures { GivesBy inside (key_of params.now (view value.now) (item_at at.now index)) result }
{
    let place = item_at(alloc, at.as_str(), index)?;
    let key = key(alloc, params, value, place)?;
    Ok(Box::new(alloc, key)?)
}

/// A text, a `Ref` of what is known when the template is read, or a `Fn::FindInMap`.
#[cycle(find)]
fn key(alloc: Global, params: &Params, value: &Value, at: Txt) -> Result<Expr, TemplateFault>
    ensures { ReadsAs (key_of params.now (view value.now) at) result }
{
    match value {
        Value::String(text) => text_form(alloc, text.as_str(), at),
        Value::Object(members) => {
            if has_function(members) {
                key_function(alloc, params, members, at)
            } else {
                Err(TemplateFault::WrongShape { path: at })
            }
        }
        Value::Null | Value::Bool(_) | Value::Number(_) | Value::Array(_) => {
            Err(TemplateFault::WrongShape { path: at })
        }
    }
}

#[cycle(find)]
fn key_function(
    alloc: Global,
    params: &Params,
    members: &Map<String, Value>,
    at: Txt,
) -> Result<Expr, TemplateFault>
    ensures { ReadsAs (key_call params.now (function_in (members_view members.now.entries)) (members_view members.now.entries) at) result }
{
    let mut left = members.iter();
    let (Some((name, argument)), None) = (left.next(), left.next()) else {
        return Err(TemplateFault::WrongShape { path: at });
    };
    match function_named(name.as_str()) {
        Function::Ref => {
            let place = member_at(alloc, at.as_str(), name.as_str())?;
            let name = text(alloc, argument, place)?;
            if may_find(params, name.as_str()) {
                Ok(Expr::new(at, ExprNode::Ref(name)))
            } else {
                Err(TemplateFault::WrongShape { path: at })
            }
        }
        Function::FindInMap => {
            let place = member_at(alloc, at.as_str(), name.as_str())?;
            let node = find(alloc, params, argument, place)?;
            Ok(Expr::new(at, node))
        }
        _ => Err(stray(alloc, name.as_str(), &at)?),
    }
}

/// Whether a name is known when the template is read: a declared parameter's, or that of a pseudo parameter with a value.
fn may_find(params: &Params, name: &str) -> bool
    ensures { result ≡ may_find params.now name.now }
{
    is_declared(params, name) || is_pseudo(name)
}
