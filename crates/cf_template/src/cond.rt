//! The conditions of a template.
ghost use Rattle.std.specs.Prelude.{◌≡◌, []};
ghost use Rattle.serde_json.specs.Data.{array, item, no_items};
ghost use Rattle.serde_json.specs.View.{view, items_view, members_view};
ghost use Rattle.cf_tree.specs.Test.{test_node_of};
ghost use Rattle.cf_template.specs.Conds.{conds_in, equals_of, is_two_to_ten, items_count, condition_named, negation_of, several_of, test_call, test_of, tests_in};
ghost use Rattle.cf_template.specs.Functions.{function_in};
ghost use Rattle.cf_template.specs.Refusals.{ReadsAs, GivesBy, mapped};

use crate::arguments::{stray, text, wrong_shape};
use crate::expr::value;
use crate::function::{Function, function_named, has_function};
use crate::path::{item_at, member_at};
use crate::refusal::TemplateFault;
use crate::words::is_name;
use cf_tree::{Cond, CondNode, Conds, NamedConds, Params, Txt};
use serde_json::{Map, Value};
use std::alloc::Global;

/// Reads the section of conditions into those found before.
pub(crate) fn conditions(
    alloc: Global,
    params: &Params,
    members: &Map<String, Value>,
    at: &Txt,
    found: &mut NamedConds,
) -> Result<(), TemplateFault>
    ensures { ReadsAs (conds_in params.now (members_view members.now.entries) at.now found.old) (mapped (λ _. found.new) result) }
{
    for (name, member) in members.iter() {
        let place = member_at(alloc, at.as_str(), name.as_str())?;
        if !is_name(name.as_str()) {
            return Err(TemplateFault::BadName { path: place });
        }
        let key = Txt::from_str(alloc, name.as_str())?;
        found.insert(key, condition(alloc, params, member, place)?)?;
    }
    Ok(())
}

#[cycle(condition)]
fn condition(alloc: Global, params: &Params, value: &Value, at: Txt) -> Result<Cond, TemplateFault>
    ensures { ReadsAs (test_of params.now (view value.now) at) result }
{
    let Value::Object(members) = value else {
        return Err(TemplateFault::WrongShape { path: at });
    };
    if has_function(members) {
        let node = call(alloc, params, members, &at)?;
        Ok(Cond::new(at, node))
    } else {
        let node = named(alloc, members, &at)?;
        Ok(Cond::new(at, node))
    }
}

/// The object that names a condition.
fn named(alloc: Global, members: &Map<String, Value>, at: &Txt) -> Result<CondNode, TemplateFault>
    ensures { GivesBy test_node_of (condition_named (members_view members.now.entries) at.now) result }
{
    let mut left = members.iter();
    let (Some((key, argument)), None) = (left.next(), left.next()) else {
        return Err(TemplateFault::WrongShape {
            path: at.try_clone(alloc)?,
        });
    };
    if key.as_str() == "Condition" {
        let place = member_at(alloc, at.as_str(), key.as_str())?;
        Ok(CondNode::Name(text(alloc, argument, place)?))
    } else {
        Err(TemplateFault::WrongShape {
            path: at.try_clone(alloc)?,
        })
    }
}

#[cycle(condition)]
fn call(
    alloc: Global,
    params: &Params,
    members: &Map<String, Value>,
    at: &Txt,
) -> Result<CondNode, TemplateFault>
    ensures { GivesBy test_node_of (test_call params.now (function_in (members_view members.now.entries)) (members_view members.now.entries) at.now) result }
{
    let mut left = members.iter();
    let (Some((name, argument)), None) = (left.next(), left.next()) else {
        return Err(TemplateFault::WrongShape {
            path: at.try_clone(alloc)?,
        });
    };
    let place = member_at(alloc, at.as_str(), name.as_str())?;
    match function_named(name.as_str()) {
        Function::Equals => equals(alloc, params, argument, place),
        Function::Not => negation(alloc, params, argument, place),
        Function::And => Ok(CondNode::And(several(alloc, params, argument, place)?)),
        Function::Or => Ok(CondNode::Or(several(alloc, params, argument, place)?)),
        _ => Err(stray(alloc, name.as_str(), at)?),
    }
}

/// The two values that are compared.
fn equals(
    alloc: Global,
    params: &Params,
    argument: &Value,
    at: Txt,
) -> Result<CondNode, TemplateFault>
    ensures { GivesBy test_node_of (equals_of params.now (view argument.now) at) result }
{
    let Value::Array(items) = argument else {
        return Err(TemplateFault::WrongShape { path: at });
    };
    let [one, other] = items.as_slice() else {
        return Err(TemplateFault::WrongShape { path: at });
    };
    equals_parts(alloc, params, one, other, &at)
}

fn equals_parts(
    alloc: Global,
    params: &Params,
    left: &Value,
    right: &Value,
    at: &Txt,
) -> Result<CondNode, TemplateFault>
    ensures { GivesBy test_node_of (equals_of params.now (array (item (view left.now) (item (view right.now) no_items))) at.now) result }
{
    let first = item_at(alloc, at.as_str(), 0)?;
    let second = item_at(alloc, at.as_str(), 1)?;
    let left = value(alloc, params, left, first)?;
    match value(alloc, params, right, second) {
        Ok(right) => Ok(CondNode::Equals { left, right }),
        Err(fault) => {
            drop(left);
            Err(fault)
        }
    }
}

#[cycle(condition)]
fn negation(
    alloc: Global,
    params: &Params,
    argument: &Value,
    at: Txt,
) -> Result<CondNode, TemplateFault>
    ensures { GivesBy test_node_of (negation_of params.now (view argument.now) at) result }
{
    match argument {
        Value::Array(items) => negation_items(alloc, params, items, &at),
        Value::Null | Value::Bool(_) | Value::Number(_) | Value::String(_) | Value::Object(_) => {
            Err(TemplateFault::WrongShape { path: at })
        }
    }
}

#[cycle(condition)]
fn negation_items(
    alloc: Global,
    params: &Params,
    items: &Vec<Value>,
    at: &Txt,
) -> Result<CondNode, TemplateFault>
    ensures { GivesBy test_node_of (negation_of params.now (array (items_view items.now.items)) at.now) result }
{
    let mut left = items.iter();
    let Some(only) = left.next() else {
        return Err(wrong_shape(alloc, at)?);
    };
    if left.next().is_some() {
        return Err(wrong_shape(alloc, at)?);
    }
    negated(alloc, params, only, at)
}

#[cycle(condition)]
fn negated(
    alloc: Global,
    params: &Params,
    value: &Value,
    at: &Txt,
) -> Result<CondNode, TemplateFault>
    ensures { GivesBy test_node_of (negation_of params.now (array (item (view value.now) no_items)) at.now) result }
{
    let place = item_at(alloc, at.as_str(), 0)?;
    let condition = condition(alloc, params, value, place)?;
    Ok(CondNode::Not(Box::new(alloc, condition)?))
}

/// Two to ten conditions.
#[cycle(condition)]
fn several(
    alloc: Global,
    params: &Params,
    argument: &Value,
    at: Txt,
) -> Result<Conds, TemplateFault>
    ensures { ReadsAs (several_of params.now (view argument.now) at) result }
{
    let Value::Array(items) = argument else {
        return Err(TemplateFault::WrongShape { path: at });
    };
    if is_two_to_ten(items_count(items)) {
        each(alloc, params, items, &at)
    } else {
        Err(TemplateFault::WrongShape { path: at })
    }
}

fn is_two_to_ten(count: usize) -> bool
    ensures { result ≡ is_two_to_ten count }
{
    count >= 2 && count <= 10
}

#[tactic(auto, using(crate::proofs::Counts::items_count_view))]
fn items_count(items: &Vec<Value>) -> usize
    ensures { result ≡ items_count (items_view items.now.items) }
{
    items.len()
}

#[cycle(condition)]
fn each(
    alloc: Global,
    params: &Params,
    items: &Vec<Value>,
    at: &Txt,
) -> Result<Conds, TemplateFault>
    ensures { ReadsAs (tests_in params.now (items_view items.now.items) at.now 0 []) result }
{
    let mut found = Conds::new(alloc);
    match push_each(alloc, params, items, at, &mut found) {
        Ok(()) => Ok(found),
        Err(fault) => {
            drop(found);
            Err(fault)
        }
    }
}

/// Reads the items of a list behind those found before.
#[cycle(condition)]
fn push_each(
    alloc: Global,
    params: &Params,
    items: &Vec<Value>,
    at: &Txt,
    found: &mut Conds,
) -> Result<(), TemplateFault>
    ensures { ReadsAs (tests_in params.now (items_view items.now.items) at.now 0 found.old) (mapped (λ _. found.new) result) }
{
    let mut index = 0;
    for item in items {
        let place = item_at(alloc, at.as_str(), index)?;
        found.push(condition(alloc, params, item, place)?)?;
        index += 1;
    }
    Ok(())
}
