//! The arguments of functions that are no values: literal texts, names, and what may be referred to when a template is
//! read.
ghost use Rattle.std.specs.Prelude.{◌≡◌, codes, IfOk};
ghost use Rattle.serde_json.specs.Data.{array, item, no_items, object};
ghost use Rattle.serde_json.specs.View.{view, members_view};
ghost use Rattle.cf_tree.specs.Form.{node_of};
ghost use Rattle.cf_template.specs.Exprs.{attribute_form, delimiter, dotted, get_att_of, literal, reference, text_form, literal_text};
ghost use Rattle.cf_template.specs.Functions.{function_in, function_named, is_declared, stray, stray_object};
ghost use Rattle.cf_funcs.specs.Pieces.{cut_at};
ghost use Rattle.cf_template.specs.declared.refusal.TemplateFault.TheVariants.{WrongShape};
ghost use Rattle.cf_template.specs.Refusals.{ReadsAs, GivesBy, after, mapped};
ghost use Rattle.cf_template.specs.Places.{item_at};

use crate::function::{Function, function_named, has_function, is_declared};
use crate::path::{item_at, member_at};
use crate::refusal::TemplateFault;
use crate::words::has_reference;
use cf_funcs::cut;
use cf_tree::{Expr, ExprNode, Params, Txt, Val};
use serde_json::{Map, Value};
use std::alloc::{AllocError, Global};

/// A literal text; none may hold a dynamic reference.
pub(crate) fn literal(alloc: Global, text: &str, at: &Txt) -> Result<Txt, TemplateFault>
    ensures { ReadsAs (literal text.now at.now) result }
{
    if has_reference(text) {
        Err(TemplateFault::Unsupported {
            path: at.try_clone(alloc)?,
            name: Txt::from_str(alloc, "{{resolve:")?,
        })
    } else {
        Ok(Txt::from_str(alloc, text)?)
    }
}

/// A literal text where only a text may stand.
pub(crate) fn text(alloc: Global, value: &Value, at: Txt) -> Result<Txt, TemplateFault>
    ensures { ReadsAs (literal_text (view value.now) at) result }
{
    match value {
        Value::String(text) => literal(alloc, text.as_str(), &at),
        Value::Null | Value::Bool(_) | Value::Number(_) | Value::Array(_) | Value::Object(_) => {
            Err(TemplateFault::WrongShape { path: at })
        }
    }
}

/// A literal text that is the item of an index.
pub(crate) fn text_item(
    alloc: Global,
    value: &Value,
    at: &Txt,
    index: usize,
) -> Result<Txt, TemplateFault>
    ensures { ReadsAs (literal_text (view value.now) (item_at at.now index)) result }
{
    let place = item_at(alloc, at.as_str(), index)?;
    text(alloc, value, place)
}

/// A literal text as an expression.
pub(crate) fn text_form(alloc: Global, text: &str, at: Txt) -> Result<Expr, TemplateFault>
    ensures { ReadsAs (mapped (text_form at) (literal text.now at)) result }
{
    let text = literal(alloc, text, &at)?;
    Ok(Expr::new(at, ExprNode::Lit(Val::Text(text))))
}

/// That what stands at a place has not the shape that it must have there.
pub(crate) fn wrong_shape(alloc: Global, at: &Txt) -> Result<TemplateFault, AllocError>
    ensures { IfOk result (λ e. e ≡ WrongShape at.now) }
{
    Ok(TemplateFault::WrongShape {
        path: at.try_clone(alloc)?,
    })
}

/// Why the function of a name may not stand at a place.
pub(crate) fn stray(alloc: Global, name: &str, at: &Txt) -> Result<TemplateFault, AllocError>
    ensures { IfOk result (λ e. e ≡ stray (function_named name.now) name.now at.now) }
{
    let path = at.try_clone(alloc)?;
    match function_named(name) {
        Function::Unsupported => Ok(TemplateFault::Unsupported {
            path,
            name: Txt::from_str(alloc, name)?,
        }),
        Function::Unknown => Ok(TemplateFault::UnknownFunction { path }),
        _ => Ok(TemplateFault::WrongShape { path }),
    }
}

/// Why a function object may not stand at its place.
pub(crate) fn stray_object(
    alloc: Global,
    members: &Map<String, Value>,
    at: Txt,
) -> Result<TemplateFault, AllocError>
    ensures { IfOk result (λ e. e ≡ stray_object (members_view members.now.entries) at) }
{
    let mut left = members.iter();
    match (left.next(), left.next()) {
        (Some((name, _)), None) => stray(alloc, name.as_str(), &at),
        _ => Ok(TemplateFault::WrongShape { path: at }),
    }
}

/// The logical id and the attribute of `Fn::GetAtt`.
pub(crate) fn get_att(
    alloc: Global,
    params: &Params,
    argument: &Value,
    at: Txt,
) -> Result<ExprNode, TemplateFault>
    ensures { GivesBy node_of (get_att_of params.now (view argument.now) at) result }
{
    match argument {
        Value::String(text) => dotted(alloc, text.as_str(), at),
        Value::Array(items) => {
            let [id, attribute] = items.as_slice() else {
                return Err(TemplateFault::WrongShape { path: at });
            };
            get_att_parts(alloc, params, id, attribute, &at)
        }
        Value::Null | Value::Bool(_) | Value::Number(_) | Value::Object(_) => {
            Err(TemplateFault::WrongShape { path: at })
        }
    }
}

fn get_att_parts(
    alloc: Global,
    params: &Params,
    id: &Value,
    attribute: &Value,
    at: &Txt,
) -> Result<ExprNode, TemplateFault>
    ensures { GivesBy node_of (get_att_of params.now (array (item (view id.now) (item (view attribute.now) no_items))) at.now) result }
{
    let id = text(alloc, id, item_at(alloc, at.as_str(), 0)?)?;
    let attribute = attribute_of(alloc, params, attribute, item_at(alloc, at.as_str(), 1)?)?;
    Ok(ExprNode::GetAtt {
        id,
        attribute: Box::new(alloc, attribute)?,
    })
}

/// A logical id and an attribute in one text, cut at its first dot.
fn dotted(alloc: Global, text: &str, at: Txt) -> Result<ExprNode, TemplateFault>
    ensures { GivesBy node_of (after (literal text.now at) (λ t. dotted at (cut_at (codes ".") t))) result }
{
    let text = literal(alloc, text, &at)?;
    match cut(text.as_str(), ".") {
        Some((id, attribute)) => {
            let id = Txt::from_str(alloc, id)?;
            let attribute = Txt::from_str(alloc, attribute)?;
            let attribute = Expr::new(at, ExprNode::Lit(Val::Text(attribute)));
            Ok(ExprNode::GetAtt {
                id,
                attribute: Box::new(alloc, attribute)?,
            })
        }
        None => Err(TemplateFault::WrongShape { path: at }),
    }
}

/// The attribute of `Fn::GetAtt`: a text, or a `Ref` of a declared parameter.
fn attribute_of(
    alloc: Global,
    params: &Params,
    value: &Value,
    at: Txt,
) -> Result<Expr, TemplateFault>
    ensures { ReadsAs (attribute_form params.now (view value.now) at) result }
{
    match value {
        Value::String(text) => text_form(alloc, text.as_str(), at),
        Value::Object(members) => {
            if has_function(members) {
                parameter(alloc, params, members, at)
            } else {
                Err(TemplateFault::WrongShape { path: at })
            }
        }
        Value::Null | Value::Bool(_) | Value::Number(_) | Value::Array(_) => {
            Err(TemplateFault::WrongShape { path: at })
        }
    }
}

/// A `Ref` of a declared parameter.
fn parameter(
    alloc: Global,
    params: &Params,
    members: &Map<String, Value>,
    at: Txt,
) -> Result<Expr, TemplateFault>
    ensures { ReadsAs (reference (is_declared params.now) (function_in (members_view members.now.entries)) (members_view members.now.entries) at) result }
{
    let mut left = members.iter();
    let (Some((name, argument)), None) = (left.next(), left.next()) else {
        return Err(TemplateFault::WrongShape { path: at });
    };
    match function_named(name.as_str()) {
        Function::Ref => {
            let place = member_at(alloc, at.as_str(), name.as_str())?;
            let name = text(alloc, argument, place)?;
            if is_declared(params, name.as_str()) {
                Ok(Expr::new(at, ExprNode::Ref(name)))
            } else {
                Err(TemplateFault::WrongShape { path: at })
            }
        }
        _ => Err(stray(alloc, name.as_str(), &at)?),
    }
}

/// A delimiter at which texts are cut: a literal text that isn't empty.
fn cut_at(alloc: Global, value: &Value, at: Txt) -> Result<Txt, TemplateFault>
    ensures { ReadsAs (delimiter (view value.now) at) result }
{
    let place = at.try_clone(alloc)?;
    let text = text(alloc, value, at)?;
    if text.as_str().is_empty() {
        Err(TemplateFault::WrongShape { path: place })
    } else {
        Ok(text)
    }
}

/// A delimiter at which texts are cut, that is the item of an index.
pub(crate) fn cut_at_item(
    alloc: Global,
    value: &Value,
    at: &Txt,
    index: usize,
) -> Result<Txt, TemplateFault>
    ensures { ReadsAs (delimiter (view value.now) (item_at at.now index)) result }
{
    let place = item_at(alloc, at.as_str(), index)?;
    cut_at(alloc, value, place)
}
