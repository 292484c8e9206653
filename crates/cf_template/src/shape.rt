//! What the objects and lists of a template must be, member by member.
ghost use Rattle.std.specs.Prelude.{◌≡◌, [], option_map, Some};
ghost use Rattle.serde_json.specs.Data.{Data};
ghost use Rattle.serde_json.specs.Find.{get};
ghost use Rattle.serde_json.specs.View.{view, items_view, members_view};
ghost use Rattle.cf_template.specs.Shapes.{has_member, items_from, optional, plain_text, required, unread};
ghost use Rattle.cf_template.specs.Refusals.{ReadsAs};

use crate::path::{item_at, member_at};
use crate::refusal::TemplateFault;
use cf_tree::{Names, Txt};
use serde_json::{Map, Value};
use std::alloc::Global;

/// A text of any kind.
pub(crate) fn plain_text(alloc: Global, value: &Value, at: Txt) -> Result<Txt, TemplateFault>
    ensures { ReadsAs (plain_text (view value.now) at) result }
{
    match value {
        Value::String(text) => Ok(Txt::from_str(alloc, text.as_str())?),
        Value::Null | Value::Bool(_) | Value::Number(_) | Value::Array(_) | Value::Object(_) => {
            Err(TemplateFault::WrongShape { path: at })
        }
    }
}

/// A text that may be missing.
pub(crate) fn optional_text(
    alloc: Global,
    object: &Value,
    name: &str,
    at: &Txt,
) -> Result<Option<Txt>, TemplateFault>
    ensures { ReadsAs (optional plain_text name.now (view object.now) at.now) result }
{
    match object.get(name) {
        Some(value) => {
            let place = member_at(alloc, at.as_str(), name)?;
            Ok(Some(plain_text(alloc, value, place)?))
        }
        None => Ok(None),
    }
}

/// A text that must be there.
pub(crate) fn required_text(
    alloc: Global,
    object: &Value,
    name: &str,
    at: &Txt,
) -> Result<Txt, TemplateFault>
    ensures { ReadsAs (required plain_text name.now (view object.now) at.now) result }
{
    match object.get(name) {
        Some(value) => {
            let place = member_at(alloc, at.as_str(), name)?;
            plain_text(alloc, value, place)
        }
        None => Err(TemplateFault::WrongShape {
            path: at.try_clone(alloc)?,
        }),
    }
}

/// An object that isn't read further, and may be missing.
pub(crate) fn skip_object(
    alloc: Global,
    object: &Value,
    name: &str,
    at: &Txt,
) -> Result<Option<bool>, TemplateFault>
    ensures { ReadsAs (optional unread name.now (view object.now) at.now) result }
{
    match object.get(name) {
        Some(Value::Object(_)) => Ok(Some(true)),
        Some(_) => Err(TemplateFault::WrongShape {
            path: member_at(alloc, at.as_str(), name)?,
        }),
        None => Ok(None),
    }
}

/// Whether an object has the member of a name.
pub(crate) fn has(object: &Value, name: &str) -> bool
    ensures { result ≡ has_member name.now (view object.now) }
{
    object.get(name).is_some()
}

/// A list of texts of any kind.
pub(crate) fn plain_texts(
    alloc: Global,
    items: &Vec<Value>,
    at: &Txt,
) -> Result<Names, TemplateFault>
    ensures { ReadsAs (items_from plain_text (items_view items.now.items) at.now 0 []) result }
{
    let mut found = Names::new(alloc);
    let mut index = 0;
    for item in items {
        let place = item_at(alloc, at.as_str(), index)?;
        found.push(plain_text(alloc, item, place)?)?;
        index += 1;
    }
    Ok(found)
}
