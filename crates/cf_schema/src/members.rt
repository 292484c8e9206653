ghost use Rattle.std.specs.Prelude.{◌≡◌, IfOk};
ghost use Rattle.serde_json.specs.Find.{as_str, get};
ghost use Rattle.serde_json.specs.View.{items_view, members_view, view};
ghost use Rattle.cf_schema.specs.Fault.{SchemaFaults, Reads};
ghost use Rattle.cf_schema.specs.Reading.{identifier_of, listed, names_in, member_names, needed, pointers_of, required_of, shaped, texts_in, listed_texts};

use crate::fault::SchemaFault;
use crate::pointers::{Spelling, properties};
use cf_tree::{Names, Txt};
use serde_json::{Map, Value};
use std::alloc::{AllocError, Global};

fn missing(alloc: Global, name: &str) -> SchemaFault
    ensures { SchemaFaults (SchemaFault.Missing name.now) result }
{
    match Txt::from_str(alloc, name) {
        Ok(name) => SchemaFault::Missing { name },
        Err(_) => SchemaFault::NoMemory,
    }
}

pub(crate) fn wrong_shape(alloc: Global, name: &str) -> SchemaFault
    ensures { SchemaFaults (SchemaFault.WrongShape name.now) result }
{
    match Txt::from_str(alloc, name) {
        Ok(name) => SchemaFault::WrongShape { name },
        Err(_) => SchemaFault::NoMemory,
    }
}

/// A text that every schema has.
pub(crate) fn text_member(alloc: Global, root: &Value, name: &str) -> Result<Txt, SchemaFault>
    ensures { Reads (needed as_str name.now (get name.now (view root.now))) result }
{
    match root.get(name) {
        Some(value) => match value.as_str() {
            Some(text) => Ok(Txt::from_str(alloc, text)?),
            None => Err(wrong_shape(alloc, name)),
        },
        None => Err(missing(alloc, name)),
    }
}

/// An object that every schema has, and of which the names alone are read.
pub(crate) fn names_member(alloc: Global, root: &Value, name: &str) -> Result<Names, SchemaFault>
    ensures { Reads (needed member_names name.now (get name.now (view root.now))) result }
{
    match root.get(name) {
        Some(value) => match value.as_object() {
            Some(members) => Ok(names(alloc, members)?),
            None => Err(wrong_shape(alloc, name)),
        },
        None => Err(missing(alloc, name)),
    }
}

fn names(alloc: Global, members: &Map<String, Value>) -> Result<Names, AllocError>
    ensures { IfOk result (λ ns. ns ≡ names_in (members_view members.now.entries)) }
{
    let mut names = Names::new(alloc);
    for (name, _) in members.iter() {
        names.push(Txt::from_str(alloc, name.as_str())?)?;
    }
    Ok(names)
}

/// The properties that tell one resource from another; every schema says them.
pub(crate) fn identifier_member(
    alloc: Global,
    root: &Value,
    props: &Names,
) -> Result<Names, SchemaFault>
    ensures { Reads (identifier_of props.now (view root.now)) result }
{
    let texts = needed_list(alloc, root, "primaryIdentifier")?;
    properties(alloc, Spelling::Pointer, props, texts)
}

/// The properties that a resource must have, if the schema says any.
pub(crate) fn required_member(
    alloc: Global,
    root: &Value,
    props: &Names,
) -> Result<Names, SchemaFault>
    ensures { Reads (required_of props.now (view root.now)) result }
{
    let texts = list(alloc, root, "required")?;
    properties(alloc, Spelling::Name, props, texts)
}

/// The properties that a member's pointers name, if the schema has that member.
pub(crate) fn pointers_member(
    alloc: Global,
    root: &Value,
    name: &str,
    props: &Names,
) -> Result<Names, SchemaFault>
    ensures { Reads (pointers_of name.now props.now (view root.now)) result }
{
    let texts = list(alloc, root, name)?;
    properties(alloc, Spelling::Pointer, props, texts)
}

fn needed_list(alloc: Global, root: &Value, name: &str) -> Result<Names, SchemaFault>
    ensures { Reads (needed listed_texts name.now (get name.now (view root.now))) result }
{
    match root.get(name) {
        Some(value) => list_from(alloc, value, name),
        None => Err(missing(alloc, name)),
    }
}

fn list(alloc: Global, root: &Value, name: &str) -> Result<Names, SchemaFault>
    ensures { Reads (listed name.now (get name.now (view root.now))) result }
{
    match root.get(name) {
        Some(value) => list_from(alloc, value, name),
        None => Ok(Names::new(alloc)),
    }
}

fn list_from(alloc: Global, value: &Value, name: &str) -> Result<Names, SchemaFault>
    ensures { Reads (shaped name.now (listed_texts (view value.now))) result }
{
    match value.as_array() {
        Some(items) => texts(alloc, items, name),
        None => Err(wrong_shape(alloc, name)),
    }
}

fn texts(alloc: Global, items: &Vec<Value>, name: &str) -> Result<Names, SchemaFault>
    ensures { Reads (shaped name.now (texts_in (items_view items.now.items))) result }
{
    let mut texts = Names::new(alloc);
    for item in items {
        let Some(text) = item.as_str() else {
            return Err(wrong_shape(alloc, name));
        };
        texts.push(Txt::from_str(alloc, text)?)?;
    }
    Ok(texts)
}
