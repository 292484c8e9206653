//! The table of answers.
ghost use Rattle.std.specs.Prelude.{◌≡◌, ◌+◌, ◌^◌, ◌-◌, ◌≤◌, ◌++◌, [], ◌∷◌, length, nat_le, IsTrue, IfOk, Some, None, option_map};
ghost use Rattle.std.specs.List.{list_all, list_any};
ghost use Rattle.cf_tree.specs.Value.{datum_of, pairs_of};
ghost use Rattle.cf_tree.specs.Keys.{value_at};
ghost use Rattle.cf_tree.specs.Lists.{is_among};
ghost use Rattle.cf_tree.specs.SizeOf.{size_of_dict};
ghost use Rattle.cf_answers.specs.Table.{id_of, is_text, is_settable, is_there, are_valid, agree, agree_at, are_same, is_sealed, breaks_seal, is_fixed, text_in, measured, attrs_of};
ghost use Rattle.cf_schema.specs.Change.{any_differs, differs_at};

use cf_schema::Schema;
use cf_tree::{Dict, Names, Pair, Txt, Val};
use std::alloc::{AllocError, Global};

/// The most bytes that properties may encode to.
const MOST_BYTES: u64 = 262_144;

/// The physical id of what a token creates.
pub fn id_of(alloc: Global, name: &str, token: u64) -> Result<Txt, AllocError>
    ensures { IfOk result (λ id. id ≡ id_of name.now token) }
{
    let mut id = String::from_str(alloc, name)?;
    id.push_str(":")?;
    let number = token.to_string(alloc)?;
    id.push_str(number.as_str())?;
    Ok(Txt::new(id))
}

fn is_among(name: &Txt, names: &Names) -> bool
    ensures { result ≡ is_among name.now names.now }
{
    names.as_slice().iter().any(|other| *name == *other)
}

fn is_text(value: &Val) -> bool
    ensures { result ≡ is_text (datum_of value.now) }
{
    match value {
        Val::Text(_) => true,
        _ => false,
    }
}

/// Whether a property may be set, and is a text.
fn is_settable(schema: &Schema, pair: &Pair) -> bool
    ensures { result ≡ is_settable schema.now (pair.now.name, datum_of pair.now.value) }
{
    is_among(&pair.name, &schema.props)
        && !is_among(&pair.name, &schema.read_only)
        && is_text(&pair.value)
}

fn are_settable(schema: &Schema, pairs: &[Pair]) -> bool
    ensures { result ≡ list_all (is_settable schema.now) (pairs_of pairs.now) }
{
    for pair in pairs.iter() {
        if !is_settable(schema, pair) {
            return false;
        }
    }
    true
}

fn are_there(props: &Dict, names: &[Txt]) -> bool
    ensures { result ≡ list_all (is_there props.now) names.now }
{
    names.iter().all(|name| props.get(name.as_str()).is_some())
}

/// Whether a resource may have these properties.
pub fn are_valid(schema: &Schema, props: &Dict) -> bool
    ensures { result ≡ are_valid schema.now props.now }
{
    are_settable(schema, props.as_slice())
        && are_there(props, schema.required.as_slice())
        && is_short(props)
}

/// Whether the properties are within their limit.
fn is_short(props: &Dict) -> bool
    ensures { result ≡ nat_le (size_of_dict props.now) 262144 }
{
    props.size() <= MOST_BYTES
}

fn agree_at(old: &Dict, new: &Dict, name: &Txt) -> bool
    ensures { result ≡ agree_at old.now new.now name.now }
{
    match (old.get(name.as_str()), new.get(name.as_str())) {
        (Some(one), Some(two)) => one == two,
        _ => true,
    }
}

fn all_agree(old: &Dict, new: &Dict, names: &[Txt]) -> bool
    ensures { result ≡ list_all (agree_at old.now new.now) names.now }
{
    names.iter().all(|name| agree_at(old, new, name))
}

/// Whether two resources are the same one.
pub fn are_same(schema: &Schema, old: &Dict, new: &Dict) -> bool
    ensures { result ≡ are_same schema.now old.now new.now }
{
    all_agree(old, new, schema.create_only.as_slice())
        && all_agree(old, new, schema.conditional.as_slice())
}

fn differs_at(old: &Dict, new: &Dict, name: &Txt) -> bool
    ensures { result ≡ differs_at name.now old.now new.now }
{
    match (old.get(name.as_str()), new.get(name.as_str())) {
        (Some(one), Some(two)) => one != two,
        (None, None) => false,
        _ => true,
    }
}

fn is_sealed(props: &Dict, name: &Txt) -> bool
    ensures { result ≡ is_sealed (value_at name.now props.now) }
{
    match props.get(name.as_str()) {
        Some(Val::Text(text)) => text.is("sealed"),
        _ => false,
    }
}

fn breaks_seal(old: &Dict, new: &Dict, name: &Txt) -> bool
    ensures { result ≡ breaks_seal old.now new.now name.now }
{
    is_sealed(old, name) && differs_at(old, new, name)
}

fn any_differs(old: &Dict, new: &Dict, names: &[Txt]) -> bool
    ensures { result ≡ any_differs names.now old.now new.now }
{
    names.iter().any(|name| differs_at(old, new, name))
}

fn any_breaks_seal(old: &Dict, new: &Dict, names: &[Txt]) -> bool
    ensures { result ≡ list_any (breaks_seal old.now new.now) names.now }
{
    names.iter().any(|name| breaks_seal(old, new, name))
}

/// Whether the change of properties needs a new resource.
pub fn is_fixed(schema: &Schema, old: &Dict, new: &Dict) -> bool
    ensures { result ≡ is_fixed schema.now old.now new.now }
{
    any_differs(old, new, schema.create_only.as_slice())
        || any_breaks_seal(old, new, schema.conditional.as_slice())
}

fn text_at<'a>(props: &'a Dict, name: &str) -> &'a str
    ensures { result.now ≡ text_in (value_at name.now props.now) }
{
    match props.get(name) {
        Some(Val::Text(text)) => text.as_str(),
        _ => "",
    }
}

/// The text whose length is an attribute.
fn measured(props: &Dict) -> &str
    ensures { result.now ≡ measured props.now }
{
    if props.get("Content").is_some() {
        text_at(props, "Content")
    } else {
        text_at(props, "Value")
    }
}

/// The attributes of a resource: its properties, its id and the length of what it holds.
pub fn attrs_of(alloc: Global, id: &Txt, props: &Dict) -> Result<Dict, AllocError>
    requires { IsTrue (nat_le (size_of_dict props.now) 262144) }
    ensures { IfOk result (λ attrs. attrs ≡ attrs_of id.now props.now) }
{
    let mut attrs = props.try_clone(alloc)?;
    attrs.insert(Txt::from_str(alloc, "Id")?, Val::Text(id.try_clone(alloc)?))?;
    let length = measured(props).len() as i64;
    attrs.insert(Txt::from_str(alloc, "Length")?, Val::Whole(length))?;
    Ok(attrs)
}
