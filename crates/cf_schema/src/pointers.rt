ghost use Rattle.std.specs.Prelude.{◌≡◌, find, option_map};
ghost use Rattle.std.specs.Option.{option_copied};
ghost use Rattle.std.specs.Str.{bytes_eq};
ghost use Rattle.cf_schema.specs.Fault.{Reads};
ghost use Rattle.cf_schema.specs.Past.{IsBehind};
ghost use Rattle.cf_schema.specs.Spelling.{spelled_as};
ghost use Rattle.cf_schema.specs.Reading.{escape_of, escaped_name, properties_named, pointer_to};

use crate::fault::SchemaFault;
use cf_tree::{Names, Txt};
use std::alloc::Global;

/// How a list of a schema writes the properties that it names.
#[derive(Clone, Copy)]
pub(crate) enum Spelling {
    /// By their names.
    Name,
    /// By pointers of one level from the schema's root.
    Pointer,
}

/// The properties that texts name.
#[tactic(auto, using(crate::proofs::Naming::named_more, crate::proofs::Naming::named_not))]
pub(crate) fn properties(
    alloc: Global,
    spelling: Spelling,
    props: &Names,
    texts: Names,
) -> Result<Names, SchemaFault>
    ensures { Reads (properties_named (spelled_as spelling) props.now texts) result }
{
    let mut found = Names::new(alloc);
    for text in texts.into_vec() {
        match property(spelling, props.as_slice(), text.as_str()) {
            Some(property) => found.push(property.try_clone(alloc)?)?,
            None => return Err(SchemaFault::BadPointer { text }),
        }
    }
    Ok(found)
}

#[tactic(auto, using(crate::proofs::Naming::found_here, crate::proofs::Naming::passed))]
fn property<'a>(spelling: Spelling, props: &'a [Txt], text: &str) -> Option<&'a Txt>
    ensures { option_copied result ≡ find (λ p. bytes_eq text.now (spelled_as spelling p)) props.now }
{
    for property in props {
        if is_spelled(spelling, text, property.as_str()) {
            return Some(property);
        }
    }
    None
}

fn is_spelled(spelling: Spelling, text: &str, property: &str) -> bool
    ensures { result ≡ bytes_eq text.now (spelled_as spelling property.now) }
{
    match spelling {
        Spelling::Name => text == property,
        Spelling::Pointer => is_pointer_to(text, property),
    }
}

#[tactic(auto, using(crate::proofs::Spelled::spelled_on, crate::proofs::Spelled::spelled_otherwise))]
fn is_pointer_to(text: &str, property: &str) -> bool
    ensures { result ≡ bytes_eq text.now (pointer_to property.now) }
{
    match text.as_bytes().strip_prefix(b"/properties/") {
        Some(name) => is_escaped(name, property.as_bytes()),
        None => false,
    }
}

// Whether a name in a pointer is this property's.
#[tactic(auto, using(crate::proofs::Spelled::spelled_on, crate::proofs::Spelled::spelled_otherwise))]
fn is_escaped(text: &[u8], property: &[u8]) -> bool
    ensures { result ≡ bytes_eq text.now (escaped_name property.now) }
{
    let mut rest = text;
    for byte in property {
        match past(rest, *byte) {
            Some(after) => rest = after,
            None => return false,
        }
    }
    rest.is_empty()
}

// What follows a byte of a property's name.
fn past(text: &[u8], byte: u8) -> Option<&[u8]>
    ensures { IsBehind (escape_of byte) text.now (option_map (λ rest. rest.now) result) }
{
    match byte {
        b'~' => text.strip_prefix(b"~0"),
        b'/' => text.strip_prefix(b"~1"),
        other => text.strip_prefix(&[other]),
    }
}
