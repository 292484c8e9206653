ghost use Rattle.std.specs.Prelude.{◌≡◌, Some, Ok, IfOk, IfErr};
ghost use Rattle.serde_json.specs.View.{view};
ghost use Rattle.cf_schema.specs.Fault.{IsJsonFault, Reads};
ghost use Rattle.cf_schema.specs.Json.{json_of};
ghost use Rattle.cf_schema.specs.Reading.{schema_fields, schema_in, schema_of};

use crate::described::Schema;
use crate::fault::SchemaFault;
use crate::members::{
    identifier_member, names_member, pointers_member, required_member, text_member, wrong_shape,
};
use serde_json::Value;
use std::alloc::Global;

/// The schema that a JSON text is (CloudFormation CLI guide, resource type schema).
///
/// Its members are `typeName`, `properties`, `primaryIdentifier`, and where they are there `required`, `createOnlyProperties`,
/// `conditionalCreateOnlyProperties` and `readOnlyProperties`; others are not read.
///
/// # Errors
///
/// The first fault in this order of the members, and of each `Missing`, `WrongShape` and `BadPointer` in this order.
/// `NotJson` comes before them, and then `WrongShape` with the empty name where the text is no object. `NoMemory` may come anywhere.
pub fn read_schema(alloc: Global, bytes: &[u8]) -> Result<Schema, SchemaFault>
    ensures { Reads (schema_in bytes.now) result }
{
    let root = read_json(alloc, bytes)?;
    schema_from(alloc, &root)
}

/// The JSON value that the bytes are.
fn read_json(alloc: Global, bytes: &[u8]) -> Result<Value, SchemaFault>
    ensures ok { IfOk result (λ v. json_of bytes.now ≡ Some (view v)) }
    ensures err { IfErr result (λ e. IsJsonFault bytes.now e) }
{
    match Value::from_slice(alloc, bytes) {
        Ok(value) => Ok(value),
        Err(error) => {
            if error.is_memory() {
                Err(SchemaFault::NoMemory)
            } else {
                Err(SchemaFault::NotJson)
            }
        }
    }
}

fn schema_from(alloc: Global, root: &Value) -> Result<Schema, SchemaFault>
    ensures { Reads (schema_of (view root.now)) result }
{
    match root {
        Value::Object(_) => fields(alloc, root),
        Value::Null | Value::Bool(_) | Value::Number(_) | Value::String(_) | Value::Array(_) => {
            Err(wrong_shape(alloc, ""))
        }
    }
}

fn fields(alloc: Global, root: &Value) -> Result<Schema, SchemaFault>
    ensures { Reads (schema_fields (view root.now)) result }
{
    let kind = text_member(alloc, root, "typeName")?;
    let props = names_member(alloc, root, "properties")?;
    let identifier = identifier_member(alloc, root, &props)?;
    let required = required_member(alloc, root, &props)?;
    let create_only = pointers_member(alloc, root, "createOnlyProperties", &props)?;
    let conditional = pointers_member(alloc, root, "conditionalCreateOnlyProperties", &props)?;
    let read_only = pointers_member(alloc, root, "readOnlyProperties", &props)?;
    Ok(Schema {
        kind,
        props,
        required,
        create_only,
        conditional,
        read_only,
        identifier,
    })
}
