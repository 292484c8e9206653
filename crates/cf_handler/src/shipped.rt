//! The schemas of the two types that are shipped.
ghost use Rattle.std.specs.Prelude.{◌≡◌, Ok, IfOk};
ghost use Rattle.cf_schema.specs.Reading.{schema_in};
ghost use Rattle.cf_handler.specs.Shipped.{file_schema, record_schema};

use cf_schema::{Schema, read_schema};
use cf_tree::NoMemory;
use std::alloc::Global;

/// The schema of a file, as JSON. Its `Path` is its own for life.
pub const FILE_SCHEMA: &str = "{\"typeName\":\"Local::Files::File\",\
\"properties\":{\"Path\":{},\"Content\":{},\"Id\":{},\"Length\":{}},\
\"required\":[\"Path\",\"Content\"],\
\"createOnlyProperties\":[\"/properties/Path\"],\
\"readOnlyProperties\":[\"/properties/Id\",\"/properties/Length\"],\
\"primaryIdentifier\":[\"/properties/Id\"]}";

/// The schema of a record, as JSON. Its `Key` is its own for life, and a change of its `Class` may need a new record.
pub const RECORD_SCHEMA: &str = "{\"typeName\":\"Local::Records::Record\",\
\"properties\":{\"Key\":{},\"Value\":{},\"Class\":{},\"Id\":{},\"Length\":{}},\
\"required\":[\"Key\",\"Value\"],\
\"createOnlyProperties\":[\"/properties/Key\"],\
\"conditionalCreateOnlyProperties\":[\"/properties/Class\"],\
\"readOnlyProperties\":[\"/properties/Id\",\"/properties/Length\"],\
\"primaryIdentifier\":[\"/properties/Id\"]}";

/// The schema of a file, read from its text.
#[tactic(auto, using(crate::proofs::Read::file_reads))]
pub fn file_schema(alloc: Global) -> Result<Schema, NoMemory>
    ensures text { schema_in FILE_SCHEMA.now ≡ Ok file_schema }
    ensures value { IfOk result (λ s. s ≡ file_schema) }
{
    match read_schema(alloc, FILE_SCHEMA.as_bytes()) {
        Ok(schema) => Ok(schema),
        Err(_) => Err(NoMemory),
    }
}

/// The schema of a record, read from its text.
#[tactic(auto, using(crate::proofs::Read::record_reads))]
pub fn record_schema(alloc: Global) -> Result<Schema, NoMemory>
    ensures text { schema_in RECORD_SCHEMA.now ≡ Ok record_schema }
    ensures value { IfOk result (λ s. s ≡ record_schema) }
{
    match read_schema(alloc, RECORD_SCHEMA.as_bytes()) {
        Ok(schema) => Ok(schema),
        Err(_) => Err(NoMemory),
    }
}
