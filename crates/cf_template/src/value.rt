ghost use Rattle.std.specs.Prelude.{◌≡◌};
ghost use Rattle.serde_json.specs.View.{members_view};
ghost use Rattle.cf_template.specs.Json.{IsValueOf, count};

use crate::refusal::TemplateFault;
use serde_json::{Map, Value};
use std::alloc::Global;

/// The JSON value that the bytes are.
pub(crate) fn value_of(alloc: Global, bytes: &[u8]) -> Result<Value, TemplateFault>
    ensures { IsValueOf bytes.now result }
{
    match Value::from_slice(alloc, bytes) {
        Ok(value) => Ok(value),
        Err(error) => {
            if error.is_memory() {
                Err(TemplateFault::NoMemory)
            } else {
                Err(TemplateFault::NotJson)
            }
        }
    }
}

/// How many members the object has.
#[tactic(auto, using(crate::proofs::Counts::count_view))]
pub(crate) fn count_of(members: &Map<String, Value>) -> usize
    ensures { result ≡ count (members_view members.now.entries) }
{
    members.len()
}
