//! What handlers stand on: schemas by their types, and calls that are settled.
use crate::told::is_told;
use cf_handler::{Settled, Settlement, settlement_of};
use cf_schema::{SchemaFault, Schemas, read_schema};
use cf_tree::{Answer, Code, Dict, Request, Txt};
use std::alloc::{AllocError, Global};
use std::process::Abort;
use std::test::Fail;

const SCHEMAS: [&str; 3] = [
    "{\"typeName\":\"X\",\"properties\":{\"A\":{}},\"primaryIdentifier\":[]}",
    "{\"typeName\":\"Y\",\"properties\":{},\"primaryIdentifier\":[]}",
    "{\"typeName\":\"X\",\"properties\":{},\"primaryIdentifier\":[]}",
];

fn add_all(alloc: Global, schemas: &mut Schemas) -> Result<(), SchemaFault> {
    for text in SCHEMAS {
        schemas.add(read_schema(alloc, text.as_bytes())?)?;
    }
    Ok(())
}

/// The type that a copy of a schema has, and the number of its properties; `none` where a type has no schema.
fn schema_line(alloc: Global, schemas: &Schemas, kind: &str) -> Result<String, AllocError> {
    match schemas.find(kind) {
        Some(schema) => {
            let copy = schema.try_clone(alloc)?;
            let line = format!(in alloc; "{} {}", copy.kind.as_str(), schema.props.len());
            drop(copy);
            line
        }
        None => String::from_str(alloc, "none"),
    }
}

fn schemas_are_found(rt: &impl Abort, alloc: Global, schemas: &mut Schemas) -> Result<(), Fail> {
    add_all(alloc, schemas)?;
    assert_eq!(rt; schemas.len(), 2);
    is_told(rt, schema_line(alloc, schemas, "X"), "X 1")?;
    is_told(rt, schema_line(alloc, schemas, "Z"), "none")
}

#[test]
fn a_type_has_one_schema(rt: HostRuntime) -> Result<(), Fail> {
    let mut schemas = Schemas::new(rt.alloc());
    let found = schemas_are_found(&rt, rt.alloc(), &mut schemas);
    drop(schemas);
    found
}

/// The call of token 2, which deleted `f1:2` and succeeded.
fn settled(alloc: Global) -> Result<Settled, AllocError> {
    let asked = Txt::from_str(alloc, "f1:2")?;
    let physical = Txt::from_str(alloc, "f1:2")?;
    Ok(Settled {
        token: 2,
        request: Request::Delete { physical: asked },
        settlement: Settlement::Success {
            physical,
            attrs: Dict::new(alloc),
        },
    })
}

fn answer_text(alloc: Global, answer: &Answer) -> Result<String, AllocError> {
    match answer {
        Answer::Success { physical, attrs } => {
            format!(in alloc; "{} {}", physical.as_str(), attrs.len())
        }
        Answer::Failed { code } => String::from_str(alloc, code.name()),
        Answer::Fault | Answer::Stale { fence: _ } | Answer::NoMemory => {
            String::from_str(alloc, "other")
        }
    }
}

/// What a settlement answers again: an id and the number of its attributes, or a code.
fn again(alloc: Global, settlement: &Settlement) -> Result<String, AllocError> {
    let answer = settlement.answer(alloc)?;
    let text = answer_text(alloc, &answer);
    drop(answer);
    text
}

fn answer_to(alloc: Global, entries: &[Settled], token: u64) -> Result<String, AllocError> {
    match settlement_of(entries, token) {
        Some(settlement) => again(alloc, settlement),
        None => String::from_str(alloc, "none"),
    }
}

#[test]
fn a_settled_call_answers_again(rt: HostRuntime) -> Result<(), Fail> {
    let alloc = rt.alloc();
    let entries = [settled(alloc)?];
    let before = answer_to(alloc, entries.as_slice(), 1);
    let answered = answer_to(alloc, entries.as_slice(), 2);
    drop(entries);
    is_told(&rt, before, "none")?;
    is_told(&rt, answered, "f1:2 0")
}

#[test]
fn a_refusal_answers_again(rt: HostRuntime) -> Result<(), Fail> {
    let refused = Settlement::Failed {
        code: Code::Throttling,
    };
    let answered = again(rt.alloc(), &refused);
    drop(refused);
    is_told(&rt, answered, "Throttling")
}
