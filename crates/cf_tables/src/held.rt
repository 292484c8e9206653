//! What a stack holds, and the source that may change it.
//!
//! Behind ` <- ` a row says it in words between ` & `: those of a plan (`scene`), of which `A is ID` says nothing here, and
//!
//! - `held PATH TYPE ID PROPS ATTRS POLICIES unsure` is a resource. Its properties and attributes are JSON without blanks; what
//!   is left out at the end is an empty object, `Delete/Delete`, or that it is sure;
//! - `output N=V` is an output, and `output N=V as E` an exported one;
//! - `export E=V` is an export of the stack;
//! - `schema {..}` is the schema of a type. Those of the types that are shipped are there.
use crate::evaluating::object_of;
use crate::pieces::cut;
use crate::scene::{Scene, add_pair, add_word, scene_of};
use cf_change::{HeldAt, HeldMap};
use cf_export::{Output, Outputs};
use cf_handler::{file_schema, record_schema};
use cf_rows::Memory;
use cf_schema::{Schema, Schemas, read_schema};
use cf_tree::{Deletion, Listing, NoMemory, Pairs, Replace};

/// The source that may change a stack, what the stack holds, and the schemas that there are.
#[derive(Drop)]
pub struct Stack {
    pub scene: Scene,
    pub held: HeldMap,
    pub schemas: Schemas,
}

/// The stack `app`, which holds what words say.
pub fn stack_of(memory: &mut Memory, template: &str, words: &str) -> Stack {
    let mut stack = Stack {
        scene: scene_of(memory, template, ""),
        held: HeldMap {
            resources: Listing::new(memory.alloc),
            outputs: Outputs::new(memory.alloc),
            exports: Pairs::new(memory.alloc),
        },
        schemas: Schemas::new(memory.alloc),
    };
    add_shipped(memory, &mut stack.schemas);
    if !words.is_empty() {
        for word in words.split(" & ") {
            add(memory, &mut stack, word);
        }
    }
    stack
}

fn add_shipped(memory: &mut Memory, schemas: &mut Schemas) {
    let file = file_schema(memory.alloc);
    add_known(memory, schemas, file);
    let record = record_schema(memory.alloc);
    add_known(memory, schemas, record);
}

fn add_known(memory: &mut Memory, schemas: &mut Schemas, schema: Result<Schema, NoMemory>) {
    match schema {
        Ok(schema) => memory.note(schemas.add(schema).is_err()),
        Err(NoMemory) => memory.lose(),
    }
}

fn add(memory: &mut Memory, stack: &mut Stack, word: &str) {
    if let Some(words) = word.strip_prefix("held ") {
        let resource = resource_of(memory, words);
        memory.note(stack.held.resources.push(resource).is_err());
    } else if let Some(words) = word.strip_prefix("output ") {
        let output = output_of(memory, words);
        memory.note(stack.held.outputs.push(output).is_err());
    } else if let Some(export) = word.strip_prefix("export ") {
        add_pair(memory, &mut stack.held.exports, export);
    } else if let Some(schema) = word.strip_prefix("schema ") {
        add_schema(memory, &mut stack.schemas, schema);
    } else {
        add_word(memory, &mut stack.scene, word);
    }
}

/// A resource from its words.
fn resource_of(memory: &mut Memory, words: &str) -> HeldAt {
    let (path, words) = cut(words);
    let (kind, words) = cut(words);
    let (physical, words) = cut(words);
    let (props, words) = cut(words);
    let (attrs, words) = cut(words);
    let (policies, last) = cut(words);
    let (deletion, replace) = policies_of(policies);
    HeldAt {
        path: memory.text(path),
        kind: memory.text(kind),
        physical: memory.text(physical),
        props: object_of(memory, props),
        attrs: object_of(memory, attrs),
        deletion,
        replace,
        unsure: last == "unsure",
    }
}

/// What becomes of a resource that is deleted, and of one that is replaced.
fn policies_of(word: &str) -> (Deletion, Replace) {
    let (deletion, replace) = word.split_once('/').unwrap_or((word, ""));
    let deletion = match deletion {
        "Retain" => Deletion::Retain,
        "RetainExceptOnCreate" => Deletion::RetainExceptOnCreate,
        _ => Deletion::Delete,
    };
    let replace = match replace {
        "Retain" => Replace::Retain,
        _ => Replace::Delete,
    };
    (deletion, replace)
}

/// An output from its words.
fn output_of(memory: &mut Memory, words: &str) -> Output {
    let (pair, export) = match words.split_once(" as ") {
        Some((pair, name)) => (pair, Some(memory.text(name))),
        None => (words, None),
    };
    let (name, value) = pair.split_once('=').unwrap_or((pair, ""));
    Output {
        name: memory.text(name),
        value: memory.text(value),
        export,
    }
}

/// Adds the schema that a text is, where it is one.
fn add_schema(memory: &mut Memory, schemas: &mut Schemas, text: &str) {
    match read_schema(memory.alloc, text.as_bytes()) {
        Ok(schema) => memory.note(schemas.add(schema).is_err()),
        Err(fault) => drop(fault),
    }
}
