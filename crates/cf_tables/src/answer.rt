//! What a row is answered.
use crate::changes::changes_line;
use crate::commands::{command_line, workers_line};
use crate::contents::contents;
use crate::entries::entry_line;
use crate::evaluating::{evaluated, object_of};
use crate::exits::{exit_line, print_line};
use crate::fault::{bind_fault, schema_fault, template_fault};
use crate::given::given_of;
use crate::heading::{Heading, Kind};
use crate::json::push_value;
use crate::lanes::lane_line;
use crate::ordering::work_order;
use crate::plans::{plan_line, terms_line};
use crate::texts;
use crate::texts::bytes_of;
use crate::told::Told;
use cf_handler::{file_schema, record_schema};
use cf_param::{Given, bind};
use cf_rows::Memory;
use cf_schema::{Difference, Schema, differs, read_schema};
use cf_template::read_template;
use cf_tree::{Bound, NoMemory, Setting, Template};
use std::alloc::{AllocError, Global};

/// What a row is answered under its heading; a long answer is its number of bytes.
pub fn answer(alloc: Global, heading: &Heading, row: &str) -> Result<String, AllocError> {
    let mut told = Told::new(alloc);
    if heading.kind == Kind::Change {
        let (old, new) = row.split_once(" <- ").unwrap_or((row, "{}"));
        change(&mut told, heading.text.as_str(), old, new);
    } else {
        let text = heading.around(&mut told.memory, row);
        tell(&mut told, heading.kind, text.as_str(), heading.given(row));
        drop(text);
    }
    told.finish()
}

fn tell(told: &mut Told, kind: Kind, text: &str, given: &str) {
    match kind {
        Kind::Schema | Kind::Change => schema(told, text),
        Kind::Bytes => bytes(told, text),
        Kind::Holes => texts::parts(told, text),
        Kind::Split => texts::pieces(told, text, given),
        Kind::Commas => texts::members(told, text),
        Kind::Number => texts::billionths(told, text),
        Kind::Base64 => texts::encoded(told, text),
        Kind::Size => texts::size(told, text),
        Kind::Code => texts::code(told, text),
        Kind::Shipped => shipped(told, text),
        Kind::Plan => plan_line(told, text, given),
        Kind::Terms => terms_line(told, text, given),
        Kind::Changes => changes_line(told, text, given),
        Kind::Words => command_line(told, text),
        Kind::Workers => workers_line(told, text),
        Kind::Exit => exit_line(told, text, given),
        Kind::Print => print_line(told, text, given),
        Kind::Entry => entry_line(told, text),
        Kind::Lane => lane_line(told, text, given),
        _ => read(told, kind, text.as_bytes(), given),
    }
}

/// What reading a template of these bytes answers.
fn bytes(told: &mut Told, text: &str) {
    let bytes = bytes_of(&mut told.memory, text);
    read(told, Kind::Template, bytes.as_slice(), "");
    drop(bytes);
}

fn read(told: &mut Told, kind: Kind, bytes: &[u8], given: &str) {
    match read_template(told.memory.alloc, bytes) {
        Ok(template) => {
            template_line(told, kind, &template, given);
            drop(template);
        }
        Err(fault) => {
            template_fault(told, &fault);
            drop(fault);
        }
    }
}

fn template_line(told: &mut Told, kind: Kind, template: &Template, given: &str) {
    match kind {
        Kind::Template => told.put("read"),
        Kind::Contents => contents(told, template, given),
        _ => match given_of(&mut told.memory, given) {
            Some(given) => parameters(told, kind, template, given),
            None => told.put("a name comes twice"),
        },
    }
}

fn parameters(told: &mut Told, kind: Kind, template: &Template, given: Given) {
    let bound = bind(told.memory.alloc, template, &given);
    drop(given);
    match bound {
        Ok(bound) => {
            evaluation(told, kind, template, &bound);
            drop(bound);
        }
        Err(fault) => {
            bind_fault(told, &fault);
            drop(fault);
        }
    }
}

fn evaluation(told: &mut Told, kind: Kind, template: &Template, bound: &Bound) {
    match kind {
        Kind::Order => work_order(told, template, bound),
        Kind::Condition | Kind::Value | Kind::Properties => evaluated(told, kind, template, bound),
        _ => bindings(told, bound),
    }
}

/// The names of parameters with what they are bound to.
fn bindings(told: &mut Told, bound: &Bound) {
    let mut first = true;
    for pair in bound.as_slice() {
        told.put(if first { "" } else { " " });
        told.put(pair.0.as_str());
        told.put("=");
        match &pair.1 {
            Setting::Value(value) => push_value(told, value),
            Setting::Later => told.put("Later"),
        }
        first = false;
    }
}

/// The schema of a type that is shipped.
fn shipped(told: &mut Told, kind: &str) {
    match kind {
        "Local::Files::File" => {
            let schema = file_schema(told.memory.alloc);
            known(told, schema);
        }
        "Local::Records::Record" => {
            let schema = record_schema(told.memory.alloc);
            known(told, schema);
        }
        _ => told.put("no such type"),
    }
}

fn known(told: &mut Told, schema: Result<Schema, NoMemory>) {
    match schema {
        Ok(schema) => {
            described(told, &schema);
            drop(schema);
        }
        Err(NoMemory) => told.memory.lose(),
    }
}

/// The type of a schema, and its lists of names; or why it is not read.
fn schema(told: &mut Told, text: &str) {
    match read_schema(told.memory.alloc, text.as_bytes()) {
        Ok(schema) => {
            described(told, &schema);
            drop(schema);
        }
        Err(fault) => {
            schema_fault(told, &fault);
            drop(fault);
        }
    }
}

fn described(told: &mut Told, schema: &Schema) {
    told.json(schema.kind.as_str());
    for names in [
        &schema.props,
        &schema.required,
        &schema.create_only,
        &schema.conditional,
        &schema.read_only,
        &schema.identifier,
    ] {
        told.put(" ");
        told.names(names.as_slice());
    }
}

/// How two objects of properties differ by a schema.
fn change(told: &mut Told, schema: &str, old: &str, new: &str) {
    match read_schema(told.memory.alloc, schema.as_bytes()) {
        Ok(schema) => {
            let word = difference(&mut told.memory, &schema, old, new);
            told.put(word);
            drop(schema);
        }
        Err(fault) => {
            schema_fault(told, &fault);
            drop(fault);
        }
    }
}

fn difference(memory: &mut Memory, schema: &Schema, old: &str, new: &str) -> &'static str {
    let old = object_of(memory, old);
    let new = object_of(memory, new);
    let difference = differs(schema, &old, &new);
    drop(old);
    drop(new);
    match difference {
        Difference::Same => "Same",
        Difference::Update => "Update",
        Difference::MayReplace => "MayReplace",
        Difference::Replace => "Replace",
    }
}
