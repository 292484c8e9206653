//! What a template holds once it is read.
//!
//! A row asks for the names of a section's members, or for one of them by the section and its name.
use crate::formed::{condition_form, expr_form};
use crate::json::push_object;
use crate::told::Told;
use cf_tree::{ByName, Deletion, Dict, Kind, Named, Out, Param, Replace, Res, Template, Txt};

/// What is asked for, as `Resources` or `Resources A`.
pub fn contents(told: &mut Told, template: &Template, asked: &str) {
    match asked.split_once(' ') {
        Some((section, name)) => member(told, template, section, name),
        None => members(told, template, asked),
    }
}

fn members(told: &mut Told, template: &Template, section: &str) {
    match section {
        "Parameters" => push_named(told, template.params.as_slice()),
        "Mappings" => push_keys(told, template.mappings.as_slice()),
        "Conditions" => push_keys(told, template.conds.as_slice()),
        "Resources" => push_named(told, template.resources.as_slice()),
        _ => push_named(told, template.outputs.as_slice()),
    }
}

/// Adds the names of items as JSON.
fn push_named<T: Named>(told: &mut Told, items: &[T]) {
    told.put("[");
    let mut first = true;
    for item in items {
        told.part(first);
        told.json(item.name().as_str());
        first = false;
    }
    told.put("]");
}

/// Adds the keys of pairs as JSON.
fn push_keys<V>(told: &mut Told, pairs: &[(Txt, V)]) {
    told.put("[");
    let mut first = true;
    for pair in pairs {
        told.part(first);
        told.json(pair.0.as_str());
        first = false;
    }
    told.put("]");
}

fn member(told: &mut Told, template: &Template, section: &str, name: &str) {
    match section {
        "Parameters" => match template.params.find(name) {
            Some(param) => parameter(told, param),
            None => told.put("none"),
        },
        "Mappings" => match template.mappings.get(name) {
            Some(mapping) => rows(told, mapping),
            None => told.put("none"),
        },
        "Conditions" => match template.conds.get(name) {
            Some(cond) => condition_form(told, cond),
            None => told.put("none"),
        },
        "Resources" => match template.resources.find(name) {
            Some(found) => resource(told, found),
            None => told.put("none"),
        },
        _ => match template.outputs.find(name) {
            Some(found) => output(told, found),
            None => told.put("none"),
        },
    }
}

/// A parameter; its bounds on values count in 10^-9.
fn parameter(told: &mut Told, param: &Param) {
    told.put(kind_word(param.kind));
    text(told, " Default ", &param.default);
    if let Some(allowed) = &param.allowed {
        told.put(" AllowedValues ");
        told.names(allowed.as_slice());
    }
    text(told, " AllowedPattern ", &param.pattern);
    length(told, " MinLength ", param.min_length);
    length(told, " MaxLength ", param.max_length);
    bound(told, " MinValue ", param.min_value);
    bound(told, " MaxValue ", param.max_value);
    if param.no_echo {
        told.put(" NoEcho");
    }
    text(told, " Description ", &param.description);
    text(told, " ConstraintDescription ", &param.constraint);
}

fn kind_word(kind: Kind) -> &'static str {
    match kind {
        Kind::Text => "String",
        Kind::Number => "Number",
        Kind::Numbers => "List<Number>",
        Kind::Commas => "CommaDelimitedList",
    }
}

fn text(told: &mut Told, word: &str, text: &Option<Txt>) {
    if let Some(text) = text {
        told.named(word, text);
    }
}

fn length(told: &mut Told, word: &str, number: Option<u64>) {
    if let Some(number) = number {
        told.put(word);
        told.number(number);
    }
}

fn bound(told: &mut Told, word: &str, number: Option<i128>) {
    if let Some(number) = number {
        told.put(word);
        told.billionths(number);
    }
}

/// The first keys of a mapping, each with what it leads to.
fn rows(told: &mut Told, mapping: &ByName<Dict>) {
    let mut first = true;
    for pair in mapping.as_slice() {
        told.named(if first { "" } else { " " }, &pair.0);
        told.put(" ");
        push_object(told, &pair.1);
        first = false;
    }
}

fn resource(told: &mut Told, resource: &Res) {
    told.json(resource.kind.as_str());
    for pair in resource.props.as_slice() {
        told.named(" ", &pair.name);
        told.put(": ");
        expr_form(told, &pair.value);
    }
    if !resource.depends.is_empty() {
        told.put(" DependsOn ");
        told.names(resource.depends.as_slice());
    }
    text(told, " Condition ", &resource.condition);
    told.put(deletion_word(resource.deletion));
    told.put(replace_word(resource.replace));
}

fn deletion_word(deletion: Option<Deletion>) -> &'static str {
    match deletion {
        Some(Deletion::Delete) => " DeletionPolicy Delete",
        Some(Deletion::Retain) => " DeletionPolicy Retain",
        Some(Deletion::RetainExceptOnCreate) => " DeletionPolicy RetainExceptOnCreate",
        None => "",
    }
}

fn replace_word(replace: Option<Replace>) -> &'static str {
    match replace {
        Some(Replace::Delete) => " UpdateReplacePolicy Delete",
        Some(Replace::Retain) => " UpdateReplacePolicy Retain",
        None => "",
    }
}

fn output(told: &mut Told, output: &Out) {
    expr_form(told, &output.value);
    text(told, " Description ", &output.description);
    text(told, " Condition ", &output.condition);
    if let Some(name) = &output.export {
        told.put(" Export ");
        expr_form(told, name);
    }
}
