//! What is wanted, in words: each part behind `; `.
use crate::json::{push_object, push_value};
use crate::told::Told;
use cf_desired::{
    Evaluated, Exporting, Flaw, Inner, Plan, Prop, Right, Terms, Wanted, WantedOutput, WholePlan,
};
use cf_export::Output;
use cf_tree::{Deletion, Names, Replace, Txt};

/// Adds the resources, outputs and exports of a plan.
pub fn push_plan(told: &mut Told, plan: &Plan) {
    let flaws = plan.flaws.as_slice();
    for wanted in plan.wanted.as_slice() {
        resource(told, flaws, wanted);
    }
    push_outputs(told, flaws, plan.outputs.as_slice());
    for export in plan.exports.as_slice() {
        told.named("; export ", &export.0);
        text_or_later(told, &export.1);
    }
}

fn push_outputs(told: &mut Told, flaws: &[Flaw], outputs: &[WantedOutput]) {
    for output in outputs {
        wanted_output(told, flaws, output);
    }
}

/// The same of a plan that is known as a whole.
pub fn push_whole(told: &mut Told, whole: &WholePlan) {
    for right in whole.wanted.as_slice() {
        known_resource(told, right);
    }
    push_known(told, whole.outputs.as_slice());
    for export in whole.exports.as_slice() {
        told.named("; export ", &export.0);
        told.named(" ", &export.1);
    }
}

fn push_known(told: &mut Told, outputs: &[Output]) {
    for output in outputs {
        known_output(told, output);
    }
}

/// What a source says of a path besides its properties: policies stand where one is not `Delete`, needs where there are some.
pub fn push_terms(told: &mut Told, terms: &Terms) {
    told.put(terms.kind.as_str());
    told.put(policies(terms.deletion, terms.replace));
    push_needs(told, &terms.needs);
}

/// A nested stack: the path of its stack resource, what that needs, and why its parameters can't be bound.
pub fn push_stack(told: &mut Told, flaws: &[Flaw], inner: &Inner) {
    told.put("; stack ");
    told.put(inner.path.as_str());
    push_needs(told, &inner.needs);
    if let Some(flaw) = &inner.fault {
        told.put(" ");
        numbered(told, flaws, flaw);
    }
}

fn push_needs(told: &mut Told, needs: &Names) {
    if !needs.is_empty() {
        told.put(" needs ");
        told.names(needs.as_slice());
    }
}

fn policies(deletion: Deletion, replace: Replace) -> &'static str {
    match (deletion, replace) {
        (Deletion::Delete, Replace::Delete) => "",
        (Deletion::Retain, Replace::Delete) => " Retain/Delete",
        (Deletion::RetainExceptOnCreate, Replace::Delete) => " RetainExceptOnCreate/Delete",
        (Deletion::Delete, Replace::Retain) => " Delete/Retain",
        (Deletion::Retain, Replace::Retain) => " Retain/Retain",
        (Deletion::RetainExceptOnCreate, Replace::Retain) => " RetainExceptOnCreate/Retain",
    }
}

fn resource(told: &mut Told, flaws: &[Flaw], wanted: &Wanted) {
    told.put("; ");
    told.put(wanted.path.as_str());
    told.word(wanted.kind.as_str());
    told.put(policies(wanted.deletion, wanted.replace));
    push_needs(told, &wanted.needs);
    told.put(" ");
    match &wanted.props {
        Evaluated::Known { props } => properties(told, props.as_slice()),
        Evaluated::Flawed { flaw } => numbered(told, flaws, flaw),
    }
}

fn known_resource(told: &mut Told, right: &Right) {
    told.put("; ");
    told.put(right.path.as_str());
    told.word(right.kind.as_str());
    told.put(policies(right.deletion, right.replace));
    push_needs(told, &right.needs);
    told.put(" ");
    push_object(told, &right.props);
}

/// A flaw by its number among all, counted from 1.
fn numbered(told: &mut Told, flaws: &[Flaw], flaw: &Flaw) {
    match flaws.iter().position(|other| other == flaw) {
        Some(before) => {
            told.put("flaw");
            told.number_word((before as u64).saturating_add(1));
        }
        None => told.put("another flaw"),
    }
}

/// Properties as a JSON object, in which `?` stands for a value that is not known yet.
fn properties(told: &mut Told, props: &[Prop]) {
    told.put("{");
    let mut first = true;
    for prop in props {
        told.part(first);
        property(told, prop);
        first = false;
    }
    told.put("}");
}

fn property(told: &mut Told, prop: &Prop) {
    told.json(prop.name.as_str());
    told.put(":");
    match &prop.value {
        Some(value) => push_value(told, value),
        None => told.put("?"),
    }
}

fn text_or_later(told: &mut Told, text: &Option<Txt>) {
    match text {
        Some(text) => told.named(" ", text),
        None => told.put(" ?"),
    }
}

fn wanted_output(told: &mut Told, flaws: &[Flaw], output: &WantedOutput) {
    told.put("; output ");
    told.put(output.name.as_str());
    text_or_later(told, &output.value);
    match &output.export {
        Exporting::Nothing => {}
        Exporting::Fault => told.put(" as ?"),
        Exporting::Named { name } => told.named(" as ", name),
    }
    if let Some(flaw) = &output.fault {
        told.put(" ");
        numbered(told, flaws, flaw);
    }
}

fn known_output(told: &mut Told, output: &Output) {
    told.put("; output ");
    told.put(output.name.as_str());
    told.named(" ", &output.value);
    if let Some(name) = &output.export {
        told.named(" as ", name);
    }
}
