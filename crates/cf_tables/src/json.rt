//! Values as compact JSON.
use crate::told::Told;
use cf_tree::{Dict, Pair, Val};

/// Adds an object of properties as JSON.
pub fn push_object(told: &mut Told, object: &Dict) {
    push_members(told, object.as_slice());
}

/// Adds a value as JSON.
#[cycle(tree)]
pub fn push_value(told: &mut Told, value: &Val) {
    match value {
        Val::Text(text) => told.json(text.as_str()),
        Val::Whole(number) => told.whole(*number),
        Val::Truth(truth) => told.put(if *truth { "true" } else { "false" }),
        Val::List(items) => push_items(told, items.as_slice()),
        Val::Dict(pairs) => push_members(told, pairs.as_slice()),
    }
}

#[cycle(tree)]
#[tactic(auto, using(cf_tree::proofs::Falls::item_falls))]
fn push_items(told: &mut Told, items: &[Val]) {
    told.put("[");
    let mut first = true;
    for item in items {
        told.part(first);
        push_value(told, item);
        first = false;
    }
    told.put("]");
}

#[cycle(tree)]
#[tactic(auto, using(cf_tree::proofs::Falls::pair_falls))]
fn push_members(told: &mut Told, pairs: &[Pair]) {
    told.put("{");
    let mut first = true;
    for pair in pairs {
        told.part(first);
        told.json(pair.name.as_str());
        told.put(":");
        push_value(told, &pair.value);
        first = false;
    }
    told.put("}");
}
