//! The forms of expressions and conditions in words, each part in brackets and with its place.
use crate::json::push_value;
use crate::told::Told;
use cf_tree::{Cond, CondNode, Conds, Expr, ExprNode, ExprPair, Exprs, Part, Parts, Txt};

/// Adds the form of an expression.
#[cycle(form)]
pub fn expr_form(told: &mut Told, expr: &Expr) {
    node_form(told, expr.node());
    place(told, expr.at());
}

#[cycle(form)]
fn node_form(told: &mut Told, node: &ExprNode) {
    match node {
        ExprNode::Lit(value) => push_value(told, value),
        ExprNode::List(items) => list_form(told, items),
        ExprNode::Dict(pairs) => {
            told.put("Map");
            fields_form(told, pairs.as_slice());
        }
        ExprNode::Ref(name) => told.named("Ref ", name),
        ExprNode::GetAtt { id, attribute } => {
            told.named("GetAtt ", id);
            part_form(told, attribute);
        }
        ExprNode::Sub { parts, map } => {
            told.put("Sub ");
            parts_form(told, parts);
            fields_form(told, map.as_slice());
        }
        ExprNode::Join { delimiter, list } => {
            told.named("Join ", delimiter);
            part_form(told, list);
        }
        ExprNode::Select { index, list } => {
            told.put("Select");
            part_form(told, index);
            part_form(told, list);
        }
        ExprNode::Split { delimiter, text } => {
            told.named("Split ", delimiter);
            part_form(told, text);
        }
        ExprNode::If { name, yes, no } => {
            told.named("If ", name);
            part_form(told, yes);
            part_form(told, no);
        }
        ExprNode::FindInMap { map, first, second } => {
            told.put("FindInMap");
            part_form(told, map);
            part_form(told, first);
            part_form(told, second);
        }
        ExprNode::Import(name) => {
            told.put("ImportValue");
            part_form(told, name);
        }
        ExprNode::Base64(text) => {
            told.put("Base64");
            part_form(told, text);
        }
    }
}

/// A part in brackets.
#[cycle(form)]
fn part_form(told: &mut Told, expr: &Expr) {
    told.put(" (");
    expr_form(told, expr);
    told.put(")");
}

#[cycle(form)]
#[tactic(auto, using(cf_tree::proofs::Falls::form_falls))]
fn list_form(told: &mut Told, items: &Exprs) {
    told.put("List");
    for item in items.as_slice() {
        part_form(told, item);
    }
}

#[cycle(form)]
#[tactic(auto, using(cf_tree::proofs::Falls::field_falls))]
fn fields_form(told: &mut Told, pairs: &[ExprPair]) {
    for pair in pairs {
        told.named(" ", &pair.name);
        part_form(told, &pair.value);
    }
}

/// Adds the parts of a text with holes: plain text in square brackets, and names in pointed ones.
pub fn parts_form(told: &mut Told, parts: &Parts) {
    for part in parts.as_slice() {
        let (open, text, shut) = match part {
            Part::Plain(text) => ("[", text, "]"),
            Part::Name(name) => ("<", name, ">"),
        };
        told.put(open);
        told.put(text.as_str());
        told.put(shut);
    }
}

/// Adds the form of a condition.
#[cycle(condition)]
pub fn condition_form(told: &mut Told, cond: &Cond) {
    test_form(told, cond.node());
    place(told, cond.at());
}

#[cycle(condition)]
fn test_form(told: &mut Told, node: &CondNode) {
    match node {
        CondNode::Equals { left, right } => {
            told.put("Equals");
            part_form(told, left);
            part_form(told, right);
        }
        CondNode::Not(cond) => {
            told.put("Not (");
            condition_form(told, cond);
            told.put(")");
        }
        CondNode::And(conds) => tests_form(told, "And", conds),
        CondNode::Or(conds) => tests_form(told, "Or", conds),
        CondNode::Name(name) => told.named("Condition ", name),
    }
}

#[cycle(condition)]
#[tactic(auto, using(cf_eval::proofs::TestFalls::test_falls))]
fn tests_form(told: &mut Told, word: &str, conds: &Conds) {
    told.put(word);
    for cond in conds.as_slice() {
        told.put(" (");
        condition_form(told, cond);
        told.put(")");
    }
}

fn place(told: &mut Told, at: &Txt) {
    told.put(" at ");
    told.put(at.as_str());
}
