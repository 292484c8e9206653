//! Which names an expression refers to.
ghost use Rattle.std.specs.Prelude.{◌≡◌, ◌++◌, ◌∷◌, [], IfOk, map, codes, is_some, flat_map};
ghost use Rattle.cf_funcs.specs.Pieces.{cut_at};
ghost use Rattle.cf_tree.specs.Form.{node_of, fields_in};
ghost use Rattle.cf_tree.specs.Forms.{forms_of, fields_of};
ghost use Rattle.cf_tree.specs.Keys.{value_at};
ghost use Rattle.cf_graph.specs.Mentions.{mentions_of, node_mentions, forms_mentions, fields_mentions, taken_branch, holes_in, keys_of, hole};
ghost use Rattle.cf_graph.specs.Needs.{holds_in};
ghost use Rattle.cf_graph.specs.Mentioned.{mention_in, mentioned, as_keys};

use cf_funcs::cut;
use cf_tree::{
    CondMap, Expr, ExprDict, ExprNode, ExprPair, Exprs, NoMemory, Part, Parts, Txt, Verdict,
};
use std::alloc::Global;

/// A name that an expression refers to.
#[derive(Drop)]
pub(crate) enum Mention {
    /// As `Ref` has it: a parameter's or a resource's.
    ByRef(Txt),
    /// A resource whose attribute is wanted.
    ByAttribute(Txt),
}

/// Adds the names that an expression refers to, of `Fn::If` those of the taken branch alone.
#[cycle(mentions)]
pub(crate) fn mentions(
    alloc: Global,
    conds: &CondMap,
    expr: &Expr,
    found: &mut Vec<Mention>,
) -> Result<(), NoMemory>
    ensures { IfOk result (λ _. mentioned found.new.items ≡ mentioned found.old.items ++ mentions_of (holds_in conds.now) expr.now) }
{
    node_mentions(alloc, conds, expr.node(), found)
}

#[cycle(mentions)]
fn node_mentions(
    alloc: Global,
    conds: &CondMap,
    node: &ExprNode,
    found: &mut Vec<Mention>,
) -> Result<(), NoMemory>
    ensures { IfOk result (λ _. mentioned found.new.items ≡ mentioned found.old.items ++ node_mentions (holds_in conds.now) (node_of node.now)) }
{
    match node {
        ExprNode::Lit(_) => Ok(()),
        ExprNode::List(items) => list_mentions(alloc, conds, items, found),
        ExprNode::Dict(pairs) => field_mentions(alloc, conds, pairs.as_slice(), found),
        ExprNode::Ref(name) => add(found, Mention::ByRef(name.try_clone(alloc)?)),
        ExprNode::GetAtt { id, attribute } => {
            add(found, Mention::ByAttribute(id.try_clone(alloc)?))?;
            mentions(alloc, conds, attribute, found)
        }
        ExprNode::Sub { parts, map } => sub_mentions(alloc, conds, parts, map, found),
        ExprNode::Join { delimiter: _, list } => mentions(alloc, conds, list, found),
        ExprNode::Select { index, list } => {
            mentions(alloc, conds, index, found)?;
            mentions(alloc, conds, list, found)
        }
        ExprNode::Split { delimiter: _, text } => mentions(alloc, conds, text, found),
        ExprNode::If { name, yes, no } => taken_mentions(alloc, conds, name, yes, no, found),
        ExprNode::FindInMap { map, first, second } => {
            mentions(alloc, conds, map, found)?;
            mentions(alloc, conds, first, found)?;
            mentions(alloc, conds, second, found)
        }
        ExprNode::Import(name) => mentions(alloc, conds, name, found),
        ExprNode::Base64(text) => mentions(alloc, conds, text, found),
    }
}

/// Those of the function's own map, and of the text.
#[cycle(mentions)]
fn sub_mentions(
    alloc: Global,
    conds: &CondMap,
    parts: &Parts,
    map: &ExprDict,
    found: &mut Vec<Mention>,
) -> Result<(), NoMemory>
    ensures { IfOk result (λ _. mentioned found.new.items ≡ mentioned found.old.items ++ (fields_mentions (holds_in conds.now) (fields_of map.now) ++ flat_map (holes_in (keys_of (fields_of map.now))) parts.now)) }
{
    let own = map.as_slice();
    field_mentions(alloc, conds, own, found)?;
    hole_mentions(alloc, own, parts, found)?;
    Ok(())
}

/// Those of the branch that is taken, and none where the condition is not declared.
#[cycle(mentions)]
fn taken_mentions(
    alloc: Global,
    conds: &CondMap,
    name: &Txt,
    yes: &Expr,
    other: &Expr,
    found: &mut Vec<Mention>,
) -> Result<(), NoMemory>
    ensures { let holds = holds_in conds.now in
        IfOk result (λ _. mentioned found.new.items ≡ mentioned found.old.items ++ taken_branch (holds name.now) (mentions_of holds yes.now) (mentions_of holds other.now)) }
{
    match conds.get(name.as_str()) {
        Some(Verdict::True) => mentions(alloc, conds, yes, found),
        Some(Verdict::False | Verdict::Later) => mentions(alloc, conds, other, found),
        None => Ok(()),
    }
}

#[cycle(mentions)]
#[tactic(auto, using(cf_tree::proofs::Falls::form_falls))]
fn list_mentions(
    alloc: Global,
    conds: &CondMap,
    items: &Exprs,
    found: &mut Vec<Mention>,
) -> Result<(), NoMemory>
    ensures { IfOk result (λ _. mentioned found.new.items ≡ mentioned found.old.items ++ forms_mentions (holds_in conds.now) (forms_of items.now)) }
{
    for item in items.as_slice() {
        mentions(alloc, conds, item, found)?;
    }
    Ok(())
}

/// Those of the members of an object.
#[cycle(mentions)]
#[tactic(auto, using(cf_tree::proofs::Falls::field_falls))]
pub(crate) fn field_mentions(
    alloc: Global,
    conds: &CondMap,
    pairs: &[ExprPair],
    found: &mut Vec<Mention>,
) -> Result<(), NoMemory>
    ensures { IfOk result (λ _. mentioned found.new.items ≡ mentioned found.old.items ++ fields_mentions (holds_in conds.now) (fields_of (fields_in pairs.now))) }
{
    for pair in pairs {
        mentions(alloc, conds, &pair.value, found)?;
    }
    Ok(())
}

/// The holes of a text but those that the function's own map fills.
fn hole_mentions(
    alloc: Global,
    own: &[ExprPair],
    parts: &Parts,
    found: &mut Vec<Mention>,
) -> Result<(), NoMemory>
    ensures { IfOk result (λ _. mentioned found.new.items ≡ mentioned found.old.items ++ flat_map (holes_in (keys_of (fields_of (fields_in own.now)))) parts.now) }
{
    for part in parts.as_slice() {
        match part {
            Part::Name(name) if !is_own(own, name) => add(found, hole(alloc, name)?)?,
            _ => {}
        }
    }
    Ok(())
}

/// Whether the function's own map fills a hole.
fn is_own(own: &[ExprPair], name: &Txt) -> bool
    ensures { result ≡ is_some (value_at name.now (as_keys (keys_of (fields_of (fields_in own.now))))) }
{
    for pair in own {
        if name.is(pair.name.as_str()) {
            return true;
        }
    }
    false
}

/// A hole: what stands before its first dot is a resource whose attribute is wanted.
fn hole(alloc: Global, name: &Txt) -> Result<Mention, NoMemory>
    ensures { IfOk result (λ m. mention_in m ≡ hole name.now (cut_at (codes ".") name.now)) }
{
    match cut(name.as_str(), ".") {
        Some((id, _)) => Ok(Mention::ByAttribute(Txt::from_str(alloc, id)?)),
        None => Ok(Mention::ByRef(name.try_clone(alloc)?)),
    }
}

fn add(found: &mut Vec<Mention>, mention: Mention) -> Result<(), NoMemory>
    ensures { IfOk result (λ _. mentioned found.new.items ≡ mentioned found.old.items ++ mention_in mention ∷ []) }
{
    found.push(mention)?;
    Ok(())
}
