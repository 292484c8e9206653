//! What an expression comes to.
ghost use Rattle.std.specs.Prelude.{◌≡◌, Some, None};
ghost use Rattle.std.specs.Option.{option_copied};
ghost use Rattle.cf_tree.specs.Form.{node_of};
ghost use Rattle.cf_tree.specs.Forms.{forms_of, fields_of};
ghost use Rattle.cf_eval.specs.Value.{form_found, node_found, dict_found, forms_found, fields_found, blamed};
ghost use Rattle.cf_eval.specs.Functions.{sub_found, select_found, if_found, find_found};
ghost use Rattle.cf_eval.specs.Gives.{Gives, GivesAll, GivesBindings};
ghost use Rattle.cf_eval.specs.ScopeOf.{scope_of};

use crate::collect::{dict_of, list_of};
use crate::fault::Stop;
use crate::functions::{base64, join, select, split};
use crate::got::Got;
use crate::names::{find_in_map, get_att, import, reference};
use crate::scope::Scope;
use crate::sub::sub;
use crate::texts::within;
use cf_tree::{Expr, ExprDict, ExprNode, Exprs, Parts, Txt, Verdict};
use std::alloc::Global;

/// An expression, where the innermost function around it stands at `around`.
#[cycle(value)]
pub(crate) fn value(
    alloc: Global,
    scope: &Scope,
    around: Option<&Txt>,
    expr: &Expr,
) -> Result<Got, Stop>
    ensures { Gives (form_found (scope_of scope.now) (option_copied around.entry) expr.now) result }
{
    let at = expr.at();
    let node = expr.node();
    let got = node_value(alloc, scope, around, at, node)?;
    within(alloc, blamed(around, at, node), got)
}

/// Where a fault of an expression is blamed, which stands at `at`, in a function at `around` where there is one: a function on itself,
/// any other value on the function around it.
pub fn blamed<'a>(around: Option<&'a Txt>, at: &'a Txt, node: &ExprNode) -> &'a Txt
    ensures { result.now ≡ blamed (option_copied around.entry) at.now (node_of node.now) }
{
    match node {
        ExprNode::Lit(_) | ExprNode::List(_) | ExprNode::Dict(_) => match around {
            Some(function) => function,
            None => at,
        },
        _ => at,
    }
}

#[cycle(value)]
fn node_value(
    alloc: Global,
    scope: &Scope,
    around: Option<&Txt>,
    at: &Txt,
    node: &ExprNode,
) -> Result<Got, Stop>
    ensures { Gives (node_found (scope_of scope.now) (option_copied around.entry) at.now (node_of node.now)) result }
{
    match node {
        ExprNode::Lit(literal) => Ok(Got::Value(literal.try_clone(alloc)?)),
        ExprNode::List(items) => list_of(alloc, values(alloc, scope, around, items)?),
        ExprNode::Dict(pairs) => dict_value(alloc, scope, around, pairs),
        ExprNode::Ref(name) => reference(alloc, scope, at, name),
        ExprNode::GetAtt { id, attribute } => {
            let attribute = value(alloc, scope, Some(at), attribute)?;
            get_att(alloc, scope, at, id, &attribute)
        }
        ExprNode::Sub { parts, map } => sub_value(alloc, scope, at, parts, map),
        ExprNode::Join { delimiter, list } => {
            let list = value(alloc, scope, Some(at), list)?;
            join(alloc, at, delimiter, &list)
        }
        ExprNode::Select { index, list } => select_value(alloc, scope, at, index, list),
        ExprNode::Split { delimiter, text } => {
            let text = value(alloc, scope, Some(at), text)?;
            split(alloc, at, delimiter, &text)
        }
        ExprNode::If { name, yes, no } => if_value(alloc, scope, at, name, yes, no),
        ExprNode::FindInMap { map, first, second } => find_value(
            alloc, scope, at, map, first, second,
        ),
        ExprNode::Import(name) => {
            let name = value(alloc, scope, Some(at), name)?;
            import(alloc, scope, at, &name)
        }
        ExprNode::Base64(text) => {
            let text = value(alloc, scope, Some(at), text)?;
            base64(alloc, at, &text)
        }
    }
}

/// An object of expressions.
#[cycle(value)]
#[tactic(auto, using(crate::proofs::Gots::dict_stops))]
fn dict_value(
    alloc: Global,
    scope: &Scope,
    around: Option<&Txt>,
    pairs: &ExprDict,
) -> Result<Got, Stop>
    ensures { Gives (dict_found (fields_found (scope_of scope.now) (option_copied around.entry) (fields_of pairs.now))) result }
{
    match bindings(alloc, scope, around, pairs) {
        Ok(bound) => dict_of(alloc, bound),
        Err(stop) => Err(stop),
    }
}

/// `Fn::Sub`.
#[cycle(value)]
#[tactic(auto, using(crate::proofs::Gots::sub_stops))]
fn sub_value(
    alloc: Global,
    scope: &Scope,
    at: &Txt,
    parts: &Parts,
    map: &ExprDict,
) -> Result<Got, Stop>
    ensures { Gives (sub_found (scope_of scope.now) at.now (fields_found (scope_of scope.now) (Some at.now) (fields_of map.now)) parts.now) result }
{
    match bindings(alloc, scope, Some(at), map) {
        Ok(own) => sub(alloc, scope, at, own.as_slice(), parts),
        Err(stop) => Err(stop),
    }
}

/// `Fn::Select`.
#[cycle(value)]
fn select_value(
    alloc: Global,
    scope: &Scope,
    at: &Txt,
    index: &Expr,
    list: &Expr,
) -> Result<Got, Stop>
    ensures { Gives (select_found at.now (form_found (scope_of scope.now) (Some at.now) index.now) (form_found (scope_of scope.now) (Some at.now) list.now)) result }
{
    let index = value(alloc, scope, Some(at), index)?;
    match value(alloc, scope, Some(at), list) {
        Ok(list) => select(alloc, at, &index, &list),
        Err(stop) => Err(stop),
    }
}

/// `Fn::If`: the taken branch alone.
#[cycle(value)]
fn if_value(
    alloc: Global,
    scope: &Scope,
    at: &Txt,
    name: &Txt,
    yes: &Expr,
    other: &Expr,
) -> Result<Got, Stop>
    ensures { Gives (if_found ((scope_of scope.now).decided at.now name.now) (form_found (scope_of scope.now) (Some at.now) yes.now) (form_found (scope_of scope.now) (Some at.now) other.now)) result }
{
    match scope.conds.get(name.as_str()) {
        Some(Verdict::True) => value(alloc, scope, Some(at), yes),
        Some(Verdict::False) => value(alloc, scope, Some(at), other),
        Some(Verdict::Later) => Ok(Got::Later),
        None => Err(Stop::Undecided {
            name: name.try_clone(alloc)?,
            at: at.try_clone(alloc)?,
        }),
    }
}

/// `Fn::FindInMap`.
#[cycle(value)]
fn find_value(
    alloc: Global,
    scope: &Scope,
    at: &Txt,
    map: &Expr,
    first: &Expr,
    second: &Expr,
) -> Result<Got, Stop>
    ensures { let s = scope_of scope.now in
        Gives (find_found s at.now (form_found s (Some at.now) map.now) (form_found s (Some at.now) first.now) (form_found s (Some at.now) second.now)) result }
{
    let map = value(alloc, scope, Some(at), map)?;
    let first = match value(alloc, scope, Some(at), first) {
        Ok(first) => first,
        Err(stop) => return Err(stop),
    };
    match value(alloc, scope, Some(at), second) {
        Ok(second) => find_in_map(alloc, scope, at, &map, &first, &second),
        Err(stop) => Err(stop),
    }
}

/// The members of a list, up to the first fault.
#[cycle(value)]
#[tactic(auto, using(cf_tree::proofs::Falls::form_falls))]
fn values(
    alloc: Global,
    scope: &Scope,
    around: Option<&Txt>,
    items: &Exprs,
) -> Result<Vec<Got>, Stop>
    ensures { GivesAll (forms_found (scope_of scope.now) (option_copied around.entry) (forms_of items.now)) result }
{
    let mut gots = Vec::new(alloc);
    for item in items.as_slice() {
        match value(alloc, scope, around, item) {
            Ok(got) => gots.push(got)?,
            Err(stop) => return Err(stop),
        }
    }
    Ok(gots)
}

/// The members of an object under their names, up to the first fault.
#[cycle(value)]
#[tactic(auto, using(cf_tree::proofs::Falls::field_falls))]
fn bindings(
    alloc: Global,
    scope: &Scope,
    around: Option<&Txt>,
    pairs: &ExprDict,
) -> Result<Vec<(Txt, Got)>, Stop>
    ensures { GivesBindings (fields_found (scope_of scope.now) (option_copied around.entry) (fields_of pairs.now)) result }
{
    let mut bound = Vec::new(alloc);
    for pair in pairs.as_slice() {
        match value(alloc, scope, around, &pair.value) {
            Ok(got) => bound.push((pair.name.try_clone(alloc)?, got))?,
            Err(stop) => return Err(stop),
        }
    }
    Ok(bound)
}
