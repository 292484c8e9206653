//! What of a template is not made yet: imports from other stacks, exports, policies and nested stacks.
ghost use Rattle.std.specs.Prelude.{◌≡◌};
ghost use Rattle.std.specs.List.{list_any};
ghost use Rattle.cf_tree.specs.Form.{node_of};
ghost use Rattle.cf_tree.specs.Forms.{forms_of, fields_of};
ghost use Rattle.cf_tree.specs.Test.{test_node_of};
ghost use Rattle.cf_tree.specs.Tests.{tests_of};
ghost use Rattle.cf_desired.specs.Templates.{is_stack};
ghost use Rattle.cf_top.specs.NotYet.{form_imports, node_imports, forms_import, fields_import, test_imports, test_node_imports, tests_import, keeps_removed, keeps_replaced, is_late, is_output_late, is_not_yet};

use cf_tree::{
    Cond, CondNode, Conds, Deletion, Expr, ExprDict, ExprNode, Exprs, NamedConds, Out, Outs,
    Replace, Res, Resources, Template,
};

/// Whether a template holds something that is not made yet: a nested stack, an export, an import, or a policy other than
/// `Delete`.
pub fn is_not_yet(template: &Template) -> bool
    ensures { result ≡ is_not_yet template.now }
{
    any_output_late(&template.outputs)
        || conditions_import(&template.conds)
        || any_late(&template.resources)
}

fn any_output_late(outputs: &Outs) -> bool
    ensures { result ≡ list_any is_output_late outputs.now }
{
    for output in outputs.as_slice() {
        if is_output_late(output) {
            return true;
        }
    }
    false
}

fn is_output_late(output: &Out) -> bool
    ensures { result ≡ is_output_late output.now }
{
    output.export.is_some() || imports(&output.value)
}

fn conditions_import(conds: &NamedConds) -> bool
    ensures { result ≡ list_any (λ c. test_imports c.1) conds.now }
{
    for cond in conds.as_slice() {
        if test_imports(&cond.1) {
            return true;
        }
    }
    false
}

fn any_late(resources: &Resources) -> bool
    ensures { result ≡ list_any is_late resources.now }
{
    for resource in resources.as_slice() {
        if is_late(resource) {
            return true;
        }
    }
    false
}

fn is_late(resource: &Res) -> bool
    ensures { result ≡ is_late resource.now }
{
    is_stack(resource)
        || keeps_removed(resource.deletion)
        || keeps_replaced(resource.replace)
        || fields_import(&resource.props)
}

/// Whether a resource is a nested stack.
fn is_stack(resource: &Res) -> bool
    ensures { result ≡ is_stack resource.now }
{
    resource.kind.as_str() == "AWS::CloudFormation::Stack"
}

fn keeps_removed(policy: Option<Deletion>) -> bool
    ensures { result ≡ keeps_removed policy }
{
    match policy {
        None | Some(Deletion::Delete) => false,
        Some(_) => true,
    }
}

fn keeps_replaced(policy: Option<Replace>) -> bool
    ensures { result ≡ keeps_replaced policy }
{
    match policy {
        None | Some(Replace::Delete) => false,
        Some(_) => true,
    }
}

#[cycle(test_imports)]
fn test_imports(cond: &Cond) -> bool
    ensures { result ≡ test_imports cond.now }
{
    test_node_imports(cond.node())
}

#[cycle(test_imports)]
fn test_node_imports(node: &CondNode) -> bool
    ensures { result ≡ test_node_imports (test_node_of node.now) }
{
    match node {
        CondNode::Equals { left, right } => imports(left) || imports(right),
        CondNode::Not(cond) => test_imports(cond),
        CondNode::And(conds) | CondNode::Or(conds) => tests_import(conds),
        CondNode::Name(_) => false,
    }
}

#[cycle(test_imports)]
#[tactic(auto, using(cf_eval::proofs::TestFalls::test_falls))]
fn tests_import(conds: &Conds) -> bool
    ensures { result ≡ tests_import (tests_of conds.now) }
{
    for cond in conds.as_slice() {
        if test_imports(cond) {
            return true;
        }
    }
    false
}

/// Whether an expression imports an export of another stack, in whatever branch.
#[cycle(imports)]
fn imports(expr: &Expr) -> bool
    ensures { result ≡ form_imports expr.now }
{
    node_imports(expr.node())
}

#[cycle(imports)]
fn node_imports(node: &ExprNode) -> bool
    ensures { result ≡ node_imports (node_of node.now) }
{
    match node {
        ExprNode::Lit(_) | ExprNode::Ref(_) => false,
        ExprNode::List(items) => forms_import(items),
        ExprNode::Dict(pairs) => fields_import(pairs),
        ExprNode::GetAtt { id: _, attribute } => imports(attribute),
        ExprNode::Sub { parts: _, map } => fields_import(map),
        ExprNode::Join { delimiter: _, list } => imports(list),
        ExprNode::Select { index, list } => imports(index) || imports(list),
        ExprNode::Split { delimiter: _, text } => imports(text),
        ExprNode::If { name: _, yes, no } => imports(yes) || imports(no),
        ExprNode::FindInMap { map, first, second } => {
            imports(map) || imports(first) || imports(second)
        }
        ExprNode::Import(_) => true,
        ExprNode::Base64(text) => imports(text),
    }
}

#[cycle(imports)]
#[tactic(auto, using(cf_tree::proofs::Falls::form_falls))]
fn forms_import(items: &Exprs) -> bool
    ensures { result ≡ forms_import (forms_of items.now) }
{
    for item in items.as_slice() {
        if imports(item) {
            return true;
        }
    }
    false
}

#[cycle(imports)]
#[tactic(auto, using(cf_tree::proofs::Falls::field_falls))]
fn fields_import(pairs: &ExprDict) -> bool
    ensures { result ≡ fields_import (fields_of pairs.now) }
{
    for pair in pairs.as_slice() {
        if imports(&pair.value) {
            return true;
        }
    }
    false
}
