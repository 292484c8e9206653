//! Conditions of a template.
ghost use Rattle.std.specs.Prelude.{◌≡◌, [], ◌∷◌, ◌++◌, length, IfOk, OnErr};
ghost use Rattle.cf_tree.specs.Tests.{cond, place_of_test};
ghost use Rattle.cf_tree.specs.Test.{test_node_of};

use crate::expr::Expr;
use crate::text::Txt;
use std::alloc::{AllocError, Global};
use std::marker::Model;

/// A condition and its place in the template, a JSON pointer (RFC 6901).
#[cycle(cond)]
#[derive(Drop)]
pub struct Cond {
    pub at: Txt,
    pub node: CondNode,
}

/// What a condition is (template reference, condition functions).
#[cycle(cond)]
#[derive(Drop)]
pub enum CondNode {
    /// `Fn::Equals` of two values.
    Equals { left: Expr, right: Expr },
    /// `Fn::Not`.
    Not(Box<Cond>),
    /// `Fn::And`.
    And(Conds),
    /// `Fn::Or`.
    Or(Conds),
    /// The condition of a name.
    Name(Txt),
}

/// A list of conditions.
#[cycle(cond)]
#[derive(Drop)]
pub struct Conds {
    items: Vec<Cond>,
}

impl Model for Cond {
    ghost use Rattle.cf_tree.specs.Tests.{Test, test_code, parts_of_test};

    ghost Value = { Test };

    ghost coded = { test_code };

    ghost use Rattle.cf_tree.specs.Tests.{cond};
    ghost use Rattle.cf_tree.specs.Test.{test_node_of};

    ghost view = { λ c. cond c.at (test_node_of c.node) };

    ghost size = { parts_of_test };

    ghost use Rattle.std.proofs.Common.{arith};
    ghost use Rattle.cf_tree.specs.TestSizes.{deep_le-test_node};

    ghost size_decreases = { λ a h. omega (arith, deep_le-test_node a.node) };
}

impl Model for Conds {
    ghost use Rattle.std.specs.Prelude.{List};
    ghost use Rattle.std.specs.Coded.{coded_list};
    ghost use Rattle.cf_tree.specs.Tests.{Test, test_code, parts_of_tests, tests_of};

    ghost Value = { List Test };

    ghost coded = { coded_list test_code };

    ghost view = { λ v. v.items.items };

    ghost size = { λ cs. parts_of_tests (tests_of cs) };

    ghost use Rattle.std.proofs.Common.{arith};
    ghost use Rattle.cf_tree.specs.TestSizes.{most_le-tests};

    ghost size_decreases = { λ a h. omega (arith, most_le-tests a.items.items) };
}

impl Cond {
    /// A condition at its place.
    pub fn new(at: Txt, node: CondNode) -> Cond
        ensures { result ≡ cond at (test_node_of node) }
    {
        Cond { at, node }
    }

    /// Its place in the template.
    pub fn at(&self) -> &Txt
        ensures { result.now ≡ place_of_test self.now }
    {
        &self.at
    }

    /// What stands there.
    pub fn node(&self) -> &CondNode
        ensures { self.now ≡ cond (place_of_test self.now) (test_node_of result.now) }
    {
        &self.node
    }
}

impl Conds {
    /// The empty list; it takes no memory.
    pub fn new(alloc: Global) -> Conds
        ensures { result ≡ [] }
    {
        Conds {
            items: Vec::new(alloc),
        }
    }

    /// The conditions of a vector in their order, without taking memory.
    pub fn from_vec(items: Vec<Cond>) -> Conds
        ensures { result ≡ items.items }
    {
        Conds { items }
    }

    /// How many conditions there are.
    pub fn len(&self) -> usize
        ensures { result ≡ length self.now }
    {
        self.items.len()
    }

    /// Adds a condition at the end. After an error the list is as it was.
    pub fn push(&mut self, item: Cond) -> Result<(), AllocError>
        ensures ok { IfOk result (λ _. self.new ≡ self.old ++ item ∷ []) }
        ensures err { OnErr result (self.new ≡ self.old) }
    {
        self.items.push(item)?;
        Ok(())
    }

    /// The conditions in their order.
    pub fn as_slice(&self) -> &[Cond]
        ensures { result.now ≡ self.now }
    {
        self.items.as_slice()
    }
}
