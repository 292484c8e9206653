//! What the evaluator looks things up in.
use crate::sights::Sights;
use cf_tree::{Bound, CondMap, Dict, Mappings, Names, Pairs};

/// What lies beyond parameters, mappings and conditions.
#[derive(Drop)]
pub(crate) enum Beyond<'a> {
    /// In a resource or an output: the resources and the exports of other stacks.
    Open {
        seen: &'a Sights<'a>,
        imports: &'a Pairs,
    },
    /// In a condition, which may refer to none of the resources with these names.
    Closed {
        resources: &'a Names,
    },
}

/// What an expression is evaluated over.
#[derive(Drop)]
pub(crate) struct Scope<'a> {
    pub params: &'a Bound,
    pub mappings: &'a Mappings,
    pub pseudo: &'a Dict,
    pub conds: &'a CondMap,
    pub beyond: Beyond<'a>,
}
