//! What the resources and outputs of a stack are evaluated over.
ghost use Rattle.std.specs.Prelude.{◌≡◌};
ghost use Rattle.cf_eval.specs.Env.{scope_in};
ghost use Rattle.cf_desired.specs.Kept.{scope_by};

use crate::shape::Stack;
use cf_eval::{Env, Sights};
use cf_tree::{Bound, CondMap, Dict, Source};

/// What the resources and outputs of a stack are evaluated over, but for what is seen of its resources.
#[derive(Drop)]
pub(crate) struct PlanContext<'a> {
    pub source: &'a Source,
    pub stack: &'a Stack,
    pub bound: &'a Bound,
    pub conds: &'a CondMap,
    pub pseudo: &'a Dict,
}

/// What expressions are evaluated over, where this is seen of the resources.
pub(crate) fn env_over<'a>(context: &'a PlanContext, sights: &'a Sights<'a>) -> Env<'a>
    ensures scope { scope_in result ≡ scope_by context.now sights.now }
    ensures stack { result.stack.now ≡ context.now.stack.now.path }
{
    Env {
        bound: context.bound,
        mappings: &context.stack.template.mappings,
        conds: context.conds,
        seen: sights,
        imports: &context.source.imports,
        pseudo: context.pseudo,
        stack: &context.stack.path,
    }
}
