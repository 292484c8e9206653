//! The names of nested templates.
ghost use Rattle.std.specs.Prelude.{◌≡◌, IfOk, Err, codes};
ghost use Rattle.std.specs.Option.{option_copied};
ghost use Rattle.cf_tree.specs.Keys.{value_at};
ghost use Rattle.cf_eval.specs.Env.{scope_in};
ghost use Rattle.cf_desired.specs.Given.{given_in};
ghost use Rattle.cf_desired.specs.Kept.{offer_in, template_name_in};
ghost use Rattle.cf_desired.specs.Met.{offers_flaw};
ghost use Rattle.std.specs.List.{list_all};
ghost use Rattle.cf_desired.specs.Shape.{has_stack_shape, is_stack_property, template_name_of};
ghost use Rattle.cf_desired.specs.declared.flaw.Flaw.TheVariants as flaw;

use crate::evaluations::{blame_of, flaw_by, text_of, wrong_kind};
use crate::flaw::Flaw;
use crate::offers::{Offered, offered_by};
use crate::shared::SharedRes;
use cf_eval::{Env, Got, eval};
use cf_tree::{Expr, ExprDict, Res, Txt};
use std::alloc::{AllocError, Global};

/// The name of a nested template.
#[derive(Drop)]
pub(crate) enum TemplateName {
    Named { name: Txt },
    Flawed { flaw: Flaw },
}

/// The name of the template of the nested stack at a path: a text; where it is left out the shape is wrong, and where it is not
/// known yet the template can't be told.
#[tactic(auto, using(crate::proofs::NameStops::name_stops))]
fn template_name(
    alloc: Global,
    resource: &Res,
    path: &Txt,
    env: &Env,
) -> Result<TemplateName, AllocError>
    ensures { IfOk result (λ u. template_name_in u ≡ template_name_of env.now.stack.now path.now (scope_in env.now) resource.now) }
{
    let Some(expr) = property(&resource.props, "TemplateURL") else {
        return shapeless(alloc, path);
    };
    match eval(alloc, expr, env) {
        Ok(Got::Value(value)) => match text_of(alloc, value)? {
            Some(name) => Ok(TemplateName::Named { name }),
            None => Ok(TemplateName::Flawed {
                flaw: flaw_by(wrong_kind(alloc, env.stack, expr.at())?),
            }),
        },
        Ok(Got::NoValue) => shapeless(alloc, path),
        Ok(Got::Later) => Ok(TemplateName::Flawed {
            flaw: Flaw::DynamicTemplate {
                path: path.try_clone(alloc)?,
            },
        }),
        Err(fault) => Ok(TemplateName::Flawed {
            flaw: flaw_by(blame_of(fault)?),
        }),
    }
}

fn shapeless(alloc: Global, path: &Txt) -> Result<TemplateName, AllocError>
    ensures { IfOk result (λ u. template_name_in u ≡ Err (flaw.Shape path.now)) }
{
    Ok(TemplateName::Flawed {
        flaw: Flaw::Shape {
            path: path.try_clone(alloc)?,
        },
    })
}

/// Whether a nested stack has its template's name, and no property that it may not have.
fn has_stack_shape(resource: &Res) -> bool
    ensures { result ≡ has_stack_shape resource.now }
{
    has_stack_properties(&resource.props) && property(&resource.props, "TemplateURL").is_some()
}

fn has_stack_properties(props: &ExprDict) -> bool
    ensures { result ≡ list_all (λ p. is_stack_property p.0) props.now }
{
    for pair in props.as_slice() {
        if !is_stack_property(pair.name.as_str()) {
            return false;
        }
    }
    true
}

/// Whether a nested stack may have a property of this name.
fn is_stack_property(name: &str) -> bool
    ensures { result ≡ is_stack_property name.now }
{
    name == "NotificationARNs"
        || name == "Parameters"
        || name == "Tags"
        || name == "TemplateURL"
        || name == "TimeoutInMinutes"
}

/// The property of a name.
pub(crate) fn property<'a>(props: &'a ExprDict, name: &str) -> Option<&'a Expr>
    ensures { option_copied result ≡ value_at name.now props.now }
{
    for pair in props.as_slice() {
        if pair.name.is(name) {
            return Some(&pair.value);
        }
    }
    None
}

/// What a nested stack's parameters are given by its stack resource.
pub(crate) fn offered_to(
    alloc: Global,
    resource: &SharedRes,
    env: &Env,
) -> Result<Offered, AllocError>
    ensures given { IfOk result (λ o. offer_in o.given ≡ given_in (scope_in env.now) (value_at (codes "Parameters") resource.now.props)) }
    ensures flaw { IfOk result (λ o. o.flaw ≡ offers_flaw env.now.stack.now (scope_in env.now) (value_at (codes "Parameters") resource.now.props)) }
{
    offered_by(alloc, property(&resource.props, "Parameters"), env)
}

/// Whether a shared resource has the shape of a nested stack.
pub(crate) fn has_shape(resource: &SharedRes) -> bool
    ensures { result ≡ has_stack_shape resource.now }
{
    has_stack_shape(resource)
}

/// The template's name of a shared resource.
pub(crate) fn template_name_wanted(
    alloc: Global,
    resource: &SharedRes,
    path: &Txt,
    env: &Env,
) -> Result<TemplateName, AllocError>
    ensures { IfOk result (λ u. template_name_in u ≡ template_name_of env.now.stack.now path.now (scope_in env.now) resource.now) }
{
    template_name(alloc, resource, path, env)
}
