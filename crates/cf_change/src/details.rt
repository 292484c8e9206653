//! The details of a change: properties and policies that differ.
ghost use Rattle.std.specs.Prelude.{◌≡◌, [], IfOk, fold, map, not, option_map};
ghost use Rattle.std.specs.List.{list_any};
ghost use Rattle.std.specs.Option.{option_copied};
ghost use Rattle.cf_tree.specs.Keys.{value_at};
ghost use Rattle.cf_tree.specs.Value.{datum_of, pairs_of};
ghost use Rattle.cf_desired.specs.Props.{prop_of};
ghost use Rattle.cf_change.specs.Changes.{details_for, evaluation_of, is_always_static, is_never, names_on_either, policy_details, property_details, props_or_none, recreation_of, replacement_of};
ghost use Rattle.cf_tree.specs.declared.row.Evaluation.TheVariants as evaluation;
ghost use Rattle.cf_tree.specs.declared.row.Recreation.TheVariants as recreation;
ghost use Rattle.cf_desired.specs.Shape.{put_name};

use crate::held::HeldAt;
use cf_desired::{Evaluated, Prop, Wanted};
use cf_schema::{Schema, Schemas};
use cf_tree::{
    Attribute, ByName, Detail, Details, Dict, Evaluation, Pair, Recreation, Replacement, Txt, Val,
};
use std::alloc::{AllocError, Global};

/// What differs, or may, between what is held and what is wanted.
pub(crate) fn details_for(
    alloc: Global,
    schemas: &Schemas,
    held: &HeldAt,
    wanted: &Wanted,
) -> Result<Details, AllocError>
    ensures { IfOk result (λ ds. ds ≡ details_for schemas.now held.now wanted.now) }
{
    let schema = schemas.find(wanted.kind.as_str());
    let props = props_or_none(&wanted.props);
    let mut details = property_details(alloc, schema, &held.props, props)?;
    details.append(policy_details(alloc, held, wanted)?)?;
    Ok(details)
}

/// The properties, none where they are at fault.
fn props_or_none(evaluated: &Evaluated) -> &[Prop]
    ensures { map prop_of result.now ≡ props_or_none evaluated.now }
{
    match evaluated {
        Evaluated::Known { props } => props.as_slice(),
        Evaluated::Flawed { flaw: _ } => &[],
    }
}

/// The properties that differ, or may, by name.
fn property_details(
    alloc: Global,
    schema: Option<&Schema>,
    old: &Dict,
    new: &[Prop],
) -> Result<Details, AllocError>
    ensures { IfOk result (λ ds. ds ≡ property_details (option_copied schema.entry) old.now (map prop_of new.now)) }
{
    let names = names_of(alloc, old, new)?;
    let mut details = Details::new(alloc);
    for pair in names.as_slice() {
        let name = &pair.0;
        if let Some(evaluation) = evaluation_of(old.get(name.as_str()), property(new, name)) {
            details.push(Detail {
                attribute: Attribute::Properties,
                name: name.try_clone(alloc)?,
                recreation: recreation_of(schema, name),
                evaluation,
            })?;
        }
    }
    Ok(details)
}

/// The names of properties on either side, each once, in byte order.
fn names_of(alloc: Global, old: &Dict, new: &[Prop]) -> Result<ByName<bool>, AllocError>
    ensures { IfOk result (λ names. map (λ p. p.0) names ≡ names_on_either old.now (map prop_of new.now)) }
{
    let mut names = ByName::new(alloc);
    add_old(alloc, &mut names, old.as_slice())?;
    add_new(alloc, &mut names, new)?;
    Ok(names)
}

fn add_old(alloc: Global, names: &mut ByName<bool>, pairs: &[Pair]) -> Result<(), AllocError>
    ensures { IfOk result (λ _. names.new ≡ fold put_name names.old (map (λ p. p.0) (pairs_of pairs.now))) }
{
    for pair in pairs {
        names.insert(pair.name.try_clone(alloc)?, true)?;
    }
    Ok(())
}

fn add_new(alloc: Global, names: &mut ByName<bool>, props: &[Prop]) -> Result<(), AllocError>
    ensures { IfOk result (λ _. names.new ≡ fold put_name names.old (map (λ p. p.0) (map prop_of props.now))) }
{
    for prop in props {
        names.insert(prop.name.try_clone(alloc)?, true)?;
    }
    Ok(())
}

/// The new value of a property, `Some(None)` where it is not known yet.
fn property<'a>(props: &'a [Prop], name: &Txt) -> Option<Option<&'a Val>>
    ensures { option_map (λ v. option_map datum_of (option_copied v)) result ≡ value_at name.now (map prop_of props.now) }
{
    for prop in props {
        if prop.name.is(name.as_str()) {
            return Some(prop.value.as_ref());
        }
    }
    None
}

/// Whether a property differs: what is not known yet may.
fn evaluation_of(old: Option<&Val>, new: Option<Option<&Val>>) -> Option<Evaluation>
    ensures { result ≡ evaluation_of (option_map datum_of (option_copied old.entry)) (option_map (λ v. option_map datum_of (option_copied v)) new.entry) }
{
    match (old, new) {
        (_, Some(None)) => Some(Evaluation::Dynamic),
        (Some(old), Some(Some(new))) if *old == *new => None,
        (None, None) => None,
        _ => Some(Evaluation::Static),
    }
}

/// Whether a change of a property replaces the resource.
fn recreation_of(schema: Option<&Schema>, name: &Txt) -> Recreation
    ensures { result ≡ recreation_of (option_copied schema.entry) name.now }
{
    match schema {
        Some(schema) if schema.create_only.contains(name) => Recreation::Always,
        Some(schema) if schema.conditional.contains(name) => Recreation::Conditionally,
        _ => Recreation::Never,
    }
}

/// The policies that differ.
fn policy_details(alloc: Global, held: &HeldAt, wanted: &Wanted) -> Result<Details, AllocError>
    ensures { IfOk result (λ ds. ds ≡ policy_details held.now wanted.now) }
{
    let mut details = Details::new(alloc);
    if held.deletion != wanted.deletion {
        details.push(policy_detail(alloc, Attribute::DeletionPolicy))?;
    }
    if held.replace != wanted.replace {
        details.push(policy_detail(alloc, Attribute::UpdateReplacePolicy))?;
    }
    Ok(details)
}

fn policy_detail(alloc: Global, attribute: Attribute) -> Detail
    ensures { result ≡ record { attribute = attribute; name = []; recreation = recreation.Never; evaluation = evaluation.Static } }
{
    Detail {
        attribute,
        name: Txt::new(String::new(alloc)),
        recreation: Recreation::Never,
        evaluation: Evaluation::Static,
    }
}

/// Whether details replace a resource.
pub(crate) fn replacement_of(details: &[Detail]) -> Replacement
    ensures { result ≡ replacement_of details.now }
{
    if must_replace(details) {
        Replacement::True
    } else if may_replace(details) {
        Replacement::Conditional
    } else {
        Replacement::False
    }
}

fn must_replace(details: &[Detail]) -> bool
    ensures { result ≡ list_any (λ d. is_always_static d.recreation d.evaluation) details.now }
{
    details.iter().any(|detail| is_always_static(detail.recreation, detail.evaluation))
}

fn is_always_static(recreation: Recreation, evaluation: Evaluation) -> bool
    ensures { result ≡ is_always_static recreation evaluation }
{
    matches!(
        (recreation, evaluation),
        (Recreation::Always, Evaluation::Static)
    )
}

fn may_replace(details: &[Detail]) -> bool
    ensures { result ≡ list_any (λ d. not (is_never d.recreation)) details.now }
{
    details
        .iter()
        .any(|detail| !matches!(detail.recreation, Recreation::Never))
}
