//! What each resource of a template needs.
ghost use Rattle.std.specs.Prelude.{◌≡◌, ℕ, ◌<◌, List, [], ◌∷◌, ◌++◌, ◌&&◌, ◌||◌, IfOk, true, map, filter, filter_map, is_some, length, nat_lt, nat_eq, slice_index_or};
ghost use Rattle.std.specs.List.{list_any};
ghost use Rattle.std.specs.Str.{bytes_eq};
ghost use Rattle.std.specs.Ordering.{nat_cmp};
ghost use Rattle.std.specs.Cmp.Lexicographic.{slice_cmp};
ghost use Rattle.std.specs.BTreeSet.{contains, IsOrdered};
ghost use Rattle.cf_tree.specs.Forms.{fields_of};
ghost use Rattle.cf_tree.specs.Named.{found};
ghost use Rattle.cf_tree.specs.Lists.{is_among};
ghost use Rattle.cf_graph.specs.Mentions.{fields_mentions};
ghost use Rattle.cf_graph.specs.Mentioned.{mentioned, meant_by, needs_mentioned};
ghost use Rattle.cf_graph.specs.Needs.{all_needs, evaluated_props, holds_in, is_evaluated, is_made, is_parameter};
ghost use Rattle.cf_graph.specs.Noted.{places_noted};

use crate::mentions::{Mention, mentions};
use crate::notes::{Notes, behind, note};
use cf_tree::{CondMap, Names, NoMemory, Params, Res, Resources, Template, Txt, Verdict};
use std::alloc::Global;
use std::collections::BTreeSet;

/// Each made resource with what it needs, in the order of the template.
///
/// It takes time in proportion to what the resources refer to, times the logarithm of how many there are.
pub(crate) fn needs_of_each(
    alloc: Global,
    template: &Template,
    conds: &CondMap,
) -> Result<Vec<(Txt, Names)>, NoMemory>
    ensures { IfOk result (λ all. all.items ≡ all_needs template.now conds.now) }
{
    let made = made_names(alloc, &template.resources, conds)?;
    let all = needs_among_made(alloc, template, conds, made.as_slice())?;
    Ok(all)
}

/// The same, over the names of the made resources.
fn needs_among_made(
    alloc: Global,
    template: &Template,
    conds: &CondMap,
    made: &[Txt],
) -> Result<Vec<(Txt, Names)>, NoMemory>
    ensures { IfOk result (λ all. all.items ≡ map (λ r. (r.name, needs_mentioned (λ q. is_parameter q template.now) made.now conds.now r)) (filter (is_made conds.now) template.now.resources)) }
{
    let params = param_names(alloc, &template.params)?;
    let places = places_of(alloc, made)?;
    let mut all = Vec::new(alloc);
    for resource in template.resources.as_slice() {
        if is_made(conds, resource) {
            let needs = needs_of_one(alloc, &params, &places, made, conds, resource)?;
            all.push((resource.name.try_clone(alloc)?, needs))?;
        }
    }
    Ok(all)
}

/// What one resource needs of those that are made.
fn needs_of_one(
    alloc: Global,
    params: &BTreeSet<Txt>,
    places: &Notes,
    made: &[Txt],
    conds: &CondMap,
    resource: &Res,
) -> Result<Names, NoMemory>
    requires { (q : List ℕ) (p : ℕ) → list_any (nat_eq p) (places_noted places.now q) ≡ (nat_lt p (length made.now) && bytes_eq q (slice_index_or made.now p [])) }
    ensures { IfOk result (λ needs. needs ≡ needs_mentioned (contains (slice_cmp nat_cmp) params.now) made.now conds.now resource.now) }
{
    let names = referred_to(alloc, params, conds, resource)?;
    let needs = needs_among(alloc, places, made, names.as_slice())?;
    Ok(needs)
}

/// The names of the parameters.
fn param_names(alloc: Global, params: &Params) -> Result<BTreeSet<Txt>, NoMemory>
    ensures { IfOk result (λ s. (q : List ℕ) → contains (slice_cmp nat_cmp) s q ≡ list_any (λ p. bytes_eq q p.name) params.now) }
{
    let mut names = BTreeSet::new(alloc);
    for param in params.as_slice() {
        names.insert(param.name.try_clone(alloc)?)?;
    }
    Ok(names)
}

/// The names of the resources that are made.
fn made_names(alloc: Global, resources: &Resources, conds: &CondMap) -> Result<Vec<Txt>, NoMemory>
    ensures { IfOk result (λ v. v.items ≡ map (λ r. r.name) (filter (is_made conds.now) resources.now)) }
{
    let mut names = Vec::new(alloc);
    for resource in resources.as_slice() {
        if is_made(conds, resource) {
            names.push(resource.name.try_clone(alloc)?)?;
        }
    }
    Ok(names)
}

/// Whether a resource has no condition, or one that is not false.
pub fn is_made(conds: &CondMap, resource: &Res) -> bool
    ensures { result ≡ is_made conds.now resource.now }
{
    match &resource.condition {
        Some(name) => !matches!(conds.get(name.as_str()), Some(Verdict::False)),
        None => true,
    }
}

/// Under each name the places where it stands.
fn places_of(alloc: Global, names: &[Txt]) -> Result<Notes, NoMemory>
    ensures { IfOk result (λ places. (q : List ℕ) (p : ℕ) → list_any (nat_eq p) (places_noted places q) ≡ (nat_lt p (length names.now) && bytes_eq q (slice_index_or names.now p []))) }
{
    let mut places = Notes::new(alloc);
    for (at, name) in names.iter().enumerate() {
        note(alloc, &mut places, name, at)?;
    }
    Ok(places)
}

/// The names that a resource refers to, and those that its `DependsOn` names.
fn referred_to(
    alloc: Global,
    params: &BTreeSet<Txt>,
    conds: &CondMap,
    resource: &Res,
) -> Result<Vec<Txt>, NoMemory>
    ensures { IfOk result (λ v. v.items ≡ filter_map (meant_by (contains (slice_cmp nat_cmp) params.now)) (fields_mentions (holds_in conds.now) (fields_of (evaluated_props resource.now))) ++ resource.now.depends) }
{
    let found = prop_mentions(alloc, conds, resource)?;
    let mut names = meant(alloc, params, found.as_slice())?;
    for name in resource.depends.as_slice() {
        names.push(name.try_clone(alloc)?)?;
    }
    Ok(names)
}

/// What the evaluated properties of a resource refer to.
fn prop_mentions(alloc: Global, conds: &CondMap, resource: &Res) -> Result<Vec<Mention>, NoMemory>
    ensures { IfOk result (λ v. mentioned v.items ≡ fields_mentions (holds_in conds.now) (fields_of (evaluated_props resource.now))) }
{
    let mut found = Vec::new(alloc);
    for pair in resource.props.as_slice() {
        if is_evaluated(&resource.kind, &pair.name) {
            mentions(alloc, conds, &pair.value, &mut found)?;
        }
    }
    Ok(found)
}

/// Whether a property is evaluated: of a nested stack, its template and its parameters alone.
fn is_evaluated(kind: &Txt, name: &Txt) -> bool
    ensures { result ≡ is_evaluated kind.now name.now }
{
    kind.as_str() != "AWS::CloudFormation::Stack"
        || matches!(name.as_str(), "TemplateURL" | "Parameters")
}

/// The resources that mentions mean: a parameter of the name hides one from `Ref`.
fn meant(alloc: Global, params: &BTreeSet<Txt>, mentions: &[Mention]) -> Result<Vec<Txt>, NoMemory>
    ensures { IfOk result (λ v. v.items ≡ filter_map (meant_by (contains (slice_cmp nat_cmp) params.now)) (mentioned mentions.now)) }
{
    let mut names = Vec::new(alloc);
    for mention in mentions {
        match mention {
            Mention::ByRef(name) if params.contains(name) => {}
            Mention::ByRef(name) | Mention::ByAttribute(name) => {
                names.push(name.try_clone(alloc)?)?;
            }
        }
    }
    Ok(names)
}

/// Those of `made` that stand among the names, in their order.
fn needs_among(
    alloc: Global,
    places: &Notes,
    made: &[Txt],
    names: &[Txt],
) -> Result<Names, NoMemory>
    requires { (q : List ℕ) (p : ℕ) → list_any (nat_eq p) (places_noted places.now q) ≡ (nat_lt p (length made.now) && bytes_eq q (slice_index_or made.now p [])) }
    ensures { IfOk result (λ needs. needs ≡ filter (λ n. is_among n names.now) made.now) }
{
    let found = found_places(alloc, places, names)?;
    let needs = names_at(alloc, made, found)?;
    Ok(needs)
}

/// The places that are noted under the names.
fn found_places(alloc: Global, places: &Notes, names: &[Txt]) -> Result<BTreeSet<usize>, NoMemory>
    ensures { IfOk result (λ s. (p : ℕ) → contains nat_cmp s p ≡ list_any (λ n. list_any (nat_eq p) (places_noted places.now n)) names.now) }
{
    let mut found = BTreeSet::new(alloc);
    for name in names {
        add_places(&mut found, behind(places, name))?;
    }
    Ok(found)
}

fn add_places(found: &mut BTreeSet<usize>, places: &[usize]) -> Result<(), NoMemory>
    ensures { IfOk result (λ _. (p : ℕ) → contains nat_cmp found.new p ≡ (contains nat_cmp found.old p || list_any (nat_eq p) places.now)) }
{
    for place in places {
        found.insert(*place)?;
    }
    Ok(())
}

/// The names at places, which ascend.
fn names_at(alloc: Global, names: &[Txt], mut places: BTreeSet<usize>) -> Result<Names, NoMemory>
    requires { (p : ℕ) → contains nat_cmp places p ≡ true → p < length names.now }
    ensures value { IfOk result (λ found. found ≡ map (λ p. slice_index_or names.now p []) places.keys) }
    ensures ordered { IfOk result (λ _. IsOrdered nat_cmp places) }
{
    let mut found = Names::new(alloc);
    while let Some(place) = places.pop_first() {
        found.push(names[place].try_clone(alloc)?)?;
    }
    Ok(found)
}
