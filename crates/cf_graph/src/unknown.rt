//! Resources that a `DependsOn` names and nothing declares.
ghost use Rattle.std.specs.Prelude.{◌≡◌, ℕ, List, IfOk, find, not, option_copied};
ghost use Rattle.std.specs.List.{list_any};
ghost use Rattle.std.specs.Str.{bytes_eq};
ghost use Rattle.std.specs.Ordering.{nat_cmp};
ghost use Rattle.std.specs.Cmp.Lexicographic.{slice_cmp};
ghost use Rattle.std.specs.BTreeSet.{contains};
ghost use Rattle.cf_graph.specs.Needs.{unknown_dependency};

use cf_tree::{Names, NoMemory, Resources, Template, Txt};
use std::alloc::Global;
use std::collections::BTreeSet;

/// The first resource whose `DependsOn` names one that is not declared, and the first such name there.
///
/// It takes time in proportion to the names, times the logarithm of how many resources there are.
pub(crate) fn unknown_dependency(
    alloc: Global,
    template: &Template,
) -> Result<Option<(Txt, Txt)>, NoMemory>
    ensures { IfOk result (λ unknown. unknown ≡ unknown_dependency template.now) }
{
    let declared = resource_names(alloc, &template.resources)?;
    for resource in template.resources.as_slice() {
        if let Some(name) = first_unknown(&declared, &resource.depends) {
            return Ok(Some((resource.name.try_clone(alloc)?, name.try_clone(alloc)?)));
        }
    }
    Ok(None)
}

/// The names of the resources.
fn resource_names(alloc: Global, resources: &Resources) -> Result<BTreeSet<Txt>, NoMemory>
    ensures { IfOk result (λ s. (q : List ℕ) → contains (slice_cmp nat_cmp) s q ≡ list_any (λ r. bytes_eq q r.name) resources.now) }
{
    let mut names = BTreeSet::new(alloc);
    for resource in resources.as_slice() {
        names.insert(resource.name.try_clone(alloc)?)?;
    }
    Ok(names)
}

/// The first of the names that is not declared.
fn first_unknown<'a>(declared: &BTreeSet<Txt>, names: &'a Names) -> Option<&'a Txt>
    ensures { option_copied result ≡ find (λ n. not (contains (slice_cmp nat_cmp) declared.now n)) names.now }
{
    names
        .as_slice()
        .iter()
        .find(|name| !declared.contains(*name))
}
