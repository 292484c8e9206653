//! What names stand for: `Ref`, `Fn::GetAtt`, the names of conditions, mappings and imports.
ghost use Rattle.std.specs.Prelude.{◌≡◌};
ghost use Rattle.cf_eval.specs.Functions.{ref_found, resource_ref, id_of, attribute_found, attribute_in, get_att_found, output_found, value_in_mapping, under_key, under_second, import_found, find_found, pseudo_ref, why_not, imported, name_found};
ghost use Rattle.cf_eval.specs.Outcome.{bad, fault};
ghost use Rattle.cf_eval.specs.declared.fault.EvalWhy.TheVariants.{UnknownAttribute};
ghost use Rattle.cf_eval.specs.Gives.{got_found, Gives};
ghost use Rattle.cf_eval.specs.ScopeOf.{scope_of, beyond_of};
ghost use Rattle.cf_eval.specs.Sights.{sight_shown};

use crate::env::OutputSight;
use crate::fault::{EvalWhy, Stop};
use crate::got::Got;
use crate::scope::{Beyond, Scope};
use crate::sights::Shown;
use crate::texts::{as_text, wanted_text};
use cf_funcs::cut;
use cf_tree::{ByName, Dict, Names, Setting, Txt, Val};
use std::alloc::Global;

/// `Ref`: a parameter, else a pseudo parameter, else a resource.
pub(crate) fn reference(alloc: Global, scope: &Scope, at: &Txt, name: &Txt) -> Result<Got, Stop>
    ensures { Gives (ref_found (scope_of scope.now) at.now name.now) result }
{
    match scope.params.get(name.as_str()) {
        Some(Setting::Value(value)) => Ok(Got::Value(value.try_clone(alloc)?)),
        Some(Setting::Later) => Ok(Got::Later),
        None => beside_params(alloc, scope, at, name),
    }
}

fn beside_params(alloc: Global, scope: &Scope, at: &Txt, name: &Txt) -> Result<Got, Stop>
    ensures { Gives (pseudo_ref (scope_of scope.now) at.now name.now) result }
{
    if name.is("AWS::NoValue") {
        return Ok(Got::NoValue);
    }
    match scope.pseudo.get(name.as_str()) {
        Some(value) => Ok(Got::Value(value.try_clone(alloc)?)),
        None => resource(alloc, &scope.beyond, at, name),
    }
}

fn resource(alloc: Global, beyond: &Beyond, at: &Txt, name: &Txt) -> Result<Got, Stop>
    ensures { Gives (resource_ref (beyond_of beyond.now) at.now name.now) result }
{
    match beyond {
        Beyond::Open { seen, imports: _ } => match seen.get(alloc, name.as_str())? {
            Some(shown) => id_of(alloc, at, &shown),
            None => Err(Stop::Bad {
                why: EvalWhy::UnknownName,
                at: at.try_clone(alloc)?,
            }),
        },
        Beyond::Closed { resources } => Err(Stop::Bad {
            why: barred(resources, name),
            at: at.try_clone(alloc)?,
        }),
    }
}

fn barred(resources: &Names, name: &Txt) -> EvalWhy
    ensures { result ≡ why_not name.now resources.now }
{
    for resource in resources.as_slice() {
        if name.is(resource.as_str()) {
            return EvalWhy::WrongKind;
        }
    }
    EvalWhy::UnknownName
}

/// The physical id of a resource, or the stack id of a nested stack.
fn id_of(alloc: Global, at: &Txt, shown: &Shown) -> Result<Got, Stop>
    ensures { Gives (id_of at.now (sight_shown shown.now)) result }
{
    match shown {
        Shown::NotMade => Err(Stop::Bad {
            why: EvalWhy::NotMade,
            at: at.try_clone(alloc)?,
        }),
        Shown::Made {
            physical: Some(id),
            attrs: _,
        } => Ok(Got::Value(Val::Text(id.try_clone(alloc)?))),
        Shown::Made {
            physical: None,
            attrs: _,
        } => Ok(Got::Later),
        Shown::Nested { id, outputs: _ } => Ok(Got::Value(Val::Text(id.try_clone(alloc)?))),
    }
}

/// `Fn::GetAtt`.
pub(crate) fn get_att(
    alloc: Global,
    scope: &Scope,
    at: &Txt,
    id: &Txt,
    name: &Got,
) -> Result<Got, Stop>
    ensures { Gives (get_att_found (scope_of scope.now) at.now id.now (got_found name.now)) result }
{
    match as_text(alloc, at, name)? {
        Some(name) => attribute(alloc, &scope.beyond, at, id.as_str(), name.as_str()),
        None => Ok(Got::Later),
    }
}

fn attribute(alloc: Global, beyond: &Beyond, at: &Txt, id: &str, name: &str) -> Result<Got, Stop>
    ensures { Gives (attribute_in (beyond_of beyond.now) at.now id.now name.now) result }
{
    match beyond {
        Beyond::Open { seen, imports: _ } => match seen.get(alloc, id)? {
            Some(shown) => attribute_of(alloc, at, &shown, name),
            None => Err(Stop::Bad {
                why: EvalWhy::UnknownName,
                at: at.try_clone(alloc)?,
            }),
        },
        Beyond::Closed { resources: _ } => Err(Stop::Bad {
            why: EvalWhy::WrongKind,
            at: at.try_clone(alloc)?,
        }),
    }
}

/// An attribute of a resource, or an output of a nested stack.
fn attribute_of(alloc: Global, at: &Txt, shown: &Shown, name: &str) -> Result<Got, Stop>
    ensures { Gives (attribute_found at.now (sight_shown shown.now) name.now) result }
{
    match shown {
        Shown::NotMade => Err(Stop::Bad {
            why: EvalWhy::NotMade,
            at: at.try_clone(alloc)?,
        }),
        Shown::Made {
            physical: _,
            attrs: Some(attrs),
        } => match attrs.get(name) {
            Some(value) => Ok(Got::Value(value.try_clone(alloc)?)),
            None => unknown_attribute(alloc, at),
        },
        Shown::Made {
            physical: _,
            attrs: None,
        } => Ok(Got::Later),
        Shown::Nested { id: _, outputs } => match outputs.get(name) {
            Some(output) => output_found(alloc, at, output),
            None => unknown_attribute(alloc, at),
        },
    }
}

fn unknown_attribute(alloc: Global, at: &Txt) -> Result<Got, Stop>
    ensures { Gives (bad (fault UnknownAttribute at.now)) result }
{
    Err(Stop::Bad {
        why: EvalWhy::UnknownAttribute,
        at: at.try_clone(alloc)?,
    })
}

fn output_found(alloc: Global, at: &Txt, output: &OutputSight) -> Result<Got, Stop>
    ensures { Gives (output_found at.now output.now) result }
{
    match output {
        OutputSight::NotMade => Err(Stop::Bad {
            why: EvalWhy::NotMade,
            at: at.try_clone(alloc)?,
        }),
        OutputSight::Made { value: Some(value) } => {
            Ok(Got::Value(Val::Text(value.try_clone(alloc)?)))
        }
        OutputSight::Made { value: None } => Ok(Got::Later),
        OutputSight::Broken {
            why,
            stack,
            at: place,
        } => Err(Stop::Below {
            why: *why,
            stack: stack.try_clone(alloc)?,
            at: place.try_clone(alloc)?,
        }),
    }
}

/// `Fn::ImportValue`.
pub(crate) fn import(alloc: Global, scope: &Scope, at: &Txt, name: &Got) -> Result<Got, Stop>
    ensures { Gives (import_found (scope_of scope.now) at.now (got_found name.now)) result }
{
    match as_text(alloc, at, name)? {
        Some(name) => imported(alloc, &scope.beyond, at, name.as_str()),
        None => Err(Stop::Bad {
            why: EvalWhy::WrongKind,
            at: at.try_clone(alloc)?,
        }),
    }
}

fn imported(alloc: Global, beyond: &Beyond, at: &Txt, name: &str) -> Result<Got, Stop>
    ensures { Gives (imported (beyond_of beyond.now) at.now name.now) result }
{
    match beyond {
        Beyond::Open { seen: _, imports } => match imports.get(name) {
            Some(value) => Ok(Got::Value(Val::Text(value.try_clone(alloc)?))),
            None => Err(Stop::Bad {
                why: EvalWhy::UnknownImport,
                at: at.try_clone(alloc)?,
            }),
        },
        Beyond::Closed { resources: _ } => Err(Stop::Bad {
            why: EvalWhy::WrongKind,
            at: at.try_clone(alloc)?,
        }),
    }
}

/// `Fn::FindInMap`.
pub(crate) fn find_in_map(
    alloc: Global,
    scope: &Scope,
    at: &Txt,
    name: &Got,
    first: &Got,
    second: &Got,
) -> Result<Got, Stop>
    ensures { Gives (find_found (scope_of scope.now) at.now (got_found name.now) (got_found first.now) (got_found second.now)) result }
{
    match (name, first, second) {
        (Got::Later, _, _) | (_, Got::Later, _) | (_, _, Got::Later) => Ok(Got::Later),
        (Got::Value(name), Got::Value(first), Got::Value(second)) => {
            let name = wanted_text(alloc, at, name)?;
            let first = wanted_text(alloc, at, first)?;
            let second = wanted_text(alloc, at, second)?;
            mapped(alloc, scope, at, &name, &first, &second)
        }
        _ => Err(Stop::Bad {
            why: EvalWhy::WrongKind,
            at: at.try_clone(alloc)?,
        }),
    }
}

fn mapped(
    alloc: Global,
    scope: &Scope,
    at: &Txt,
    name: &Txt,
    first: &Txt,
    second: &Txt,
) -> Result<Got, Stop>
    ensures { Gives (value_in_mapping (scope_of scope.now) at.now name.now first.now second.now) result }
{
    match scope.mappings.get(name.as_str()) {
        Some(keys) => under_key(alloc, at, keys, first, second),
        None => Err(Stop::Bad {
            why: EvalWhy::UnknownName,
            at: at.try_clone(alloc)?,
        }),
    }
}

fn under_key(
    alloc: Global,
    at: &Txt,
    keys: &ByName<Dict>,
    first: &Txt,
    second: &Txt,
) -> Result<Got, Stop>
    ensures { Gives (under_key at.now first.now second.now keys.now) result }
{
    match keys.get(first.as_str()) {
        Some(values) => under_second(alloc, at, values, second),
        None => Err(Stop::Bad {
            why: EvalWhy::UnknownMapKey,
            at: at.try_clone(alloc)?,
        }),
    }
}

fn under_second(alloc: Global, at: &Txt, values: &Dict, second: &Txt) -> Result<Got, Stop>
    ensures { Gives (under_second at.now second.now values.now) result }
{
    match values.get(second.as_str()) {
        Some(value) => Ok(Got::Value(value.try_clone(alloc)?)),
        None => Err(Stop::Bad {
            why: EvalWhy::UnknownMapKey,
            at: at.try_clone(alloc)?,
        }),
    }
}

/// A name in a text: as `Ref`, or as `Fn::GetAtt` where a dot stands in it.
pub(crate) fn named(alloc: Global, scope: &Scope, at: &Txt, name: &Txt) -> Result<Got, Stop>
    ensures { Gives (name_found (scope_of scope.now) at.now name.now) result }
{
    match cut(name.as_str(), ".") {
        Some((id, attr)) => attribute(alloc, &scope.beyond, at, id, attr),
        None => reference(alloc, scope, at, name),
    }
}
