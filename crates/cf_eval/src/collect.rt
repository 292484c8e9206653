//! Lists and objects, put together from their members.
ghost use Rattle.std.specs.Prelude.{◌≡◌, [], IfOk, map, fold, filter_map};
ghost use Rattle.cf_eval.specs.Value.{list_found, dict_found, put_known};
ghost use Rattle.cf_eval.specs.Gives.{got_found, member_found, Gives, any_late, late_binding, got_value, named_value};

use crate::fault::Stop;
use crate::got::Got;
use cf_tree::{Dict, Txt, Val, Vals};
use std::alloc::{AllocError, Global};

/// Whether a member is Later.
pub(crate) fn any_late(gots: &[Got]) -> bool
    ensures { result ≡ any_late gots.now }
{
    for got in gots {
        if let Got::Later = got {
            return true;
        }
    }
    false
}

/// Whether a member under a name is Later.
pub(crate) fn late_binding(bound: &[(Txt, Got)]) -> bool
    ensures { result ≡ late_binding bound.now }
{
    for binding in bound {
        if let Got::Later = binding.1 {
            return true;
        }
    }
    false
}

/// A list closes up where a member is `AWS::NoValue`.
#[tactic(auto, using(crate::proofs::Gots::each_of_gots))]
pub(crate) fn list_of(alloc: Global, gots: Vec<Got>) -> Result<Got, Stop>
    ensures { Gives (list_found (map got_found gots.items)) result }
{
    if any_late(gots.as_slice()) {
        return Ok(Got::Later);
    }
    let values = known_values(alloc, gots)?;
    Ok(Got::Value(Val::List(values)))
}

fn known_values(alloc: Global, gots: Vec<Got>) -> Result<Vals, AllocError>
    ensures { IfOk result (λ v. v ≡ filter_map (λ o. o) (map got_value gots.items)) }
{
    let mut values = Vals::new(alloc);
    for got in gots {
        if let Got::Value(value) = got {
            values.push(value)?;
        }
    }
    Ok(values)
}

/// A member is left out where it is `AWS::NoValue`.
#[tactic(auto, using(crate::proofs::Gots::each_of_bindings))]
pub(crate) fn dict_of(alloc: Global, bound: Vec<(Txt, Got)>) -> Result<Got, Stop>
    ensures { Gives (dict_found (map member_found bound.items)) result }
{
    if late_binding(bound.as_slice()) {
        return Ok(Got::Later);
    }
    let values = known_members(alloc, bound)?;
    Ok(Got::Value(Val::Dict(values)))
}

fn known_members(alloc: Global, bound: Vec<(Txt, Got)>) -> Result<Dict, AllocError>
    ensures { IfOk result (λ d. d ≡ fold put_known [] (map named_value bound.items)) }
{
    let mut members = Dict::new(alloc);
    for (name, got) in bound {
        if let Got::Value(value) = got {
            members.insert(name, value)?;
        }
    }
    Ok(members)
}
