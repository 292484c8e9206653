//! Resources in the order of work: what is asked of them, and what they need.
ghost use Rattle.std.specs.Prelude.{◌≡◌, ◌++◌, IfOk, fold, is_some, map, true};
ghost use Rattle.std.specs.Option.{option_map_or};
ghost use Rattle.cf_tree.specs.Keys.{value_at};
ghost use Rattle.cf_desired.specs.Kept.{entering_in, member_in, nesting_in};
ghost use Rattle.cf_desired.specs.Shape.{in_order, put_name, stood_for, unnamed_at};
ghost use Rattle.cf_desired.specs.Laying.{member_by, nesting_by};

use crate::flaw::Flaw;
use crate::laying::Entering;
use crate::names::{name_in, resource_place};
use crate::shape::{Member, Nesting, Stack};
use crate::shared::SharedRes;
use cf_eval::{EvalWhy, path_in};
use cf_tree::{ByName, CondMap, Deletion, Names, Replace, Txt};
use std::alloc::{AllocError, Global};

/// A resource, where ids stand for paths. One without a policy of its own takes that around its stack, or else `Delete`.
pub(crate) fn member_by(
    alloc: Global,
    entering: &Entering,
    conds: &CondMap,
    stands: &ByName<Names>,
    resource: SharedRes,
    ids: &Names,
) -> Result<Member, AllocError>
    ensures { IfOk result (λ m. member_in m ≡ member_by (entering_in entering.now) conds.now stands.now ids.now resource) }
{
    Ok(Member {
        path: path_in(alloc, &entering.stack.path, resource.name.as_str())?,
        deletion: resource
            .deletion
            .or(entering.deletion)
            .unwrap_or(Deletion::Delete),
        replace: resource
            .replace
            .or(entering.replace)
            .unwrap_or(Replace::Delete),
        needs: needed_paths(alloc, ids, stands, &entering.needs)?,
        unnamed: unnamed(alloc, &entering.stack, conds, &resource)?,
        resource,
    })
}

/// A nested stack, where ids stand for paths.
pub(crate) fn nesting_by(
    alloc: Global,
    entering: &Entering,
    stands: &ByName<Names>,
    resource: &SharedRes,
    ids: &Names,
) -> Result<Nesting, AllocError>
    ensures { IfOk result (λ n. nesting_in n ≡ nesting_by (entering_in entering.now) stands.now ids.now resource.now) }
{
    Ok(Nesting {
        path: path_in(alloc, &entering.stack.path, resource.name.as_str())?,
        id: resource.name.try_clone(alloc)?,
        name: name_in(alloc, &entering.stack.name, &resource.name)?,
        needs: needed_paths(alloc, ids, stands, &entering.needs)?,
    })
}

/// The paths that logical ids stand for, and those around the stack, each once, in byte order.
fn needed_paths(
    alloc: Global,
    ids: &Names,
    stands: &ByName<Names>,
    around: &Names,
) -> Result<Names, AllocError>
    ensures { IfOk result (λ names. names ≡ in_order (stood_for stands.now ids.now ++ around.now)) }
{
    let mut paths = ByName::new(alloc);
    for id in ids.as_slice() {
        if let Some(names) = stands.get(id.as_str()) {
            add_names(alloc, &mut paths, names)?;
        }
    }
    add_names(alloc, &mut paths, around)?;
    names_in(alloc, paths)
}

/// Adds names to those that came before.
fn add_names(alloc: Global, paths: &mut ByName<bool>, names: &Names) -> Result<(), AllocError>
    ensures { IfOk result (λ _. paths.new ≡ fold put_name paths.old names.now) }
{
    for name in names.as_slice() {
        paths.insert(name.try_clone(alloc)?, true)?;
    }
    Ok(())
}

fn names_in(alloc: Global, paths: ByName<bool>) -> Result<Names, AllocError>
    ensures { IfOk result (λ names. names ≡ map (λ p. p.0) paths) }
{
    let mut names = Names::new(alloc);
    for (name, _) in paths.into_vec() {
        names.push(name)?;
    }
    Ok(names)
}

/// The flaw that a resource's condition is not declared.
pub(crate) fn unnamed(
    alloc: Global,
    stack: &Stack,
    conds: &CondMap,
    resource: &SharedRes,
) -> Result<Option<Flaw>, AllocError>
    ensures { IfOk result (λ f. f ≡ unnamed_at stack.now.path conds.now resource.now) }
{
    if is_declared(conds, &resource.condition) {
        return Ok(None);
    }
    Ok(Some(Flaw::Eval {
        why: EvalWhy::UnknownName,
        stack: stack.path.try_clone(alloc)?,
        at: resource_place(alloc, &resource.name)?,
    }))
}

/// Whether there is no condition, or one that the template declares.
pub(crate) fn is_declared(conds: &CondMap, condition: &Option<Txt>) -> bool
    ensures { result ≡ option_map_or (λ name. is_some (value_at name conds.now)) condition.now true }
{
    match condition {
        Some(name) => conds.get(name.as_str()).is_some(),
        None => true,
    }
}
