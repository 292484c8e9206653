//! Which of the exports that a source may import it uses.
ghost use Rattle.std.specs.Prelude.{◌≡◌, ◌≢◌, [], ◌↔◌, IfOk, IsTrue, filter, map, not};
ghost use Rattle.std.specs.Str.{bytes_eq};
ghost use Rattle.cf_desired.specs.Plan.{plan_of};
ghost use Rattle.cf_desired.specs.Templates.{templates_of};
ghost use Rattle.cf_plan.specs.Accept.{with_imports, without_import};
ghost use Rattle.cf_prepare.specs.Imports.{UsesJust};
ghost use Rattle.cf_prepare.specs.Leaving.{LeavesOut, LeavesSome, HasOnlyUsed};

use crate::same::same_plan;
use cf_desired::{Plan, Seen, Templates, plan};
use cf_tree::{Names, Pairs, Source, Txt};
use std::alloc::{AllocError, Global};
use std::mem;

/// Whether a source comes to a plan that has no flaw.
fn comes_to(
    alloc: Global,
    source: &Source,
    templates: &Templates,
    seen: &Seen,
    wanted: &Plan,
) -> Result<bool, AllocError>
    requires templates { templates.now ≡ templates_of source.now }
    requires flawless { wanted.now.flaws ≡ [] }
    ensures { IfOk result (λ same. IsTrue same ↔ (plan_of source.now seen.now ≡ wanted.now)) }
{
    let other = plan(alloc, source, templates, seen)?;
    let same = same_plan(&other, wanted);
    drop(other);
    Ok(same)
}

/// The imports but for that of a name.
fn without(alloc: Global, imports: &Pairs, name: &Txt) -> Result<Pairs, AllocError>
    ensures { IfOk result (λ p. p ≡ without_import name.now imports.now) }
{
    let mut left = Vec::new(alloc);
    for import in imports.as_slice() {
        if !(*name == import.0) {
            left.push((import.0.try_clone(alloc)?, import.1.try_clone(alloc)?))?;
        }
    }
    Ok(Pairs::from_vec(left))
}

/// Leaves an import out where the source comes to the same without it, and tells whether it did.
/// After an error nothing is said of the source's imports.
fn leave_out(
    alloc: Global,
    source: &mut Source,
    templates: &Templates,
    seen: &Seen,
    wanted: &Plan,
    name: &Txt,
) -> Result<bool, AllocError>
    requires templates { templates.now ≡ templates_of source.old }
    requires flawless { wanted.now.flaws ≡ [] }
    ensures { IfOk result (λ out. LeavesOut seen.now wanted.now name.now source.old source.new out) }
{
    let fewer = without(alloc, &source.imports, name)?;
    let before = mem::replace(&mut source.imports, fewer);
    let same = comes_to(alloc, source, templates, seen, wanted)?;
    if !same {
        source.imports = before;
    }
    Ok(same)
}

/// The names of the imports.
fn names_of(alloc: Global, imports: &[(Txt, Txt)]) -> Result<Names, AllocError>
    ensures { IfOk result (λ names. names ≡ map (λ i. i.0) imports.now) }
{
    let mut names = Names::new(alloc);
    for import in imports {
        names.push(import.0.try_clone(alloc)?)?;
    }
    Ok(names)
}

/// Leaves each import out without which the source comes to the same, one after another, and tells
/// whether there was one. After an error nothing is said of the source's imports.
fn leave_some_out(
    alloc: Global,
    source: &mut Source,
    templates: &Templates,
    seen: &Seen,
    wanted: &Plan,
) -> Result<bool, AllocError>
    requires templates { templates.now ≡ templates_of source.old }
    requires flawless { wanted.now.flaws ≡ [] }
    ensures { IfOk result (λ out. LeavesSome seen.now wanted.now source.old source.new out) }
{
    let names = names_of(alloc, source.imports.as_slice())?;
    let mut left_out = false;
    for name in names.as_slice() {
        let out = leave_out(alloc, source, templates, seen, wanted, name)?;
        left_out = out || left_out;
    }
    Ok(left_out)
}

/// Leaves all imports out that the source doesn't use: those that are left are tested once more until
/// each is used. After an error nothing is said of the source's imports.
fn leave_unused_out(
    alloc: Global,
    source: &mut Source,
    templates: &Templates,
    seen: &Seen,
    wanted: &Plan,
) -> Result<(), AllocError>
    requires templates { templates.now ≡ templates_of source.old }
    requires flawless { wanted.now.flaws ≡ [] }
    ensures { IfOk result (λ _. HasOnlyUsed seen.now wanted.now source.old source.new) }
{
    'rounds: loop {
        if !leave_some_out(alloc, source, templates, seen, wanted)? {
            return Ok(());
        }
    }
}

/// The imports that a source uses, which comes to another plan without any.
fn imports_left(
    alloc: Global,
    source: &Source,
    templates: &Templates,
    seen: &Seen,
    wanted: &Plan,
) -> Result<Pairs, AllocError>
    requires templates { templates.now ≡ templates_of source.now }
    requires plan { wanted.now ≡ plan_of source.now seen.now }
    requires flawless { wanted.now.flaws ≡ [] }
    requires differs { plan_of (with_imports source.now []) seen.now ≢ wanted.now }
    ensures { IfOk result (λ imports. UsesJust source.now seen.now imports) }
{
    let mut trial = source.try_clone(alloc)?;
    match leave_unused_out(alloc, &mut trial, templates, seen, wanted) {
        Ok(()) => Ok(trial.imports),
        Err(failed) => {
            drop(trial);
            Err(failed)
        }
    }
}

/// Whether a source comes to a plan that has no flaw also without any import.
fn needs_none(
    alloc: Global,
    source: &Source,
    templates: &Templates,
    seen: &Seen,
    wanted: &Plan,
) -> Result<bool, AllocError>
    requires templates { templates.now ≡ templates_of source.now }
    requires flawless { wanted.now.flaws ≡ [] }
    ensures { IfOk result (λ none. IsTrue none ↔ (plan_of (with_imports source.now []) seen.now ≡ wanted.now)) }
{
    let mut trial = source.try_clone(alloc)?;
    drop(mem::replace(&mut trial.imports, Pairs::new(alloc)));
    let none = comes_to(alloc, &trial, templates, seen, wanted);
    drop(trial);
    none
}

/// The imports that a source uses, which comes to this plan with all of its own.
///
/// The source is worked out once without any import, and only where that differs once without each
/// of them, twice for those that it uses.
pub(crate) fn imports_used(
    alloc: Global,
    source: &Source,
    templates: &Templates,
    seen: &Seen,
    wanted: &Plan,
) -> Result<Pairs, AllocError>
    requires templates { templates.now ≡ templates_of source.now }
    requires plan { wanted.now ≡ plan_of source.now seen.now }
    requires flawless { wanted.now.flaws ≡ [] }
    ensures { IfOk result (λ imports. UsesJust source.now seen.now imports) }
{
    if source.imports.is_empty() {
        return Ok(Pairs::new(alloc));
    }
    if needs_none(alloc, source, templates, seen, wanted)? {
        Ok(Pairs::new(alloc))
    } else {
        imports_left(alloc, source, templates, seen, wanted)
    }
}
