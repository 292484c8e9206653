//! What the properties of a path come to.
ghost use Rattle.std.specs.Prelude.{◌≡◌, ◌↔◌, ◌&&◌, IfOk, IsTrue};
ghost use Rattle.std.specs.Option.{option_copied};
ghost use Rattle.std.specs.Str.{bytes_eq};
ghost use Rattle.cf_tree.specs.Datum.{members_of};
ghost use Rattle.cf_tree.specs.Same.{same_members};
ghost use Rattle.cf_desired.specs.Whole.{wanted_at};
ghost use Rattle.cf_effect.specs.Words.{current_at};
ghost use Rattle.cf_plan.specs.Forward.{Known, finding, finding_by, finding_over};
ghost use Rattle.cf_plan.specs.Done.{IsHeldRight, IsFoundRight, finding_of};

use crate::index::PlanIndex;
use cf_desired::{Evaluated, Flaw, Plan, Wanted};
use cf_effect::PathIndex;
use cf_stacks::{Held, current_at};
use cf_tree::{Dict, Txt};
use std::alloc::{AllocError, Global};

/// What the properties of a path come to.
#[derive(Drop)]
pub enum Found<'a> {
    /// They are at fault.
    Bad { flaw: &'a Flaw },
    /// Not all of them are known yet.
    Later,
    /// They are known: the resource's type and its properties.
    Known { kind: &'a Txt, props: Dict },
}

/// What is wanted at a path.
pub fn wanted_at<'a>(plan: &'a Plan, path: &Txt) -> Option<&'a Wanted>
    ensures { option_copied result ≡ wanted_at path.now plan.now }
{
    plan.wanted
        .as_slice()
        .iter()
        .find(|wanted| *path == wanted.path)
}

/// What the properties of what is wanted come to.
fn finding<'a>(alloc: Global, wanted: &'a Wanted) -> Result<Found<'a>, AllocError>
    ensures { IfOk result (λ found. finding_of found ≡ finding wanted.now.kind wanted.now.props) }
{
    match &wanted.props {
        Evaluated::Flawed { flaw } => Ok(Found::Bad { flaw }),
        Evaluated::Known { props } => match props.known(alloc)? {
            Some(props) => Ok(Found::Known {
                kind: &wanted.kind,
                props,
            }),
            None => Ok(Found::Later),
        },
    }
}

/// What the properties of what is wanted come to, where something is.
pub(crate) fn finding_over<'a>(
    alloc: Global,
    wanted: Option<&'a Wanted>,
) -> Result<Found<'a>, AllocError>
    ensures { IfOk result (λ found. finding_of found ≡ finding_over (option_copied wanted.entry)) }
{
    match wanted {
        Some(wanted) => finding(alloc, wanted),
        None => Ok(Found::Later),
    }
}

/// What the properties of a path come to by a plan.
pub fn finding_at<'a>(alloc: Global, plan: &'a Plan, path: &Txt) -> Result<Found<'a>, AllocError>
    ensures { IfOk result (λ found. finding_of found ≡ finding_by path.now plan.now) }
{
    finding_over(alloc, wanted_at(plan, path))
}

/// Whether a type and properties are the same as others.
fn are_same(found: &Txt, wanted: &Dict, kind: &Txt, props: &Dict) -> bool
    ensures { result ≡ (bytes_eq found.now kind.now && same_members (members_of wanted.now) (members_of props.now)) }
{
    *found == *kind && *wanted == *props
}

/// Whether what is wanted has this type and these properties.
fn has_props(
    alloc: Global,
    wanted: Option<&Wanted>,
    kind: &Txt,
    props: &Dict,
) -> Result<bool, AllocError>
    ensures { IfOk result (λ same. IsTrue same ↔ (finding_over (option_copied wanted.entry) ≡ Known kind.now props.now)) }
{
    let finding = finding_over(alloc, wanted)?;
    match finding {
        Found::Known {
            kind: found,
            props: wanted,
        } => Ok(are_same(found, &wanted, kind, props)),
        Found::Bad { flaw: _ } => Ok(false),
        Found::Later => Ok(false),
    }
}

/// Whether what is held is sure and has the type and properties that are wanted.
fn is_right(alloc: Global, wanted: Option<&Wanted>, held: Option<&Held>) -> Result<bool, AllocError>
    ensures { IfOk result (λ right. IsTrue right ↔ IsFoundRight (option_copied wanted.entry) (option_copied held.entry)) }
{
    match held {
        Some(held) => {
            if held.unsure {
                Ok(false)
            } else {
                has_props(alloc, wanted, &held.kind, &held.props)
            }
        }
        None => Ok(false),
    }
}

/// Whether what is held at a path is sure and has the type and properties that a plan gives the path.
pub(crate) fn is_right_at(
    alloc: Global,
    plan: &PlanIndex,
    helds: &PathIndex<Held>,
    path: &Txt,
) -> Result<bool, AllocError>
    ensures { IfOk result (λ right. IsTrue right ↔ IsHeldRight path.now plan.now helds.now) }
{
    is_right(alloc, plan.wanted_at(path), helds.get(path))
}

/// Whether what is held at a path is sure and has the type and properties that a plan gives the path.
pub fn is_held_right(
    alloc: Global,
    plan: &Plan,
    helds: &[Held],
    path: &Txt,
) -> Result<bool, AllocError>
    ensures { IfOk result (λ right. IsTrue right ↔ IsHeldRight path.now plan.now helds.now) }
{
    is_right(alloc, wanted_at(plan, path), current_at(helds, path))
}
