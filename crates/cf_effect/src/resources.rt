//! What entries change of the resources of a stack.
ghost use Rattle.std.specs.Prelude.{◌≡◌, ◌≤◌, IfOk, find, map, option_copied, position, true, vec_len, vec_capacity};
ghost use Rattle.std.specs.List.{list_any};
ghost use Rattle.std.specs.Str.{bytes_eq};
ghost use Rattle.cf_effect.specs.Begin.{as_before, skipped_in};
ghost use Rattle.cf_effect.specs.End.{doubtful, marked};
ghost use Rattle.cf_effect.specs.Reply.{status_made, updating};
ghost use Rattle.cf_effect.specs.Words.{current_at, has_physical, where_physical, without};

use crate::copies::copy_into;
use crate::held::{Held, HeldStatus, Helds, Pending};
use crate::tokens::pending_on;
use cf_tree::{Dict, Names, Request, Txt};
use std::alloc::{AllocError, Global};

/// The resource that a list holds at a path.
pub fn current_at<'a>(helds: &'a [Held], path: &Txt) -> Option<&'a Held>
    ensures { option_copied result ≡ current_at path.now helds.now }
{
    helds
        .iter()
        .find(|held| *path == held.path && !held.superseded)
}

/// Whether one of the resources of a list has a physical id.
pub(crate) fn has_physical(helds: &[Held], physical: &Txt) -> bool
    ensures { result ≡ list_any (has_physical physical.now) helds.now }
{
    helds.iter().any(|held| *physical == held.physical)
}

/// The place of the resource of a physical id in a list.
fn place_of(helds: &[Held], physical: &Txt) -> Option<usize>
    ensures { result ≡ position (has_physical physical.now) helds.now }
{
    helds.iter().position(|held| *physical == held.physical)
}

/// The resource of a physical id.
pub(crate) fn with_physical<'a>(helds: &'a [Held], physical: &Txt) -> Option<&'a Held>
    ensures { option_copied result ≡ find (has_physical physical.now) helds.now }
{
    helds.iter().find(|held| *physical == held.physical)
}

/// Whether two texts end alike: in the same byte, where neither is empty.
#[tactic(auto, using(crate::proofs::Ends::ends_same))]
fn ends_alike(bytes: &[u8], others: &[u8]) -> bool
    ensures { bytes.now ≡ others.now → result ≡ true }
{
    match (bytes.last(), others.last()) {
        (Some(byte), Some(other)) => *byte == *other,
        _ => true,
    }
}

/// Whether two ids are the same. Those of one lane begin alike, so that their ends are compared first.
#[tactic(auto, using(crate::proofs::Ends::ends_apart))]
fn is_same_id(id: &Txt, other: &Txt) -> bool
    ensures { result ≡ bytes_eq id.now other.now }
{
    ends_alike(id.as_str().as_bytes(), other.as_str().as_bytes()) && *id == *other
}

/// Takes the resource of a physical id off a list.
pub(crate) fn remove(helds: &mut Helds, physical: &Txt)
    ensures items { helds.new.items ≡ without physical.now helds.old.items }
    ensures len { vec_len helds.new ≤ vec_len helds.old }
    ensures capacity { vec_capacity helds.new ≡ vec_capacity helds.old }
{
    helds.retain(|held| !is_same_id(physical, &held.physical));
}

/// Gives the resource of a physical id a status.
#[tactic(auto, using(crate::proofs::ChangedFirst::changed_first, crate::proofs::ChangedFirst::changed_none))]
pub(crate) fn set_status(helds: &mut Helds, physical: &Txt, status: HeldStatus)
    ensures items { helds.new.items ≡ where_physical physical.now (λ h. record h { status = status }) helds.old.items }
    ensures len { vec_len helds.new ≤ vec_len helds.old }
    ensures capacity { vec_capacity helds.new ≡ vec_capacity helds.old }
{
    if let Some(at) = place_of(helds.as_slice(), physical) {
        helds[at].status = status;
    }
}

/// Gives a resource the properties and attributes of an update that succeeded.
fn renew_one(held: &mut Held, props: Dict, attrs: Dict)
    ensures { held.new ≡ updating props attrs held.old }
{
    held.props = props;
    held.attrs = attrs;
    held.status = HeldStatus::UpdateComplete;
    held.unsure = false;
}

/// Gives the resource of a physical id the properties and attributes of an update that succeeded.
#[tactic(auto, using(crate::proofs::ChangedFirst::changed_first, crate::proofs::ChangedFirst::changed_none))]
pub(crate) fn renew(helds: &mut Helds, physical: &Txt, props: Dict, attrs: Dict)
    ensures items { helds.new.items ≡ where_physical physical.now (updating props attrs) helds.old.items }
    ensures len { vec_len helds.new ≤ vec_len helds.old }
    ensures capacity { vec_capacity helds.new ≡ vec_capacity helds.old }
{
    if let Some(at) = place_of(helds.as_slice(), physical) {
        renew_one(&mut helds[at], props, attrs);
    }
}

/// The status of a resource that is made at a path, beside what is held.
pub(crate) fn status_made(held: &[Held], path: &Txt) -> HeldStatus
    ensures { result ≡ status_made (current_at path.now held.now) }
{
    match current_at(held, path) {
        Some(_) => HeldStatus::UpdateComplete,
        None => HeldStatus::CreateComplete,
    }
}

/// The status of a resource of which a call is open as its operation ends.
fn doubtful_status(request: &Request, status: HeldStatus) -> HeldStatus
    ensures { result ≡ doubtful request.now status }
{
    match request {
        Request::Create { .. } => status,
        Request::Update { .. } => HeldStatus::UpdateFailed,
        Request::Delete { .. } => HeldStatus::DeleteFailed,
    }
}

/// Marks a resource, of which a call is open, as left in doubt.
fn mark_one(held: &mut Held, tokens: &[Pending])
    ensures { held.new ≡ marked tokens.now held.old }
{
    if let Some(pending) = pending_on(tokens, &held.physical) {
        held.status = doubtful_status(&pending.request, held.status);
    }
}

/// Marks each resource of which a call is open as left in doubt.
pub(crate) fn mark(helds: &mut Helds, tokens: &[Pending])
    ensures { helds.new.items ≡ map (marked tokens.now) helds.old.items }
{
    for held in helds.iter_mut() {
        mark_one(held, tokens);
    }
}

/// Gives a resource that a continued rollback skips what it had before, where that is known, and
/// makes it unsure. After an error nothing is said of it.
fn give_back(alloc: Global, held: &mut Held, before: Option<&Held>) -> Result<(), AllocError>
    ensures { IfOk result (λ _. held.new ≡ as_before (option_copied before.entry) held.old) }
{
    if let Some(earlier) = before {
        copy_into(alloc, &earlier.props, &mut held.props)?;
        copy_into(alloc, &earlier.attrs, &mut held.attrs)?;
    }
    held.status = HeldStatus::UpdateComplete;
    held.unsure = true;
    Ok(())
}

/// Gives the resources at the paths that a continued rollback skips what they had before, and makes
/// them unsure. After an error nothing is said of the list.
pub(crate) fn skip(
    alloc: Global,
    helds: &mut Helds,
    paths: &Names,
    before: &[Held],
) -> Result<(), AllocError>
    ensures { IfOk result (λ _. helds.new.items ≡ map (skipped_in paths.now before.now) helds.old.items) }
{
    for held in helds.iter_mut() {
        if paths.contains(&held.path) {
            let earlier = with_physical(before, &held.physical);
            give_back(alloc, held, earlier)?;
        }
    }
    Ok(())
}
