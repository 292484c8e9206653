//! The open calls of a stack, and those that are given up.
ghost use Rattle.std.specs.Prelude.{◌≡◌, ◌≤◌, ◌++◌, IfNone, IfOk, false, filter, find, is_some, map, not, option_copied, position, vec_len, vec_capacity};
ghost use Rattle.std.specs.List.{list_any};
ghost use Rattle.std.specs.Option.{option_map_or};
ghost use Rattle.std.specs.Str.{bytes_eq};
ghost use Rattle.cf_tree.specs.Lists.{is_among};
ghost use Rattle.cf_effect.specs.Begin.{creates_at, given_up, lost_create};
ghost use Rattle.cf_effect.specs.Words.{has_token, id_named, is_create_at, is_on, without_token};

use crate::held::{GivenUp, Leftover, Pending, Pendings, given_up, kept_leftover};
use cf_entry::Why;
use cf_tree::{Names, Request, Txt};
use std::alloc::{AllocError, Global};

/// The open call of a token.
pub fn pending_with(tokens: &[Pending], token: u64) -> Option<&Pending>
    ensures { option_copied result ≡ find (has_token token) tokens.now }
{
    tokens.iter().find(|pending| token == pending.token)
}

/// The place of the first open call of a token.
fn place_of(tokens: &[Pending], token: u64) -> Option<usize>
    ensures { result ≡ position (has_token token) tokens.now }
{
    tokens.iter().position(|pending| token == pending.token)
}

/// Whether a call of a token is open.
#[tactic(auto, using(crate::proofs::Closed::any_found))]
pub fn is_open(tokens: &[Pending], token: u64) -> bool
    ensures any { result ≡ list_any (has_token token) tokens.now }
    ensures found { result ≡ is_some (find (has_token token) tokens.now) }
{
    match pending_with(tokens, token) {
        Some(_) => true,
        None => false,
    }
}

/// Closes the calls of a token.
fn close(tokens: &mut Pendings, token: u64)
    ensures items { tokens.new.items ≡ without_token token tokens.old.items }
    ensures len { vec_len tokens.new ≤ vec_len tokens.old }
    ensures capacity { vec_capacity tokens.new ≡ vec_capacity tokens.old }
{
    tokens.retain(|pending| !(token == pending.token));
}

/// Closes the call of a token, and gives it back, where there is one.
#[tactic(auto, using(crate::proofs::Closed::closed_first, crate::proofs::Closed::first_closed, crate::proofs::Closed::none_closed, crate::proofs::Closed::closed_none))]
pub(crate) fn take_call(tokens: &mut Pendings, token: u64) -> Option<Pending>
    ensures call { result ≡ find (has_token token) tokens.old.items }
    ensures items { tokens.new.items ≡ without_token token tokens.old.items }
    ensures none { IfNone result (tokens.new.items ≡ tokens.old.items) }
    ensures len { vec_len tokens.new ≤ vec_len tokens.old }
    ensures capacity { vec_capacity tokens.new ≡ vec_capacity tokens.old }
{
    match place_of(tokens.as_slice(), token) {
        Some(at) => {
            let pending = tokens.remove(at);
            close(tokens, token);
            Some(pending)
        }
        None => None,
    }
}

/// Whether a request is of a call on the resource of a physical id.
fn names_physical(request: &Request, physical: &Txt) -> bool
    ensures { result ≡ option_map_or (bytes_eq physical.now) (id_named request.now) false }
{
    match request {
        Request::Create { .. } => false,
        Request::Update {
            physical: named,
            ..
        } => *physical == *named,
        Request::Delete { physical: named } => *physical == *named,
    }
}

/// The first open call on the resource of a physical id.
pub(crate) fn pending_on<'a>(tokens: &'a [Pending], physical: &Txt) -> Option<&'a Pending>
    ensures { option_copied result ≡ find (is_on physical.now) tokens.now }
{
    tokens
        .iter()
        .find(|pending| names_physical(&pending.request, physical))
}

/// Gives up the open calls on the resource of a physical id.
pub(crate) fn give_up_on(tokens: &mut Pendings, physical: &Txt)
    ensures { tokens.new.items ≡ filter (λ p. not (is_on physical.now p)) tokens.old.items }
{
    tokens.retain(|pending| !names_physical(&pending.request, physical));
}

/// Gives up the open calls at the paths that a continued rollback skips.
pub(crate) fn give_up_at(tokens: &mut Pendings, paths: &Names)
    ensures { tokens.new.items ≡ filter (λ p. not (is_among p.path paths.now)) tokens.old.items }
{
    tokens.retain(|pending| !paths.contains(&pending.path));
}

/// Whether an open call is a create at a path.
fn is_create_at(pending: &Pending, path: &Txt) -> bool
    ensures { result ≡ is_create_at path.now pending.now }
{
    match pending.request {
        Request::Create { .. } => *path == pending.path,
        _ => false,
    }
}

/// Whether a create at a path is open.
pub(crate) fn is_creating_at(tokens: &[Pending], path: &Txt) -> bool
    ensures { result ≡ list_any (is_create_at path.now) tokens.now }
{
    tokens.iter().any(|pending| is_create_at(pending, path))
}

/// Gives up the open creates at a path.
pub(crate) fn close_creates(tokens: &mut Pendings, path: &Txt)
    ensures { tokens.new.items ≡ filter (λ p. not (is_create_at path.now p)) tokens.old.items }
{
    tokens.retain(|pending| !is_create_at(pending, path));
}

/// Lists the open creates at a path as given up. After an error nothing is said of the list.
pub(crate) fn abandon(
    alloc: Global,
    abandoned: &mut Vec<GivenUp>,
    tokens: &[Pending],
    path: &Txt,
) -> Result<(), AllocError>
    ensures { IfOk result (λ _. abandoned.new.items ≡ abandoned.old.items ++ map given_up (filter (is_create_at path.now) tokens.now)) }
{
    for pending in tokens {
        if is_create_at(pending, path) {
            let create = given_up(alloc, pending.token, &pending.path)?;
            abandoned.push(create)?;
        }
    }
    Ok(())
}

/// Lists what the open creates at a path may have made. After an error nothing is said of the list.
pub(crate) fn leave_over(
    alloc: Global,
    leftovers: &mut Vec<Leftover>,
    tokens: &[Pending],
    path: &Txt,
) -> Result<(), AllocError>
    ensures { IfOk result (λ _. leftovers.new.items ≡ leftovers.old.items ++ map lost_create (creates_at tokens.now path.now)) }
{
    for pending in tokens {
        if is_create_at(pending, path) {
            let left = kept_leftover(alloc, &pending.path, "-", Why::Doubt)?;
            leftovers.push(left)?;
        }
    }
    Ok(())
}
