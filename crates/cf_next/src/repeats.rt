//! Open calls that may be made again, in every stage.
ghost use Rattle.std.specs.Prelude.{◌≡◌, ◌&&◌, not, false, filter, IfOk, []};
ghost use Rattle.cf_tree.specs.Lists.{is_among};
ghost use Rattle.cf_plan.specs.Follow.{may_repeat};
ghost use Rattle.cf_next.specs.Repeats.{AreRepeatsBut, can_repeat};

use crate::lookups::{Lent, is_among};
use cf_plan::may_repeat;
use cf_stacks::{Pending, StackState};
use cf_tree::{Listing, TryClone};
use std::alloc::{AllocError, Global};

/// Whether the call of an open token may be made again where these paths are retained, whatever has failed.
fn can_repeat(out: &[u64], stack: &StackState, retained: &[Lent], pending: &Pending) -> bool
    ensures { result ≡ can_repeat retained.now out.now stack.now.stack pending.now }
{
    may_repeat(out, stack, pending) && !is_among(retained, &pending.path)
}

/// These open calls, but for those that may not be made again.
fn repeats_of(
    alloc: Global,
    out: &[u64],
    stack: &StackState,
    retained: &[Lent],
    tokens: &[Pending],
) -> Result<Listing<Pending>, AllocError>
    ensures { IfOk result (λ repeats. repeats ≡ filter (can_repeat retained.now out.now stack.now.stack) tokens.now) }
{
    let mut repeats = Listing::new(alloc);
    for pending in tokens {
        if can_repeat(out, stack, retained, pending) {
            repeats.push(pending.try_clone(alloc)?)?;
        }
    }
    Ok(repeats)
}

/// The open calls that may be made again in a stage that is to retain these paths, which are those that a deletion of the stack
/// names, and none in any other stage. Of the forward phase these are its repeats where it has not failed.
///
/// # Errors
///
/// Only for want of memory.
pub(crate) fn repeats_in(
    alloc: Global,
    stack: &StackState,
    out: &[u64],
    retained: &[Lent],
) -> Result<Listing<Pending>, AllocError>
    ensures { IfOk result (λ repeats. AreRepeatsBut retained.now out.now stack.now.stack repeats) }
{
    repeats_of(alloc, out, stack, retained, stack.tokens().as_slice())
}

/// The open calls that may be made again in a stage that retains nothing: each but the deletion of a stack.
///
/// # Errors
///
/// Only for want of memory.
pub(crate) fn repeats(
    alloc: Global,
    stack: &StackState,
    out: &[u64],
) -> Result<Listing<Pending>, AllocError>
    ensures { IfOk result (λ repeats. AreRepeatsBut [] out.now stack.now.stack repeats) }
{
    repeats_in(alloc, stack, out, &[])
}
