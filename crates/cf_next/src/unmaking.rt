//! The stages that delete resources: two cleanups, the rollback of a creation, and the deletion of a stack.
ghost use Rattle.std.specs.Prelude.{◌≡◌};
ghost use Rattle.cf_next.specs.Facts.{has_try_left};
ghost use Rattle.cf_next.specs.Unmaking.{held_for, is_cleanup, is_in_view, made_for};

use crate::tallies::Tally;
use cf_stacks::{Held, StackState};

/// A stage that deletes resources.
#[derive(Clone, Copy)]
pub(crate) enum Unmaking {
    /// An update cleans up what it replaced or removed.
    Clean,
    /// A creation is rolled back.
    Back,
    /// An update that was rolled back cleans up what it made.
    BackClean,
    /// A stack is deleted.
    Gone,
}

/// Whether a stage is a cleanup: what it can't delete is kept.
pub(crate) fn is_cleanup(stage: Unmaking) -> bool
    ensures { result ≡ is_cleanup stage }
{
    match stage {
        Unmaking::Clean | Unmaking::BackClean => true,
        Unmaking::Back | Unmaking::Gone => false,
    }
}

/// The held resources that a stage looks at.
pub(crate) fn held_for(stage: Unmaking, stack: &StackState) -> &[Held]
    ensures { result.now ≡ held_for stage stack.now.stack }
{
    match stage {
        Unmaking::Clean | Unmaking::Gone => stack.held().as_slice(),
        Unmaking::Back | Unmaking::BackClean => &[],
    }
}

/// The made resources that a stage looks at.
pub(crate) fn made_for(stage: Unmaking, stack: &StackState) -> &[Held]
    ensures { result.now ≡ made_for stage stack.now.stack }
{
    match stage {
        Unmaking::Clean => &[],
        Unmaking::Back | Unmaking::BackClean | Unmaking::Gone => stack.made().as_slice(),
    }
}

/// Whether a stage looks at a resource.
pub(crate) fn is_in_view(stage: Unmaking, held: &Held) -> bool
    ensures { result ≡ is_in_view stage held.now }
{
    match stage {
        Unmaking::Clean => held.superseded,
        Unmaking::Back | Unmaking::BackClean | Unmaking::Gone => true,
    }
}

/// Whether a stage may try once more to delete a resource: a cleanup tries three times, the others once.
pub(crate) fn has_try_left(stage: Unmaking, tally: Tally) -> bool
    ensures { result ≡ has_try_left stage tally }
{
    if is_cleanup(stage) {
        tally.begun < 3
    } else {
        tally.begun == 0
    }
}
