//! Whether each operation is of one stack.
ghost use Rattle.std.specs.Prelude.{◌≡◌, ◌==◌, IsTrue, map};
ghost use Rattle.std.specs.List.{list_any};
ghost use Rattle.cf_stacks.specs.Apart.{AreApart};
ghost use Rattle.cf_stacks.specs.Standing.{stack_in};
ghost use Rattle.cf_book.specs.Opening.{are_apart, stands_apart};

use cf_stacks::{StackState, World};
use cf_tree::Txt;

/// Whether a stack of these has this operation for its last one.
fn has_operation(stacks: &[(Txt, StackState)], operation: u64) -> bool
    ensures { result ≡ list_any (λ s. s.1.stack.operation == operation) stacks.now }
{
    stacks.iter().any(|stack| stack.1.operation() == operation)
}

/// Whether an operation is not above the last one and, unless none ever began, of none of these stacks.
#[tactic(auto, using(crate::proofs::Numbers::any_operation))]
fn stands_apart(last: u64, operation: u64, others: &[(Txt, StackState)]) -> bool
    ensures { result ≡ stands_apart last operation (map stack_in others.now) }
{
    operation <= last && (operation == 0 || !has_operation(others, operation))
}

/// The same of each of these stacks, and of those behind it.
fn are_apart(last: u64, stacks: &[(Txt, StackState)]) -> bool
    ensures { result ≡ are_apart last (map stack_in stacks.now) }
{
    for (at, stack) in stacks.iter().enumerate() {
        if !stands_apart(last, stack.1.operation(), &stacks[at + 1..]) {
            return false;
        }
    }
    true
}

/// Whether each operation is of one stack, as it is of the entries that runs have written.
pub(crate) fn is_apart(world: &World) -> bool
    ensures apart { IsTrue result → AreApart world.now.world }
{
    are_apart(world.operation(), world.stacks().as_slice())
}
