//! The count of refusals and faults after an answer.
ghost use Rattle.cf_handler.specs.Look.{HasLookCause};
ghost use Rattle.cf_handler.specs.Move.{HasCause};
ghost use Rattle.cf_handler.specs.Tells.{HasFenceCause};

use cf_handler::FenceAnswer;
use cf_tree::{Answer, Look};

/// The count after an answer, which each refusal and each fault raises.
pub fn count_answer(count: u64, answer: &Answer) -> u64
    ensures { HasCause count result answer.now }
{
    match answer {
        Answer::Success {
            physical: _,
            attrs: _,
        } => count,
        Answer::Failed { code: _ } => count.saturating_add(1),
        Answer::Fault => count.saturating_add(1),
        Answer::Stale { fence: _ } => count,
        Answer::NoMemory => count,
    }
}

/// The count after a look, which each fault raises.
pub fn count_look(count: u64, look: &Look) -> u64
    ensures { HasLookCause count result look.now }
{
    match look {
        Look::Found { props: _, attrs: _ } => count,
        Look::Failed { code: _ } => count.saturating_add(1),
        Look::Fault => count.saturating_add(1),
        Look::Stale { fence: _ } => count,
        Look::NoMemory => count,
    }
}

/// The count after the raising of a fence, which each fault raises.
pub fn count_fence(count: u64, answer: &FenceAnswer) -> u64
    ensures { HasFenceCause count result answer.now }
{
    match answer {
        FenceAnswer::Raised => count,
        FenceAnswer::Ahead { fence: _ } => count,
        FenceAnswer::Fault => count.saturating_add(1),
    }
}
