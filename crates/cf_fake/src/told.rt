//! What is told of a call by plan.
ghost use Rattle.std.specs.Prelude.{◌≡◌, IfOk};
ghost use Rattle.cf_fake.specs.Plan.{told_by};

use crate::planned::Break;
use cf_handler::Settlement;
use cf_tree::Answer;
use std::alloc::{AllocError, Global};

/// What is told of a token that is settled so.
pub fn told_by(
    alloc: Global,
    planned: Option<Break>,
    settlement: &Settlement,
) -> Result<Answer, AllocError>
    ensures { IfOk result (λ a. a ≡ told_by planned settlement.now) }
{
    match planned {
        Some(Break::FaultBefore) => Ok(Answer::Fault),
        Some(Break::FaultAfter) => Ok(Answer::Fault),
        Some(Break::FaultLater(_)) => Ok(Answer::Fault),
        Some(Break::Refuse(_)) => settlement.answer(alloc),
        Some(Break::FenceFault) => settlement.answer(alloc),
        None => settlement.answer(alloc),
    }
}
