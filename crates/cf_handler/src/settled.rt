ghost use Rattle.std.specs.Prelude.{◌≡◌, IfOk};
ghost use Rattle.std.specs.Option.{option_copied};
ghost use Rattle.cf_handler.specs.Lane.{settlement_of};
ghost use Rattle.cf_handler.specs.Answered.{answer_of};

use cf_tree::{Answer, Code, Dict, Request, Txt};
use std::alloc::{AllocError, Global};

/// The answer by which a token is settled: a success or a refusal, which the token has from then on.
#[derive(Drop)]
pub enum Settlement {
    Success { physical: Txt, attrs: Dict },
    Failed { code: Code },
}

/// A settled call: its token, what was asked, and the answer.
#[derive(Drop)]
pub struct Settled {
    pub token: u64,
    pub request: Request,
    pub settlement: Settlement,
}

impl Settlement {
    /// The answer once more.
    pub fn answer(&self, alloc: Global) -> Result<Answer, AllocError>
        ensures { IfOk result (λ a. a ≡ answer_of self.now) }
    {
        match self {
            Settlement::Success { physical, attrs } => {
                let physical = physical.try_clone(alloc)?;
                let attrs = attrs.try_clone(alloc)?;
                Ok(Answer::Success { physical, attrs })
            }
            Settlement::Failed { code } => Ok(Answer::Failed { code: *code }),
        }
    }
}

/// The answer by which the token was settled, if it was.
pub fn settlement_of(entries: &[Settled], token: u64) -> Option<&Settlement>
    ensures { option_copied result ≡ settlement_of token entries.now }
{
    for entry in entries.iter() {
        if entry.token == token {
            return Some(&entry.settlement);
        }
    }
    None
}
