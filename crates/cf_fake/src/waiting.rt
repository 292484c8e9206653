//! Requests that are put aside.
ghost use Rattle.std.specs.Prelude.{◌≡◌};
ghost use Rattle.cf_fake.specs.Late.{is_due};

use cf_handler::{Settled, settlement_of};
use cf_tree::Request;

/// A request that a broken call put aside, to be worked later.
#[derive(Drop)]
pub struct Waiting {
    /// The number of the call before which it is worked.
    pub due: u64,
    pub epoch: u64,
    pub token: u64,
    pub request: Request,
}

/// Whether it is worked before the call of a number.
pub fn is_due(waiting: &Waiting, number: u64, fence: u64, settled: &[Settled]) -> bool
    ensures { result ≡ is_due number fence settled.now waiting.now }
{
    if number < waiting.due || waiting.epoch < fence {
        return false;
    }
    settlement_of(settled, waiting.token).is_none()
}
