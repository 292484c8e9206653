//! What becomes of a call of a handler in memory.
ghost use Rattle.std.specs.Prelude.{◌≡◌, IsTrue, IfSome};
ghost use Rattle.cf_fake.specs.Plan.{break_at, breaks_fence};
ghost use Rattle.cf_fake.specs.Refusable.{may_break};

use crate::planned::{Break, Planned};
use cf_tree::Listing;

/// The calls that are broken.
pub type Plan = Listing<Planned>;

/// How the call of a number is broken, if it is.
pub fn break_at(plan: &Plan, call: u64) -> Option<Break>
    ensures value { result ≡ break_at call plan.now }
    ensures fits { IfSome result (λ b. IsTrue (may_break b)) }
{
    for planned in plan.as_slice().iter() {
        if call == planned.call {
            return Some(planned.break_);
        }
    }
    None
}

/// Whether the first raising of the fence is broken.
pub fn breaks_fence(plan: &Plan) -> bool
    ensures { result ≡ breaks_fence plan.now }
{
    for planned in plan.as_slice().iter() {
        if let Break::FenceFault = planned.break_ {
            return true;
        }
    }
    false
}
