//! What came of a call.
use cf_tree::{Answer, Request};

/// A call that was made, and what came of it: of which opening and operation it was, under which token, what was asked
/// and answered, and the lane's count of faults before and after.
#[derive(Drop)]
pub struct Told {
    pub epoch: u64,
    pub number: u64,
    pub token: u64,
    pub request: Request,
    pub answer: Answer,
    pub before: u64,
    pub after: u64,
}
