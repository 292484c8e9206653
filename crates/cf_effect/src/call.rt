//! The calls of a stack.
ghost use Rattle.std.specs.Prelude.{◌≡◌, IfOk};
ghost use Rattle.cf_effect.specs.Calls.{new_call};

use cf_entry::Status;
use cf_tree::{Code, Request, TryClone, Txt};
use std::alloc::{AllocError, Global};

/// How a call was answered for good.
#[derive(Clone, Copy)]
pub enum Settled {
    Success,
    Failed { code: Code },
}

/// A call: the row that its intent added to the ledger of its stack, and what came of it.
#[derive(Drop)]
pub struct Call {
    /// The number of the operation that its intent names.
    pub number: u64,
    pub token: u64,
    pub lane: Txt,
    pub path: Txt,
    pub request: Request,
    /// The status of the stack as the intent was written down, by which the stage of the call is known.
    pub status: Status,
    /// Whether no phase and no opening began since the intent.
    pub fresh: bool,
    /// How often it came back in doubt since the last phase or opening began, counted up to three.
    pub doubts: u64,
    /// How it was answered for good; `None` while it is open, and where it was given up.
    pub answer: Option<Settled>,
}

/// The calls of a stack, in the order of their intents.
pub type Ledger = Vec<Call>;

/// The row of a call that goes out for the first time, while its stack has this status.
///
/// # Errors
///
/// Only for want of memory.
pub fn new_call(
    alloc: Global,
    number: u64,
    status: Status,
    token: u64,
    lane: &Txt,
    path: &Txt,
    request: &Request,
) -> Result<Call, AllocError>
    ensures number { IfOk result (λ c. c.number ≡ number) }
    ensures call { IfOk result (λ c. c ≡ new_call number status (record {
      token = token;
      path = path.now;
      lane = lane.now;
      request = request.now;
    })) }
{
    let lane = lane.try_clone(alloc)?;
    let path = path.try_clone(alloc)?;
    match request.try_clone(alloc) {
        Ok(request) => Ok(Call {
            number,
            token,
            lane,
            path,
            request,
            status,
            fresh: true,
            doubts: 0,
            answer: None,
        }),
        Err(failed) => Err(failed),
    }
}

impl TryClone for Call {
    fn try_clone(&self, alloc: Global) -> Result<Call, AllocError> {
        match new_call(
            alloc,
            self.number,
            self.status,
            self.token,
            &self.lane,
            &self.path,
            &self.request,
        ) {
            Ok(mut copy) => {
                copy.fresh = self.fresh;
                copy.doubts = self.doubts;
                copy.answer = self.answer;
                Ok(copy)
            }
            Err(failed) => Err(failed),
        }
    }
}
