//! Leases: the right to make one call.
ghost use Rattle.std.specs.Prelude.{◌≡◌};
ghost use Rattle.cf_lane.specs.Log.{HasRoom};

use crate::lane::Lane;
use crate::note::Note;
use crate::told::Told;
use cf_handler::Handler;
use cf_tree::Request;
use std::snapshot::Snapshot;

/// The right to make one call: of an opening and an operation, under a token. It owns the lane of the call and must be
/// spent: it ends in `call`, or is given back.
pub struct Lease<H> {
    pub(crate) lane: Lane<H>,
    pub(crate) epoch: u64,
    pub(crate) number: u64,
    pub(crate) token: u64,
    pub(crate) request: Request,
    ghost room: { HasRoom lane.log },
}

/// A call that was made, with the lane that it was made on. It must be spent.
pub struct Answered<H> {
    pub(crate) lane: Lane<H>,
    pub(crate) told: Told,
}

impl<H: Handler> Lease<H> {
    ghost use Rattle.cf_lane.specs.Lanes.{lane_now};
    ghost use Rattle.cf_lane.specs.Calling.{IsCalled, answered_lane, granted_of, leased_lane, told_of};

    /// The number of the opening.
    pub fn epoch(&self) -> u64
        ensures { result ≡ (granted_of self.now).epoch }
    {
        self.epoch
    }

    /// The number of the operation.
    pub fn number(&self) -> u64
        ensures { result ≡ (granted_of self.now).number }
    {
        self.number
    }

    /// The token of the call.
    pub fn token(&self) -> u64
        ensures { result ≡ (granted_of self.now).token }
    {
        self.token
    }

    /// What is asked.
    pub fn request(&self) -> &Request
        ensures { result.now ≡ (granted_of self.now).request }
    {
        &self.request
    }

    /// Makes the call, which is the last of the log then, with the counts before and after it. It takes no memory.
    pub fn call(self) -> Answered<H>
        ensures { IsCalled (granted_of self) (lane_now H.Handler (leased_lane self)) (lane_now H.Handler (answered_lane result))
            (told_of result) }
    {
        let Lease {
            mut lane,
            epoch,
            number,
            token,
            request,
        } = self;
        let before = lane.handler.faults();
        let answer = lane.handler.call(epoch, token, &request);
        let after = lane.handler.faults();
        lane.log.push(Note {
            epoch,
            number,
            token,
            before,
            after,
            request: Snapshot::of(&request),
            answer: Snapshot::of(&answer),
        });
        Answered {
            lane,
            told: Told {
                epoch,
                number,
                token,
                request,
                answer,
                before,
                after,
            },
        }
    }

    /// The lane, without a call.
    pub fn back(self) -> Lane<H>
        ensures { result ≡ leased_lane self }
    {
        let Lease {
            lane,
            epoch: _,
            number: _,
            token: _,
            request,
        } = self;
        drop(request);
        lane
    }
}

impl<H: Handler> Answered<H> {
    ghost use Rattle.cf_lane.specs.Calling.{answered_lane, told_of};

    /// The lane, and what came of the call.
    pub fn take(self) -> (Lane<H>, Told)
        ensures lane { result.0 ≡ answered_lane self }
        ensures told { result.1 ≡ told_of self }
    {
        let Answered { lane, told } = self;
        (lane, told)
    }
}
