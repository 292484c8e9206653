//! Lanes.
ghost use Rattle.std.specs.Prelude.{◌≡◌, [], IfErr, IfOk, IsTrue};
ghost use Rattle.cf_handler.specs.Name.{is_lane_name};
ghost use Rattle.cf_lane.specs.Log.{calls_in};

use crate::lease::Lease;
use crate::note::Notes;
use cf_handler::{FenceAnswer, Handler};
use cf_schema::Schema;
use cf_tree::Request;
use std::alloc::Global;

/// A handler under its name, with the log of its calls.
pub struct Lane<H> {
    pub(crate) handler: H,
    pub(crate) log: Notes,
}

/// A lane that was not lent, and the request that it was not lent for: memory was not there.
pub struct Unlent<H> {
    pub lane: Lane<H>,
    pub request: Request,
}

impl<H: Handler> Lane<H> {
    ghost use Rattle.cf_lane.specs.Lanes.{IsFenced, IsSameLane, calls_of, handler_of, lane_now};
    ghost use Rattle.cf_lane.specs.Calling.{granted_of, leased_lane};

    /// The lane of a handler, with an empty log; it takes no memory.
    pub fn new(alloc: Global, handler: H) -> Lane<H>
        ensures handler { handler_of result ≡ handler }
        ensures log { calls_of result ≡ [] }
    {
        let log = Notes::new(alloc);
        Lane { handler, log }
    }

    /// The lane's name.
    pub fn name(&self) -> &str
        ensures value { result.now ≡ (lane_now H.Handler self.now).name }
        ensures form { IsTrue (is_lane_name result.now) }
    {
        self.handler.name()
    }

    /// The schema of the type of its resources.
    pub fn schema(&self) -> &Schema
        ensures { result.now ≡ (lane_now H.Handler self.now).schema }
    {
        self.handler.schema()
    }

    /// The calls that were made on it, in their order.
    pub fn log(&self) -> &Notes
        ensures { calls_in result.now ≡ calls_of self.now }
    {
        &self.log
    }

    /// The handler; the log is given up.
    pub fn into_handler(self) -> H
        ensures { result ≡ handler_of self }
    {
        let Lane { handler, log } = self;
        drop(log);
        handler
    }

    /// Raises the fence to an epoch, so that no call of an earlier one acts any more.
    ///
    /// `Ahead` comes exactly where the fence is at least the epoch, and `Fault` only where the count rose.
    pub fn fence(&mut self, epoch: u64) -> FenceAnswer
        ensures { IsFenced (lane_now H.Handler self.old) (lane_now H.Handler self.new) epoch result }
    {
        self.handler.fence(epoch)
    }

    /// Lends the lane for one call, with room in its log for that.
    ///
    /// # Errors
    ///
    /// For want of memory alone; the lane and the request come back as they were.
    pub fn lend(
        self,
        epoch: u64,
        number: u64,
        token: u64,
        request: Request,
    ) -> Result<Lease<H>, Unlent<H>>
        ensures granted { IfOk result (λ l. granted_of l ≡ record { epoch = epoch; number = number; token = token; request = request }) }
        ensures lane { IfOk result (λ l. IsSameLane self (leased_lane l)) }
        ensures back { IfErr result (λ u. IsSameLane self u.lane) }
        ensures request { IfErr result (λ u. u.request ≡ request) }
    {
        let mut lane = self;
        match lane.log.reserve() {
            Ok(()) => Ok(Lease {
                lane,
                epoch,
                number,
                token,
                request,
            }),
            Err(_) => Err(Unlent { lane, request }),
        }
    }
}
