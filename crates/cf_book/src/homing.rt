//! Lanes that come home.
ghost use Rattle.std.specs.Prelude.{◌≡◌, ◌≤◌, ◌<◌, ◌^◌, ℕ, List, length, vec_len, vec_capacity, IsTrue, None, OnOk, Some};
ghost use Rattle.cf_tree.specs.SizeOf.{capped};
ghost use Rattle.cf_disk.specs.Disk.{LeavesOnly, Only};
ghost use Rattle.cf_entry.specs.Entry.{spelling_of};
ghost use Rattle.cf_entry.specs.declared.entry.Reply.{Reply};
ghost use Rattle.cf_journal.specs.Record.{spare_of};
ghost use Rattle.cf_stacks.specs.Room.{HasRoom, stepped};
ghost use Rattle.cf_book.specs.Events.{outcome_by, reply_for};
ghost use Rattle.cf_book.specs.Granting.{HasBegun};
ghost use Rattle.cf_book.specs.Inside.{IsOpen, doubt_in, entries_in, known_in};
ghost use Rattle.cf_book.specs.Record.{IsKnown, IsUnwritten, KeepsDisk, KeepsMoments, KeepsRoom, KnowsDisk, LeavesOneMore, world_left};
ghost use Rattle.cf_book.specs.Settling.{ConcludesAs, RepliesAs};
ghost use Rattle.cf_book.specs.State.{NoneOut};

use crate::book::Book;
use crate::place::{handlers_of, take_home};
use crate::record::{Record, append, into_disk};
use crate::stop::StopFault;
use cf_disk::Disk;
use cf_entry::{Entry, Reply};
use cf_handler::Handler;
use cf_lane::{Answered, Lane, Lease, Told};
use cf_tree::Answer;

/// What is parked: a lease whose call was not made, or the answer of one.
pub enum Parked<H> {
    Lease(Lease<H>),
    Answered(Answered<H>),
}

impl<H: Handler> Parked<H> {
    ghost use Rattle.cf_book.specs.Parking.{parked_lane};

    /// The lane, in the state in which it comes home.
    fn into_lane(self) -> Lane<H>
        ensures { result ≡ parked_lane self }
    {
        match self {
            Parked::Lease(lease) => lease.back(),
            Parked::Answered(answered) => {
                let (lane, told) = answered.take();
                drop(told);
                lane
            }
        }
    }
}

/// What is written of an answer; of want of memory and of a call that was too old nothing is.
fn reply_of(answer: Answer, place: u64, epoch: u64) -> Result<Reply, StopFault>
    ensures { RepliesAs place epoch answer result }
{
    match answer {
        Answer::Success { physical, attrs } => Ok(Reply::Success { physical, attrs }),
        Answer::Failed { code } => Ok(Reply::Failed { code }),
        Answer::Fault => Ok(Reply::Doubt),
        Answer::Stale { fence } => Err(StopFault::LaneAhead {
            lane: place,
            fence,
            epoch,
        }),
        Answer::NoMemory => Err(StopFault::NoMemory),
    }
}

/// Appends the outcome of a call of the lane at a place. It takes no memory.
fn conclude<D: Disk>(record: &mut Record<D>, place: u64, told: Told) -> Result<(), StopFault>
    requires opened { IsOpen D.Disk record.old }
    requires world { record.old.world.world ≡ world_left (entries_in record.old) }
    requires room { (r : Reply) → reply_for told.answer ≡ Some r → HasRoom record.old.world (outcome_by told r) }
    requires short { (r : Reply) → reply_for told.answer ≡ Some r
        → capped (length (spelling_of (outcome_by told r))) ≤ spare_of record.old.journal }
    requires places { vec_len record.old.entries < vec_capacity record.old.entries }
    ensures concludes { ConcludesAs D.Disk record.old record.new place told (reply_for told.answer) result }
    ensures opened { OnOk result (IsOpen D.Disk record.new) }
    ensures stepped { OnOk result ((r : Reply) → reply_for told.answer ≡ Some r
        → record.new.world ≡ stepped record.old.world (outcome_by told r)) }
    ensures world { record.new.world.world ≡ world_left (entries_in record.new) }
    ensures known { known_in D.Disk record.new }
    ensures moments { IsTrue D.tells → LeavesOnly D.moment D.left_since record.old.disk record.new.disk
        (LeavesOneMore (entries_in record.old) (entries_in record.new) (doubt_in record.new)) }
    ensures keeps { KeepsRoom D.Disk record.old.disk record.new.disk }
    ensures spare { spare_of record.new.journal ≡ spare_of record.old.journal }
    ensures capacity { vec_capacity record.old.entries ≤ vec_capacity record.new.entries }
{
    let Told {
        epoch,
        number,
        token,
        request,
        answer,
        before,
        after,
    } = told;
    drop(request);
    match reply_of(answer, place, epoch) {
        Ok(answer) => append(
            record,
            Entry::Outcome {
                number,
                token,
                answer,
                before,
                after,
            },
        ),
        Err(fault) => Err(fault),
    }
}

impl<D: Disk, H: Handler> Book<D, H> {
    ghost use Rattle.cf_lane.specs.Lanes.{lane_now};
    ghost use Rattle.cf_lane.specs.Calling.{answered_lane, told_of};
    ghost use Rattle.cf_book.specs.Calls.{AreHandlersOf, ComesInTime, HasAnswer, IsHome, SettlesBy, SettlesIn, stopped_by};
    ghost use Rattle.cf_book.specs.Parking.{MayPark, ParksIn, ParksInTime, parked_lane};
    ghost use Rattle.cf_book.specs.Lives.{StandsFor};
    ghost use Rattle.cf_plan.specs.Life.{Close, Happens, Life};
    ghost use Rattle.cf_schema.specs.declared.described.Schema.{Schema};

    /// Takes a lane home whose call is not to be settled. Nothing is appended, and it never fails; a call that was made stays open, and
    /// may be made again.
    pub fn park(&mut self, parked: Parked<H>)
        requires { MayPark H.Handler self.old.lanes parked }
        ensures home { IsHome self.old self.new (lane_now H.Handler (parked_lane parked)) }
        ensures unwritten { IsUnwritten self.old self.new }
        ensures stopped { self.new.stopped ≡ self.old.stopped }
        ensures known { KnowsDisk D.Disk self.new }
        ensures in_time { ParksInTime self.old parked }
        ensures moves { (schemas : List Schema) (life : Life) → ParksIn H.Handler schemas life self.old self.new parked }
    {
        let lane = parked.into_lane();
        let _ = take_home(&mut self.places, &mut self.homes, lane);
    }

    /// Appends the outcome of a call and takes its lane home. It takes no memory.
    ///
    /// # Errors
    ///
    /// Each stops the book. `Full` comes exactly where the disk has no room for the outcome, `DiskFault` only where its count of faults
    /// rose, `NoMemory` exactly where the call answered it, and `LaneAhead` exactly where it answered `Stale`, with that lane's place,
    /// which no call does where journal and lanes agreed. After the last two nothing was appended, and the call stays open. A book that
    /// has stopped answers what stopped it and appends nothing. The lane comes home in each case.
    pub fn settle(&mut self, answered: Answered<H>) -> Result<(), StopFault>
        requires { HasAnswer H.Handler self.old.lanes answered }
        ensures home { IsHome self.old self.new (lane_now H.Handler (answered_lane answered)) }
        ensures stopped { self.new.stopped ≡ stopped_by self.old.stopped result }
        ensures settles { SettlesBy D.Disk self.old self.new (lane_now H.Handler (answered_lane answered)) (told_of answered)
            self.old.stopped result }
        ensures begun { (number : ℕ) → HasBegun self.old.entries number → HasBegun self.new.entries number }
        ensures bounded { length self.new.entries < 2 ^ 64 }
        ensures disk { KeepsDisk D.Disk self.old self.new }
        ensures moments { KeepsMoments D.Disk self.old self.new }
        ensures known { KnowsDisk D.Disk self.new }
        ensures in_time { ComesInTime self.old (told_of answered) }
        ensures moves { (schemas : List Schema) (life : Life)
            → SettlesIn schemas life self.old self.new (lane_now H.Handler (answered_lane answered)) (told_of answered) result }
    {
        let (lane, told) = answered.take();
        let place = take_home(&mut self.places, &mut self.homes, lane);
        match self.stopped {
            Some(fault) => {
                drop(told);
                Err(fault)
            }
            None => match conclude(&mut self.record, place as u64, told) {
                Ok(()) => Ok(()),
                Err(fault) => {
                    self.stopped = Some(fault);
                    Err(fault)
                }
            },
        }
    }

    /// Gives the disk and the lanes back, the lanes in the order in which they were handed in. It never fails.
    pub fn close(self) -> (D, Vec<H>)
        requires { NoneOut self.lanes }
        ensures disk { result.0 ≡ self.disk }
        ensures handlers { AreHandlersOf H.Handler self.lanes result.1.items }
        ensures known { IsKnown D.Disk result.0 self.entries self.doubt }
        ensures lasts { self.stopped ≡ None → IsTrue D.tells → Only (D.seen result.0) (D.may_leave result.0) }
        ensures moves { (schemas : List Schema) (life : Life) → StandsFor self life → Happens schemas life Close }
    {
        let Book {
            record,
            places,
            homes,
            emptied,
            ended,
            has_granted: _,
            stopped: _,
        } = self;
        drop(homes);
        drop(ended);
        (into_disk(record), handlers_of(places, emptied))
    }
}
