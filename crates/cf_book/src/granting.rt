//! The steps of operations, and the leases for their calls.
ghost use Rattle.std.specs.Prelude.{◌≡◌, ◌≤◌, ◌<◌, ◌+◌, ◌^◌, ℕ, List, None, OnOk, IsTrue, length, vec_len, vec_capacity};
ghost use Rattle.cf_disk.specs.Disk.{LeavesOnly};
ghost use Rattle.cf_entry.specs.Entry.{IsProper};
ghost use Rattle.cf_entry.specs.declared.entry.Entry.TheVariants.{Done};
ghost use Rattle.cf_journal.specs.Record.{spare_of};
ghost use Rattle.cf_lane.specs.Calling.{granted_of, leased_lane};
ghost use Rattle.cf_lane.specs.Lanes.{lane_now};
ghost use Rattle.cf_lane.specs.declared.lease.Lease.{Lease as Leased};
ghost use Rattle.cf_next.specs.Chosen.{IsInProgress};
ghost use Rattle.cf_plan.specs.Life.{Life};
ghost use Rattle.cf_schema.specs.declared.described.Schema.{Schema};
ghost use Rattle.cf_book.specs.Calls.{stopped_by};
ghost use Rattle.cf_book.specs.Ended.{end_status, ended_in};
ghost use Rattle.cf_book.specs.Granting.{ComesNext, Follows, GrantsAs, GrantsIn, GrantsStep, HasBegun, IsDurable, IsMove, MayFollowNow, MovesIn, MovesOn, NeverLacksLane, NeverStuck, StepsIn, TakesNext, TakesStep};
ghost use Rattle.cf_book.specs.Inside.{IsOpen, StepsOver, WritesIn, doubt_in, entries_in, known_in};
ghost use Rattle.cf_book.specs.Lending.{asked_step};
ghost use Rattle.cf_book.specs.Record.{KeepsDisk, KeepsMoments, KeepsRoom, KnowsDisk, LeavesOneMore, world_left};
ghost use Rattle.cf_book.specs.declared.granting.Grant.TheVariants.{Lease as Lent, Moved, Over};

use crate::book::Book;
use crate::ending::{Ended, end_status};
use crate::issuing::issue;
use crate::lending::Asked;
use crate::record::Record;
use crate::stop::StopFault;
use crate::writing::write;
use cf_disk::Disk;
use cf_entry::{Entry, Status};
use cf_handler::Handler;
use cf_lane::Lease;
use cf_next::{Next, next};
use cf_tree::Names;
use std::alloc::Global;

/// What a grant gives.
pub enum Grant<H> {
    /// The right to make the call that comes next.
    Lease(Lease<H>),
    /// A resource was kept, or a phase began.
    Moved,
    /// Nothing may start on a lane at home, and a call that is out can go on.
    Idle,
    /// The operation has ended.
    Over { status: Status },
}

/// Appends the end of an operation and notes it, for which there is room.
fn write_noted<D: Disk>(
    alloc: Global,
    record: &mut Record<D>,
    ended: &mut Vec<Ended>,
    calls: usize,
    number: u64,
    status: Status,
    failed: Names,
) -> Result<(), StopFault>
    requires opened { IsOpen D.Disk record.old }
    requires world { record.old.world.world ≡ world_left (entries_in record.old) }
    requires proper { IsProper (Done number status failed) }
    requires ended { ended.old.items ≡ ended_in (entries_in record.old) }
    requires room { vec_len ended.old < vec_capacity ended.old }
    ensures writes { WritesIn D.Disk record.old record.new (Done number status failed) result }
    ensures ended { ended.new.items ≡ ended_in (entries_in record.new) }
    ensures opened { OnOk result (IsOpen D.Disk record.new) }
    ensures steps { OnOk result (StepsOver record.old.world (Done number status failed) record.new.world) }
    ensures keeps { KeepsRoom D.Disk record.old.disk record.new.disk }
    ensures places { OnOk result (vec_len record.new.entries + calls ≤ vec_capacity record.new.entries) }
    ensures spare { spare_of record.old.journal ≤ spare_of record.new.journal }
    ensures world { record.new.world.world ≡ world_left (entries_in record.new) }
    ensures known { known_in D.Disk record.new }
    ensures moments { IsTrue D.tells → LeavesOnly D.moment D.left_since record.old.disk record.new.disk
        (LeavesOneMore (entries_in record.old) (entries_in record.new) (doubt_in record.new)) }
{
    let done = Entry::Done {
        number,
        status,
        failed,
    };
    match write(alloc, record, calls, done) {
        Ok(()) => {
            ended.push_reserved(Ended { number, status });
            Ok(())
        }
        Err(fault) => Err(fault),
    }
}

/// Appends the end of an operation and notes it.
fn write_end<D: Disk>(
    alloc: Global,
    record: &mut Record<D>,
    ended: &mut Vec<Ended>,
    calls: usize,
    number: u64,
    status: Status,
    failed: Names,
) -> Result<(), StopFault>
    requires opened { IsOpen D.Disk record.old }
    requires world { record.old.world.world ≡ world_left (entries_in record.old) }
    requires proper { IsProper (Done number status failed) }
    requires ended { ended.old.items ≡ ended_in (entries_in record.old) }
    ensures writes { WritesIn D.Disk record.old record.new (Done number status failed) result }
    ensures ended { ended.new.items ≡ ended_in (entries_in record.new) }
    ensures opened { OnOk result (IsOpen D.Disk record.new) }
    ensures steps { OnOk result (StepsOver record.old.world (Done number status failed) record.new.world) }
    ensures keeps { KeepsRoom D.Disk record.old.disk record.new.disk }
    ensures places { OnOk result (vec_len record.new.entries + calls ≤ vec_capacity record.new.entries) }
    ensures spare { spare_of record.old.journal ≤ spare_of record.new.journal }
    ensures world { record.new.world.world ≡ world_left (entries_in record.new) }
    ensures known { known_in D.Disk record.new }
    ensures moments { IsTrue D.tells → LeavesOnly D.moment D.left_since record.old.disk record.new.disk
        (LeavesOneMore (entries_in record.old) (entries_in record.new) (doubt_in record.new)) }
{
    match ended.reserve(1) {
        Ok(()) => write_noted(alloc, record, ended, calls, number, status, failed),
        Err(_) => {
            drop(failed);
            Err(StopFault::NoMemory)
        }
    }
}

impl<D: Disk, H: Handler> Book<D, H> {
    /// Takes the one step that comes next in an operation that was begun. Its entry is appended, at most one; the lease for its call
    /// comes only after its Intent is in every image of the disk. Each operation that had begun is in progress still, or has ended.
    ///
    /// `Over` comes exactly where the operation's end stands then, `Moved` exactly where a resource was kept or a phase began, and
    /// `Idle` exactly where no step may start on a lane at home and a call is out; after `Idle`, and where the operation had ended
    /// before, nothing has changed.
    ///
    /// # Errors
    ///
    /// Each stops the book, and leaves the lanes as they were. `Full` comes exactly where the disk has no room for the entry that is
    /// due, `DiskFault` only where its count of faults rose, and `NoMemory` where memory is lacking, or a number to count with. `Full` and
    /// `NoMemory` leave the journal as it was; after `DiskFault` it may have the entry. A book that has stopped answers what stopped it
    /// and does nothing.
    ///
    /// `NoMemory` comes also where no step may start and no call is out, and where the lane of the call that comes next is not found. The
    /// first never happens where journal and lanes agree and each type that the template wants has a lane, the second never where they
    /// agree.
    pub fn grant(&mut self, alloc: Global, number: u64) -> Result<Grant<H>, StopFault>
        requires { HasBegun self.old.entries number }
        ensures stopped { self.new.stopped ≡ stopped_by self.old.stopped result }
        ensures grants { GrantsAs D.Disk H.Handler self.old self.new number self.old.stopped result }
        ensures durable { (lease : Leased H) → result ≡ Ok (Lent lease)
            → IsDurable D.Disk self.new (lane_now H.Handler (leased_lane lease)).name (granted_of lease) }
        ensures begun { HasBegun self.new.entries number }
        ensures still_begun { (other : ℕ) → HasBegun self.old.entries other → HasBegun self.new.entries other }
        ensures bounded { length self.old.entries < 2 ^ 64 }
        ensures disk { KeepsDisk D.Disk self.old self.new }
        ensures moments { KeepsMoments D.Disk self.old self.new }
        ensures known { KnowsDisk D.Disk self.new }
        ensures moves { (schemas : List Schema) (life : Life) → GrantsIn schemas life self.old self.new number result }
        ensures never_stuck { (schemas : List Schema) (life : Life) → NeverStuck schemas life self.old number }
        ensures finds_lane { (schemas : List Schema) (life : Life) → NeverLacksLane schemas life self.old number }
    {
        match self.stopped {
            Some(fault) => Err(fault),
            None => self.step(alloc, number),
        }
    }

    /// Takes the step that comes next in an operation; nothing does in one that has ended.
    fn step(&mut self, alloc: Global, number: u64) -> Result<Grant<H>, StopFault>
        requires running { self.old.stopped ≡ None }
        requires begun { HasBegun self.old.entries number }
        ensures stopped { self.new.stopped ≡ stopped_by None result }
        ensures grants { GrantsStep D.Disk H.Handler self.old self.new number (end_status number (ended_in self.old.entries)) result }
        ensures disk { KeepsDisk D.Disk self.old self.new }
        ensures moments { KeepsMoments D.Disk self.old self.new }
        ensures known { KnowsDisk D.Disk self.new }
        ensures moves { (schemas : List Schema) (life : Life) → GrantsIn schemas life self.old self.new number result }
    {
        match end_status(number, self.ended.as_slice()) {
            Some(status) => Ok(Grant::Over { status }),
            None => self.go_on(alloc, number),
        }
    }

    /// Takes the step that comes next in an operation that is in progress.
    fn go_on(&mut self, alloc: Global, number: u64) -> Result<Grant<H>, StopFault>
        requires running { self.old.stopped ≡ None }
        requires going { IsInProgress (world_left self.old.entries) number }
        ensures stopped { self.new.stopped ≡ stopped_by None result }
        ensures takes { TakesNext D.Disk H.Handler self.old self.new number result }
        ensures disk { KeepsDisk D.Disk self.old self.new }
        ensures moments { KeepsMoments D.Disk self.old self.new }
        ensures known { KnowsDisk D.Disk self.new }
        ensures moves { (schemas : List Schema) (life : Life) → GrantsIn schemas life self.old self.new number result }
    {
        match next(alloc, &mut self.record.world, number, &self.homes) {
            Ok(step) => self.take(alloc, number, step),
            Err(_) => {
                self.stopped = Some(StopFault::NoMemory);
                Err(StopFault::NoMemory)
            }
        }
    }

    /// Takes this step.
    fn take(&mut self, alloc: Global, number: u64, step: Next) -> Result<Grant<H>, StopFault>
        requires running { self.old.stopped ≡ None }
        requires next { ComesNext self.old.lanes self.old.entries number step }
        requires follows { Follows self.old.lanes self.old.entries number step }
        requires known { KnowsDisk D.Disk self.old }
        ensures stopped { self.new.stopped ≡ stopped_by None result }
        ensures takes { TakesStep D.Disk H.Handler self.old self.new number step result }
        ensures disk { KeepsDisk D.Disk self.old self.new }
        ensures moments { KeepsMoments D.Disk self.old self.new }
        ensures known { KnowsDisk D.Disk self.new }
        ensures moves { (schemas : List Schema) (life : Life) → StepsIn schemas life self.old self.new number step result }
    {
        match step {
            Next::Step {
                path,
                lane,
                token,
                request,
                repeated,
            } => self.call_out(
                alloc,
                number,
                Asked {
                    path,
                    lane,
                    token,
                    request,
                    repeated,
                },
            ),
            Next::Keep {
                path,
                physical,
                why,
            } => self.move_on(
                alloc,
                Entry::Kept {
                    number,
                    path,
                    physical,
                    why,
                },
            ),
            Next::Turn { phase, cause } => self.move_on(
                alloc,
                Entry::Phase {
                    number,
                    phase,
                    cause,
                },
            ),
            Next::End { status, failed } => self.end(alloc, number, status, failed),
            Next::Wait => Ok(Grant::Idle),
        }
    }

    /// Hands out the lease for a call.
    fn call_out(&mut self, alloc: Global, number: u64, asked: Asked) -> Result<Grant<H>, StopFault>
        requires running { self.old.stopped ≡ None }
        requires next { ComesNext self.old.lanes self.old.entries number (asked_step asked) }
        requires follows { Follows self.old.lanes self.old.entries number (asked_step asked) }
        ensures stopped { self.new.stopped ≡ stopped_by None result }
        ensures takes { TakesStep D.Disk H.Handler self.old self.new number (asked_step asked) result }
        ensures disk { KeepsDisk D.Disk self.old self.new }
        ensures moments { KeepsMoments D.Disk self.old self.new }
        ensures known { KnowsDisk D.Disk self.new }
        ensures moves { (schemas : List Schema) (life : Life) → StepsIn schemas life self.old self.new number (asked_step asked) result }
    {
        match issue(
            alloc,
            &mut self.record,
            &mut self.places,
            &mut self.homes,
            number,
            asked,
        ) {
            Ok(lease) => {
                self.has_granted = true;
                Ok(Grant::Lease(lease))
            }
            Err(fault) => {
                self.stopped = Some(fault);
                Err(fault)
            }
        }
    }

    /// Appends that a resource is kept or a phase begins.
    fn move_on(&mut self, alloc: Global, entry: Entry) -> Result<Grant<H>, StopFault>
        requires running { self.old.stopped ≡ None }
        requires kind { IsMove entry }
        requires follows { MayFollowNow self.old.lanes self.old.entries entry }
        ensures stopped { self.new.stopped ≡ stopped_by None result }
        ensures moves_on { MovesOn D.Disk self.old self.new entry Moved result }
        ensures disk { KeepsDisk D.Disk self.old self.new }
        ensures moments { KeepsMoments D.Disk self.old self.new }
        ensures known { KnowsDisk D.Disk self.new }
        ensures moves { (schemas : List Schema) (life : Life) → MovesIn schemas life self.old self.new entry result }
    {
        match write(alloc, &mut self.record, self.places.len(), entry) {
            Ok(()) => Ok(Grant::Moved),
            Err(fault) => {
                self.stopped = Some(fault);
                Err(fault)
            }
        }
    }

    /// Appends that an operation ends.
    fn end(
        &mut self,
        alloc: Global,
        number: u64,
        status: Status,
        failed: Names,
    ) -> Result<Grant<H>, StopFault>
        requires running { self.old.stopped ≡ None }
        requires follows { MayFollowNow self.old.lanes self.old.entries (Done number status failed) }
        ensures stopped { self.new.stopped ≡ stopped_by None result }
        ensures moves_on { MovesOn D.Disk self.old self.new (Done number status failed) (Over status) result }
        ensures disk { KeepsDisk D.Disk self.old self.new }
        ensures moments { KeepsMoments D.Disk self.old self.new }
        ensures known { KnowsDisk D.Disk self.new }
        ensures moves { (schemas : List Schema) (life : Life) → MovesIn schemas life self.old self.new (Done number status failed) result }
    {
        let calls = self.places.len();
        match write_end(
            alloc,
            &mut self.record,
            &mut self.ended,
            calls,
            number,
            status,
            failed,
        ) {
            Ok(()) => Ok(Grant::Over { status }),
            Err(fault) => {
                self.stopped = Some(fault);
                Err(fault)
            }
        }
    }
}
