//! Operations that begin.
ghost use Rattle.std.specs.Prelude.{◌≡◌, ℕ, List, map, None, IfOk};
ghost use Rattle.cf_next.specs.Chosen.{schemas_of};
ghost use Rattle.cf_plan.specs.Life.{Life};
ghost use Rattle.cf_schema.specs.declared.described.Schema.{Schema};
ghost use Rattle.cf_book.specs.Granting.{HasBegun};
ghost use Rattle.cf_book.specs.Beginning.{BeginsAs, BeginsIn, BeginsLife, BeginsOrder, IsPrepared, begun_by};
ghost use Rattle.cf_book.specs.Lives.{InLife};
ghost use Rattle.cf_prepare.specs.declared.wish.Order.TheVariants.{Begin};
ghost use Rattle.cf_book.specs.Calls.{stopped_by};
ghost use Rattle.cf_book.specs.Record.{KeepsDisk, KeepsMoments, KnowsDisk, world_left};
ghost use Rattle.cf_book.specs.State.{home_of};

use crate::book::Book;
use crate::stop::StopFault;
use crate::writing::write;
use cf_disk::Disk;
use cf_entry::Entry;
use cf_handler::Handler;
use cf_prepare::Order;
use std::alloc::Global;

/// The number of the operation that an entry begins.
fn begun_by(entry: &Entry) -> u64
    ensures { result ≡ begun_by entry.now }
{
    match entry {
        Entry::Begin { number, .. } => *number,
        _ => 0,
    }
}

impl<D: Disk, H: Handler> Book<D, H> {
    /// Begins an operation by its entry.
    fn begin_by(&mut self, alloc: Global, entry: Entry) -> Result<u64, StopFault>
        requires running { self.old.stopped ≡ None }
        requires prepared { IsPrepared (schemas_of (map home_of self.old.lanes)) (world_left self.old.entries) (Begin entry) }
        ensures lanes { self.new.lanes ≡ self.old.lanes }
        ensures granted { self.new.has_granted ≡ self.old.has_granted }
        ensures stopped { self.new.stopped ≡ stopped_by None result }
        ensures begins { BeginsOrder D.Disk self.old self.new (Begin entry) result }
        ensures begun { IfOk result (λ number. HasBegun self.new.entries number) }
        ensures still_begun { (number : ℕ) → HasBegun self.old.entries number → HasBegun self.new.entries number }
        ensures disk { KeepsDisk D.Disk self.old self.new }
        ensures moments { KeepsMoments D.Disk self.old self.new }
        ensures known { KnowsDisk D.Disk self.new }
        ensures moves { (schemas : List Schema) (life : Life)
            → InLife schemas life self.old (BeginsLife schemas life self.new (Begin entry) None result) }
    {
        let number = begun_by(&entry);
        match write(alloc, &mut self.record, self.places.len(), entry) {
            Ok(()) => Ok(number),
            Err(fault) => {
                self.stopped = Some(fault);
                Err(fault)
            }
        }
    }

    /// Begins an operation by the entry that was ordered, or goes on with one that is in progress; answers its number. The lanes stay as
    /// they are, and so does every other operation that has begun.
    ///
    /// # Errors
    ///
    /// Each stops the book. `Full` comes exactly where the disk has no room for the entry, `DiskFault` only where its count of faults
    /// rose, and `NoMemory` where memory is lacking. `Full` and `NoMemory` leave the journal as it was; after `DiskFault` it may have the
    /// entry. A book that has stopped answers what stopped it and appends nothing.
    pub fn begin(&mut self, alloc: Global, order: Order) -> Result<u64, StopFault>
        requires { IsPrepared (schemas_of (map home_of self.old.lanes)) (world_left self.old.entries) order }
        ensures lanes { self.new.lanes ≡ self.old.lanes }
        ensures granted { self.new.has_granted ≡ self.old.has_granted }
        ensures stopped { self.new.stopped ≡ stopped_by self.old.stopped result }
        ensures begins { BeginsAs D.Disk self.old self.new order self.old.stopped result }
        ensures begun { IfOk result (λ number. HasBegun self.new.entries number) }
        ensures still_begun { (number : ℕ) → HasBegun self.old.entries number → HasBegun self.new.entries number }
        ensures disk { KeepsDisk D.Disk self.old self.new }
        ensures moments { KeepsMoments D.Disk self.old self.new }
        ensures known { KnowsDisk D.Disk self.new }
        ensures moves { (schemas : List Schema) (life : Life) → BeginsIn schemas life self.old self.new order result }
    {
        match self.stopped {
            Some(fault) => {
                drop(order);
                Err(fault)
            }
            None => match order {
                Order::Begin(entry) => self.begin_by(alloc, entry),
                Order::Review(_review) => unreachable!(),
                Order::Resume(number) => Ok(number),
            },
        }
    }
}
