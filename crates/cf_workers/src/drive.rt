//! The driving of an operation on the caller's thread.
ghost use Rattle.cf_book.specs.Granting.{HasBegun};
ghost use Rattle.cf_book.specs.Record.{KnowsDisk};
ghost use Rattle.cf_book.specs.State.{NoneOut};
ghost use Rattle.cf_workers.specs.Driving.{IsAtRest};
ghost use Rattle.cf_workers.specs.Leading.{Drives, DrivesAs, GoesOn};

use cf_book::{Book, Grant, StopFault};
use cf_disk::Disk;
use cf_entry::Status;
use cf_handler::Handler;
use std::alloc::Global;

/// What a run comes to.
#[derive(Clone, Copy, Drop)]
pub enum Drove {
    /// The operation ended in this status.
    Over { status: Status },
    /// The book stopped for this.
    Stopped { fault: StopFault },
}

/// Takes the step that comes next: it is written, and where it is a call, that is made and its outcome written. What the run comes to,
/// if it comes to its end or stops in this.
fn go_on<D: Disk, H: Handler>(alloc: Global, book: &mut Book<D, H>, number: u64) -> Option<Drove>
    requires begun { HasBegun book.old.entries number }
    requires rest { IsAtRest D.Disk book.old }
    ensures { GoesOn D.Disk number book.old book.new result }
{
    match book.grant(alloc, number) {
        Ok(Grant::Lease(lease)) => match book.settle(lease.call()) {
            Ok(()) => None,
            Err(fault) => Some(Drove::Stopped { fault }),
        },
        Ok(Grant::Moved) => None,
        Ok(Grant::Over { status }) => Some(Drove::Over { status }),
        // No call is out.
        Ok(Grant::Idle) => unreachable!(),
        Err(fault) => Some(Drove::Stopped { fault }),
    }
}

/// Drives an operation to its end, over a book that has not stopped.
fn drive<D: Disk, H: Handler>(alloc: Global, book: &mut Book<D, H>, number: u64) -> Drove
    requires begun { HasBegun book.old.entries number }
    requires rest { IsAtRest D.Disk book.old }
    ensures { Drives D.Disk number book.old book.new result }
{
    'rounds: loop {
        match go_on(alloc, book, number) {
            None => {}
            Some(drove) => return drove,
        }
    }
}

/// Drives an operation that a book began until it ends or the book stops: each step that comes next is taken, a call at a time, with
/// every lane at home. No call is out at return.
///
/// `Over` comes exactly where the operation's end stands. Else the book stopped: for want of room or by a fault of the disk as an entry
/// was written, because a lane has a fence above the opening's epoch, or for want of memory. After a fault of the disk that entry may be
/// in the journal or not: if it is the operation's end, the operation may be over. Each call that was made has its Intent in the journal.
/// Over a book that had stopped before, what stopped it comes and nothing is done.
///
/// Each outcome that is written is the answer of the call that was made then, and each lane's log has its calls in that order, with
/// counts that follow one another. A run makes no call more than three times in one phase, and, where journal and lanes agree, at most 54
/// calls of any one path: these go out under at most six tokens, each at most nine times, three in each of at most three phases.
pub fn drive_alone<D: Disk, H: Handler>(alloc: Global, book: &mut Book<D, H>, number: u64) -> Drove
    requires begun { HasBegun book.old.entries number }
    requires home { NoneOut book.old.lanes }
    ensures drives { DrivesAs D.Disk number book.old book.new book.old.stopped result }
    ensures home { NoneOut book.new.lanes }
    ensures known { KnowsDisk D.Disk book.new }
{
    match book.stopped() {
        Some(fault) => Drove::Stopped { fault },
        None => drive(alloc, book, number),
    }
}
