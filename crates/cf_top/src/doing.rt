//! A task over an open book: what it orders is begun, or goes on, and is driven to its end.
ghost use Rattle.std.specs.Prelude.{◌≡◌, ◌<◌, ◌≤◌, IfOk, length, None};
ghost use Rattle.cf_book.specs.Beginning.{IsPrepared};
ghost use Rattle.cf_book.specs.declared.stop.StopFault.TheVariants.{LaneAhead};
ghost use Rattle.cf_book.specs.Record.{KnowsDisk, world_left};
ghost use Rattle.cf_book.specs.State.{NoneOut};
ghost use Rattle.cf_stacks.specs.Apart.{AreApart};
ghost use Rattle.cf_top.specs.Performed.{DoesTask, ExitsFor, NeverAhead, Performs, RunsFor};
ghost use Rattle.cf_workers.specs.Ordering.{HasStack, IsJustOpened, IsPlaced, schemas_in};
ghost use Rattle.cf_top.specs.Tasks.{FindsOrder, IsLoadable, early_refusal, number_for};
ghost use Rattle.cf_workers.specs.Driving.{IsAtRest};
ghost use Rattle.cf_workers.specs.Leading.{IsStretch};

use crate::deployment::{order_choice, order_load};
use crate::executing::order_execution;
use crate::planning::Purpose;
use crate::refusals::refused;
use crate::resuming::{order_continuation, order_resumption};
use cf_book::{Book, StopFault};
use cf_disk::Disk;
use cf_entry::Status;
use cf_face::{Exit, Task};
use cf_handler::Handler;
use cf_io::Library;
use cf_prepare::{Order, status_refusal};
use cf_schema::Schemas;
use cf_stacks::World;
use cf_tree::{TryClone, Txt};
use cf_workers::{Drove, drive_alone};
use std::alloc::Global;

/// What a task orders that is not refused for its stack's status, or why it is refused.
fn order_of<L: Library>(
    alloc: Global,
    library: &mut L,
    world: &World,
    schemas: &Schemas,
    stack: &Txt,
    task: &Task,
) -> Result<Order, Exit>
    requires free { early_refusal stack.now world.now.world task.now ≡ None }
    requires few { IsLoadable task.now }
    ensures same { L.texts library.new ≡ L.texts library.old }
    ensures faults { L.count library.old ≤ L.count library.new }
    ensures misses { L.missed library.old ≤ L.missed library.new }
    ensures finds { FindsOrder (record {
      texts = L.texts library.old;
      faults = L.count library.old;
      faults' = L.count library.new;
      misses = L.missed library.old;
      misses' = L.missed library.new;
    })
        schemas.now world.now.world stack.now task.now result }
{
    match task {
        Task::Deploy(choice) => {
            let purpose = Purpose::Deploy;
            order_choice(alloc, library, world, schemas, choice, stack, purpose)
        }
        Task::Continue(paths) => order_continuation(alloc, world, schemas, stack, paths),
        Task::Resume => order_resumption(alloc, world, schemas, stack),
        Task::Execute(number) => order_execution(alloc, world, schemas, stack, *number),
        Task::Load(count) => order_load(alloc, world, schemas, *count, stack),
    }
}

/// The exit of a lane whose fence is above the epoch of the opening.
fn ahead<D: Disk, H: Handler>(
    alloc: Global,
    book: &Book<D, H>,
    lane: u64,
    fence: u64,
    epoch: u64,
) -> Exit
    requires { lane < length book.now.lanes }
    ensures { ExitsFor book.now.lanes (LaneAhead lane fence epoch) result }
{
    match book.lane_name(lane).try_clone(alloc) {
        Ok(name) => Exit::LaneAhead { name, fence, epoch },
        Err(_) => Exit::NoMemory,
    }
}

/// The exit of a book that stopped.
fn exit_for<D: Disk, H: Handler>(alloc: Global, book: &Book<D, H>, fault: StopFault) -> Exit
    requires { IsPlaced book.now.lanes fault }
    ensures { ExitsFor book.now.lanes fault result }
{
    match fault {
        StopFault::Full { length, need, room } => Exit::Full { length, need, room },
        StopFault::DiskFault => Exit::DiskFault,
        StopFault::LaneAhead { lane, fence, epoch } => ahead(alloc, book, lane, fence, epoch),
        StopFault::NoMemory => Exit::NoMemory,
    }
}

/// Begins what is ordered, or goes on with it, and drives it to its end; answers the status that it leaves.
fn run<D: Disk, H: Handler>(
    alloc: Global,
    book: &mut Book<D, H>,
    ordered: Order,
) -> Result<Status, Exit>
    requires rest { IsAtRest D.Disk book.old }
    requires apart { AreApart (world_left book.old.entries) }
    requires opened { IsJustOpened book.old.entries }
    requires prepared { IsPrepared (schemas_in book.old.lanes) (world_left book.old.entries) ordered }
    ensures { RunsFor D.Disk book.old book.new ordered result }
{
    match book.begin(alloc, ordered) {
        Ok(number) => match drive_alone(alloc, book, number) {
            Drove::Over { status } => Ok(status),
            Drove::Stopped { fault } => Err(exit_for(alloc, book, fault)),
        },
        Err(fault) => Err(exit_for(alloc, book, fault)),
    }
}

/// Does a task that is not refused for its stack's status.
fn do_now<L: Library, D: Disk, H: Handler>(
    alloc: Global,
    library: &mut L,
    book: &mut Book<D, H>,
    stack: &Txt,
    task: &Task,
) -> Result<Status, Exit>
    requires rest { IsAtRest D.Disk book.old }
    requires apart { AreApart (world_left book.old.entries) }
    requires opened { IsJustOpened book.old.entries }
    requires free { early_refusal stack.now (world_left book.old.entries) task.now ≡ None }
    requires few { IsLoadable task.now }
    ensures same { L.texts library.new ≡ L.texts library.old }
    ensures faults { L.count library.old ≤ L.count library.new }
    ensures performs { Performs D.Disk (record {
      texts = L.texts library.old;
      faults = L.count library.old;
      faults' = L.count library.new;
      misses = L.missed library.old;
      misses' = L.missed library.new;
    })
        book.old book.new stack.now task.now result }
{
    let Ok(schemas) = book.schemas(alloc) else {
        return Err(Exit::NoMemory);
    };
    let ordered = order_of(alloc, library, book.world(), &schemas, stack, task);
    drop(schemas);
    match ordered {
        Ok(ordered) => run(alloc, book, ordered),
        Err(exit) => Err(exit),
    }
}

/// The exit of a deployment or a load that is refused for its stack's status.
fn early_refusal(world: &World, stack: &Txt, task: &Task) -> Option<Exit>
    ensures { result ≡ early_refusal stack.now world.now.world task.now }
{
    match task {
        Task::Deploy(_) | Task::Load(_) => match status_refusal(world, stack) {
            Some(fault) => Some(refused(fault)),
            None => None,
        },
        Task::Continue(_) | Task::Resume | Task::Execute(_) => None,
    }
}

/// Does a task over an open book: its operation is driven to its end, and answers the status that it leaves.
///
/// # Errors
///
/// A deployment is refused by `WrongStatus` where the stack is neither created nor updated from its status, then by `LibraryFault` and
/// `TemplateRefused`, as in the library and among the lanes' types, and by `StackRefused` for what the stack holds or exports, or where
/// nothing changes; so is a load, but for the library, which it does not ask. A continued rollback and an operation in progress are
/// refused by `NoStack`, `WrongStatus`, `NotFailed`, and by `UnknownType` where a path of the operation has still to be done whose type no
/// lane has. The execution of a change set is refused as `order_execution` says. Nothing is written and no lane is called before them.
/// After `Full`, `DiskFault`, `LaneAhead` and `NoMemory` the operation may be in progress. No call is out at return.
pub fn do_task<L: Library, D: Disk, H: Handler>(
    alloc: Global,
    library: &mut L,
    book: &mut Book<D, H>,
    stack: &Txt,
    task: &Task,
) -> Result<Status, Exit>
    requires running { book.old.stopped ≡ None }
    requires home { NoneOut book.old.lanes }
    requires opened { IsJustOpened book.old.entries }
    requires few { IsLoadable task.now }
    ensures same { L.texts library.new ≡ L.texts library.old }
    ensures faults { L.count library.old ≤ L.count library.new }
    ensures tells { DoesTask D.Disk (record {
      texts = L.texts library.old;
      faults = L.count library.old;
      faults' = L.count library.new;
      misses = L.missed library.old;
      misses' = L.missed library.new;
    })
        book.old book.new stack.now task.now result }
    ensures stack { HasStack book.new stack.now (number_for (world_left book.old.entries) stack.now task.now) result }
    ensures stretch { IsStretch D.Disk book.old book.new }
    ensures never_ahead { NeverAhead book.old result }
    ensures home { NoneOut book.new.lanes }
    ensures known { KnowsDisk D.Disk book.new }
    ensures rest { IfOk result (λ _. IsAtRest D.Disk book.new) }
{
    match early_refusal(book.world(), stack, task) {
        None => do_now(alloc, library, book, stack, task),
        Some(exit) => Err(exit),
    }
}
