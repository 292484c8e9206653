//! The review of a template: what it would change of a stack is kept as a change set.
ghost use Rattle.std.specs.Prelude.{◌≡◌, ◌≤◌, ◌^◌, List, IsTrue, Ok};
ghost use Rattle.cf_disk.specs.Disk.{LeavesOnly};
ghost use Rattle.cf_entry.specs.declared.entry.Entry.{Entry as Written};
ghost use Rattle.cf_entry.specs.Entry.{IsProper};
ghost use Rattle.cf_journal.specs.Record.{IsBeforeOrAfter, Stands, record_of};
ghost use Rattle.cf_face.specs.Print.{PrintTells};
ghost use Rattle.cf_face.specs.declared.exit.Exit.TheVariants.{Done};
ghost use Rattle.cf_prepare.specs.declared.wish.Order.TheVariants as order;
ghost use Rattle.cf_top.specs.Reviewing.{FindsReview, KeepsSet, LeavesAtMostOneSet, OrdersASet, Reviews, WritesSet};
ghost use Rattle.cf_top.specs.Reviewing.{review_text, wrote_exit, wrote_text};
ghost use Rattle.cf_plan.specs.Life.{IsChangeSet};

use crate::deployment::order_choice;
use crate::opening::{Opened, journal_on};
use crate::planning::Purpose;
use crate::refusals::refused;
use cf_disk::Disk;
use cf_entry::{Entry, entry_size};
use cf_face::{Choice, Exit, print_exit, put, set_report};
use cf_io::{Library, Sink};
use cf_journal::{AppendFault, Journal};
use cf_prepare::{Order, status_refusal};
use cf_schema::Schemas;
use cf_stacks::World;
use cf_tree::{NoMemory, Txt};
use std::alloc::Global;

/// The entry of an order that keeps a change set.
fn set_in_order(ordered: Order) -> Entry
    requires { OrdersASet ordered }
    ensures { ordered ≡ order.Review result }
{
    match ordered {
        Order::Review(set) => set,
        Order::Begin(_begun) => unreachable!(),
        Order::Resume(_number) => unreachable!(),
    }
}

/// The change set of what a template would change of a stack, or why there is none.
///
/// # Errors
///
/// `WrongStatus` where the stack is neither created nor updated from its status; `LibraryFault`, which comes only where the library's count
/// of faults rose; `TemplateRefused` where the library holds none of the name, and what `check_template` refuses.
fn order_review<L: Library>(
    alloc: Global,
    library: &mut L,
    world: &World,
    schemas: &Schemas,
    choice: &Choice,
    stack: &Txt,
) -> Result<Entry, Exit>
    ensures same { L.texts library.new ≡ L.texts library.old }
    ensures faults { L.count library.old ≤ L.count library.new }
    ensures misses { L.missed library.old ≤ L.missed library.new }
    ensures finds { FindsReview (record {
      texts = L.texts library.old;
      faults = L.count library.old;
      faults' = L.count library.new;
      misses = L.missed library.old;
      misses' = L.missed library.new;
    })
        schemas.now world.now.world stack.now choice.now result }
{
    match status_refusal(world, stack) {
        Some(fault) => Err(refused(fault)),
        None => {
            let purpose = Purpose::Review;
            match order_choice(alloc, library, world, schemas, choice, stack, purpose) {
                Ok(ordered) => Ok(set_in_order(ordered)),
                Err(exit) => Err(exit),
            }
        }
    }
}

/// Appends a change set to the journal of a disk, with the memory that this takes.
///
/// # Errors
///
/// `NoMemory` where memory was not there, and `Full` exactly where the disk has no room for the journal with the set: nothing is written
/// then. `DiskFault` only where the disk's count of faults rose: it may have the set then.
fn write_set<D: Disk>(journal: &mut Journal, disk: &mut D, set: &Entry) -> Result<(), Exit>
    requires stands { Stands D.tells D.seen D.may_leave D.room_of journal.old disk.old }
    requires proper { IsProper set.now }
    ensures writes { (es : List Written) → (IsTrue D.tells → record_of (D.seen disk.old) ≡ Ok es)
        → WritesSet D.Disk disk.old disk.new es set.now result }
    ensures any_moment { IsTrue D.tells → LeavesOnly D.moment D.left_since disk.old disk.new
        (IsBeforeOrAfter (record_of (D.seen disk.old)) set.now) }
    ensures room { D.room_of disk.new ≡ D.room_of disk.old }
{
    if journal.reserve(entry_size(set)).is_err() {
        return Err(Exit::NoMemory);
    }
    match journal.append(disk, set) {
        Ok(()) => Ok(()),
        Err(fault) => match fault {
            AppendFault::Full { length, need, room } => Err(Exit::Full { length, need, room }),
            AppendFault::DiskFault => Err(Exit::DiskFault),
        },
    }
}

/// Prints the report on a change set that was written.
fn tell_review<K: Sink>(alloc: Global, out: &mut K, name: &Txt, set: &Entry) -> Exit
    requires { IsChangeSet set.now }
    ensures faults { K.count out.old ≤ K.count out.new }
    ensures tells { PrintTells (K.held out.old) (K.held out.new) (K.count out.old) (K.count out.new)
        (review_text name.now set.now) Done result }
{
    match set {
        Entry::ChangeSet {
            number,
            stack: _,
            source: _,
            rows,
            outputs,
        } => match set_report(alloc, name, *number, rows.as_slice(), *outputs, &Exit::Done) {
            Ok(text) => put(out, text.as_str(), Exit::Done),
            Err(NoMemory) => Exit::NoMemory,
        },
        _ => unreachable!(),
    }
}

/// Prints what came of a change set: its report where it was written, or the exit.
fn tell_wrote<K: Sink>(
    alloc: Global,
    out: &mut K,
    name: &Txt,
    set: &Entry,
    wrote: Result<(), Exit>,
) -> Exit
    requires { IsChangeSet set.now }
    ensures faults { K.count out.old ≤ K.count out.new }
    ensures tells { PrintTells (K.held out.old) (K.held out.new) (K.count out.old) (K.count out.new)
        (wrote_text name.now set.now wrote) (wrote_exit wrote) result }
{
    match wrote {
        Ok(()) => tell_review(alloc, out, name, set),
        Err(exit) => print_exit(alloc, out, exit),
    }
}

/// Appends a change set to an open journal, and prints it, or why it was not written.
fn keep_set<K: Sink, D: Disk>(
    alloc: Global,
    out: &mut K,
    disk: &mut D,
    journal: Journal,
    name: &Txt,
    set: Entry,
) -> Exit
    requires stands { Stands D.tells D.seen D.may_leave D.room_of journal disk.old }
    requires proper { IsProper set }
    requires is_set { IsChangeSet set }
    ensures keeps { (es : List Written) → (IsTrue D.tells → record_of (D.seen disk.old) ≡ Ok es)
        → KeepsSet D.Disk
        (record { held = K.held out.old; held' = K.held out.new; faults = K.count out.old; faults' = K.count out.new })
        disk.old disk.new es name.now set result }
    ensures any_moment { IsTrue D.tells → LeavesOnly D.moment D.left_since disk.old disk.new
        (IsBeforeOrAfter (record_of (D.seen disk.old)) set) }
    ensures room { D.room_of disk.new ≡ D.room_of disk.old }
{
    let mut journal = journal;
    let wrote = write_set(&mut journal, disk, &set);
    drop(journal);
    let exit = tell_wrote(alloc, out, name, &set, wrote);
    drop(set);
    exit
}

/// Keeps what a template would change of a stack as a change set in the journal of a disk, and prints it, or why there is none.
///
/// # Errors
///
/// The exits of opening the journal, then those of `order_review`, then those of `write_set`; each is printed.
pub fn review<L: Library, K: Sink, D: Disk>(
    alloc: Global,
    library: &mut L,
    out: &mut K,
    disk: &mut D,
    schemas: &Schemas,
    stack: &Txt,
    choice: &Choice,
) -> Exit
    requires least { 16 ≤ D.room_of disk.old }
    requires most { D.room_of disk.old ≤ 2 ^ 32 }
    ensures same { L.texts library.new ≡ L.texts library.old }
    ensures room { D.room_of disk.new ≡ D.room_of disk.old }
    ensures leaves { IsTrue D.tells → LeavesAtMostOneSet schemas.now (D.seen disk.old) (D.seen disk.new)
        (D.may_leave disk.old) (D.may_leave disk.new) result }
    ensures reviews { Reviews D.Disk (record {
      texts = L.texts library.old;
      faults = L.count library.old;
      faults' = L.count library.new;
      misses = L.missed library.old;
      misses' = L.missed library.new;
    })
        (record { held = K.held out.old; held' = K.held out.new; faults = K.count out.old; faults' = K.count out.new })
        schemas.now disk.old disk.new stack.now choice.now result }
{
    match journal_on(alloc, disk) {
        Ok(Opened { journal, world }) => {
            match order_review(alloc, library, &world, schemas, choice, stack) {
                Ok(set) => {
                    drop(world);
                    keep_set(alloc, out, disk, journal, stack, set)
                }
                Err(exit) => {
                    drop(world);
                    drop(journal);
                    print_exit(alloc, out, exit)
                }
            }
        }
        Err(exit) => print_exit(alloc, out, exit),
    }
}
