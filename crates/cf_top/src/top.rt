//! The top calls.
ghost use Rattle.std.specs.Prelude.{◌≡◌, ◌≤◌, ◌^◌, ℕ, List, [], IfOk, IsTrue, None, Some, map, false, true};
ghost use Rattle.cf_disk.specs.Disk.{LeavesOnly};
ghost use Rattle.cf_journal.specs.Record.{IsOldOrKept, KeepsRecord};
ghost use Rattle.cf_top.specs.Alone.{AloneTells, IsAnswered};
ghost use Rattle.cf_book.specs.State.{NoneOut};
ghost use Rattle.cf_face.specs.Words.{command_of};
ghost use Rattle.cf_workers.specs.Agreement.{KeepsAgreement};
ghost use Rattle.cf_top.specs.Answer.{AnswerTells, RanAs, is_asking, is_review, question_words, schemas_handed};
ghost use Rattle.cf_workers.specs.Along.{IsOldOrAlong};
ghost use Rattle.cf_top.specs.Crash.{LastsWhereOver, CrashLeaves};
ghost use Rattle.cf_top.specs.Intended.{CallsAreIntended};
ghost use Rattle.cf_top.specs.Opening.{enter_exit};
ghost use Rattle.cf_effect.specs.World.{StackState as Stack, stack_at};
ghost use Rattle.cf_top.specs.Outside.{DoesOn, DoesOver, TellsOutcome};
ghost use Rattle.cf_top.specs.Reviewing.{AddsOneSet, LeavesAtMostOneSet};
ghost use Rattle.cf_workers.specs.Ordering.{IsJustOpened};
ghost use Rattle.cf_top.specs.Tasks.{IsLoadable, task_words};

use crate::asking::{read_question, tell_from};
use crate::doing::do_task;
use crate::reviewing::review;
use crate::schemas::schemas_of;
use crate::telling::tell_over;
use crate::validation::validate;
use cf_book::{Book, EnterFault, Refused, enter};
use cf_disk::Disk;
use cf_entry::Status;
use cf_face::{Exit, Question, Task, print_exit, read_words};
use cf_handler::Handler;
use cf_io::{Library, Sink};
use cf_schema::Schemas;
use cf_stacks::World;
use cf_tree::{NoMemory, Txt};
use std::alloc::Global;

/// How a command ended, with the disk and the lanes that were handed in.
pub struct Ended<D, H> {
    pub exit: Exit,
    pub disk: D,
    pub lanes: Vec<H>,
}

/// The stack that the words say to change and what is to be done with it, if that is what they say.
fn read_task(alloc: Global, words: &[Txt]) -> Result<Option<(Txt, Task)>, NoMemory>
    ensures { IfOk result (λ named. named ≡ task_words words.now) }
{
    match read_words(alloc, words)? {
        Some(command) => command.into_task(alloc),
        None => Ok(None),
    }
}

/// The exit of a book that was not entered.
fn exit_of(fault: EnterFault) -> Exit
    ensures { result ≡ enter_exit fault }
{
    match fault {
        EnterFault::NotAJournal { offset } => Exit::NotAJournal { offset },
        EnterFault::DiskFault => Exit::DiskFault,
        EnterFault::LaneTwice { name } => Exit::LaneTwice { name },
        EnterFault::LaneMissing { name } => Exit::LaneMissing { name },
        EnterFault::Full { length, need, room } => Exit::Full { length, need, room },
        EnterFault::LaneAhead { name, fence, epoch } => Exit::LaneAhead { name, fence, epoch },
        EnterFault::LaneFault { name } => Exit::LaneFault { name },
        EnterFault::NoMemory => Exit::NoMemory,
    }
}

/// Prints what came of a task: the stack that it left, or the exit.
fn tell_outcome<K: Sink>(
    alloc: Global,
    out: &mut K,
    stack: &Txt,
    task: &Task,
    done: Result<Status, Exit>,
    world: &World,
) -> Exit
    requires { IfOk done (λ _. (st : Stack) × (stack_at stack.now world.now.world ≡ Some st)) }
    ensures { TellsOutcome
        (record { held = K.held out.old; held' = K.held out.new; faults = K.count out.old; faults' = K.count out.new })
        stack.now task.now world.now.world done result }
{
    match done {
        Ok(_) => tell_over(alloc, out, stack, task, world),
        Err(exit) => print_exit(alloc, out, exit),
    }
}

/// Does a task over a book, prints what came of it and closes the book.
fn do_over<L: Library, K: Sink, D: Disk, H: Handler>(
    alloc: Global,
    library: &mut L,
    out: &mut K,
    book: Book<D, H>,
    stack: &Txt,
    task: &Task,
) -> Ended<D, H>
    requires running { book.stopped ≡ None }
    requires home { NoneOut book.lanes }
    requires opened { IsJustOpened book.entries }
    requires few { IsLoadable task.now }
    ensures same { L.texts library.new ≡ L.texts library.old }
    ensures tells { DoesOver D.Disk H.Handler (record {
      texts = L.texts library.old;
      faults = L.count library.old;
      faults' = L.count library.new;
      misses = L.missed library.old;
      misses' = L.missed library.new;
    })
        (record { held = K.held out.old; held' = K.held out.new; faults = K.count out.old; faults' = K.count out.new })
        book result.disk result.lanes.items stack.now task.now result.exit }
{
    let mut book = book;
    let done = do_task(alloc, library, &mut book, stack, task);
    let exit = tell_outcome(alloc, out, stack, task, done, book.world());
    let (disk, lanes) = book.close();
    Ended { exit, disk, lanes }
}

/// Does a task over the journal of a disk and lanes, and prints what came of it.
fn recover_and_do<L: Library, K: Sink, D: Disk, H: Handler>(
    alloc: Global,
    library: &mut L,
    out: &mut K,
    disk: D,
    lanes: Vec<H>,
    stack: &Txt,
    task: &Task,
) -> Ended<D, H>
    requires least { 16 ≤ D.room_of disk }
    requires most { D.room_of disk ≤ 2 ^ 32 }
    requires few { IsLoadable task.now }
    ensures same { L.texts library.new ≡ L.texts library.old }
    ensures room { D.room_of result.disk ≡ D.room_of disk }
    ensures any_moment { IsTrue D.tells → LeavesOnly D.moment D.left_since disk result.disk
        (IsOldOrAlong D.Disk H.Handler disk result.disk lanes.items) }
    ensures tells { DoesOn D.Disk H.Handler (record {
      library = record {
        texts = L.texts library.old;
        faults = L.count library.old;
        faults' = L.count library.new;
        misses = L.missed library.old;
        misses' = L.missed library.new;
      };
      disk = disk;
      disk' = result.disk;
      handlers = lanes.items;
      handlers' = result.lanes.items;
    })
        (record { held = K.held out.old; held' = K.held out.new; faults = K.count out.old; faults' = K.count out.new })
        stack.now task.now result.exit }
{
    match enter(alloc, disk, lanes) {
        Ok(book) => do_over(alloc, library, out, book, stack, task),
        Err(Refused { fault, disk, lanes }) => {
            let exit = print_exit(alloc, out, exit_of(fault));
            Ended { exit, disk, lanes }
        }
    }
}

/// Does what the words say, and answers how it ended.
fn run_words<L: Library, K: Sink, D: Disk, H: Handler>(
    alloc: Global,
    words: &[Txt],
    library: &mut L,
    out: &mut K,
    disk: D,
    lanes: Vec<H>,
) -> Ended<D, H>
    requires least { 16 ≤ D.room_of disk }
    requires most { D.room_of disk ≤ 2 ^ 32 }
    ensures same { L.texts library.new ≡ L.texts library.old }
    ensures room { D.room_of result.disk ≡ D.room_of disk }
    ensures any_moment { IsTrue D.tells → LeavesOnly D.moment D.left_since disk result.disk
        (IsOldOrAlong D.Disk H.Handler disk result.disk lanes.items) }
    ensures tells { AloneTells D.Disk H.Handler (record {
      library = record {
        texts = L.texts library.old;
        faults = L.count library.old;
        faults' = L.count library.new;
        misses = L.missed library.old;
        misses' = L.missed library.new;
      };
      disk = disk;
      disk' = result.disk;
      handlers = lanes.items;
      handlers' = result.lanes.items;
    })
        (record { held = K.held out.old; held' = K.held out.new; faults = K.count out.old; faults' = K.count out.new })
        words.now result.exit }
{
    match read_task(alloc, words) {
        Ok(Some((stack, task))) => recover_and_do(alloc, library, out, disk, lanes, &stack, &task),
        Ok(None) => {
            let exit = print_exit(alloc, out, Exit::BadWords);
            Ended { exit, disk, lanes }
        }
        Err(NoMemory) => {
            let exit = print_exit(alloc, out, Exit::NoMemory);
            Ended { exit, disk, lanes }
        }
    }
}

/// Does what the words say over a library of templates, a disk with a journal and lanes of resources, prints its report and answers its
/// exit. The disk and the lanes come back, the lanes in their order.
///
/// `deploy STACK TEMPLATE NAME=VALUE ..` creates the stack from the template that the library holds under its name, with these values for
/// its parameters, or updates it by that. Each resource is made once all that it needs is made, with its properties evaluated over the ids
/// and attributes that are there by then, in the first lane of its type. An update changes a resource in place, or makes a new one where
/// what differs can't be changed; when all is done it deletes what was replaced and what the template no longer has. Where a call is
/// refused, or breaks off three times, or what the template asks for can't be worked out, the operation turns back: a creation deletes all
/// that it made, and an update gives each resource that it changed its properties of before, and then deletes what it made.
///
/// `continue-rollback STACK PATH ..` goes on with the rollback of an update that failed, and skips what failed at these paths: that keeps
/// its id and its properties are not known from then on. `resume STACK` ends the operation that is in progress on the stack, as the command
/// that began it would have. A call whose outcome is not known is made again under its token, which acts once. `execute-change-set STACK
/// NUMBER` does what `deploy` would by the template and the values of that change set, if that still changes just what the set tells.
///
/// `load N` is the same as `deploy load-N` by the template of the load mode with N records, under the name `load-N`, and asks nothing of
/// the library: each record needs the one of half its number, and an output tells the length of the last one. Where its operation reached
/// an end it prints how many records it loads, the stack's status, how many resources the stack holds, the output where it is there, and
/// the exit.
///
/// The journal gets an opening with the lanes, a beginning with the template and what is given, an intent before and an outcome after each
/// call, and an end. It prints the stack that the journal then leaves, and the exit; every other end prints the line of its exit alone, and
/// before it, where nothing changes, a line that says so.
///
/// The order is: `BadWords` where the words are no such command; the disk is read, `DiskFault` and `NotAJournal`; `LaneTwice` where two
/// lanes have one name; `LaneMissing` where a resource or an open call is of a lane that is not handed in; the opening is written, `Full`
/// and `DiskFault`; the fence of each lane is raised, `LaneAhead` where it is not below the opening's number and `LaneFault` where that
/// breaks off; `NoStack` where there is none of the name, unless it is deployed; `WrongStatus` where nothing of the kind begins, or goes
/// on, from its status; `NoChangeSet` where the stack has no change set of the number that is to be executed; `LibraryFault`;
/// `TemplateRefused`: the library holds none, it can't be read, it holds what is not made yet, its plan has a flaw, a type has no lane;
/// `NotFailed` where a path that is to be skipped did not fail, `TypeChanged`, `ExportTaken`, `ExportInUse`, `NoChanges`, `Outdated` where
/// other rows change by now than those of the change set; then the beginning, the calls and the end. `Done` comes where the stack is
/// CREATE_COMPLETE or UPDATE_COMPLETE, or UPDATE_ROLLBACK_COMPLETE by a continued rollback. `RolledBack` comes where it is
/// ROLLBACK_COMPLETE or else UPDATE_ROLLBACK_COMPLETE, with the cause for which it turned back, and `Failed` where it is ROLLBACK_FAILED or
/// UPDATE_ROLLBACK_FAILED, with the paths that its end tells. A handler is such a cause only where a call of the operation at its path was
/// refused or broke off and the count of a lane rose; so it is with each of the paths, and there is one at least, where disk and lanes
/// agreed. `SinkFault` comes where the report could not be printed, whatever was done. After `Full`, `DiskFault`, `LaneAhead`, `NoMemory`
/// and `SinkFault` the operation may be in progress, and can be resumed. The lanes keep their names and types, the library its texts and
/// the disk its room.
///
/// Disk and lanes agree where, whatever file a crash may leave, its record and what the lanes hold are those of a life of the engine, and
/// each stack keeps what its status promises. A new journal over lanes on which nothing was called agrees. Where they agree as they are
/// handed in, they agree after each answer, and no lane that was not handed in has changed (`agree`); after `Done`, `RolledBack` and
/// `Failed` the stack then keeps what its status promises, over the lanes as they are given back: its template is live; or what was held
/// before the operation is live, under its old ids and with its old properties unless it is unsure, and nothing else is held; or each path
/// that is told failed (`answered`: `promise`); and `LaneAhead` never comes.
///
/// After `Done`, `RolledBack` and `Failed` a crash leaves the journal as it is (`lasts`). After each answer it leaves the entries that
/// were acknowledged, or, where the disk failed, these and the one entry whose append failed; where no entry was written, what it might
/// have left before the command, or the same record (`leaves`). At each moment of the command a crash leaves what it might have left
/// before, or the old entries and a first part of the new ones, behind all of these at most one that could come next there: the opening
/// with the lanes that were handed in, or behind it a beginning, a step or an outcome (`any_moment`). Each lane is given back as it was
/// handed in but for its fence and for the calls of the command in its log. Of each of them there was a moment of the command at which its
/// intent was in all that a crash might leave, and its token was open; and in all that a crash might leave from then on the intent is.
/// Where disk and lanes agreed, at most 54 of them are of one path; and each that `execute-change-set` makes as its operation goes forward is
/// told by the row of its path in the change set that the record of the disk kept under the number: an added resource is created, a modified
/// one updated in place or created anew as its row says, and nothing is asked for at a path that is removed or has no row (`intended`).
/// That a call is made after that moment and not before is no clause of this call, since a disk and a lane have no clock in common: a lane
/// is called by its lease alone, and a lease is handed out only then (`grant` of `cf_book`). The room of the disk is from 16 to
/// 4,294,967,296 bytes.
pub fn alone<L: Library, K: Sink, D: Disk, H: Handler>(
    alloc: Global,
    words: &[Txt],
    library: &mut L,
    out: &mut K,
    disk: D,
    lanes: Vec<H>,
) -> Ended<D, H>
    requires least { 16 ≤ D.room_of disk }
    requires most { D.room_of disk ≤ 2 ^ 32 }
    ensures same { L.texts library.new ≡ L.texts library.old }
    ensures names { map H.label result.lanes.items ≡ map H.label lanes.items }
    ensures schemas { map H.schema_of result.lanes.items ≡ map H.schema_of lanes.items }
    ensures room { D.room_of result.disk ≡ D.room_of disk }
    ensures any_moment { IsTrue D.tells → LeavesOnly D.moment D.left_since disk result.disk
        (IsOldOrAlong D.Disk H.Handler disk result.disk lanes.items) }
    ensures lasts { LastsWhereOver result.exit D.tells (D.seen result.disk) (D.may_leave result.disk) }
    ensures leaves { IsTrue D.tells → CrashLeaves (D.seen disk) (D.seen result.disk) (D.may_leave disk) (D.may_leave result.disk)
        result.exit }
    ensures agree { KeepsAgreement D.Disk H.Handler disk lanes.items result.disk result.lanes.items }
    ensures intended { CallsAreIntended D.Disk H.Handler disk result.disk lanes.items result.lanes.items words.now result.exit }
    ensures answered { IsAnswered D.Disk H.Handler (record {
      library = record {
        texts = L.texts library.old;
        faults = L.count library.old;
        faults' = L.count library.new;
        misses = L.missed library.old;
        misses' = L.missed library.new;
      };
      disk = disk;
      disk' = result.disk;
      handlers = lanes.items;
      handlers' = result.lanes.items;
    })
        (record { held = K.held out.old; held' = K.held out.new; faults = K.count out.old; faults' = K.count out.new })
        words.now result.exit }
{
    run_words(alloc, words, library, out, disk, lanes)
}

/// Answers a command that drives no handlers over a library of templates, a disk with a journal and the schemas of the
/// lanes' types: prints its report and answers its exit.
///
/// `describe STACK` prints the stack of the name that the journal leaves, with its parameters, and its resources with
/// their physical ids. `events STACK` prints what became of it, a line for each entry of the journal that concerns it. `list` prints
/// the name, the status and the number of each stack that is not deleted. `describe-change-set STACK NUMBER` prints the change set of
/// the number. These ask nothing of the library. `validate TEMPLATE` reads the template that the library holds under its name, and asks
/// nothing of the disk.
///
/// `create-change-set STACK TEMPLATE NAME=VALUE ..` keeps what `deploy` with the same words would change of the stack, as the next change
/// set of the journal, and prints it. A name without a stack, or whose stack is deleted, then has one in REVIEW_IN_PROGRESS, which holds
/// nothing. A change set stays until an operation of its stack begins. No other command writes an entry.
///
/// `BadWords` comes where the words are no such command. Then come `DiskFault` and `NotAJournal` as the disk is read, but of a validation.
/// Of what the journal tells then come `NoStack` where no stack has the name, and `NoChangeSet` where it has no set of the number; of a
/// validation `LibraryFault`, and `TemplateRefused` where the library holds none or it can't be read. Of a change set that is to be kept
/// come `WrongStatus` where the stack is neither created nor updated from its status; `LibraryFault`; `TemplateRefused`: the library holds
/// none, it can't be read, it holds what is not made yet, its plan has a flaw, a type has no schema; `TypeChanged`, `ExportTaken`,
/// `ExportInUse`, `NoChanges`; then, as the set is written, `Full` where there is no room, and `DiskFault`.
///
/// After each answer but to `create-change-set` the disk has the entries that it had, and bytes that are no journal are as they were. At
/// each moment and after it a crash leaves what it might have left before, or the same record (`kept`, `any_moment`, `leaves`). After
/// `create-change-set` this holds too, but that one entry may be added, the change set; where the disk failed as the set was written, it
/// may have it (`set_leaves`). At each moment a crash leaves what it might have left before, or the same record, or that with the set
/// (`set_at_any_moment`). It is one and the same set at each moment, after the command and in what is printed (`answered`). The room of
/// the disk is from 16 to 4,294,967,296 bytes.
pub fn answer<L: Library, K: Sink, D: Disk>(
    alloc: Global,
    words: &[Txt],
    library: &mut L,
    out: &mut K,
    disk: &mut D,
    schemas: &Schemas,
) -> Exit
    requires least { 16 ≤ D.room_of disk.old }
    requires most { D.room_of disk.old ≤ 2 ^ 32 }
    ensures same { L.texts library.new ≡ L.texts library.old }
    ensures room { D.room_of disk.new ≡ D.room_of disk.old }
    ensures kept { is_review (question_words words.now) ≡ false → IsTrue D.tells → KeepsRecord (D.seen disk.old) (D.seen disk.new) }
    ensures any_moment { is_review (question_words words.now) ≡ false → IsTrue D.tells → LeavesOnly D.moment D.left_since disk.old disk.new
        (IsOldOrKept (D.may_leave disk.old) (D.seen disk.old)) }
    ensures leaves { is_review (question_words words.now) ≡ false → IsTrue D.tells → (file : List ℕ) → D.may_leave disk.new file
        → IsOldOrKept (D.may_leave disk.old) (D.seen disk.old) file }
    ensures set_at_any_moment { IsTrue D.tells → AddsOneSet D.Disk schemas.now disk.old disk.new }
    ensures set_leaves { IsTrue D.tells → LeavesAtMostOneSet schemas.now (D.seen disk.old) (D.seen disk.new)
        (D.may_leave disk.old) (D.may_leave disk.new) result }
    ensures answered { AnswerTells D.Disk (record {
      texts = L.texts library.old;
      faults = L.count library.old;
      faults' = L.count library.new;
      misses = L.missed library.old;
      misses' = L.missed library.new;
    })
        (record { held = K.held out.old; held' = K.held out.new; faults = K.count out.old; faults' = K.count out.new })
        schemas.now disk.old disk.new words.now result }
{
    match read_question(alloc, words) {
        Ok(Some(Question::Validate(template))) => {
            let exit = validate(alloc, library, &template);
            print_exit(alloc, out, exit)
        }
        Ok(Some(Question::Tell(what))) => tell_from(alloc, out, disk, &what),
        Ok(Some(Question::Review(stack, choice))) => {
            review(alloc, library, out, disk, schemas, &stack, &choice)
        }
        Ok(None) => print_exit(alloc, out, Exit::BadWords),
        Err(NoMemory) => print_exit(alloc, out, Exit::NoMemory),
    }
}

/// Whether the words are a command that drives no handlers.
fn is_asking(alloc: Global, words: &[Txt]) -> Result<bool, NoMemory>
    ensures { IfOk result (λ b. b ≡ is_asking (command_of words.now)) }
{
    match read_words(alloc, words)? {
        Some(command) => {
            let drives = command.drives();
            drop(command);
            Ok(!drives)
        }
        None => Ok(false),
    }
}

/// Does what the words say: a command that drives handlers goes to `alone`, whatever the number of workers, and one that doesn't to
/// `answer`, with the lanes' schemas. The conditions and answers are theirs, that disk and lanes agree after each answer where they agreed
/// before (`agree`), that each call had its intent in the journal, that they are few and told by a change set that is executed (`intended`),
/// and what a crash may leave after an operation that ended (`lasts`), after each answer (`leaves`) and at each moment (`any_moment`, and
/// `set_at_any_moment` of `create-change-set`). What follows of commands one after another, with crashes between them, is
/// `histories_agree`.
pub fn cfstack<L: Library, K: Sink, D: Disk + Send, H: Handler + Send>(
    alloc: Global,
    words: &[Txt],
    _workers: u32,
    library: &mut L,
    out: &mut K,
    disk: D,
    lanes: Vec<H>,
) -> Ended<D, H>
    requires least { 16 ≤ D.room_of disk }
    requires most { D.room_of disk ≤ 2 ^ 32 }
    ensures same { L.texts library.new ≡ L.texts library.old }
    ensures names { map H.label result.lanes.items ≡ map H.label lanes.items }
    ensures schemas { map H.schema_of result.lanes.items ≡ map H.schema_of lanes.items }
    ensures room { D.room_of result.disk ≡ D.room_of disk }
    ensures any_moment { is_review (question_words words.now) ≡ false → IsTrue D.tells → LeavesOnly D.moment D.left_since disk result.disk
        (IsOldOrAlong D.Disk H.Handler disk result.disk lanes.items) }
    ensures set_at_any_moment { is_review (question_words words.now) ≡ true → IsTrue D.tells
        → AddsOneSet D.Disk (schemas_handed H.Handler lanes.items) disk result.disk }
    ensures lasts { is_asking (command_of words.now) ≡ false → LastsWhereOver result.exit D.tells (D.seen result.disk)
        (D.may_leave result.disk) }
    ensures leaves { IsTrue D.tells → CrashLeaves (D.seen disk) (D.seen result.disk) (D.may_leave disk) (D.may_leave result.disk)
        result.exit }
    ensures agree { KeepsAgreement D.Disk H.Handler disk lanes.items result.disk result.lanes.items }
    ensures intended { CallsAreIntended D.Disk H.Handler disk result.disk lanes.items result.lanes.items words.now result.exit }
    ensures answered { RanAs D.Disk H.Handler (record {
      library = record {
        texts = L.texts library.old;
        faults = L.count library.old;
        faults' = L.count library.new;
        misses = L.missed library.old;
        misses' = L.missed library.new;
      };
      disk = disk;
      disk' = result.disk;
      handlers = lanes.items;
      handlers' = result.lanes.items;
    })
        (record { held = K.held out.old; held' = K.held out.new; faults = K.count out.old; faults' = K.count out.new })
        words.now result.exit }
{
    match is_asking(alloc, words) {
        Ok(true) => match schemas_of(alloc, lanes.as_slice()) {
            Ok(schemas) => {
                let mut disk = disk;
                let exit = answer(alloc, words, library, out, &mut disk, &schemas);
                drop(schemas);
                Ended { exit, disk, lanes }
            }
            Err(NoMemory) => {
                let exit = print_exit(alloc, out, Exit::NoMemory);
                Ended { exit, disk, lanes }
            }
        },
        Ok(false) => alone(alloc, words, library, out, disk, lanes),
        Err(NoMemory) => {
            let exit = print_exit(alloc, out, Exit::NoMemory);
            Ended { exit, disk, lanes }
        }
    }
}
