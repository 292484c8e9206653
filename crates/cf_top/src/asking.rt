//! What a command that drives no handlers asks, and what the journal tells.
ghost use Rattle.std.specs.Prelude.{◌≡◌, ◌≤◌, ◌^◌, IfOk, IsTrue};
ghost use Rattle.cf_disk.specs.Disk.{LeavesOnly};
ghost use Rattle.cf_effect.specs.World.{stack_at};
ghost use Rattle.cf_face.specs.Exit.{ending_text};
ghost use Rattle.cf_face.specs.Print.{PrintTells};
ghost use Rattle.cf_face.specs.Report.{events_report, list_report};
ghost use Rattle.cf_face.specs.SetReport.{set_report};
ghost use Rattle.std.specs.Option.{option_copied};
ghost use Rattle.cf_face.specs.declared.exit.Exit.TheVariants.{Done, StackRefused};
ghost use Rattle.cf_face.specs.declared.exit.StackFault.TheVariants.{NoChangeSet, NoStack};
ghost use Rattle.cf_journal.specs.Record.{IsOldOrKept, KeepsRecord};
ghost use Rattle.cf_top.specs.Answer.{TellsFrom, question_words};
ghost use Rattle.cf_top.specs.Telling.{described_exit, described_text, events_text, kept_exit, kept_text, set_exit, set_text, subject_exit, subject_text};

use crate::opening::world_on;
use crate::telling::tell_stack;
use cf_disk::Disk;
use cf_face::{
    Exit, Question, StackFault, Subject, events_report, list_report, print_exit, put, read_words,
    set_report,
};
use cf_io::Sink;
use cf_prepare::set_in;
use cf_stacks::{KeptSet, StackState, World};
use cf_tree::{NoMemory, Txt};
use std::alloc::Global;

/// What the words ask, if they are a command that drives no handlers.
pub fn read_question(alloc: Global, words: &[Txt]) -> Result<Option<Question>, NoMemory>
    ensures { IfOk result (λ asked. asked ≡ question_words words.now) }
{
    match read_words(alloc, words)? {
        Some(command) => Ok(command.into_question()),
        None => Ok(None),
    }
}

/// Prints that there is no stack of the name.
fn tell_none<K: Sink>(alloc: Global, out: &mut K) -> Exit
    ensures faults { K.count out.old ≤ K.count out.new }
    ensures tells { PrintTells (K.held out.old) (K.held out.new) (K.count out.old) (K.count out.new)
        (ending_text (StackRefused NoStack)) (StackRefused NoStack) result }
{
    let fault = StackFault::NoStack;
    print_exit(alloc, out, Exit::StackRefused { fault })
}

/// Prints the report on the stack of a name, or that there is none.
fn describe<K: Sink>(alloc: Global, out: &mut K, name: &Txt, world: &World) -> Exit
    ensures faults { K.count out.old ≤ K.count out.new }
    ensures tells { PrintTells (K.held out.old) (K.held out.new) (K.count out.old) (K.count out.new)
        (described_text name.now (stack_at name.now world.now.world)) (described_exit (stack_at name.now world.now.world)) result }
{
    match world.stack(name.as_str()) {
        Some(stack) => tell_stack(alloc, out, name, stack, Exit::Done),
        None => tell_none(alloc, out),
    }
}

/// Prints the report on what became of a stack.
fn tell_events<K: Sink>(alloc: Global, out: &mut K, stack: &StackState) -> Exit
    ensures faults { K.count out.old ≤ K.count out.new }
    ensures tells { PrintTells (K.held out.old) (K.held out.new) (K.count out.old) (K.count out.new)
        (events_report stack.now.stack Done) Done result }
{
    match events_report(alloc, stack, &Exit::Done) {
        Ok(text) => put(out, text.as_str(), Exit::Done),
        Err(NoMemory) => Exit::NoMemory,
    }
}

/// Prints the report on what became of the stack of a name, or that there is none.
fn events<K: Sink>(alloc: Global, out: &mut K, name: &Txt, world: &World) -> Exit
    ensures faults { K.count out.old ≤ K.count out.new }
    ensures tells { PrintTells (K.held out.old) (K.held out.new) (K.count out.old) (K.count out.new)
        (events_text (stack_at name.now world.now.world)) (described_exit (stack_at name.now world.now.world)) result }
{
    match world.stack(name.as_str()) {
        Some(stack) => tell_events(alloc, out, stack),
        None => tell_none(alloc, out),
    }
}

/// Prints the report on all stacks.
fn list<K: Sink>(alloc: Global, out: &mut K, world: &World) -> Exit
    ensures faults { K.count out.old ≤ K.count out.new }
    ensures tells { PrintTells (K.held out.old) (K.held out.new) (K.count out.old) (K.count out.new)
        (list_report world.now.world.stacks Done) Done result }
{
    match list_report(alloc, world.stacks(), &Exit::Done) {
        Ok(text) => put(out, text.as_str(), Exit::Done),
        Err(NoMemory) => Exit::NoMemory,
    }
}

/// Prints that a stack has no change set of the number.
fn tell_no_set<K: Sink>(alloc: Global, out: &mut K, number: u64) -> Exit
    ensures faults { K.count out.old ≤ K.count out.new }
    ensures tells { PrintTells (K.held out.old) (K.held out.new) (K.count out.old) (K.count out.new)
        (ending_text (StackRefused (NoChangeSet number))) (StackRefused (NoChangeSet number)) result }
{
    let fault = StackFault::NoChangeSet { number };
    print_exit(alloc, out, Exit::StackRefused { fault })
}

/// Prints the report on a change set.
fn tell_kept<K: Sink>(alloc: Global, out: &mut K, name: &Txt, number: u64, set: &KeptSet) -> Exit
    ensures faults { K.count out.old ≤ K.count out.new }
    ensures tells { PrintTells (K.held out.old) (K.held out.new) (K.count out.old) (K.count out.new)
        (set_report name.now number set.now.rows set.now.outputs Done) Done result }
{
    match set_report(
        alloc,
        name,
        number,
        set.rows.as_slice(),
        set.outputs,
        &Exit::Done,
    ) {
        Ok(text) => put(out, text.as_str(), Exit::Done),
        Err(NoMemory) => Exit::NoMemory,
    }
}

/// Prints the report on a change set of a stack, or that it has none of the number.
fn tell_set<K: Sink>(
    alloc: Global,
    out: &mut K,
    name: &Txt,
    number: u64,
    set: Option<&KeptSet>,
) -> Exit
    ensures faults { K.count out.old ≤ K.count out.new }
    ensures tells { PrintTells (K.held out.old) (K.held out.new) (K.count out.old) (K.count out.new)
        (kept_text name.now number (option_copied set.entry)) (kept_exit number (option_copied set.entry)) result }
{
    match set {
        Some(set) => tell_kept(alloc, out, name, number, set),
        None => tell_no_set(alloc, out, number),
    }
}

/// Prints the report on the change set of a number of the stack of a name, or that there is no such stack or set.
fn describe_set<K: Sink>(alloc: Global, out: &mut K, name: &Txt, number: u64, world: &World) -> Exit
    ensures faults { K.count out.old ≤ K.count out.new }
    ensures tells { PrintTells (K.held out.old) (K.held out.new) (K.count out.old) (K.count out.new)
        (set_text name.now number (stack_at name.now world.now.world)) (set_exit number (stack_at name.now world.now.world)) result }
{
    match world.stack(name.as_str()) {
        Some(stack) => {
            let set = set_in(stack.sets().as_slice(), number);
            tell_set(alloc, out, name, number, set)
        }
        None => tell_none(alloc, out),
    }
}

/// Prints what a world tells of a subject, or that there is no stack of the name, or no change set of the number.
fn tell<K: Sink>(alloc: Global, out: &mut K, what: &Subject, world: &World) -> Exit
    ensures faults { K.count out.old ≤ K.count out.new }
    ensures tells { PrintTells (K.held out.old) (K.held out.new) (K.count out.old) (K.count out.new)
        (subject_text what.now world.now.world) (subject_exit what.now world.now.world) result }
{
    match what {
        Subject::Stack(name) => describe(alloc, out, name, world),
        Subject::Events(name) => events(alloc, out, name, world),
        Subject::Stacks => list(alloc, out, world),
        Subject::Set(name, number) => describe_set(alloc, out, name, *number, world),
    }
}

/// Prints what the journal of a disk tells of a subject, or why it could not be opened.
pub fn tell_from<K: Sink, D: Disk>(alloc: Global, out: &mut K, disk: &mut D, what: &Subject) -> Exit
    requires least { 16 ≤ D.room_of disk.old }
    requires most { D.room_of disk.old ≤ 2 ^ 32 }
    ensures room { D.room_of disk.new ≡ D.room_of disk.old }
    ensures kept { IsTrue D.tells → KeepsRecord (D.seen disk.old) (D.seen disk.new) }
    ensures any_moment { IsTrue D.tells → LeavesOnly D.moment D.left_since disk.old disk.new
        (IsOldOrKept (D.may_leave disk.old) (D.seen disk.old)) }
    ensures tells { TellsFrom D.tells (D.seen disk.old) (D.seen disk.new) (D.count disk.old) (D.count disk.new)
        (record { held = K.held out.old; held' = K.held out.new; faults = K.count out.old; faults' = K.count out.new }) what.now result }
{
    match world_on(alloc, disk) {
        Ok(world) => {
            let exit = tell(alloc, out, what, &world);
            drop(world);
            exit
        }
        Err(exit) => print_exit(alloc, out, exit),
    }
}
