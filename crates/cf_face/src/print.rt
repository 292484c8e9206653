//! What a command prints.
ghost use Rattle.std.specs.Prelude.{◌≡◌, ◌≤◌};
ghost use Rattle.cf_face.specs.Exit.{ending_text};
ghost use Rattle.cf_face.specs.Print.{PrintTells};
ghost use Rattle.cf_face.specs.declared.exit.Exit.TheVariants.{Done};

use crate::exit::Exit;
use cf_io::{Sink, SinkFail};
use cf_tree::NoMemory;
use std::alloc::Global;

/// Puts a text, and answers the exit where the sink took it. Where the sink failed the answer is `SinkFault`, and `NoMemory`
/// where it had no memory; a prefix of the text was printed then.
pub fn put<K: Sink>(out: &mut K, text: &str, exit: Exit) -> Exit
    ensures faults { K.count out.old ≤ K.count out.new }
    ensures tells { PrintTells (K.held out.old) (K.held out.new) (K.count out.old) (K.count out.new) text.now exit result }
{
    match out.put(text.as_bytes()) {
        Ok(()) => exit,
        Err(SinkFail::Failed) => Exit::SinkFault,
        Err(SinkFail::NoMemory) => Exit::NoMemory,
    }
}

/// Prints how a command ended that has no report, and answers the exit; or `SinkFault` or `NoMemory`, as `put` does. It is the
/// line of the exit, and before it, where nothing changes, a line that says so.
pub fn print_exit<K: Sink>(alloc: Global, out: &mut K, exit: Exit) -> Exit
    ensures faults { K.count out.old ≤ K.count out.new }
    ensures tells { PrintTells (K.held out.old) (K.held out.new) (K.count out.old) (K.count out.new) (ending_text exit) exit result }
{
    let mut text = String::new(alloc);
    match exit.push_ending(alloc, &mut text) {
        Ok(()) => put(out, text.as_str(), exit),
        Err(NoMemory) => Exit::NoMemory,
    }
}

/// Prints a text that is no report, and answers `Done` where the sink took it, and else as `put` does.
pub fn print_text<K: Sink>(out: &mut K, text: &str) -> Exit
    ensures faults { K.count out.old ≤ K.count out.new }
    ensures tells { PrintTells (K.held out.old) (K.held out.new) (K.count out.old) (K.count out.new) text.now Done result }
{
    put(out, text, Exit::Done)
}
