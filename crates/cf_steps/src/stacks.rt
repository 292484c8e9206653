//! What a stack is.
use crate::entries::cause_of;
use crate::library::Library;
use crate::line::Line;
use crate::spelled::{add_entry, add_names, add_props, add_request, add_source, why_word};
use crate::words::Words;
use cf_face::{Exit, report, set_report};
use cf_prepare::set_in;
use cf_stacks::{
    Call, HeardEntry, Held, HeldStatus, KeptSet, Outputs, Settled, StackState, call_with,
};
use cf_tree::{Deletion, NoMemory, Replace, Source, Txt};

fn held_status_word(status: HeldStatus) -> &'static str {
    match status {
        HeldStatus::CreateComplete => "CREATE_COMPLETE",
        HeldStatus::UpdateComplete => "UPDATE_COMPLETE",
        HeldStatus::UpdateFailed => "UPDATE_FAILED",
        HeldStatus::DeleteFailed => "DELETE_FAILED",
    }
}

fn deletion_word(deletion: Deletion) -> &'static str {
    match deletion {
        Deletion::Delete => "Delete",
        Deletion::Retain => "Retain",
        Deletion::RetainExceptOnCreate => "RetainExceptOnCreate",
    }
}

/// Adds what sets a resource apart: a replace policy, what it needs, and its marks.
fn add_marks(line: &mut Line, held: &Held) {
    if held.replace == Replace::Retain {
        line.word("replace Retain");
    }
    if !held.needs.is_empty() {
        line.word("needs");
        add_names(line, &held.needs);
    }
    if held.unsure {
        line.word("unsure");
    }
    if held.superseded {
        line.word("superseded");
    }
}

/// Resources in their order.
fn add_helds(line: &mut Line, helds: &[Held]) {
    for held in helds {
        line.member();
        line.word(held.path.as_str());
        line.word(held.physical.as_str());
        line.word(held_status_word(held.status));
        line.word(deletion_word(held.deletion));
        add_marks(line, held);
    }
}

/// The resource of a physical id on a list.
fn resource_in<'a>(helds: &'a [Held], physical: &str) -> Option<&'a Held> {
    helds.iter().find(|held| held.physical.is(physical))
}

/// The type, the properties and the attributes of a resource.
fn add_resource(line: &mut Line, held: &Held) {
    line.word(held.kind.as_str());
    add_props(line, &held.props);
    if held.attrs.len() != 0 {
        line.word("with");
        add_props(line, &held.attrs);
    }
}

/// The same of the resource of a physical id that a stack made or else holds.
fn add_resource_of(line: &mut Line, stack: &StackState, physical: &str) {
    match resource_in(stack.made().as_slice(), physical) {
        Some(held) => add_resource(line, held),
        None => {
            if let Some(held) = resource_in(stack.held().as_slice(), physical) {
                add_resource(line, held);
            }
        }
    }
}

/// The open calls.
fn add_open(line: &mut Line, library: &Library, stack: &StackState) {
    for pending in stack.tokens().as_slice() {
        line.member();
        line.number(pending.token);
        line.word(pending.lane.as_str());
        line.word(pending.path.as_str());
        add_request(
            line,
            library.kind_of(pending.lane.as_str()),
            &pending.request,
        );
    }
}

/// How a call was answered for good, or that it is open, or was given up.
fn add_settled(line: &mut Line, stack: &StackState, call: &Call) {
    match call.answer {
        Some(Settled::Success) => line.word("success"),
        Some(Settled::Failed { code }) => {
            line.word("failed");
            line.word(code.name());
        }
        None => {
            let tokens = stack.tokens().as_slice();
            let is_open = tokens.iter().any(|pending| pending.token == call.token);
            line.word(if is_open { "open" } else { "abandoned" });
        }
    }
}

/// The calls, with what came of them.
fn add_calls(line: &mut Line, stack: &StackState) {
    for call in stack.ledger().as_slice() {
        line.member();
        line.number(call.token);
        add_settled(line, stack, call);
        if call.fresh {
            line.word("new");
        }
        if call.doubts != 0 {
            line.word("doubts");
            line.number(call.doubts);
        }
    }
}

/// How often the call of a token broke off in this phase and opening.
fn add_doubts(line: &mut Line, stack: &StackState, token: u64) {
    match call_with(stack.ledger().as_slice(), token) {
        Some(call) => line.number(call.doubts),
        None => line.word("no call"),
    }
}

/// An entry that a stack heard.
fn add_heard(line: &mut Line, library: &Library, heard: &HeardEntry) {
    match heard.entry(line.alloc) {
        Ok(entry) => {
            line.member();
            add_entry(line, library, &entry);
            drop(entry);
        }
        Err(_) => line.lose(),
    }
}

/// The entries that a stack heard.
fn add_entries(line: &mut Line, library: &Library, stack: &StackState) {
    for heard in stack.entries().as_slice() {
        add_heard(line, library, heard);
    }
}

/// The creates that were given up.
fn add_abandoned(line: &mut Line, stack: &StackState) {
    for given_up in stack.abandoned().as_slice() {
        line.member();
        line.number(given_up.token);
        line.word(given_up.path.as_str());
    }
}

/// The leftovers.
fn add_leftovers(line: &mut Line, stack: &StackState) {
    for leftover in stack.leftovers().as_slice() {
        line.member();
        line.word(leftover.path.as_str());
        line.word(leftover.physical.as_str());
        line.word(why_word(leftover.why));
    }
}

/// The outputs.
fn add_outputs(line: &mut Line, outputs: &Outputs) {
    for output in outputs.as_slice() {
        line.member();
        line.word(output.name.as_str());
        line.word(output.value.as_str());
        if let Some(name) = &output.export {
            line.word("export");
            line.word(name.as_str());
        }
    }
}

/// A source, where there is one.
fn add_maybe_source(line: &mut Line, source: Option<&Source>) {
    if let Some(source) = source {
        add_source(line, source);
    }
}

/// A change set.
fn add_set(line: &mut Line, set: &KeptSet) {
    line.member();
    line.number(set.number);
    line.word(if set.outputs { "changed" } else { "same" });
    line.word(set.source.root.as_str());
    for row in set.rows.as_slice() {
        line.word(row.path.as_str());
    }
}

/// The lines of events.
fn add_events(line: &mut Line, stack: &StackState) {
    for event in stack.events().as_slice() {
        line.member();
        line.word(event.as_str());
    }
}

/// The exit of the words `Done`, `RolledBack CAUSE` or `Failed PATH ..`
fn exit_of(words: &mut Words) -> Exit {
    match words.word() {
        "Done" => Exit::Done,
        "RolledBack" => Exit::RolledBack {
            cause: cause_of(words),
        },
        "Failed" => Exit::Failed {
            blamed: words.names(),
        },
        _ => {
            words.refuse();
            Exit::Done
        }
    }
}

/// A report, without the end of its last line.
pub fn add_lines(line: &mut Line, report: Result<String, NoMemory>) {
    match report {
        Ok(text) => match text.as_str().strip_suffix('\n') {
            Some(lines) => line.word(lines),
            None => line.word("no end of line"),
        },
        Err(_) => line.lose(),
    }
}

/// The report on a stack after the exit of these words.
fn add_report(line: &mut Line, words: &mut Words, name: &Txt, stack: &StackState) {
    let exit = exit_of(words);
    add_lines(line, report(line.alloc, name, stack, &exit));
    drop(exit);
}

/// The report on the change set of a number; nothing where there is none.
fn add_set_report(line: &mut Line, name: &Txt, stack: &StackState, number: u64) {
    if let Some(set) = set_in(stack.sets().as_slice(), number) {
        let exit = Exit::Done;
        let rows = set.rows.as_slice();
        add_lines(
            line,
            set_report(line.alloc, name, number, rows, set.outputs, &exit),
        );
        drop(exit);
    }
}

/// What is asked of a stack.
pub fn add_stack(
    line: &mut Line,
    words: &mut Words,
    library: &Library,
    word: &str,
    name: &Txt,
    stack: &StackState,
) {
    match word {
        "status" => {
            line.word(stack.status().name());
            line.number(stack.number());
            line.number(stack.operation());
        }
        "held" => add_helds(line, stack.held().as_slice()),
        "before" => add_helds(line, stack.before()),
        "made" => add_helds(line, stack.made().as_slice()),
        "resource" => add_resource_of(line, stack, words.rest),
        "open" => add_open(line, library, stack),
        "abandoned" => add_abandoned(line, stack),
        "leftovers" => add_leftovers(line, stack),
        "outputs" => add_outputs(line, stack.outputs()),
        "source" => add_maybe_source(line, stack.source()),
        "going" => add_maybe_source(line, stack.going()),
        "sets" => {
            for set in stack.sets().as_slice() {
                add_set(line, set);
            }
        }
        "set" => add_set_report(line, name, stack, words.number()),
        "events" => add_events(line, stack),
        "entries" => add_entries(line, library, stack),
        "calls" => add_calls(line, stack),
        "doubts" => add_doubts(line, stack, words.number()),
        "report" => add_report(line, words, name, stack),
        _ => words.refuse(),
    }
}
