//! How exits are printed.
//!
//! A row names an exit and then its fields between spaces, the last of which may hold spaces. Why a template was not read is
//! what comes of reading a text: `TemplateRefused Read NAME TEXT`. Why it has no plan is the first flaw of a template,
//! `TemplateRefused Plan TEMPLATE <- WORDS`, or else the flaw of a nested stack by its name and fields.
use crate::pieces::{cut, words_of};
use crate::plans::first_flaw;
use crate::told::Told;
use cf_desired::Flaw;
use cf_entry::{Cause, Reason, Status};
use cf_face::{Exit, Refusal, StackFault, print_exit, print_text};
use cf_io::MemorySink;
use cf_rows::Memory;
use cf_template::read_template;
use cf_tree::{Code, Names};

/// The number and the name of an exit, and the lines that are printed, without the line feed at their end.
pub fn exit_line(told: &mut Told, row: &str, words: &str) {
    let (name, fields) = cut(row);
    match exit_of(&mut told.memory, name, fields, words) {
        Some(exit) => printed(told, exit),
        None => told.put("no exit"),
    }
}

fn printed(told: &mut Told, exit: Exit) {
    match MemorySink::new(told.memory.alloc, &[]) {
        Ok(mut sink) => {
            let exit = print_exit(told.memory.alloc, &mut sink, exit);
            push_exit(told, &exit, sink.bytes());
            drop(exit);
            drop(sink);
        }
        Err(_) => {
            drop(exit);
            told.memory.lose();
        }
    }
}

fn push_exit(told: &mut Told, exit: &Exit, bytes: &[u8]) {
    let text = str::from_utf8(bytes).unwrap_or("");
    told.number(exit.number() as u64);
    told.word(exit.name());
    told.put(": ");
    match text.strip_suffix('\n') {
        Some(lines) => put_lines(told, lines),
        None => told.put("no line"),
    }
}

/// Adds lines with ` | ` between them.
fn put_lines(told: &mut Told, lines: &str) {
    for (at, line) in lines.split('\n').enumerate() {
        if at > 0 {
            told.put(" | ");
        }
        told.put(line);
    }
}

/// The exits of printing two texts, and what the sink then holds; its call of a number may fail.
pub fn print_line(told: &mut Told, text: &str, fails: &str) {
    let sink = match number_of(fails) {
        Some(number) => MemorySink::new(told.memory.alloc, &[number]),
        None => MemorySink::new(told.memory.alloc, &[]),
    };
    match sink {
        Ok(mut sink) => {
            print_both(told, &mut sink, text);
            drop(sink);
        }
        Err(_) => told.memory.lose(),
    }
}

fn print_both(told: &mut Told, sink: &mut MemorySink, text: &str) {
    let (one, two) = cut(text);
    print(told, sink, one);
    print(told, sink, two);
    told.json(str::from_utf8(sink.bytes()).unwrap_or("no text"));
}

fn print(told: &mut Told, sink: &mut MemorySink, text: &str) {
    let exit = print_text(sink, text);
    told.put(exit.name());
    told.put(" ");
    drop(exit);
}

fn number_of(word: &str) -> Option<u64> {
    word.parse::<u64>().ok()
}

fn exit_of(memory: &mut Memory, name: &str, fields: &str, words: &str) -> Option<Exit> {
    match name {
        "TemplateRefused" => refused(memory, fields, words),
        "RolledBack" => rolled_back(memory, fields),
        "Failed" => Some(Exit::Failed {
            blamed: Names::from_vec(words_of(memory, fields)),
        }),
        "LaneMissing" => Some(Exit::LaneMissing {
            name: memory.text(fields),
        }),
        "LaneTwice" => Some(Exit::LaneTwice {
            name: memory.text(fields),
        }),
        "LaneAhead" => ahead(memory, fields),
        "LaneFault" => Some(Exit::LaneFault {
            name: memory.text(fields),
        }),
        "StackRefused" => stack_refused(memory, fields),
        _ => plain_exit(name, fields),
    }
}

/// An exit that takes no memory.
fn plain_exit(name: &str, fields: &str) -> Option<Exit> {
    match name {
        "Done" => Some(Exit::Done),
        "BadWords" => Some(Exit::BadWords),
        "LibraryFault" => Some(Exit::LibraryFault),
        "DiskFault" => Some(Exit::DiskFault),
        "SinkFault" => Some(Exit::SinkFault),
        "NoMemory" => Some(Exit::NoMemory),
        "NotAJournal" => Some(Exit::NotAJournal {
            offset: number_of(fields)?,
        }),
        "Full" => full(fields),
        _ => None,
    }
}

fn full(fields: &str) -> Option<Exit> {
    let (length, rest) = cut(fields);
    let (need, room) = cut(rest);
    Some(Exit::Full {
        length: number_of(length)?,
        need: number_of(need)?,
        room: number_of(room)?,
    })
}

fn ahead(memory: &mut Memory, fields: &str) -> Option<Exit> {
    let (name, rest) = cut(fields);
    let (fence, epoch) = cut(rest);
    match (number_of(fence), number_of(epoch)) {
        (Some(fence), Some(epoch)) => Some(Exit::LaneAhead {
            name: memory.text(name),
            fence,
            epoch,
        }),
        _ => None,
    }
}

fn stack_refused(memory: &mut Memory, fields: &str) -> Option<Exit> {
    let fault = match cut(fields) {
        ("NotFailed", path) => StackFault::NotFailed {
            path: memory.text(path),
        },
        ("TypeChanged", path) => StackFault::TypeChanged {
            path: memory.text(path),
        },
        ("ExportTaken", name) => StackFault::ExportTaken {
            name: memory.text(name),
        },
        ("ExportInUse", name) => StackFault::ExportInUse {
            name: memory.text(name),
        },
        _ => return plain_refusal(fields),
    };
    Some(Exit::StackRefused { fault })
}

/// A refusal of a stack that takes no memory.
fn plain_refusal(fields: &str) -> Option<Exit> {
    let fault = match cut(fields) {
        ("NoStack", "") => StackFault::NoStack,
        ("WrongStatus", name) => StackFault::WrongStatus {
            status: status_of(name)?,
        },
        ("NoChangeSet", number) => StackFault::NoChangeSet {
            number: number_of(number)?,
        },
        ("NoChanges", "") => StackFault::NoChanges,
        ("Outdated", number) => StackFault::Outdated {
            number: number_of(number)?,
        },
        _ => return None,
    };
    Some(Exit::StackRefused { fault })
}

fn status_of(name: &str) -> Option<Status> {
    for number in 1..=16 {
        if let Some(status) = Status::from_number(number) {
            if status.name() == name {
                return Some(status);
            }
        }
    }
    None
}

fn code_of(name: &str) -> Option<Code> {
    for number in 1..=14 {
        if let Some(code) = Code::from_number(number) {
            if code.name() == name {
                return Some(code);
            }
        }
    }
    None
}

fn rolled_back(memory: &mut Memory, fields: &str) -> Option<Exit> {
    let (word, rest) = cut(fields);
    let cause = match word {
        "Handler" => handler(memory, rest),
        "Plan" => Cause::Plan {
            fault: memory.text(rest),
        },
        "Export" => Cause::Export {
            name: memory.text(rest),
        },
        _ => return None,
    };
    Some(Exit::RolledBack { cause })
}

fn handler(memory: &mut Memory, fields: &str) -> Cause {
    let (path, word) = cut(fields);
    let reason = match code_of(word) {
        Some(code) => Reason::Code(code),
        None => Reason::Fault,
    };
    Cause::Handler {
        path: memory.text(path),
        reason,
    }
}

fn refused(memory: &mut Memory, fields: &str, words: &str) -> Option<Exit> {
    let (word, rest) = cut(fields);
    match word {
        "Read" => unread(memory, rest),
        "Plan" => match flaw(memory, rest, words) {
            Some(fault) => refusal(Refusal::Plan { fault }),
            None => None,
        },
        "NotYet" => refusal(Refusal::NotYet {
            name: memory.text(rest),
        }),
        "UnknownType" => {
            let (path, name) = cut(rest);
            refusal(Refusal::UnknownType {
                path: memory.text(path),
                name: memory.text(name),
            })
        }
        _ => None,
    }
}

fn refusal(fault: Refusal) -> Option<Exit> {
    Some(Exit::TemplateRefused { fault })
}

/// Why a text is no template.
fn unread(memory: &mut Memory, fields: &str) -> Option<Exit> {
    let (name, text) = cut(fields);
    match read_template(memory.alloc, text.as_bytes()) {
        Ok(template) => {
            drop(template);
            None
        }
        Err(fault) => refusal(Refusal::Read {
            name: memory.text(name),
            fault,
        }),
    }
}

/// The first flaw of a template, or that of a nested stack by its name.
fn flaw(memory: &mut Memory, fields: &str, words: &str) -> Option<Flaw> {
    let (word, rest) = cut(fields);
    match word {
        "Shape" => Some(Flaw::Shape {
            path: memory.text(rest),
        }),
        "TooDeep" => Some(Flaw::TooDeep {
            path: memory.text(rest),
        }),
        "TooMany" => too_many(rest),
        "DynamicCondition" => {
            let (path, name) = cut(rest);
            Some(Flaw::DynamicCondition {
                path: memory.text(path),
                name: memory.text(name),
            })
        }
        "DynamicTemplate" => Some(Flaw::DynamicTemplate {
            path: memory.text(rest),
        }),
        _ => first_flaw(memory, fields, words),
    }
}

fn too_many(count: &str) -> Option<Flaw> {
    match number_of(count) {
        Some(count) => Some(Flaw::TooMany { count }),
        None => None,
    }
}
