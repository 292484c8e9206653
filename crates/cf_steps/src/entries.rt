//! The entries of a journal, read from their lines.
use crate::library::Library;
use crate::words::Words;
use cf_entry::{Begun, Cause, Entry, LaneNames, Phase, Reason, Reply, Status, Why};
use cf_tree::{Code, Request, Rows, TryClone, Txt};

const WHYS: [(&str, Why); 3] = [
    ("retained", Why::Retained),
    ("failed", Why::Failed),
    ("doubt", Why::Doubt),
];

const OUTPUTS: [(&str, bool); 2] = [("changed", true), ("same", false)];

/// The entry of a line; but where the line tells another number, it is of the operation of this one.
pub fn entry_of(words: &mut Words, library: &Library, number: u64) -> Entry {
    match words.rest.split_once(": ") {
        Some((other, rest)) => match other.parse::<u64>() {
            Ok(other) => {
                words.rest = rest;
                numbered(words, library, other)
            }
            Err(_) => numbered(words, library, number),
        },
        None => numbered(words, library, number),
    }
}

/// The entry of a line, of the operation of this number.
fn numbered(words: &mut Words, library: &Library, number: u64) -> Entry {
    match words.word() {
        "opened" => opened(words, library),
        "begin" => begun(words, library),
        "ask" => intended(words, library, number),
        "told" => answered(words, number),
        "kept" => Entry::Kept {
            number,
            path: words.name(),
            physical: words.path(),
            why: words.one_of(&WHYS, Why::Doubt),
        },
        "turn" => turned(words, number),
        "done" => Entry::Done {
            number,
            status: status_of(words),
            failed: words.names(),
        },
        "changeset" => reviewed(words, library),
        _ => blank(words),
    }
}

/// The entry of a line that is none.
fn blank(words: &mut Words) -> Entry {
    words.refuse();
    Entry::Opened {
        epoch: 0,
        lanes: LaneNames::new(words.memory.alloc),
    }
}

/// `EPOCH LANE ..`
fn opened(words: &mut Words, library: &Library) -> Entry {
    let epoch = words.number();
    let mut lanes = LaneNames::new(words.memory.alloc);
    for name in words.rest.split_whitespace() {
        let kind = words.memory.text(library.kind_of(name));
        let name = words.memory.text(name);
        if lanes.push((name, kind)).is_err() {
            words.memory.lose();
        }
    }
    Entry::Opened { epoch, lanes }
}

/// `NUMBER STACK KIND ..`
fn begun(words: &mut Words, library: &Library) -> Entry {
    let number = words.number();
    let stack = words.word();
    Entry::Begin {
        number,
        stack: words.memory.text(stack),
        kind: begun_kind(words, library, stack),
    }
}

/// What begins on a stack.
fn begun_kind(words: &mut Words, library: &Library, stack: &str) -> Begun {
    match words.word() {
        "create" => Begun::Create {
            source: library.source(words, stack),
        },
        "update" => Begun::Update {
            source: library.source(words, stack),
        },
        "delete" => Begun::Delete {
            paths: words.names(),
        },
        "continue" => Begun::Continue {
            paths: words.names(),
        },
        _ => {
            words.refuse();
            Begun::Delete {
                paths: words.names(),
            }
        }
    }
}

/// `TOKEN LANE PATH REQUEST`
fn intended(words: &mut Words, library: &Library, number: u64) -> Entry {
    let token = words.number();
    let lane = words.word();
    Entry::Intent {
        number,
        token,
        lane: words.memory.text(lane),
        path: words.name(),
        request: request_of(words, library.kind_of(lane)),
    }
}

/// `create TYPE PROPERTY ..`, `update ID PROPERTY ..` or `delete ID`. The type may be left out, and is that of the lane then.
fn request_of(words: &mut Words, kind: &str) -> Request {
    match words.word() {
        "create" => Request::Create {
            kind: kind_of(words, kind),
            props: words.props(),
        },
        "update" => Request::Update {
            physical: words.name(),
            props: words.props(),
        },
        "delete" => Request::Delete {
            physical: words.memory.text(words.rest),
        },
        _ => {
            words.refuse();
            Request::Delete {
                physical: words.name(),
            }
        }
    }
}

/// The type of a line, or this one where the line has a property or nothing.
fn kind_of(words: &mut Words, usual: &str) -> Txt {
    let (word, _) = words.rest.split_once(' ').unwrap_or((words.rest, ""));
    let is_value = word.contains(':') && !word.contains("::");
    if word.is_empty() || word.contains('=') || is_value {
        words.memory.text(usual)
    } else {
        words.name()
    }
}

/// `TOKEN ANSWER BEFORE AFTER ATTRIBUTE ..`, an answer being `success ID`, `failed CODE` or `doubt`.
fn answered(words: &mut Words, number: u64) -> Entry {
    let token = words.number();
    let word = words.word();
    let told = match word {
        "doubt" => "",
        _ => words.word(),
    };
    let before = words.number();
    let after = words.number();
    Entry::Outcome {
        number,
        token,
        answer: reply_of(words, word, told),
        before,
        after,
    }
}

/// An answer of this kind, with what was told of it.
fn reply_of(words: &mut Words, kind: &str, told: &str) -> Reply {
    match kind {
        "success" => Reply::Success {
            physical: words.memory.text(told),
            attrs: words.props(),
        },
        "failed" => Reply::Failed {
            code: code_of(words, told),
        },
        "doubt" => Reply::Doubt,
        _ => {
            words.refuse();
            Reply::Doubt
        }
    }
}

/// `back CAUSE`, `clean` or `backclean`
fn turned(words: &mut Words, number: u64) -> Entry {
    let (phase, cause) = match words.word() {
        "back" => (Phase::Back, Some(cause_of(words))),
        "clean" => (Phase::Clean, None),
        "backclean" => (Phase::BackClean, None),
        _ => {
            words.refuse();
            (Phase::Clean, None)
        }
    };
    Entry::Phase {
        number,
        phase,
        cause,
    }
}

/// `Handler PATH CODE`, `Plan TEXT` or `Export NAME`
pub fn cause_of(words: &mut Words) -> Cause {
    match words.word() {
        "Handler" => Cause::Handler {
            path: words.name(),
            reason: reason_of(words),
        },
        "Plan" => Cause::Plan {
            fault: words.memory.text(words.rest),
        },
        "Export" => Cause::Export {
            name: words.memory.text(words.rest),
        },
        _ => {
            words.refuse();
            Cause::Export { name: words.name() }
        }
    }
}

/// A code, or `Fault`.
fn reason_of(words: &mut Words) -> Reason {
    match words.word() {
        "Fault" => Reason::Fault,
        word => Reason::Code(code_of(words, word)),
    }
}

/// The code of a name.
fn code_of(words: &mut Words, name: &str) -> Code {
    for number in 1..15 {
        if let Some(code) = Code::from_number(number) {
            if code.name() == name {
                return code;
            }
        }
    }
    words.refuse();
    Code::NotFound
}

/// The status of the next word.
fn status_of(words: &mut Words) -> Status {
    let name = words.word();
    for number in 1..17 {
        if let Some(status) = Status::from_number(number) {
            if status.name() == name {
                return status;
            }
        }
    }
    words.refuse();
    Status::CreateComplete
}

/// `NUMBER STACK OUTPUTS SOURCE`, with the rows that were read before.
fn reviewed(words: &mut Words, library: &Library) -> Entry {
    let number = words.number();
    let stack = words.word();
    let outputs = words.one_of(&OUTPUTS, false);
    Entry::ChangeSet {
        number,
        stack: words.memory.text(stack),
        source: library.source(words, stack),
        rows: rows_of(words, library),
        outputs,
    }
}

/// A copy of the rows that were read.
fn rows_of(words: &mut Words, library: &Library) -> Rows {
    match library.rows.try_clone(words.memory.alloc) {
        Ok(rows) => rows,
        Err(_) => {
            words.memory.lose();
            Rows::new(words.memory.alloc)
        }
    }
}
