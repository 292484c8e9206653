//! Names, properties and what entries hold, written as the lines of entries have them.
use crate::library::Library;
use crate::line::Line;
use cf_entry::{Begun, Cause, Entry, LaneNames, Phase, Reason, Reply, Why};
use cf_tree::{Dict, Names, Pairs, Request, Source, Val};

/// Adds names.
pub fn add_names(line: &mut Line, names: &Names) {
    for name in names.as_slice() {
        line.word(name.as_str());
    }
}

/// Adds pairs as `NAME=VALUE`.
fn add_pairs(line: &mut Line, pairs: &Pairs) {
    for pair in pairs.as_slice() {
        line.word(pair.0.as_str());
        line.put("=");
        line.put(pair.1.as_str());
    }
}

/// Adds a text as a part of a word, with `\s` for a blank, `\n` for a line feed and `\\` for a backslash.
fn add_text(line: &mut Line, text: &str) {
    for letter in text.chars() {
        match letter {
            ' ' => line.put("\\s"),
            '\n' => line.put("\\n"),
            '\\' => line.put("\\\\"),
            _ => line.letter(letter),
        }
    }
}

/// Adds properties: a text behind `=`, a whole number or a truth value behind a colon, and of others the name alone.
pub fn add_props(line: &mut Line, props: &Dict) {
    for pair in props.as_slice() {
        line.word(pair.name.as_str());
        match &pair.value {
            Val::Text(text) => {
                line.put("=");
                add_text(line, text.as_str());
            }
            Val::Whole(number) => line.whole(*number),
            Val::Truth(truth) => line.put(if *truth { ":true" } else { ":false" }),
            Val::List(_) => {}
            Val::Dict(_) => {}
        }
    }
}

/// Adds a request, with the type of what is created where it is not this one.
pub fn add_request(line: &mut Line, usual: &str, request: &Request) {
    match request {
        Request::Create { kind, props } => {
            line.word("create");
            if kind.as_str() != usual {
                line.word(kind.as_str());
            }
            add_props(line, props);
        }
        Request::Update { physical, props } => {
            line.word("update");
            line.word(physical.as_str());
            add_props(line, props);
        }
        Request::Delete { physical } => {
            line.word("delete");
            line.word(physical.as_str());
        }
    }
}

/// Adds a source, as the line of a beginning has it.
pub fn add_source(line: &mut Line, source: &Source) {
    line.word(source.root.as_str());
    for text in source.texts.as_slice() {
        if text.0 != source.root {
            line.word(text.0.as_str());
        }
    }
    add_pairs(line, &source.given);
    if !source.imports.is_empty() {
        line.word("imports");
        add_pairs(line, &source.imports);
    }
}

/// Why a resource is left over.
pub fn why_word(why: Why) -> &'static str {
    match why {
        Why::Retained => "retained",
        Why::Failed => "failed",
        Why::Doubt => "doubt",
    }
}

/// Why a phase failed.
pub fn reason_word(reason: Reason) -> &'static str {
    match reason {
        Reason::Code(code) => code.name(),
        Reason::Fault => "Fault",
    }
}

/// Adds a cause, as the line of a phase has it.
pub fn add_cause(line: &mut Line, cause: &Cause) {
    match cause {
        Cause::Handler { path, reason } => {
            line.word("Handler");
            line.word(path.as_str());
            line.word(reason_word(*reason));
        }
        Cause::Plan { fault } => {
            line.word("Plan");
            line.word(fault.as_str());
        }
        Cause::Export { name } => {
            line.word("Export");
            line.word(name.as_str());
        }
    }
}

/// The word of a phase.
pub fn phase_word(phase: Phase) -> &'static str {
    match phase {
        Phase::Back => "back",
        Phase::Clean => "clean",
        Phase::BackClean => "backclean",
    }
}

/// Adds a phase, with why it was entered where it has that.
pub fn add_turn(line: &mut Line, phase: Phase, cause: Option<&Cause>) {
    line.word("turn");
    line.word(phase_word(phase));
    if let Some(cause) = cause {
        add_cause(line, cause);
    }
}

/// Adds a resource that is kept; the id is `-` where it is not known.
pub fn add_kept(line: &mut Line, path: &str, physical: &str, why: Why) {
    line.word("kept");
    line.word(path);
    line.word(if physical.is_empty() { "-" } else { physical });
    line.word(why_word(why));
}

/// Adds an opening.
fn add_opened(line: &mut Line, epoch: u64, lanes: &LaneNames) {
    line.word("opened");
    line.number(epoch);
    for lane in lanes.as_slice() {
        line.word(lane.0.as_str());
    }
}

/// Adds what begins.
fn add_begun(line: &mut Line, kind: &Begun) {
    match kind {
        Begun::Create { source } => {
            line.word("create");
            add_source(line, source);
        }
        Begun::Update { source } => {
            line.word("update");
            add_source(line, source);
        }
        Begun::Delete { paths } => {
            line.word("delete");
            add_names(line, paths);
        }
        Begun::Continue { paths } => {
            line.word("continue");
            add_names(line, paths);
        }
    }
}

/// Adds an answer with the counts around its call, and the attributes behind them.
fn add_reply(line: &mut Line, answer: &Reply, before: u64, after: u64) {
    match answer {
        Reply::Success { physical, .. } => {
            line.word("success");
            line.word(physical.as_str());
        }
        Reply::Failed { code } => {
            line.word("failed");
            line.word(code.name());
        }
        Reply::Doubt => line.word("doubt"),
    }
    line.number(before);
    line.number(after);
    if let Reply::Success { attrs, .. } = answer {
        add_props(line, attrs);
    }
}

/// Adds an entry as its line, without the number of its operation where it is no beginning.
pub fn add_entry(line: &mut Line, library: &Library, entry: &Entry) {
    match entry {
        Entry::Opened { epoch, lanes } => add_opened(line, *epoch, lanes),
        Entry::Begin {
            number,
            stack,
            kind,
        } => {
            line.word("begin");
            line.number(*number);
            line.word(stack.as_str());
            add_begun(line, kind);
        }
        Entry::Kept {
            path,
            physical,
            why,
            ..
        } => add_kept(line, path.as_str(), physical.as_str(), *why),
        Entry::Intent {
            token,
            lane,
            path,
            request,
            ..
        } => {
            line.word("ask");
            line.number(*token);
            line.word(lane.as_str());
            line.word(path.as_str());
            add_request(line, library.kind_of(lane.as_str()), request);
        }
        _ => add_later_entry(line, entry),
    }
}

/// Adds an entry that answers, turns or ends, or a change set.
fn add_later_entry(line: &mut Line, entry: &Entry) {
    match entry {
        Entry::Outcome {
            token,
            answer,
            before,
            after,
            ..
        } => {
            line.word("told");
            line.number(*token);
            add_reply(line, answer, *before, *after);
        }
        Entry::Phase { phase, cause, .. } => add_turn(line, *phase, cause.as_ref()),
        Entry::Done { status, failed, .. } => {
            line.word("done");
            line.word(status.name());
            add_names(line, failed);
        }
        _ => line.word("another entry"),
    }
}
