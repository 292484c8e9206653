//! The entries of a journal as lines:
//!
//! `opened EPOCH LANE ..`, `begin NUMBER STACK KIND`, `ask TOKEN LANE PATH REQUEST`, `told TOKEN ANSWER BEFORE AFTER`,
//! `turn PHASE CAUSE`, `done STATUS PATH ..`.
use crate::words::Line;
use cf_entry::{Begun, Cause, Entry, LaneNames, Phase, Reason, Reply};
use cf_tree::Source;

/// Adds the line of an entry.
pub fn add_entry(line: &mut Line, entry: &Entry) {
    match entry {
        Entry::Opened { epoch, lanes } => add_opened(line, *epoch, lanes),
        Entry::Begin {
            number,
            stack,
            kind,
        } => {
            line.put("begin");
            line.number_word(*number);
            line.word(stack.as_str());
            add_begun(line, kind);
        }
        Entry::Intent {
            number: _,
            token,
            lane,
            path,
            request,
        } => {
            line.put("ask");
            line.number_word(*token);
            line.word(lane.as_str());
            line.word(path.as_str());
            line.request(request);
        }
        Entry::Outcome {
            number: _,
            token,
            answer,
            before,
            after,
        } => add_outcome(line, *token, answer, *before, *after),
        Entry::Phase { phase, cause, .. } => add_phase(line, phase, cause),
        Entry::Done { status, failed, .. } => {
            line.put("done");
            line.word(status.name());
            line.names(failed);
        }
        Entry::Kept { path, .. } => {
            line.put("kept");
            line.word(path.as_str());
        }
        Entry::ChangeSet { stack, .. } => {
            line.put("changeset");
            line.word(stack.as_str());
        }
    }
}

/// Adds an opening: its epoch, and the names of its lanes.
fn add_opened(line: &mut Line, epoch: u64, lanes: &LaneNames) {
    line.put("opened");
    line.number_word(epoch);
    for lane in lanes.as_slice() {
        line.word(lane.0.as_str());
    }
}

/// Adds what begins, and what is given for it.
fn add_begun(line: &mut Line, kind: &Begun) {
    match kind {
        Begun::Create { source } => {
            line.word("create");
            add_source(line, source);
        }
        Begun::Update { source } => {
            line.word("update");
            add_source(line, source);
        }
        Begun::Delete { paths } => {
            line.word("delete");
            line.names(paths);
        }
        Begun::Continue { paths } => {
            line.word("continue");
            line.names(paths);
        }
    }
}

/// Adds the name of the template, and the given parameters, each as `NAME=TEXT`.
fn add_source(line: &mut Line, source: &Source) {
    line.word(source.root.as_str());
    for pair in source.given.as_slice() {
        line.word(pair.0.as_str());
        line.put("=");
        line.put(pair.1.as_str());
    }
}

/// Adds a token, its answer, and the lane's count of faults before and after the call.
fn add_outcome(line: &mut Line, token: u64, answer: &Reply, before: u64, after: u64) {
    line.put("told");
    line.number_word(token);
    match answer {
        Reply::Success { physical, attrs: _ } => {
            line.word("success");
            line.word(physical.as_str());
        }
        Reply::Failed { code } => {
            line.word("failed");
            line.word(code.name());
        }
        Reply::Doubt => line.word("doubt"),
    }
    line.number_word(before);
    line.number_word(after);
}

/// Adds a phase with its cause.
fn add_phase(line: &mut Line, phase: &Phase, cause: &Option<Cause>) {
    line.put(match phase {
        Phase::Back => "turn back",
        Phase::Clean => "turn clean",
        Phase::BackClean => "turn backclean",
    });
    if let Some(cause) = cause {
        add_cause(line, cause);
    }
}

/// Adds a cause.
fn add_cause(line: &mut Line, cause: &Cause) {
    match cause {
        Cause::Handler { path, reason } => {
            line.word("Handler");
            line.word(path.as_str());
            line.word(match reason {
                Reason::Code(code) => code.name(),
                Reason::Fault => "Fault",
            });
        }
        Cause::Plan { fault } => {
            line.word("Plan");
            line.word(fault.as_str());
        }
        Cause::Export { name } => {
            line.word("Export");
            line.word(name.as_str());
        }
    }
}
