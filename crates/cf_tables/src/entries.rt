//! Entries of the journal, from their bytes.
//!
//! A row has the bytes between spaces: pairs of hexadecimal digits, and in quotes those of a text. The answer is the entry
//! that they are, if writing it gives the same bytes again.
use crate::json::push_object;
use crate::told::Told;
use cf_entry::{Begun, Cause, Entry, Reason, Reply, Why, entry_size, read_entry, write_entry};
use cf_rows::Memory;
use cf_tree::{Dict, Request, Row, Source, Txt};
use std::alloc::{AllocError, Global};

/// The entry that bytes are.
pub fn entry_line(told: &mut Told, row: &str) {
    let bytes = bytes_of(&mut told.memory, row);
    match read_entry(told.memory.alloc, bytes.as_slice()) {
        Ok(Some(entry)) => {
            line_of(told, &entry, bytes.as_slice());
            drop(entry);
        }
        Ok(None) => told.put("no entry"),
        Err(_) => told.memory.lose(),
    }
    drop(bytes);
}

fn line_of(told: &mut Told, entry: &Entry, bytes: &[u8]) {
    match is_written(told.memory.alloc, entry, bytes) {
        Ok(true) => tell(told, entry),
        Ok(false) => told.put("other bytes"),
        Err(_) => told.memory.lose(),
    }
}

fn bytes_of(memory: &mut Memory, row: &str) -> Vec<u8> {
    let mut bytes = Vec::new(memory.alloc);
    for word in row.split(' ') {
        match word.strip_prefix('"') {
            Some(text) => {
                let text = text.strip_suffix('"').unwrap_or(text);
                memory.note(bytes.extend_from_slice(text.as_bytes()).is_err());
            }
            None => add_digits(memory, &mut bytes, word),
        }
    }
    bytes
}

/// Adds the bytes that pairs of hexadecimal digits are.
fn add_digits(memory: &mut Memory, bytes: &mut Vec<u8>, word: &str) {
    let mut high = None;
    for digit in word.as_bytes() {
        match high {
            None => high = Some(value_of(*digit)),
            Some(first) => {
                memory.note(bytes.push((first << 4) | value_of(*digit)).is_err());
                high = None;
            }
        }
    }
}

fn value_of(digit: u8) -> u8 {
    match digit {
        b'0'..=b'9' => digit - b'0',
        b'a'..=b'f' => digit - b'a' + 10,
        _ => 0,
    }
}

fn is_written(alloc: Global, entry: &Entry, bytes: &[u8]) -> Result<bool, AllocError> {
    let size = entry_size(entry);
    if size >= 1 << 32 {
        return Ok(false);
    }
    let mut written = Vec::with_capacity(alloc, size as usize)?;
    write_entry(entry, &mut written);
    let same = written.as_slice() == bytes;
    drop(written);
    Ok(same)
}

fn tell(told: &mut Told, entry: &Entry) {
    match entry {
        Entry::Opened { epoch, lanes } => opened(told, *epoch, lanes.as_slice()),
        Entry::Begin {
            number,
            stack,
            kind,
        } => {
            numbered(told, "Begin", *number);
            told.word(stack.as_str());
            begun(told, kind);
        }
        Entry::Kept {
            number,
            path,
            physical,
            why,
        } => {
            numbered(told, "Kept", *number);
            told.word(path.as_str());
            told.word(physical.as_str());
            told.word(why_word(*why));
        }
        Entry::Intent {
            number,
            token,
            lane,
            path,
            request,
        } => {
            numbered(told, "Intent", *number);
            told.number_word(*token);
            told.word(lane.as_str());
            told.word(path.as_str());
            asked(told, request);
        }
        _ => tell_after(told, entry),
    }
}

/// Adds a word, and a number behind a space.
fn numbered(told: &mut Told, word: &str, number: u64) {
    told.put(word);
    told.put(" ");
    told.number(number);
}

/// What follows an intent, or is a change set.
fn tell_after(told: &mut Told, entry: &Entry) {
    match entry {
        Entry::Outcome {
            number,
            token,
            answer,
            before,
            after,
        } => {
            numbered(told, "Outcome", *number);
            told.number_word(*token);
            answered(told, answer);
            told.number_word(*before);
            told.number_word(*after);
        }
        Entry::Phase {
            number,
            phase,
            cause,
        } => {
            numbered(told, "Phase", *number);
            told.number_word(phase.number() as u64);
            turned(told, cause);
        }
        Entry::Done {
            number,
            status,
            failed,
        } => {
            numbered(told, "Done", *number);
            told.word(status.name());
            told.put(" ");
            told.names(failed.as_slice());
        }
        Entry::ChangeSet {
            number,
            stack,
            source,
            rows,
            outputs,
        } => {
            numbered(told, "ChangeSet", *number);
            told.word(stack.as_str());
            sourced(told, source);
            changes(told, rows.as_slice());
            told.put(if *outputs {
                " outputs differ"
            } else {
                " outputs stay"
            });
        }
        _ => told.put("another entry"),
    }
}

fn opened(told: &mut Told, epoch: u64, lanes: &[(Txt, Txt)]) {
    numbered(told, "Opened", epoch);
    for lane in lanes {
        told.word(lane.0.as_str());
        told.word(lane.1.as_str());
    }
}

fn begun(told: &mut Told, kind: &Begun) {
    match kind {
        Begun::Create { source } => {
            told.word("Create");
            sourced(told, source);
        }
        Begun::Update { source } => {
            told.word("Update");
            sourced(told, source);
        }
        Begun::Delete { paths } => {
            told.word("Delete ");
            told.names(paths.as_slice());
        }
        Begun::Continue { paths } => {
            told.word("Continue ");
            told.names(paths.as_slice());
        }
    }
}

/// A source: its root, its texts by name, what is given, how many imports it has, and its stack and number.
fn sourced(told: &mut Told, source: &Source) {
    told.named(" ", &source.root);
    numbered(told, " of", source.texts.len() as u64);
    for pair in source.given.as_slice() {
        told.word(pair.0.as_str());
        told.put("=");
        told.put(pair.1.as_str());
    }
    numbered(told, " imports", source.imports.len() as u64);
    told.word("in");
    told.word(source.stack.as_str());
    told.number_word(source.number);
}

fn why_word(why: Why) -> &'static str {
    match why {
        Why::Retained => "Retained",
        Why::Failed => "Failed",
        Why::Doubt => "Doubt",
    }
}

fn asked(told: &mut Told, request: &Request) {
    match request {
        Request::Create { kind, props } => named(told, "create", kind, props),
        Request::Update { physical, props } => named(told, "update", physical, props),
        Request::Delete { physical } => {
            told.word("delete");
            told.word(physical.as_str());
        }
    }
}

/// Adds a word, a name, and properties as JSON.
fn named(told: &mut Told, word: &str, name: &Txt, props: &Dict) {
    told.word(word);
    told.word(name.as_str());
    told.put(" ");
    push_object(told, props);
}

fn answered(told: &mut Told, reply: &Reply) {
    match reply {
        Reply::Success { physical, attrs } => named(told, "success", physical, attrs),
        Reply::Failed { code } => {
            told.word("failed");
            told.word(code.name());
        }
        Reply::Doubt => told.word("doubt"),
    }
}

fn turned(told: &mut Told, cause: &Option<Cause>) {
    match cause {
        Some(Cause::Handler { path, reason }) => {
            told.word("Handler");
            told.word(path.as_str());
            told.word(reason_word(*reason));
        }
        Some(Cause::Plan { fault }) => {
            told.word("Plan");
            told.word(fault.as_str());
        }
        Some(Cause::Export { name }) => {
            told.word("Export");
            told.word(name.as_str());
        }
        None => {}
    }
}

fn reason_word(reason: Reason) -> &'static str {
    match reason {
        Reason::Code(code) => code.name(),
        Reason::Fault => "Fault",
    }
}

/// The paths of rows, each with the number of its details.
fn changes(told: &mut Told, rows: &[Row]) {
    told.word("rows");
    for row in rows {
        told.word(row.path.as_str());
        told.number_word(row.details.len() as u64);
    }
}
