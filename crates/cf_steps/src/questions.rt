//! What a row asks.
use crate::entries::entry_of;
use crate::flaws::add_flaw_of;
use crate::forward::{Question, add_phase};
use crate::library::Library;
use crate::line::Line;
use crate::stacks::{add_lines, add_stack};
use crate::steps::{add_coming, schemas_in};
use crate::wishes::{add_deployment, add_wish};
use crate::words::Words;
use crate::worlds::Stepped;
use cf_entry::{Entries, Entry};
use cf_export::Pins;
use cf_face::{Exit, list_report};
use cf_stacks::{World, fold};
use cf_tree::{TryClone, Txt};
use std::alloc::{AllocError, Global};
use std::mem;

/// What is asked over: a journal, and what the sections of its table share.
#[derive(Clone, Copy)]
pub struct Asked<'a> {
    pub library: &'a Library,
    pub journal: &'a Entries,
}

/// The number and the stack of the last operation of a journal.
fn last_begun(journal: &Entries) -> Option<(u64, &Txt)> {
    let mut last = None;
    for entry in journal.as_slice() {
        if let Entry::Begin { number, stack, .. } = entry {
            last = Some((*number, stack));
        }
    }
    last
}

/// The number of the last operation of a journal, and 0 where none has begun.
pub fn last_number(journal: &Entries) -> u64 {
    match last_begun(journal) {
        Some((number, _)) => number,
        None => 0,
    }
}

/// The number of the operation that a question is of: the one of its words `of NUMBER`, and the last one where it has none.
fn number_asked(words: &mut Words, journal: &Entries) -> u64 {
    match words.rest.strip_prefix("of ") {
        Some(rest) => {
            words.rest = rest;
            words.number()
        }
        None => last_number(journal),
    }
}

/// The last numbers.
fn add_numbers(line: &mut Line, world: &World) {
    let numbers = [
        ("epoch", world.epoch()),
        ("operation", world.operation()),
        ("set", world.set()),
        ("token", world.token()),
    ];
    for (name, number) in numbers {
        line.word(name);
        line.number(number);
    }
}

/// The lanes of the last opening.
fn add_lanes(line: &mut Line, world: &World) {
    for lane in world.lanes().as_slice() {
        line.member();
        line.word(lane.0.as_str());
        line.word(lane.1.as_str());
    }
}

/// The names of all stacks.
fn add_stacks(line: &mut Line, world: &World) {
    for stack in world.stacks().as_slice() {
        line.member();
        line.word(stack.0.as_str());
    }
}

/// The exports of all stacks.
fn add_exports(line: &mut Line, world: &World) {
    for export in world.exports().as_slice() {
        line.member();
        line.word(export.stack.as_str());
        line.word(export.name.as_str());
        line.word(export.value.as_str());
    }
}

/// Which stack pins or claims which name.
fn add_pins(line: &mut Line, pins: &Pins) {
    for pin in pins.as_slice() {
        line.member();
        line.word(pin.stack.as_str());
        line.word(pin.name.as_str());
    }
}

/// Whether one of the lanes has a schema of a type.
fn add_schema(line: &mut Line, words: &mut Words, library: &Library, world: &World) {
    let kind = words.rest;
    let schemas = schemas_in(words, library, world);
    line.word(if schemas.find(kind).is_some() {
        "yes"
    } else {
        "no"
    });
    drop(schemas);
}

/// What is asked of the phase of the last operation.
fn add_of_phase(line: &mut Line, words: &mut Words, asked: &Asked, world: &World, word: &str) {
    match last_begun(asked.journal) {
        Some((_, name)) => match world.stack(name.as_str()) {
            Some(stack) => {
                let path = words.memory.text(words.rest);
                let schemas = schemas_in(words, asked.library, world);
                let question = Question {
                    word,
                    path: &path,
                    name,
                    world,
                    schemas: &schemas,
                };
                add_phase(line, &question, stack);
                drop(schemas);
            }
            None => line.word("no stack"),
        },
        None => line.word("no operation"),
    }
}

/// What is asked of one stack.
fn add_of_stack(line: &mut Line, words: &mut Words, asked: &Asked, world: &World, word: &str) {
    let name = words.name();
    match world.stack(name.as_str()) {
        Some(stack) => add_stack(line, words, asked.library, word, &name, stack),
        None => line.word("no stack"),
    }
}

/// Adds the answer to the question of a line.
fn add_answer(line: &mut Line, words: &mut Words, asked: &Asked, world: &mut World) {
    match words.word() {
        "stacks" => add_stacks(line, world),
        "list" => add_lines(line, list_report(line.alloc, world.stacks(), &Exit::Done)),
        "numbers" => add_numbers(line, world),
        "lanes" => add_lanes(line, world),
        "exports" => add_exports(line, world),
        "pins" => add_pins(line, world.pins()),
        "claims" => add_pins(line, world.claims()),
        "schema" => add_schema(line, words, asked.library, world),
        "prepare" => add_deployment(line, words, asked.library, world),
        "wish" => add_wish(line, words, asked.library, world),
        "flaw" => add_flaw_of(line, words),
        word => add_of_operation(line, words, asked, world, word),
    }
}

/// Adds the answer to a question about the last operation, or about a stack.
fn add_of_operation(
    line: &mut Line,
    words: &mut Words,
    asked: &Asked,
    world: &mut World,
    word: &str,
) {
    match word {
        "next" | "due" => {
            let number = number_asked(words, asked.journal);
            add_coming(line, words, asked.library, world, word, number);
        }
        "failure" | "done" | "starts" | "wants" | "finding" | "right" | "failing" | "blamed" => {
            add_of_phase(line, words, asked, world, word);
        }
        _ => add_of_stack(line, words, asked, world, word),
    }
}

/// The answer to a question over a world.
fn over(
    alloc: Global,
    asked: &Asked,
    world: &mut World,
    question: &str,
) -> Result<String, AllocError> {
    let mut words = Words::new(alloc, question);
    let mut line = Line::new(alloc);
    add_answer(&mut line, &mut words, asked, world);
    if words.are_read()? {
        line.finish()
    } else {
        String::from_str(alloc, "no such question")
    }
}

/// The answer over the world that is folded: of a journal that has not changed since the last question that one stays.
fn over_folded(
    alloc: Global,
    asked: &Asked,
    folded: &mut Option<World>,
    question: &str,
) -> Result<String, AllocError> {
    let mut world = match folded.take() {
        Some(world) => world,
        None => fold(alloc, asked.journal.try_clone(alloc)?)?,
    };
    let text = over(alloc, asked, &mut world, question);
    drop(mem::replace(folded, Some(world)));
    text
}

/// Makes room for the entry of a line, where there is a line.
fn make_room(
    alloc: Global,
    asked: &Asked,
    stepped: &mut Stepped,
    line: &str,
) -> Result<(), AllocError> {
    if line.is_empty() {
        return Ok(());
    }
    let mut words = Words::new(alloc, line);
    let entry = entry_of(&mut words, asked.library, last_number(asked.journal));
    stepped.make_room(&mut words, &entry);
    drop(entry);
    match words.are_read() {
        Ok(_) => Ok(()),
        Err(failed) => Err(failed),
    }
}

/// The answer to a row's question: over the world that is folded and the one that is stepped to, which have to give the same.
pub fn answer(
    alloc: Global,
    asked: &Asked,
    folded: &mut Option<World>,
    stepped: &mut Stepped,
    question: &str,
) -> Result<String, AllocError> {
    let (question, entry) = question
        .split_once(" with room for ")
        .unwrap_or((question, ""));
    make_room(alloc, asked, stepped, entry)?;
    let folded = over_folded(alloc, asked, folded, question)?;
    let stepped = over(alloc, asked, stepped.world(), question)?;
    if folded == stepped {
        return Ok(folded);
    }
    let folded = folded.as_str();
    let stepped = stepped.as_str();
    format!(in alloc; "folded {folded}, stepped {stepped}")
}
