//! Command lines.
use crate::pieces::words_of;
use crate::told::Told;
use cf_face::{Command, read_words, read_workers};
use cf_tree::{Names, Pairs, Txt};

/// What the words of a line ask for. Words are cut at each space; an empty line has none.
pub fn command_line(told: &mut Told, line: &str) {
    let words = words_of(&mut told.memory, line);
    let command = read_words(told.memory.alloc, words.as_slice());
    drop(words);
    match command {
        Ok(Some(command)) => {
            command_text(told, &command);
            drop(command);
        }
        Ok(None) => told.put("none"),
        Err(_) => told.memory.lose(),
    }
}

fn command_text(told: &mut Told, command: &Command) {
    match command {
        Command::Deploy {
            stack,
            template,
            given,
        } => chosen(told, "deploy ", stack, template, given),
        Command::ContinueRollback { stack, paths } => continuation(told, stack, paths),
        Command::Resume { stack } => told.named("resume ", stack),
        Command::Load { count } => {
            told.put("load ");
            told.number(*count as u64);
        }
        Command::Describe { stack } => told.named("describe ", stack),
        Command::Events { stack } => told.named("events ", stack),
        Command::List => told.put("list"),
        Command::Validate { template } => told.named("validate ", template),
        Command::CreateSet {
            stack,
            template,
            given,
        } => chosen(told, "create-change-set ", stack, template, given),
        Command::DescribeSet { stack, number } => {
            numbered_set(told, "describe-change-set ", stack, *number)
        }
        Command::ExecuteSet { stack, number } => {
            numbered_set(told, "execute-change-set ", stack, *number)
        }
    }
}

/// A command on a change set of a stack.
fn numbered_set(told: &mut Told, command: &str, stack: &Txt, number: u64) {
    told.named(command, stack);
    told.put(" ");
    told.number(number);
}

/// A command on a template for a stack, with what is given by name.
fn chosen(told: &mut Told, command: &str, stack: &Txt, template: &Txt, given: &Pairs) {
    told.named(command, stack);
    told.named(" ", template);
    for pair in given.as_slice() {
        told.word(pair.0.as_str());
        told.named("=", &pair.1);
    }
}

/// A continued rollback, with the paths in the order of the words.
fn continuation(told: &mut Told, stack: &Txt, paths: &Names) {
    told.named("continue-rollback ", stack);
    for path in paths.as_slice() {
        told.named(" ", path);
    }
}

/// The number of workers that a word names.
pub fn workers_line(told: &mut Told, word: &str) {
    let word = told.memory.text(word);
    let workers = read_workers(&word);
    drop(word);
    match workers {
        Some(workers) => told.number(workers as u64),
        None => told.put("none"),
    }
}
