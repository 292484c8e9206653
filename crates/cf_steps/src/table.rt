//! A table: its sections, and how many of its rows were answered otherwise.
use crate::entries::entry_of;
use crate::library::Library;
use crate::questions::{Asked, answer, last_number};
use crate::words::Words;
use crate::worlds::Stepped;
use cf_entry::{Entries, Entry};
use cf_stacks::World;
use cf_tree::{ByName, Rows, TryClone};
use std::alloc::{AllocError, Global};
use std::{io, mem};

/// A row that is not answered yet, since its answer may go on.
#[derive(Drop)]
struct Waiting {
    question: String,
    wanted: String,
}

/// What was read of a table.
#[derive(Drop)]
pub struct Table {
    library: Library,
    /// The journals that were marked.
    marks: ByName<Entries>,
    journal: Entries,
    /// The world that the journal folds to, where it was asked for since the journal changed.
    folded: Option<World>,
    stepped: Stepped,
    waiting: Option<Waiting>,
    pub rows: u64,
    pub wrong: u64,
}

impl Table {
    /// A table of which nothing was read.
    pub fn new(alloc: Global) -> Table {
        Table {
            library: Library::new(alloc),
            marks: ByName::new(alloc),
            journal: Entries::new(alloc),
            folded: None,
            stepped: Stepped::new(alloc),
            waiting: None,
            rows: 0,
            wrong: 0,
        }
    }
}

/// Works one line.
pub fn work(rt: &HostRuntime, table: &mut Table, line: &str) -> io::Result<()> {
    if let Some(more) = line.strip_prefix("| ") {
        return Ok(table.go_on(more)?);
    }
    finish_row(rt, table)?;
    let mut words = Words::new(rt.alloc(), line);
    table.read(&mut words);
    if !words.are_read()? {
        table.count(false);
        println!(rt; "no line: {line}")?;
    }
    Ok(())
}

/// Answers the row that waits, where one does, and prints it where it is answered otherwise.
pub fn finish_row(rt: &HostRuntime, table: &mut Table) -> io::Result<()> {
    let Some(row) = table.waiting.take() else {
        return Ok(());
    };
    let given = table.answer(rt.alloc(), row.question.as_str())?;
    let right = given == row.wanted;
    table.count(right);
    if !right {
        let question = row.question.as_str();
        let wanted = row.wanted.as_str();
        let given = given.as_str();
        println!(rt; "{question}\n    wanted {wanted}\n    given  {given}")?;
    }
    Ok(())
}

impl Table {
    /// Counts a row.
    fn count(&mut self, right: bool) {
        self.rows = self.rows.saturating_add(1);
        if !right {
            self.wrong = self.wrong.saturating_add(1);
        }
    }

    /// Goes on with the answer of the row that waits.
    fn go_on(&mut self, more: &str) -> Result<(), AllocError> {
        match &mut self.waiting {
            Some(row) => {
                row.wanted.push_str("\n")?;
                row.wanted.push_str(more)
            }
            None => Ok(()),
        }
    }

    /// The answer to a question.
    fn answer(&mut self, alloc: Global, question: &str) -> Result<String, AllocError> {
        let asked = Asked {
            library: &self.library,
            journal: &self.journal,
        };
        answer(alloc, &asked, &mut self.folded, &mut self.stepped, question)
    }

    /// Reads a line that goes on with no row.
    fn read(&mut self, words: &mut Words) {
        match words.rest.split_once(" => ") {
            Some((question, wanted)) => {
                self.waiting = Some(Waiting {
                    question: words.memory.copy(question),
                    wanted: words.memory.copy(wanted),
                });
            }
            None => self.read_word(words),
        }
    }

    /// Reads a line by its first word.
    fn read_word(&mut self, words: &mut Words) {
        let line = words.rest;
        match words.word() {
            "" | "#" => {}
            "==" => self.begin(words),
            "mark" => self.mark(words),
            "lane" => self.library.add_lane(words),
            "schema" => self.library.add_schema(words),
            "template" => self.library.add_template(words),
            "+" => self.library.go_on(words),
            "row" => self.library.add_row(words),
            _ => {
                words.rest = line;
                self.write(words);
            }
        }
    }

    /// Begins a section, with no journal or with one that was marked.
    fn begin(&mut self, words: &mut Words) {
        let journal = match words.rest.split_once(" <- ") {
            Some((_, name)) => self.marked(words, name),
            None => Entries::new(words.memory.alloc),
        };
        drop(mem::replace(&mut self.journal, journal));
        drop(self.folded.take());
        self.stepped.begin(words, &self.journal);
    }

    /// A copy of the journal that was marked so.
    fn marked(&self, words: &mut Words, name: &str) -> Entries {
        match self.marks.get(name) {
            Some(journal) => copy_of(words, journal),
            None => {
                words.refuse();
                Entries::new(words.memory.alloc)
            }
        }
    }

    /// Marks the journal.
    fn mark(&mut self, words: &mut Words) {
        let name = words.memory.text(words.rest);
        let journal = copy_of(words, &self.journal);
        if self.marks.insert(name, journal).is_err() {
            words.memory.lose();
        }
    }

    /// Writes an entry behind the journal.
    fn write(&mut self, words: &mut Words) {
        let entry = entry_of(words, &self.library, last_number(&self.journal));
        match words.are_read() {
            Ok(true) => self.push(words, entry),
            _ => drop(entry),
        }
    }

    /// Writes an entry that was read.
    fn push(&mut self, words: &mut Words, entry: Entry) {
        match entry.try_clone(words.memory.alloc) {
            Ok(copy) => self.stepped.step(words, copy),
            Err(_) => words.memory.lose(),
        }
        if self.journal.push(entry).is_err() {
            words.memory.lose();
        }
        drop(self.folded.take());
        drop(mem::replace(&mut self.library.rows, Rows::new(words.memory.alloc)));
    }
}

/// A copy of a journal.
fn copy_of(words: &mut Words, journal: &Entries) -> Entries {
    match journal.try_clone(words.memory.alloc) {
        Ok(copy) => copy,
        Err(_) => {
            words.memory.lose();
            Entries::new(words.memory.alloc)
        }
    }
}
