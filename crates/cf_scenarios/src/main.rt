//! Scenarios: whole commands over templates, lanes, a disk and a sink in memory, each with what it has to print and to leave.
//!
//! The program reads scenarios line by line from its input and plays them over the calls that the engine's program makes. It
//! prints each row that is given otherwise, with what was wanted and what came, and in the end how many rows there were. Its
//! functions promise nothing: what they call is proved in its own crates, and here it is held against what was worked out by
//! hand. What a line means stands in docs/SCENARIOS.md.
#![tactic(auto)]

mod entries;
mod escape;
mod lanes;
mod lines;
mod recorder;
mod rows;
mod scenario;
mod shelf;
mod stops;
mod words;

use crate::rows::Stage;
use crate::shelf::Shelf;
use crate::stops::{Play, Stops};
use crate::words::{Line, cut};
use cf_rows::Memory;
use std::alloc::Global;
use std::io;
use std::io::{BufRead, BufReader};
use std::process::ExitCode;

/// The scenario that is played, and how the rows were given.
#[derive(Drop)]
struct Table {
    rows: u64,
    wrong: u64,
    /// The heading of the scenario.
    heading: String,
    /// The lines that led where the scenario is.
    past: Vec<String>,
    shelf: Shelf,
    stage: Stage,
    /// What is to be printed of rows that were given otherwise.
    report: String,
}

fn main(rt: HostRuntime) -> ExitCode {
    match play(&rt) {
        Ok(true) => ExitCode::SUCCESS,
        _ => ExitCode::FAILURE,
    }
}

/// Plays the scenarios line by line. Whether each row was given as it says.
fn play(rt: &HostRuntime) -> io::Result<bool> {
    let mut table = Table::new(rt.alloc());
    let read = read_lines(rt, &mut table);
    let rows = table.rows;
    let wrong = table.wrong;
    drop(table);
    read?;
    println!(rt; "{rows} rows, {wrong} answered otherwise")?;
    Ok(wrong == 0)
}

/// Works every line.
fn read_lines(rt: &HostRuntime, table: &mut Table) -> io::Result<()> {
    let lines = BufReader::new(rt.alloc(), rt.reader())?.lines(rt.alloc());
    for line in lines {
        let line = line?;
        print(rt, table, line.as_str())?;
    }
    print(rt, table, "==")
}

/// Works one line, and prints what came of it.
fn print(rt: &HostRuntime, table: &mut Table, line: &str) -> io::Result<()> {
    let mut memory = Memory::new(rt.alloc());
    table.work(&mut memory, line);
    memory.end()?;
    if !table.report.is_empty() {
        println!(rt; "{}", table.report)?;
        table.report.clear();
    }
    Ok(())
}

impl Table {
    fn new(alloc: Global) -> Table {
        Table {
            rows: 0,
            wrong: 0,
            heading: String::new(alloc),
            past: Vec::new(alloc),
            shelf: Shelf::new(alloc),
            stage: Stage::new(alloc),
            report: String::new(alloc),
        }
    }

    /// Works one line.
    fn work(&mut self, memory: &mut Memory, line: &str) {
        let (head, rest) = cut(line);
        match head {
            "" | "#" => {}
            "==" => {
                self.close(memory);
                self.begin(memory, rest);
            }
            "each" => {
                self.close(memory);
                self.play_stops(memory, rest);
            }
            "template" => self.shelf.add(memory, rest),
            "+" => self.shelf.go_on(memory, rest),
            _ => self.compare(memory, line, head, rest),
        }
    }

    /// Begins the scenario of a heading.
    fn begin(&mut self, memory: &mut Memory, heading: &str) {
        self.heading = memory.copy(heading);
        self.past.clear();
        self.stage = Stage::new(memory.alloc);
    }

    /// Plays `COMMAND ; OTHER ; OTHER ..`, a command whose disk stops, at each of its calls in turn, and the others behind it.
    fn play_stops(&mut self, memory: &mut Memory, commands: &str) {
        let (command, others) = commands.split_once(" ; ").unwrap_or((commands, ""));
        let play = Play {
            shelf: &self.shelf,
            past: self.past.as_slice(),
            command,
            others,
        };
        self.stage.stops = Stops::play(memory, &play);
    }

    /// Looks whether all of each list was given of which a line was.
    fn close(&mut self, memory: &mut Memory) {
        let left = match self.stage.scenario.ran.left_over() {
            Some(line) => memory.copy(line.as_str()),
            None => return,
        };
        self.refuse(memory, "no more", left.as_str());
    }

    /// Compares a row with what it is given; does what a line says that is none.
    fn compare(&mut self, memory: &mut Memory, line: &str, head: &str, rest: &str) {
        let mut given = Line::new(memory.alloc);
        if self.stage.add_given(memory, &mut given, head, rest) {
            self.rows = self.rows.saturating_add(1);
            let given = given.finish(memory);
            if given.as_str() != rest {
                self.refuse(memory, line, given.as_str());
            }
        } else {
            self.act(memory, line, head, rest);
        }
    }

    /// Does what a line says that wants nothing.
    fn act(&mut self, memory: &mut Memory, line: &str, head: &str, rest: &str) {
        if matches!(head, ">" | "alone" | "answer") {
            self.close(memory);
            self.stage.bytes = 0;
        }
        if self.stage.scenario.act(memory, &self.shelf, head, rest) {
            let line = memory.copy(line);
            memory.note(self.past.push(line).is_err());
        } else {
            self.refuse(memory, line, "no such line");
        }
    }

    /// Notes what was wanted and what came.
    fn refuse(&mut self, memory: &mut Memory, wanted: &str, given: &str) {
        self.wrong = self.wrong.saturating_add(1);
        if !self.report.is_empty() {
            memory.note(self.report.push_str("\n").is_err());
        }
        let heading = self.heading.as_str();
        let text = write!(
            self.report,
            "{heading}\n    wanted {wanted}\n    given  {given}"
        );
        memory.note(text.is_err());
    }
}
