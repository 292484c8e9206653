//! Tables of the template language and of what the engine reads and says: rows of templates, parameters, schemas,
//! expressions, plans, change sets, command lines and exits, each with the answer that the rules give it.
//!
//! The program reads a table line by line from its input. It answers each row by the calls that the engine uses, prints the
//! rows that are answered otherwise, and in the end how many rows there were. Its functions promise nothing: what they call
//! is proved in its own crates, and here it is held against answers that were worked out by hand.
//!
//! What its lines mean stands in `docs/TABLES.md`.
#![tactic(auto)]

mod answer;
mod changes;
mod commands;
mod contents;
mod entries;
mod evaluating;
mod exits;
mod fault;
mod formed;
mod given;
mod heading;
mod held;
mod json;
mod lanes;
mod ordering;
mod pieces;
mod plans;
mod scene;
mod stretch;
mod texts;
mod told;
mod wanted;

use crate::answer::answer;
use crate::heading::Heading;
use std::io;
use std::io::{BufRead, BufReader};
use std::process::ExitCode;

/// How many rows were answered, and how many otherwise than they say.
#[derive(Drop)]
struct Tally {
    rows: u64,
    wrong: u64,
}

fn main(rt: HostRuntime) -> ExitCode {
    match table(&rt) {
        Ok(tally) => {
            if tally.wrong == 0 {
                ExitCode::SUCCESS
            } else {
                ExitCode::FAILURE
            }
        }
        Err(_) => ExitCode::FAILURE,
    }
}

/// Works the table line by line.
fn table(rt: &HostRuntime) -> io::Result<Tally> {
    let mut tally = Tally { rows: 0, wrong: 0 };
    let mut heading = Heading::new(rt.alloc());
    let lines = BufReader::new(rt.alloc(), rt.reader())?.lines(rt.alloc());
    for line in lines {
        let line = line?;
        work(rt, &mut heading, &mut tally, line.as_str())?;
    }
    println!(rt; "{} rows, {} answered otherwise", tally.rows, tally.wrong)?;
    Ok(tally)
}

/// Works one line.
fn work(rt: &HostRuntime, heading: &mut Heading, tally: &mut Tally, line: &str) -> io::Result<()> {
    if let Some(text) = line.strip_prefix("== ") {
        *heading = Heading::read(rt.alloc(), text)?;
    } else if let Some(text) = line.strip_prefix("+ ") {
        heading.go_on(text)?;
    } else if let Some((piece, wanted)) = line.split_once(" => ") {
        let given = answer(rt.alloc(), heading, piece)?;
        tally.rows = tally.rows.saturating_add(1);
        if given.as_str() != wanted {
            tally.wrong = tally.wrong.saturating_add(1);
            println!(rt; "{piece}\n    wanted {wanted}\n    given  {given}")?;
        }
    }
    Ok(())
}
