//! Tables of steps: journals in lines, and rows that ask what they leave and what comes next, each with the answer that the
//! rules give it.
//!
//! The program reads a table line by line from its input. It answers each row by the calls that the engine uses, prints the
//! rows that are answered otherwise, and in the end how many rows there were. Its functions promise nothing: what they call
//! is proved in its own crates, and here it is held against answers that were worked out by hand. `docs/STEPS.md` has the
//! lines, the entries and the questions.
#![tactic(auto)]

mod entries;
mod flaws;
mod forward;
mod library;
mod line;
mod questions;
mod sets;
mod spelled;
mod stacks;
mod steps;
mod table;
mod wishes;
mod words;
mod worlds;

use crate::table::{Table, finish_row, work};
use std::io;
use std::io::{BufRead, BufReader};
use std::process::ExitCode;

fn main(rt: HostRuntime) -> ExitCode {
    match play(&rt) {
        Ok(0) => ExitCode::SUCCESS,
        _ => ExitCode::FAILURE,
    }
}

/// Works the table line by line; how many rows were answered otherwise.
fn play(rt: &HostRuntime) -> io::Result<u64> {
    let mut table = Table::new(rt.alloc());
    let read = read_lines(rt, &mut table);
    let rows = table.rows;
    let wrong = table.wrong;
    drop(table);
    read?;
    println!(rt; "{rows} rows, {wrong} answered otherwise")?;
    Ok(wrong)
}

/// Works every line.
fn read_lines(rt: &HostRuntime, table: &mut Table) -> io::Result<()> {
    let lines = BufReader::new(rt.alloc(), rt.reader())?.lines(rt.alloc());
    for line in lines {
        let line = line?;
        work(rt, table, line.as_str())?;
    }
    finish_row(rt, table)
}
