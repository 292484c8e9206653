//! What rows are given.
use crate::escape::unescaped;
use crate::lanes::{place_of, schemas_of};
use crate::lines::Lines;
use crate::recorder::Recorder;
use crate::scenario::Scenario;
use crate::stops::Stops;
use crate::words::{Line, cut};
use cf_handler::Handler;
use cf_rows::Memory;
use std::alloc::Global;

/// A scenario with what rows compare.
#[derive(Drop)]
pub struct Stage {
    pub scenario: Scenario,
    pub stops: Stops,
    /// How many bytes of the disk were compared.
    pub bytes: usize,
}

impl Stage {
    /// A new scenario.
    pub fn new(alloc: Global) -> Stage {
        Stage {
            scenario: Scenario::new(alloc),
            stops: Stops::nothing(alloc),
            bytes: 0,
        }
    }

    /// Adds what a line is given that wants something. Whether it is such a line.
    pub fn add_given(
        &mut self,
        memory: &mut Memory,
        line: &mut Line,
        head: &str,
        rest: &str,
    ) -> bool {
        match head {
            "stop" => self.stops.add_given(line, rest),
            "stops" => self.stops.add_ends(line),
            "ends" => self.stops.add_live(line, rest),
            "faults" => add_faults(line, self.scenario.lanes(), rest),
            "lanes" => add_names(line, self.scenario.lanes()),
            "types" => add_types(memory, line, self.scenario.lanes()),
            "bytes" => self.add_bytes(memory, line, rest),
            _ => return self.add_left(line, head, rest),
        }
        true
    }

    /// The same of what a command left.
    fn add_left(&mut self, line: &mut Line, head: &str, rest: &str) -> bool {
        let ran = &mut self.scenario.ran;
        match head {
            "<" => add_printed(line, ran.printed.take(), ran.exit.as_str().trim_end()),
            "=" => line.put(ran.exit.as_str().trim_end()),
            "opened" | "begin" | "ask" | "told" | "turn" | "done" | "kept" | "changeset" => {
                line.put(tail_of(head, ran.entries.take()))
            }
            "entries" => line.put(ran.entries.take()),
            "asked" => line.put(tail_of("ask", ran.asked.take())),
            "live" => line.put(ran.live.take()),
            "call" => self.add_call(line, rest),
            "calls" => line.put(any_of(ran.calls.as_mut_slice())),
            _ => return false,
        }
        true
    }

    /// Adds the next call of the lane whose name begins the row.
    fn add_call(&mut self, line: &mut Line, row: &str) {
        let (name, _) = cut(row);
        match place_of(self.scenario.lanes(), name) {
            Some(at) => match self.scenario.ran.calls.get_mut(at) {
                Some(calls) => {
                    let call = calls.take();
                    if call == "none" {
                        line.word(name);
                    }
                    line.word(call);
                }
                None => line.put("no command"),
            },
            None => line.put("no such lane"),
        }
    }

    /// Adds what a row on the next bytes of the disk is given: itself where it fits.
    fn add_bytes(&mut self, memory: &mut Memory, line: &mut Line, row: &str) {
        let rest = self.scenario.bytes().get(self.bytes..).unwrap_or(&[]);
        let fits = match row {
            "closed" => rest.first() != Some(&1),
            "end" => rest.is_empty(),
            _ => {
                let wanted = unescaped(memory, row);
                self.bytes = self.bytes.saturating_add(wanted.len());
                rest.starts_with(wanted.as_slice())
            }
        };
        if fits {
            line.put(row);
        } else {
            line.put("other bytes, ");
            line.number(rest.len() as u64);
            line.put(" from there on");
        }
    }
}

/// Adds a line that was printed; a line of an exit has to be that of the exit which came back.
fn add_printed(line: &mut Line, printed: &str, exit: &str) {
    line.put(printed);
    if printed.starts_with("exit ") && printed != exit {
        line.put(", but ");
        line.put(exit);
        line.put(" came back");
    }
}

/// A line without its first word where that is this one, else the line.
fn tail_of<'a>(head: &str, line: &'a str) -> &'a str {
    match line.split_once(' ') {
        Some((first, rest)) if first == head => rest,
        _ => line,
    }
}

/// The first call of any lane, or `none`.
fn any_of(calls: &mut [Lines]) -> &str {
    for lines in calls.iter_mut() {
        if lines.len() > 0 {
            return lines.take();
        }
    }
    "none"
}

/// Adds the names of lanes.
fn add_names(line: &mut Line, lanes: &[Recorder]) {
    for lane in lanes.iter() {
        line.word(lane.name());
    }
}

/// Adds how often a lane has refused or failed, behind its name.
fn add_faults(line: &mut Line, lanes: &[Recorder], row: &str) {
    let (name, _) = cut(row);
    match lanes.iter().find(|lane| lane.name() == name) {
        Some(lane) => {
            line.put(name);
            line.number_word(lane.faults());
        }
        None => line.put("no such lane"),
    }
}

/// Adds the types of the lanes, each with its conditionally create-only properties.
fn add_types(memory: &mut Memory, line: &mut Line, lanes: &[Recorder]) {
    let schemas = schemas_of(memory, lanes);
    for schema in schemas.as_slice() {
        line.word(schema.kind.as_str());
        for name in schema.conditional.as_slice() {
            line.put("/");
            line.put(name.as_str());
        }
    }
    drop(schemas);
}
