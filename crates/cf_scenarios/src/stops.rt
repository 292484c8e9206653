//! A command whose disk stops, at each of its calls in turn.
use crate::lines::Lines;
use crate::scenario::Scenario;
use crate::shelf::Shelf;
use crate::words::{Line, cut, number_of};
use cf_rows::Memory;
use std::alloc::Global;

/// What came of a stop: what is told of it, and what is live behind what was done then.
#[derive(Drop)]
struct Stop {
    told: String,
    live: String,
}

/// What came of the stops at each call, and how many of them were compared.
#[derive(Drop)]
pub struct Stops {
    found: Vec<Stop>,
    compared: u64,
}

/// What is played up to a stop, and behind it.
#[derive(Clone, Copy)]
pub struct Play<'a> {
    pub shelf: &'a Shelf,
    /// The lines that lead there.
    pub past: &'a [String],
    /// The command that is stopped.
    pub command: &'a str,
    /// What is done behind, with a disk that goes on: commands, cut at ` ; `.
    pub others: &'a str,
}

impl Stops {
    /// No stops.
    pub fn nothing(alloc: Global) -> Stops {
        Stops {
            found: Vec::new(alloc),
            compared: 0,
        }
    }

    /// Plays a command once for each number of calls after which the disk stops, from 0 on, until the command is stopped
    /// no more.
    pub fn play(memory: &mut Memory, play: &Play) -> Stops {
        let whole = play.played(memory, u64::MAX);
        let mut stops = Stops::nothing(memory.alloc);
        for fuse in 0..1_000u64 {
            match play.stopped(memory, &whole, fuse) {
                Some(found) => memory.note(stops.found.push(found).is_err()),
                None => break,
            }
        }
        drop(whole);
        stops
    }

    /// Adds what the row `FROM..TO ..` or `FROM ..` is given: what came of the first of these stops that came to something
    /// else than the row says, or of the last one. The row is the first that says something of these stops.
    pub fn add_given(&mut self, line: &mut Line, row: &str) {
        let (range, wanted) = cut(row);
        let (first, last) = range.split_once("..").unwrap_or((range, range));
        let first = number_of(first);
        let last = number_of(last);
        if first != self.compared {
            line.number(self.compared);
            line.put(" was not told");
            return;
        }
        self.compared = last.saturating_add(1);
        match self.other(first, last, wanted) {
            Some((at, found)) => {
                line.number(at);
                line.word(found.as_str());
            }
            None => {
                if self.compared > self.found.len() as u64 {
                    line.number(self.found.len() as u64);
                    line.put(" stops");
                } else {
                    line.put(row);
                }
            }
        }
    }

    /// The first of these stops that came to something else than this.
    fn other(&self, first: u64, last: u64, wanted: &str) -> Option<(u64, &String)> {
        for (at, found) in self.found.iter().enumerate() {
            let at = at as u64;
            if first <= at && at <= last && found.told.as_str() != wanted {
                return Some((at, &found.told));
            }
        }
        None
    }

    /// Adds what is live behind each stop and what was done then, where it is the same of all of them; else the first that is not what the
    /// row says.
    pub fn add_live(&self, line: &mut Line, row: &str) {
        for (at, found) in self.found.iter().enumerate() {
            if found.live.as_str() != row {
                line.number(at as u64);
                line.word(found.live.as_str());
                return;
            }
        }
        line.put(row);
    }

    /// Adds how many stops there are, and how many of them were compared.
    pub fn add_ends(&self, line: &mut Line) {
        if self.compared != self.found.len() as u64 {
            line.number(self.compared);
            line.put(" of ");
        }
        line.number(self.found.len() as u64);
    }
}

impl<'a> Play<'a> {
    /// The scenario behind what led there and the command, whose disk stops after so many calls.
    fn played(&self, memory: &mut Memory, fuse: u64) -> Scenario {
        let mut scenario = Scenario::new(memory.alloc);
        for line in self.past.iter() {
            let (head, rest) = cut(line.as_str());
            scenario.act(memory, self.shelf, head, rest);
        }
        scenario.set_fuse(fuse);
        scenario.act(memory, self.shelf, ">", self.command);
        scenario
    }

    /// What came of the command where the disk stops after so many calls; None where it is not stopped.
    fn stopped(&self, memory: &mut Memory, whole: &Scenario, fuse: u64) -> Option<Stop> {
        let mut stopped = self.played(memory, fuse);
        let found = if stopped.ran.exit == whole.ran.exit {
            None
        } else {
            let told = self.told(memory, whole, &mut stopped);
            let live = live_of(memory, &stopped);
            Some(Stop { told, live })
        };
        drop(stopped);
        found
    }

    /// What came of a stop: how many of the entries and calls of the whole run there are, and what the other commands print.
    fn told(&self, memory: &mut Memory, whole: &Scenario, stopped: &mut Scenario) -> String {
        let mut line = Line::new(memory.alloc);
        stopped.ran.printed.join(&mut line);
        if line.text.as_str() == "exit 7 DiskFault" {
            line.text.clear();
            if !stopped.begins(whole) || !stopped.ran.entries.begin(&whole.ran.entries) {
                line.put("other entries");
            } else if !begin(stopped.ran.calls.as_slice(), whole.ran.calls.as_slice()) {
                line.put("other calls");
            } else {
                self.go_on(memory, &mut line, stopped);
            }
        }
        line.finish(memory)
    }

    /// Does the other commands, and tells them.
    fn go_on(&self, memory: &mut Memory, line: &mut Line, stopped: &mut Scenario) {
        line.number(stopped.ran.entries.len() as u64);
        line.put(" entries, ");
        line.number(count(stopped.ran.calls.as_slice()));
        line.put(" calls: ");
        for (at, other) in self.others.split(" ; ").enumerate() {
            if at > 0 {
                line.put(" | ");
            }
            stopped.act(memory, self.shelf, ">", other);
            stopped.ran.printed.join(line);
        }
    }
}

/// What is live, with ` | ` between any two; `none` where nothing is.
fn live_of(memory: &mut Memory, scenario: &Scenario) -> String {
    let mut line = Line::new(memory.alloc);
    if scenario.ran.live.len() == 0 {
        line.put("none");
    }
    scenario.ran.live.join(&mut line);
    line.finish(memory)
}

/// Whether the calls of each lane are the first ones of others.
fn begin(calls: &[Lines], whole: &[Lines]) -> bool {
    for (at, lines) in calls.iter().enumerate() {
        match whole.get(at) {
            Some(others) => {
                if !lines.begin(others) {
                    return false;
                }
            }
            None => return false,
        }
    }
    true
}

/// How many calls there are.
fn count(calls: &[Lines]) -> u64 {
    let mut total: u64 = 0;
    for lines in calls.iter() {
        total = total.saturating_add(lines.len() as u64);
    }
    total
}
