//! A scenario: what is handed to commands, and what the last one left.
ghost use Rattle.std.specs.Prelude.{◌≤◌, ◌^◌, IfOk};

use crate::entries::add_entry;
use crate::escape::{unescaped, unescaped_text};
use crate::lanes::{lane_of, place_of, push_live, schemas_of};
use crate::lines::Lines;
use crate::recorder::Recorder;
use crate::shelf::Shelf;
use crate::words::{Line, cut, number_of};
use cf_disk::{Disk, FuseDisk, MemoryDisk};
use cf_entry::{Entries, Entry, entry_size};
use cf_io::{MemoryLibrary, MemorySink};
use cf_journal::{RecoverFault, recover};
use cf_rows::Memory;
use cf_top::{Ended, alone, answer, cfstack};
use cf_tree::{NoMemory, Txt};
use std::alloc::Global;
use std::mem;

/// The least and the most room of a disk.
const LEAST_ROOM: u64 = 16;

const MOST_ROOM: u64 = 4_294_967_296;

/// How many calls of a disk can be noted, and how many written bytes.
const MOST_CALLS: u64 = 32_768;

const MOST_WRITTEN: u64 = 4_194_304;

/// Where a journal's first gate is, and the bytes of a frame around its body: a gate and the body's length.
const FIRST_GATE: u64 = 9;

const AROUND_BODY: u64 = 5;

/// Which top call does a command.
#[derive(Clone, Copy, PartialEq, Eq)]
pub enum Top {
    /// Either of the two others, as the words ask for.
    Cfstack,
    /// That of the commands that drive handlers.
    Alone,
    /// That of the commands that don't.
    Answer,
}

/// What fails in the next command.
#[derive(Drop)]
struct Failing {
    fuse: u64,
    disk: Vec<u64>,
    library: Vec<u64>,
    sink: Vec<u64>,
}

impl Failing {
    fn nothing(alloc: Global) -> Failing {
        Failing {
            fuse: u64::MAX,
            disk: Vec::new(alloc),
            library: Vec::new(alloc),
            sink: Vec::new(alloc),
        }
    }
}

/// What the last command did, each list behind what was there before it.
#[derive(Drop)]
pub struct Ran {
    /// The line of the exit that came back, with its end.
    pub exit: String,
    pub printed: Lines,
    pub entries: Lines,
    /// The entries that ask something of a lane.
    pub asked: Lines,
    /// The calls of each lane.
    pub calls: Vec<Lines>,
    /// All that is live.
    pub live: Lines,
}

impl Ran {
    fn nothing(alloc: Global) -> Ran {
        Ran {
            exit: String::new(alloc),
            printed: Lines::new(alloc),
            entries: Lines::new(alloc),
            asked: Lines::new(alloc),
            calls: Vec::new(alloc),
            live: Lines::new(alloc),
        }
    }

    /// The first line that was not compared of a list of which some line was.
    pub fn left_over(&self) -> Option<&String> {
        for list in [&self.printed, &self.entries, &self.asked, &self.live] {
            if let Some(line) = list.left_over() {
                return Some(line);
            }
        }
        self.calls.iter().find_map(|list| list.left_over())
    }

    /// Adds an entry that was written.
    fn push_entry(&mut self, memory: &mut Memory, entry: &Entry) {
        let mut line = Line::new(memory.alloc);
        add_entry(&mut line, entry);
        let line = line.finish(memory);
        if matches!(entry, Entry::Intent { .. }) {
            let copy = memory.copy(line.as_str());
            self.asked.push(memory, copy);
        }
        self.entries.push(memory, line);
    }

    /// Adds the calls of a lane since the command before, and what is live there.
    fn push_lane(&mut self, memory: &mut Memory, lane: &mut Recorder) {
        push_live(memory, &mut self.live, lane);
        let calls = lane.take_notes(memory);
        memory.note(self.calls.push(calls).is_err());
    }
}

/// A scenario as far as it was played.
#[derive(Drop)]
pub struct Scenario {
    room: u64,
    bytes: Vec<u8>,
    lanes: Vec<Recorder>,
    entries: usize,
    /// Where the journal's last gate is.
    end: u64,
    failing: Failing,
    pub ran: Ran,
}

impl Scenario {
    /// A scenario with an empty disk of 65,536 bytes, and no lanes.
    pub fn new(alloc: Global) -> Scenario {
        Scenario {
            room: 65_536,
            bytes: Vec::new(alloc),
            lanes: Vec::new(alloc),
            entries: 0,
            end: FIRST_GATE,
            failing: Failing::nothing(alloc),
            ran: Ran::nothing(alloc),
        }
    }

    /// The bytes on the disk.
    pub fn bytes(&self) -> &[u8] {
        self.bytes.as_slice()
    }

    /// Whether the journal has the first frames of another one's, byte for byte, and no further frame counts.
    pub fn begins(&self, whole: &Scenario) -> bool {
        if self.end == FIRST_GATE {
            return true;
        }
        let end = self.end as usize;
        match (self.bytes.get(..end), whole.bytes.get(..end)) {
            (Some(frames), Some(others)) => frames == others && self.bytes.get(end) != Some(&1),
            _ => false,
        }
    }

    /// The lanes in their order.
    pub fn lanes(&self) -> &[Recorder] {
        self.lanes.as_slice()
    }

    /// Lets the disk of the next command stop after so many calls.
    pub fn set_fuse(&mut self, calls: u64) {
        self.failing.fuse = calls;
    }

    /// Does what a line says that wants nothing. Whether it says something.
    pub fn act(&mut self, memory: &mut Memory, shelf: &Shelf, head: &str, rest: &str) -> bool {
        match head {
            ">" => self.run(memory, shelf, Top::Cfstack, rest),
            "alone" => self.run(memory, shelf, Top::Alone, rest),
            "answer" => self.run(memory, shelf, Top::Answer, rest),
            "room" => self.room = number_of(rest),
            "disk" => {
                self.bytes = unescaped(memory, rest);
                self.entries = 0;
            }
            "fuse" => self.failing.fuse = number_of(rest),
            "lane" => return self.add_lane(memory, rest),
            "without" => return self.drop_lane(rest),
            "again" => return self.call_again(rest),
            "fail" => return self.add_failing(memory, rest),
            _ => return false,
        }
        true
    }

    fn add_lane(&mut self, memory: &mut Memory, text: &str) -> bool {
        match lane_of(memory, text) {
            Some(lane) => {
                memory.note(self.lanes.push(lane).is_err());
                true
            }
            None => false,
        }
    }

    /// Hands a lane in no more. Whether there was one of the name.
    fn drop_lane(&mut self, name: &str) -> bool {
        match place_of(self.lanes.as_slice(), name) {
            Some(at) => {
                if at < self.lanes.len() {
                    drop(self.lanes.remove(at));
                }
                true
            }
            None => false,
        }
    }

    /// Lets the last call of a token come to its lane once more: `LANE TOKEN`. Whether there was one.
    fn call_again(&mut self, text: &str) -> bool {
        let (name, token) = cut(text);
        match place_of(self.lanes.as_slice(), name) {
            Some(at) => match self.lanes.get_mut(at) {
                Some(lane) => lane.call_again(number_of(token)),
                None => false,
            },
            None => false,
        }
    }

    fn add_failing(&mut self, memory: &mut Memory, text: &str) -> bool {
        let (what, calls) = cut(text);
        let calls = numbers_of(memory, calls);
        match what {
            "disk" => self.failing.disk = calls,
            "library" => self.failing.library = calls,
            "sink" => self.failing.sink = calls,
            _ => return false,
        }
        true
    }

    /// Does what words say, in a process of its own: with a new library and sink, and the disk opened anew.
    fn run(&mut self, memory: &mut Memory, shelf: &Shelf, top: Top, words: &str) {
        let failing = mem::replace(&mut self.failing, Failing::nothing(memory.alloc));
        let words = words_of(memory, words);
        let templates = shelf.named(memory, words.as_slice());
        self.ran = Ran::nothing(memory.alloc);
        match MemoryLibrary::new(
            memory.alloc,
            templates.as_slice(),
            failing.library.as_slice(),
        ) {
            Ok(mut library) => {
                self.run_over(memory, top, words.as_slice(), &mut library, &failing);
                drop(library);
            }
            Err(NoMemory) => memory.lose(),
        }
    }

    /// The same over a library.
    fn run_over(
        &mut self,
        memory: &mut Memory,
        top: Top,
        words: &[Txt],
        library: &mut MemoryLibrary,
        failing: &Failing,
    ) {
        match MemorySink::new(memory.alloc, failing.sink.as_slice()) {
            Ok(mut sink) => {
                self.run_on(memory, top, words, library, &mut sink, failing);
                let text = str::from_utf8(sink.bytes()).unwrap_or("no text");
                self.ran.printed.push_all(memory, text);
                drop(sink);
            }
            Err(NoMemory) => memory.lose(),
        }
    }

    /// The same with a sink.
    fn run_on(
        &mut self,
        memory: &mut Memory,
        top: Top,
        words: &[Txt],
        library: &mut MemoryLibrary,
        sink: &mut MemorySink,
        failing: &Failing,
    ) {
        let fails = failing.disk.as_slice();
        match disk_of(memory.alloc, self.bytes.as_slice(), self.room, fails) {
            Ok(disk) => {
                let disk = FuseDisk::new(disk, failing.fuse);
                let lanes = mem::replace(&mut self.lanes, Vec::new(memory.alloc));
                let ended = ended(memory, top, words, library, sink, disk, lanes);
                self.take_back(memory, ended);
            }
            Err(NoMemory) => memory.lose(),
        }
    }

    /// Takes the disk and the lanes back, and looks at what a command left.
    fn take_back(&mut self, memory: &mut Memory, ended: Ended<FuseDisk, Recorder>) {
        let Ended { exit, disk, lanes } = ended;
        self.lanes = lanes;
        let disk = disk.into_disk();
        self.bytes = memory.bytes(disk.bytes());
        drop(disk);
        memory.note(exit.push_line(memory.alloc, &mut self.ran.exit).is_err());
        drop(exit);
        self.look_at_journal(memory);
        for lane in self.lanes.iter_mut() {
            self.ran.push_lane(memory, lane);
        }
    }

    /// Looks at the entries that a command left.
    fn look_at_journal(&mut self, memory: &mut Memory) {
        let entries = entries_of(memory, self.bytes.as_slice());
        let before = mem::replace(&mut self.entries, entries.len());
        self.end = end_of(entries.as_slice());
        for entry in entries.as_slice().iter().skip(before) {
            self.ran.push_entry(memory, entry);
        }
        drop(entries);
    }
}

/// How a command ends that a top call does.
fn ended(
    memory: &mut Memory,
    top: Top,
    words: &[Txt],
    library: &mut MemoryLibrary,
    sink: &mut MemorySink,
    disk: FuseDisk,
    lanes: Vec<Recorder>,
) -> Ended<FuseDisk, Recorder>
    requires least { 16 ≤ ⟦<FuseDisk as Disk>⟧.room_of disk }
    requires most { ⟦<FuseDisk as Disk>⟧.room_of disk ≤ 2 ^ 32 }
{
    match top {
        Top::Cfstack => cfstack(memory.alloc, words, 1, library, sink, disk, lanes),
        Top::Alone => alone(memory.alloc, words, library, sink, disk, lanes),
        Top::Answer => {
            let mut disk = disk;
            let schemas = schemas_of(memory, lanes.as_slice());
            let exit = answer(memory.alloc, words, library, sink, &mut disk, &schemas);
            drop(schemas);
            Ended { exit, disk, lanes }
        }
    }
}

/// A disk that holds these bytes; those that don't fit into its room are left out.
fn disk_of(alloc: Global, bytes: &[u8], room: u64, fails: &[u64]) -> Result<MemoryDisk, NoMemory>
    ensures least { IfOk result (λ disk. 16 ≤ ⟦<MemoryDisk as Disk>⟧.room_of disk) }
    ensures most { IfOk result (λ disk. ⟦<MemoryDisk as Disk>⟧.room_of disk ≤ 2 ^ 32) }
{
    let room = room.max(LEAST_ROOM).min(MOST_ROOM);
    let length = bytes.len().min(room as usize);
    MemoryDisk::new(
        alloc,
        &bytes[..length],
        room,
        fails,
        MOST_CALLS,
        MOST_WRITTEN,
    )
}

/// The entries that bytes hold; none where they are no journal.
fn entries_of(memory: &mut Memory, bytes: &[u8]) -> Entries {
    match disk_of(memory.alloc, bytes, MOST_ROOM, &[]) {
        Ok(mut disk) => {
            let found = recover(memory.alloc, &mut disk);
            drop(disk);
            match found {
                Ok((_, entries)) => return entries,
                Err(fault) => memory.note(fault == RecoverFault::NoMemory),
            }
        }
        Err(NoMemory) => memory.lose(),
    }
    Entries::new(memory.alloc)
}

/// Where the last gate of a journal with these entries is.
fn end_of(entries: &[Entry]) -> u64 {
    let mut end = FIRST_GATE;
    for entry in entries.iter() {
        end = end.saturating_add(entry_size(entry).saturating_add(AROUND_BODY));
    }
    end
}

/// The words of a line.
fn words_of(memory: &mut Memory, line: &str) -> Vec<Txt> {
    let mut words = Vec::new(memory.alloc);
    for word in line.split_ascii_whitespace() {
        let word = Txt::new(unescaped_text(memory, word));
        memory.note(words.push(word).is_err());
    }
    words
}

fn numbers_of(memory: &mut Memory, text: &str) -> Vec<u64> {
    let mut numbers = Vec::new(memory.alloc);
    for number in text.split_ascii_whitespace() {
        memory.note(numbers.push(number_of(number)).is_err());
    }
    numbers
}
