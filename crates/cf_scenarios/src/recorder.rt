//! A lane that notes its calls.
ghost use Rattle.std.specs.Prelude.{◌≡◌};

use crate::lines::Lines;
use crate::words::Line;
use cf_fake::MemoryHandler;
use cf_handler::{FenceAnswer, Handler};
use cf_rows::Memory;
use cf_schema::Schema;
use cf_tree::{Answer, Look, Request, Txt};
use std::alloc::Global;
use std::mem;

/// A call that was made.
#[derive(Drop)]
struct Made {
    epoch: u64,
    token: u64,
    request: Request,
}

/// A handler in memory, each of whose calls is noted as a line `LANE TOKEN REQUEST -> ANSWER`. In the calls of the numbers
/// in `short`, counted from 1, it has no memory, and does nothing.
#[derive(Drop)]
pub struct Recorder {
    alloc: Global,
    handler: MemoryHandler,
    short: Vec<u64>,
    calls: u64,
    made: Vec<Made>,
    notes: Lines,
    /// Whether memory was wanting for a note.
    is_lost: bool,
}

impl Recorder {
    /// A lane over a handler.
    pub fn new(alloc: Global, handler: MemoryHandler, short: Vec<u64>) -> Recorder {
        Recorder {
            alloc,
            handler,
            short,
            calls: 0,
            made: Vec::new(alloc),
            notes: Lines::new(alloc),
            is_lost: false,
        }
    }

    /// The handler, which holds the resources.
    pub fn handler(&self) -> &MemoryHandler {
        &self.handler
    }

    /// Makes the last call of a token once more, as it was made. Whether there was one.
    pub fn call_again(&mut self, token: u64) -> bool {
        match self.made.iter().rev().find(|made| made.token == token) {
            Some(made) => {
                drop(self.handler.call(made.epoch, token, &made.request));
                true
            }
            None => false,
        }
    }

    /// Keeps a call that is made.
    fn keep(&mut self, memory: &mut Memory, epoch: u64, token: u64, request: &Request)
        ensures { self.new.handler ≡ self.old.handler }
    {
        match request.try_clone(self.alloc) {
            Ok(request) => memory.note(
                self.made
                    .push(Made {
                        epoch,
                        token,
                        request,
                    })
                    .is_err(),
            ),
            Err(_) => memory.lose(),
        }
    }

    /// The lines of the calls that were made since this was asked last.
    pub fn take_notes(&mut self, memory: &mut Memory) -> Lines {
        memory.note(self.is_lost);
        mem::replace(&mut self.notes, Lines::new(self.alloc))
    }
}

/// The line of a call.
fn note(memory: &mut Memory, lane: &str, token: u64, request: &Request, answer: &Answer) -> String {
    let mut line = Line::new(memory.alloc);
    line.put(lane);
    line.number_word(token);
    line.request(request);
    line.word("->");
    line.answer(answer);
    line.finish(memory)
}

impl Handler for Recorder {
    ghost label = { λ h. ⟦<MemoryHandler as Handler>⟧.label h.handler };

    ghost schema_of = { λ h. ⟦<MemoryHandler as Handler>⟧.schema_of h.handler };

    ghost count = { λ h. ⟦<MemoryHandler as Handler>⟧.count h.handler };

    ghost told = { λ h. ⟦<MemoryHandler as Handler>⟧.told h.handler };

    fn name(&self) -> &str {
        self.handler.name()
    }

    fn schema(&self) -> &Schema {
        self.handler.schema()
    }

    fn faults(&self) -> u64 {
        self.handler.faults()
    }

    fn fence(&mut self, epoch: u64) -> FenceAnswer {
        self.handler.fence(epoch)
    }

    fn call(&mut self, epoch: u64, token: u64, request: &Request) -> Answer {
        self.calls = self.calls.saturating_add(1);
        let answer = if self.short.contains(&self.calls) {
            Answer::NoMemory
        } else {
            self.handler.call(epoch, token, request)
        };
        let mut memory = Memory::new(self.alloc);
        let line = note(&mut memory, self.handler.name(), token, request, &answer);
        self.notes.push(&mut memory, line);
        self.keep(&mut memory, epoch, token, request);
        self.is_lost = self.is_lost || memory.end().is_err();
        answer
    }

    fn read(&mut self, epoch: u64, physical: &Txt) -> Look {
        self.handler.read(epoch, physical)
    }
}
