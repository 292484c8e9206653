ghost use Rattle.std.specs.Prelude.{◌≡◌, [], IfOk, Some};
ghost use Rattle.cf_tree.specs.Counts.{next_count, count_after};
ghost use Rattle.cf_io.specs.Sink.{Puts, HasPutCause};
ghost use Rattle.cf_io.specs.Stores.{is_planned, FailsWhere};

use crate::sink::{Sink, SinkFail};
use crate::steady_sink::SteadySink;
use cf_tree::NoMemory;
use std::alloc::Global;

/// A sink in memory whose failures are planned.
#[derive(Drop)]
pub struct MemorySink {
    held: SteadySink,
    fails: Vec<u64>,
    calls: u64,
    faults: u64,
}

impl MemorySink {
    /// A sink that holds nothing yet, and fails in the puts of the numbers in `fails`, counted from 1.
    pub fn new(alloc: Global, fails: &[u64]) -> Result<MemorySink, NoMemory>
        ensures empty { IfOk result (λ s. ⟦<MemorySink as Sink>⟧.held s ≡ Some []) }
        ensures faultless { IfOk result (λ s. ⟦<MemorySink as Sink>⟧.count s ≡ 0) }
        ensures planned { IfOk result (λ s. s.fails.items ≡ fails.now) }
        ensures uncalled { IfOk result (λ s. s.calls ≡ 0) }
    {
        let fails = Vec::from_slice(alloc, fails)?;
        Ok(MemorySink {
            held: SteadySink::new(alloc),
            fails,
            calls: 0,
            faults: 0,
        })
    }

    /// The bytes put so far.
    pub fn bytes(&self) -> &[u8]
        ensures { ⟦<MemorySink as Sink>⟧.held self.now ≡ Some result.now }
    {
        self.held.bytes()
    }
}

impl Sink for MemorySink {
    ghost held = { λ s. ⟦<SteadySink as Sink>⟧.held s.held };

    ghost count = { λ s. s.faults };

    // A put that is to fail takes no byte.
    fn put(&mut self, bytes: &[u8]) -> Result<(), SinkFail>
        ensures bytes { Puts (⟦<MemorySink as Sink>⟧.held self.old) (⟦<MemorySink as Sink>⟧.held self.new)
            bytes.now result }
        ensures cause { HasPutCause self.old.faults self.new.faults result }
        ensures planned { FailsWhere SinkFail.Failed (is_planned self.old.fails.items self.new.calls) result }
        ensures counts { self.new.faults ≡ count_after (is_planned self.old.fails.items self.new.calls) self.old.faults }
        ensures calls { self.new.calls ≡ next_count self.old.calls }
        ensures plan { self.new.fails.items ≡ self.old.fails.items }
    {
        self.calls = self.calls.saturating_add(1);
        if self.fails.contains(&self.calls) {
            self.faults = self.faults.saturating_add(1);
            return Err(SinkFail::Failed);
        }
        self.held.put(bytes)
    }

    fn faults(&self) -> u64 {
        self.faults
    }
}
