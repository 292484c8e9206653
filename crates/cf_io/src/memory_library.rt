ghost use Rattle.std.specs.Prelude.{◌≡◌, IfOk, Some};
ghost use Rattle.cf_tree.specs.Counts.{next_count, count_after};
ghost use Rattle.cf_io.specs.Library.{Fetches, HasFetchCause, CountsMisses};
ghost use Rattle.cf_io.specs.Stores.{stored_texts, is_planned, FailsWhere};

use crate::library::{FetchFault, Library};
use crate::steady_library::SteadyLibrary;
use cf_tree::{NoMemory, Txt};
use std::alloc::Global;

/// A library in memory whose failures are planned.
#[derive(Drop)]
pub struct MemoryLibrary {
    held: SteadyLibrary,
    fails: Vec<u64>,
    calls: u64,
    faults: u64,
}

impl MemoryLibrary {
    /// A library that holds copies of these texts, of which the first under a name counts, and fails in
    /// the fetches of the numbers in `fails`, counted from 1.
    pub fn new(
        alloc: Global,
        texts: &[(Txt, Vec<u8>)],
        fails: &[u64],
    ) -> Result<MemoryLibrary, NoMemory>
        ensures holds { IfOk result (λ l. ⟦<MemoryLibrary as Library>⟧.texts l ≡ Some (stored_texts texts.now)) }
        ensures faultless { IfOk result (λ l. ⟦<MemoryLibrary as Library>⟧.count l ≡ 0) }
        ensures unmissed { IfOk result (λ l. ⟦<MemoryLibrary as Library>⟧.missed l ≡ 0) }
        ensures planned { IfOk result (λ l. l.fails.items ≡ fails.now) }
        ensures uncalled { IfOk result (λ l. l.calls ≡ 0) }
    {
        let held = SteadyLibrary::new(alloc, texts)?;
        let fails = Vec::from_slice(alloc, fails)?;
        Ok(MemoryLibrary {
            held,
            fails,
            calls: 0,
            faults: 0,
        })
    }
}

impl Library for MemoryLibrary {
    ghost texts = { λ l. ⟦<SteadyLibrary as Library>⟧.texts l.held };

    ghost count = { λ l. l.faults };

    ghost missed = { λ l. ⟦<SteadyLibrary as Library>⟧.missed l.held };

    fn fetch(&mut self, name: &str) -> Result<Option<Vec<u8>>, FetchFault>
        ensures found { Fetches (⟦<MemoryLibrary as Library>⟧.texts self.old) name.now result }
        ensures same { ⟦<MemoryLibrary as Library>⟧.texts self.new ≡ ⟦<MemoryLibrary as Library>⟧.texts self.old }
        ensures cause { HasFetchCause self.old.faults self.new.faults result }
        ensures misses { CountsMisses (⟦<MemoryLibrary as Library>⟧.missed self.old)
            (⟦<MemoryLibrary as Library>⟧.missed self.new) result }
        ensures planned { FailsWhere FetchFault.Failed (is_planned self.old.fails.items self.new.calls) result }
        ensures counts { self.new.faults ≡ count_after (is_planned self.old.fails.items self.new.calls) self.old.faults }
        ensures calls { self.new.calls ≡ next_count self.old.calls }
        ensures plan { self.new.fails.items ≡ self.old.fails.items }
    {
        self.calls = self.calls.saturating_add(1);
        if self.fails.contains(&self.calls) {
            self.faults = self.faults.saturating_add(1);
            return Err(FetchFault::Failed);
        }
        self.held.fetch(name)
    }

    fn faults(&self) -> u64 {
        self.faults
    }

    fn misses(&self) -> u64 {
        self.held.misses()
    }
}
