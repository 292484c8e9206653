//! The world that a journal leaves, stepped to entry by entry.
use crate::words::Words;
use cf_entry::{Entries, Entry};
use cf_stacks::World;
use cf_tree::TryClone;
use std::alloc::Global;
use std::mem;

/// The world after each entry, with room made before each step.
#[derive(Drop)]
pub struct Stepped {
    world: World,
}

impl Stepped {
    /// The world of no entries.
    pub fn new(alloc: Global) -> Stepped {
        Stepped {
            world: World::new(alloc),
        }
    }

    /// The world.
    pub fn world(&mut self) -> &mut World {
        &mut self.world
    }

    /// Steps over an entry that is written.
    pub fn step(&mut self, words: &mut Words, entry: Entry) {
        match self.world.room_for(words.memory.alloc, &entry) {
            Ok(()) => self.world.step(entry),
            Err(_) => {
                drop(entry);
                words.memory.lose();
            }
        }
    }

    /// Begins anew, and steps over each entry of a journal.
    pub fn begin(&mut self, words: &mut Words, journal: &Entries) {
        drop(mem::replace(&mut self.world, World::new(words.memory.alloc)));
        for entry in journal.as_slice() {
            match entry.try_clone(words.memory.alloc) {
                Ok(copy) => self.step(words, copy),
                Err(_) => words.memory.lose(),
            }
        }
    }

    /// Makes room for an entry that is not stepped over.
    pub fn make_room(&mut self, words: &mut Words, entry: &Entry) {
        if self.world.room_for(words.memory.alloc, entry).is_err() {
            words.memory.lose();
        }
    }
}
