//! The world of all stacks, as a journal's entries leave it.
ghost use Rattle.std.specs.Prelude.{◌≡◌, ◌+◌, ◌<◌, ◌^◌, IfOk, None, OnErr, OnOk, Some, map, option_copied, option_map};
ghost use Rattle.cf_effect.specs.Fold.{fold_of, world_after};
ghost use Rattle.cf_stacks.specs.Room.{HasRoom, KeepsRooms, awaited_with, bare, stepped, with_room};
ghost use Rattle.cf_stacks.specs.Standing.{stack_in};
ghost use Rattle.cf_effect.specs.World.{empty_world, stack_at, stack_of_operation};

use crate::ready::Ready;
use crate::stack::{StackState, Stacks};
use crate::standing::{Fields, going_in, in_order};
use cf_entry::{Entries, Entry, LaneNames};
use cf_export::{Exports, Pins};
use cf_tree::{TryClone, Txt};
use std::alloc::{AllocError, Global};
use std::marker::Model;
use std::mem;

/// The world that a journal's entries leave, which contracts see as the record of that, with what
/// there is room for.
#[derive(Drop)]
pub struct World {
    fields: Fields,
    ready: Option<Ready>,
    /// No fewer than the calls that are awaited.
    calls: u64,
}

impl Model for World {
    ghost use Rattle.cf_stacks.specs.Room.{Standing};

    ghost Value = { Standing };

    ghost use Rattle.std.specs.Coded.{codes};
    ghost use Rattle.cf_tree.specs.Datum.{data_code};

    ghost coded = { Prim.hlevel (codes, data_code) };

    ghost use Rattle.cf_stacks.specs.Worlds.{IsStanding, standing_of};

    ghost view = { standing_of };

    ghost invariant = { IsStanding };
}

/// Whether so many entries more can be counted, besides the outcomes of the calls that are awaited.
fn leaves_places(place: u64, calls: u64, more: u64) -> Result<(), AllocError>
    ensures { IfOk result (λ _. place + calls + more < 2 ^ 64) }
{
    let count = place.checked_add(calls).ok_or(AllocError)?;
    count.checked_add(more).ok_or(AllocError)?;
    Ok(())
}

impl World {
    /// The world before the first entry; it takes no memory.
    pub fn new(alloc: Global) -> World
        ensures { result ≡ bare empty_world }
    {
        World {
            fields: Fields {
                stacks: Stacks::new(alloc),
                exports: Exports::new(alloc),
                pins: Pins::new(alloc),
                claims: Pins::new(alloc),
                lanes: LaneNames::new(alloc),
                epoch: 0,
                operation: 0,
                set: 0,
                token: 0,
                place: 0,
            },
            ready: None,
            calls: 0,
        }
    }

    /// The stacks, by name.
    pub fn stacks(&self) -> &Stacks
        ensures { map stack_in result.now ≡ self.now.world.stacks }
    {
        &self.fields.stacks
    }

    /// The stack of a name.
    pub fn stack(&self, name: &str) -> Option<&StackState>
        ensures { option_map (λ s. s.stack) (option_copied result) ≡ stack_at name.now self.now.world }
    {
        self.fields.stacks.get(name)
    }

    /// The stack, with its name, on which the operation of a number is in progress.
    pub fn stack_of_operation(&self, number: u64) -> Option<&(Txt, StackState)>
        ensures { option_map stack_in (option_copied result) ≡ stack_of_operation number self.now.world }
    {
        going_in(self.fields.stacks.as_slice(), number)
    }

    /// The exports of all stacks, by name.
    pub fn exports(&self) -> &Exports
        ensures { result.now ≡ self.now.world.exports }
    {
        &self.fields.exports
    }

    /// Which stack pins which export.
    pub fn pins(&self) -> &Pins
        ensures { result.now ≡ self.now.world.pins }
    {
        &self.fields.pins
    }

    /// Which stack claims which export name.
    pub fn claims(&self) -> &Pins
        ensures { result.now ≡ self.now.world.claims }
    {
        &self.fields.claims
    }

    /// The lanes of the last opening, with their types.
    pub fn lanes(&self) -> &LaneNames
        ensures { result.now ≡ self.now.world.lanes }
    {
        &self.fields.lanes
    }

    /// The number of the last opening.
    pub fn epoch(&self) -> u64
        ensures { result ≡ self.now.world.epoch }
    {
        self.fields.epoch
    }

    /// The number of the last operation.
    pub fn operation(&self) -> u64
        ensures { result ≡ self.now.world.operation }
    {
        self.fields.operation
    }

    /// The number of the last change set.
    pub fn set(&self) -> u64
        ensures { result ≡ self.now.world.set }
    {
        self.fields.set
    }

    /// The number of the last call.
    pub fn token(&self) -> u64
        ensures { result ≡ self.now.world.token }
    {
        self.fields.token
    }

    /// Works out, for the stack on which the operation of a number is in progress, what the properties
    /// of each path come to all of whose needs have a resource: each once, and again only where
    /// something that it needs has changed. The world stays as it is; after an error some of that may
    /// be worked out.
    ///
    /// # Errors
    ///
    /// Only for want of memory.
    pub fn look(&mut self, alloc: Global, number: u64) -> Result<(), AllocError>
        ensures { self.new ≡ self.old }
    {
        self.fields.look(alloc, number)
    }

    /// Gives up the room for an entry.
    fn give_up(&mut self)
        ensures { self.new ≡ record self.old { ready = None } }
    {
        drop(self.ready.take());
    }

    /// Makes room for the next outcome of a call that is open already, where the entry is its intent.
    /// After an error the world is as it was, and no call has lost its room.
    fn await_again(&mut self, alloc: Global, entry: &Entry) -> Result<(), AllocError>
        requires { self.old.ready ≡ None }
        ensures ok { OnOk result (self.new ≡ record self.old { awaited = awaited_with entry.now self.old }) }
        ensures err { OnErr result (self.new ≡ self.old) }
    {
        match entry {
            Entry::Intent { token, .. } => {
                leaves_places(self.fields.place, self.calls, 1)?;
                in_order(&self.fields.stacks);
                self.fields.await_again(alloc, *token)?;
                self.calls += 1;
                Ok(())
            }
            _ => Ok(()),
        }
    }

    /// Prepares an entry. After an error the world is as it was.
    fn prepare(&mut self, alloc: Global, entry: &Entry) -> Result<(), AllocError>
        requires { self.old.ready ≡ None }
        ensures ok { OnOk result (self.new ≡ record self.old { ready = Some entry.now }) }
        ensures err { OnErr result (self.new ≡ self.old) }
    {
        leaves_places(self.fields.place, self.calls, 2)?;
        let copy = entry.try_clone(alloc)?;
        match self.fields.prepare(alloc, entry) {
            Ok(work) => {
                drop(mem::replace(&mut self.ready, Some(Ready { entry: copy, work })));
                Ok(())
            }
            Err(failed) => {
                drop(copy);
                Err(failed)
            }
        }
    }

    /// Makes room for a step over this entry, so that the step itself takes no memory, in place of what
    /// was made so for another entry. With an intent there is then room for each outcome that may
    /// follow it, within the bounds on answers: an id of 1,024 bytes, and attributes that encode to
    /// 524,288. That room stays until an outcome of the call is stepped over, whatever other entries
    /// are stepped over before. Before a call is repeated, this makes room for its next outcome once
    /// more, by the intent that was stepped over already.
    ///
    /// After an error there is no room for an entry; the world is as it was, and no call has lost its
    /// room.
    ///
    /// # Errors
    ///
    /// For want of memory; and where the number of entries comes to 2^63.
    pub fn room_for(&mut self, alloc: Global, entry: &Entry) -> Result<(), AllocError>
        ensures ok { OnOk result (self.new ≡ with_room entry.now self.old) }
        ensures err { OnErr result (KeepsRooms self.old entry.now self.new) }
    {
        self.give_up();
        self.await_again(alloc, entry)?;
        self.prepare(alloc, entry)
    }

    /// Steps over an entry for which there is room; it takes no memory.
    pub fn step(&mut self, entry: Entry)
        requires { HasRoom self.old entry }
        ensures { self.new ≡ stepped self.old entry }
    {
        match self.fields.awaited_call(&entry) {
            Some((number, token)) => {
                drop(self.ready.take());
                in_order(&self.fields.stacks);
                self.fields.step_answer(number, token, entry);
                self.calls -= 1;
            }
            None => match self.ready.take() {
                Some(ready) => {
                    self.fields.apply(entry, ready);
                    self.calls += 1;
                }
                None => unreachable!(),
            },
        }
    }
}

impl World {
    /// Makes room for an entry and steps over it. After an error the world is as it was.
    #[tactic(auto, using(crate::proofs::Folded::room_made))]
    fn take(&mut self, alloc: Global, entry: Entry) -> Result<(), AllocError>
        ensures { IfOk result (λ _. self.new.world ≡ world_after self.old.world entry) }
    {
        match self.room_for(alloc, &entry) {
            Ok(()) => {
                self.step(entry);
                Ok(())
            }
            Err(failed) => {
                drop(entry);
                Err(failed)
            }
        }
    }

    /// Steps over entries. After an error the world is as some of them leave it.
    #[tactic(auto, using(crate::proofs::Folded::folded_more))]
    fn take_all(&mut self, alloc: Global, entries: Vec<Entry>) -> Result<(), AllocError>
        ensures { IfOk result (λ _. self.new.world ≡ fold_of self.old.world entries.items) }
    {
        for entry in entries {
            self.take(alloc, entry)?;
        }
        Ok(())
    }
}

/// The world that these entries leave.
///
/// # Errors
///
/// For want of memory; and where the number of entries comes to 2^63.
pub fn fold(alloc: Global, entries: Entries) -> Result<World, AllocError>
    ensures { IfOk result (λ world. world.world ≡ fold_of empty_world entries) }
{
    let mut world = World::new(alloc);
    match world.take_all(alloc, entries.into_vec()) {
        Ok(()) => Ok(world),
        Err(failed) => {
            drop(world);
            Err(failed)
        }
    }
}
