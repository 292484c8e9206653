//! What an entry leaves of the stack that it is of.
ghost use Rattle.std.specs.Prelude.{◌≡◌, ◌+◌, ◌∷◌, ◌++◌, [], ℕ, IfOk, true, false};
ghost use Rattle.cf_entry.specs.declared.entry.Entry.TheVariants as entry;
ghost use Rattle.cf_effect.specs.Effect.{entries_with, on_stack};
ghost use Rattle.cf_effect.specs.Event.{line_in};
ghost use Rattle.cf_effect.specs.Fold.{effect_at, effect_of, is_intent, is_opening};
ghost use Rattle.cf_effect.specs.Reserve.{HasSpare};
ghost use Rattle.cf_effect.specs.State.{effect_from, state_of};

use crate::begin::{begin, kept_set};
use crate::end::{end, turn};
use crate::events::line_of;
use crate::heard::HeardEntry;
use crate::ledger::count_anew;
use crate::listed::Lists;
use crate::state::State;
use cf_entry::Entry;
use cf_tree::{Rows, Source, TryClone, Txt};
use std::alloc::{AllocError, Global};

/// A change set joins the others of its stack. After an error nothing is said of the stack.
fn review(
    alloc: Global,
    number: u64,
    name: &Txt,
    source: &Source,
    rows: &Rows,
    outputs: bool,
    stack: &mut State,
) -> Result<(), AllocError>
    ensures { IfOk result (λ _. on_stack (state_of stack.new)
        ≡ effect_of (entry.ChangeSet number name.now source.now rows.now outputs) (state_of stack.old)) }
{
    let set = kept_set(alloc, number, name, source, rows, outputs)?;
    stack.review(set)
}

/// Changes a stack as an entry says that is neither an opening nor an intent. After an error nothing is
/// said of the stack.
fn effect_of(alloc: Global, entry: &Entry, stack: &mut State) -> Result<Lists, AllocError>
    requires opening { is_opening entry.now ≡ false }
    requires intent { is_intent entry.now ≡ false }
    ensures { IfOk result (λ l. effect_from l stack.new ≡ effect_of entry.now (state_of stack.old)) }
{
    match entry {
        Entry::Opened { .. } | Entry::Intent { .. } => unreachable!(),
        Entry::Begin {
            number,
            stack: name,
            kind,
        } => begin(alloc, *number, name, kind, stack),
        Entry::Kept {
            path,
            physical,
            why,
            ..
        } => {
            stack.keep(alloc, path, physical, *why)?;
            Ok(Lists::same())
        }
        Entry::Outcome { token, answer, .. } => {
            stack.answer(alloc, *token, answer)?;
            Ok(Lists::same())
        }
        Entry::Phase { phase, .. } => turn(alloc, *phase, stack),
        Entry::Done { status, .. } => end(alloc, *status, stack),
        Entry::ChangeSet {
            number,
            stack: name,
            source,
            rows,
            outputs,
        } => {
            review(alloc, *number, name, source, rows, *outputs, stack)?;
            Ok(Lists::same())
        }
    }
}

impl State {
    /// Adds an entry to the stack's own, with its line for `events`; it takes no memory.
    pub fn hear(&mut self, entry: HeardEntry, line: Option<Txt>)
        requires { HasSpare 1 self.old }
        ensures state { state_of self.new ≡ record (state_of self.old) {
          entries = (state_of self.old).entries ++ entry ∷ [];
          events = (state_of self.old).events ++ line_in line;
        } }
        ensures spare { (n : ℕ) → HasSpare (n + 1) self.old → HasSpare n self.new }
    {
        self.entries.push_reserved(entry);
        if let Some(line) = line {
            self.events.push_reserved(line);
        }
    }

    /// Hears of an opening; it takes no memory.
    #[tactic(auto, using(crate::proofs::Openings::opened_first, crate::proofs::Openings::opened_more))]
    pub fn open(&mut self, place: u64, entry: HeardEntry)
        requires opening { is_opening entry ≡ true }
        requires spare { HasSpare 1 self.old }
        ensures state { state_of self.new ≡ (effect_at place entry (state_of self.old)).stack }
        ensures spare { (n : ℕ) → HasSpare (n + 1) self.old → HasSpare n self.new }
    {
        let _place = place;
        count_anew(&mut self.ledger);
        if self.entries.is_empty() {
            drop(entry);
        } else {
            self.entries.push_reserved(entry);
        }
    }

    /// Adds a line for `events`. After an error nothing is said of the stack.
    fn add_line(&mut self, line: Option<Txt>) -> Result<(), AllocError>
        ensures { IfOk result (λ _. state_of self.new
            ≡ record (state_of self.old) { events = (state_of self.old).events ++ line_in line }) }
    {
        if let Some(line) = line {
            self.events.push(line)?;
        }
        Ok(())
    }

    /// Adds a copy of an entry to the stack's own, with its line for `events`. After an error nothing
    /// is said of the stack.
    fn hear_copy(
        &mut self,
        alloc: Global,
        entry: &Entry,
        line: Option<Txt>,
    ) -> Result<(), AllocError>
        ensures { IfOk result (λ _. state_of self.new
            ≡ record (state_of self.old) {
              entries = (state_of self.old).entries ++ entry.now ∷ [];
              events = (state_of self.old).events ++ line_in line;
            }) }
    {
        self.reserve(1)?;
        match entry.try_clone(alloc) {
            Ok(entry) => {
                self.hear(HeardEntry::new(entry), line);
                Ok(())
            }
            Err(failed) => {
                drop(line);
                Err(failed)
            }
        }
    }

    /// Adds an entry, which is no opening, to the stack's own where it joins them, with its line for
    /// `events`. After an error nothing is said of the stack.
    fn join(&mut self, alloc: Global, entry: &Entry, line: Option<Txt>) -> Result<(), AllocError>
        requires { is_opening entry.now ≡ false }
        ensures { IfOk result (λ _. state_of self.new
            ≡ record (state_of self.old) {
              entries = entries_with entry.now (state_of self.old).entries;
              events = (state_of self.old).events ++ line_in line;
            }) }
    {
        match entry {
            Entry::ChangeSet { .. } => self.add_line(line),
            Entry::Opened { .. } => unreachable!(),
            _ => self.hear_copy(alloc, entry, line),
        }
    }
}

/// Changes a stack as the entry at a place says, which is neither an opening nor an intent, and of
/// which the stack hears; gives what becomes of the names that the stack lists among all stacks.
///
/// After an error nothing is said of the stack.
///
/// # Errors
///
/// Only for want of memory.
pub fn effect_at(
    alloc: Global,
    place: u64,
    entry: &Entry,
    stack: &mut State,
) -> Result<Lists, AllocError>
    requires opening { is_opening entry.now ≡ false }
    requires intent { is_intent entry.now ≡ false }
    ensures { IfOk result (λ l. effect_from l stack.new ≡ effect_at place entry.now (state_of stack.old)) }
{
    let line = line_of(alloc, place, entry, stack)?;
    match effect_of(alloc, entry, stack) {
        Ok(lists) => match stack.join(alloc, entry, line) {
            Ok(()) => Ok(lists),
            Err(failed) => {
                drop(lists);
                Err(failed)
            }
        },
        Err(failed) => {
            drop(line);
            Err(failed)
        }
    }
}
