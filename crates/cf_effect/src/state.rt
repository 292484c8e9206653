//! A stack's numbers and lists.
ghost use Rattle.std.specs.Prelude.{◌≡◌, ◌≤◌, ◌+◌, ◌∷◌, ◌++◌, [], ℕ, IfOk, OnOk, Some, map, option_copied, true};
ghost use Rattle.cf_effect.specs.End.{seen_now, stopping, turning, whole_now};
ghost use Rattle.cf_effect.specs.Reply.{deleting, terms_at, with_status};
ghost use Rattle.cf_effect.specs.Reserve.{HasSpare, TermsFit};
ghost use Rattle.cf_effect.specs.State.{state_of};
ghost use Rattle.cf_effect.specs.Words.{is_create};
ghost use Rattle.cf_effect.specs.World.{no_stack};

use crate::call::Ledger;
use crate::copies::{copy_into, copy_list};
use crate::heard::HeardEntries;
use crate::held::{Abandoned, Held, HeldStatus, Helds, KeptSets, Leftovers, Pendings};
use crate::ledger::count_anew;
use crate::outset::{Outset, before_in, needs_in, source_in, terms_in, whole_in};
use crate::resources::{has_physical, mark, remove, set_status};
use crate::seen::seen_in_both;
use crate::statuses::turned;
use crate::terms::Terms;
use crate::tokens::pending_with;
use cf_desired::{Seen, WholePlan};
use cf_entry::{Phase, Status};
use cf_export::Outputs;
use cf_tree::{Request, Source, Txt};
use std::alloc::{AllocError, Global};

/// Lines that `events` prints.
pub type Lines = Vec<Txt>;

/// A stack's numbers and lists. Contracts see it by `state_of`, as the record of what its entries
/// leave.
#[derive(Drop)]
pub struct State {
    pub status: Status,
    pub number: u64,
    pub operation: u64,
    pub held: Helds,
    pub made: Helds,
    pub leftovers: Leftovers,
    pub tokens: Pendings,
    pub abandoned: Abandoned,
    pub source: Option<Source>,
    pub outset: Option<Outset>,
    pub outputs: Outputs,
    pub sets: KeptSets,
    pub events: Lines,
    pub entries: HeardEntries,
    pub ledger: Ledger,
}

impl State {
    /// A stack of which nothing is known; it takes no memory.
    pub fn unknown(alloc: Global) -> State
        ensures { state_of result ≡ no_stack }
    {
        State {
            status: Status::DeleteComplete,
            number: 0,
            operation: 0,
            held: Vec::new(alloc),
            made: Vec::new(alloc),
            leftovers: Vec::new(alloc),
            tokens: Vec::new(alloc),
            abandoned: Vec::new(alloc),
            source: None,
            outset: None,
            outputs: Outputs::new(alloc),
            sets: Vec::new(alloc),
            events: Vec::new(alloc),
            entries: Vec::new(alloc),
            ledger: Vec::new(alloc),
        }
    }

    /// Copies what the stack holds and what is open into another. After an error nothing is said of
    /// it.
    fn copy_resources(&self, alloc: Global, copy: &mut State) -> Result<(), AllocError>
        ensures { IfOk result (λ _. state_of copy.new
            ≡ record (state_of copy.old) {
              held = self.now.held.items;
              made = self.now.made.items;
              leftovers = self.now.leftovers.items;
              tokens = self.now.tokens.items;
              abandoned = self.now.abandoned.items;
            }) }
    {
        copy_list(alloc, self.held.as_slice(), &mut copy.held)?;
        copy_list(alloc, self.made.as_slice(), &mut copy.made)?;
        copy_list(alloc, self.leftovers.as_slice(), &mut copy.leftovers)?;
        copy_list(alloc, self.tokens.as_slice(), &mut copy.tokens)?;
        copy_list(alloc, self.abandoned.as_slice(), &mut copy.abandoned)
    }

    /// Copies what the stack heard and its sources into another. After an error nothing is said of it.
    fn copy_history(&self, alloc: Global, copy: &mut State) -> Result<(), AllocError>
        ensures { IfOk result (λ _. state_of copy.new
            ≡ record (state_of copy.old) {
              before = (state_of self.now).before;
              source = self.now.source;
              going = (state_of self.now).going;
              outputs = self.now.outputs;
              sets = self.now.sets.items;
              events = self.now.events.items;
              entries = self.now.entries.items;
              ledger = self.now.ledger.items;
            }) }
    {
        copy_into(alloc, &self.source, &mut copy.source)?;
        copy_into(alloc, &self.outset, &mut copy.outset)?;
        copy.outputs = self.outputs.try_clone(alloc)?;
        copy_list(alloc, self.sets.as_slice(), &mut copy.sets)?;
        copy_list(alloc, self.events.as_slice(), &mut copy.events)?;
        copy_list(alloc, self.entries.as_slice(), &mut copy.entries)?;
        copy_list(alloc, self.ledger.as_slice(), &mut copy.ledger)
    }

    /// Makes another stack a copy of this one. After an error nothing is said of the other one.
    ///
    /// # Errors
    ///
    /// Only for want of memory.
    pub fn copy_to(&self, alloc: Global, copy: &mut State) -> Result<(), AllocError>
        ensures { IfOk result (λ _. state_of copy.new ≡ state_of self.now) }
    {
        self.copy_resources(alloc, copy)?;
        self.copy_history(alloc, copy)?;
        copy.status = self.status;
        copy.number = self.number;
        copy.operation = self.operation;
        Ok(())
    }

    /// Lays memory by for so many intents or outcomes. After an error the stack is as it was, and
    /// no less is laid by.
    ///
    /// # Errors
    ///
    /// Only for want of memory.
    pub fn reserve(&mut self, more: usize) -> Result<(), AllocError>
        ensures same { state_of self.new ≡ state_of self.old }
        ensures spare { OnOk result (HasSpare more self.new) }
        ensures kept { (n : ℕ) → HasSpare n self.old → HasSpare n self.new }
    {
        self.made.reserve(more)?;
        self.tokens.reserve(more)?;
        self.events.reserve(more)?;
        self.entries.reserve(more)?;
        self.ledger.reserve(more)?;
        Ok(())
    }

    /// The source of its last create or update.
    pub fn going(&self) -> Option<&Source>
        ensures { option_copied result ≡ (state_of self.now).going }
    {
        source_in(&self.outset)
    }

    /// What it held as that began.
    pub fn before(&self) -> &[Held]
        ensures { result.now ≡ (state_of self.now).before }
    {
        before_in(&self.outset)
    }

    /// What its resources show: those that its operation made before those that it holds.
    ///
    /// # Errors
    ///
    /// Only for want of memory.
    pub fn seen_now(&self, alloc: Global) -> Result<Seen, AllocError>
        ensures { IfOk result (λ seen. seen ≡ seen_now (state_of self.now)) }
    {
        seen_in_both(alloc, self.made.as_slice(), self.held.as_slice())
    }

    /// The policies and needs that the source of the operation gives a path over what was held
    /// before.
    ///
    /// # Errors
    ///
    /// Only for want of memory.
    pub fn terms_at(&self, alloc: Global, path: &Txt) -> Result<Terms, AllocError>
        ensures { IfOk result (λ terms. terms ≡ terms_at path.now (state_of self.now)) }
    {
        terms_in(alloc, &self.outset, path)
    }

    /// The paths that the source of the operation says a path needs, over what was held before.
    pub fn needs_at(&self, path: &Txt) -> &[Txt]
        ensures { result.now ≡ (terms_at path.now (state_of self.now)).needs }
    {
        needs_in(&self.outset, path)
    }

    /// The policies and needs of what a call is to make, if it is to make something.
    ///
    /// # Errors
    ///
    /// Only for want of memory.
    pub fn terms_of_request(
        &self,
        alloc: Global,
        path: &Txt,
        request: &Request,
    ) -> Result<Terms, AllocError>
        ensures { IfOk result (λ t. is_create request.now ≡ true → t ≡ terms_at path.now (state_of self.now)) }
    {
        match request {
            Request::Create { .. } => self.terms_at(alloc, path),
            _ => Ok(Terms::usual(alloc)),
        }
    }

    /// The policies and needs of what the call of a token makes, where it is open and makes
    /// something.
    ///
    /// # Errors
    ///
    /// Only for want of memory.
    pub fn terms_of_call(&self, alloc: Global, token: u64) -> Result<Terms, AllocError>
        ensures { IfOk result (λ terms. TermsFit token terms (state_of self.now)) }
    {
        match pending_with(self.tokens.as_slice(), token) {
            Some(pending) => self.terms_of_request(alloc, &pending.path, &pending.request),
            None => Ok(Terms::usual(alloc)),
        }
    }

    /// What the source of the operation wants, all of it, over the resource of each path; nothing
    /// where that is not known.
    pub(crate) fn whole_now(&self, alloc: Global) -> Result<WholePlan, AllocError>
        ensures { IfOk result (λ whole. whole ≡ whole_now (state_of self.now)) }
    {
        let seen = self.seen_now(alloc)?;
        whole_in(alloc, &self.outset, &seen)
    }

    /// Gives the resource of a physical id a status.
    pub(crate) fn set_status(&mut self, physical: &Txt, status: HeldStatus)
        ensures state { state_of self.new ≡ with_status physical.now status (state_of self.old) }
        ensures spare { (n : ℕ) → HasSpare n self.old → HasSpare n self.new }
    {
        if has_physical(self.held.as_slice(), physical) {
            set_status(&mut self.held, physical, status);
        } else {
            set_status(&mut self.made, physical, status);
        }
    }

    /// Takes the resource of a physical id off its list.
    pub(crate) fn delete(&mut self, physical: &Txt)
        ensures state { state_of self.new ≡ deleting physical.now (state_of self.old) }
        ensures spare { (n : ℕ) → HasSpare n self.old → HasSpare n self.new }
    {
        remove(&mut self.held, physical);
        remove(&mut self.made, physical);
    }

    /// Enters a phase, but for what a cleanup completes.
    pub(crate) fn turn(&mut self, phase: Phase)
        ensures { state_of self.new ≡ turning phase (state_of self.old) }
    {
        self.status = turned(self.status, phase);
        count_anew(&mut self.ledger);
    }

    /// Stops in a status: each resource of which a call is open is left in doubt.
    pub(crate) fn stop(&mut self, status: Status)
        ensures { state_of self.new ≡ stopping status (state_of self.old) }
    {
        self.status = status;
        mark(&mut self.held, self.tokens.as_slice());
        mark(&mut self.made, self.tokens.as_slice());
    }
}
