//! A stack, as a journal's entries leave it.
ghost use Rattle.std.specs.Prelude.{◌≡◌, ◌≤◌, ◌+◌, ◌-◌, ◌∷◌, ◌++◌, [], List, ℕ, IfOk, IfSome, None, OnErr, OnOk, Some, is_some, length, map, option_copied, slice_get, true};
ghost use Rattle.cf_desired.specs.Work.{Member};
ghost use Rattle.cf_effect.specs.Ahead.{AreKept};
ghost use Rattle.cf_effect.specs.Calls.{new_call};
ghost use Rattle.cf_effect.specs.Effect.{on_stack};
ghost use Rattle.cf_effect.specs.Findings.{AreFindings, FindsAt};
ghost use Rattle.cf_effect.specs.Fold.{effect_at, is_opening};
ghost use Rattle.cf_effect.specs.Layout.{IsLayoutOf, source_members};
ghost use Rattle.cf_effect.specs.End.{seen_now};
ghost use Rattle.cf_effect.specs.Reply.{intending, terms_at};
ghost use Rattle.cf_effect.specs.Restoring.{IsRestoring};
ghost use Rattle.cf_effect.specs.Undoing.{IsUndoing};
ghost use Rattle.cf_effect.specs.Bounds.{IsShortOutcomeOf};
ghost use Rattle.cf_stacks.specs.Room.{StackStanding, calls_after, has_call, with_awaited, without_awaited};
ghost use Rattle.cf_stacks.specs.Spare.{HaveOwnTokens, IsRoomFor, KeepsCalls};
ghost use Rattle.cf_effect.specs.Reserve.{HasSpare};
ghost use Rattle.cf_stacks.specs.Stacked.{places_for};
ghost use Rattle.cf_stacks.specs.Standing.{CallFits, stack_called};
ghost use Rattle.cf_effect.specs.State.{before_in, source_in, state_of};
ghost use Rattle.cf_effect.specs.Words.{pending_of};
ghost use Rattle.cf_effect.specs.World.{no_stack};

use crate::room::{
    CallRoom, forget, has_room, put_room, room_for_call, room_of_call, take_outcome, take_room,
};
use cf_desired::Seen;
use cf_effect::{
    Abandoned, Call, Findings, Found, HeardEntries, HeardEntry, Held, Helds, KeptSets, Layout,
    Ledger, Leftovers, Lines, Outset, Pending, Pendings, Restoring, State, Terms, Undoing, find_at,
    findings_of, follow, follow_call, follow_deletion, follow_restore, follow_restored, follow_try,
    is_open, layout_of, look, look_back, look_restoring,
};
use cf_entry::{Entry, Status};
use cf_export::Outputs;
use cf_tree::{ByName, Request, Source, Txt};
use std::alloc::{AllocError, Global};
use std::marker::Model;
use std::mem;

/// A stack, which contracts see as the record of what its entries leave, with the calls whose next
/// outcome has room and how many intents or outcomes may join it besides without taking memory.
#[derive(Drop)]
pub struct StackState {
    state: State,
    rooms: Vec<CallRoom>,
    spare: usize,
    /// What is kept of the paths of its operation's source, where that was looked at, and which are ready, while a creation goes forward.
    findings: Option<Findings>,
    /// Which of its resources may be deleted, while a creation is rolled back.
    undoing: Option<Undoing>,
    /// Which of the resources of before are still to be given back what they had, while an update is rolled back.
    restoring: Option<Restoring>,
}

impl Model for StackState {
    ghost use Rattle.cf_stacks.specs.Room.{StackStanding};

    ghost Value = { StackStanding };

    ghost use Rattle.std.specs.Coded.{codes};
    ghost use Rattle.cf_tree.specs.Datum.{data_code};

    ghost coded = { Prim.hlevel (codes, data_code) };

    ghost use Rattle.cf_stacks.specs.Stacked.{IsStacked, stacked};

    ghost view = { stacked };

    ghost invariant = { IsStacked };
}

/// The stacks, by name.
pub type Stacks = ByName<StackState>;

/// What an intent takes of memory.
#[derive(Drop)]
pub(crate) struct CallParts {
    pub(crate) pending: Pending,
    pub(crate) call: Call,
    pub(crate) line: Txt,
    /// For the outcome of the call.
    pub(crate) room: CallRoom,
}

/// Lets findings go that may be right no longer.
fn lose(findings: &mut Option<Findings>)
    ensures { findings.new ≡ None }
{
    drop(mem::replace(findings, None));
}

/// Lets go what is kept of a rollback that may be right no longer.
fn lose_undoing(undoing: &mut Option<Undoing>)
    ensures { undoing.new ≡ None }
{
    drop(mem::replace(undoing, None));
}

/// Lets go what is kept of the rollback of an update that may be right no longer.
fn lose_restoring(restoring: &mut Option<Restoring>)
    ensures { restoring.new ≡ None }
{
    drop(mem::replace(restoring, None));
}

impl StackState {
    /// The stack with these numbers and lists; it takes no memory.
    pub(crate) fn of(alloc: Global, state: State) -> StackState
        requires apart { HaveOwnTokens state.tokens.items }
        requires spare { HasSpare 0 state }
        ensures { result ≡ record { stack = state_of state; awaited = []; spare = 0 } }
    {
        StackState {
            state,
            rooms: Vec::new(alloc),
            spare: 0,
            findings: None,
            undoing: None,
            restoring: None,
        }
    }

    /// A stack of which nothing is known; it takes no memory.
    pub(crate) fn unknown(alloc: Global) -> StackState
        ensures { result ≡ record { stack = no_stack; awaited = []; spare = 0 } }
    {
        StackState::of(alloc, State::unknown(alloc))
    }

    /// Copies its numbers and lists. After an error nothing is said of the copy.
    pub(crate) fn copy_to(&self, alloc: Global, copy: &mut State) -> Result<(), AllocError>
        ensures { IfOk result (λ _. state_of copy.new ≡ self.now.stack) }
    {
        self.state.copy_to(alloc, copy)
    }

    /// How many places in each list its awaited calls take.
    pub(crate) fn places(&self) -> Result<usize, AllocError>
        ensures { IfOk result (λ n. n ≡ places_for (length self.now.awaited)) }
    {
        self.rooms.len().checked_mul(2).ok_or(AllocError)
    }

    /// Room for the next outcome of a call that goes out, or of the one that is open under its token.
    pub(crate) fn room_for_call(
        &self,
        alloc: Global,
        token: u64,
        path: &Txt,
        request: &Request,
    ) -> Result<CallRoom, AllocError>
        ensures token { IfOk result (λ r. r.token ≡ token) }
        ensures room { IfOk result (λ r. (number : ℕ) (lane : List ℕ)
            → IsRoomFor (intending number (record {
              token = token;
              path = path.now;
              lane = lane;
              request = request.now;
            }) self.now.stack) r) }
    {
        room_for_call(&self.state, alloc, token, path, request)
    }

    /// Lays memory by for so many intents or outcomes besides those that are awaited. After an error
    /// nothing is less than before.
    pub(crate) fn reserve(&mut self, more: usize) -> Result<(), AllocError>
        ensures same { self.new ≡ record self.old { spare = self.new.spare } }
        ensures ok { OnOk result (more ≤ self.new.spare) }
        ensures kept { self.old.spare ≤ self.new.spare }
    {
        if more <= self.spare {
            return Ok(());
        }
        let count = self.rooms.len().checked_add(more).ok_or(AllocError)?;
        let places = count.checked_mul(2).ok_or(AllocError)?;
        self.rooms.reserve(more)?;
        self.state.reserve(places)?;
        self.spare = more;
        Ok(())
    }

    /// Leaves the stack so; it takes no memory.
    #[tactic(auto, using(crate::proofs::Kindred::rooms_keep))]
    pub(crate) fn leave_as(&mut self, state: State)
        requires spare { HasSpare (places_for (length self.old.awaited)) state }
        requires apart { HaveOwnTokens self.old.stack.tokens → HaveOwnTokens state.tokens.items }
        requires keeps { HaveOwnTokens self.old.stack.tokens → KeepsCalls self.old.stack (state_of state) }
        ensures { self.new ≡ record { stack = state_of state; awaited = self.old.awaited; spare = 0 } }
    {
        drop(mem::replace(&mut self.state, state));
        self.spare = 0;
        lose(&mut self.findings);
        lose_undoing(&mut self.undoing);
        lose_restoring(&mut self.restoring);
    }

    /// Leaves the stack so, with none of its calls awaited any more; it takes no memory.
    pub(crate) fn begin_anew(&mut self, state: State)
        requires spare { HasSpare 0 state }
        requires apart { HaveOwnTokens self.old.stack.tokens → HaveOwnTokens state.tokens.items }
        ensures { self.new ≡ record { stack = state_of state; awaited = []; spare = 0 } }
    {
        self.rooms.clear();
        drop(mem::replace(&mut self.state, state));
        self.spare = 0;
        lose(&mut self.findings);
        lose_undoing(&mut self.undoing);
        lose_restoring(&mut self.restoring);
    }

    /// A call is awaited no more.
    #[tactic(auto, using(crate::proofs::Kindred::rooms_left, crate::proofs::Kindred::calls_left))]
    pub(crate) fn forget(&mut self, token: u64)
        ensures { self.new ≡ record self.old { awaited = without_awaited token self.old.awaited } }
    {
        forget(&mut self.rooms, token);
    }

    /// Whether a call is awaited.
    #[tactic(auto, using(crate::proofs::Kindred::has_room))]
    pub(crate) fn awaits(&self, token: u64) -> bool
        ensures { result ≡ has_call token self.now.awaited }
    {
        has_room(self.rooms.as_slice(), token)
    }

    /// Whether a call of a token is open.
    pub(crate) fn has_open(&self, token: u64) -> bool
        ensures { result ≡ is_some (pending_of token self.now.stack) }
    {
        is_open(self.state.tokens.as_slice(), token)
    }

    /// Makes room for the next outcome of an open call. After an error the stack is
    /// as it was, and no call has lost its room.
    pub(crate) fn await_call(&mut self, alloc: Global, token: u64) -> Result<(), AllocError>
        ensures ok { OnOk result (self.new ≡ record self.old { awaited = with_awaited token self.old.awaited; spare = self.new.spare }) }
        ensures err { OnErr result (self.new ≡ record self.old { spare = self.new.spare }) }
    {
        let room = room_of_call(&self.state, alloc, token)?;
        match self.reserve(1) {
            Ok(()) => {
                put_room(&mut self.rooms, room);
                self.spare -= 1;
                Ok(())
            }
            Err(failed) => {
                drop(room);
                Err(failed)
            }
        }
    }

    /// Hears of an opening; it takes no memory.
    pub(crate) fn open(&mut self, place: u64, entry: HeardEntry)
        requires opening { is_opening entry ≡ true }
        requires spare { 1 ≤ self.old.spare }
        ensures { self.new ≡ record {
          stack = (effect_at place entry self.old.stack).stack;
          awaited = self.old.awaited;
          spare = self.old.spare - 1;
        } }
    {
        self.state.open(place, entry);
        self.spare -= 1;
        lose(&mut self.findings);
        lose_undoing(&mut self.undoing);
        lose_restoring(&mut self.restoring);
    }

    /// A call goes out, of which the stack hears; it takes no memory.
    pub(crate) fn call(&mut self, parts: CallParts, entry: Entry)
        requires { CallFits parts self.old }
        ensures { self.new ≡ stack_called parts entry self.old }
    {
        let CallParts {
            pending,
            call,
            line,
            room,
        } = parts;
        follow_try(&self.state, call.number, &pending, &mut self.undoing);
        follow_restore(
            &self.state,
            call.number,
            &pending,
            &entry,
            &mut self.restoring,
        );
        follow_call(&pending, &entry, &mut self.findings);
        self.state.intend(pending, call);
        self.state.hear(HeardEntry::new(entry), Some(line));
        self.spare -= 2;
        put_room(&mut self.rooms, room);
    }

    /// The allocator of its lists.
    pub(crate) fn allocator(&self) -> Global {
        *self.rooms.allocator()
    }

    /// Takes the outcome of a call that is awaited, of which it hears; it takes no memory.
    pub(crate) fn take_outcome(&mut self, place: u64, token: u64, entry: Entry)
        requires token { IsShortOutcomeOf token entry }
        requires awaited { has_call token self.old.awaited ≡ true }
        ensures { self.new ≡ record {
          stack = (effect_at place entry self.old.stack).stack;
          awaited = calls_after entry self.old.awaited;
          spare = self.old.spare;
        } }
    {
        match take_room(&mut self.rooms, token) {
            Some(room) => {
                follow_deletion(&self.state, &entry, &mut self.undoing);
                follow_restored(&self.state, &entry, &mut self.restoring);
                follow(&self.state, &entry, &mut self.findings);
                take_outcome(&mut self.state, place, entry, room);
            }
            None => unreachable!(),
        }
    }

    /// Its status.
    pub fn status(&self) -> Status
        ensures { result ≡ self.now.stack.status }
    {
        self.state.status
    }

    /// The number of the operation that created it; 0 while it is under review.
    pub fn number(&self) -> u64
        ensures { result ≡ self.now.stack.number }
    {
        self.state.number
    }

    /// The number of its last operation.
    pub fn operation(&self) -> u64
        ensures { result ≡ self.now.stack.operation }
    {
        self.state.operation
    }

    /// What it holds.
    pub fn held(&self) -> &Helds
        ensures { result.now.items ≡ self.now.stack.held }
    {
        &self.state.held
    }

    /// What it held as its last create or update began.
    pub fn before(&self) -> &[Held]
        ensures { result.now ≡ self.now.stack.before }
    {
        self.state.before()
    }

    /// What its operation made.
    pub fn made(&self) -> &Helds
        ensures { result.now.items ≡ self.now.stack.made }
    {
        &self.state.made
    }

    /// Its leftovers.
    pub fn leftovers(&self) -> &Leftovers
        ensures { result.now.items ≡ self.now.stack.leftovers }
    {
        &self.state.leftovers
    }

    /// Its open calls.
    pub fn tokens(&self) -> &Pendings
        ensures { result.now.items ≡ self.now.stack.tokens }
    {
        &self.state.tokens
    }

    /// The creates that were given up.
    pub fn abandoned(&self) -> &Abandoned
        ensures { result.now.items ≡ self.now.stack.abandoned }
    {
        &self.state.abandoned
    }

    /// The source that was completed last.
    pub fn source(&self) -> Option<&Source>
        ensures { option_copied result ≡ self.now.stack.source }
    {
        self.state.source.as_ref()
    }

    /// The source of its last create or update.
    pub fn going(&self) -> Option<&Source>
        ensures { option_copied result ≡ self.now.stack.going }
    {
        self.state.going()
    }

    /// What its last create or update set out with, where there was one.
    pub fn outset(&self) -> Option<&Outset>
        ensures before { before_in (option_copied result) ≡ self.now.stack.before }
        ensures source { source_in (option_copied result) ≡ self.now.stack.going }
    {
        self.state.outset.as_ref()
    }

    /// The policies and needs that the source of its last create or update gives a path, over what
    /// was held before.
    ///
    /// # Errors
    ///
    /// Only for want of memory.
    pub fn terms_at(&self, alloc: Global, path: &Txt) -> Result<Terms, AllocError>
        ensures { IfOk result (λ terms. terms ≡ terms_at path.now self.now.stack) }
    {
        self.state.terms_at(alloc, path)
    }

    /// The paths that the source of its last create or update says a path needs, over what was held before.
    pub fn needs_at(&self, path: &Txt) -> &[Txt]
        ensures { result.now ≡ (terms_at path.now self.now.stack).needs }
    {
        self.state.needs_at(path)
    }

    /// What its resources show: those that its operation made before those that it holds.
    ///
    /// # Errors
    ///
    /// Only for want of memory.
    pub fn seen_now(&self, alloc: Global) -> Result<Seen, AllocError>
        ensures { IfOk result (λ seen. seen ≡ seen_now self.now.stack) }
    {
        self.state.seen_now(alloc)
    }

    /// The layout of the source of its last create or update, where there was one.
    pub fn layout(&self) -> Option<&Layout>
        ensures { IsLayoutOf self.now.stack (option_copied result) }
    {
        layout_of(&self.state)
    }

    /// What is kept of the paths of that source, where that was looked at.
    pub fn findings(&self) -> Option<&Findings>
        ensures findings { IfSome (option_copied result) (AreFindings self.now.stack) }
        ensures kept { IfSome (option_copied result) (AreKept self.now.stack) }
    {
        self.findings.as_ref()
    }

    /// What is kept of its rollback, where that was looked at.
    pub fn undoing(&self) -> Option<&Undoing>
        ensures { IfSome (option_copied result) (IsUndoing self.now.stack) }
    {
        self.undoing.as_ref()
    }

    /// What is kept of the rollback of its update, where that was looked at.
    pub fn restoring(&self) -> Option<&Restoring>
        ensures { IfSome (option_copied result) (IsRestoring self.now.stack) }
    {
        self.restoring.as_ref()
    }

    /// Findings of it, of which nothing is worked out yet.
    ///
    /// # Errors
    ///
    /// Only for want of memory.
    pub fn findings_anew(&self, alloc: Global) -> Result<Findings, AllocError>
        ensures { IfOk result (AreFindings self.now.stack) }
    {
        findings_of(alloc, &self.state)
    }

    /// What the properties at a place come to over the resources of now; only what they need is looked
    /// at.
    ///
    /// # Errors
    ///
    /// Only for want of memory.
    pub fn find_at(
        &self,
        alloc: Global,
        findings: &Findings,
        at: usize,
    ) -> Result<Option<Found>, AllocError>
        requires { AreFindings self.now.stack findings.now }
        ensures { IfOk result (λ found. (m : Member) → slice_get (source_members self.now.stack) at ≡ Some m
            → FindsAt self.now.stack m.path found) }
    {
        find_at(alloc, &self.state, findings, at)
    }

    /// Works out what the properties of each path come to all of whose needs have a resource, and which
    /// paths are ready while a creation goes forward; or which of its resources may be deleted, while a
    /// creation is rolled back, and which are to be given back what they had, while an update is; where
    /// that is not known yet. After an error some of it may be worked out.
    pub(crate) fn look(&mut self, alloc: Global) -> Result<(), AllocError>
        ensures { self.new ≡ self.old }
    {
        match self.state.status {
            Status::RollbackInProgress => look_back(alloc, &self.state, &mut self.undoing),
            Status::UpdateRollbackInProgress => {
                look_restoring(alloc, &self.state, &mut self.restoring)
            }
            _ => look(alloc, &self.state, &mut self.findings),
        }
    }

    /// Its outputs.
    pub fn outputs(&self) -> &Outputs
        ensures { result.now ≡ self.now.stack.outputs }
    {
        &self.state.outputs
    }

    /// Its change sets.
    pub fn sets(&self) -> &KeptSets
        ensures { result.now.items ≡ self.now.stack.sets }
    {
        &self.state.sets
    }

    /// The lines that `events` prints.
    pub fn events(&self) -> &Lines
        ensures { result.now.items ≡ self.now.stack.events }
    {
        &self.state.events
    }

    /// Its entries since its last operation began that is no continued rollback, with each opening
    /// since then.
    pub fn entries(&self) -> &HeardEntries
        ensures { result.now.items ≡ self.now.stack.entries }
    {
        &self.state.entries
    }

    /// Its calls: one row for each intent among its entries, and for each call that was open before
    /// them.
    pub fn ledger(&self) -> &Ledger
        ensures { result.now.items ≡ self.now.stack.ledger }
    {
        &self.state.ledger
    }
}
