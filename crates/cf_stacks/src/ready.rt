//! What is prepared for a step over an entry.
ghost use Rattle.std.specs.Prelude.{◌≡◌, ◌↔◌, ◌≤◌, ◌<◌, ◌+◌, ◌^◌, [], ◌∷◌, ℕ, IfNone, IfOk, IfSome, IsTrue, List, None, OnErr, OnOk, Option, Some, find, is_some, length, map, option_copied, option_map, position, true, false, vec_capacity};
ghost use Rattle.std.specs.List.{AllByRecursion};
ghost use Rattle.std.specs.Option.{option_map_or, unwrap_or};
ghost use Rattle.cf_tree.specs.Keys.{ascends, value_at};
ghost use Rattle.cf_entry.specs.declared.entry.Entry.{Entry as Written};
ghost use Rattle.cf_entry.specs.declared.entry.Entry.TheVariants as entry;
ghost use Rattle.cf_effect.specs.Fold.{effect_at, is_intent, is_opening, stack_for};
ghost use Rattle.cf_effect.specs.Listed.{exports_after, pins_after};
ghost use Rattle.cf_stacks.specs.Ready.{IsAnswer, IsOfStack, IsPrepared};
ghost use Rattle.cf_stacks.specs.Room.{HasRoom, has_call, is_awaited};
ghost use Rattle.cf_effect.specs.Bounds.{IsShortReply};
ghost use Rattle.cf_effect.specs.Reserve.{HasSpare};
ghost use Rattle.cf_stacks.specs.Stacked.{places_for};
ghost use Rattle.cf_stacks.specs.Standing.{CallFits, HasOne, IsLeft, IsPartsOf, KeepsStacks, awaits_on, has_open, StepsOver, awaited_known, calls_in, calls_total, stack_in, stack_known, standing_in, world_in};
ghost use Rattle.cf_effect.specs.State.{effect_from, names_listed, state_of};
ghost use Rattle.cf_effect.specs.World.{StackState as Known, is_going, no_stack, stack_at, stack_of_operation};

use crate::stack::{CallParts, StackState, Stacks};
use crate::standing::{
    Fields, Left, answer_going, call_on, going_at, going_in, in_order, open_all,
};
use cf_effect::{
    HeardEntry, Lists, State, effect_at, intent_line, listed_exports, listed_pins, new_call,
    open_call,
};
use cf_entry::{Begun, Entry, Reply};
use cf_tree::{Request, TryClone, Txt};
use std::alloc::{AllocError, Global};
use std::mem;

/// What is prepared for a step over an entry, by what it changes.
#[derive(Drop)]
pub(crate) enum Work {
    /// It is of no stack.
    Nothing,
    /// It is an opening, of which each stack hears by a copy.
    Opens { copies: Vec<HeardEntry> },
    /// A call goes out on the stack of a name.
    Calls { name: Txt, parts: CallParts },
    /// It is an outcome that is awaited.
    Answers { number: u64, token: u64 },
    /// The stack of a name is left so.
    Leaves { name: Txt, left: Left },
}

/// The entry that there is room for, and what is prepared for it.
#[derive(Drop)]
pub(crate) struct Ready {
    pub(crate) entry: Entry,
    pub(crate) work: Work,
}

impl Fields {
    /// Steps over an entry of no stack.
    fn step_nothing(&mut self, entry: Entry)
        requires place { self.old.place + 1 < 2 ^ 64 }
        requires opening { is_opening entry ≡ false }
        requires none { stack_for entry (world_in self.old) ≡ None }
        ensures steps { StepsOver self.old entry self.new }
        ensures total { calls_total self.new.stacks ≡ calls_total self.old.stacks }
    {
        self.count(entry);
    }

    /// Steps over an opening.
    fn step_opening(&mut self, copies: Vec<HeardEntry>, entry: Entry)
        requires place { self.old.place + 1 < 2 ^ 64 }
        requires opening { is_opening entry ≡ true }
        requires spare { AllByRecursion HasOne self.old.stacks }
        requires copies { AllByRecursion (λ e. e ≡ entry) copies.items }
        requires enough { length self.old.stacks ≤ length copies.items }
        ensures steps { StepsOver self.old entry self.new }
        ensures total { calls_total self.new.stacks ≡ calls_total self.old.stacks }
    {
        open_all(&mut self.stacks, self.place + 1, copies, &entry);
        self.count(entry);
    }

    /// Steps over an intent, of which the stack hears by a copy.
    fn step_call(&mut self, name: Txt, parts: CallParts, entry: Entry, copy: Entry)
        requires place { self.old.place + 1 < 2 ^ 64 }
        requires copy { copy ≡ entry }
        requires of_it { IsOfStack name entry self.old }
        requires stands { is_some (value_at name self.old.stacks) ≡ true }
        requires fits { IfSome (value_at name self.old.stacks) (CallFits parts) }
        requires parts { IsPartsOf entry parts (self.old.place + 1) (stack_known (value_at name self.old.stacks)) }
        ensures steps { StepsOver self.old entry self.new }
        ensures total { calls_total self.new.stacks ≤ calls_total self.old.stacks + 1 }
    {
        in_order(&self.stacks);
        call_on(&mut self.stacks, &name, parts, copy);
        drop(name);
        self.count(entry);
    }

    /// Steps over an entry that leaves its stack so.
    fn step_left(&mut self, name: Txt, left: Left, entry: Entry)
        requires place { self.old.place + 1 < 2 ^ 64 }
        requires opening { is_opening entry ≡ false }
        requires intent { is_intent entry ≡ false }
        requires of_it { IsOfStack name entry self.old }
        requires left { IsLeft entry name left self.old }
        ensures steps { StepsOver self.old entry self.new }
        ensures total { calls_total self.new.stacks ≤ calls_total self.old.stacks }
    {
        in_order(&self.stacks);
        self.leave(name, &entry, left);
        self.count(entry);
    }

    /// Steps over an entry by what was prepared for it; it takes no memory.
    pub(crate) fn apply(&mut self, entry: Entry, ready: Ready)
        requires place { self.old.place + 1 < 2 ^ 64 }
        requires copy { ready.entry ≡ entry }
        requires work { IsPrepared entry self.old ready.work }
        ensures steps { StepsOver self.old entry self.new }
        ensures total { calls_total self.new.stacks ≤ calls_total self.old.stacks + 1 }
    {
        let Ready { entry: copy, work } = ready;
        match work {
            Work::Nothing => {
                drop(copy);
                self.step_nothing(entry);
            }
            Work::Opens { copies } => {
                drop(copy);
                self.step_opening(copies, entry);
            }
            Work::Calls { name, parts } => self.step_call(name, parts, entry, copy),
            Work::Answers { number, token } => {
                drop(copy);
                self.step_answer(number, token, entry);
            }
            Work::Leaves { name, left } => {
                drop(copy);
                self.step_left(name, left, entry);
            }
        }
    }

    /// The name of the stack that an entry is of.
    fn name_for<'a>(&'a self, entry: &'a Entry) -> Option<&'a Txt>
        ensures { option_copied result ≡ option_map (λ s. s.0) (stack_for entry.now (world_in self.now)) }
    {
        match entry {
            Entry::Opened { .. } => None,
            Entry::Begin {
                stack: name,
                kind: Begun::Create { .. },
                ..
            } => Some(name),
            Entry::Begin {
                stack: name,
                kind: Begun::Update { .. } | Begun::Delete { .. } | Begun::Continue { .. },
                ..
            } => self.name_there(name),
            Entry::ChangeSet { stack: name, .. } => Some(name),
            Entry::Kept { number, .. } => self.name_going(*number),
            Entry::Intent { number, .. } => self.name_going(*number),
            Entry::Outcome { number, .. } => self.name_going(*number),
            Entry::Phase { number, .. } => self.name_going(*number),
            Entry::Done { number, .. } => self.name_going(*number),
        }
    }

    /// The name of the stack on which the operation of a number is in progress.
    #[tactic(auto, using(crate::proofs::Prepared::name_going))]
    fn name_going(&self, number: u64) -> Option<&Txt>
        ensures { option_copied result ≡ option_map (λ s. s.0) (stack_of_operation number (world_in self.now)) }
    {
        match going_in(self.stacks.as_slice(), number) {
            Some(pair) => Some(&pair.0),
            None => None,
        }
    }

    /// A name, where its stack is there.
    #[tactic(auto, using(crate::proofs::Prepared::name_there))]
    fn name_there<'a>(&self, name: &'a Txt) -> Option<&'a Txt>
        ensures { option_copied result
            ≡ option_map {T = List ℕ × Known} (λ s. s.0) (option_map (λ s. (name.now, s)) (stack_at name.now (world_in self.now))) }
    {
        match self.stacks.get(name.as_str()) {
            Some(_) => Some(name),
            None => None,
        }
    }

    /// Makes a state what an entry leaves of the stack of a name, with room for the calls that are
    /// awaited. After an error nothing is said of the state.
    fn fill(
        &self,
        alloc: Global,
        place: u64,
        name: &Txt,
        entry: &Entry,
        state: &mut State,
    ) -> Result<Lists, AllocError>
        requires blank { state_of state.old ≡ no_stack }
        requires opening { is_opening entry.now ≡ false }
        requires intent { is_intent entry.now ≡ false }
        ensures effect { IfOk result (λ l. effect_from l state.new
            ≡ effect_at place entry.now (stack_known (value_at name.now self.now.stacks))) }
        ensures spare { IfOk result (λ l. HasSpare (places_for (length (awaited_known (value_at name.now self.now.stacks)))) state.new) }
    {
        let places = match self.stacks.get(name.as_str()) {
            Some(stack) => {
                stack.copy_to(alloc, state)?;
                stack.places()?
            }
            None => 0,
        };
        let lists = effect_at(alloc, place, entry, state)?;
        match state.reserve(places) {
            Ok(()) => Ok(lists),
            Err(failed) => {
                drop(lists);
                Err(failed)
            }
        }
    }

    /// Memory for the map of all stacks to get longer by the stack of a name, where it is new.
    fn longer_for(&self, alloc: Global, name: &Txt) -> Result<Vec<(Txt, StackState)>, AllocError>
        ensures empty { IfOk result (λ more. more.items ≡ []) }
        ensures room { IfOk result (λ more. value_at name.now self.now.stacks ≡ None → length self.now.stacks + 1 ≤ vec_capacity more) }
    {
        if self.stacks.get(name.as_str()).is_some() {
            return Ok(Vec::new(alloc));
        }
        let count = self.stacks.len().checked_add(1).ok_or(AllocError)?;
        Vec::with_capacity(alloc, count)
    }

    /// Adds what is left of the lists of all stacks. After an error nothing is said of what it joins.
    fn list(
        &self,
        alloc: Global,
        name: &Txt,
        lists: &Lists,
        left: &mut Left,
    ) -> Result<(), AllocError>
        ensures state { IfOk result (λ _. left.new.state ≡ left.old.state) }
        ensures exports { IfOk result (λ _. unwrap_or left.new.exports self.now.exports
            ≡ exports_after name.now lists.now.exports self.now.exports) }
        ensures pins { IfOk result (λ _. unwrap_or left.new.pins self.now.pins
            ≡ pins_after name.now (names_listed lists.now.pins) self.now.pins) }
        ensures claims { IfOk result (λ _. unwrap_or left.new.claims self.now.claims
            ≡ pins_after name.now (names_listed lists.now.claims) self.now.claims) }
        ensures empty { IfOk result (λ _. left.new.more.items ≡ []) }
        ensures room { IfOk result (λ _. value_at name.now self.now.stacks ≡ None
            → length self.now.stacks + 1 ≤ vec_capacity left.new.more) }
    {
        left.exports = listed_exports(alloc, &self.exports, name, lists.exports.as_ref())?;
        left.pins = listed_pins(alloc, &self.pins, name, &lists.pins)?;
        left.claims = listed_pins(alloc, &self.claims, name, &lists.claims)?;
        left.more = self.longer_for(alloc, name)?;
        Ok(())
    }

    /// Makes it what an entry leaves of the stack of a name and of the lists of all stacks. After an
    /// error nothing is said of it.
    fn leave_into(
        &self,
        alloc: Global,
        place: u64,
        name: &Txt,
        entry: &Entry,
        left: &mut Left,
    ) -> Result<(), AllocError>
        requires place { place ≡ self.now.place + 1 }
        requires opening { is_opening entry.now ≡ false }
        requires intent { is_intent entry.now ≡ false }
        requires blank { state_of left.old.state ≡ no_stack }
        ensures { IfOk result (λ _. IsLeft entry.now name.now left.new self.now) }
    {
        let lists = self.fill(alloc, place, name, entry, &mut left.state)?;
        let listed = self.list(alloc, name, &lists, left);
        drop(lists);
        listed
    }

    /// What an entry leaves of the stack of a name and of the lists of all stacks.
    fn left(&self, alloc: Global, name: &Txt, entry: &Entry) -> Result<Left, AllocError>
        requires opening { is_opening entry.now ≡ false }
        requires intent { is_intent entry.now ≡ false }
        ensures { IfOk result (λ left. IsLeft entry.now name.now left self.now) }
    {
        let place = self.place.checked_add(1).ok_or(AllocError)?;
        let mut left = Left {
            state: State::unknown(alloc),
            exports: None,
            pins: None,
            claims: None,
            more: Vec::new(alloc),
        };
        match self.leave_into(alloc, place, name, entry, &mut left) {
            Ok(()) => Ok(left),
            Err(failed) => {
                drop(left);
                Err(failed)
            }
        }
    }

    /// Prepares an entry that is neither an opening nor an intent.
    #[tactic(auto, using(crate::proofs::Prepared::is_for, crate::proofs::Prepared::is_for_none))]
    fn prepare_left(&self, alloc: Global, entry: &Entry) -> Result<Work, AllocError>
        requires opening { is_opening entry.now ≡ false }
        requires intent { is_intent entry.now ≡ false }
        ensures { IfOk result (IsPrepared entry.now self.now) }
    {
        in_order(&self.stacks);
        match self.name_for(entry) {
            Some(name) => {
                let name = name.try_clone(alloc)?;
                match self.left(alloc, &name, entry) {
                    Ok(left) => Ok(Work::Leaves { name, left }),
                    Err(failed) => {
                        drop(name);
                        Err(failed)
                    }
                }
            }
            None => Ok(Work::Nothing),
        }
    }

    /// Whether the outcome of a call is awaited on the stack of an operation.
    fn awaits(&self, number: u64, token: u64) -> bool
        ensures { result ≡ is_awaited number token (standing_in self.now) }
    {
        in_order(&self.stacks);
        awaits_in(self.stacks.as_slice(), number, token)
    }

    /// The operation and the token of an outcome that is awaited and short.
    pub(crate) fn awaited_call(&self, entry: &Entry) -> Option<(u64, u64)>
        ensures some { IfSome result (λ c. IsAnswer c.0 c.1 entry.now self.now) }
        ensures none { IfNone result ((ready : Option Written)
            → HasRoom (record (standing_in self.now) { ready = ready }) entry.now → ready ≡ Some entry.now) }
    {
        match entry {
            Entry::Outcome {
                number,
                token,
                answer,
                ..
            } => {
                if is_short(answer) && self.awaits(*number, *token) {
                    Some((*number, *token))
                } else {
                    None
                }
            }
            _ => None,
        }
    }

    /// Prepares an entry that is neither an opening nor an intent; for an outcome that is awaited there
    /// is room already.
    fn prepare_other(&self, alloc: Global, entry: &Entry) -> Result<Work, AllocError>
        requires opening { is_opening entry.now ≡ false }
        requires intent { is_intent entry.now ≡ false }
        ensures { IfOk result (IsPrepared entry.now self.now) }
    {
        match self.awaited_call(entry) {
            Some((number, token)) => Ok(Work::Answers { number, token }),
            None => self.prepare_left(alloc, entry),
        }
    }
}

/// Whether an answer is within the bounds on answers.
fn is_short(answer: &Reply) -> bool
    ensures { IsTrue result ↔ IsShortReply answer.now }
{
    match answer {
        Reply::Success { physical, attrs } => {
            physical.as_str().len() <= 1_024 && attrs.size() <= 524_288
        }
        _ => true,
    }
}

/// Whether the outcome of a call is awaited on the stack of an operation.
fn awaits_in(pairs: &[(Txt, StackState)], number: u64, token: u64) -> bool
    ensures { result ≡ option_map_or (λ s. has_call token s.1.awaited) (find (λ s. is_going number s.1.stack) pairs.now) false }
{
    match going_in(pairs, number) {
        Some(pair) => pair.1.awaits(token),
        None => false,
    }
}

/// What an intent takes of memory, on its stack.
fn call_parts(
    alloc: Global,
    place: u64,
    number: u64,
    token: u64,
    lane: &Txt,
    path: &Txt,
    request: &Request,
    stack: &StackState,
) -> Result<CallParts, AllocError>
    ensures parts { IfOk result (λ p. IsPartsOf (entry.Intent number token lane.now path.now request.now) p place stack.now.stack) }
    ensures fits { 2 ≤ stack.now.spare → IfOk result (λ p. CallFits p stack.now) }
{
    let pending = open_call(alloc, token, lane, path, request)?;
    let call = new_call(alloc, number, stack.status(), token, lane, path, request)?;
    let line = intent_line(alloc, place, path, request)?;
    let room = stack.room_for_call(alloc, token, path, request)?;
    Ok(CallParts {
        pending,
        call,
        line,
        room,
    })
}

/// Lays memory by for one intent or outcome more of each stack. After an error nothing is less than
/// before.
fn reserve_each(pairs: &mut Vec<(Txt, StackState)>) -> Result<(), AllocError>
    ensures stacks { map stack_in pairs.new.items ≡ map stack_in pairs.old.items }
    ensures calls { map calls_in pairs.new.items ≡ map calls_in pairs.old.items }
    ensures ok { OnOk result (AllByRecursion HasOne pairs.new.items) }
{
    for pair in pairs.iter_mut() {
        pair.1.reserve(1)?;
    }
    Ok(())
}

/// Lays memory by for two intents or outcomes more of the stack of an operation. After an error nothing
/// is less than before.
fn reserve_going(pairs: &mut Vec<(Txt, StackState)>, number: u64) -> Result<(), AllocError>
    ensures stacks { map stack_in pairs.new.items ≡ map stack_in pairs.old.items }
    ensures calls { map calls_in pairs.new.items ≡ map calls_in pairs.old.items }
    ensures ok { OnOk result (IfSome (find (λ s. is_going number s.1.stack) pairs.new.items) (λ s. 2 ≤ s.1.spare)) }
{
    match going_at(pairs.as_slice(), number) {
        Some(at) => pairs[at].1.reserve(2),
        None => Ok(()),
    }
}

/// The place of the first stack on which the call of a token is open.
fn open_at(pairs: &[(Txt, StackState)], token: u64) -> Option<usize>
    ensures { result ≡ position (has_open token) pairs.now }
{
    pairs.iter().position(|pair| pair.1.has_open(token))
}

/// Makes room for the next outcome of the call of a token, on the first stack where it is open. After
/// an error the stacks are as they were, and no call has lost its room.
fn await_on(alloc: Global, pairs: &mut Vec<(Txt, StackState)>, token: u64) -> Result<(), AllocError>
    requires { ascends pairs.old.items ≡ true }
    ensures stacks { map stack_in pairs.new.items ≡ map stack_in pairs.old.items }
    ensures ok { OnOk result (map calls_in pairs.new.items ≡ awaits_on token pairs.old.items) }
    ensures err { OnErr result (map calls_in pairs.new.items ≡ map calls_in pairs.old.items) }
{
    match open_at(pairs.as_slice(), token) {
        Some(at) => pairs[at].1.await_call(alloc, token),
        None => Ok(()),
    }
}

/// Looks at the stack of an operation.
fn look_at(alloc: Global, pairs: &mut Vec<(Txt, StackState)>, number: u64) -> Result<(), AllocError>
    ensures { pairs.new.items ≡ pairs.old.items }
{
    match going_at(pairs.as_slice(), number) {
        Some(at) => pairs[at].1.look(alloc),
        None => Ok(()),
    }
}

impl Fields {
    /// Prepares an opening. After an error the fields are as they were, but for memory.
    fn prepare_opening(&mut self, alloc: Global, entry: &Entry) -> Result<Work, AllocError>
        requires { is_opening entry.now ≡ true }
        ensures kept { KeepsStacks self.old self.new }
        ensures ok { IfOk result (IsPrepared entry.now self.new) }
    {
        let mut pairs = mem::replace(&mut self.stacks, Stacks::new(alloc)).into_vec();
        let reserved = reserve_each(&mut pairs);
        self.stacks = Stacks::from_vec(pairs);
        reserved?;
        let mut copies = Vec::new(alloc);
        match add_heard(alloc, entry, self.stacks.len(), &mut copies) {
            Ok(()) => Ok(Work::Opens { copies }),
            Err(failed) => {
                drop(copies);
                Err(failed)
            }
        }
    }

    /// The place of the next entry.
    fn next_place(&self) -> Result<u64, AllocError>
        ensures { IfOk result (λ place. place ≡ self.now.place + 1) }
    {
        self.place.checked_add(1).ok_or(AllocError)
    }

    /// Prepares an intent, over stacks that have memory for it.
    fn parts_for(
        &self,
        alloc: Global,
        number: u64,
        token: u64,
        lane: &Txt,
        path: &Txt,
        request: &Request,
    ) -> Result<Work, AllocError>
        requires { IfSome (find (λ s. is_going number s.1.stack) self.now.stacks) (λ s. 2 ≤ s.1.spare) }
        ensures { IfOk result (IsPrepared (entry.Intent number token lane.now path.now request.now) self.now) }
    {
        match going_in(self.stacks.as_slice(), number) {
            Some(pair) => {
                let place = self.next_place()?;
                let name = pair.0.try_clone(alloc)?;
                match call_parts(alloc, place, number, token, lane, path, request, &pair.1) {
                    Ok(parts) => Ok(Work::Calls { name, parts }),
                    Err(failed) => {
                        drop(name);
                        Err(failed)
                    }
                }
            }
            None => Ok(Work::Nothing),
        }
    }

    /// Lays memory by for an intent of an operation. After an error the fields are as they were, but
    /// for memory.
    fn reserve_call(&mut self, alloc: Global, number: u64) -> Result<(), AllocError>
        ensures kept { KeepsStacks self.old self.new }
        ensures ok { OnOk result (IfSome (find (λ s. is_going number s.1.stack) self.new.stacks) (λ s. 2 ≤ s.1.spare)) }
    {
        let mut pairs = mem::replace(&mut self.stacks, Stacks::new(alloc)).into_vec();
        let reserved = reserve_going(&mut pairs, number);
        self.stacks = Stacks::from_vec(pairs);
        reserved
    }

    /// Prepares an entry. After an error the fields are as they were, but for memory.
    pub(crate) fn prepare(&mut self, alloc: Global, entry: &Entry) -> Result<Work, AllocError>
        ensures kept { KeepsStacks self.old self.new }
        ensures ok { IfOk result (IsPrepared entry.now self.new) }
    {
        match entry {
            Entry::Opened { .. } => self.prepare_opening(alloc, entry),
            Entry::Intent {
                number,
                token,
                lane,
                path,
                request,
            } => {
                self.reserve_call(alloc, *number)?;
                self.parts_for(alloc, *number, *token, lane, path, request)
            }
            _ => self.prepare_other(alloc, entry),
        }
    }

    /// Makes room for the next outcome of the call of a token, where it is open. After an error the
    /// fields are as they were, but for memory.
    pub(crate) fn await_again(&mut self, alloc: Global, token: u64) -> Result<(), AllocError>
        ensures rest { self.new ≡ record self.old { stacks = self.new.stacks } }
        ensures stacks { map stack_in self.new.stacks ≡ map stack_in self.old.stacks }
        ensures ok { OnOk result (map calls_in self.new.stacks ≡ awaits_on token self.old.stacks) }
        ensures err { OnErr result (map calls_in self.new.stacks ≡ map calls_in self.old.stacks) }
    {
        let mut pairs = mem::replace(&mut self.stacks, Stacks::new(alloc)).into_vec();
        let awaited = await_on(alloc, &mut pairs, token);
        self.stacks = Stacks::from_vec(pairs);
        awaited
    }

    /// Looks at the stack on which the operation of a number is in progress.
    pub(crate) fn look(&mut self, alloc: Global, number: u64) -> Result<(), AllocError>
        ensures { self.new ≡ self.old }
    {
        let mut pairs = mem::replace(&mut self.stacks, Stacks::new(alloc)).into_vec();
        let looked = look_at(alloc, &mut pairs, number);
        self.stacks = Stacks::from_vec(pairs);
        looked
    }

    /// Steps over a short outcome of a call that is awaited; it takes no memory.
    pub(crate) fn step_answer(&mut self, number: u64, token: u64, entry: Entry)
        requires place { self.old.place + 1 < 2 ^ 64 }
        requires answer { IsAnswer number token entry self.old }
        ensures steps { StepsOver self.old entry self.new }
        ensures total { calls_total self.new.stacks + 1 ≤ calls_total self.old.stacks }
    {
        in_order(&self.stacks);
        let place = self.place + 1;
        answer_going(&mut self.stacks, place, number, token, entry);
        self.place = place;
    }
}

/// Adds copies of an entry, so many. After an error nothing is said of what they join.
fn add_heard(
    alloc: Global,
    entry: &Entry,
    count: usize,
    copies: &mut Vec<HeardEntry>,
) -> Result<(), AllocError>
    requires { copies.old.items ≡ [] }
    ensures copies { IfOk result (λ _. AllByRecursion (λ e. e ≡ entry.now) copies.new.items) }
    ensures count { IfOk result (λ _. count ≤ length copies.new.items) }
{
    while copies.len() < count {
        let copy = entry.try_clone(alloc)?;
        copies.push(HeardEntry::new(copy))?;
    }
    Ok(())
}
