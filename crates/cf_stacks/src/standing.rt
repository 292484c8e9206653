//! The fields of a world, and what a step changes of them without taking memory.
ghost use Rattle.std.specs.Prelude.{◌≡◌, ◌≤◌, ◌<◌, ◌+◌, ◌^◌, [], Err, IsTrue, Ok, Some, IfSome, find, length, map, option_copied, position, vec_capacity, true, false};
ghost use Rattle.std.specs.List.{AllByRecursion};
ghost use Rattle.std.specs.Option.{option_map_or, unwrap_or};
ghost use Rattle.cf_tree.specs.Keys.{ascends, place, put, value_at};
ghost use Rattle.cf_effect.specs.Fold.{is_intent, is_opening, numbered};
ghost use Rattle.cf_effect.specs.Bounds.{IsShortOutcomeOf};
ghost use Rattle.cf_stacks.specs.Room.{StackStanding, calls_after, has_call};
ghost use Rattle.cf_stacks.specs.Spare.{HaveOwnTokens, LeavesCalls};
ghost use Rattle.cf_effect.specs.Reserve.{HasSpare};
ghost use Rattle.cf_stacks.specs.Stacked.{places_for};
ghost use Rattle.cf_stacks.specs.Standing.{CallFits, HasOne, IsLeft, LeftFits, answered_at, stack_called, left_as, opened_as, world_in};
ghost use Rattle.cf_effect.specs.State.{state_of};
ghost use Rattle.cf_effect.specs.World.{is_going};

use crate::stack::{CallParts, StackState, Stacks};
use cf_effect::{HeardEntry, State, is_in_progress};
use cf_entry::{Begun, Entry, LaneNames};
use cf_export::{Exports, Pins};
use cf_tree::Txt;
use std::cmp::Ordering;
use std::mem;

/// The fields of a world.
#[derive(Drop)]
pub(crate) struct Fields {
    pub(crate) stacks: Stacks,
    pub(crate) exports: Exports,
    pub(crate) pins: Pins,
    pub(crate) claims: Pins,
    pub(crate) lanes: LaneNames,
    pub(crate) epoch: u64,
    pub(crate) operation: u64,
    pub(crate) set: u64,
    pub(crate) token: u64,
    pub(crate) place: u64,
}

/// What an entry leaves of its stack and, where they change, of the lists of all stacks.
#[derive(Drop)]
pub(crate) struct Left {
    pub(crate) state: State,
    pub(crate) exports: Option<Exports>,
    pub(crate) pins: Option<Pins>,
    pub(crate) claims: Option<Pins>,
    /// For the map of all stacks, where the stack is new.
    pub(crate) more: Vec<(Txt, StackState)>,
}

/// The names of the stacks are in the order of their bytes.
pub(crate) fn in_order(stacks: &Stacks)
    ensures { ascends stacks.now ≡ true }
{
    let _pairs = stacks.as_slice();
}

/// The place of the stack of a name, or else where it would go.
pub(crate) fn place_of(pairs: &[(Txt, StackState)], name: &str) -> Result<usize, usize>
    requires { IsTrue (ascends pairs.now) }
    ensures { result ≡ place name.now pairs.now }
{
    let mut low = 0;
    let mut high = pairs.len();
    while low < high {
        let middle = low + (high - low) / 2;
        match pairs[middle].0.order_of(name) {
            Ordering::Less => high = middle,
            Ordering::Equal => return Ok(middle),
            Ordering::Greater => low = middle + 1,
        }
    }
    Err(low)
}

/// Whether the operation of a number is in progress on a stack.
pub(crate) fn is_going(stack: &StackState, number: u64) -> bool
    ensures { result ≡ is_going number stack.now.stack }
{
    stack.operation() == number && is_in_progress(stack.status())
}

/// The stack, with its name, on which the operation of a number is in progress.
pub(crate) fn going_in(pairs: &[(Txt, StackState)], number: u64) -> Option<&(Txt, StackState)>
    ensures { option_copied result ≡ find (λ s. is_going number s.1.stack) pairs.now }
{
    pairs.iter().find(|pair| is_going(&pair.1, number))
}

/// Leaves a stack as an entry does, but for an intent; it takes no memory.
fn change(stack: &mut StackState, entry: &Entry, state: State)
    requires entry { is_intent entry.now ≡ false }
    requires fits { LeftFits entry.now state 0 0 (Some stack.old) }
    ensures { stack.new ≡ left_as entry.now state (Some stack.old) }
{
    match entry {
        Entry::Begin {
            kind: Begun::Create { .. } | Begun::Update { .. },
            ..
        } => stack.begin_anew(state),
        Entry::Outcome { token, .. } => {
            stack.leave_as(state);
            stack.forget(*token);
        }
        _ => stack.leave_as(state),
    }
}

/// Leaves the stack of a name, which is at this place, as an entry does.
#[tactic(auto, using(cf_tree::proofs::Lookups::entry_found, cf_tree::proofs::Lookups::entry_in, cf_tree::proofs::Placed::entry_kept))]
fn leave_at(pairs: &mut Vec<(Txt, StackState)>, at: usize, name: &Txt, entry: &Entry, state: State)
    requires place { place name.now pairs.old.items ≡ Ok at }
    requires order { ascends pairs.old.items ≡ true }
    requires entry { is_intent entry.now ≡ false }
    requires fits { LeftFits entry.now state 0 0 (value_at name.now pairs.old.items) }
    ensures { pairs.new.items ≡ put name.now (left_as entry.now state (value_at name.now pairs.old.items)) pairs.old.items }
{
    change(&mut pairs[at].1, entry, state);
}

/// All stacks, in memory for one more, with a new one under a name, whose place is this.
#[tactic(auto, using(cf_tree::proofs::Placed::entry_within, cf_tree::proofs::Placed::entry_new))]
fn insert_at(
    mut pairs: Vec<(Txt, StackState)>,
    at: usize,
    name: Txt,
    stack: StackState,
    mut more: Vec<(Txt, StackState)>,
) -> Vec<(Txt, StackState)>
    requires place { place name pairs.items ≡ Err at }
    requires empty { more.items ≡ [] }
    requires room { length pairs.items + 1 ≤ vec_capacity more }
    ensures { result.items ≡ put name stack pairs.items }
{
    more.append(&mut pairs).unwrap();
    more.insert(at, (name, stack)).unwrap();
    more
}

/// Leaves the stack of a name as an entry does, but for an intent; it takes no memory.
#[tactic(auto, using(cf_tree::proofs::Lookups::entry_missed, cf_tree::proofs::Order::ascends_put, crate::proofs::Worlds::none_after))]
pub(crate) fn put_left(
    stacks: &mut Stacks,
    name: Txt,
    entry: &Entry,
    state: State,
    more: Vec<(Txt, StackState)>,
)
    requires entry { is_intent entry.now ≡ false }
    requires fits { LeftFits entry.now state (vec_capacity more) (length stacks.old) (value_at name stacks.old) }
    requires empty { more.items ≡ [] }
    ensures { stacks.new ≡ put name (left_as entry.now state (value_at name stacks.old)) stacks.old }
{
    let alloc = *more.allocator();
    let mut pairs = mem::replace(stacks, Stacks::new(alloc)).into_vec();
    match place_of(pairs.as_slice(), name.as_str()) {
        Ok(at) => {
            leave_at(&mut pairs, at, &name, entry, state);
            *stacks = Stacks::from_vec(pairs);
        }
        Err(at) => {
            let pairs = insert_at(pairs, at, name, StackState::of(alloc, state), more);
            *stacks = Stacks::from_vec(pairs);
        }
    }
}

/// A call goes out on the stack of a name, which is at this place.
#[tactic(auto, using(cf_tree::proofs::Lookups::entry_found, cf_tree::proofs::Lookups::entry_in, cf_tree::proofs::Placed::entry_kept))]
fn call_at(
    pairs: &mut Vec<(Txt, StackState)>,
    at: usize,
    name: &Txt,
    parts: CallParts,
    entry: Entry,
)
    requires place { place name.now pairs.old.items ≡ Ok at }
    requires order { ascends pairs.old.items ≡ true }
    requires fits { IfSome (value_at name.now pairs.old.items) (CallFits parts) }
    ensures { pairs.new.items
        ≡ option_map_or (λ s. put name.now (stack_called parts entry s) pairs.old.items) (value_at name.now pairs.old.items) pairs.old.items }
{
    pairs[at].1.call(parts, entry);
}

/// A call goes out on the stack of a name; it takes no memory.
#[tactic(auto, using(cf_tree::proofs::Lookups::entry_missed, crate::proofs::Worlds::called_ascend, crate::proofs::Worlds::none_called))]
pub(crate) fn call_on(stacks: &mut Stacks, name: &Txt, parts: CallParts, entry: Entry)
    requires { IfSome (value_at name.now stacks.old) (CallFits parts) }
    ensures { stacks.new ≡ option_map_or (λ s. put name.now (stack_called parts entry s) stacks.old) (value_at name.now stacks.old) stacks.old }
{
    let alloc = *parts.room.spelled.allocator();
    let mut pairs = mem::replace(stacks, Stacks::new(alloc)).into_vec();
    match place_of(pairs.as_slice(), name.as_str()) {
        Ok(at) => call_at(&mut pairs, at, name, parts, entry),
        Err(_) => {
            drop(parts);
            drop(entry);
        }
    }
    *stacks = Stacks::from_vec(pairs);
}

/// The place of the stack of an operation.
pub(crate) fn going_at(pairs: &[(Txt, StackState)], number: u64) -> Option<usize>
    ensures { result ≡ position (λ s. is_going number s.1.stack) pairs.now }
{
    pairs.iter().position(|pair| is_going(&pair.1, number))
}

/// The stack of an operation, which is at this place, takes the outcome of a call that is awaited.
fn answer_at(
    pairs: &mut Vec<(Txt, StackState)>,
    at: usize,
    place: u64,
    number: u64,
    token: u64,
    entry: Entry,
)
    requires place { position (λ s. is_going number s.1.stack) pairs.old.items ≡ Some at }
    requires order { ascends pairs.old.items ≡ true }
    requires entry { IsShortOutcomeOf token entry }
    requires awaited { IfSome (find (λ s. is_going number s.1.stack) pairs.old.items) (λ s. has_call token s.1.awaited ≡ true) }
    ensures { pairs.new.items
        ≡ option_map_or (λ s. put s.0 (answered_at place entry s.1) pairs.old.items)
        (find (λ s. is_going number s.1.stack) pairs.old.items) pairs.old.items }
{
    pairs[at].1.take_outcome(place, token, entry);
}

/// The stack of an operation takes the outcome of a call that is awaited on it; it takes no memory.
pub(crate) fn answer_going(stacks: &mut Stacks, place: u64, number: u64, token: u64, entry: Entry)
    requires entry { IsShortOutcomeOf token entry }
    requires awaited { IfSome (find (λ s. is_going number s.1.stack) stacks.old) (λ s. has_call token s.1.awaited ≡ true) }
    ensures { stacks.new
        ≡ option_map_or (λ s. put s.0 (answered_at place entry s.1) stacks.old)
        (find (λ s. is_going number s.1.stack) stacks.old) stacks.old }
{
    let alloc = match going_in(stacks.as_slice(), number) {
        Some(pair) => pair.1.allocator(),
        None => {
            drop(entry);
            return;
        }
    };
    let mut pairs = mem::replace(stacks, Stacks::new(alloc)).into_vec();
    match going_at(pairs.as_slice(), number) {
        Some(at) => answer_at(&mut pairs, at, place, number, token, entry),
        None => drop(entry),
    }
    *stacks = Stacks::from_vec(pairs);
}

/// Each stack hears of an opening, of which these are copies; it takes no memory.
fn open_each(
    pairs: &mut Vec<(Txt, StackState)>,
    place: u64,
    copies: &mut Vec<HeardEntry>,
    entry: &Entry,
)
    requires opening { is_opening entry.now ≡ true }
    requires spare { AllByRecursion HasOne pairs.old.items }
    requires copies { AllByRecursion (λ e. e ≡ entry.now) copies.old.items }
    requires enough { length pairs.old.items ≤ length copies.old.items }
    ensures { pairs.new.items ≡ map (λ s. (s.0, opened_as place entry.now s.1)) pairs.old.items }
{
    for pair in pairs.iter_mut() {
        match copies.pop() {
            Some(copy) => pair.1.open(place, copy),
            None => unreachable!(),
        }
    }
}

/// All stacks hear of an opening, of which these are copies; it takes no memory.
#[tactic(auto, using(crate::proofs::Worlds::opened_ascend))]
pub(crate) fn open_all(stacks: &mut Stacks, place: u64, mut copies: Vec<HeardEntry>, entry: &Entry)
    requires opening { is_opening entry.now ≡ true }
    requires spare { AllByRecursion HasOne stacks.old }
    requires copies { AllByRecursion (λ e. e ≡ entry.now) copies.items }
    requires enough { length stacks.old ≤ length copies.items }
    ensures { stacks.new ≡ map (λ s. (s.0, opened_as place entry.now s.1)) stacks.old }
{
    let alloc = *copies.allocator();
    let mut pairs = mem::replace(stacks, Stacks::new(alloc)).into_vec();
    open_each(&mut pairs, place, &mut copies, entry);
    drop(copies);
    *stacks = Stacks::from_vec(pairs);
}

impl Fields {
    /// Counts an entry, and notes the last numbers and the lanes of the last opening; it takes no
    /// memory.
    pub(crate) fn count(&mut self, entry: Entry)
        requires { self.old.place + 1 < 2 ^ 64 }
        ensures world { world_in self.new ≡ record (numbered entry (world_in self.old)) { place = self.old.place + 1 } }
        ensures stacks { self.new.stacks ≡ self.old.stacks }
    {
        self.place += 1;
        match entry {
            Entry::Opened { epoch, lanes } => {
                self.epoch = epoch;
                self.lanes = lanes;
            }
            Entry::Begin {
                number,
                stack: _stack,
                kind: _kind,
            } => self.operation = number,
            Entry::Intent {
                token,
                lane: _lane,
                path: _path,
                request: _request,
                ..
            } => self.token = token,
            Entry::ChangeSet {
                number,
                stack: _stack,
                source: _source,
                rows: _rows,
                ..
            } => self.set = number,
            _other => {}
        }
    }

    /// Leaves a stack as an entry does, but for an intent, with what it lists; it takes no memory.
    pub(crate) fn leave(&mut self, name: Txt, entry: &Entry, left: Left)
        requires entry { is_intent entry.now ≡ false }
        requires left { IsLeft entry.now name left self.old }
        ensures stacks { self.new.stacks ≡ put name (left_as entry.now left.state (value_at name self.old.stacks)) self.old.stacks }
        ensures rest { self.new ≡ record self.old {
          stacks = self.new.stacks;
          exports = unwrap_or left.exports self.old.exports;
          pins = unwrap_or left.pins self.old.pins;
          claims = unwrap_or left.claims self.old.claims;
        } }
    {
        let Left {
            state,
            exports,
            pins,
            claims,
            more,
        } = left;
        put_left(&mut self.stacks, name, entry, state, more);
        replace_some(&mut self.exports, exports);
        replace_some(&mut self.pins, pins);
        replace_some(&mut self.claims, claims);
    }
}

/// Puts a value in the place of another one, where there is one.
fn replace_some<T: Drop>(place: &mut T, value: Option<T>)
    ensures { place.new ≡ unwrap_or value place.old }
{
    match value {
        Some(value) => drop(mem::replace(place, value)),
        None => {}
    }
}
