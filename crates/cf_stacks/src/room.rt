//! What the outcome of a call takes of memory.
ghost use Rattle.std.specs.Prelude.{◌≡◌, ◌≤◌, ◌+◌, ◌∷◌, ◌++◌, [], List, ℕ, IfOk, IfSome, true, filter, find, not, position, string_bytes, string_capacity, vec_len, vec_capacity};
ghost use Rattle.cf_effect.specs.Fold.{effect_at};
ghost use Rattle.cf_effect.specs.Bounds.{IsShortOutcomeOf};
ghost use Rattle.cf_stacks.specs.Room.{answer_in};
ghost use Rattle.std.specs.List.{list_any};
ghost use Rattle.cf_effect.specs.Reply.{intending};
ghost use Rattle.cf_effect.specs.Reserve.{HasSpare};
ghost use Rattle.cf_stacks.specs.Spare.{IsNewRoom, IsRoomFor, LineFits, is_room_of};
ghost use Rattle.cf_effect.specs.State.{state_of};

use cf_effect::{HeardEntry, State, Terms, growing_line, is_open, line_in_room, pending_with};
use cf_entry::{Entry, Reply};
use cf_tree::{Request, Txt};
use std::alloc::{AllocError, Global};

/// What the longest outcome of a call takes: an id has at most 1,024 bytes, attributes encode to at most
/// 524,288, and the rest of an outcome to 38.
const LONGEST: usize = 525_350;

/// What the next outcome of a call takes of memory, whatever it is.
#[derive(Drop)]
pub(crate) struct CallRoom {
    pub(crate) token: u64,
    /// The policies and needs of what it makes.
    pub(crate) terms: Terms,
    /// For the line that `events` prints.
    pub(crate) line: String,
    /// For the spelling of the outcome, which the stack keeps.
    pub(crate) spelled: Vec<u8>,
}

impl CallRoom {
    /// Room for the next outcome of a call whose policies, needs and line are made.
    pub(crate) fn new(
        alloc: Global,
        token: u64,
        terms: Terms,
        line: String,
    ) -> Result<CallRoom, AllocError>
        ensures parts { IfOk result (λ r. r ≡ record { token = token; terms = terms; line = line; spelled = r.spelled }) }
        ensures empty { IfOk result (λ r. r.spelled.items ≡ []) }
        ensures spelled { IfOk result (λ r. 525350 ≤ vec_capacity r.spelled) }
    {
        match Vec::with_capacity(alloc, LONGEST) {
            Ok(spelled) => Ok(CallRoom {
                token,
                terms,
                line,
                spelled,
            }),
            Err(failed) => {
                drop(terms);
                drop(line);
                Err(failed)
            }
        }
    }
}

/// The answer that an entry writes down, where it is an outcome; it takes no memory.
fn reply_in(entry: Entry) -> Option<Reply>
    ensures { result ≡ answer_in entry }
{
    match entry {
        Entry::Outcome { answer, .. } => Some(answer),
        _other => None,
    }
}

/// The place of the room of a call.
fn place_of_room(rooms: &[CallRoom], token: u64) -> Option<usize>
    ensures { result ≡ position (is_room_of token) rooms.now }
{
    rooms.iter().position(|room| token == room.token)
}

/// Takes the room of a call, where it is there.
#[tactic(auto, using(cf_effect::proofs::Closed::closed_first, cf_effect::proofs::Closed::first_closed, cf_effect::proofs::Closed::none_closed, cf_effect::proofs::Closed::closed_none))]
pub(crate) fn take_room(rooms: &mut Vec<CallRoom>, token: u64) -> Option<CallRoom>
    ensures room { result ≡ find (is_room_of token) rooms.old.items }
    ensures items { rooms.new.items ≡ filter (λ r. not (is_room_of token r)) rooms.old.items }
    ensures len { IfSome result (λ _. vec_len rooms.new + 1 ≤ vec_len rooms.old) }
    ensures capacity { vec_capacity rooms.new ≡ vec_capacity rooms.old }
{
    match place_of_room(rooms.as_slice(), token) {
        Some(at) => {
            let room = rooms.remove(at);
            forget(rooms, token);
            Some(room)
        }
        None => None,
    }
}

/// Whether there is a room of a call.
pub(crate) fn has_room(rooms: &[CallRoom], token: u64) -> bool
    ensures { result ≡ list_any (is_room_of token) rooms.now }
{
    rooms.iter().any(|room| token == room.token)
}

/// Gives up the rooms of a call.
pub(crate) fn forget(rooms: &mut Vec<CallRoom>, token: u64)
    ensures items { rooms.new.items ≡ filter (λ r. not (is_room_of token r)) rooms.old.items }
    ensures len { vec_len rooms.new ≤ vec_len rooms.old }
    ensures capacity { vec_capacity rooms.new ≡ vec_capacity rooms.old }
{
    rooms.retain(|room| !(token == room.token));
}

/// Adds the room of a call, in place of another one of it; it takes no memory.
pub(crate) fn put_room(rooms: &mut Vec<CallRoom>, room: CallRoom)
    requires { vec_len rooms.old + 1 ≤ vec_capacity rooms.old }
    ensures items { rooms.new.items ≡ filter (λ r. not (is_room_of room.token r)) rooms.old.items ++ room ∷ [] }
    ensures len { vec_len rooms.new ≤ vec_len rooms.old + 1 }
    ensures capacity { vec_capacity rooms.new ≡ vec_capacity rooms.old }
{
    forget(rooms, room.token);
    rooms.push_reserved(room);
}

/// Room for the line of the next outcome of a call, where it is open.
fn line_of_call(state: &State, alloc: Global, token: u64) -> Result<String, AllocError>
    ensures empty { IfOk result (λ line. string_bytes line ≡ []) }
    ensures line { IfOk result (λ line. LineFits token (string_capacity line) (state_of state.now)) }
{
    match pending_with(state.tokens.as_slice(), token) {
        Some(pending) => growing_line(alloc, &pending.path),
        None => Ok(String::new(alloc)),
    }
}

/// Room for the next outcome of an open call.
pub(crate) fn room_of_call(state: &State, alloc: Global, token: u64) -> Result<CallRoom, AllocError>
    ensures token { IfOk result (λ r. r.token ≡ token) }
    ensures room { IfOk result (λ r. IsRoomFor (state_of state.now) r) }
{
    let terms = state.terms_of_call(alloc, token)?;
    let line = line_of_call(state, alloc, token)?;
    CallRoom::new(alloc, token, terms, line)
}

/// Room for the next outcome of a call that goes out under a token that is not open.
fn room_of_new(
    state: &State,
    alloc: Global,
    token: u64,
    path: &Txt,
    request: &Request,
) -> Result<CallRoom, AllocError>
    ensures token { IfOk result (λ r. r.token ≡ token) }
    ensures room { IfOk result (IsNewRoom path.now request.now (state_of state.now)) }
{
    let terms = state.terms_of_request(alloc, path, request)?;
    let line = growing_line(alloc, path)?;
    CallRoom::new(alloc, token, terms, line)
}

/// Room for the next outcome of a call that goes out, or of the one that is open under its token.
#[tactic(auto, using(crate::proofs::Calling::room_of_new, crate::proofs::Calling::room_of_open))]
pub(crate) fn room_for_call(
    state: &State,
    alloc: Global,
    token: u64,
    path: &Txt,
    request: &Request,
) -> Result<CallRoom, AllocError>
    ensures token { IfOk result (λ r. r.token ≡ token) }
    ensures room { IfOk result (λ r. (number : ℕ) (lane : List ℕ)
        → IsRoomFor (intending number (record {
          token = token;
          path = path.now;
          lane = lane;
          request = request.now;
        }) (state_of state.now)) r) }
{
    if is_open(state.tokens.as_slice(), token) {
        room_of_call(state, alloc, token)
    } else {
        room_of_new(state, alloc, token, path, request)
    }
}

/// Takes the outcome of a call, for which there is room, and hears of it; it takes no memory.
#[tactic(auto, using(crate::proofs::Short::outcome_short))]
pub(crate) fn take_outcome(state: &mut State, place: u64, entry: Entry, room: CallRoom)
    requires outcome { IsShortOutcomeOf room.token entry }
    requires room { IsRoomFor (state_of state.old) room }
    requires spare { HasSpare 2 state.old }
    ensures state { state_of state.new ≡ (effect_at place entry (state_of state.old)).stack }
    ensures spare { (n : ℕ) → HasSpare (n + 2) state.old → HasSpare n state.new }
{
    let CallRoom {
        token,
        terms,
        line,
        spelled,
    } = room;
    let heard = HeardEntry::keep(token, &entry, spelled);
    match reply_in(entry) {
        Some(answer) => {
            let pending = pending_with(state.tokens.as_slice(), token);
            let line = line_in_room(line, place, &answer, pending);
            state.take_answer(token, answer, terms);
            state.hear(heard, line);
        }
        None => unreachable!(),
    }
}
