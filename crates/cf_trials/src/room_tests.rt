//! Outcomes that are stepped over with the room that the intents of their calls made, and with no other, with worlds worked
//! out from the rules.
ghost use Rattle.std.specs.Prelude.{◌≡◌, ◌==◌, ℕ, IfOk, IsTrue, codes, false, not, true};
ghost use Rattle.cf_effect.specs.Bounds.{IsShortReply};
ghost use Rattle.cf_stacks.specs.RoomStays.{spares};
ghost use Rattle.cf_trials.specs.Asked.{WasAsked, is_on_s};

use crate::told::is_told;
use crate::worlds::{Asked, FILE, RECORD, begun, line_in, opened, text, turned};
use cf_entry::{Entry, LaneNames, Reply};
use cf_stacks::{World, room_stays};
use cf_tree::{Code, Dict, Request, Txt, Val};
use std::alloc::{AllocError, Global};
use std::test::Fail;

// Neither needs the other, and A is kept when it goes.
const TWO: &str = "{\"Resources\":{\
    \"A\":{\"Type\":\"Local::Files::File\",\"DeletionPolicy\":\"Retain\",\"Properties\":{\"Path\":\"a\"}},\
    \"B\":{\"Type\":\"Local::Records::Record\",\"Properties\":{\"Key\":\"k\"}}}}";

/// Steps over an entry, with room that is made for it. There is room for the outcomes of other calls as before.
#[tactic(auto, using(cf_stacks::proofs::Folded::room_made, crate::proofs::Asked::asked_still))]
fn step_over(alloc: Global, world: &mut World, entry: Entry) -> Result<(), AllocError>
    ensures { IfOk result (λ _. (t : ℕ) → spares (codes "s") t entry ≡ true → WasAsked t world.old → WasAsked t world.new) }
{
    match world.room_for(alloc, &entry) {
        Ok(()) => {
            world.step(entry);
            Ok(())
        }
        Err(failed) => {
            drop(entry);
            Err(failed)
        }
    }
}

/// Whether operation 1 is in progress on the stack `s`.
fn is_on_s(world: &World) -> bool
    ensures { result ≡ is_on_s world.now.world }
{
    match world.stack_of_operation(1) {
        Some(pair) => pair.0.is("s"),
        None => false,
    }
}

/// Writes down a call on the stack `s`; there is room for its outcome from then on.
#[tactic(auto, using(cf_stacks::proofs::Folded::room_made, crate::proofs::Asked::asked_now, crate::proofs::Asked::intent_still))]
fn intend(
    alloc: Global,
    world: &mut World,
    token: u64,
    path: Txt,
    request: Request,
) -> Result<(), AllocError>
    requires { is_on_s world.old.world ≡ true }
    ensures asked { IfOk result (λ _. WasAsked token world.new) }
    ensures others { IfOk result (λ _. (t : ℕ) → WasAsked t world.old → WasAsked t world.new) }
{
    let entry = Entry::Intent {
        number: 1,
        token,
        lane: Txt::new(String::new(alloc)),
        path,
        request,
    };
    match world.room_for(alloc, &entry) {
        Ok(()) => {
            world.step(entry);
            Ok(())
        }
        Err(failed) => {
            drop(entry);
            Err(failed)
        }
    }
}

/// Whether an answer is within the bounds.
fn is_short(reply: &Reply) -> bool
    ensures { IsTrue result → IsShortReply reply.now }
{
    match reply {
        Reply::Success { physical, attrs } => {
            physical.as_str().len() <= 1_024 && attrs.size() <= 524_288
        }
        _ => true,
    }
}

/// Steps over the outcome of a call on the stack `s`, with no room but that which its intent made.
fn answer(world: &mut World, token: u64, reply: Reply)
    requires asked { WasAsked token world.old }
    requires on_s { is_on_s world.old.world ≡ true }
    requires short { IsShortReply reply }
    ensures others { (t : ℕ) → not (token == t) ≡ true → WasAsked t world.old → WasAsked t world.new }
{
    room_stays();
    world.step(Entry::Outcome {
        number: 1,
        token,
        answer: reply,
        before: 0,
        after: 0,
    });
}

fn add_color(alloc: Global, attrs: &mut Dict, color: &str) -> Result<(), AllocError> {
    let color = text(alloc, color)?;
    match text(alloc, "Color") {
        Ok(name) => attrs.insert(name, Val::Text(color)),
        Err(failed) => {
            drop(color);
            Err(failed)
        }
    }
}

fn colored(alloc: Global, color: &str) -> Result<Dict, AllocError> {
    let mut attrs = Dict::new(alloc);
    match add_color(alloc, &mut attrs, color) {
        Ok(()) => Ok(attrs),
        Err(failed) => {
            drop(attrs);
            Err(failed)
        }
    }
}

fn success(alloc: Global, physical: &str, color: &str) -> Result<Reply, AllocError> {
    let attrs = colored(alloc, color)?;
    match text(alloc, physical) {
        Ok(physical) => Ok(Reply::Success { physical, attrs }),
        Err(failed) => {
            drop(attrs);
            Err(failed)
        }
    }
}

/// Steps over an answer to a call, with no room but that which its intent made, if it is within the bounds and operation 1 is
/// in progress on the stack `s`.
fn try_answer(world: &mut World, token: u64, reply: Reply) -> bool
    requires { WasAsked token world.old }
    ensures { (t : ℕ) → not (token == t) ≡ true → WasAsked t world.old → WasAsked t world.new }
{
    if is_short(&reply) && is_on_s(world) {
        answer(world, token, reply);
        true
    } else {
        drop(reply);
        false
    }
}

/// The same of a success.
fn succeed(
    alloc: Global,
    world: &mut World,
    token: u64,
    physical: &str,
    color: &str,
) -> Result<bool, AllocError>
    requires { WasAsked token world.old }
    ensures { IfOk result (λ _. (t : ℕ) → not (token == t) ≡ true → WasAsked t world.old → WasAsked t world.new) }
{
    let reply = success(alloc, physical, color)?;
    Ok(try_answer(world, token, reply))
}

/// The lanes are opened again.
fn open_again(alloc: Global, world: &mut World) -> Result<(), AllocError>
    ensures { IfOk result (λ _. (t : ℕ) → WasAsked t world.old → WasAsked t world.new) }
{
    let lanes = LaneNames::new(alloc);
    step_over(alloc, world, Entry::Opened { epoch: 2, lanes })
}

/// The lanes are opened, and the creation begins.
fn begin(alloc: Global, world: &mut World) -> Result<(), AllocError> {
    step_over(alloc, world, opened(alloc)?)?;
    step_over(alloc, world, begun(alloc, TWO)?)
}

fn create_of(alloc: Global, kind: &str) -> Result<Request, AllocError> {
    let kind = text(alloc, kind)?;
    let props = Dict::new(alloc);
    Ok(Request::Create { kind, props })
}

fn delete_of(alloc: Global, physical: &str) -> Result<Request, AllocError> {
    let physical = text(alloc, physical)?;
    Ok(Request::Delete { physical })
}

fn update_of(alloc: Global, physical: &str) -> Result<Request, AllocError> {
    let physical = text(alloc, physical)?;
    let props = Dict::new(alloc);
    Ok(Request::Update { physical, props })
}

/// Writes down a call at a path, if operation 1 is in progress on the stack `s`; an error where it is not.
fn ask(
    alloc: Global,
    world: &mut World,
    token: u64,
    path: &str,
    request: Request,
) -> Result<(), AllocError>
    ensures asked { IfOk result (λ _. WasAsked token world.new) }
    ensures others { IfOk result (λ _. (t : ℕ) → WasAsked t world.old → WasAsked t world.new) }
{
    if !is_on_s(world) {
        drop(request);
        return Err(AllocError);
    }
    match text(alloc, path) {
        Ok(path) => intend(alloc, world, token, path, request),
        Err(failed) => {
            drop(request);
            Err(failed)
        }
    }
}

/// Two calls are open, the lanes are opened again, and the calls are answered, the later one first.
fn answer_both(alloc: Global, world: &mut World) -> Result<bool, AllocError> {
    begin(alloc, world)?;
    ask(alloc, world, 1, "A", create_of(alloc, FILE)?)?;
    ask(alloc, world, 2, "B", create_of(alloc, RECORD)?)?;
    open_again(alloc, world)?;
    let second = succeed(alloc, world, 2, "r1:1", "blue")?;
    let first = succeed(alloc, world, 1, "f1:1", "red")?;
    Ok(first && second)
}

/// Makes room once more for the outcome of a call that was written down, before it is repeated.
fn ask_again(
    alloc: Global,
    world: &mut World,
    token: u64,
    request: Request,
) -> Result<(), AllocError> {
    let entry = Entry::Intent {
        number: 1,
        token,
        lane: Txt::new(String::new(alloc)),
        path: Txt::new(String::new(alloc)),
        request,
    };
    let made = world.room_for(alloc, &entry);
    drop(entry);
    made
}

/// The entry that answers a call.
fn answered(token: u64, answer: Reply) -> Entry {
    Entry::Outcome {
        number: 1,
        token,
        answer,
        before: 0,
        after: 0,
    }
}

/// A call breaks off, and is made again. Its next outcome has room of its own besides that which is made with the intent.
fn answer_again(alloc: Global, world: &mut World) -> Result<bool, AllocError> {
    begin(alloc, world)?;
    ask(alloc, world, 1, "A", create_of(alloc, FILE)?)?;
    let broke_off = try_answer(world, 1, Reply::Doubt);
    ask_again(alloc, world, 1, create_of(alloc, FILE)?)?;
    let reply = success(alloc, "f1:1", "red")?;
    step_over(alloc, world, answered(1, reply))?;
    Ok(broke_off)
}

/// A call is refused, which turns the creation back.
fn refuse(alloc: Global, world: &mut World, token: u64, path: &str) -> Result<bool, AllocError>
    requires { WasAsked token world.old }
{
    let code = Code::AccessDenied;
    let refused = try_answer(world, token, Reply::Failed { code });
    step_over(alloc, world, turned(alloc, path)?)?;
    Ok(refused)
}

/// A call is refused, and what another one made is deleted.
fn answer_deletion(alloc: Global, world: &mut World) -> Result<bool, AllocError> {
    begin(alloc, world)?;
    ask(alloc, world, 1, "B", create_of(alloc, RECORD)?)?;
    let made = succeed(alloc, world, 1, "r1:1", "blue")?;
    ask(alloc, world, 2, "A", create_of(alloc, FILE)?)?;
    let refused = refuse(alloc, world, 2, "A")?;
    ask(alloc, world, 3, "B", delete_of(alloc, "r1:1")?)?;
    let physical = Txt::new(String::new(alloc));
    let attrs = Dict::new(alloc);
    let deleted = try_answer(world, 3, Reply::Success { physical, attrs });
    Ok(made && refused && deleted)
}

/// What a call made is updated.
fn answer_update(alloc: Global, world: &mut World) -> Result<bool, AllocError> {
    begin(alloc, world)?;
    ask(alloc, world, 1, "A", create_of(alloc, FILE)?)?;
    let made = succeed(alloc, world, 1, "f1:1", "red")?;
    ask(alloc, world, 2, "A", update_of(alloc, "f1:1")?)?;
    let updated = succeed(alloc, world, 2, "f1:1", "blue")?;
    Ok(made && updated)
}

/// A way to step over entries.
#[derive(Clone, Copy)]
enum Way {
    Both,
    Repeated,
    Updated,
    Deleted,
}

fn go(alloc: Global, world: &mut World, way: Way) -> Result<bool, AllocError> {
    match way {
        Way::Both => answer_both(alloc, world),
        Way::Repeated => answer_again(alloc, world),
        Way::Updated => answer_update(alloc, world),
        Way::Deleted => answer_deletion(alloc, world),
    }
}

fn told(alloc: Global, way: Way, asked: Asked) -> Result<String, AllocError> {
    let mut world = World::new(alloc);
    let line = match go(alloc, &mut world, way) {
        Ok(true) => line_in(alloc, &world, asked),
        _ => String::from_str(alloc, "no world"),
    };
    drop(world);
    line
}

#[test]
fn open_calls_are_answered_in_any_order(rt: HostRuntime) -> Result<(), Fail> {
    let made =
        "CREATE_IN_PROGRESS 0 0 0; B r1:1 CREATE_COMPLETE Delete 0; A f1:1 CREATE_COMPLETE Retain 0";
    is_told(&rt, told(rt.alloc(), Way::Both, Asked::Stack), made)?;
    let shared = "2 1 2 0 0 0";
    is_told(&rt, told(rt.alloc(), Way::Both, Asked::Shared), shared)?;
    let events =
        "|event 2 - CREATE_IN_PROGRESS|event 3 A CREATE_IN_PROGRESS|event 4 B CREATE_IN_PROGRESS|event 6 B CREATE_COMPLETE|event 7 A CREATE_COMPLETE";
    is_told(&rt, told(rt.alloc(), Way::Both, Asked::Events), events)?;
    is_told(&rt, told(rt.alloc(), Way::Both, Asked::Color), "red")
}

#[test]
fn a_call_that_broke_off_is_repeated(rt: HostRuntime) -> Result<(), Fail> {
    let made = "CREATE_IN_PROGRESS 0 0 0; A f1:1 CREATE_COMPLETE Retain 0";
    is_told(&rt, told(rt.alloc(), Way::Repeated, Asked::Stack), made)?;
    let events =
        "|event 2 - CREATE_IN_PROGRESS|event 3 A CREATE_IN_PROGRESS|event 4 A CREATE_FAILED Fault|event 5 A CREATE_COMPLETE";
    is_told(&rt, told(rt.alloc(), Way::Repeated, Asked::Events), events)
}

#[test]
fn what_was_made_is_updated(rt: HostRuntime) -> Result<(), Fail> {
    let made = "CREATE_IN_PROGRESS 0 0 0; A f1:1 UPDATE_COMPLETE Retain 0";
    is_told(&rt, told(rt.alloc(), Way::Updated, Asked::Stack), made)?;
    is_told(&rt, told(rt.alloc(), Way::Updated, Asked::Color), "blue")?;
    let events =
        "|event 2 - CREATE_IN_PROGRESS|event 3 A CREATE_IN_PROGRESS|event 4 A CREATE_COMPLETE|event 5 A UPDATE_IN_PROGRESS|event 6 A UPDATE_COMPLETE";
    is_told(&rt, told(rt.alloc(), Way::Updated, Asked::Events), events)
}

#[test]
fn what_was_made_is_deleted(rt: HostRuntime) -> Result<(), Fail> {
    let left = "ROLLBACK_IN_PROGRESS 0 0 0";
    is_told(&rt, told(rt.alloc(), Way::Deleted, Asked::Stack), left)?;
    let events =
        "|event 2 - CREATE_IN_PROGRESS|event 3 B CREATE_IN_PROGRESS|event 4 B CREATE_COMPLETE|event 5 A CREATE_IN_PROGRESS|event 6 A CREATE_FAILED AccessDenied|event 7 - ROLLBACK_IN_PROGRESS|event 8 B DELETE_IN_PROGRESS|event 9 B DELETE_COMPLETE";
    is_told(&rt, told(rt.alloc(), Way::Deleted, Asked::Events), events)
}
