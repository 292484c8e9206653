//! Lanes that are lent for calls.
ghost use Rattle.std.specs.Prelude.{◌≡◌, ◌<◌, ℕ, true, None, Some, IfOk, find, is_some, length, map, option_copied, option_map, position, slice_get, slice_set};
ghost use Rattle.std.specs.List.{list_any};
ghost use Rattle.std.specs.Str.{bytes_eq};
ghost use Rattle.cf_tree.specs.Named.{all_differ};
ghost use Rattle.cf_effect.specs.Calls.{call_under};
ghost use Rattle.cf_effect.specs.Words.{pending_of};
ghost use Rattle.cf_effect.specs.World.{stack_of_operation};
ghost use Rattle.cf_stacks.specs.Room.{stack_of_call};
ghost use Rattle.cf_stacks.specs.Standing.{stack_in};
ghost use Rattle.cf_lane.specs.Lanes.{lane_now};
ghost use Rattle.cf_next.specs.declared.home.Home.{Home};
ghost use Rattle.cf_book.specs.State.{BookLane, home_of};
ghost use Rattle.cf_book.specs.Inside.{call_in, name_of, place_now, places_now};
ghost use Rattle.cf_book.specs.Lending.{IsExpected, Lends, LendsAt, LendsFrom, LendsPlace, call_for, free_place, intent_for, is_called_on, is_expected, is_free_home, is_new_on, is_out_for, place_for};

use crate::place::{Call, Place, put_home};
use cf_effect::is_open;
use cf_entry::Entry;
use cf_handler::Handler;
use cf_lane::{Lane, Lease, Unlent};
use cf_next::{Home, Homes};
use cf_stacks::{StackState, World, call_with};
use cf_tree::{NoMemory, Request, Txt};
use std::alloc::Global;
use std::mem;
use std::snapshot::Snapshot;

/// A call that comes next: for which path, on which lane, under which token, what is asked, and whether it is made again.
#[derive(Drop)]
pub struct Asked {
    pub path: Txt,
    pub lane: Txt,
    pub token: u64,
    pub request: Request,
    pub repeated: bool,
}

/// Whether a lane is the one of a name, and at home.
fn is_free_home(home: &Home, name: &str) -> bool
    ensures { result ≡ is_free_home name.now home.now }
{
    home.name.is(name) && home.out.is_none()
}

/// Whether a lane is out for the call of a token.
fn is_out_for(home: &Home, token: u64) -> bool
    ensures { result ≡ is_out_for token home.now }
{
    match home.out {
        Some(other) => token == other,
        None => false,
    }
}

/// The first of these stacks, with its name, on which a call of a token is open.
fn first_called(stacks: &[(Txt, StackState)], token: u64) -> Option<&(Txt, StackState)>
    ensures { option_copied result ≡ find (λ s. is_some (pending_of token s.1.stack)) stacks.now }
{
    stacks
        .iter()
        .find(|stack| is_open(stack.1.tokens().as_slice(), token))
}

/// Whether a stack's ledger has a call of a token.
fn has_row(stack: &StackState, token: u64) -> bool
    ensures { result ≡ is_some (call_under token stack.now.stack) }
{
    call_with(stack.ledger().as_slice(), token).is_some()
}

/// Whether the first of these stacks on which a call of a token is open is this one, whose ledger has the call.
fn is_called_first(stacks: &[(Txt, StackState)], going: &(Txt, StackState), token: u64) -> bool
    ensures { result ≡ is_called_on token (Some (stack_in going.now))
        (option_map stack_in (find (λ s. is_some (pending_of token s.1.stack)) stacks.now)) }
{
    match first_called(stacks, token) {
        Some(called) => going.0 == called.0 && has_row(&going.1, token),
        None => false,
    }
}

/// Whether the first stack on which a call of a token is open is the one on which an operation is in progress, whose ledger has the call.
fn is_called_on(world: &World, number: u64, token: u64) -> bool
    ensures { result ≡ is_called_on token (stack_of_operation number world.now.world) (stack_of_call token world.now.world) }
{
    match world.stack_of_operation(number) {
        Some(going) => is_called_first(world.stacks().as_slice(), going, token),
        None => false,
    }
}

/// Whether no call of a token is open on the stack on which an operation is in progress.
fn is_new_on(world: &World, number: u64, token: u64) -> bool
    ensures { result ≡ is_new_on token (stack_of_operation number world.now.world) }
{
    match world.stack_of_operation(number) {
        Some(going) => !is_open(going.1.tokens().as_slice(), token),
        None => false,
    }
}

/// Whether a call is open where it is made again, and is not where it is new; so it is in each journal that may be written.
fn is_expected(world: &World, number: u64, asked: &Asked) -> bool
    ensures { result ≡ is_expected number asked.now.token world.now.world asked.now.repeated }
{
    if asked.repeated {
        is_called_on(world, number, asked.token)
    } else {
        is_new_on(world, number, asked.token)
    }
}

/// Whether a call of a token is out.
fn is_any_out_for(homes: &[Home], token: u64) -> bool
    ensures { result ≡ list_any (is_out_for token) homes.now }
{
    homes.iter().any(|home| is_out_for(home, token))
}

/// The place of the lane of a name, where it is at home.
fn home_place(homes: &[Home], name: &str) -> Option<usize>
    ensures { result ≡ position (is_free_home name.now) homes.now }
{
    homes.iter().position(|home| is_free_home(home, name))
}

/// The place of the lane of a name that is at home, where no call of the token is out.
fn free_place(homes: &[Home], name: &str, token: u64) -> Option<usize>
    ensures { result ≡ free_place name.now token homes.now }
{
    if is_any_out_for(homes, token) {
        None
    } else {
        home_place(homes, name)
    }
}

/// The place of the lane for the call that is asked for, where it is at home and the call is as it should be.
fn place_for(world: &World, homes: &[Home], number: u64, asked: &Asked) -> Option<usize>
    ensures { result ≡ place_for number world.now.world homes.now asked.now }
{
    if is_expected(world, number, asked) {
        free_place(homes, asked.lane.as_str(), asked.token)
    } else {
        None
    }
}

/// What a lane that is at home is like, for contracts alone.
fn lane_in<H: Handler>(place: &Place<H>) -> Snapshot<Lane<H>>
    requires { (place_now H.Handler place.now).out ≡ None }
    ensures { lane_now H.Handler result.value ≡ (place_now H.Handler place.now).lane }
{
    match place {
        Place::Home(lane) => Snapshot::of(lane),
        Place::Out(_, _) => unreachable!(),
    }
}

/// Lends a lane that is at home for a call.
fn lend<H: Handler>(
    place: &mut Place<H>,
    call: Call,
    request: Request,
) -> Result<Lease<H>, NoMemory>
    requires home { (place_now H.Handler place.old).out ≡ None }
    requires asked { call.request.value ≡ request }
    ensures { LendsPlace H.Handler (place_now H.Handler place.old) (place_now H.Handler place.new) (call_in call) result }
{
    let (epoch, number, token) = (call.epoch, call.number, call.token);
    let was = lane_in(place);
    match mem::replace(place, Place::Out(call, was)) {
        Place::Home(lane) => match lane.lend(epoch, number, token, request) {
            Ok(lease) => Ok(lease),
            Err(unlent) => {
                let Unlent { lane, request } = unlent;
                drop(request);
                put_home(place, lane);
                Err(NoMemory)
            }
        },
        Place::Out(_, _) => unreachable!(),
    }
}

/// Lends the lane at one of these places, where it is at home.
fn lend_at<H: Handler>(
    places: &mut Vec<Place<H>>,
    at: usize,
    call: Call,
    request: Request,
) -> Result<Lease<H>, NoMemory>
    requires home { (b : BookLane) × (slice_get (places_now H.Handler places.old.items) at ≡ Some b) × (b.out ≡ None) }
    requires asked { call.request.value ≡ request }
    ensures { LendsAt H.Handler (places_now H.Handler places.old.items) (places_now H.Handler places.new.items) at (call_in call) result }
{
    lend(&mut places[at], call, request)
}

/// Marks a lane as out for a call.
fn mark_out(homes: &mut [Home], at: usize, token: u64)
    requires { at < length homes.old }
    ensures { (h : Home) × (slice_get homes.old at ≡ Some h) × (homes.new ≡ slice_set homes.old at (record h { out = Some token })) }
{
    let home = &mut homes[at];
    home.out = Some(token);
}

/// The request of the call that is asked for, and its Intent.
fn with_intent(alloc: Global, number: u64, asked: Asked) -> Result<(Request, Entry), NoMemory>
    ensures request { IfOk result (λ p. p.0 ≡ asked.request) }
    ensures intent { IfOk result (λ p. p.1 ≡ intent_for number asked) }
{
    let Asked {
        path,
        lane,
        token,
        request,
        repeated: _,
    } = asked;
    match request.try_clone(alloc) {
        Ok(copy) => {
            let intent = Entry::Intent {
                number,
                token,
                lane,
                path,
                request: copy,
            };
            Ok((request, intent))
        }
        Err(_) => Err(NoMemory),
    }
}

/// Lends the lane at a place, where it is at home, for the call that is asked for; gives its Intent besides.
fn lend_from<H: Handler>(
    alloc: Global,
    places: &mut Vec<Place<H>>,
    at: usize,
    epoch: u64,
    number: u64,
    asked: Asked,
) -> Result<(Lease<H>, Entry), NoMemory>
    requires home { (b : BookLane) × (slice_get (places_now H.Handler places.old.items) at ≡ Some b) × (b.out ≡ None) }
    ensures lends { LendsFrom H.Handler (places_now H.Handler places.old.items) (places_now H.Handler places.new.items) at
        (call_for epoch number asked) result }
    ensures intent { IfOk result (λ p. p.1 ≡ intent_for number asked) }
{
    let token = asked.token;
    let (request, intent) = with_intent(alloc, number, asked)?;
    let call = Call {
        epoch,
        number,
        token,
        request: Snapshot::of(&request),
    };
    match lend_at(places, at, call, request) {
        Ok(lease) => Ok((lease, intent)),
        Err(NoMemory) => {
            drop(intent);
            Err(NoMemory)
        }
    }
}

/// Lends the lane of the call that is asked for, where it is at home; gives its Intent besides.
///
/// There is no lane in no journal that may be written, where the lanes are those of its last opening.
pub(crate) fn lend_for<H: Handler>(
    alloc: Global,
    world: &World,
    places: &mut Vec<Place<H>>,
    homes: &mut Homes,
    number: u64,
    asked: Asked,
) -> Result<(Lease<H>, Entry), NoMemory>
    requires homes { homes.old ≡ map home_of (places_now H.Handler places.old.items) }
    requires differ { all_differ bytes_eq (map name_of (places_now H.Handler places.old.items)) ≡ true }
    ensures lends { Lends H.Handler (places_now H.Handler places.old.items) (places_now H.Handler places.new.items) asked.lane
        (call_for world.now.world.epoch number asked) result }
    ensures homes { homes.new ≡ map home_of (places_now H.Handler places.new.items) }
    ensures intent { IfOk result (λ p. p.1 ≡ intent_for number asked) }
    ensures expected { IfOk result (λ _. IsExpected number world.now.world homes.old asked) }
{
    match place_for(world, homes.as_slice(), number, &asked) {
        Some(at) => {
            let token = asked.token;
            match lend_from(alloc, places, at, world.epoch(), number, asked) {
                Ok(lent) => {
                    mark_out(homes.as_mut_slice(), at, token);
                    Ok(lent)
                }
                Err(NoMemory) => Err(NoMemory),
            }
        }
        None => {
            drop(asked);
            Err(NoMemory)
        }
    }
}
