//! Which lanes are out, and which lane fits a request.
ghost use Rattle.std.specs.Prelude.{◌≡◌, ◌&&◌, ◌↔◌, false, not, find, IsTrue, option_copied, option_map};
ghost use Rattle.std.specs.List.{list_any};
ghost use Rattle.std.specs.Str.{bytes_eq};
ghost use Rattle.cf_handler.specs.Move.{IsOfLane};
ghost use Rattle.cf_plan.specs.Follow.{is_in_flight, calls_in_flight, is_lane_leased};
ghost use Rattle.cf_plan.specs.Homes.{first_home, is_of_lane};

use crate::repeats::is_in_flight;
use cf_stacks::{Call, StackState, World};
use cf_tree::Txt;

/// Whether one of these calls is out on a lane.
fn has_call_on(out: &[u64], lane: &Txt, calls: &[Call]) -> bool
    ensures { result ≡ list_any (λ c. is_in_flight out.now c.token && bytes_eq lane.now c.lane) calls.now }
{
    calls
        .iter()
        .any(|call| is_in_flight(out, call.token) && *lane == call.lane)
}

/// Whether a call of a stack is out on a lane.
fn is_out_on(out: &[u64], lane: &Txt, stack: &StackState) -> bool
    ensures { result ≡ list_any (λ c. bytes_eq lane.now c.lane) (calls_in_flight out.now stack.now.stack) }
{
    has_call_on(out, lane, stack.ledger().as_slice())
}

/// Whether a call is out on a lane, of one of these stacks.
fn is_out_on_one(out: &[u64], lane: &Txt, stacks: &[(Txt, StackState)]) -> bool
    ensures { result ≡ list_any (λ s. list_any (λ c. bytes_eq lane.now c.lane) (calls_in_flight out.now s.1.stack)) stacks.now }
{
    stacks.iter().any(|stack| is_out_on(out, lane, &stack.1))
}

/// Whether a call is out on a lane, of whichever stack: the calls of all stacks are gone over.
fn is_leased(out: &[u64], world: &World, lane: &Txt) -> bool
    ensures { result ≡ is_lane_leased out.now world.now.world lane.now }
{
    is_out_on_one(out, lane, world.stacks().as_slice())
}

/// Whether a call is out on a lane, of whichever stack.
pub fn is_lane_leased(out: &[u64], world: &World, lane: &Txt) -> bool
    ensures { result ≡ is_lane_leased out.now world.now.world lane.now }
{
    if out.is_empty() {
        false
    } else {
        is_leased(out, world, lane)
    }
}

/// Whether a physical id begins with the name of a lane and a colon.
fn names_lane(lane: &Txt, physical: &Txt) -> bool
    ensures { result ≡ is_of_lane lane.now physical.now }
{
    let mut name = lane.as_str().as_bytes();
    let mut id = physical.as_str().as_bytes();
    while let Some((byte, rest)) = name.split_first() {
        match id.split_first() {
            Some((first, behind)) => {
                if *byte != *first {
                    return false;
                }
                id = behind;
            }
            None => return false,
        }
        name = rest;
    }
    match id.split_first() {
        Some((first, _)) => *first == b':',
        None => false,
    }
}

/// Whether a physical id is of a lane: it begins with the lane's name and a colon.
pub fn is_of_lane(lane: &Txt, physical: &Txt) -> bool
    ensures value { result ≡ is_of_lane lane.now physical.now }
    ensures decides { IsTrue result ↔ IsOfLane lane.now physical.now }
{
    names_lane(lane, physical)
}

/// Whether a lane of a type is at home.
fn is_home_for(out: &[u64], world: &World, kind: &Txt, lane: &(Txt, Txt)) -> bool
    ensures { result ≡ (bytes_eq kind.now lane.now.1 && not (is_lane_leased out.now world.now.world lane.now.0)) }
{
    *kind == lane.1 && !is_lane_leased(out, world, &lane.0)
}

/// The first of these lanes that is at home and of a type.
fn first_home_of<'a>(
    out: &[u64],
    world: &World,
    kind: &Txt,
    lanes: &'a [(Txt, Txt)],
) -> Option<&'a (Txt, Txt)>
    ensures { option_copied result ≡ find (λ l. bytes_eq kind.now l.1 && not (is_lane_leased out.now world.now.world l.0)) lanes.now }
{
    lanes
        .iter()
        .find(|lane| is_home_for(out, world, kind, lane))
}

/// The first lane at home of a type, which takes a create, with its type.
#[tactic(auto, using(crate::proofs::AtHome::lane_named))]
pub fn first_home<'a>(out: &[u64], world: &'a World, kind: &Txt) -> Option<&'a (Txt, Txt)>
    ensures { option_map (λ l. l.now.0) result ≡ first_home kind.now out.now world.now.world }
{
    first_home_of(out, world, kind, world.lanes().as_slice())
}
