//! The opening of a journal over lanes.
ghost use Rattle.std.specs.Prelude.{◌≡◌, ◌+◌, fold, map, IfOk};
ghost use Rattle.std.specs.Option.{option_copied};
ghost use Rattle.cf_tree.specs.Lists.{least_by};
ghost use Rattle.cf_book.specs.Opening.{OpensAs, TestsLanes, is_handed_in, is_named, before_colon, missing, missing_in, name_of_home, or_missing_call, or_missing_held, serves_call, serves_held, twice};

use crate::refused::EnterFault;
use cf_entry::{Entry, LaneNames};
use cf_funcs::cut;
use cf_next::Home;
use cf_stacks::{Held, Pending, StackState, World};
use cf_tree::{Request, TryClone, Txt};
use std::alloc::{AllocError, Global};

/// Whether a lane of this name and type is handed in.
fn is_handed_in(lanes: &[(Txt, Txt)], name: &str, kind: &Txt) -> bool
    ensures { result ≡ is_handed_in lanes.now name.now kind.now }
{
    lanes
        .iter()
        .any(|lane| lane.0.is(name) && lane.1.is(kind.as_str()))
}

/// Whether a lane of this name is handed in.
fn is_named(lanes: &[(Txt, Txt)], name: &Txt) -> bool
    ensures { result ≡ is_named lanes.now name.now }
{
    lanes.iter().any(|lane| lane.0.is(name.as_str()))
}

/// The first name that two lanes have.
fn first_twice(lanes: &[(Txt, Txt)]) -> Option<&Txt>
    ensures { option_copied result ≡ twice lanes.now }
{
    for (at, lane) in lanes.iter().enumerate() {
        if is_named(&lanes[at + 1..], &lane.0) {
            return Some(&lane.0);
        }
    }
    None
}

/// The lane that a physical id names.
fn before_colon(physical: &Txt) -> &str
    ensures { result.now ≡ before_colon physical.now }
{
    match cut(physical.as_str(), ":") {
        Some((lane, _)) => lane,
        None => physical.as_str(),
    }
}

/// Whether a resource is served: a lane of its type is handed in that its physical id names.
fn serves_held(lanes: &[(Txt, Txt)], held: &Held) -> bool
    ensures { result ≡ serves_held lanes.now held.now }
{
    match cut(held.physical.as_str(), ":") {
        Some((lane, _)) => is_handed_in(lanes, lane, &held.kind),
        None => false,
    }
}

/// Whether an open call is served: its lane is handed in, of the type that it makes a resource of.
fn serves_call(lanes: &[(Txt, Txt)], call: &Pending) -> bool
    ensures { result ≡ serves_call lanes.now call.now }
{
    match &call.request {
        Request::Create { kind, props: _ } => is_handed_in(lanes, call.lane.as_str(), kind),
        Request::Update {
            physical: _,
            props: _,
        } => is_named(lanes, &call.lane),
        Request::Delete { physical: _ } => is_named(lanes, &call.lane),
    }
}

/// The lower of a name and the best one so far.
fn lower(alloc: Global, best: Option<Txt>, name: &str) -> Result<Option<Txt>, AllocError>
    ensures { IfOk result (λ b. b ≡ least_by (λ n. n) best name.now) }
{
    match best {
        Some(best) => {
            if name < best.as_str() {
                Ok(Some(Txt::from_str(alloc, name)?))
            } else {
                Ok(Some(best))
            }
        }
        None => Ok(Some(Txt::from_str(alloc, name)?)),
    }
}

/// The lower of the lane of a resource, where none serves it, and the best one so far.
fn or_missing_held(
    alloc: Global,
    lanes: &[(Txt, Txt)],
    best: Option<Txt>,
    held: &Held,
) -> Result<Option<Txt>, AllocError>
    ensures { IfOk result (λ b. b ≡ or_missing_held lanes.now best held.now) }
{
    if serves_held(lanes, held) {
        Ok(best)
    } else {
        lower(alloc, best, before_colon(&held.physical))
    }
}

/// The lower of the lane of an open call, where it is not there, and the best one so far.
fn or_missing_call(
    alloc: Global,
    lanes: &[(Txt, Txt)],
    best: Option<Txt>,
    call: &Pending,
) -> Result<Option<Txt>, AllocError>
    ensures { IfOk result (λ b. b ≡ or_missing_call lanes.now best call.now) }
{
    if serves_call(lanes, call) {
        Ok(best)
    } else {
        lower(alloc, best, call.lane.as_str())
    }
}

/// The lowest of the best name so far and of the lanes of these resources that no lane serves.
fn missing_of_helds(
    alloc: Global,
    lanes: &[(Txt, Txt)],
    first: Option<Txt>,
    helds: &[Held],
) -> Result<Option<Txt>, AllocError>
    ensures { IfOk result (λ b. b ≡ fold (or_missing_held lanes.now) first helds.now) }
{
    let mut best = first;
    for held in helds.iter() {
        best = or_missing_held(alloc, lanes, best, held)?;
    }
    Ok(best)
}

/// The lowest of the best name so far and of the lanes of these calls that are not there.
fn missing_of_calls(
    alloc: Global,
    lanes: &[(Txt, Txt)],
    first: Option<Txt>,
    calls: &[Pending],
) -> Result<Option<Txt>, AllocError>
    ensures { IfOk result (λ b. b ≡ fold (or_missing_call lanes.now) first calls.now) }
{
    let mut best = first;
    for call in calls.iter() {
        best = or_missing_call(alloc, lanes, best, call)?;
    }
    Ok(best)
}

/// The lowest of the best name so far and of the lanes that a stack needs and that are not there.
fn missing_of_stack(
    alloc: Global,
    lanes: &[(Txt, Txt)],
    best: Option<Txt>,
    stack: &StackState,
) -> Result<Option<Txt>, AllocError>
    ensures { IfOk result (λ b. b ≡ missing_in lanes.now best stack.now.stack) }
{
    let best = missing_of_helds(alloc, lanes, best, stack.held().as_slice())?;
    let best = missing_of_helds(alloc, lanes, best, stack.made().as_slice())?;
    missing_of_calls(alloc, lanes, best, stack.tokens().as_slice())
}

/// The first name in the order of bytes of a lane that a stack needs and that is not handed in.
fn first_missing(
    alloc: Global,
    lanes: &[(Txt, Txt)],
    world: &World,
) -> Result<Option<Txt>, AllocError>
    ensures { IfOk result (λ name. name ≡ missing lanes.now world.now.world) }
{
    let stacks = world.stacks().as_slice();
    let mut best = None;
    for stack in stacks {
        best = missing_of_stack(alloc, lanes, best, &stack.1)?;
    }
    Ok(best)
}

/// Tests that no two lanes have one name, and that all are there which the stacks need.
fn test_lanes(alloc: Global, world: &World, lanes: &[(Txt, Txt)]) -> Result<(), EnterFault>
    ensures { TestsLanes lanes.now world.now.world result }
{
    if let Some(name) = first_twice(lanes) {
        let name = name.try_clone(alloc)?;
        return Err(EnterFault::LaneTwice { name });
    }
    match first_missing(alloc, lanes, world)? {
        Some(name) => Err(EnterFault::LaneMissing { name }),
        None => Ok(()),
    }
}

/// The number of an opening over these lanes.
fn next_epoch(alloc: Global, world: &World, lanes: &[(Txt, Txt)]) -> Result<u64, EnterFault>
    ensures tests { TestsLanes lanes.now world.now.world result }
    ensures next { IfOk result (λ epoch. epoch ≡ world.now.world.epoch + 1) }
{
    test_lanes(alloc, world, lanes)?;
    match world.epoch().checked_add(1) {
        Some(epoch) => Ok(epoch),
        None => Err(EnterFault::NoMemory),
    }
}

/// The name and the type of a lane, as an opening tells them.
fn name_of(alloc: Global, home: &Home) -> Result<(Txt, Txt), AllocError>
    ensures { IfOk result (λ pair. pair ≡ name_of_home home.now) }
{
    let name = home.name.try_clone(alloc)?;
    match home.schema.kind.try_clone(alloc) {
        Ok(kind) => Ok((name, kind)),
        Err(failed) => Err(failed),
    }
}

/// The names and the types of the lanes.
fn names_of(alloc: Global, homes: &[Home]) -> Result<LaneNames, AllocError>
    ensures { IfOk result (λ names. names ≡ map name_of_home homes.now) }
{
    let mut names = LaneNames::new(alloc);
    for home in homes {
        names.push(name_of(alloc, home)?)?;
    }
    Ok(names)
}

/// The entry of an opening over these lanes, of which no two have one name, and among which are all that the stacks need.
///
/// `LaneTwice` comes exactly where two lanes have one name, with the first such name; else `LaneMissing` exactly where a resource or an
/// open call is of a lane, by name and type, that is not handed in, with the first such name in the order of bytes.
pub(crate) fn opening(alloc: Global, world: &World, homes: &[Home]) -> Result<Entry, EnterFault>
    ensures { OpensAs (map name_of_home homes.now) world.now.world result }
{
    let lanes = names_of(alloc, homes)?;
    match next_epoch(alloc, world, lanes.as_slice()) {
        Ok(epoch) => Ok(Entry::Opened { epoch, lanes }),
        Err(fault) => {
            drop(lanes);
            Err(fault)
        }
    }
}
