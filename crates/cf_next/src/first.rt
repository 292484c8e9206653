//! The first step of what an operation has to offer that a lane can take at once: nothing is copied but that.
ghost use Rattle.std.specs.Prelude.{◌≡◌, ◌++◌, ◌+◌, ◌&&◌, ℕ, [], Some, true, not, filter, find, IfOk, nat_lt};
ghost use Rattle.std.specs.List.{list_any};
ghost use Rattle.std.specs.Option.{option_copied};
ghost use Rattle.cf_next.specs.declared.step.Next.TheVariants as next;
ghost use Rattle.cf_plan.specs.Asked.{request_of};
ghost use Rattle.cf_next.specs.Chosen.{physical_id_of, precedes};
ghost use Rattle.cf_next.specs.First.{again, better, call_in, call_on, either_new, first_begun, first_keeping, first_new, first_repeat};
ghost use Rattle.cf_next.specs.First.{first_start, fits_one, homes_now, is_keeping_before, is_lane_home, is_opened_before, is_start_before, keep, keeping_place, start_place};
ghost use Rattle.cf_next.specs.Joining.{fits};

use crate::home::fits;
use crate::offer::{Keeping, Offer};
use crate::step::Next;
use cf_plan::{Ask, Start, is_lane_leased};
use cf_stacks::{Pending, World};
use cf_tree::{Listing, TryClone, Txt};
use std::alloc::{AllocError, Global};
use std::marker::Model;

/// A lane at home: its name and its resource type.
#[derive(Drop)]
pub(crate) struct LaneHome<'a> {
    lane: &'a (Txt, Txt),
}

impl<'a> Model for LaneHome<'a> {
    ghost use Rattle.std.specs.Prelude.{List, ℕ};

    ghost Value = { List ℕ × List ℕ };

    ghost view = { λ h. h.lane.now };
}

impl<'a> LaneHome<'a> {
    /// A lane.
    fn new(lane: &'a (Txt, Txt)) -> LaneHome<'a>
        ensures { result ≡ lane.now }
    {
        LaneHome { lane }
    }

    /// The lane.
    fn lane(&self) -> &'a (Txt, Txt)
        ensures { result.now ≡ self.now }
    {
        self.lane
    }
}

/// Adds those of these lanes that are at home. After an error nothing is said of the list.
fn add_homes<'a>(
    homes: &mut Listing<LaneHome<'a>>,
    out: &[u64],
    world: &World,
    lanes: &'a [(Txt, Txt)],
) -> Result<(), AllocError>
    ensures { IfOk result (λ _. homes.new ≡ homes.old ++ filter (λ l. is_lane_home out.now world.now.world l.0) lanes.now) }
{
    for lane in lanes {
        if !is_lane_leased(out, world, &lane.0) {
            homes.push(LaneHome::new(lane))?;
        }
    }
    Ok(())
}

/// The lanes of the last opening that are at home.
pub(crate) fn homes_now<'a>(
    alloc: Global,
    out: &[u64],
    world: &'a World,
) -> Result<Listing<LaneHome<'a>>, AllocError>
    ensures { IfOk result (λ homes. homes ≡ homes_now out.now world.now.world) }
{
    let mut homes = Listing::new(alloc);
    add_homes(&mut homes, out, world, world.lanes().as_slice())?;
    Ok(homes)
}

/// Whether one path and physical id precede others.
fn precedes(path: &Txt, physical: &str, other_path: &Txt, other: &str) -> bool
    ensures { result ≡ precedes (path.now, physical.now) (other_path.now, other.now) }
{
    *path < *other_path || (*path == *other_path && physical < other)
}

/// The physical id that a request names; a create names none.
fn id_in<'a>(ask: &Ask<'a>) -> &'a str
    ensures { result.now ≡ physical_id_of (request_of ask.now) }
{
    match ask {
        Ask::Create { kind: _, props: _ } => "",
        Ask::Update { physical, props: _ } => physical.as_str(),
        Ask::Delete { physical } => physical.as_str(),
    }
}

/// The physical id that a new call names; a create names none.
fn physical_id_of<'a>(start: &Start<'a>) -> &'a str
    ensures { result.now ≡ physical_id_of start.now.request }
{
    id_in(start.ask())
}

/// Whether a lane at home fits a new call.
pub(crate) fn fits_one(homes: &[LaneHome], start: &Start) -> bool
    ensures { result ≡ fits_one homes.now start.now }
{
    homes.iter().any(|home| fits(start, home.lane()))
}

/// Whether one new call comes before another.
fn is_start_before(start: &Start, other: &Start) -> bool
    ensures { result ≡ is_start_before start.now other.now }
{
    precedes(
        start.path(),
        physical_id_of(start),
        other.path(),
        physical_id_of(other),
    )
}

/// Of an open call that is found and another one the one that comes first.
fn better_repeat<'o>(
    out: &[u64],
    world: &World,
    first: Option<&'o Pending>,
    pending: &'o Pending,
) -> Option<&'o Pending>
    ensures { option_copied result ≡ better is_opened_before (λ p. is_lane_home out.now world.now.world p.lane) (option_copied first.entry) pending.now }
{
    match first {
        Some(found) => {
            if pending.token < found.token && !is_lane_leased(out, world, &pending.lane) {
                Some(pending)
            } else {
                Some(found)
            }
        }
        None => {
            if is_lane_leased(out, world, &pending.lane) {
                None
            } else {
                Some(pending)
            }
        }
    }
}

/// The first of these open calls whose lane is at home.
fn first_repeat<'o>(out: &[u64], world: &World, repeats: &'o [Pending]) -> Option<&'o Pending>
    ensures { option_copied result ≡ first_repeat out.now world.now.world repeats.now }
{
    let mut first = None;
    for pending in repeats {
        first = better_repeat(out, world, first, pending);
    }
    first
}

/// Of a new call that is found and another one the one that comes first.
fn better_start<'o, 'a>(
    homes: &[LaneHome],
    first: Option<&'o Start<'a>>,
    start: &'o Start<'a>,
) -> Option<&'o Start<'a>>
    ensures { option_copied result ≡ better is_start_before (fits_one homes.now) (option_copied first.entry) start.now }
{
    match first {
        Some(found) => {
            if is_start_before(start, found) && fits_one(homes, start) {
                Some(start)
            } else {
                Some(found)
            }
        }
        None => {
            if fits_one(homes, start) {
                Some(start)
            } else {
                None
            }
        }
    }
}

/// The first of these new calls that a lane at home fits.
pub(crate) fn first_start<'o, 'a>(
    homes: &[LaneHome],
    starts: &'o [Start<'a>],
) -> Option<&'o Start<'a>>
    ensures { option_copied result ≡ first_start homes.now starts.now }
{
    let mut first = None;
    for start in starts {
        first = better_start(homes, first, start);
    }
    first
}

/// Of a resource to keep that is found and another one the one that comes first.
fn better_keeping<'o>(first: Option<&'o Keeping>, keeping: &'o Keeping) -> Option<&'o Keeping>
    ensures { option_copied result ≡ better is_keeping_before (λ k. true) (option_copied first.entry) keeping.now }
{
    match first {
        Some(found) => {
            if precedes(
                &keeping.path,
                keeping.physical.as_str(),
                &found.path,
                found.physical.as_str(),
            ) {
                Some(keeping)
            } else {
                Some(found)
            }
        }
        None => Some(keeping),
    }
}

/// The first of these resources to keep.
fn first_keeping<'o>(keepings: &'o [Keeping]) -> Option<&'o Keeping>
    ensures { option_copied result ≡ first_keeping keepings.now }
{
    let mut first = None;
    for keeping in keepings {
        first = better_keeping(first, keeping);
    }
    first
}

/// The call of an open token, once more.
fn again(alloc: Global, pending: &Pending) -> Result<Next, AllocError>
    ensures { IfOk result (λ n. n ≡ again pending.now) }
{
    let path = pending.path.try_clone(alloc)?;
    let lane = pending.lane.try_clone(alloc)?;
    let request = pending.request.try_clone(alloc)?;
    Ok(Next::Step {
        path,
        lane,
        token: pending.token,
        request,
        repeated: true,
    })
}

/// A resource goes off its stack's list.
fn keep(alloc: Global, keeping: &Keeping) -> Result<Next, AllocError>
    ensures { IfOk result (λ n. n ≡ keep keeping.now) }
{
    let path = keeping.path.try_clone(alloc)?;
    let physical = keeping.physical.try_clone(alloc)?;
    Ok(Next::Keep {
        path,
        physical,
        why: keeping.why,
    })
}

/// A new call on a lane.
fn call_on(alloc: Global, token: u64, start: &Start, lane: &(Txt, Txt)) -> Result<Next, AllocError>
    ensures { IfOk result (λ n. n ≡ call_on token start.now lane.now) }
{
    let path = start.path().try_clone(alloc)?;
    let lane = lane.0.try_clone(alloc)?;
    let request = start.request(alloc)?;
    Ok(Next::Step {
        path,
        lane,
        token,
        request,
        repeated: false,
    })
}

/// The first of these lanes that fits a new call.
fn home_for<'o, 'a>(homes: &'o [LaneHome<'a>], start: &Start) -> Option<&'o LaneHome<'a>>
    ensures { option_copied result ≡ find (fits start.now.request) homes.now }
{
    homes.iter().find(|home| fits(start, home.lane()))
}

/// A new call on the first of these lanes that fits it.
fn call_in(
    alloc: Global,
    homes: &[LaneHome],
    token: u64,
    start: &Start,
) -> Result<Option<Next>, AllocError>
    ensures { IfOk result (λ n. n ≡ call_in homes.now token start.now) }
{
    match home_for(homes, start) {
        Some(home) => Ok(Some(call_on(alloc, token, start, home.lane())?)),
        None => Ok(None),
    }
}

/// A new call under the next token. Where no token is left, this is an error too.
pub(crate) fn new_call(
    alloc: Global,
    homes: &[LaneHome],
    world: &World,
    start: &Start,
) -> Result<Option<Next>, AllocError>
    ensures { IfOk result (λ n. n ≡ call_in homes.now (world.now.world.token + 1) start.now) }
{
    let Some(token) = world.token().checked_add(1) else {
        return Err(AllocError);
    };
    call_in(alloc, homes, token, start)
}

/// Whether a resource to keep comes before a new call.
fn is_kept_before(keeping: &Keeping, start: &Start) -> bool
    ensures { result ≡ precedes (keeping_place keeping.now) (start_place start.now) }
{
    precedes(
        &keeping.path,
        keeping.physical.as_str(),
        start.path(),
        physical_id_of(start),
    )
}

/// A new call, or else a resource to keep, whichever comes first.
fn either_new(
    alloc: Global,
    homes: &[LaneHome],
    world: &World,
    start: Option<&Start>,
    keeping: Option<&Keeping>,
) -> Result<Option<Next>, AllocError>
    ensures { IfOk result (λ n. n ≡ either_new homes.now (world.now.world.token + 1) (option_copied start.entry) (option_copied keeping.entry)) }
{
    match (start, keeping) {
        (None, None) => Ok(None),
        (None, Some(keeping)) => Ok(Some(keep(alloc, keeping)?)),
        (Some(start), None) => new_call(alloc, homes, world, start),
        (Some(start), Some(keeping)) => {
            if is_kept_before(keeping, start) {
                Ok(Some(keep(alloc, keeping)?))
            } else {
                new_call(alloc, homes, world, start)
            }
        }
    }
}

/// The first of the new calls and the resources to keep.
fn first_new(
    alloc: Global,
    out: &[u64],
    world: &World,
    offer: &Offer,
) -> Result<Option<Next>, AllocError>
    ensures { IfOk result (λ n. n ≡ first_new (homes_now out.now world.now.world) (world.now.world.token + 1) offer.now) }
{
    let homes = homes_now(alloc, out, world)?;
    let start = first_start(homes.as_slice(), offer.starts.as_slice());
    let keeping = first_keeping(offer.keepings.as_slice());
    either_new(alloc, homes.as_slice(), world, start, keeping)
}

/// The first of all that may begin, on the lane that takes it.
pub(crate) fn first_begun(
    alloc: Global,
    out: &[u64],
    world: &World,
    offer: &Offer,
) -> Result<Option<Next>, AllocError>
    ensures { IfOk result (λ n. n ≡ first_begun out.now world.now.world offer.now) }
{
    match first_repeat(out, world, offer.repeats.as_slice()) {
        Some(pending) => Ok(Some(again(alloc, pending)?)),
        None => first_new(alloc, out, world, offer),
    }
}
