//! The lanes of a book.
ghost use Rattle.std.specs.Prelude.{◌≡◌, ◌≢◌, ◌<◌, ◌≤◌, [], vec_capacity, ℕ, true, Some, None, map, position, length, slice_get, slice_set};
ghost use Rattle.std.specs.Str.{bytes_eq};
ghost use Rattle.cf_tree.specs.Named.{all_differ};
ghost use Rattle.cf_lane.specs.Calling.{Granted};
ghost use Rattle.cf_lane.specs.Lanes.{LaneNow, lane_now, lane_with};
ghost use Rattle.cf_next.specs.declared.home.Home.{Home};
ghost use Rattle.cf_book.specs.Calls.{AreHandlersOf};
ghost use Rattle.cf_book.specs.State.{BookLane, NoneOut, at_home, come_home, home_of, lent_for};
ghost use Rattle.cf_book.specs.Inside.{MayComeHome, name_of, place_now, places_now};

use cf_handler::Handler;
use cf_lane::Lane;
use cf_next::{Home, Homes};
use cf_tree::Request;
use std::mem;
use std::snapshot::Snapshot;

/// A call that was granted. For contracts alone it keeps what is asked.
#[derive(Drop)]
pub struct Call {
    pub epoch: u64,
    pub number: u64,
    pub token: u64,
    pub request: Snapshot<Request>,
}

/// A lane of a book: at home, or out for a call. For contracts alone the book keeps what the lane was as it was lent.
pub enum Place<H> {
    Home(Lane<H>),
    Out(Call, Snapshot<Lane<H>>),
}

/// The place of the lane of a name.
fn find_place(homes: &[Home], name: &str) -> Option<usize>
    ensures { result ≡ position (λ h. bytes_eq name.now h.name) homes.now }
{
    homes.iter().position(|home| home.name.is(name))
}

/// The place of the lane of a name, which is among these.
fn place_of(homes: &[Home], name: &str) -> usize
    requires { (at : ℕ) × (position (λ h. bytes_eq name.now h.name) homes.now ≡ Some at) }
    ensures { position (λ h. bytes_eq name.now h.name) homes.now ≡ Some result }
{
    match find_place(homes, name) {
        Some(at) => at,
        None => unreachable!(),
    }
}

/// Puts a lane home, to a place from which it is out.
pub(crate) fn put_home<H: Handler>(place: &mut Place<H>, lane: Lane<H>)
    requires { (place_now H.Handler place.old).out ≢ None }
    ensures { place_now H.Handler place.new ≡ at_home (lane_now H.Handler lane) }
{
    match mem::replace(place, Place::Home(lane)) {
        Place::Out(call, lent) => {
            drop(call);
            drop(lent);
        }
        Place::Home(_other) => unreachable!(),
    }
}

/// Puts a lane home, to one of these places, from which it is out.
fn put_home_at<H: Handler>(places: &mut Vec<Place<H>>, at: usize, lane: Lane<H>)
    requires { (call : Granted) × (was : LaneNow) × (slice_get (places_now H.Handler places.old.items) at ≡ Some (lent_for call was)) }
    ensures { places_now H.Handler places.new.items
        ≡ slice_set (places_now H.Handler places.old.items) at (at_home (lane_now H.Handler lane)) }
{
    put_home(&mut places[at], lane)
}

/// Marks a lane as at home.
fn free(homes: &mut [Home], at: usize)
    requires { at < length homes.old }
    ensures { (h : Home) × (slice_get homes.old at ≡ Some h) × (homes.new ≡ slice_set homes.old at (record h { out = None })) }
{
    let home = &mut homes[at];
    home.out = None;
}

/// Takes a lane home, from which it is out; gives its place.
pub(crate) fn take_home<H: Handler>(
    places: &mut Vec<Place<H>>,
    homes: &mut Homes,
    lane: Lane<H>,
) -> usize
    requires homes { homes.old ≡ map home_of (places_now H.Handler places.old.items) }
    requires differ { all_differ bytes_eq (map name_of (places_now H.Handler places.old.items)) ≡ true }
    requires out { MayComeHome H.Handler (places_now H.Handler places.old.items) lane }
    ensures places { places_now H.Handler places.new.items ≡ come_home (lane_now H.Handler lane) (places_now H.Handler places.old.items) }
    ensures homes { homes.new ≡ map home_of (places_now H.Handler places.new.items) }
    ensures at { (b : BookLane) × (slice_get (places_now H.Handler places.old.items) result ≡ Some b)
        × (b.lane.name ≡ (lane_now H.Handler lane).name) }
{
    let at = place_of(homes.as_slice(), lane.name());
    put_home_at(places, at, lane);
    free(homes.as_mut_slice(), at);
    at
}

/// The handler of a lane that is at home.
fn handler_in<H: Handler>(place: Place<H>) -> H
    requires { (place_now H.Handler place).out ≡ None }
    ensures { lane_with H.Handler result [] ≡ record (place_now H.Handler place).lane { log = [] } }
{
    match place {
        Place::Home(lane) => lane.into_handler(),
        Place::Out(_, _) => unreachable!(),
    }
}

/// The handlers of lanes that are all at home, in their order, in a vector that has room for them. It takes no memory.
pub(crate) fn handlers_of<H: Handler>(places: Vec<Place<H>>, emptied: Vec<H>) -> Vec<H>
    requires home { NoneOut (places_now H.Handler places.items) }
    requires empty { emptied.items ≡ [] }
    requires room { length (places_now H.Handler places.items) ≤ vec_capacity emptied }
    ensures { AreHandlersOf H.Handler (places_now H.Handler places.items) result.items }
{
    let mut handlers = emptied;
    let mut rest = places.into_iter();
    while let Some(place) = rest.next() {
        handlers.push_reserved(handler_in(place));
    }
    rest.destroy_empty();
    handlers
}
