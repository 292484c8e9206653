//! The book.
ghost use Rattle.std.specs.Prelude.{◌≡◌, ◌<◌, IfOk, None, Some, length, map, slice_get};
ghost use Rattle.cf_next.specs.Chosen.{schemas_of};
ghost use Rattle.cf_book.specs.Record.{KnowsDisk, world_left};
ghost use Rattle.cf_book.specs.State.{BookLane, home_of};
ghost use Rattle.cf_book.specs.Steady.{IsSteady};

use crate::ending::Ended;
use crate::place::Place;
use crate::record::Record;
use crate::stop::StopFault;
use cf_disk::Disk;
use cf_handler::Handler;
use cf_next::{Homes, schemas_of};
use cf_schema::Schemas;
use cf_stacks::World;
use cf_tree::Txt;
use std::alloc::{AllocError, Global};
use std::marker::Model;

/// What a run owns: the journal of its disk with the world that the entries leave, and the lanes in the order in which they were
/// handed in, each at home or lent for one call.
///
/// A fault that is answered by `begin`, `grant` or `settle` stops the book. From then on these three answer the same fault and nothing
/// is appended; lanes that are out still come home.
pub struct Book<D: Disk, H: Handler> {
    pub(crate) record: Record<D>,
    pub(crate) places: Vec<Place<H>>,
    /// The names and schemas of the lanes, and the tokens of the calls that are out.
    pub(crate) homes: Homes,
    /// What the lanes were handed in with: the room in which they are given back.
    pub(crate) emptied: Vec<H>,
    /// The operations that have ended since the opening.
    pub(crate) ended: Vec<Ended>,
    pub(crate) has_granted: bool,
    pub(crate) stopped: Option<StopFault>,
}

impl<D: Disk, H: Handler> Model for Book<D, H> {
    ghost use Rattle.cf_book.specs.State.{BookNow};

    ghost Value = { BookNow D };

    ghost use Rattle.std.specs.Coded.{codes};
    ghost use Rattle.cf_tree.specs.Datum.{data_code};

    ghost coded = { Prim.hlevel (codes, data_code) };

    ghost use Rattle.std.specs.Prelude.{◌≡◌};
    ghost use Rattle.cf_book.specs.Ended.{ended_in};
    ghost use Rattle.cf_book.specs.Inside.{HasWayBack, IsRight, book_of, entries_in, places_now};

    ghost view = { λ b. book_of b.record (places_now H.Handler b.places.items) b.has_granted b.stopped };

    ghost invariant = { λ b. IsRight D.Disk b.record (places_now H.Handler b.places.items) b.homes b.stopped
        × HasWayBack (places_now H.Handler b.places.items) b.emptied
        × (b.ended.items ≡ ended_in (entries_in b.record)) };
}

impl<D: Disk, H: Handler> Book<D, H> {
    /// The world that the entries leave which were acknowledged.
    pub fn world(&self) -> &World
        ensures world { result.now.world ≡ world_left self.now.entries }
        ensures known { KnowsDisk D.Disk self.now }
        ensures steady { self.now.stopped ≡ None → IsSteady D.Disk self.now }
    {
        &self.record.world
    }

    /// What stopped the book. Nothing is in doubt of a book that has not stopped.
    pub fn stopped(&self) -> Option<StopFault>
        ensures value { result ≡ self.now.stopped }
        ensures known { KnowsDisk D.Disk self.now }
        ensures steady { self.now.stopped ≡ None → IsSteady D.Disk self.now }
    {
        self.stopped
    }

    /// The schemas of the lanes, one of each type.
    ///
    /// # Errors
    ///
    /// Where there is no memory.
    pub fn schemas(&self, alloc: Global) -> Result<Schemas, AllocError>
        ensures { IfOk result (λ schemas. schemas ≡ schemas_of (map home_of self.now.lanes)) }
    {
        schemas_of(alloc, &self.homes)
    }

    /// The name of the lane at a place, by the order in which the lanes were handed in.
    pub fn lane_name(&self, place: u64) -> &Txt
        requires { place < length self.now.lanes }
        ensures { (lane : BookLane) × (slice_get self.now.lanes place ≡ Some lane) × (result.now ≡ lane.lane.name) }
    {
        &self.homes.as_slice()[place as usize].name
    }
}
