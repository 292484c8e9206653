//! The log of a lane.
ghost use Rattle.std.specs.Prelude.{◌≡◌, [], ◌∷◌, ◌++◌, map, OnOk};
ghost use Rattle.cf_lane.specs.Log.{HasRoom, calls_in, told_in};

use cf_tree::{Answer, Request};
use std::alloc::{AllocError, Global};
use std::snapshot::Snapshot;

/// A call of a lane: the opening and the operation that it was of, its token, and the lane's count of faults before and
/// after it. For contracts alone it keeps what was asked and answered.
#[derive(Drop)]
pub struct Note {
    pub epoch: u64,
    pub number: u64,
    pub token: u64,
    pub before: u64,
    pub after: u64,
    pub request: Snapshot<Request>,
    pub answer: Snapshot<Answer>,
}

/// The calls of a lane in their order.
#[derive(Drop)]
pub struct Notes {
    notes: Vec<Note>,
}

impl Notes {
    /// No call; it takes no memory.
    pub fn new(alloc: Global) -> Notes
        ensures { calls_in result ≡ [] }
    {
        Notes {
            notes: Vec::new(alloc),
        }
    }

    /// The calls in their order.
    pub fn as_slice(&self) -> &[Note]
        ensures { map told_in result.now ≡ calls_in self.now }
    {
        self.notes.as_slice()
    }

    /// Makes room for one more call.
    ///
    /// # Errors
    ///
    /// For want of memory; the calls stay.
    pub(crate) fn reserve(&mut self) -> Result<(), AllocError>
        ensures room { OnOk result (HasRoom self.new) }
        ensures calls { calls_in self.new ≡ calls_in self.old }
    {
        self.notes.reserve(1)
    }

    /// Notes one more call, for which there is room; it takes no memory.
    pub(crate) fn push(&mut self, note: Note)
        requires { HasRoom self.old }
        ensures { calls_in self.new ≡ calls_in self.old ++ told_in note ∷ [] }
    {
        self.notes.push_reserved(note);
    }
}
