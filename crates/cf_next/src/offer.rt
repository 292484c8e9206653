//! What an operation has to offer in its stage: the steps that may begin, but for lanes that are out.

use cf_entry::{Cause, Phase, Why};
use cf_plan::Starts;
use cf_stacks::Pending;
use cf_tree::{Listing, Txt};

/// A resource that may go off its stack's list; the physical id is empty where it is not known.
#[derive(Drop)]
pub struct Keeping {
    pub path: Txt,
    pub physical: Txt,
    pub why: Why,
}

/// Resources that may go off their stack's list.
pub type Keepings = Listing<Keeping>;

/// A phase that may begin; it has a cause exactly where the operation turns back.
#[derive(Drop)]
pub struct Turn {
    pub phase: Phase,
    pub cause: Option<Cause>,
}

/// What an operation may begin in its stage.
#[derive(Drop)]
pub struct Offer<'a> {
    /// Open calls that may be made again.
    pub repeats: Listing<Pending>,
    /// Calls that may begin.
    pub starts: Starts<'a>,
    pub keepings: Keepings,
    pub turn: Option<Turn>,
    /// Going forward: it has made all that its template says, and has not failed.
    pub is_made: bool,
}
