//! What the journal says: its entries.
use crate::status::Status;
use crate::turn::{Cause, Phase, Why};
use cf_tree::{Code, Dict, Listing, Names, Request, Rows, Source, Txt};

/// The lanes of an opening, in the order in which they were handed in: the name and the resource
/// type of each.
pub type LaneNames = Listing<(Txt, Txt)>;

/// One entry of the journal.
#[derive(Drop)]
pub enum Entry {
    /// The engine was opened over these lanes; the epochs count the openings from 1.
    Opened {
        epoch: u64,
        lanes: LaneNames,
    },
    /// An operation on a stack began; the numbers count the operations from 1.
    Begin {
        number: u64,
        stack: Txt,
        kind: Begun,
    },
    /// A resource went off its stack's list and became a leftover; the physical id is empty where it
    /// is not known.
    Kept {
        number: u64,
        path: Txt,
        physical: Txt,
        why: Why,
    },
    /// A request is about to be made of a lane, for the resource at a path, under a token that no
    /// other request has.
    Intent {
        number: u64,
        token: u64,
        lane: Txt,
        path: Txt,
        request: Request,
    },
    /// What a request came to, with the number of the lane's faults before and after the call.
    Outcome {
        number: u64,
        token: u64,
        answer: Reply,
        before: u64,
        after: u64,
    },
    /// An operation entered a phase; it has a cause exactly where it turns back.
    Phase {
        number: u64,
        phase: Phase,
        cause: Option<Cause>,
    },
    /// An operation ended in a status; the paths are those that failed.
    Done {
        number: u64,
        status: Status,
        failed: Names,
    },
    /// A change set was made for a stack; the numbers count the change sets from 1. `outputs` tells
    /// whether outputs differ or may differ.
    ChangeSet {
        number: u64,
        stack: Txt,
        source: Source,
        rows: Rows,
        outputs: bool,
    },
}

/// What an operation sets out to do.
#[derive(Drop)]
pub enum Begun {
    /// Make the stack from a source.
    Create { source: Source },
    /// Give the stack another source.
    Update { source: Source },
    /// Delete the stack, and keep the resources at these paths, which strictly ascend.
    Delete { paths: Names },
    /// Go on with a rollback that failed, and skip the resources at these paths, which strictly
    /// ascend.
    Continue { paths: Names },
}

/// What a request came to.
#[derive(Drop)]
pub enum Reply {
    /// It was done: the resource's physical id and its attributes, which are empty after a
    /// deletion.
    Success { physical: Txt, attrs: Dict },
    /// It was refused, and nothing changed.
    Failed { code: Code },
    /// The call broke off, and may have acted or not.
    Doubt,
}

/// The entries of a journal, in their order.
pub type Entries = Listing<Entry>;
