//! The theorem: what holds at every moment of an engine's life. None of these functions does anything when it runs.
ghost use Rattle.cf_core.specs.OnCourse.{WayIsKept};
ghost use Rattle.cf_core.specs.Theorem.{EventHolds, EventsHold, HoldsKeepsPromises, LanesAreNamed, LivesKeepPromises, OperationsGoOn, StartHolds};
ghost use Rattle.cf_core.specs.Turned.{BackIsTold, NoneFailedYet, TurnsHadCause};

/// From every start, after every list of events of an engine's life each of which may happen in its turn, journal and lanes
/// agree and each stack keeps what its status promises.
///
/// So it is whatever is answered or breaks off, acts late, is parked or crashes, with any number of stacks, for nested sources
/// too. CREATE_COMPLETE and UPDATE_COMPLETE promise that the stack's template is live, just as its evaluation over what is live
/// says, and that the stack holds nothing else; ROLLBACK_COMPLETE that it holds nothing; UPDATE_ROLLBACK_COMPLETE that it holds
/// what it held before, live under its old ids and, but for what is unsure, with its old properties; DELETE_COMPLETE and
/// REVIEW_IN_PROGRESS that it holds nothing; each FAILED status that paths are named, each with an outcome that was refused or
/// broke off and whose handler's count rose. By agreement all that is live is a resource of a stack, left over and listed, or of
/// a create that is open, or was given up and is listed.
pub fn lives_keep_promises()
    ensures { LivesKeepPromises }
{}

/// What holds at every moment holds of a start.
pub fn starts_hold()
    ensures { StartHolds }
{}

/// What holds at a moment holds after each event that may happen then.
pub fn event_holds()
    ensures { EventHolds }
{}

/// What holds at a moment holds after each list of events, each of which may happen in its turn, and each stack then keeps what its
/// status promises.
pub fn events_hold()
    ensures { EventsHold }
{}

/// Where it holds, each stack keeps what its status promises.
pub fn holds_keeps_promises()
    ensures { HoldsKeepsPromises }
{}

/// Each entry that is written leaves each stack on its course.
pub fn way_is_kept()
    ensures { WayIsKept }
{}

/// At every moment of a life each operation in progress goes on until its end, nested sources included: where no call is out,
/// some entry of it may follow or some open call may be made again, as long as each type that its template wants has a lane.
pub fn operations_go_on()
    ensures { OperationsGoOn }
{}

/// At every moment of a life the last opening named the lane of each resource of a stack, with its type; and, while the stack goes
/// forward, that of each resource from before the operation, for all of them are still held.
pub fn lanes_are_named()
    ensures { LanesAreNamed }
{}

/// At every moment of a life: where an operation has turned back, its forward phase had failed for the cause that is told, as the stack
/// stood then; and where that cause is a handler, one of the operation's own calls at that path was refused or broke off for that
/// reason, and its handler's count rose.
pub fn turns_had_cause()
    ensures { TurnsHadCause }
{}

/// At every moment of a life: an operation that has turned back tells its cause, unless it is a continued rollback.
pub fn back_is_told()
    ensures { BackIsTold }
{}

/// While an operation is in progress, none of its paths is told as failed.
pub fn none_failed_yet()
    ensures { NoneFailedYet }
{}
