//! Laws that tie what a change set tells to what its operation does. None of these functions does anything when it runs.
ghost use Rattle.cf_core.specs.Foretold.{BegunIsTold, CallsBeginTold, CallsStayTold, CleanupBeginsTold, CleanupIsTold, CompletedIsTold};
ghost use Rattle.cf_core.specs.Foretold.{IntendedIsTold, MadeBeginCalled, MadeIsTold, MadeStayCalled};

/// As an operation begins, its change set has the rows of what its source changes of the stack.
pub fn begun_is_told()
    ensures { BegunIsTold }
{}

/// Each call that the forward phase intends is told by the row of its path in the change set of its operation: an added resource is
/// created, a modified one updated in place or replaced as the row says, and nothing is asked for at a path that is removed or has no row.
/// So are all calls that it has made: none as it begins to go forward, and each entry of the forward phase keeps it so.
pub fn calls_are_told()
    ensures intended { IntendedIsTold }
    ensures begins { CallsBeginTold }
    ensures stays { CallsStayTold }
{}

/// What an operation makes as it goes forward was created at its path by a call of it, and the row of the path tells a create.
pub fn made_is_told()
    ensures begins { MadeBeginCalled }
    ensures stays { MadeStayCalled }
    ensures told { MadeIsTold }
{}

/// Where the forward phase is complete, all that the change set of its operation tells has come true: what it adds is made, what it
/// modifies is there under its id or is replaced as its row says, what it removes waits for the cleanup, and all else is as it was.
pub fn completed_is_told()
    ensures { CompletedIsTold }
{}

/// As the cleanup of an update begins, all calls that its stack lists are of that operation; and at each moment of it, and as it ends,
/// what is superseded is held until it is deleted, or left over.
pub fn cleanup_is_told()
    ensures begins { CleanupBeginsTold }
    ensures stays { CleanupIsTold }
{}
