//! Laws about cleanups, and that an operation goes on until its end. None of these functions does anything when it runs.
ghost use Rattle.cf_core.specs.GoesOn.{CleanupGoesOn, DeletionGoesOn, ForwardGoesOn, OperationGoesOn, RollbackGoesOn, ToldBegins, ToldStays};
ghost use Rattle.cf_core.specs.Tidying.{BackTidyingBegins, NothingDeleted, TidyingBegins, TidyingEnds, TidyingStays, TriesStayLeft};

/// An operation has deleted nothing as it begins, and deletes nothing while it goes forward or gives back.
pub fn nothing_deleted()
    ensures { NothingDeleted }
{}

/// What an open call deletes was refused fewer than three times in its operation.
pub fn tries_stay_left()
    ensures { TriesStayLeft }
{}

/// The cleanup of an update begins with no call open and nothing tried.
pub fn tidying_begins()
    ensures { TidyingBegins }
{}

/// So does the cleanup of an update that was rolled back.
pub fn back_tidying_begins()
    ensures { BackTidyingBegins }
{}

/// With each entry of a cleanup each open call deletes what is cleaned up, and of each resource of it all deletions were refused, or
/// all but an open one.
pub fn tidying_stays()
    ensures { TidyingStays }
{}

/// Where a cleanup ends, nothing of it is left and no call is open.
pub fn tidying_ends()
    ensures { TidyingEnds }
{}

/// A cleanup goes on until its end.
pub fn cleanup_goes_on()
    ensures { CleanupGoesOn }
{}

/// So does a rollback.
pub fn rollback_goes_on()
    ensures { RollbackGoesOn }
{}

/// So does a deletion.
pub fn deletion_goes_on()
    ensures { DeletionGoesOn }
{}

/// So does a creation, and an update, as it goes forward, where each type that its template wants has a lane.
pub fn forward_goes_on()
    ensures { ForwardGoesOn }
{}

/// So every operation on its course goes on until its end.
pub fn operation_goes_on()
    ensures { OperationGoesOn }
{}

/// As a creation or an update begins, its entries and its ledger say of each other what its going on rests on.
pub fn told_begins()
    ensures { ToldBegins }
{}

/// So they do with each entry of its forward phase.
pub fn told_stays()
    ensures { ToldStays }
{}
