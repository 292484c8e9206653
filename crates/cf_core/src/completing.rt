//! Laws about operations that are completed, and about stacks at rest. None of these functions does anything when it runs.
ghost use Rattle.cf_core.specs.Completing.{
  BackIsRestored,
  CleanupKeepsWhole,
  ClearedIsRestored,
  CourseKeepsPromise,
  CreationIsWhole,
  HeldIsFound,
  RestKeepsWhole,
  StaysAtRest,
  UpdateEndsAtRest,
  UpdateIsWhole,
  WholeIsComplete,
};

/// Where the forward phase of an update is completed, its stack holds just what its template wants, and no call is open.
pub fn update_is_whole()
    ensures { UpdateIsWhole }
{}

/// So does the stack of a creation that is completed, and it is at rest.
pub fn creation_is_whole()
    ensures { CreationIsWhole }
{}

/// While an update cleans up, and as it ends, whatever is written leaves what its template wants.
pub fn cleanup_keeps_whole()
    ensures { CleanupKeepsWhole }
{}

/// Where nothing superseded is left and no call is open, the update ends at rest.
pub fn update_ends_at_rest()
    ensures { UpdateEndsAtRest }
{}

/// At rest a stack holds and exports what it did, until an operation begins on it.
pub fn stays_at_rest()
    ensures { StaysAtRest }
{}

/// So what is whole at rest stays so, as it was.
pub fn rest_keeps_whole()
    ensures { RestKeepsWhole }
{}

/// What a stack holds is what is found under its id.
pub fn held_is_found()
    ensures { HeldIsFound }
{}

/// A stack at rest that is whole is complete, with what is live of it.
pub fn whole_is_complete()
    ensures { WholeIsComplete }
{}

/// One at rest that has all back is restored, with what is live of it.
pub fn back_is_restored()
    ensures { BackIsRestored }
{}

/// One that holds nothing, and held nothing before, is restored.
pub fn cleared_is_restored()
    ensures { ClearedIsRestored }
{}

/// What holds of a stack between two operations keeps the promise of its status, with what is live.
pub fn course_keeps_promise()
    ensures { CourseKeepsPromise }
{}
