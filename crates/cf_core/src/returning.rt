//! The rollback of an update gives everything back. None of these functions does anything when it runs.
ghost use Rattle.cf_core.specs.Returning.{
  BackHolds,
  BackStaysAtRest,
  BackStaysInCleanup,
  FailedRollbacksStay,
  UpdatesGoBack,
  UpdatesSkipNone,
  UpdatesTurnBack,
};

/// No continued rollback has skipped a path of an update that goes forward.
pub fn updates_skip_none()
    ensures { UpdatesSkipNone }
{}

/// As the forward phase of an update fails, what was held before is still held, and what was not
/// updated is as it was.
pub fn updates_turn_back()
    ensures { UpdatesTurnBack }
{}

/// So it stays as the update goes back, until all is given back.
pub fn updates_go_back()
    ensures { UpdatesGoBack }
{}

/// It stays so where the rollback has failed, and as it is continued.
pub fn failed_rollbacks_stay()
    ensures { FailedRollbacksStay }
{}

/// Meanwhile what was held before is held, and each open call is a create, or an update of what
/// is held at its path.
pub fn back_holds()
    ensures { BackHolds }
{}

/// What was given back stays as what the update made is deleted.
pub fn back_stays_in_cleanup()
    ensures { BackStaysInCleanup }
{}

/// And until the next operation begins.
pub fn back_stays_at_rest()
    ensures { BackStaysAtRest }
{}
