//! What else holds at each moment of an engine's life. None of these functions does anything when it runs.
ghost use Rattle.cf_core.specs.InFlight.{LeasesStayOpen};
ghost use Rattle.cf_core.specs.More.{
  CompletesBegunStays,
  LeasesOnceStays,
  LeavesApartStays,
  LeavesOnceStays,
  ListsGivenUpStays,
  SettlesOnceStays,
  StartIsOnce,
};

/// Where a creation or an update is complete, the source that it began with is the one that was completed last.
pub fn completes_begun_stays()
    ensures { CompletesBegunStays }
{}

/// Each create that was given up is left over, at its path and under no known id.
pub fn lists_given_up_stays()
    ensures { ListsGivenUpStays }
{}

/// No two things that are left over of a stack have one known id.
pub fn leaves_once_stays()
    ensures { LeavesOnceStays }
{}

/// What is left over of two stacks has no known id in common.
pub fn leaves_apart_stays()
    ensures { LeavesApartStays }
{}

/// No two calls that are out are of one token.
pub fn leases_once_stays()
    ensures { LeasesOnceStays }
{}

/// Each call that is out is open, on the stack of its operation, and may be made again once it is back: so none is given up before it
/// is back, and its outcome may be written.
pub fn leases_stay_open()
    ensures { LeasesStayOpen }
{}

/// No lane settles a token twice.
pub fn settles_once_stays()
    ensures { SettlesOnceStays }
{}

/// So it is at a start.
pub fn start_is_once()
    ensures { StartIsOnce }
{}
