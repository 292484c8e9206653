//! Laws about operations that go forward. None of these functions does anything when it runs.
ghost use Rattle.cf_core.specs.Ahead.{AdvancingBegins, AdvancingGoesOn, AdvancingStays, CourseIsFree};

/// As a creation or an update begins its stack goes forward: nothing is made or updated yet, and what is held is as it was.
pub fn advancing_begins()
    ensures { AdvancingBegins }
{}

/// A stack that goes forward does so behind every entry, be it of the stack or not, that leaves it a status of the forward phase,
/// where its calls were hidden and what was not hidden is still seen.
pub fn advancing_goes_on()
    ensures { AdvancingGoesOn }
{}

/// A stack that goes forward does so behind every entry that leaves it a status of the forward phase: what it has made and updated
/// is what its template says, what it has not is as it was, and what its open calls ask for is what the template says of paths that
/// are ready and not done.
pub fn advancing_stays()
    ensures { AdvancingStays }
{}

/// Where a stack in its course has a status from which a creation or an update may begin, no call is open and each resource is the
/// one of its path.
pub fn course_is_free()
    ensures { CourseIsFree }
{}
