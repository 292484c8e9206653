//! Laws of who is blamed where an operation fails. None of these functions does anything when it runs.
ghost use Rattle.cf_core.specs.Blaming.{FailedAreBlamed, NoneIsBooked, StayBooked};

/// What a stack's entries and its ledger say of each other: it is so of a stack of which nothing is
/// known.
pub fn none_is_booked()
    ensures { NoneIsBooked }
{}

/// And it stays so with each entry that is written, in every status.
pub fn stay_booked()
    ensures { StayBooked }
{}

/// From the end of an operation that failed until the next one begins on its stack, paths are named,
/// and each has an outcome that was refused or broke off, whose handler's count rose.
pub fn failed_are_blamed()
    ensures { FailedAreBlamed }
{}
