//! Laws about every event of a life: what holds at each moment is kept by it, and each entry that it appends is written. None
//! of these functions does anything when it runs.
ghost use Rattle.cf_core.specs.SoundLife.{EventKeeps, EventWrites, StartIsSoundLife};

/// Every event that may happen keeps agreement of journal and lanes, the fit of every stack, the rows of all calls that are out
/// and the origins of all resources, where the course of each stack is as it has to be.
pub fn event_keeps()
    ensures { EventKeeps }
{}

/// Each entry that an event appends is written, for every stack that is there after it.
pub fn event_writes()
    ensures { EventWrites }
{}

/// All of it holds of a start.
pub fn start_is_sound_life()
    ensures { StartIsSoundLife }
{}
