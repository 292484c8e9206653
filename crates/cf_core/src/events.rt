//! Laws about the events of an engine's life: which of them keep agreement of journal and lanes. None
//! of these functions does anything when it runs.
ghost use Rattle.cf_core.specs.LifeAgrees.{HeldIsLive, LanesKeep, OpenedKeeps, RepeatKeeps, SettleKeeps};

/// Calls, late effects, fences, parked leases, closings and crashes keep agreement in a life.
pub fn lanes_keep()
    ensures { LanesKeep }
{}

/// An opening keeps what holds at each moment, whether its append ends whole or broken.
pub fn opened_keeps()
    ensures { OpenedKeeps }
{}

/// An outcome that is written down keeps what holds at each moment, whatever was asked and answered.
pub fn settle_keeps()
    ensures { SettleKeeps }
{}

/// A call that is made again keeps what holds at each moment.
pub fn repeat_keeps()
    ensures { RepeatKeeps }
{}

/// Where no call of a stack is open, what it holds is live: under its id, on the lane that the id names,
/// with its type and, where it is sure, its properties and attributes.
pub fn held_is_live()
    ensures { HeldIsLive }
{}
