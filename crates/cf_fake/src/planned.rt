//! How calls of a handler in memory are broken.
ghost use Rattle.std.specs.Prelude.{IsTrue};
ghost use Rattle.cf_fake.specs.Refusable.{is_numbered, may_break};

use cf_tree::Code;

/// How a call is broken.
#[derive(Clone, Copy, Debug, PartialEq, Eq)]
pub enum Break {
    /// It is refused with this code, which is not `NotFound`, and its token is settled so.
    Refuse(Code),
    /// It answers a fault, and does nothing.
    FaultBefore,
    /// It is worked and its token is settled, but it answers a fault.
    FaultAfter,
    /// It answers a fault, and is put aside if its token is not settled. It is worked just before the call that comes
    /// this number of calls later, if no fence has passed it and its token is not settled by then.
    FaultLater(u64),
    /// It is no call: the first raising of the fence answers a fault, and leaves the fence.
    FenceFault,
}

/// A call by its number, counted from 1, and how it is broken. Calls that are stale are not counted. `FenceFault` stands
/// with the number 0.
#[derive(Clone, Copy, Debug)]
pub struct Planned {
    pub call: u64,
    pub break_: Break,
    ghost fits: { IsTrue (may_break break_) },
    ghost numbered: { IsTrue (is_numbered call break_) },
}
