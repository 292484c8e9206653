//! Laws about the entries of a journal, and about lives of an engine. None of these functions does anything when it runs.
ghost use Rattle.cf_core.specs.Unmade.{ClearedStays, EndsCleared, UnmakingBegins, UnmakingStays};
ghost use Rattle.cf_core.specs.Written.{WrittenIsTo};

/// An entry that is written is a step of the operation in progress of a stack, begins one on it, keeps a change set of it, opens
/// the engine anew, or is of another stack.
pub fn written_is_to()
    ensures { WrittenIsTo }
{}

/// Where a deletion or the rollback of a creation ends with COMPLETE, nothing is left on the stack.
pub fn ends_cleared()
    ensures { EndsCleared }
{}

/// Nothing is held while a creation goes forward.
pub fn unmaking_begins()
    ensures { UnmakingBegins }
{}

/// Nothing is held while a creation is rolled back, whatever is written.
pub fn unmaking_stays()
    ensures { UnmakingStays }
{}

/// A stack on which nothing is left stays so until an operation begins on it.
pub fn cleared_stays()
    ensures { ClearedStays }
{}
