//! Laws about how many tokens an operation gives a path. None of these functions does anything when it runs.
ghost use Rattle.cf_core.specs.FewCalls.{FewChanges, FewStay, OneIsOpen, TokensAreFew};

/// With each entry that is written an operation has created a path or given it back, and has updated it going forward, under one token
/// each at most; has deleted there under three, of one resource in a cleanup and in the rollback of a creation, of two as its stack is
/// deleted; and has tried no resource more often than three times.
pub fn few_stay()
    ensures { FewStay }
{}

/// So but for deletions an operation calls a path under two tokens at most.
pub fn few_changes()
    ensures { FewChanges }
{}

/// At every moment of a life, in every status, the last operation of a stack has called no path under more than five tokens of its own.
pub fn tokens_are_few()
    ensures { TokensAreFew }
{}

/// No more than one call of a path is open, of whichever operation.
pub fn one_is_open()
    ensures { OneIsOpen }
{}
