//! Laws about how entries change what the agreement of journal and lanes reads of the stacks. None of
//! these functions does anything when it runs.
ghost use Rattle.cf_core.specs.Bridges.{DoneMoves, DoubtMoves, IntentMoves, KeptMay, KeptMoves, OpeningMoves, OutcomeMoves, PhaseMoves};
ghost use Rattle.cf_core.specs.OneStack.{OneIsPut, OwnKept};

/// A stack that is put under its name is the one that changes, or it is a new one.
pub fn one_is_put()
    ensures { OneIsPut }
{}

/// A change of one stack that takes nothing of another leaves the stacks their own.
pub fn own_kept()
    ensures { OwnKept }
{}

/// An opening moves the account by its lanes and its epoch.
pub fn opening_moves()
    ensures { OpeningMoves }
{}

/// An Intent opens its call.
pub fn intent_moves()
    ensures { IntentMoves }
{}

/// An Outcome that is a success or a refusal answers its call for good.
pub fn outcome_moves()
    ensures { OutcomeMoves }
{}

/// A doubt changes nothing.
pub fn doubt_moves()
    ensures { DoubtMoves }
{}

/// A resource that is kept is left over, and the calls on it are given up.
pub fn kept_moves()
    ensures { KeptMoves }
{}

/// What a kept resource gives up may be given up.
pub fn kept_may()
    ensures { KeptMay }
{}

/// A later phase changes nothing that the account tells.
pub fn phase_moves()
    ensures { PhaseMoves }
{}

/// An end changes nothing that the account tells.
pub fn done_moves()
    ensures { DoneMoves }
{}
