//! Laws about the agreement of journal and lanes. None of these functions does anything when it
//! runs.
ghost use Rattle.cf_agree.specs.Laws.{AnswerKeeps, CallKeeps, DropKeeps, FenceKeeps, IntentKeeps, LateKeeps, OpeningKeeps, RestKeeps, ReturnKeeps};

/// A call that is out keeps agreement, whatever it answers: a success or a refusal of a new or of a
/// settled token, that it is stale, want of memory, or a fault that did nothing, was settled, or may act later.
pub fn call_keeps()
    ensures { CallKeeps }
{}

/// A late effect keeps agreement, whichever leases are out.
pub fn late_keeps()
    ensures { LateKeeps }
{}

/// A fence that is raised, is ahead, or whose raising broke off either way keeps agreement.
pub fn fence_keeps()
    ensures { FenceKeeps }
{}

/// An opening keeps agreement, where each resource and each open call has its lane among those that
/// it names.
pub fn opening_keeps()
    ensures { OpeningKeeps }
{}

/// A stack that begins or ends its work keeps agreement.
pub fn rest_keeps()
    ensures { RestKeeps }
{}

/// A call that is written down keeps agreement, and goes out as a lease.
pub fn intent_keeps()
    ensures { IntentKeeps }
{}

/// The answer for good of an open call keeps agreement, whatever was asked and answered.
pub fn answer_keeps()
    ensures { AnswerKeeps }
{}

/// A lease that comes back keeps agreement.
pub fn return_keeps()
    ensures { ReturnKeeps }
{}

/// Calls that are given up keep agreement: with a resource that is kept, an abandoned create, an
/// update that a continued rollback skips.
pub fn drop_keeps()
    ensures { DropKeeps }
{}
