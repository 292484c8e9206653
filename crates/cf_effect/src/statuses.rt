//! The statuses of a stack and the phases of an operation.
ghost use Rattle.std.specs.Prelude.{◌≡◌};
ghost use Rattle.cf_effect.specs.Status.{begun, goes_back, is_deleted, is_in_progress, reviewed, turned};

use cf_entry::{Begun, Phase, Status};

/// The status with which an operation begins.
pub fn begun(kind: &Begun) -> Status
    ensures { result ≡ begun kind.now }
{
    match kind {
        Begun::Create { .. } => Status::CreateInProgress,
        Begun::Update { .. } => Status::UpdateInProgress,
        Begun::Delete { .. } => Status::DeleteInProgress,
        Begun::Continue { .. } => Status::UpdateRollbackInProgress,
    }
}

/// The status of a later phase of an operation that has this status.
pub fn turned(status: Status, phase: Phase) -> Status
    ensures { result ≡ turned status phase }
{
    match (status, phase) {
        (Status::CreateInProgress, Phase::Back) => Status::RollbackInProgress,
        (_, Phase::Back) => Status::UpdateRollbackInProgress,
        (_, Phase::Clean) => Status::UpdateCompleteCleanupInProgress,
        (_, Phase::BackClean) => Status::UpdateRollbackCompleteCleanupInProgress,
    }
}

/// Whether an operation is in progress on a stack that has this status.
pub fn is_in_progress(status: Status) -> bool
    ensures { result ≡ is_in_progress status }
{
    matches!(
        status,
        Status::CreateInProgress
            | Status::UpdateInProgress
            | Status::UpdateCompleteCleanupInProgress
            | Status::RollbackInProgress
            | Status::UpdateRollbackInProgress
            | Status::UpdateRollbackCompleteCleanupInProgress
            | Status::DeleteInProgress
    )
}

/// Whether a stack that has this status is deleted.
pub fn is_deleted(status: Status) -> bool
    ensures { result ≡ is_deleted status }
{
    matches!(status, Status::DeleteComplete)
}

/// Whether a stack that has this status is in its rollback.
pub fn goes_back(status: Status) -> bool
    ensures { result ≡ goes_back status }
{
    matches!(
        status,
        Status::RollbackInProgress | Status::UpdateRollbackInProgress
    )
}

/// The status of a stack with a change set.
pub fn reviewed(status: Status) -> Status
    ensures { result ≡ reviewed status }
{
    match status {
        Status::DeleteComplete => Status::ReviewInProgress,
        _ => status,
    }
}
