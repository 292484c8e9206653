//! The statuses of a stack.
ghost use Rattle.std.specs.Prelude.{◌≡◌};
ghost use Rattle.cf_entry.specs.Status.{status_name, status_number, status_numbered, is_end};

/// A stack's status, by the names of the CloudFormation User Guide ("Stack status codes").
#[derive(Clone, Copy, Debug, PartialEq, Eq)]
pub enum Status {
    CreateInProgress,
    CreateComplete,
    RollbackInProgress,
    RollbackComplete,
    RollbackFailed,
    UpdateInProgress,
    UpdateCompleteCleanupInProgress,
    UpdateComplete,
    UpdateRollbackInProgress,
    UpdateRollbackCompleteCleanupInProgress,
    UpdateRollbackComplete,
    UpdateRollbackFailed,
    DeleteInProgress,
    DeleteComplete,
    DeleteFailed,
    ReviewInProgress,
}

impl Status {
    /// The status's number in the journal, 1 to 16 in the order of the variants.
    pub fn number(self) -> u8
        ensures { result ≡ status_number self }
    {
        match self {
            Status::CreateInProgress => 1,
            Status::CreateComplete => 2,
            Status::RollbackInProgress => 3,
            Status::RollbackComplete => 4,
            Status::RollbackFailed => 5,
            Status::UpdateInProgress => 6,
            Status::UpdateCompleteCleanupInProgress => 7,
            Status::UpdateComplete => 8,
            Status::UpdateRollbackInProgress => 9,
            Status::UpdateRollbackCompleteCleanupInProgress => 10,
            Status::UpdateRollbackComplete => 11,
            Status::UpdateRollbackFailed => 12,
            Status::DeleteInProgress => 13,
            Status::DeleteComplete => 14,
            Status::DeleteFailed => 15,
            Status::ReviewInProgress => 16,
        }
    }

    /// The status's name, as reports print it.
    pub fn name(self) -> &'static str
        ensures { result.now ≡ status_name self }
    {
        match self {
            Status::CreateInProgress => "CREATE_IN_PROGRESS",
            Status::CreateComplete => "CREATE_COMPLETE",
            Status::RollbackInProgress => "ROLLBACK_IN_PROGRESS",
            Status::RollbackComplete => "ROLLBACK_COMPLETE",
            Status::RollbackFailed => "ROLLBACK_FAILED",
            Status::UpdateInProgress => "UPDATE_IN_PROGRESS",
            Status::UpdateCompleteCleanupInProgress => "UPDATE_COMPLETE_CLEANUP_IN_PROGRESS",
            Status::UpdateComplete => "UPDATE_COMPLETE",
            Status::UpdateRollbackInProgress => "UPDATE_ROLLBACK_IN_PROGRESS",
            Status::UpdateRollbackCompleteCleanupInProgress => {
                "UPDATE_ROLLBACK_COMPLETE_CLEANUP_IN_PROGRESS"
            }
            Status::UpdateRollbackComplete => "UPDATE_ROLLBACK_COMPLETE",
            Status::UpdateRollbackFailed => "UPDATE_ROLLBACK_FAILED",
            Status::DeleteInProgress => "DELETE_IN_PROGRESS",
            Status::DeleteComplete => "DELETE_COMPLETE",
            Status::DeleteFailed => "DELETE_FAILED",
            Status::ReviewInProgress => "REVIEW_IN_PROGRESS",
        }
    }

    /// The status with a number, and None exactly where no status has it.
    pub fn from_number(number: u8) -> Option<Status>
        ensures { result ≡ status_numbered number }
    {
        match number {
            1 => Some(Status::CreateInProgress),
            2 => Some(Status::CreateComplete),
            3 => Some(Status::RollbackInProgress),
            4 => Some(Status::RollbackComplete),
            5 => Some(Status::RollbackFailed),
            6 => Some(Status::UpdateInProgress),
            7 => Some(Status::UpdateCompleteCleanupInProgress),
            8 => Some(Status::UpdateComplete),
            9 => Some(Status::UpdateRollbackInProgress),
            10 => Some(Status::UpdateRollbackCompleteCleanupInProgress),
            11 => Some(Status::UpdateRollbackComplete),
            12 => Some(Status::UpdateRollbackFailed),
            13 => Some(Status::DeleteInProgress),
            14 => Some(Status::DeleteComplete),
            15 => Some(Status::DeleteFailed),
            16 => Some(Status::ReviewInProgress),
            _ => None,
        }
    }

    /// Whether operations end in this status.
    pub fn is_end(self) -> bool
        ensures { result ≡ is_end self }
    {
        matches!(
            self,
            Status::CreateComplete
                | Status::RollbackComplete
                | Status::RollbackFailed
                | Status::UpdateComplete
                | Status::UpdateRollbackComplete
                | Status::UpdateRollbackFailed
                | Status::DeleteComplete
                | Status::DeleteFailed
        )
    }
}
