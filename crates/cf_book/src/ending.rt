//! Operations that have ended.
ghost use Rattle.std.specs.Prelude.{◌≡◌};
ghost use Rattle.cf_book.specs.Ended.{end_status};

use cf_entry::Status;

/// An operation that has ended since the opening, and its status.
#[derive(Clone, Copy, Drop)]
pub struct Ended {
    pub number: u64,
    pub status: Status,
}

/// The status in which an operation has ended.
pub(crate) fn end_status(number: u64, ended: &[Ended]) -> Option<Status>
    ensures { result ≡ end_status number ended.now }
{
    ended
        .iter()
        .find(|end| number == end.number)
        .map(|end| end.status)
}
