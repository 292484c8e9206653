//! The steps of an operation, and their order.
ghost use Rattle.std.specs.Prelude.{◌≡◌, ◌==◌, ◌&&◌, ◌||◌, nat_lt};
ghost use Rattle.cf_next.specs.Chosen.{physical_id_of, step_place, precedes};
ghost use Rattle.cf_next.specs.Due.{is_step_before};
ghost use Rattle.cf_next.specs.Joining.{is_same_step, is_same_call, is_same_request, is_same_why};

use cf_entry::{Cause, Phase, Status, Why};
use cf_tree::{Names, Request, Txt};

/// What comes next in an operation.
#[derive(Drop)]
pub enum Next {
    /// A call goes out on a lane: a new one, whose intent is to be written down, or that of an open
    /// token once more.
    Step {
        path: Txt,
        lane: Txt,
        token: u64,
        request: Request,
        repeated: bool,
    },
    /// A resource goes off its stack's list; the physical id is empty where it is not known.
    Keep {
        path: Txt,
        physical: Txt,
        why: Why,
    },
    /// The operation enters a phase; it has a cause exactly where it turns back.
    Turn {
        phase: Phase,
        cause: Option<Cause>,
    },
    /// The operation ends in a status; the paths are those that failed.
    End {
        status: Status,
        failed: Names,
    },
    /// Nothing may start before a call that is out comes back.
    Wait,
}

/// Repeats come first, then new calls and what is kept, then a phase or the end.
fn rank_of(step: &Next) -> u8
    ensures { result ≡ (step_place step.now).rank }
{
    match step {
        Next::Step { repeated: true, .. } => 0,
        Next::Step {
            repeated: false,
            ..
        } => 1,
        Next::Keep { .. } => 1,
        Next::Turn { .. } => 2,
        Next::End { .. } => 2,
        Next::Wait => 3,
    }
}

/// The token by which a step has its place.
fn token_of(step: &Next) -> u64
    ensures { result ≡ (step_place step.now).token }
{
    match step {
        Next::Step {
            token,
            repeated: true,
            ..
        } => *token,
        Next::Step {
            repeated: false,
            ..
        } => 0,
        Next::Keep { .. } => 0,
        Next::Turn { .. } => 0,
        Next::End { .. } => 0,
        Next::Wait => 0,
    }
}

/// The physical id that a request names; a create names none.
fn physical_id_of(request: &Request) -> &str
    ensures { result.now ≡ physical_id_of request.now }
{
    match request {
        Request::Create { kind: _, props: _ } => "",
        Request::Update { physical, props: _ } => physical.as_str(),
        Request::Delete { physical } => physical.as_str(),
    }
}

/// The path by which a step has its place.
fn path_of(step: &Next) -> &str
    ensures { result.now ≡ (step_place step.now).path }
{
    match step {
        Next::Step { repeated: true, .. } => "",
        Next::Step {
            path,
            repeated: false,
            ..
        } => path.as_str(),
        Next::Keep { path, .. } => path.as_str(),
        Next::Turn { .. } => "",
        Next::End { .. } => "",
        Next::Wait => "",
    }
}

/// The physical id by which a step has its place.
fn physical_of(step: &Next) -> &str
    ensures { result.now ≡ (step_place step.now).physical }
{
    match step {
        Next::Step { repeated: true, .. } => "",
        Next::Step {
            request,
            repeated: false,
            ..
        } => physical_id_of(request),
        Next::Keep { physical, .. } => physical.as_str(),
        Next::Turn { .. } => "",
        Next::End { .. } => "",
        Next::Wait => "",
    }
}

/// Whether one step precedes another by path, and then by physical id.
fn precedes(a: &Next, b: &Next) -> bool
    ensures { result ≡ precedes ((step_place a.now).path, (step_place a.now).physical) ((step_place b.now).path, (step_place b.now).physical) }
{
    path_of(a) < path_of(b) || (path_of(a) == path_of(b) && physical_of(a) < physical_of(b))
}

/// Whether one of two steps of the same rank precedes the other.
fn is_before_in_rank(a: &Next, b: &Next) -> bool
    ensures { result ≡ (nat_lt (step_place a.now).token (step_place b.now).token
        || ((step_place a.now).token == (step_place b.now).token
        && precedes ((step_place a.now).path, (step_place a.now).physical) ((step_place b.now).path, (step_place b.now).physical))) }
{
    token_of(a) < token_of(b) || (token_of(a) == token_of(b) && precedes(a, b))
}

/// Whether one step precedes another in the order of steps.
pub(crate) fn is_step_before(a: &Next, b: &Next) -> bool
    ensures { result ≡ is_step_before a.now b.now }
{
    rank_of(a) < rank_of(b) || (rank_of(a) == rank_of(b) && is_before_in_rank(a, b))
}

/// Whether two requests are the same.
fn is_same_request(a: &Request, b: &Request) -> bool
    ensures { result ≡ is_same_request a.now b.now }
{
    match (a, b) {
        (
            Request::Create { kind, props },
            Request::Create {
                kind: other_kind,
                props: other_props,
            },
        ) => *kind == *other_kind && *props == *other_props,
        (
            Request::Update { physical, props },
            Request::Update {
                physical: other,
                props: other_props,
            },
        ) => *physical == *other && *props == *other_props,
        (Request::Delete { physical }, Request::Delete { physical: other }) => *physical == *other,
        _ => false,
    }
}

/// Whether two reasons to keep a resource are the same.
fn is_same_why(a: Why, b: Why) -> bool
    ensures { result ≡ is_same_why a b }
{
    matches!(
        (a, b),
        (Why::Retained, Why::Retained) | (Why::Failed, Why::Failed) | (Why::Doubt, Why::Doubt)
    )
}

/// Whether two steps are the same call, or keep the same resource.
pub(crate) fn is_same_step(a: &Next, b: &Next) -> bool
    ensures { result ≡ is_same_step a.now b.now }
{
    match (a, b) {
        (
            Next::Step {
                path,
                lane,
                token,
                request,
                repeated,
            },
            Next::Step {
                path: other_path,
                lane: other_lane,
                token: other_token,
                request: other_request,
                repeated: other_repeated,
            },
        ) => {
            *repeated == *other_repeated
                && *path == *other_path
                && *lane == *other_lane
                && *token == *other_token
                && is_same_request(request, other_request)
        }
        (
            Next::Keep {
                path,
                physical,
                why,
            },
            Next::Keep {
                path: other_path,
                physical: other_physical,
                why: other_why,
            },
        ) => {
            *path == *other_path && *physical == *other_physical && is_same_why(*why, *other_why)
        }
        _ => false,
    }
}
