//! The first path in byte order that is ready and at fault.
ghost use Rattle.std.specs.Prelude.{◌≡◌, option_map};
ghost use Rattle.std.specs.Option.{option_copied};
ghost use Rattle.cf_plan.specs.Failed.{bad_of, least};
ghost use Rattle.cf_plan.specs.PathStates.{flaw_seen, ready_flaw, ready_flaws};

use crate::bad::{BadAt, lesser_of};
use crate::path_state::{PathFinding, PathState, are_done_at};
use cf_desired::Flaw;

/// The flaw of a path that is at fault.
fn flaw_seen<'a>(found: &PathFinding<'a>) -> Option<&'a Flaw>
    ensures { option_copied result ≡ flaw_seen found.now }
{
    match found {
        PathFinding::Bad { flaw } => Some(*flaw),
        PathFinding::Known { kind: _, props: _ } => None,
        PathFinding::Later => None,
        PathFinding::Unread => None,
    }
}

/// A path with its flaw, where it is ready.
fn ready_flaw<'a>(done: &[bool], state: &PathState<'a>) -> Option<BadAt<'a>>
    ensures { option_map bad_of result ≡ ready_flaw done.now state.now }
{
    // Most paths have no flaw, and of these it need not be known what they need.
    match flaw_seen(&state.found) {
        Some(flaw) => {
            if are_done_at(done, state.needs) {
                Some(BadAt {
                    path: state.path,
                    flaw,
                })
            } else {
                None
            }
        }
        None => None,
    }
}

/// The first path in byte order that is ready and at fault.
pub(crate) fn first_ready_flaw<'a>(done: &[bool], states: &[PathState<'a>]) -> Option<BadAt<'a>>
    ensures { option_map bad_of result ≡ least (ready_flaws done.now states.now) }
{
    let mut first = None;
    for state in states {
        first = lesser_of(first, ready_flaw(done, state));
    }
    first
}
