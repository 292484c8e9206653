//! The fences of lanes.
ghost use Rattle.std.specs.Prelude.{◌≡◌, ◌<◌, length, map, IfSome, None, Some, slice_get};
ghost use Rattle.cf_lane.specs.Lanes.{IsFenced, LaneNow, lane_with};
ghost use Rattle.cf_book.specs.Fences.{RaisesAll, RaisesAt, handed_in};

use cf_handler::{FenceAnswer, Handler};

/// A lane whose fence was not raised: its place, and what it answered.
#[derive(Drop)]
pub struct Unraised {
    pub at: usize,
    pub answer: FenceAnswer,
}

/// Raises the fence of the lane at a place.
fn raise_at<H: Handler>(lanes: &mut Vec<H>, at: usize, epoch: u64) -> FenceAnswer
    requires { at < length lanes.old.items }
    ensures { RaisesAt (handed_in H.Handler lanes.old.items) (handed_in H.Handler lanes.new.items) at epoch result }
{
    lanes[at].fence(epoch)
}

/// Raises the fences of the lanes, one after another, until one answers otherwise.
pub(crate) fn raise_all<H: Handler>(lanes: &mut Vec<H>, epoch: u64) -> Option<Unraised>
    ensures { RaisesAll (handed_in H.Handler lanes.old.items) (handed_in H.Handler lanes.new.items) epoch result }
{
    for at in 0..lanes.len() {
        match raise_at(lanes, at, epoch) {
            FenceAnswer::Raised => {}
            answer => return Some(Unraised { at, answer }),
        }
    }
    None
}
