//! Which answers a lane may give.
ghost use Rattle.std.specs.Prelude.{◌≡◌, IsTrue, IfOk, IfSome};
ghost use Rattle.cf_handler.specs.Look.{ShowsShort};
ghost use Rattle.cf_handler.specs.Move.{AreShort, IsOfLane};
ghost use Rattle.cf_answers.specs.Fits.{FitsLane, SucceedsInLane};

use crate::table::id_of;
use cf_handler::Settlement;
use cf_tree::{Answer, Dict, Look, Request, Txt};
use std::alloc::{AllocError, Global};

/// The most bytes that attributes may encode to.
const MOST_BYTES: u64 = 524_288;

/// The most bytes of an id.
const MOST_ID: usize = 1024;

/// Whether an id is one that a token of the lane made: the lane's name, a colon and more.
pub fn is_of_lane(name: &str, id: &Txt) -> bool {
    match id.as_str().as_bytes().strip_prefix(name.as_bytes()) {
        Some([first, ..]) => *first == b':',
        _ => false,
    }
}

/// Whether the id is the one that the token makes.
#[tactic(auto, using(crate::proofs::Fitting::made_of_lane))]
fn is_made(alloc: Global, name: &str, token: u64, id: &Txt) -> Result<bool, AllocError>
    ensures { IfOk result (λ is. IsTrue is → IsOfLane name.now id.now) }
{
    let made = id_of(alloc, name, token)?;
    Ok(*id == made)
}

fn are_short(attrs: &Dict) -> bool
    ensures { IsTrue result → AreShort attrs.now }
{
    attrs.size() <= MOST_BYTES
}

// Whether the lane may answer that this token succeeded with this id and these attributes.
fn may_succeed(
    alloc: Global,
    name: &str,
    token: u64,
    request: &Request,
    physical: &Txt,
    attrs: &Dict,
) -> Result<bool, AllocError>
    ensures { IfOk result (λ may. IsTrue may → SucceedsInLane name.now request.now physical.now attrs.now) }
{
    if physical.as_str().len() > MOST_ID || !are_short(attrs) {
        return Ok(false);
    }
    match request {
        Request::Create { kind: _, props: _ } => is_made(alloc, name, token, physical),
        Request::Update {
            physical: _,
            props: _,
        } => Ok(true),
        Request::Delete { physical: _ } => Ok(true),
    }
}

/// The answer of a token that is settled so, where the lane may answer it: an id and attributes are within their limits, and
/// what was made has the id of the token. None where a table of the lane tells it and it can't be.
///
/// # Errors
/// Want of memory.
pub fn lane_answer(
    alloc: Global,
    name: &str,
    token: u64,
    request: &Request,
    settlement: &Settlement,
) -> Result<Option<Answer>, AllocError>
    ensures { IfOk result (λ o. IfSome o (λ a. FitsLane name.now request.now a)) }
{
    match settlement {
        Settlement::Success { physical, attrs } => {
            if !may_succeed(alloc, name, token, request, physical, attrs)? {
                return Ok(None);
            }
            let physical = physical.try_clone(alloc)?;
            let attrs = attrs.try_clone(alloc)?;
            Ok(Some(Answer::Success { physical, attrs }))
        }
        Settlement::Failed { code } => Ok(Some(Answer::Failed { code: *code })),
    }
}

/// Whether the attributes that a look shows are within their limit.
pub fn shows_short(look: &Look) -> bool
    ensures { IsTrue result → ShowsShort look.now }
{
    match look {
        Look::Found { props: _, attrs } => are_short(attrs),
        Look::Failed { code: _ } => true,
        Look::Fault => true,
        Look::Stale { fence: _ } => true,
        Look::NoMemory => true,
    }
}
