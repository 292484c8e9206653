//! The parameters of a template.
ghost use Rattle.std.specs.Prelude.{◌≡◌, IfOk, IsTrue, map};
ghost use Rattle.cf_tree.specs.Keys.{ascends};
ghost use Rattle.cf_desired.specs.Given.{bind_fault, setting_given};
ghost use Rattle.cf_desired.specs.Kept.{is_no_memory, offer_in, piece_of};
ghost use Rattle.cf_desired.specs.Listed.{settings_by};

use crate::offers::Offer;
use cf_param::{BindFault, Given, Piece, bind, bound_to};
use cf_tree::{Bound, ByName, Pairs, Param, Params, Setting, Template};
use std::alloc::{AllocError, Global};

/// The given texts, as binding takes them.
#[tactic(auto, using(crate::proofs::Pieces::pieces_ascend))]
pub(crate) fn pieces_of(alloc: Global, given: &Pairs) -> Result<Given, AllocError>
    ensures { IfOk result (λ pieces. pieces ≡ map piece_of given.now) }
{
    let mut pieces = Vec::new(alloc);
    for pair in given.as_slice() {
        let text = pair.1.try_clone(alloc)?;
        pieces.push((pair.0.try_clone(alloc)?, Piece::Text(text)))?;
    }
    Ok(Given::from_names(ByName::from_vec(pieces)))
}

/// What each parameter is bound to; one at fault counts as not known yet. Of parameters of one name the first counts.
pub(crate) fn settings(alloc: Global, params: &Params, given: &Offer) -> Result<Bound, AllocError>
    ensures { IfOk result (λ b. b ≡ settings_by params.now (offer_in given.now)) }
{
    let mut bound = Bound::new(alloc);
    for param in params.as_slice() {
        if bound.get(param.name.as_str()).is_none() {
            let setting = setting(alloc, param, given)?;
            bound.insert(param.name.try_clone(alloc)?, setting)?;
        }
    }
    Ok(bound)
}

/// What a parameter is bound to; one at fault counts as not known yet.
fn setting(alloc: Global, param: &Param, given: &Offer) -> Result<Setting, AllocError>
    ensures { IfOk result (λ s. s ≡ setting_given (offer_in given.now) param.now) }
{
    let Offer::Pieces { pieces } = given else {
        return Ok(Setting::Later);
    };
    match bound_to(alloc, param, pieces.get(param.name.as_str())) {
        Ok(setting) => Ok(setting),
        Err(BindFault::NoMemory) => Err(AllocError),
        Err(_) => Ok(Setting::Later),
    }
}

/// Why the parameters of a template can't be bound, where they can't.
#[tactic(auto, using(crate::proofs::Pieces::binds_fault))]
pub(crate) fn bind_fault_of(
    alloc: Global,
    template: &Template,
    given: &Offer,
) -> Result<Option<BindFault>, AllocError>
    ensures { IfOk result (λ f. f ≡ bind_fault template.now.params (offer_in given.now)) }
{
    let Offer::Pieces { pieces } = given else {
        return Ok(None);
    };
    match bind(alloc, template, pieces) {
        Ok(_) => Ok(None),
        Err(fault) => {
            if is_no_memory(&fault) {
                return Err(AllocError);
            }
            Ok(Some(fault))
        }
    }
}

fn is_no_memory(fault: &BindFault) -> bool
    ensures { result ≡ is_no_memory fault.now }
{
    matches!(fault, BindFault::NoMemory)
}
