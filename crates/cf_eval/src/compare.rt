//! Comparison of values, as `Fn::Equals` has it.
ghost use Rattle.std.specs.Prelude.{◌≡◌, IfOk, option_map};
ghost use Rattle.cf_tree.specs.Datum.{items_of};
ghost use Rattle.cf_tree.specs.Value.{datum_of};
ghost use Rattle.cf_eval.specs.Conditions.{compared, compared_items, equal_if};

use crate::texts::text_of;
use cf_tree::{Val, Vals};
use std::alloc::{AllocError, Global};

/// A value with each number and each truth value in it as a text; no value with a map in it is
/// compared.
#[cycle(compared)]
pub(crate) fn compared(alloc: Global, value: &Val) -> Result<Option<Val>, AllocError>
    ensures { IfOk result (λ o. option_map datum_of o ≡ compared (datum_of value.now)) }
{
    match value {
        Val::List(items) => match compared_items(alloc, items)? {
            Some(items) => Ok(Some(Val::List(items))),
            None => Ok(None),
        },
        Val::Dict(_) => Ok(None),
        _ => match text_of(alloc, value)? {
            Some(text) => Ok(Some(Val::Text(text))),
            None => Ok(None),
        },
    }
}

#[cycle(compared)]
#[tactic(auto, using(cf_tree::proofs::Falls::item_falls, crate::proofs::Compared::compared_is))]
fn compared_items(alloc: Global, items: &Vals) -> Result<Option<Vals>, AllocError>
    ensures { IfOk result (λ o. option_map items_of o ≡ compared_items (items_of items.now)) }
{
    let mut values = Vals::new(alloc);
    for item in items.as_slice() {
        match compared(alloc, item)? {
            Some(value) => values.push(value)?,
            None => return Ok(None),
        }
    }
    Ok(Some(values))
}

/// Whether two values are equal once each number and each truth value in them is a text; `None`
/// where a map stands in one of them.
pub(crate) fn equal(alloc: Global, left: &Val, right: &Val) -> Result<Option<bool>, AllocError>
    ensures { IfOk result (λ o. o ≡ equal_if (compared (datum_of left.now)) (compared (datum_of right.now))) }
{
    let Some(left) = compared(alloc, left)? else {
        return Ok(None);
    };
    match compared(alloc, right)? {
        Some(right) => Ok(Some(left == right)),
        None => Ok(None),
    }
}
