//! The names that a plan exports.
ghost use Rattle.std.specs.Prelude.{◌≡◌, IfOk, map};

use crate::wanted::Plan;
use cf_tree::Names;
use std::alloc::{AllocError, Global};

/// The names that a plan exports, in their order.
///
/// # Errors
///
/// Only for want of memory.
pub fn export_names(alloc: Global, plan: &Plan) -> Result<Names, AllocError>
    ensures { IfOk result (λ names. names ≡ map (λ e. e.0) plan.now.exports) }
{
    let mut names = Names::new(alloc);
    for export in plan.exports.as_slice() {
        names.push(export.0.try_clone(alloc)?)?;
    }
    Ok(names)
}
