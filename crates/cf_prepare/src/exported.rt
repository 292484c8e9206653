//! The exports of a stack, and those of the others, by name.
ghost use Rattle.std.specs.Prelude.{◌≡◌, IfOk, filter, map, not, if◌then◌else◌};
ghost use Rattle.std.specs.Str.{bytes_eq};
ghost use Rattle.cf_desired.specs.Seeing.{by_names};
ghost use Rattle.cf_tree.specs.Keys.{put};
ghost use Rattle.cf_plan.specs.Accept.{exports_by, exports_of_others};
ghost use Rattle.cf_prepare.specs.Exported.{is_exported_by};

use cf_export::Export;
use cf_stacks::World;
use cf_tree::{Pairs, Txt};
use std::alloc::{AllocError, Global};

/// Whether an export is of a stack, or else of another one.
fn is_of(export: &Export, name: &Txt, own: bool) -> bool
    ensures { result ≡ is_exported_by own name.now export.now }
{
    if own {
        *name == export.stack
    } else {
        !(*name == export.stack)
    }
}

/// Puts an export in its place, where it is one of those that are asked for. After an error nothing
/// is said of the pairs.
fn put_export(
    alloc: Global,
    pairs: &mut Pairs,
    export: &Export,
    name: &Txt,
    own: bool,
) -> Result<(), AllocError>
    ensures { IfOk result (λ _. pairs.new ≡ (if is_exported_by own name.now export.now then put export.now.name export.now.value pairs.old
        else pairs.old)) }
{
    if is_of(export, name, own) {
        pairs.insert(
            export.name.try_clone(alloc)?,
            export.value.try_clone(alloc)?,
        )
    } else {
        Ok(())
    }
}

/// The exports of a stack, or else those of the others, with their values: of two of one name the
/// first counts.
fn listed(alloc: Global, exports: &[Export], name: &Txt, own: bool) -> Result<Pairs, AllocError>
    ensures { IfOk result (λ p. p ≡ by_names (map (λ e. (e.name, e.value)) (filter (is_exported_by own name.now) exports.now))) }
{
    let mut pairs = Pairs::new(alloc);
    let mut at = exports.len();
    while at > 0 {
        at -= 1;
        put_export(alloc, &mut pairs, &exports[at], name, own)?;
    }
    Ok(pairs)
}

/// The exports of a stack.
pub(crate) fn exports_by(alloc: Global, world: &World, name: &Txt) -> Result<Pairs, AllocError>
    ensures { IfOk result (λ p. p ≡ exports_by name.now world.now.world) }
{
    listed(alloc, world.exports().as_slice(), name, true)
}

/// The exports of all other stacks.
pub(crate) fn exports_of_others(
    alloc: Global,
    world: &World,
    name: &Txt,
) -> Result<Pairs, AllocError>
    ensures { IfOk result (λ p. p ≡ exports_of_others name.now world.now.world) }
{
    listed(alloc, world.exports().as_slice(), name, false)
}
