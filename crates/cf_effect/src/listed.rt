//! The exports, pins and claims of one stack among those of all stacks.
ghost use Rattle.std.specs.Prelude.{◌≡◌, ◌≤◌, ◌∷◌, [], IfOk, filter, fold, map, length, not, insert, option_copied};
ghost use Rattle.cf_effect.specs.State.{lists_same, names_listed};
ghost use Rattle.std.specs.Option.{unwrap_or};
ghost use Rattle.std.specs.List.{list_any};
ghost use Rattle.cf_tree.specs.Lists.{insert_by};
ghost use Rattle.cf_effect.specs.Listed.{export_by, exports_after, import_names, is_before, is_export_before, is_same_pin, not_export_of, not_pin_of, pin_also, pin_of, pinned_also, pins_after, reexported, repinned};

use cf_export::{Export, Exports, Pin, Pins};
use cf_tree::{Listing, Names, Pairs, Source, TryClone, Txt};
use std::alloc::{AllocError, Global};

/// Whether a pin comes before another: by its stack and then by its name.
fn is_before(a: &Pin, b: &Pin) -> bool
    ensures { result ≡ is_before a.now b.now }
{
    a.stack < b.stack || (a.stack == b.stack && a.name < b.name)
}

/// Where a pin joins others: after those that come before it.
#[tactic(auto, using(cf_tree::proofs::Joins::behind_next, cf_tree::proofs::Joins::behind_here, cf_tree::proofs::Joins::behind_all))]
fn place_of_pin(pins: &[Pin], pin: &Pin) -> usize
    ensures within { result ≤ length pins.now }
    ensures place { insert_by is_before pins.now pin.now ≡ insert pins.now result pin.now }
{
    for (at, other) in pins.iter().enumerate() {
        if !is_before(other, pin) {
            return at;
        }
    }
    pins.len()
}

/// Puts a pin in its place. After an error the pins are as they were.
fn insert_pin(pins: &mut Pins, pin: Pin) -> Result<(), AllocError>
    ensures { IfOk result (λ _. pins.new ≡ insert_by is_before pins.old pin) }
{
    let at = place_of_pin(pins.as_slice(), &pin);
    pins.insert(at, pin)
}

/// A stack's pin of a name.
fn pin_of(alloc: Global, stack: &Txt, name: &Txt) -> Result<Pin, AllocError>
    ensures { IfOk result (λ pin. pin ≡ pin_of stack.now name.now) }
{
    let stack = stack.try_clone(alloc)?;
    let name = name.try_clone(alloc)?;
    Ok(Pin { stack, name })
}

/// Takes the pins of a stack off.
fn unpin(pins: &mut Pins, stack: &Txt)
    ensures { pins.new ≡ filter (not_pin_of stack.now) pins.old }
{
    pins.retain(|pin| !(*stack == pin.stack));
}

/// Pins these names for a stack, in place of those that it pinned before. After an error nothing is
/// said of the pins.
fn repin(alloc: Global, pins: &mut Pins, stack: &Txt, names: &Names) -> Result<(), AllocError>
    ensures { IfOk result (λ _. pins.new ≡ repinned stack.now names.now pins.old) }
{
    unpin(pins, stack);
    for name in names.as_slice() {
        let pin = pin_of(alloc, stack, name)?;
        insert_pin(pins, pin)?;
    }
    Ok(())
}

/// Whether a list has a pin.
fn has_pin(pins: &Pins, pin: &Pin) -> bool
    ensures { result ≡ list_any (is_same_pin pin.now) pins.now }
{
    pins.as_slice()
        .iter()
        .any(|other| pin.stack == other.stack && pin.name == other.name)
}

/// Pins a name, where it is not pinned already. After an error nothing is said of the pins.
fn pin_also(pins: &mut Pins, pin: Pin) -> Result<(), AllocError>
    ensures { IfOk result (λ _. pins.new ≡ pin_also pins.old pin) }
{
    if has_pin(pins, &pin) {
        return Ok(());
    }
    insert_pin(pins, pin)
}

/// Pins these names for a stack, beside those that it pins already. After an error nothing is said
/// of the pins.
fn pin_names(alloc: Global, pins: &mut Pins, stack: &Txt, names: &Names) -> Result<(), AllocError>
    ensures { IfOk result (λ _. pins.new ≡ pinned_also stack.now names.now pins.old) }
{
    for name in names.as_slice() {
        let pin = pin_of(alloc, stack, name)?;
        pin_also(pins, pin)?;
    }
    Ok(())
}

/// Whether an export comes before another: by its name.
fn is_export_before(a: &Export, b: &Export) -> bool
    ensures { result ≡ is_export_before a.now b.now }
{
    a.name < b.name
}

/// Where an export joins others: after those that come before it.
#[tactic(auto, using(cf_tree::proofs::Joins::behind_next, cf_tree::proofs::Joins::behind_here, cf_tree::proofs::Joins::behind_all))]
fn place_of_export(exports: &[Export], export: &Export) -> usize
    ensures within { result ≤ length exports.now }
    ensures place { insert_by is_export_before exports.now export.now ≡ insert exports.now result export.now }
{
    for (at, other) in exports.iter().enumerate() {
        if !is_export_before(other, export) {
            return at;
        }
    }
    exports.len()
}

/// Puts an export in its place. After an error the exports are as they were.
fn insert_export(exports: &mut Exports, export: Export) -> Result<(), AllocError>
    ensures { IfOk result (λ _. exports.new ≡ insert_by is_export_before exports.old export) }
{
    let at = place_of_export(exports.as_slice(), &export);
    exports.insert(at, export)
}

/// Takes the exports of a stack off.
fn unexport(exports: &mut Exports, stack: &Txt)
    ensures { exports.new ≡ filter (not_export_of stack.now) exports.old }
{
    exports.retain(|export| !(*stack == export.stack));
}

/// A stack's export of a value under a name.
fn export_by(alloc: Global, stack: &Txt, name: &Txt, value: &Txt) -> Result<Export, AllocError>
    ensures { IfOk result (λ e. e ≡ export_by stack.now (name.now, value.now)) }
{
    let stack = stack.try_clone(alloc)?;
    let name = name.try_clone(alloc)?;
    match value.try_clone(alloc) {
        Ok(value) => Ok(Export { name, value, stack }),
        Err(failed) => Err(failed),
    }
}

/// Exports these names with their values for a stack, in place of what it exported before. After an
/// error nothing is said of the exports.
fn reexport(
    alloc: Global,
    exports: &mut Exports,
    stack: &Txt,
    values: &Listing<(Txt, Txt)>,
) -> Result<(), AllocError>
    ensures { IfOk result (λ _. exports.new ≡ reexported stack.now values.now exports.old) }
{
    unexport(exports, stack);
    for (name, value) in values.as_slice() {
        let export = export_by(alloc, stack, name, value)?;
        insert_export(exports, export)?;
    }
    Ok(())
}

/// What becomes of the names that a stack lists.
#[derive(Drop)]
pub enum Listed {
    /// They stay.
    Same,
    /// These join them.
    Also(Names),
    /// These alone are left.
    Only(Names),
}

/// What an entry leaves of what its stack lists among all stacks.
#[derive(Drop)]
pub struct Lists {
    /// All that the stack exports from now on, where that changes.
    pub exports: Option<Listing<(Txt, Txt)>>,
    pub pins: Listed,
    pub claims: Listed,
}

impl Lists {
    /// What the stack lists stays; it takes no memory.
    pub(crate) fn same() -> Lists
        ensures { result ≡ lists_same }
    {
        Lists {
            exports: None,
            pins: Listed::Same,
            claims: Listed::Same,
        }
    }
}

/// A copy of the pins, or claims, of all stacks with those of one stack changed; nothing where they
/// stay.
///
/// # Errors
///
/// Only for want of memory.
pub fn listed_pins(
    alloc: Global,
    pins: &Pins,
    stack: &Txt,
    listed: &Listed,
) -> Result<Option<Pins>, AllocError>
    ensures { IfOk result (λ changed. unwrap_or changed pins.now ≡ pins_after stack.now (names_listed listed.now) pins.now) }
{
    match listed {
        Listed::Same => Ok(None),
        Listed::Also(names) => {
            let mut changed = pins.try_clone(alloc)?;
            pin_names(alloc, &mut changed, stack, names)?;
            Ok(Some(changed))
        }
        Listed::Only(names) => {
            let mut changed = pins.try_clone(alloc)?;
            repin(alloc, &mut changed, stack, names)?;
            Ok(Some(changed))
        }
    }
}

/// A copy of the exports of all stacks with those of one stack changed; nothing where they stay.
///
/// # Errors
///
/// Only for want of memory.
pub fn listed_exports(
    alloc: Global,
    exports: &Exports,
    stack: &Txt,
    values: Option<&Listing<(Txt, Txt)>>,
) -> Result<Option<Exports>, AllocError>
    ensures { IfOk result (λ changed. unwrap_or changed exports.now ≡ exports_after stack.now (option_copied values.entry) exports.now) }
{
    match values {
        Some(values) => {
            let mut changed = exports.try_clone(alloc)?;
            reexport(alloc, &mut changed, stack, values)?;
            Ok(Some(changed))
        }
        None => Ok(None),
    }
}

/// The names that a source imports.
pub(crate) fn import_names(alloc: Global, source: Option<&Source>) -> Result<Names, AllocError>
    ensures { IfOk result (λ names. names ≡ import_names (option_copied source.entry)) }
{
    match source {
        Some(source) => names_in(alloc, &source.imports),
        None => Ok(Names::new(alloc)),
    }
}

/// The names of pairs.
fn names_in(alloc: Global, pairs: &Pairs) -> Result<Names, AllocError>
    ensures { IfOk result (λ names. names ≡ map (λ p. p.0) pairs.now) }
{
    let mut names = Names::new(alloc);
    for (name, _) in pairs.as_slice() {
        names.push(name.try_clone(alloc)?)?;
    }
    Ok(names)
}
