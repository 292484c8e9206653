//! Whether outputs and exports stay as they are.
ghost use Rattle.std.specs.Prelude.{◌≡◌};
ghost use Rattle.std.specs.List.{list_all};
ghost use Rattle.cf_change.specs.Changes.{are_same_exports, are_same_outputs, is_kept_export, is_old_export, is_same_export, is_same_output, is_same_text};

use cf_desired::{Exporting, WantedOutput};
use cf_export::Output;
use cf_tree::{Pairs, Txt};

/// Whether the outputs that are wanted are those that are held.
pub(crate) fn are_same_outputs(held: &[Output], wanted: &[WantedOutput]) -> bool
    ensures { result ≡ are_same_outputs held.now wanted.now }
{
    if held.len() != wanted.len() {
        return false;
    }
    for at in 0..held.len() {
        if !is_same_output(&held[at], &wanted[at]) {
            return false;
        }
    }
    true
}

fn is_same_output(held: &Output, wanted: &WantedOutput) -> bool
    ensures { result ≡ is_same_output held.now wanted.now }
{
    held.name.is(wanted.name.as_str())
        && is_same_text(&held.value, &wanted.value)
        && is_same_export(&held.export, &wanted.export)
}

/// Whether a text is known and stays.
fn is_same_text(text: &Txt, new: &Option<Txt>) -> bool
    ensures { result ≡ is_same_text text.now new.now }
{
    match new {
        Some(new) => text.is(new.as_str()),
        None => false,
    }
}

fn is_same_export(held: &Option<Txt>, new: &Exporting) -> bool
    ensures { result ≡ is_same_export held.now new.now }
{
    match (held, new) {
        (None, Exporting::Nothing) => true,
        (Some(old), Exporting::Named { name }) => old.is(name.as_str()),
        _ => false,
    }
}

/// Whether the exports that are wanted are those that are held.
pub(crate) fn are_same_exports(held: &Pairs, wanted: &[(Txt, Option<Txt>)]) -> bool
    ensures { result ≡ are_same_exports held.now wanted.now }
{
    let held = held.as_slice();
    are_all_kept(held, wanted) && are_all_old(held, wanted)
}

fn are_all_kept(held: &[(Txt, Txt)], wanted: &[(Txt, Option<Txt>)]) -> bool
    ensures { result ≡ list_all (is_kept_export wanted.now) held.now }
{
    held.iter().all(|export| is_kept_export(wanted, export))
}

fn are_all_old(held: &[(Txt, Txt)], wanted: &[(Txt, Option<Txt>)]) -> bool
    ensures { result ≡ list_all (is_old_export held.now) wanted.now }
{
    wanted.iter().all(|export| is_old_export(held, export))
}

fn is_kept_export(wanted: &[(Txt, Option<Txt>)], export: &(Txt, Txt)) -> bool
    ensures { result ≡ is_kept_export wanted.now export.now }
{
    wanted.iter().any(|new| export.0.is(new.0.as_str()) && is_same_text(&export.1, &new.1))
}

fn is_old_export(held: &[(Txt, Txt)], export: &(Txt, Option<Txt>)) -> bool
    ensures { result ≡ is_old_export held.now export.now }
{
    held.iter().any(|old| old.0.is(export.0.as_str()) && is_same_text(&old.1, &export.1))
}
