//! The rows of a change set, and what they leave known of their resources.
ghost use Rattle.std.specs.Prelude.{◌≡◌, ◌≤◌, ◌++◌, [], IfOk, None, false, fold, insert, length};
ghost use Rattle.std.specs.List.{list_any};
ghost use Rattle.std.specs.Option.{option_copied};
ghost use Rattle.cf_tree.specs.declared.row.Row.{Row};
ghost use Rattle.cf_tree.specs.Lists.{insert_by};
ghost use Rattle.cf_change.specs.Changes.{is_property, is_row_before, keeps_id, modify_row, removed_rows, row_for, seen_after};
ghost use Rattle.cf_change.specs.Rising.{Rises};

use crate::details::{details_for, replacement_of};
use crate::held::HeldAt;
use cf_desired::{Seen, SeenAt, Wanted};
use cf_schema::Schemas;
use cf_tree::{Action, Attribute, Details, Replacement, Row, Rows, Txt};
use std::alloc::{AllocError, Global};

/// The row of a path that is wanted: it is added, or modified where something changes or the resource is unsure.
pub(crate) fn row_for(
    alloc: Global,
    schemas: &Schemas,
    held: Option<&HeldAt>,
    wanted: &Wanted,
) -> Result<Option<Row>, AllocError>
    ensures { IfOk result (λ r. r ≡ row_for schemas.now (option_copied held.entry) wanted.now) }
{
    let Some(held) = held else {
        return Ok(Some(plain_row(alloc, Action::Add, &wanted.path, &wanted.kind)?));
    };
    let details = details_for(alloc, schemas, held, wanted)?;
    modify_row(alloc, held, wanted, details)
}

/// A row without details.
fn plain_row(alloc: Global, action: Action, path: &Txt, kind: &Txt) -> Result<Row, AllocError>
    ensures { IfOk result (λ r. r ≡ record { action = action; path = path.now; kind = kind.now; replacement = None; unsure = false; details = [] }) }
{
    Ok(Row {
        action,
        path: path.try_clone(alloc)?,
        kind: kind.try_clone(alloc)?,
        replacement: None,
        unsure: false,
        details: Details::new(alloc),
    })
}

/// The row of a path that is held and wanted, where something changes or the resource is unsure.
fn modify_row(
    alloc: Global,
    held: &HeldAt,
    wanted: &Wanted,
    details: Details,
) -> Result<Option<Row>, AllocError>
    ensures { IfOk result (λ r. r ≡ modify_row held.now wanted.now details) }
{
    if details.is_empty() && !held.unsure {
        return Ok(None);
    }
    Ok(Some(Row {
        action: Action::Modify,
        path: wanted.path.try_clone(alloc)?,
        kind: wanted.kind.try_clone(alloc)?,
        replacement: Some(replacement_of(details.as_slice())),
        unsure: held.unsure,
        details,
    }))
}

/// What is seen of a resource by those that need it: the id of one that is added or may be replaced isn't known, nor are the
/// attributes of one that is added, has a property detail or is unsure.
pub(crate) fn seen_after(
    alloc: Global,
    held: Option<&HeldAt>,
    row: Option<&Row>,
) -> Result<SeenAt, AllocError>
    ensures { IfOk result (λ s. s ≡ seen_after (option_copied held.entry) (option_copied row.entry)) }
{
    let Some(held) = held else {
        return Ok(SeenAt {
            physical: None,
            attrs: None,
        });
    };
    let mut seen = SeenAt {
        physical: Some(held.physical.try_clone(alloc)?),
        attrs: Some(held.attrs.try_clone(alloc)?),
    };
    if let Some(row) = row {
        if !keeps_id(&row.replacement) {
            seen.physical = None;
        }
        if has_property(row) || held.unsure {
            seen.attrs = None;
        }
    }
    Ok(seen)
}

fn keeps_id(replacement: &Option<Replacement>) -> bool
    ensures { result ≡ keeps_id replacement.now }
{
    matches!(replacement, Some(Replacement::False))
}

/// Whether a property is among the details of a row.
fn has_property(row: &Row) -> bool
    ensures { result ≡ list_any is_property row.now.details }
{
    row.details
        .as_slice()
        .iter()
        .any(|detail| matches!(detail.attribute, Attribute::Properties))
}

/// Adds the rows of what is held and not wanted any more.
pub(crate) fn add_removed(
    alloc: Global,
    rows: &mut Rows,
    held: &[HeldAt],
    seen: &Seen,
) -> Result<(), AllocError>
    ensures { IfOk result (λ _. rows.new ≡ rows.old ++ removed_rows held.now seen.now) }
{
    for one in held {
        if seen.get(one.path.as_str()).is_none() {
            rows.push(plain_row(alloc, Action::Remove, &one.path, &one.kind)?)?;
        }
    }
    Ok(())
}

/// Rows by path.
#[tactic(auto, using(crate::proofs::Joining::rows_rise))]
pub(crate) fn by_path(alloc: Global, rows: Rows) -> Result<Rows, AllocError>
    ensures { IfOk result (λ r. r ≡ fold (insert_by is_row_before) [] rows) }
{
    let mut sorted = Rows::new(alloc);
    for row in rows.into_vec() {
        let at = place_of(sorted.as_slice(), &row.path);
        sorted.insert(at, row)?;
    }
    Ok(sorted)
}

/// How many rows come before a path, among rows by path.
#[tactic(auto, using(crate::proofs::Joining::row_joins))]
fn place_of(rows: &[Row], path: &Txt) -> usize
    requires rises { Rises is_row_before rows.now }
    ensures fits { result ≤ length rows.now }
    ensures place { (row : Row) → row.path ≡ path.now → insert rows.now result row ≡ insert_by is_row_before rows.now row }
{
    let mut low = 0;
    let mut high = rows.len();
    while low < high {
        let middle = low + (high - low) / 2;
        if rows[middle].path < *path {
            low = middle + 1;
        } else {
            high = middle;
        }
    }
    low
}
