//! The rows of a change set, found resource by resource along the shape of its source.
ghost use Rattle.std.specs.Prelude.{◌≡◌, ◌++◌, IfOk, List, fold, map};
ghost use Rattle.cf_tree.specs.Keys.{put};
ghost use Rattle.cf_desired.specs.Templates.{templates_of};
ghost use Rattle.cf_change.specs.Changes.{found_by, found_next, found_of, found_with, held_seen, is_other_kind, row_list, seen_after};
ghost use Rattle.std.specs.Option.{option_copied, option_map_or};
ghost use Rattle.cf_desired.specs.Kept.{IsShape};
ghost use Rattle.cf_desired.specs.Plan.{props_at};
ghost use Rattle.cf_desired.specs.Turns.{pathed};
ghost use Rattle.cf_desired.specs.Work.{Body, Member};

use crate::held::HeldAt;
use crate::rows::{row_for, seen_after};
use cf_desired::{Evaluated, Seen, Shape, Templates, Terms, Wanted, all_terms, props_at, shape_of};
use cf_schema::Schemas;
use cf_tree::{Listing, Names, Row, Rows, Source, Txt};
use std::alloc::{AllocError, Global};

/// The rows so far, what is seen, and the paths that are held with another type.
#[derive(Drop)]
pub struct Found {
    pub rows: Rows,
    pub seen: Seen,
    pub clash: Names,
}

/// What is seen of what is held: of two resources at one path the first one.
fn held_seen(alloc: Global, held: &[HeldAt]) -> Result<Seen, AllocError>
    ensures { IfOk result (λ s. s ≡ held_seen held.now) }
{
    let mut seen = Seen::new(alloc);
    let mut at = held.len();
    while at > 0 {
        at -= 1;
        let one = &held[at];
        show(alloc, &mut seen, &one.path, Some(one), None)?;
    }
    Ok(seen)
}

/// What a source changes of what is held, along the shape that it has over that.
///
/// # Errors
///
/// Only for want of memory.
pub fn found_of(
    alloc: Global,
    schemas: &Schemas,
    held: &Listing<HeldAt>,
    source: &Source,
    templates: &Templates,
) -> Result<Found, AllocError>
    requires templates { templates.now ≡ templates_of source.now }
    ensures { IfOk result (λ f. f ≡ found_of schemas.now held.now source.now) }
{
    let seen = held_seen(alloc, held.as_slice())?;
    let shape = shape_of(alloc, source, templates, &seen)?;
    found_by(alloc, schemas, held, source, &shape)
}

/// The rows of what a shape wants: each path is evaluated over what is seen of the paths before it.
fn found_by(
    alloc: Global,
    schemas: &Schemas,
    held: &Listing<HeldAt>,
    source: &Source,
    shape: &Shape,
) -> Result<Found, AllocError>
    ensures { IfOk result (λ f. (b : Body) → IsShape shape.now b → f ≡ found_by schemas.now held.now source.now b) }
{
    let members = all_terms(alloc, shape)?;
    let mut found = Found {
        rows: Rows::new(alloc),
        seen: Seen::new(alloc),
        clash: Names::new(alloc),
    };
    match find_all(
        alloc,
        schemas,
        held,
        source,
        shape,
        &mut found,
        members.as_slice(),
    ) {
        Ok(()) => Ok(found),
        Err(failed) => Err(failed),
    }
}

/// Adds what is found along resources of a shape.
fn find_all(
    alloc: Global,
    schemas: &Schemas,
    held: &Listing<HeldAt>,
    source: &Source,
    shape: &Shape,
    found: &mut Found,
    members: &[(Txt, Terms)],
) -> Result<(), AllocError>
    ensures { IfOk result (λ _. (b : Body) (ms : List Member) → IsShape shape.now b → members.now ≡ map pathed ms → found.new ≡ fold (found_next schemas.now held.now source.now b) found.old ms) }
{
    for member in members {
        find_next(alloc, schemas, held, source, shape, found, member)?;
    }
    Ok(())
}

/// Adds what is found of one resource of a shape.
fn find_next(
    alloc: Global,
    schemas: &Schemas,
    held: &Listing<HeldAt>,
    source: &Source,
    shape: &Shape,
    found: &mut Found,
    member: &(Txt, Terms),
) -> Result<(), AllocError>
    ensures { IfOk result (λ _. (b : Body) → IsShape shape.now b → found.new ≡ option_map_or (λ v. found_with schemas.now held.now found.old (record { path = member.now.0; kind = member.now.1.kind; deletion = member.now.1.deletion; replace = member.now.1.replace; needs = member.now.1.needs; props = v })) (props_at source.now b found.old.seen member.now.0) found.old) }
{
    let (path, terms) = copied(alloc, member)?;
    let Some(props) = props_at(alloc, source, shape, &found.seen, &path)? else {
        return Ok(());
    };
    let wanted = wanted_of(path, terms, props);
    let done = find(alloc, schemas, held, found, &wanted);
    drop(wanted);
    done?;
    Ok(())
}

fn copied(alloc: Global, member: &(Txt, Terms)) -> Result<(Txt, Terms), AllocError>
    ensures { IfOk result (λ m. m ≡ member.now) }
{
    let (path, terms) = member;
    let path = path.try_clone(alloc)?;
    let terms = Terms {
        kind: terms.kind.try_clone(alloc)?,
        needs: terms.needs.try_clone(alloc)?,
        deletion: terms.deletion,
        replace: terms.replace,
    };
    Ok((path, terms))
}

/// What is wanted at a path.
fn wanted_of(path: Txt, terms: Terms, props: Evaluated) -> Wanted
    ensures { result ≡ record { path = path; kind = terms.kind; deletion = terms.deletion; replace = terms.replace; needs = terms.needs; props = props } }
{
    Wanted {
        path,
        kind: terms.kind,
        deletion: terms.deletion,
        replace: terms.replace,
        needs: terms.needs,
        props,
    }
}

/// Adds what is found of a path: its row, and what that leaves known of it.
fn find(
    alloc: Global,
    schemas: &Schemas,
    held: &Listing<HeldAt>,
    found: &mut Found,
    wanted: &Wanted,
) -> Result<(), AllocError>
    ensures { IfOk result (λ _. found.new ≡ found_with schemas.now held.now found.old wanted.now) }
{
    let at = held.find(wanted.path.as_str());
    if is_other_kind(at, wanted) {
        show(alloc, &mut found.seen, &wanted.path, at, None)?;
        found.clash.push(wanted.path.try_clone(alloc)?)?;
        return Ok(());
    }
    let row = row_for(alloc, schemas, at, wanted)?;
    show(alloc, &mut found.seen, &wanted.path, at, row.as_ref())?;
    add_row(&mut found.rows, row)?;
    Ok(())
}

/// Shows of a path what its row leaves known.
fn show(
    alloc: Global,
    seen: &mut Seen,
    path: &Txt,
    held: Option<&HeldAt>,
    row: Option<&Row>,
) -> Result<(), AllocError>
    ensures { IfOk result (λ _. seen.new ≡ put path.now (seen_after (option_copied held.entry) (option_copied row.entry)) seen.old) }
{
    let shown = seen_after(alloc, held, row)?;
    seen.insert(path.try_clone(alloc)?, shown)
}

/// Adds a row, where there is one.
fn add_row(rows: &mut Rows, row: Option<Row>) -> Result<(), AllocError>
    ensures { IfOk result (λ _. rows.new ≡ rows.old ++ row_list row) }
{
    match row {
        Some(row) => rows.push(row),
        None => Ok(()),
    }
}

/// Whether a path is held with another type.
fn is_other_kind(held: Option<&HeldAt>, wanted: &Wanted) -> bool
    ensures { result ≡ is_other_kind (option_copied held.entry) wanted.now }
{
    match held {
        Some(held) => !held.kind.is(wanted.kind.as_str()),
        None => false,
    }
}
