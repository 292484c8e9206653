//! The paths that a deletion of a stack is to retain.
ghost use Rattle.std.specs.Prelude.{◌≡◌, ◌++◌, ◌==◌, List, [], IfOk, flat_map, if◌then◌else◌};
ghost use Rattle.cf_entry.specs.Entry.{paths_of};
ghost use Rattle.cf_effect.specs.Operation.{is_of, named_in, named_paths};
ghost use Rattle.cf_next.specs.Repeats.{own_named_in, retained_in};
ghost use Rattle.cf_next.specs.Unmaking.{stage_in};

use crate::lookups::{Lents, lend_all};
use crate::unmaking::Unmaking;
use cf_entry::{Begun, Entry};
use cf_stacks::{HeardEntry, StackState};
use std::alloc::{AllocError, Global};

/// Adds the paths that a deletion, or a continued rollback, names. After an error nothing is said of the list.
fn add_begun<'a>(paths: &mut Lents<'a>, begun: &'a Begun) -> Result<(), AllocError>
    ensures { IfOk result (λ _. paths.new ≡ paths.old ++ paths_of begun.now) }
{
    match begun {
        Begun::Delete { paths: named } => lend_all(paths, named.as_slice()),
        Begun::Continue { paths: named } => lend_all(paths, named.as_slice()),
        Begun::Create { source: _ } | Begun::Update { source: _ } => Ok(()),
    }
}

/// Adds the paths that an entry of an operation names. After an error nothing is said of the list.
fn add_named<'a>(paths: &mut Lents<'a>, operation: u64, entry: &'a Entry) -> Result<(), AllocError>
    ensures { IfOk result (λ _. paths.new ≡ paths.old ++ own_named_in operation entry.now) }
{
    match entry {
        Entry::Begin {
            number,
            stack: _,
            kind,
        } => {
            if operation == *number {
                add_begun(paths, kind)
            } else {
                Ok(())
            }
        }
        _ => Ok(()),
    }
}

/// Adds the paths that an entry as the stack keeps it names. After an error nothing is said of the list.
#[tactic(auto, using(crate::proofs::Retaining::names_nothing))]
fn add_heard<'a>(
    paths: &mut Lents<'a>,
    operation: u64,
    heard: &'a HeardEntry,
) -> Result<(), AllocError>
    ensures { IfOk result (λ _. paths.new ≡ paths.old ++ own_named_in operation heard.now) }
{
    match heard.as_entry() {
        Some(entry) => add_named(paths, operation, entry),
        None => Ok(()),
    }
}

/// The paths that these entries of an operation name.
fn named_among<'a>(
    alloc: Global,
    operation: u64,
    entries: &'a [HeardEntry],
) -> Result<Lents<'a>, AllocError>
    ensures { IfOk result (λ paths. paths ≡ flat_map (own_named_in operation) entries.now) }
{
    let mut paths = Lents::new(alloc);
    for heard in entries {
        add_heard(&mut paths, operation, heard)?;
    }
    Ok(paths)
}

/// The paths that the operation of a stack names.
fn named_paths<'a>(alloc: Global, stack: &'a StackState) -> Result<Lents<'a>, AllocError>
    ensures { IfOk result (λ paths. paths ≡ named_paths stack.now.stack) }
{
    named_among(alloc, stack.operation(), stack.entries().as_slice())
}

/// The paths that a stage is to retain.
pub(crate) fn retained_in<'a>(
    alloc: Global,
    stage: Unmaking,
    stack: &'a StackState,
) -> Result<Lents<'a>, AllocError>
    ensures { IfOk result (λ paths. paths ≡ retained_in (stage_in stage) stack.now.stack) }
{
    match stage {
        Unmaking::Gone => named_paths(alloc, stack),
        Unmaking::Clean | Unmaking::Back | Unmaking::BackClean => Ok(Lents::new(alloc)),
    }
}
