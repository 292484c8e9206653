//! How an operation begins on a stack, and how a change set joins it.
ghost use Rattle.std.specs.Prelude.{◌≡◌, ◌∷◌, ◌++◌, [], IfOk, Some, None, flat_map, map, filter, if◌then◌else◌};
ghost use Rattle.cf_effect.specs.Begin.{beginning, begun_effect, calls_kept, claims_begun, continues, creating_number, creates_at, exports_begun, given_up, lost_create, names_claimed, pins_begun, seen_in, set_off, skipped_creates, skipping, source_for, with_set, working_by};
ghost use Rattle.cf_effect.specs.State.{before_in, effect_from, names_listed, source_in, state_of};

use crate::copies::copy_list;
use crate::held::{Abandoned, Held, KeptSet, Leftovers, Pending};
use crate::ledger::{count_anew, keep_open};
use crate::listed::{Listed, Lists, import_names};
use crate::outset::{Outset, before_in};
use crate::resources::skip;
use crate::state::State;
use crate::statuses::{begun, is_deleted, reviewed};
use crate::tokens::{abandon, give_up_at, leave_over};
use cf_entry::Begun;
use cf_export::Outputs;
use cf_tree::{Listing, Names, Rows, Source, TryClone, Txt};
use std::alloc::{AllocError, Global};

/// A copy of a source under the name of its stack and the number of the operation that made it.
///
/// # Errors
///
/// Only for want of memory.
pub fn source_for(
    alloc: Global,
    name: &Txt,
    number: u64,
    source: &Source,
) -> Result<Source, AllocError>
    ensures { IfOk result (λ s. s ≡ source_for name.now number source.now) }
{
    let stack = name.try_clone(alloc)?;
    match source.try_clone(alloc) {
        Ok(mut copy) => {
            copy.stack = stack;
            copy.number = number;
            Ok(copy)
        }
        Err(failed) => Err(failed),
    }
}

/// The change set of an entry.
pub(crate) fn kept_set(
    alloc: Global,
    number: u64,
    name: &Txt,
    source: &Source,
    rows: &Rows,
    outputs: bool,
) -> Result<KeptSet, AllocError>
    ensures { IfOk result (λ s. s ≡ record {
      number = number;
      source = source_for name.now 0 source.now;
      rows = rows.now;
      outputs = outputs;
    }) }
{
    let rows = rows.try_clone(alloc)?;
    match source_for(alloc, name, 0, source) {
        Ok(source) => Ok(KeptSet {
            number,
            source,
            rows,
            outputs,
        }),
        Err(failed) => Err(failed),
    }
}

/// The number of the operation that created a stack on which an operation begins.
fn creating_number(kind: &Begun, number: u64, state: &State) -> u64
    ensures { result ≡ creating_number kind.now number (state_of state.now) }
{
    match kind {
        Begun::Create { .. } => number,
        _ => state.number,
    }
}

/// Whether an operation goes on with a rollback that failed.
fn continues(kind: &Begun) -> bool
    ensures { result ≡ continues kind.now }
{
    matches!(kind, Begun::Continue { .. })
}

/// Gives up the creates among the open calls at these paths: what they may have made is left over. After
/// an error nothing is said of the lists.
fn give_up_creates(
    alloc: Global,
    leftovers: &mut Leftovers,
    abandoned: &mut Abandoned,
    tokens: &[Pending],
    paths: &Names,
) -> Result<(), AllocError>
    ensures leftovers { IfOk result (λ _. leftovers.new.items
        ≡ leftovers.old.items ++ map lost_create (skipped_creates paths.now tokens.now)) }
    ensures abandoned { IfOk result (λ _. abandoned.new.items
        ≡ abandoned.old.items ++ map given_up (skipped_creates paths.now tokens.now)) }
{
    for path in paths.as_slice() {
        leave_over(alloc, leftovers, tokens, path)?;
        abandon(alloc, abandoned, tokens, path)?;
    }
    Ok(())
}

/// What an operation with this source sets out with, where this is held.
fn set_out(alloc: Global, held: &[Held], source: Source) -> Result<Outset, AllocError>
    ensures { IfOk result (λ o. o ≡ record { before = held.now; source = source }) }
{
    let mut before = Vec::new(alloc);
    match copy_list(alloc, held, &mut before) {
        Ok(()) => Outset::new(alloc, before, source),
        Err(failed) => {
            drop(before);
            drop(source);
            Err(failed)
        }
    }
}

impl State {
    /// Keeps a change set. A stack that was deleted, or of which nothing is known, is under review
    /// from then on. After an error nothing is said of the stack.
    pub(crate) fn review(&mut self, set: KeptSet) -> Result<(), AllocError>
        ensures { IfOk result (λ _. state_of self.new ≡ with_set set (state_of self.old)) }
    {
        self.sets.push(set)?;
        if is_deleted(self.status) {
            self.number = 0;
        }
        self.status = reviewed(self.status);
        Ok(())
    }

    /// Sets out to work by a source: what is held counts as what was there before. After an error
    /// nothing is said of the stack.
    fn work_by(
        &mut self,
        alloc: Global,
        name: &Txt,
        number: u64,
        source: &Source,
    ) -> Result<(), AllocError>
        ensures { IfOk result (λ _. state_of self.new ≡ working_by (source_for name.now number source.now) (state_of self.old)) }
    {
        let source = source_for(alloc, name, number, source)?;
        let outset = set_out(alloc, self.held.as_slice(), source)?;
        self.made = Vec::new(alloc);
        self.outset = Some(outset);
        Ok(())
    }

    /// Gives up the open calls at these paths, and makes the resources there unsure. After an error
    /// nothing is said of the stack.
    fn skip(&mut self, alloc: Global, paths: &Names) -> Result<(), AllocError>
        ensures { IfOk result (λ _. state_of self.new ≡ skipping paths.now (state_of self.old)) }
    {
        let tokens = self.tokens.as_slice();
        give_up_creates(
            alloc,
            &mut self.leftovers,
            &mut self.abandoned,
            tokens,
            paths,
        )?;
        give_up_at(&mut self.tokens, paths);
        skip(alloc, &mut self.held, paths, before_in(&self.outset))
    }

    /// What an operation does to the stack's resources as it begins. After an error nothing is said
    /// of the stack.
    fn set_off(
        &mut self,
        alloc: Global,
        name: &Txt,
        number: u64,
        kind: &Begun,
    ) -> Result<(), AllocError>
        ensures { IfOk result (λ _. state_of self.new ≡ set_off name.now number kind.now (state_of self.old)) }
    {
        match kind {
            Begun::Create { source } => self.work_by(alloc, name, number, source),
            Begun::Update { source } => self.work_by(alloc, name, self.number, source),
            Begun::Delete { .. } => {
                self.outputs = Outputs::new(alloc);
                Ok(())
            }
            Begun::Continue { paths } => self.skip(alloc, paths),
        }
    }

    /// Keeps the entries and calls that an operation begins with.
    fn keep_history(&mut self, kind: &Begun)
        ensures { state_of self.new ≡ record (state_of self.old) {
          entries = (if continues kind.now then (state_of self.old).entries else []);
          ledger = calls_kept kind.now (state_of self.old);
        } }
    {
        if !continues(kind) {
            self.entries.clear();
            keep_open(&mut self.ledger, self.tokens.as_slice());
        }
        count_anew(&mut self.ledger);
    }

    /// Begins an operation on the stack. After an error nothing is said of it.
    pub(crate) fn begin(
        &mut self,
        alloc: Global,
        name: &Txt,
        number: u64,
        kind: &Begun,
    ) -> Result<(), AllocError>
        ensures { IfOk result (λ _. state_of self.new ≡ beginning name.now number kind.now (state_of self.old)) }
    {
        self.keep_history(kind);
        self.number = creating_number(kind, number, self);
        self.status = begun(kind);
        self.operation = number;
        self.sets.clear();
        self.set_off(alloc, name, number, kind)
    }
}

/// What an operation pins as it begins: its imports, beside what is pinned already.
fn pins_begun(alloc: Global, kind: &Begun) -> Result<Listed, AllocError>
    ensures { IfOk result (λ pins. names_listed pins ≡ pins_begun kind.now) }
{
    match kind {
        Begun::Create { source } | Begun::Update { source } => {
            Ok(Listed::Also(import_names(alloc, Some(source))?))
        }
        _ => Ok(Listed::Same),
    }
}

/// The names that an operation means to export, which set out with this.
fn names_claimed(alloc: Global, outset: &Option<Outset>) -> Result<Listed, AllocError>
    ensures { IfOk result (λ claims. names_listed claims ≡ names_claimed (source_in outset.now) (seen_in (before_in outset.now))) }
{
    match outset {
        Some(outset) => match outset.export_names(alloc) {
            Ok(names) => Ok(Listed::Only(names)),
            Err(failed) => Err(failed),
        },
        None => Ok(Listed::Same),
    }
}

/// What a stack on which an operation has begun claims: the names that it means to export.
fn claims_begun(alloc: Global, kind: &Begun, state: &State) -> Result<Listed, AllocError>
    ensures { IfOk result (λ claims. names_listed claims ≡ claims_begun kind.now (state_of state.now)) }
{
    match kind {
        Begun::Create { .. } | Begun::Update { .. } => names_claimed(alloc, &state.outset),
        _ => Ok(Listed::Same),
    }
}

/// What a beginning operation exports: a deletion nothing any more.
fn exports_begun(alloc: Global, kind: &Begun) -> Option<Listing<(Txt, Txt)>>
    ensures { result ≡ exports_begun kind.now }
{
    match kind {
        Begun::Delete { .. } => Some(Listing::new(alloc)),
        _ => None,
    }
}

/// What an operation leaves of what its stack lists, once it has begun on it.
fn lists_begun(alloc: Global, kind: &Begun, stack: &State) -> Result<Lists, AllocError>
    ensures { IfOk result (λ l. effect_from l stack.now ≡ begun_effect kind.now (state_of stack.now)) }
{
    let pins = pins_begun(alloc, kind)?;
    match claims_begun(alloc, kind, stack) {
        Ok(claims) => Ok(Lists {
            exports: exports_begun(alloc, kind),
            pins,
            claims,
        }),
        Err(failed) => Err(failed),
    }
}

/// Begins an operation on a stack. After an error nothing is said of the stack.
pub(crate) fn begin(
    alloc: Global,
    number: u64,
    name: &Txt,
    kind: &Begun,
    stack: &mut State,
) -> Result<Lists, AllocError>
    ensures { IfOk result (λ l. effect_from l stack.new ≡ begun_effect kind.now (beginning name.now number kind.now (state_of stack.old))) }
{
    stack.begin(alloc, name, number, kind)?;
    lists_begun(alloc, kind, stack)
}
