//! What a later phase and the end of an operation leave.
ghost use Rattle.std.specs.Prelude.{◌≡◌, ◌++◌, [], IfOk, map, option_copied};
ghost use Rattle.std.specs.Option.{option_or};
ghost use Rattle.cf_entry.specs.declared.status.Status.TheVariants as status;
ghost use Rattle.cf_effect.specs.End.{as_wanted, completed, completing, ended_effect, ending, settled_in, stopping, turned_effect, turning};
ghost use Rattle.cf_effect.specs.Settling.{is_of_its_path, settled_among};
ghost use Rattle.cf_effect.specs.State.{effect_from, lists_pinning, state_of};
ghost use Rattle.cf_effect.specs.Words.{current_at, resources_of};

use crate::copies::copy_into;
use crate::held::{Held, Helds};
use crate::index::PathIndex;
use crate::listed::{Listed, Lists, import_names};
use crate::state::State;
use cf_desired::{Right, WholePlan};
use cf_entry::{Phase, Status};
use cf_export::Outputs;
use cf_tree::{Listing, Names, Source, TryClone, Txt};
use std::alloc::{AllocError, Global};
use std::mem;

/// The resources of a stack whose operation is completed, and what is wanted then.
#[derive(Drop)]
struct Settling<'a> {
    made: PathIndex<'a, Held>,
    held: PathIndex<'a, Held>,
    wanted: PathIndex<'a, Right>,
}

/// Gives a resource the policies and needs that are wanted at its path, and else supersedes it.
/// After an error nothing is said of it.
fn set_wanted(alloc: Global, held: &mut Held, right: Option<&Right>) -> Result<(), AllocError>
    ensures { IfOk result (λ _. held.new ≡ as_wanted (option_copied right.entry) held.old) }
{
    match right {
        Some(right) => {
            copy_into(alloc, &right.needs, &mut held.needs)?;
            held.deletion = right.deletion;
            held.replace = right.replace;
            held.superseded = false;
        }
        None => held.superseded = true,
    }
    Ok(())
}

impl<'a> Settling<'a> {
    /// The resources of a stack, to be settled by what is wanted.
    fn of(alloc: Global, stack: &'a State, whole: &'a WholePlan) -> Result<Settling<'a>, AllocError>
        ensures { IfOk result (λ s. settled_among s.wanted s.made s.held ≡ settled_in whole.now (state_of stack.now)) }
    {
        Ok(Settling {
            made: PathIndex::new(alloc, stack.made.as_slice())?,
            held: PathIndex::new(alloc, stack.held.as_slice())?,
            wanted: PathIndex::new(alloc, whole.wanted.as_slice())?,
        })
    }

    /// The resource of a path: the one that the operation made, or else the held one.
    fn resource_at(&self, path: &Txt) -> Option<&'a Held>
        ensures { option_copied result ≡ option_or (current_at path.now self.now.made) (current_at path.now self.now.held) }
    {
        match self.made.get(path) {
            Some(made) => Some(made),
            None => self.held.get(path),
        }
    }

    /// Whether a resource is the one of its path.
    fn is_of_its_path(&self, held: &Held) -> bool
        ensures { result ≡ is_of_its_path self.now.made self.now.held held.now }
    {
        match self.resource_at(&held.path) {
            Some(resource) => held.physical == resource.physical && !held.superseded,
            None => false,
        }
    }

    /// A copy of a resource as the completed operation leaves it.
    fn settled(&self, alloc: Global, held: &Held) -> Result<Held, AllocError>
        ensures { IfOk result (λ h. h ≡ settled_among self.now.wanted self.now.made self.now.held held.now) }
    {
        let mut settled = held.try_clone(alloc)?;
        let right = if self.is_of_its_path(held) {
            self.wanted.get(&held.path)
        } else {
            None
        };
        match set_wanted(alloc, &mut settled, right) {
            Ok(()) => Ok(settled),
            Err(failed) => {
                drop(settled);
                Err(failed)
            }
        }
    }
}

/// Adds the resources of a list as the completed operation leaves them. After an error nothing is
/// said of what they join.
fn settle_each(
    alloc: Global,
    settling: &Settling,
    helds: &[Held],
    all: &mut Helds,
) -> Result<(), AllocError>
    ensures { IfOk result (λ _. all.new.items ≡ all.old.items ++ map (settled_among settling.now.wanted settling.now.made settling.now.held) helds.now) }
{
    for held in helds {
        all.push(settling.settled(alloc, held)?)?;
    }
    Ok(())
}

/// Adds all resources of a stack as the completed operation leaves them. After an error nothing is
/// said of what they join.
fn settle_all(
    alloc: Global,
    stack: &State,
    whole: &WholePlan,
    all: &mut Helds,
) -> Result<(), AllocError>
    ensures { IfOk result (λ _. all.new.items
        ≡ all.old.items ++ map (settled_in whole.now (state_of stack.now)) (resources_of (state_of stack.now))) }
{
    let settling = Settling::of(alloc, stack, whole)?;
    settle_each(alloc, &settling, stack.held.as_slice(), all)?;
    settle_each(alloc, &settling, stack.made.as_slice(), all)
}

/// All resources of a stack as the completed operation leaves them.
fn settle(alloc: Global, stack: &State, whole: &WholePlan) -> Result<Helds, AllocError>
    ensures { IfOk result (λ hs. hs.items ≡ map (settled_in whole.now (state_of stack.now)) (resources_of (state_of stack.now))) }
{
    let mut all = Vec::new(alloc);
    match settle_all(alloc, stack, whole, &mut all) {
        Ok(()) => Ok(all),
        Err(failed) => {
            drop(all);
            Err(failed)
        }
    }
}

/// A copy of a source, where there is one.
fn copied_source(alloc: Global, source: Option<&Source>) -> Result<Option<Source>, AllocError>
    ensures { IfOk result (λ copy. copy ≡ option_copied source.entry) }
{
    match source {
        Some(source) => match source.try_clone(alloc) {
            Ok(copy) => Ok(Some(copy)),
            Err(failed) => Err(failed),
        },
        None => Ok(None),
    }
}

/// Completes an operation by what is wanted, whose outputs and exports are taken. After an error
/// nothing is said of the stack.
fn complete(alloc: Global, whole: &mut WholePlan, stack: &mut State) -> Result<Lists, AllocError>
    ensures { IfOk result (λ l. effect_from l stack.new ≡ completed whole.old (state_of stack.old)) }
{
    stack.held = settle(alloc, stack, whole)?;
    stack.source = copied_source(alloc, stack.going())?;
    stack.made = Vec::new(alloc);
    stack.outputs = mem::replace(&mut whole.outputs, Outputs::new(alloc));
    let imports = import_names(alloc, stack.going())?;
    Ok(Lists {
        exports: Some(mem::replace(&mut whole.exports, Listing::new(alloc))),
        pins: Listed::Only(imports),
        claims: Listed::Same,
    })
}

/// Completes an operation by what is wanted, which is used up. After an error nothing is said of the
/// stack.
fn complete_by(alloc: Global, mut whole: WholePlan, stack: &mut State) -> Result<Lists, AllocError>
    ensures { IfOk result (λ l. effect_from l stack.new ≡ completed whole (state_of stack.old)) }
{
    let lists = complete(alloc, &mut whole, stack);
    drop(whole);
    lists
}

/// Enters a later phase. After an error nothing is said of the stack.
pub(crate) fn turn(alloc: Global, phase: Phase, stack: &mut State) -> Result<Lists, AllocError>
    ensures { IfOk result (λ l. effect_from l stack.new ≡ turned_effect phase (state_of stack.old)) }
{
    match phase {
        Phase::Clean => {
            let whole = stack.whole_now(alloc)?;
            stack.turn(phase);
            complete_by(alloc, whole, stack)
        }
        _ => {
            stack.turn(phase);
            Ok(Lists::same())
        }
    }
}

/// The stack pins these names alone.
fn pinning(names: Names) -> Lists
    ensures { result ≡ lists_pinning names }
{
    Lists {
        exports: None,
        pins: Listed::Only(names),
        claims: Listed::Same,
    }
}

/// What a rollback that failed made is held. After an error nothing is said of the stack.
fn hold_made(stack: &mut State) -> Result<Lists, AllocError>
    ensures { IfOk result (λ l. effect_from l stack.new ≡ ending status.RollbackFailed (state_of stack.old)) }
{
    stack.held.append(&mut stack.made)?;
    Ok(Lists::same())
}

/// Ends an operation that stopped in a status, but for its claims. After an error nothing is said of
/// the stack.
fn end_stopped(alloc: Global, status: Status, stack: &mut State) -> Result<Lists, AllocError>
    ensures { IfOk result (λ l. effect_from l stack.new ≡ ending status (state_of stack.old)) }
{
    match status {
        Status::CreateComplete => {
            let whole = stack.whole_now(alloc)?;
            complete_by(alloc, whole, stack)
        }
        Status::RollbackFailed => hold_made(stack),
        Status::UpdateRollbackComplete => {
            let names = import_names(alloc, stack.source.as_ref())?;
            Ok(pinning(names))
        }
        Status::RollbackComplete | Status::DeleteComplete => Ok(pinning(Names::new(alloc))),
        _ => Ok(Lists::same()),
    }
}

/// Ends an operation in a status. After an error nothing is said of the stack.
pub(crate) fn end(alloc: Global, status: Status, stack: &mut State) -> Result<Lists, AllocError>
    ensures { IfOk result (λ l. effect_from l stack.new ≡ ended_effect status (state_of stack.old)) }
{
    stack.stop(status);
    match end_stopped(alloc, status, stack) {
        Ok(mut lists) => {
            lists.claims = Listed::Only(Names::new(alloc));
            Ok(lists)
        }
        Err(failed) => Err(failed),
    }
}
