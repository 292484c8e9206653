//! What a stage that deletes makes of its resources: deletions that may begin, and what may go off the list.
ghost use Rattle.std.specs.Prelude.{◌≡◌, ◌++◌, ◌∷◌, ◌&&◌, [], not, false, IfOk, flat_map};
ghost use Rattle.std.specs.Option.{option_copied};
ghost use Rattle.cf_tree.specs.Lists.{is_among};
ghost use Rattle.cf_effect.specs.Words.{is_create};
ghost use Rattle.cf_next.specs.Facts.{AreAdded, IsAdded, IsRemovalAdded};
ghost use Rattle.cf_next.specs.Facts.{deletion_start, doubted_by, creates_given_up, is_kept, keeping_for};
ghost use Rattle.cf_next.specs.Facts.{may_delete, refused_by, retention_of, undeleted_by};
ghost use Rattle.cf_next.specs.Unmaking.{is_kept_by};

use crate::facts::Facts;
use crate::lookups::{Lent, is_among};
use crate::offer::{Keeping, Keepings};
use crate::tallies::tally_under;
use crate::unmaking::{Unmaking, has_try_left, is_cleanup, is_in_view};
use cf_entry::Why;
use cf_plan::{Ask, Start, Starts};
use cf_stacks::{Held, Pending};
use cf_tree::{Deletion, Replace, Request, TryClone, Txt};
use std::alloc::{AllocError, Global};

/// Whether a stage may delete a resource, or keeps it instead.
fn may_delete(stage: Unmaking, facts: &Facts, held: &Held) -> bool
    ensures { result ≡ may_delete stage facts.now held.now }
{
    is_in_view(stage, held)
        && !facts.needed.has(&held.physical)
        && has_try_left(stage, tally_under(&facts.tallies, &held.physical))
}

/// Whether a resource is kept by the policy of what took its place, or else by its own.
fn is_kept_by(policy: Option<&Replace>, held: &Held) -> bool
    ensures { result ≡ is_kept_by (option_copied policy.entry) held.now }
{
    match policy {
        Some(policy) => matches!(policy, Replace::Retain),
        None => !matches!(held.deletion, Deletion::Delete),
    }
}

/// Whether a stage keeps a resource that it would delete.
fn is_kept(stage: Unmaking, facts: &Facts, held: &Held) -> bool
    ensures { result ≡ is_kept stage facts.now held.now }
{
    match stage {
        Unmaking::Clean => is_kept_by(facts.policies.get(&held.path), held),
        Unmaking::Back | Unmaking::BackClean => matches!(held.deletion, Deletion::Retain),
        Unmaking::Gone => {
            !matches!(held.deletion, Deletion::Delete) || facts.retained.has(&held.path)
        }
    }
}

/// Adds the deletion of a resource, where no call at its path is open. After an error nothing is said of the list.
fn add_deletion<'a>(
    starts: &mut Starts<'a>,
    facts: &Facts,
    held: &'a Held,
) -> Result<(), AllocError>
    ensures { IfOk result (λ _. starts.new ≡ starts.old ++ deletion_start facts.now held.now) }
{
    if facts.busy.has(&held.path) {
        return Ok(());
    }
    let physical = &held.physical;
    starts.push(Start::new(&held.path, Ask::Delete { physical }))
}

/// Adds a resource that is kept. After an error the list is as it was.
fn add_keeping(
    alloc: Global,
    keepings: &mut Keepings,
    held: &Held,
    why: Why,
) -> Result<(), AllocError>
    ensures { IfOk result (λ _. keepings.new ≡ keepings.old ++ keeping_for held.now why ∷ []) }
{
    let path = held.path.try_clone(alloc)?;
    let physical = held.physical.try_clone(alloc)?;
    keepings.push(Keeping {
        path,
        physical,
        why,
    })
}

/// Adds a resource that is retained, where no call at its path is open, or the path is to be retained. After an error the list is as
/// it was.
fn add_retention(
    alloc: Global,
    keepings: &mut Keepings,
    facts: &Facts,
    held: &Held,
) -> Result<(), AllocError>
    ensures { IfOk result (λ _. keepings.new ≡ keepings.old ++ retention_of facts.now held.now) }
{
    if facts.busy.has(&held.path) && !facts.retained.has(&held.path) {
        Ok(())
    } else {
        add_keeping(alloc, keepings, held, Why::Retained)
    }
}

/// Adds a resource, where it may be deleted: its deletion, or that it is retained. After an error nothing is said of the lists.
fn add_removal<'a>(
    alloc: Global,
    starts: &mut Starts<'a>,
    keepings: &mut Keepings,
    stage: Unmaking,
    facts: &Facts,
    held: &'a Held,
) -> Result<(), AllocError>
    ensures { IfOk result (λ _. IsRemovalAdded stage facts.now held.now starts.old starts.new keepings.old keepings.new) }
{
    if !may_delete(stage, facts, held) {
        return Ok(());
    }
    if is_kept(stage, facts, held) {
        add_retention(alloc, keepings, facts, held)
    } else {
        add_deletion(starts, facts, held)
    }
}

/// Adds a resource whose deletion was three times refused. After an error the list is as it was.
fn add_refused(
    alloc: Global,
    keepings: &mut Keepings,
    facts: &Facts,
    held: &Held,
) -> Result<(), AllocError>
    ensures { IfOk result (λ _. keepings.new ≡ keepings.old ++ refused_by facts.now held.now) }
{
    if tally_under(&facts.tallies, &held.physical).refused < 3 {
        Ok(())
    } else {
        add_keeping(alloc, keepings, held, Why::Failed)
    }
}

/// Adds a resource of which an open deletion was three times in doubt. After an error the list is as it was.
fn add_doubted(
    alloc: Global,
    keepings: &mut Keepings,
    facts: &Facts,
    held: &Held,
) -> Result<(), AllocError>
    ensures { IfOk result (λ _. keepings.new ≡ keepings.old ++ doubted_by facts.now held.now) }
{
    if facts.doubted.has(&held.physical) {
        add_keeping(alloc, keepings, held, Why::Doubt)
    } else {
        Ok(())
    }
}

/// Adds a resource that a cleanup could not delete. After an error nothing is said of the list.
fn add_undeleted(
    alloc: Global,
    keepings: &mut Keepings,
    stage: Unmaking,
    facts: &Facts,
    held: &Held,
) -> Result<(), AllocError>
    ensures { IfOk result (λ _. keepings.new ≡ keepings.old ++ undeleted_by stage facts.now held.now) }
{
    if is_cleanup(stage) && is_in_view(stage, held) {
        add_refused(alloc, keepings, facts, held)?;
        add_doubted(alloc, keepings, facts, held)
    } else {
        Ok(())
    }
}

/// Adds what comes of a resource. After an error nothing is said of the lists.
fn add_resource<'a>(
    alloc: Global,
    starts: &mut Starts<'a>,
    keepings: &mut Keepings,
    stage: Unmaking,
    facts: &Facts,
    held: &'a Held,
) -> Result<(), AllocError>
    ensures { IfOk result (λ _. IsAdded stage facts.now held.now starts.old starts.new keepings.old keepings.new) }
{
    add_removal(alloc, starts, keepings, stage, facts, held)?;
    add_undeleted(alloc, keepings, stage, facts, held)
}

/// Adds what comes of these resources. After an error nothing is said of the lists.
pub(crate) fn add_resources<'a>(
    alloc: Global,
    starts: &mut Starts<'a>,
    keepings: &mut Keepings,
    stage: Unmaking,
    facts: &Facts,
    helds: &'a [Held],
) -> Result<(), AllocError>
    ensures { IfOk result (λ _. AreAdded stage facts.now helds.now starts.old starts.new keepings.old keepings.new) }
{
    for held in helds {
        add_resource(alloc, starts, keepings, stage, facts, held)?;
    }
    Ok(())
}

/// Whether an open call creates a resource at one of these paths.
fn is_given_up(retained: &[Lent], pending: &Pending) -> bool
    ensures { result ≡ (is_create pending.now.request && is_among pending.now.path retained.now) }
{
    matches!(pending.request, Request::Create { kind: _, props: _ })
        && is_among(retained, &pending.path)
}

/// Adds an open create of a path that is to be retained: it is given up. After an error nothing is said of the list.
fn add_given_up(
    alloc: Global,
    keepings: &mut Keepings,
    retained: &[Lent],
    pending: &Pending,
) -> Result<(), AllocError>
    ensures { IfOk result (λ _. keepings.new ≡ keepings.old ++ creates_given_up retained.now pending.now) }
{
    if is_given_up(retained, pending) {
        let path = pending.path.try_clone(alloc)?;
        let physical = Txt::new(String::new(alloc));
        keepings.push(Keeping {
            path,
            physical,
            why: Why::Retained,
        })
    } else {
        Ok(())
    }
}

/// Adds the open creates, among these calls, of paths that are to be retained. After an error nothing is said of the list.
pub(crate) fn add_all_given_up(
    alloc: Global,
    keepings: &mut Keepings,
    retained: &[Lent],
    tokens: &[Pending],
) -> Result<(), AllocError>
    ensures { IfOk result (λ _. keepings.new ≡ keepings.old ++ flat_map (creates_given_up retained.now) tokens.now) }
{
    for pending in tokens {
        add_given_up(alloc, keepings, retained, pending)?;
    }
    Ok(())
}
