//! The templates that are open while turns are taken.
ghost use Rattle.std.specs.Prelude.{◌≡◌, ◌∷◌, IfOk, None};
ghost use Rattle.cf_eval.specs.Env.{scope_in};
ghost use Rattle.cf_desired.specs.Given.{unknown};
ghost use Rattle.cf_desired.specs.Kept.{kept_entry_in, frame_in, frames_in, nesting_in, offer_in, kept_stack_in, turn_in};
ghost use Rattle.cf_desired.specs.Turns.{close, come, come_through, flaw_at_turn, flaw_through, frame_of, frames_after, given_at, given_through, scope_on};

use crate::binding::{pieces_of, settings};
use crate::offers::{Offer, Offered};
use crate::outputs::output_sights;
use crate::pseudo::pseudo_of;
use crate::seen::Seen;
use crate::shape::{Entry, Nesting, Stack, Turn};
use crate::sights::add_nested;
use crate::template_name::offered_to;
use cf_eval::{Env, OutputSight, Sights};
use cf_tree::{Bound, ByName, CondMap, Dict, Source};
use std::alloc::{AllocError, Global};

/// A template that is open: what its parameters are bound to, and what is seen of its resources.
#[derive(Drop)]
pub(crate) struct Frame<'a> {
    pub entry: &'a Entry,
    pub stack: &'a Stack,
    pub conds: &'a CondMap,
    pub bound: Bound,
    pub pseudo: Dict,
    pub sights: Sights<'a>,
}

/// What the resources and outputs of an open template are evaluated over.
pub(crate) fn env_on<'a>(source: &'a Source, frame: &'a Frame) -> Env<'a>
    ensures scope { scope_in result ≡ scope_on source.now (frame_in frame.now) }
    ensures stack { result.stack.now ≡ frame.now.stack.now.path }
{
    Env {
        bound: &frame.bound,
        mappings: &frame.stack.template.mappings,
        conds: frame.conds,
        seen: &frame.sights,
        imports: &source.imports,
        pseudo: &frame.pseudo,
        stack: &frame.stack.path,
    }
}

/// What the template is given that a turn enters, and the flaw of that.
pub(crate) fn offered_at(
    alloc: Global,
    source: &Source,
    frames: &[Frame],
    turn: &Turn,
) -> Result<Offered, AllocError>
    ensures given { IfOk result (λ o. offer_in o.given ≡ given_at source.now (frames_in frames.now) (turn_in turn.now)) }
    ensures flaw { IfOk result (λ o. o.flaw ≡ flaw_at_turn source.now (frames_in frames.now) (turn_in turn.now)) }
{
    match turn {
        Turn::Barred { entry, flaw: _ } => offered_through(alloc, source, frames, entry),
        Turn::Halted {
            entry,
            stack: _,
            flaw: _,
        } => offered_through(alloc, source, frames, entry),
        Turn::Opened {
            entry,
            stack: _,
            conds: _,
            made: _,
        } => offered_through(alloc, source, frames, entry),
        Turn::Resource { member: _ } => Ok(nothing_known()),
        Turn::Shut {
            nesting: _,
            flaw: _,
        } => Ok(nothing_known()),
        Turn::Closed => Ok(nothing_known()),
    }
}

fn nothing_known() -> Offered
    ensures given { offer_in result.given ≡ unknown }
    ensures flaw { result.flaw ≡ None }
{
    Offered {
        given: Offer::Unknown,
        flaw: None,
    }
}

/// What a template is given that is entered in this way, in the template that was opened last.
#[tactic(auto, using(crate::proofs::OnTop::on_top, crate::proofs::OnTop::none_on_top))]
fn offered_through(
    alloc: Global,
    source: &Source,
    frames: &[Frame],
    entry: &Entry,
) -> Result<Offered, AllocError>
    ensures given { IfOk result (λ o. offer_in o.given ≡ given_through source.now (frames_in frames.now) (kept_entry_in entry.now)) }
    ensures flaw { IfOk result (λ o. o.flaw ≡ flaw_through source.now (frames_in frames.now) (kept_entry_in entry.now)) }
{
    match entry {
        Entry::Root => Ok(Offered {
            given: Offer::Pieces {
                pieces: pieces_of(alloc, &source.given)?,
            },
            flaw: None,
        }),
        Entry::Nested {
            nesting: _,
            resource,
        } => match frames.last() {
            Some(frame) => offered_to(alloc, resource, &env_on(source, frame)),
            None => Ok(nothing_known()),
        },
    }
}

/// Takes a turn, where the template that it enters is given this.
#[tactic(auto, using(crate::proofs::OnTop::frames_pushed))]
pub(crate) fn take_turn<'a>(
    alloc: Global,
    source: &Source,
    seen: &'a Seen,
    frames: &mut Vec<Frame<'a>>,
    given: &Offer,
    turn: &'a Turn,
) -> Result<(), AllocError>
    ensures { IfOk result (λ _. frames_in frames.new.items ≡ frames_after source.now seen.now (offer_in given.now) (frames_in frames.old.items) (turn_in turn.now)) }
{
    match turn {
        Turn::Resource { member: _ } => Ok(()),
        Turn::Shut { nesting, flaw: _ } => {
            leave_nested(alloc, source, nesting, ByName::new(alloc), frames)
        }
        Turn::Barred { entry, flaw: _ } => {
            leave(alloc, source, entry, ByName::new(alloc), frames)
        }
        Turn::Halted {
            entry,
            stack: _,
            flaw: _,
        } => leave(alloc, source, entry, ByName::new(alloc), frames),
        Turn::Opened {
            entry,
            stack,
            conds,
            made,
        } => {
            let frame = frame_of(alloc, source, seen, given, entry, stack, conds, made)?;
            Ok(frames.push(frame)?)
        }
        Turn::Closed => close_last(alloc, source, frames),
    }
}

/// A template as it is opened.
fn frame_of<'a>(
    alloc: Global,
    source: &Source,
    seen: &'a Seen,
    given: &Offer,
    entry: &'a Entry,
    stack: &'a Stack,
    conds: &'a CondMap,
    made: &'a ByName<bool>,
) -> Result<Frame<'a>, AllocError>
    ensures { IfOk result (λ f. frame_in f ≡ frame_of source.now seen.now (offer_in given.now) (kept_entry_in entry.now) (kept_stack_in stack.now) conds.now made.now) }
{
    Ok(Frame {
        entry,
        stack,
        conds,
        bound: settings(alloc, &stack.template.params, given)?,
        pseudo: pseudo_of(alloc, &stack.name, source.number)?,
        sights: Sights::new(alloc, made, &stack.path, seen),
    })
}

/// Closes the template that was opened last: all of it has come.
#[tactic(auto, using(crate::proofs::OnTop::frames_pushed))]
fn close_last(alloc: Global, source: &Source, frames: &mut Vec<Frame>) -> Result<(), AllocError>
    ensures { IfOk result (λ _. frames_in frames.new.items ≡ close source.now (frames_in frames.old.items)) }
{
    let Some(frame) = frames.pop() else {
        return Ok(());
    };
    let env = env_on(source, &frame);
    let outputs = output_sights(alloc, frame.stack, frame.conds, &env)?;
    leave(alloc, source, frame.entry, outputs, frames)
}

/// Leaves what was entered in this way, where so much is seen of its outputs.
fn leave(
    alloc: Global,
    source: &Source,
    entry: &Entry,
    outputs: ByName<OutputSight>,
    frames: &mut Vec<Frame>,
) -> Result<(), AllocError>
    ensures { IfOk result (λ _. frames_in frames.new.items ≡ come_through source.now (kept_entry_in entry.now) outputs (frames_in frames.old.items)) }
{
    match entry {
        Entry::Root => Ok(()),
        Entry::Nested {
            nesting,
            resource: _,
        } => leave_nested(alloc, source, nesting, outputs, frames),
    }
}

/// Leaves a nested stack, where so much is seen of its outputs.
#[tactic(auto, using(crate::proofs::OnTop::frames_pushed))]
fn leave_nested(
    alloc: Global,
    source: &Source,
    nesting: &Nesting,
    outputs: ByName<OutputSight>,
    frames: &mut Vec<Frame>,
) -> Result<(), AllocError>
    ensures { IfOk result (λ _. frames_in frames.new.items ≡ come source.now (nesting_in nesting.now) outputs (frames_in frames.old.items)) }
{
    let Some(frame) = frames.pop() else {
        return Ok(());
    };
    let mut frame = frame;
    add_nested(alloc, source, nesting, outputs, &mut frame.sights)?;
    Ok(frames.push(frame)?)
}
