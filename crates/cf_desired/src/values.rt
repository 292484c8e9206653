//! What a source wants over what is seen: the values of its shape.
ghost use Rattle.std.specs.Prelude.{◌≡◌, [], ◌∷◌, ◌++◌, IfOk, map, option_map, take};
ghost use Rattle.std.specs.Option.{option_copied, option_or};
ghost use Rattle.std.specs.List.{flat_map};
ghost use Rattle.cf_eval.specs.Env.{scope_in};
ghost use Rattle.cf_desired.specs.Kept.{IsShape, kept_entry_in, frame_in, frames_in, frames_past, member_in, nesting_in, offer_in, kept_stack_in, turn_in, valued_there};
ghost use Rattle.cf_desired.specs.Met.{bind_flaw};
ghost use Rattle.cf_desired.specs.Plan.{at_path, no_plan, output_flaws, plan_by, plan_of, props_at, wanted_of};
ghost use Rattle.cf_desired.specs.Templates.{templates_of};
ghost use Rattle.cf_desired.specs.Turns.{entered, frames_behind, frames_run, outputs_on, plan_after, plan_behind, valued_at, with_exports, with_flaw, with_flaw_of, with_resource, with_roots, with_some_flaw, with_stack, with_unmade};
ghost use Rattle.cf_desired.specs.Valued.{member_props};
ghost use Rattle.cf_desired.specs.Work.{Body};

use crate::binding::bind_fault_of;
use crate::evaluations::properties;
use crate::flaw::{Flaw, Flaws};
use crate::frames::{Frame, env_on, offered_at, take_turn};
use crate::laying::shape_of;
use crate::offers::{Offer, Offered};
use crate::outputs::{exports, outputs_over, unmade};
use crate::seen::Seen;
use crate::shape::{Entry, Member, Nesting, Shape, Stack, Turn};
use crate::templates::Templates;
use crate::turns::Turns;
use crate::wanted::{Evaluated, Inner, Plan, Wanted, WantedOutput};
use cf_eval::Env;
use cf_tree::{CondMap, Listing, Names, Source, TryClone, Txt};
use std::alloc::{AllocError, Global};

/// What a source wants of each path, over what is seen, in the order of work; with every flaw in the order in which it is met:
/// those of the root's parameters, its conditions, its order, its resources, a nested stack in its place by the same order, and
/// its outputs.
///
/// # Errors
///
/// Only for want of memory.
pub fn plan(
    alloc: Global,
    source: &Source,
    templates: &Templates,
    seen: &Seen,
) -> Result<Plan, AllocError>
    requires templates { templates.now ≡ templates_of source.now }
    ensures { IfOk result (λ p. p ≡ plan_of source.now seen.now) }
{
    let shape = shape_of(alloc, source, templates, seen)?;
    plan_by(alloc, source, &shape, seen)
}

/// The plan of a source by its shape, over what is seen now.
///
/// # Errors
///
/// Only for want of memory.
#[tactic(auto, using(crate::proofs::Turning::plan_so))]
pub fn plan_by(
    alloc: Global,
    source: &Source,
    shape: &Shape,
    seen: &Seen,
) -> Result<Plan, AllocError>
    ensures { IfOk result (λ p. (b : Body) → IsShape shape.now b → p ≡ plan_by source.now b seen.now) }
{
    let mut frames = Vec::new(alloc);
    let mut plan = nothing_wanted(alloc, shape.templates, shape.members);
    for turn in shape.turns.as_slice() {
        pass(alloc, source, seen, &mut frames, &mut plan, turn)?;
    }
    Ok(plan)
}

/// Passes a turn: what comes with it joins the plan, and the templates that are open behind it take the place of those before.
fn pass<'a>(
    alloc: Global,
    source: &Source,
    seen: &'a Seen,
    frames: &mut Vec<Frame<'a>>,
    plan: &mut Plan,
    turn: &'a Turn,
) -> Result<(), AllocError>
    ensures plan { IfOk result (λ _. plan.new ≡ plan_behind source.now (frames_in frames.old.items) plan.old (turn_in turn.now)) }
    ensures frames { IfOk result (λ _. frames_in frames.new.items ≡ frames_behind source.now seen.now (frames_in frames.old.items) (turn_in turn.now)) }
{
    let offered = offered_at(alloc, source, frames.as_slice(), turn)?;
    add_turn(alloc, source, frames.as_slice(), plan, turn, &offered)?;
    take_turn(alloc, source, seen, frames, &offered.given, turn)?;
    Ok(())
}

/// What the properties of one path come to, over what is seen now; `None` where the shape has no resource there. Besides, only
/// what the nested stacks before it are given, and their outputs, are evaluated. Of what is seen only that is looked up which an
/// expression mentions, so a call costs the same where much is seen and where little is.
///
/// # Errors
///
/// Only for want of memory.
#[tactic(auto, using(crate::proofs::TurnPlaces::props_missing, crate::proofs::TurnPlaces::props_there))]
pub fn props_at(
    alloc: Global,
    source: &Source,
    shape: &Shape,
    seen: &Seen,
    path: &Txt,
) -> Result<Option<Evaluated>, AllocError>
    ensures { IfOk result (λ v. (b : Body) → IsShape shape.now b → v ≡ props_at source.now b seen.now path.now) }
{
    let Some(place) = shape.turns.place_of(path) else {
        return Ok(None);
    };
    let mut frames = Vec::new(alloc);
    open_till(alloc, source, seen, &mut frames, &shape.turns, place)?;
    value_there(
        alloc,
        source,
        frames.as_slice(),
        shape.turns.get(place),
        path,
    )
}

/// Takes the turns before a place: none but those that are no resource opens or closes a template.
fn open_till<'a>(
    alloc: Global,
    source: &Source,
    seen: &'a Seen,
    frames: &mut Vec<Frame<'a>>,
    turns: &'a Turns,
    place: usize,
) -> Result<(), AllocError>
    ensures { IfOk result (λ _. frames_in frames.new.items ≡ frames_run source.now seen.now (frames_in frames.old.items) (map turn_in (take place turns.now))) }
{
    for other in turns.others() {
        if *other >= place {
            return Ok(());
        }
        open_past(alloc, source, seen, frames, turns.get(*other))?;
    }
    Ok(())
}

/// Takes a turn, where there is one.
fn open_past<'a>(
    alloc: Global,
    source: &Source,
    seen: &'a Seen,
    frames: &mut Vec<Frame<'a>>,
    turn: Option<&'a Turn>,
) -> Result<(), AllocError>
    ensures { IfOk result (λ _. frames_in frames.new.items ≡ frames_past source.now seen.now (frames_in frames.old.items) (option_copied turn.entry)) }
{
    match turn {
        Some(turn) => open_behind(alloc, source, seen, frames, turn),
        None => Ok(()),
    }
}

/// Takes a turn.
fn open_behind<'a>(
    alloc: Global,
    source: &Source,
    seen: &'a Seen,
    frames: &mut Vec<Frame<'a>>,
    turn: &'a Turn,
) -> Result<(), AllocError>
    ensures { IfOk result (λ _. frames_in frames.new.items ≡ frames_behind source.now seen.now (frames_in frames.old.items) (turn_in turn.now)) }
{
    let offered = offered_at(alloc, source, frames.as_slice(), turn)?;
    take_turn(alloc, source, seen, frames, &offered.given, turn)?;
    Ok(())
}

/// What the properties of a path come to, where there is a turn that is its resource.
fn value_there(
    alloc: Global,
    source: &Source,
    frames: &[Frame],
    turn: Option<&Turn>,
    path: &Txt,
) -> Result<Option<Evaluated>, AllocError>
    ensures { IfOk result (λ v. v ≡ option_map (λ r. r.1) (at_path path.now (valued_there source.now (frames_in frames.now) (option_copied turn.entry)))) }
{
    match turn {
        Some(turn) => value_at(alloc, source, frames, turn, path),
        None => Ok(None),
    }
}

/// What the properties of a path come to, where a turn is its resource.
#[tactic(auto, using(crate::proofs::OnTop::on_top, crate::proofs::OnTop::none_on_top))]
fn value_at(
    alloc: Global,
    source: &Source,
    frames: &[Frame],
    turn: &Turn,
    path: &Txt,
) -> Result<Option<Evaluated>, AllocError>
    ensures { IfOk result (λ v. v ≡ option_map (λ r. r.1) (at_path path.now (valued_at source.now (frames_in frames.now) (turn_in turn.now)))) }
{
    let Turn::Resource { member } = turn else {
        return Ok(None);
    };
    if !member.path.is(path.as_str()) {
        return Ok(None);
    }
    match frames.last() {
        Some(frame) => Ok(Some(evaluated(alloc, member, &env_on(source, frame))?)),
        None => Ok(None),
    }
}

/// A plan that wants nothing, of a shape in which so many templates and resources were entered.
fn nothing_wanted(alloc: Global, templates: u64, members: u64) -> Plan
    ensures { result ≡ no_plan templates members [] }
{
    Plan {
        wanted: Listing::new(alloc),
        outputs: Listing::new(alloc),
        nested: Listing::new(alloc),
        unmade: Names::new(alloc),
        exports: Listing::new(alloc),
        flaws: Flaws::new(alloc),
        templates,
        members,
    }
}

/// Adds to a plan what comes with a turn, where the template that it enters is given this.
#[tactic(auto, using(crate::proofs::OnTop::on_top, crate::proofs::OnTop::none_on_top))]
fn add_turn(
    alloc: Global,
    source: &Source,
    frames: &[Frame],
    plan: &mut Plan,
    turn: &Turn,
    offered: &Offered,
) -> Result<(), AllocError>
    ensures { IfOk result (λ _. plan.new ≡ plan_after source.now (offer_in offered.now.given) offered.now.flaw (frames_in frames.now) plan.old (turn_in turn.now)) }
{
    match turn {
        Turn::Resource { member } => match frames.last() {
            Some(frame) => add_resource(alloc, plan, member, &env_on(source, frame)),
            None => Ok(()),
        },
        Turn::Shut { nesting, flaw } => {
            add_stack(alloc, plan, nesting, None)?;
            add_flaw(alloc, plan, flaw)
        }
        Turn::Barred { entry, flaw } => {
            add_entered(alloc, plan, entry, &offered.flaw, &None)?;
            add_flaw(alloc, plan, flaw)
        }
        Turn::Halted { entry, stack, flaw } => {
            add_bound(alloc, plan, entry, stack, offered)?;
            add_flaw(alloc, plan, flaw)
        }
        Turn::Opened {
            entry,
            stack,
            conds,
            made: _,
        } => {
            add_bound(alloc, plan, entry, stack, offered)?;
            add_unmade(alloc, plan, entry, stack, conds)
        }
        Turn::Closed => match frames.last() {
            Some(frame) => add_outputs(alloc, source, plan, frame),
            None => Ok(()),
        },
    }
}

/// The flaw that the parameters of a stack can't be bound, where they can't.
fn bind_flaw(alloc: Global, stack: &Stack, given: &Offer) -> Result<Option<Flaw>, AllocError>
    ensures { IfOk result (λ f. f ≡ bind_flaw (kept_stack_in stack.now) (offer_in given.now)) }
{
    match bind_fault_of(alloc, &stack.template, given)? {
        Some(fault) => Ok(Some(Flaw::Bind {
            at: stack.path.try_clone(alloc)?,
            fault,
        })),
        None => Ok(None),
    }
}

/// Adds a template that was entered with what it is given, to which its parameters are bound.
fn add_bound(
    alloc: Global,
    plan: &mut Plan,
    entry: &Entry,
    stack: &Stack,
    offered: &Offered,
) -> Result<(), AllocError>
    ensures { IfOk result (λ _. plan.new ≡ entered plan.old (kept_entry_in entry.now) offered.now.flaw (bind_flaw (kept_stack_in stack.now) (offer_in offered.now.given))) }
{
    let bind = bind_flaw(alloc, stack, &offered.given)?;
    add_entered(alloc, plan, entry, &offered.flaw, &bind)
}

/// Adds a template that was entered: a nested stack with its fault, and the flaws of what it is given and of binding that.
fn add_entered(
    alloc: Global,
    plan: &mut Plan,
    entry: &Entry,
    offers: &Option<Flaw>,
    bind: &Option<Flaw>,
) -> Result<(), AllocError>
    ensures { IfOk result (λ _. plan.new ≡ entered plan.old (kept_entry_in entry.now) offers.now bind.now) }
{
    match entry {
        Entry::Root => add_some_flaw(alloc, plan, bind),
        Entry::Nested {
            nesting,
            resource: _,
        } => add_below(alloc, plan, nesting, offers, bind),
    }
}

/// Adds a nested stack that was entered.
fn add_below(
    alloc: Global,
    plan: &mut Plan,
    nesting: &Nesting,
    offers: &Option<Flaw>,
    bind: &Option<Flaw>,
) -> Result<(), AllocError>
    ensures { IfOk result (λ _. plan.new ≡ with_some_flaw (with_some_flaw (with_stack plan.old (nesting_in nesting.now) (option_or offers.now bind.now)) offers.now) bind.now) }
{
    add_stack(alloc, plan, nesting, first_of(offers, bind))?;
    add_some_flaw(alloc, plan, offers)?;
    add_some_flaw(alloc, plan, bind)
}

/// The first of two flaws that is there.
fn first_of<'a>(offers: &'a Option<Flaw>, bind: &'a Option<Flaw>) -> Option<&'a Flaw>
    ensures { option_copied result ≡ option_or offers.now bind.now }
{
    match offers {
        Some(flaw) => Some(flaw),
        None => bind.as_ref(),
    }
}

/// Adds a nested stack, and why its parameters can't be bound.
fn add_stack(
    alloc: Global,
    plan: &mut Plan,
    nesting: &Nesting,
    fault: Option<&Flaw>,
) -> Result<(), AllocError>
    ensures { IfOk result (λ _. plan.new ≡ with_stack plan.old (nesting_in nesting.now) (option_copied fault.entry)) }
{
    plan.nested.push(Inner {
        path: nesting.path.try_clone(alloc)?,
        needs: nesting.needs.try_clone(alloc)?,
        fault: copied(alloc, fault)?,
    })
}

fn copied(alloc: Global, flaw: Option<&Flaw>) -> Result<Option<Flaw>, AllocError>
    ensures { IfOk result (λ f. f ≡ option_copied flaw.entry) }
{
    match flaw {
        Some(flaw) => Ok(Some(flaw.try_clone(alloc)?)),
        None => Ok(None),
    }
}

fn add_some_flaw(alloc: Global, plan: &mut Plan, flaw: &Option<Flaw>) -> Result<(), AllocError>
    ensures { IfOk result (λ _. plan.new ≡ with_some_flaw plan.old flaw.now) }
{
    match flaw {
        Some(flaw) => add_flaw(alloc, plan, flaw),
        None => Ok(()),
    }
}

fn add_flaw(alloc: Global, plan: &mut Plan, flaw: &Flaw) -> Result<(), AllocError>
    ensures { IfOk result (λ _. plan.new ≡ with_flaw plan.old flaw.now) }
{
    plan.flaws.push(flaw.try_clone(alloc)?)
}

/// Adds a resource, and the flaw of its properties, where they are at fault.
fn add_resource(
    alloc: Global,
    plan: &mut Plan,
    member: &Member,
    env: &Env,
) -> Result<(), AllocError>
    ensures { IfOk result (λ _. plan.new ≡ with_resource plan.old (member_in member.now) (member_props env.now.stack.now (scope_in env.now) (member_in member.now))) }
{
    let wanted = wanted_of(alloc, member, env)?;
    add_flaw_of(alloc, plan, &wanted.props)?;
    plan.wanted.push(wanted)
}

/// What is wanted of a path. Its properties are evaluated last, so that nothing large is let go on the way.
fn wanted_of(alloc: Global, member: &Member, env: &Env) -> Result<Wanted, AllocError>
    ensures { IfOk result (λ w. w ≡ wanted_of (member_in member.now, member_props env.now.stack.now (scope_in env.now) (member_in member.now))) }
{
    let path = member.path.try_clone(alloc)?;
    let kind = member.resource.kind.try_clone(alloc)?;
    let needs = member.needs.try_clone(alloc)?;
    Ok(Wanted {
        path,
        kind,
        deletion: member.deletion,
        replace: member.replace,
        needs,
        props: evaluated(alloc, member, env)?,
    })
}

/// Adds the flaw of properties, where they are at fault.
fn add_flaw_of(alloc: Global, plan: &mut Plan, props: &Evaluated) -> Result<(), AllocError>
    ensures { IfOk result (λ _. plan.new ≡ with_flaw_of plan.old props.now) }
{
    match props {
        Evaluated::Flawed { flaw } => add_flaw(alloc, plan, flaw),
        Evaluated::Known { props: _ } => Ok(()),
    }
}

/// What the properties of a resource come to: nothing is evaluated where its condition is not declared.
fn evaluated(alloc: Global, member: &Member, env: &Env) -> Result<Evaluated, AllocError>
    ensures { IfOk result (λ e. e ≡ member_props env.now.stack.now (scope_in env.now) (member_in member.now)) }
{
    match &member.unnamed {
        Some(flaw) => Ok(Evaluated::Flawed {
            flaw: flaw.try_clone(alloc)?,
        }),
        None => properties(alloc, &member.resource.props, env),
    }
}

/// Adds the names of the root's outputs whose condition is false.
fn add_unmade(
    alloc: Global,
    plan: &mut Plan,
    entry: &Entry,
    stack: &Stack,
    conds: &CondMap,
) -> Result<(), AllocError>
    ensures { IfOk result (λ _. plan.new ≡ with_unmade plan.old (kept_entry_in entry.now) (kept_stack_in stack.now) conds.now) }
{
    if matches!(entry, Entry::Root) {
        plan.unmade = unmade(alloc, stack, conds)?;
    }
    Ok(())
}

/// Adds the exports and the flaws of a template's outputs, and those outputs themselves where it is the root.
fn add_outputs(
    alloc: Global,
    source: &Source,
    plan: &mut Plan,
    frame: &Frame,
) -> Result<(), AllocError>
    ensures { IfOk result (λ _. plan.new ≡ outputs_on source.now plan.old (frame_in frame.now)) }
{
    let env = env_on(source, frame);
    let outputs = outputs_over(alloc, frame.stack, frame.conds, &env)?;
    add_exports(alloc, plan, outputs.as_slice())?;
    add_roots(plan, frame.entry, outputs);
    Ok(())
}

/// Adds what outputs export, and their flaws.
fn add_exports(alloc: Global, plan: &mut Plan, outputs: &[WantedOutput]) -> Result<(), AllocError>
    ensures { IfOk result (λ _. plan.new ≡ with_exports plan.old outputs.now) }
{
    plan.exports.append(exports(alloc, outputs)?)?;
    add_output_flaws(alloc, &mut plan.flaws, outputs)
}

/// Adds the outputs of a template, where it is the root.
fn add_roots(plan: &mut Plan, entry: &Entry, outputs: Listing<WantedOutput>)
    ensures { plan.new ≡ with_roots plan.old (kept_entry_in entry.now) outputs }
{
    if matches!(entry, Entry::Root) {
        plan.outputs = outputs;
    }
}

/// Adds the flaws of outputs.
fn add_output_flaws(
    alloc: Global,
    flaws: &mut Flaws,
    outputs: &[WantedOutput],
) -> Result<(), AllocError>
    ensures { IfOk result (λ _. flaws.new ≡ flaws.old ++ flat_map output_flaws outputs.now) }
{
    for output in outputs {
        if let Some(flaw) = &output.fault {
            flaws.push(flaw.try_clone(alloc)?)?;
        }
    }
    Ok(())
}
