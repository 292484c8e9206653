//! The shape of a source, laid out template by template.
ghost use Rattle.std.specs.Prelude.{◌≡◌, ◌+◌, [], ◌∷◌, ◌++◌, IfOk, codes, fold, length, map};
ghost use Rattle.cf_eval.specs.Env.{scope_in};
ghost use Rattle.cf_template.proofs.Ordered.{AreOrdered};
ghost use Rattle.cf_desired.specs.Kept.{IsContents, IsJoined, IsLaid, IsLaidAlong, IsShape, IsShapeFrom, IsWithin, WayLaid, so_far_in, entering_in, kept_entry_in, nesting_in, offer_in, scope_by, kept_stack_in, way_in};
ghost use Rattle.cf_desired.specs.Laying.{IsWay, none_laid, enterable_below, entered_by, entered_way, few, step_by, way_by, with_member, with_nested};
ghost use Rattle.cf_desired.specs.Listed.{made_by, settings_by, stands_by};
ghost use Rattle.cf_desired.specs.Given.{Given, given_in};
ghost use Rattle.cf_desired.specs.Seeing.{Seen, by_names, output_sights};
ghost use Rattle.cf_tree.specs.Keys.{value_at};
ghost use Rattle.cf_eval.specs.Scope.{Scope};
ghost use Rattle.cf_tree.specs.declared.source.Source.{Source};
ghost use Rattle.cf_desired.specs.Shape.{entering_below, given_root, laid, own_in, root_of, shape_of};
ghost use Rattle.cf_desired.specs.Templates.{template_named, templates_of};
ghost use Rattle.cf_desired.specs.Names.{path_in};
ghost use Rattle.cf_desired.specs.Stack.{Verdicts};
ghost use Rattle.cf_desired.specs.Turns.{the_root, through};
ghost use Rattle.cf_desired.specs.declared.shape.Turn.TheVariants.{Closed};
ghost use Rattle.cf_desired.specs.Work.{barred, halted, shut};
ghost use Rattle.cf_desired.specs.declared.flaw.Flaw.TheVariants as flaw;

use crate::binding::{pieces_of, settings};
use crate::context::{PlanContext, env_over};
use crate::decision::{Decision, decide};
use crate::flaw::Flaw;
use crate::members::{member_by, nesting_by, unnamed};
use crate::offers::Offer;
use crate::outputs::output_sights;
use crate::pseudo::pseudo_of;
use crate::seen::Seen;
use crate::shape::{Entry, Nesting, Shape, Stack, Turn};
use crate::shared::{Shared, SharedRes, resource_named, shared_res};
use crate::sights::{add_nested, made_by};
use crate::template_name::{TemplateName, has_shape, offered_to, template_name_wanted};
use crate::templates::{Templates, is_stack, template_named};
use crate::turns::Turns;
use cf_eval::{Env, OutputSight, Sights, path_in};
use cf_graph::Needs;
use cf_tree::{
    Bound, ByName, CondMap, Deletion, Listing, Names, Replace, Source, Template, TryClone, Txt,
};
use std::alloc::{AllocError, Global};

/// How deep a nested stack may lie below the root.
const DEPTH: usize = 7;

/// How many templates may be entered.
const TEMPLATES: u64 = 16;

/// How many resources these may have, each counted as often as it is entered.
const MEMBERS: u64 = 2000;

/// What a shape is laid out over.
#[derive(Drop)]
struct Laying<'a> {
    source: &'a Source,
    templates: &'a Templates,
    seen: &'a Seen,
}

/// A stack, with the policies and the needs around it.
#[derive(Drop)]
pub(crate) struct Entering {
    pub stack: Stack,
    pub deletion: Option<Deletion>,
    pub replace: Option<Replace>,
    pub needs: Names,
}

/// How many templates were entered, and how many resources these have.
#[derive(Clone, Copy)]
pub(crate) struct Count {
    pub templates: u64,
    pub members: u64,
}

/// What was laid out: its turns, what is seen of its outputs, and the paths in it.
#[derive(Drop)]
pub(crate) struct Laid {
    pub turns: Listing<Turn>,
    pub outputs: ByName<OutputSight>,
    pub paths: Names,
    pub count: Count,
}

/// What is known along the order of work in a template: what is seen of its resources, the paths that logical ids stand for, and
/// those of its nested stacks.
#[derive(Drop)]
pub(crate) struct LaidSoFar<'a> {
    pub turns: Listing<Turn>,
    pub sights: Sights<'a>,
    pub stands: ByName<Names>,
    pub paths: Names,
    pub count: Count,
}

/// What is in a template that was opened: whether each of its resources is made, and what was laid out along the order of work.
#[derive(Drop)]
pub(crate) struct Contents {
    pub made: ByName<bool>,
    pub laid: Laid,
}

/// A nested stack, with its stack resource.
#[derive(Drop)]
pub(crate) struct Inner {
    pub nesting: Nesting,
    pub resource: SharedRes,
}

/// What becomes of a nested stack.
#[derive(Drop)]
pub(crate) enum Way {
    /// Its stack resource has a flaw.
    Shut {
        flaw: Flaw,
    },
    /// Its template can't be entered.
    Barred {
        flaw: Flaw,
    },
    /// Its template is entered, with what its parameters are given.
    Entered {
        template: Shared<Template>,
        given: Offer,
    },
}

/// The shape of a source over what is seen before an operation.
///
/// # Errors
///
/// Only for want of memory.
pub fn shape_of(
    alloc: Global,
    source: &Source,
    templates: &Templates,
    seen: &Seen,
) -> Result<Shape, AllocError>
    requires templates { templates.now ≡ templates_of source.now }
    ensures { IfOk result (λ s. IsShape s (shape_of source.now seen.now)) }
{
    let entry = Entry::Root;
    let count = Count {
        templates: 0,
        members: 0,
    };
    let Some(template) = template_named(source, templates, &source.root) else {
        let name = source.root.try_clone(alloc)?;
        let laid = barred(alloc, entry, Flaw::TemplateMissing { name }, count)?;
        return shape_from(alloc, laid);
    };
    let laying = Laying {
        source,
        templates,
        seen,
    };
    let entering = root_entering(alloc, source, template)?;
    let given = Offer::Pieces {
        pieces: pieces_of(alloc, &source.given)?,
    };
    let laid = lay(alloc, &laying, entering, entry, &given, DEPTH, count)?;
    shape_from(alloc, laid)
}

fn shape_from(alloc: Global, laid: Laid) -> Result<Shape, AllocError>
    ensures { IfOk result (IsShapeFrom laid) }
{
    let Laid {
        turns,
        outputs: _,
        paths: _,
        count,
    } = laid;
    Ok(Shape {
        turns: Turns::new(alloc, turns)?,
        templates: count.templates,
        members: count.members,
    })
}

/// The root template, as it is entered.
fn root_entering(
    alloc: Global,
    source: &Source,
    template: &Shared<Template>,
) -> Result<Entering, AllocError>
    ensures { IfOk result (λ e. entering_in e ≡ root_of source.now template.now) }
{
    Ok(Entering {
        stack: Stack {
            path: Txt::from_str(alloc, "")?,
            name: source.stack.try_clone(alloc)?,
            template: template.try_clone(alloc)?,
        },
        deletion: None,
        replace: None,
        needs: Names::new(alloc),
    })
}

/// A template that is entered: its conditions decided, its order found, then its resources in this order, then what is seen of its
/// outputs. So many stacks may lie below one another in it.
#[cycle(laying)]
fn lay(
    alloc: Global,
    laying: &Laying,
    entering: Entering,
    entry: Entry,
    given: &Offer,
    left: usize,
    count: Count,
) -> Result<Laid, AllocError>
    requires templates { laying.now.templates.now ≡ templates_of laying.now.source.now }
    requires ordered { AreOrdered entering.stack.template.resources }
    requires few { few (count.templates + 1) (count.members + length entering.stack.template.resources) }
    ensures laid { IfOk result (IsLaid laying.now.source.now laying.now.seen.now (kept_entry_in entry) (offer_in given.now) count
        (laid left laying.now.source.now laying.now.seen.now (entering_in entering) (offer_in given.now) (count.templates + 1) (count.members + length entering.stack.template.resources))) }
    ensures few { IfOk result (λ l. few l.count.templates l.count.members) }
{
    let source = laying.source;
    let bound = settings_on(alloc, &entering.stack, given)?;
    let pseudo = pseudo_of(alloc, &entering.stack.name, source.number)?;
    match decide(alloc, &entering.stack, &bound, &pseudo)? {
        Decision::Halted { flaw } => halted(alloc, entry, entering.stack, flaw, count),
        Decision::Opened { conds, order } => {
            let context = PlanContext {
                source,
                stack: &entering.stack,
                bound: &bound,
                conds: &conds,
                pseudo: &pseudo,
            };
            let contents = contents_of(alloc, laying, &entering, &context, &order, left, count)?;
            let turn = Turn::Opened {
                entry,
                stack: entering.stack,
                conds,
                made: contents.made,
            };
            opened(alloc, turn, contents.laid)
        }
    }
}

/// What is in a template: its own logical ids are found first, then its resources come one after another, then what is seen of its
/// outputs. Large values are let go here and not in `lay`, which owns many.
#[cycle(laying)]
fn contents_of(
    alloc: Global,
    laying: &Laying,
    entering: &Entering,
    context: &PlanContext,
    order: &Needs,
    left: usize,
    count: Count,
) -> Result<Contents, AllocError>
    requires templates { laying.now.templates.now ≡ templates_of laying.now.source.now }
    requires ordered { AreOrdered context.now.stack.now.template.resources }
    requires stack { kept_stack_in context.now.stack.now ≡ kept_stack_in entering.now.stack }
    requires source { context.now.source.now ≡ laying.now.source.now }
    requires few { few (count.templates + 1) (count.members + length context.now.stack.now.template.resources) }
    ensures contents { IfOk result (IsContents (kept_stack_in context.now.stack.now) context.now.conds.now (scope_by context.now) (own_in context.now.stack.now.template order.now.entries)
        (fold (step_by (enterable_below left laying.now.source.now laying.now.seen.now) laying.now.source.now laying.now.seen.now (entering_in entering.now) context.now.conds.now (scope_by context.now))
        (none_laid laying.now.seen.now (kept_stack_in context.now.stack.now) context.now.conds.now (own_in context.now.stack.now.template order.now.entries) count.templates count.members) order.now.entries)) }
    ensures few { IfOk result (λ k. few k.laid.count.templates k.laid.count.members) }
{
    let own = own_on(alloc, context.stack, order)?;
    let made = made_on(alloc, context, &own)?;
    let mut so_far = begun(alloc, laying.seen, context.stack, &own, &made, count)?;
    work(alloc, laying, entering, context, order, left, &mut so_far)?;
    let laid = gathered(alloc, context, &own, so_far)?;
    Ok(Contents { made, laid })
}

/// What was laid out along the work of a template, with what is seen of the outputs behind it and with the paths of the template's own resources.
fn gathered(
    alloc: Global,
    context: &PlanContext,
    own: &Names,
    so_far: LaidSoFar,
) -> Result<Laid, AllocError>
    ensures laid { IfOk result (IsLaidAlong (kept_stack_in context.now.stack.now) context.now.conds.now (scope_by context.now) own.now (so_far_in so_far.entry)) }
    ensures count { IfOk result (λ l. l.count ≡ so_far.entry.count) }
{
    let outputs = outputs_behind(alloc, context, &so_far.sights)?;
    let paths = all_paths(alloc, context.stack, own, &so_far.paths)?;
    Ok(Laid {
        turns: so_far.turns,
        outputs,
        paths,
        count: so_far.count,
    })
}

/// A template in which nothing can be done.
fn halted(
    alloc: Global,
    entry: Entry,
    stack: Stack,
    flaw: Flaw,
    count: Count,
) -> Result<Laid, AllocError>
    requires few { few (count.templates + 1) (count.members + length stack.template.resources) }
    ensures laid { IfOk result (λ l. (source : Source) (seen : Seen) (g : Given) → IsLaid source seen (kept_entry_in entry) g count (halted (kept_stack_in stack) flaw) l) }
    ensures few { IfOk result (λ l. few l.count.templates l.count.members) }
{
    let members = count.members + stack.template.resources.len() as u64;
    let mut turns = Listing::new(alloc);
    turns.push(Turn::Halted { entry, stack, flaw })?;
    Ok(Laid {
        turns,
        outputs: ByName::new(alloc),
        paths: Names::new(alloc),
        count: Count {
            templates: count.templates + 1,
            members,
        },
    })
}

/// What is seen of a template's outputs, where this is seen of its resources.
fn outputs_behind(
    alloc: Global,
    context: &PlanContext,
    sights: &Sights,
) -> Result<ByName<OutputSight>, AllocError>
    ensures { IfOk result (λ os. os ≡ by_names (output_sights (kept_stack_in context.now.stack.now) context.now.conds.now (scope_by context.now sights.now))) }
{
    output_sights(
        alloc,
        context.stack,
        context.conds,
        &env_over(context, sights),
    )
}

/// A template of which all has come.
fn opened(alloc: Global, turn: Turn, laid: Laid) -> Result<Laid, AllocError>
    ensures turns { IfOk result (λ l. l.turns ≡ turn ∷ (laid.turns ++ Closed ∷ [])) }
    ensures outputs { IfOk result (λ l. l.outputs ≡ laid.outputs) }
    ensures paths { IfOk result (λ l. l.paths ≡ laid.paths) }
    ensures count { IfOk result (λ l. l.count ≡ laid.count) }
{
    Ok(Laid {
        turns: between(alloc, turn, laid.turns)?,
        outputs: laid.outputs,
        paths: laid.paths,
        count: laid.count,
    })
}

/// Turns between that which opens their template and that which closes it.
fn between(alloc: Global, turn: Turn, inner: Listing<Turn>) -> Result<Listing<Turn>, AllocError>
    ensures { IfOk result (λ turns. turns ≡ turn ∷ (inner ++ Closed ∷ [])) }
{
    let mut turns = Listing::new(alloc);
    turns.push(turn)?;
    turns.append(inner)?;
    turns.push(Turn::Closed)?;
    Ok(turns)
}

/// The logical ids of a template's own resources in the order of work.
fn own_ids(alloc: Global, template: &Template, order: &Needs) -> Result<Names, AllocError>
    requires ordered { AreOrdered template.now.resources }
    ensures { IfOk result (λ ids. ids ≡ own_in template.now order.now.entries) }
{
    let mut own = Names::new(alloc);
    for (id, _) in order.iter() {
        if let Some(resource) = resource_named(template, id.as_str()) {
            if !is_stack(resource) {
                own.push(resource.name.try_clone(alloc)?)?;
            }
        }
    }
    Ok(own)
}

/// The logical ids of the own resources of a stack's template in the order of work.
fn own_on(alloc: Global, stack: &Stack, order: &Needs) -> Result<Names, AllocError>
    requires ordered { AreOrdered stack.now.template.resources }
    ensures { IfOk result (λ ids. ids ≡ own_in stack.now.template order.now.entries) }
{
    own_ids(alloc, &stack.template, order)
}

/// Whether each resource of a stack's template is made, where these are the logical ids of its own that are.
fn made_on(alloc: Global, context: &PlanContext, own: &Names) -> Result<ByName<bool>, AllocError>
    ensures { IfOk result (λ made. made ≡ made_by context.now.conds.now context.now.stack.now.template own.now) }
{
    made_by(alloc, &context.stack.template, context.conds, own)
}

/// What the parameters of a stack's template are bound to.
fn settings_on(alloc: Global, stack: &Stack, given: &Offer) -> Result<Bound, AllocError>
    ensures { IfOk result (λ b. b ≡ settings_by stack.now.template.params (offer_in given.now)) }
{
    settings(alloc, &stack.template.params, given)
}

/// What is known before the first resource of a template comes.
fn begun<'a>(
    alloc: Global,
    seen: &'a Seen,
    stack: &'a Stack,
    own: &Names,
    made: &'a ByName<bool>,
    count: Count,
) -> Result<LaidSoFar<'a>, AllocError>
    requires few { few (count.templates + 1) (count.members + length stack.now.template.resources) }
    ensures { IfOk result (λ c. (conds : Verdicts) → made.now ≡ made_by conds stack.now.template own.now → so_far_in c ≡ none_laid seen.now (kept_stack_in stack.now) conds own.now count.templates count.members) }
{
    Ok(LaidSoFar {
        turns: Listing::new(alloc),
        sights: Sights::new(alloc, made, &stack.path, seen),
        stands: first_stands(alloc, stack, own)?,
        paths: Names::new(alloc),
        count: Count {
            templates: count.templates + 1,
            members: count.members + stack.template.resources.len() as u64,
        },
    })
}

/// The paths that logical ids stand for: that of a resource for its own.
fn first_stands(alloc: Global, stack: &Stack, own: &Names) -> Result<ByName<Names>, AllocError>
    ensures { IfOk result (λ s. s ≡ stands_by (kept_stack_in stack.now) own.now) }
{
    let mut stands = ByName::new(alloc);
    for id in own.as_slice() {
        let mut paths = Names::new(alloc);
        paths.push(path_in(alloc, &stack.path, id.as_str())?)?;
        stands.insert(id.try_clone(alloc)?, paths)?;
    }
    Ok(stands)
}

/// The paths of a template's own resources, and those in its nested stacks.
fn all_paths(alloc: Global, stack: &Stack, own: &Names, below: &Names) -> Result<Names, AllocError>
    ensures { IfOk result (λ ps. ps ≡ map (path_in stack.now.path) own.now ++ below.now) }
{
    let mut paths = Names::new(alloc);
    for id in own.as_slice() {
        paths.push(path_in(alloc, &stack.path, id.as_str())?)?;
    }
    add_all(alloc, &mut paths, below)?;
    Ok(paths)
}

/// Adds paths behind others.
fn add_all(alloc: Global, paths: &mut Names, others: &Names) -> Result<(), AllocError>
    ensures { IfOk result (λ _. paths.new ≡ paths.old ++ others.now) }
{
    for path in others.as_slice() {
        paths.push(path.try_clone(alloc)?)?;
    }
    Ok(())
}

/// Takes the resources of a template one after another.
#[cycle(laying)]
fn work(
    alloc: Global,
    laying: &Laying,
    entering: &Entering,
    context: &PlanContext,
    order: &Needs,
    left: usize,
    so_far: &mut LaidSoFar,
) -> Result<(), AllocError>
    requires templates { laying.now.templates.now ≡ templates_of laying.now.source.now }
    requires ordered { AreOrdered entering.now.stack.template.resources }
    requires stack { kept_stack_in context.now.stack.now ≡ kept_stack_in entering.now.stack }
    requires source { context.now.source.now ≡ laying.now.source.now }
    requires few { few so_far.old.count.templates so_far.old.count.members }
    ensures so_far { IfOk result (λ _. so_far_in so_far.new ≡ fold (step_by (enterable_below left laying.now.source.now laying.now.seen.now) laying.now.source.now laying.now.seen.now (entering_in entering.now) context.now.conds.now (scope_by context.now)) (so_far_in so_far.old) order.now.entries) }
    ensures few { IfOk result (λ _. few so_far.new.count.templates so_far.new.count.members) }
{
    for (id, ids) in order.iter() {
        step(alloc, laying, entering, context, (id, ids), left, so_far)?;
    }
    Ok(())
}

/// Takes one resource of a template, with the logical ids that it needs.
#[cycle(laying)]
fn step(
    alloc: Global,
    laying: &Laying,
    entering: &Entering,
    context: &PlanContext,
    row: (&Txt, &Names),
    left: usize,
    so_far: &mut LaidSoFar,
) -> Result<(), AllocError>
    requires templates { laying.now.templates.now ≡ templates_of laying.now.source.now }
    requires ordered { AreOrdered entering.now.stack.template.resources }
    requires stack { kept_stack_in context.now.stack.now ≡ kept_stack_in entering.now.stack }
    requires source { context.now.source.now ≡ laying.now.source.now }
    requires few { few so_far.old.count.templates so_far.old.count.members }
    ensures so_far { IfOk result (λ _. so_far_in so_far.new ≡ step_by (enterable_below left laying.now.source.now laying.now.seen.now) laying.now.source.now laying.now.seen.now (entering_in entering.now) context.now.conds.now (scope_by context.now) (so_far_in so_far.old) (row.entry.0.now, row.entry.1.now)) }
    ensures few { IfOk result (λ _. few so_far.new.count.templates so_far.new.count.members) }
{
    let (id, ids) = row;
    match shared_res(alloc, &entering.stack.template, id.as_str())? {
        Some(resource) => {
            if is_stack(&resource) {
                nest(
                    alloc, laying, entering, context, resource, ids, left, so_far,
                )
            } else {
                add_member(alloc, entering, context.conds, resource, ids, so_far)
            }
        }
        None => Ok(()),
    }
}

/// Adds one more resource.
fn add_member(
    alloc: Global,
    entering: &Entering,
    conds: &CondMap,
    resource: SharedRes,
    ids: &Names,
    so_far: &mut LaidSoFar,
) -> Result<(), AllocError>
    ensures so_far { IfOk result (λ _. so_far_in so_far.new ≡ with_member (entering_in entering.now) conds.now (so_far_in so_far.old) ids.now resource) }
    ensures count { IfOk result (λ _. so_far.new.count ≡ so_far.old.count) }
{
    let member = member_by(alloc, entering, conds, &so_far.stands, resource, ids)?;
    so_far.turns.push(Turn::Resource { member })
}

/// Lays out a nested stack.
#[cycle(laying)]
#[tactic(auto, using(crate::proofs::LaidOut::way_fits, crate::proofs::LaidOut::way_laid, crate::proofs::LaidOut::nested_so))]
fn nest(
    alloc: Global,
    laying: &Laying,
    entering: &Entering,
    context: &PlanContext,
    resource: SharedRes,
    ids: &Names,
    left: usize,
    so_far: &mut LaidSoFar,
) -> Result<(), AllocError>
    requires templates { laying.now.templates.now ≡ templates_of laying.now.source.now }
    requires stack { kept_stack_in context.now.stack.now ≡ kept_stack_in entering.now.stack }
    requires source { context.now.source.now ≡ laying.now.source.now }
    requires few { few so_far.old.count.templates so_far.old.count.members }
    ensures so_far { IfOk result (λ _. so_far_in so_far.new ≡ with_nested (enterable_below left laying.now.source.now laying.now.seen.now) laying.now.source.now laying.now.seen.now (entering_in entering.now) context.now.conds.now (scope_by context.now) (so_far_in so_far.old) ids.now resource) }
    ensures few { IfOk result (λ _. few so_far.new.count.templates so_far.new.count.members) }
{
    let nesting = nesting_by(alloc, entering, &so_far.stands, &resource, ids)?;
    let inner = Inner {
        nesting: nesting.try_clone(alloc)?,
        resource,
    };
    let unnamed = unnamed(alloc, &entering.stack, context.conds, &inner.resource)?;
    let env = env_over(context, &so_far.sights);
    let way = way_into(alloc, laying, &env, &inner, unnamed, left, so_far.count)?;
    let laid = within(alloc, laying, entering, inner, way, left, so_far.count)?;
    join(alloc, laying.source, &nesting, laid, so_far)
}

/// Adds a nested stack that was laid out.
fn join(
    alloc: Global,
    source: &Source,
    nesting: &Nesting,
    laid: Laid,
    so_far: &mut LaidSoFar,
) -> Result<(), AllocError>
    ensures { IfOk result (λ _. IsJoined source.now (nesting_in nesting.now) laid so_far.old so_far.new) }
{
    let mut paths = laid.paths;
    add_all(alloc, &mut paths, &nesting.needs)?;
    add_all(alloc, &mut so_far.paths, &paths)?;
    so_far.turns.append(laid.turns)?;
    add_nested(alloc, source, nesting, laid.outputs, &mut so_far.sights)?;
    so_far.stands.insert(nesting.id.try_clone(alloc)?, paths)?;
    so_far.count = laid.count;
    Ok(())
}

/// What becomes of a nested stack: its condition counts first, then the properties that it may have, then its template's name, then
/// the limits.
fn way_into(
    alloc: Global,
    laying: &Laying,
    env: &Env,
    inner: &Inner,
    unnamed: Option<Flaw>,
    left: usize,
    count: Count,
) -> Result<Way, AllocError>
    requires templates { laying.now.templates.now ≡ templates_of laying.now.source.now }
    requires few { few count.templates count.members }
    ensures { IfOk result (λ w. way_in w ≡ way_by left laying.now.source.now env.now.stack.now (scope_in env.now) count.templates count.members inner.now.nesting.path inner.now.resource unnamed) }
{
    if let Some(flaw) = unnamed {
        return Ok(Way::Shut { flaw });
    }
    let path = &inner.nesting.path;
    if !has_shape(&inner.resource) {
        let path = path.try_clone(alloc)?;
        return Ok(Way::Shut {
            flaw: Flaw::Shape { path },
        });
    }
    match template_name_wanted(alloc, &inner.resource, path, env)? {
        TemplateName::Named { name } => way_by_name(alloc, laying, env, inner, &name, left, count),
        TemplateName::Flawed { flaw } => Ok(Way::Barred { flaw }),
    }
}

/// What becomes of a nested stack whose template has this name.
fn way_by_name(
    alloc: Global,
    laying: &Laying,
    env: &Env,
    inner: &Inner,
    name: &Txt,
    left: usize,
    count: Count,
) -> Result<Way, AllocError>
    requires templates { laying.now.templates.now ≡ templates_of laying.now.source.now }
    requires few { few count.templates count.members }
    ensures { IfOk result (λ w. way_in w ≡ entered_way (given_in (scope_in env.now) (value_at (codes "Parameters") inner.now.resource.props)) (entered_by left inner.now.nesting.path name.now count.templates count.members (template_named name.now laying.now.source.now))) }
{
    match enterable(alloc, laying, &inner.nesting.path, name, left, count)? {
        Ok(template) => {
            let offered = offered_to(alloc, &inner.resource, env)?;
            Ok(Way::Entered {
                template,
                given: offered.given,
            })
        }
        Err(flaw) => Ok(Way::Barred { flaw }),
    }
}

/// How the template of a nested stack comes to be entered.
fn entry_of(inner: Inner) -> Entry
    ensures { kept_entry_in result ≡ through (nesting_in inner.nesting) (value_at (codes "Parameters") inner.resource.props) }
{
    Entry::Nested {
        nesting: inner.nesting,
        resource: inner.resource,
    }
}

/// A nested stack whose stack resource has a flaw.
fn shut(alloc: Global, nesting: Nesting, flaw: Flaw, count: Count) -> Result<Laid, AllocError>
    ensures laid { IfOk result (λ l. (source : Source) (seen : Seen) (s : Scope) → IsWithin source seen s (nesting_in nesting) count (shut flaw) l) }
    ensures count { IfOk result (λ l. l.count ≡ count) }
{
    let mut turns = Listing::new(alloc);
    turns.push(Turn::Shut { nesting, flaw })?;
    Ok(nothing_laid(alloc, turns, count))
}

/// A template that can't be entered.
fn barred(alloc: Global, entry: Entry, flaw: Flaw, count: Count) -> Result<Laid, AllocError>
    ensures laid { IfOk result (λ l. (source : Source) (seen : Seen) (g : Given) → IsLaid source seen (kept_entry_in entry) g count (barred flaw) l) }
    ensures count { IfOk result (λ l. l.count ≡ count) }
{
    let mut turns = Listing::new(alloc);
    turns.push(Turn::Barred { entry, flaw })?;
    Ok(nothing_laid(alloc, turns, count))
}

/// Turns with which no template was opened.
fn nothing_laid(alloc: Global, turns: Listing<Turn>, count: Count) -> Laid
    ensures turns { result.turns ≡ turns }
    ensures outputs { result.outputs ≡ [] }
    ensures paths { result.paths ≡ [] }
    ensures count { result.count ≡ count }
{
    Laid {
        turns,
        outputs: ByName::new(alloc),
        paths: Names::new(alloc),
        count,
    }
}

/// What is in a nested stack.
#[cycle(laying)]
fn within(
    alloc: Global,
    laying: &Laying,
    entering: &Entering,
    inner: Inner,
    way: Way,
    left: usize,
    count: Count,
) -> Result<Laid, AllocError>
    requires templates { laying.now.templates.now ≡ templates_of laying.now.source.now }
    requires few { few count.templates count.members }
    requires fits { IsWay left count.templates count.members (way_in way) }
    ensures laid { IfOk result (λ l. (s : Scope) → WayLaid laying.now.source.now laying.now.seen.now s (entering_in entering.now) (nesting_in inner.nesting) (value_at (codes "Parameters") inner.resource.props) inner.resource left count (way_in way) l) }
    ensures few { IfOk result (λ l. few l.count.templates l.count.members) }
{
    match way {
        Way::Shut { flaw } => shut(alloc, inner.nesting, flaw, count),
        Way::Barred { flaw } => barred(alloc, entry_of(inner), flaw, count),
        Way::Entered { template, given } => {
            let below = entering_below(alloc, entering, &inner, template)?;
            lay(
                alloc,
                laying,
                below,
                entry_of(inner),
                &given,
                left - 1,
                count,
            )
        }
    }
}

/// The template of a name, or the limit that keeps from entering it, or that it is not there.
fn enterable(
    alloc: Global,
    laying: &Laying,
    path: &Txt,
    name: &Txt,
    left: usize,
    count: Count,
) -> Result<Result<Shared<Template>, Flaw>, AllocError>
    requires templates { laying.now.templates.now ≡ templates_of laying.now.source.now }
    requires few { few count.templates count.members }
    ensures { IfOk result (λ r. r ≡ entered_by left path.now name.now count.templates count.members (template_named name.now laying.now.source.now)) }
{
    if left == 0 {
        let path = path.try_clone(alloc)?;
        return Ok(Err(Flaw::TooDeep { path }));
    }
    let templates = count.templates + 1;
    if templates > TEMPLATES {
        return Ok(Err(Flaw::TooMany { count: templates }));
    }
    let Some(template) = template_named(laying.source, laying.templates, name) else {
        let name = name.try_clone(alloc)?;
        return Ok(Err(Flaw::TemplateMissing { name }));
    };
    let members = count.members + template.resources.len() as u64;
    if members > MEMBERS {
        return Ok(Err(Flaw::TooMany { count: members }));
    }
    Ok(Ok(template.try_clone(alloc)?))
}

/// The template of a nested stack, as it is entered.
fn entering_below(
    alloc: Global,
    entering: &Entering,
    inner: &Inner,
    template: Shared<Template>,
) -> Result<Entering, AllocError>
    ensures { IfOk result (λ e. entering_in e ≡ entering_below (entering_in entering.now) (nesting_in inner.now.nesting) inner.now.resource template) }
{
    let nesting = &inner.nesting;
    Ok(Entering {
        stack: Stack {
            path: nesting.path.try_clone(alloc)?,
            name: nesting.name.try_clone(alloc)?,
            template,
        },
        deletion: inner.resource.deletion.or(entering.deletion),
        replace: inner.resource.replace.or(entering.replace),
        needs: nesting.needs.try_clone(alloc)?,
    })
}
