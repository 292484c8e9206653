//! What a template wants of each path.
//!
//! The answer is one line of parts between `; `. The first one says how the plan stands:
//!
//! - `whole` where each part is known;
//! - `open` where some part rests on what is not known yet, which is written `?`;
//! - `refused` where there is a flaw; the plan tells what it can all the same.
//!
//! The resources follow in the order of work, each with its type, its policies, what it needs and its properties; the
//! outputs, and behind `as` the names that they are exported by; the exports with their values, and then all their names;
//! each nested stack by the path of its stack resource, with what that needs and why its parameters can't be bound; the
//! outputs that are not made; and the flaws in the order in which they are met. A resource, an output or a nested stack at
//! fault tells its flaw by its number.
use crate::pieces::cut;
use crate::scene::{Scene, scene_of};
use crate::told::Told;
use crate::wanted::{push_plan, push_stack, push_terms, push_whole};
use cf_desired::{
    Desired, DesiredFault, Flaw, Inner, Plan, Terms, WholePlan, desired, export_names, plan,
    plan_text, shape_of, templates_of, terms_at, whole,
};
use cf_eval::EvalFault;
use cf_rows::Memory;
use cf_tree::{Names, Txt};
use std::alloc::{AllocError, Global};

/// What a template wants of each path, over what words say.
pub fn plan_line(told: &mut Told, template: &str, words: &str) {
    let scene = scene_of(&mut told.memory, template, words);
    let flaw = flaw_over(&mut told.memory, &scene);
    match plan_over(told.memory.alloc, &scene) {
        Ok(plan) => {
            told_over(told, &plan, flaw.as_ref());
            drop(plan);
        }
        Err(_) => told.memory.lose(),
    }
    drop(flaw);
    drop(scene);
}

/// The plan of a template.
fn plan_over(alloc: Global, scene: &Scene) -> Result<Plan, AllocError> {
    let templates = templates_of(alloc, &scene.source)?;
    let plan = plan(alloc, &scene.source, &templates, &scene.seen);
    drop(templates);
    plan
}

/// The first flaw of a template, over what words say, where it has one and memory was there.
pub fn first_flaw(memory: &mut Memory, template: &str, words: &str) -> Option<Flaw> {
    let scene = scene_of(memory, template, words);
    let flaw = flaw_over(memory, &scene);
    drop(scene);
    flaw
}

fn flaw_over(memory: &mut Memory, scene: &Scene) -> Option<Flaw> {
    match templates_of(memory.alloc, &scene.source) {
        Ok(templates) => {
            let flaw = flaw_in(desired(memory.alloc, &scene.source, &templates, &scene.seen));
            drop(templates);
            flaw
        }
        Err(_) => {
            memory.lose();
            None
        }
    }
}

fn flaw_in(desired: Result<Desired, DesiredFault>) -> Option<Flaw> {
    match desired {
        Ok(desired) => {
            drop(desired);
            None
        }
        Err(fault) => flaw_of(fault),
    }
}

/// What a template says of a path besides its properties. The path stands before the template.
pub fn terms_line(told: &mut Told, text: &str, words: &str) {
    let (path, template) = cut(text);
    let path = told.memory.text(path);
    let scene = scene_of(&mut told.memory, template, words);
    let terms = terms_over(told.memory.alloc, &scene, &path);
    told_terms(told, terms);
    drop(scene);
    drop(path);
}

/// What the shape of a template has at a path.
fn terms_over(alloc: Global, scene: &Scene, path: &Txt) -> Result<Option<Terms>, AllocError> {
    let templates = templates_of(alloc, &scene.source)?;
    let terms = match shape_of(alloc, &scene.source, &templates, &scene.seen) {
        Ok(shape) => {
            let terms = terms_at(alloc, &shape, path);
            drop(shape);
            terms
        }
        Err(failed) => Err(failed),
    };
    drop(templates);
    terms
}

fn told_terms(told: &mut Told, terms: Result<Option<Terms>, AllocError>) {
    match terms {
        Ok(Some(terms)) => {
            push_terms(told, &terms);
            drop(terms);
        }
        Ok(None) => told.put("nothing"),
        Err(_) => told.memory.lose(),
    }
}

fn told_over(told: &mut Told, plan: &Plan, flaw: Option<&Flaw>) {
    match flaw {
        Some(flaw) => {
            refusal(told, plan, flaw);
            push_plan(told, plan);
        }
        None => wholeness(told, plan),
    }
    add_exports(told, plan);
    add_stacks(told, plan.flaws.as_slice(), plan.nested.as_slice());
    add_list(told, "; unmade ", &plan.unmade);
    add_flaws(told, plan);
}

/// Whether a plan is known as a whole, and its parts.
fn wholeness(told: &mut Told, plan: &Plan) {
    match whole(told.memory.alloc, plan) {
        Ok(Some(whole)) => {
            told.put("whole");
            push_plan(told, plan);
            compare(told, &whole);
            drop(whole);
        }
        Ok(None) => {
            told.put("open");
            push_plan(told, plan);
        }
        Err(_) => told.memory.lose(),
    }
}

/// Adds what is known as a whole, where it is something else than what is told.
fn compare(told: &mut Told, whole: &WholePlan) {
    let mut known = Told::new(told.memory.alloc);
    known.put("whole");
    push_whole(&mut known, whole);
    if known.text.as_str() != told.text.as_str() {
        told.put("; but ");
        told.put(known.text.as_str());
    }
    told.memory.note(known.memory.end().is_err());
    drop(known);
}

/// Why nothing is desired: the first flaw of the plan, or else it is told.
fn refusal(told: &mut Told, plan: &Plan, flaw: &Flaw) {
    told.put("refused");
    match plan.flaws.as_slice().first() {
        Some(first) if *first == *flaw => {}
        _ => {
            told.put(" by ");
            push_flaw(told, flaw);
        }
    }
}

/// Adds a flaw by its name and fields.
pub fn push_flaw(told: &mut Told, flaw: &Flaw) {
    match plan_text(told.memory.alloc, flaw) {
        Ok(text) => {
            told.put(text.as_str());
            drop(text);
        }
        Err(_) => told.memory.lose(),
    }
}

/// A refusal as a flaw, but for want of memory.
pub fn flaw_of(fault: DesiredFault) -> Option<Flaw> {
    match fault {
        DesiredFault::Bind { at, fault } => Some(Flaw::Bind { at, fault }),
        DesiredFault::Eval {
            fault: EvalFault::Bad { why, stack, at },
        } => Some(Flaw::Eval { why, stack, at }),
        DesiredFault::Graph { at, fault } => Some(Flaw::Graph { at, fault }),
        DesiredFault::Shape { path } => Some(Flaw::Shape { path }),
        DesiredFault::TemplateMissing { name } => Some(Flaw::TemplateMissing { name }),
        DesiredFault::TooDeep { path } => Some(Flaw::TooDeep { path }),
        DesiredFault::TooMany { count } => Some(Flaw::TooMany { count }),
        DesiredFault::DynamicCondition { path, name } => {
            Some(Flaw::DynamicCondition { path, name })
        }
        DesiredFault::DynamicTemplate { path } => Some(Flaw::DynamicTemplate { path }),
        DesiredFault::Eval {
            fault: EvalFault::NoMemory,
        }
        | DesiredFault::NoMemory => None,
    }
}

/// Adds the names of exports.
fn add_exports(told: &mut Told, plan: &Plan) {
    match export_names(told.memory.alloc, plan) {
        Ok(exports) => {
            add_list(told, "; exports ", &exports);
            drop(exports);
        }
        Err(_) => told.memory.lose(),
    }
}

/// Adds the nested stacks.
fn add_stacks(told: &mut Told, flaws: &[Flaw], nested: &[Inner]) {
    for inner in nested {
        push_stack(told, flaws, inner);
    }
}

/// Adds a list of names behind its head, if it has any.
fn add_list(told: &mut Told, head: &str, names: &Names) {
    if !names.is_empty() {
        told.put(head);
        told.names(names.as_slice());
    }
}

fn add_flaws(told: &mut Told, plan: &Plan) {
    for (before, flaw) in plan.flaws.as_slice().iter().enumerate() {
        told.put("; flaw");
        told.number_word((before as u64).saturating_add(1));
        told.put(" ");
        push_flaw(told, flaw);
    }
}
