//! What the worlds of the tests of rooms are made from, and what is told of them in a line.
use cf_entry::{Begun, Cause, Entry, LaneNames, Phase, Reason};
use cf_stacks::{Held, HeldStatus, StackState, World};
use cf_tree::{Bytes, Code, Deletion, Pairs, Source, Texts, Txt, Val};
use std::alloc::{AllocError, Global};

pub const FILE: &str = "Local::Files::File";

pub const RECORD: &str = "Local::Records::Record";

pub fn text(alloc: Global, text: &str) -> Result<Txt, AllocError> {
    Txt::from_str(alloc, text)
}

fn two_texts(alloc: Global, one: &str, two: &str) -> Result<(Txt, Txt), AllocError> {
    let one = text(alloc, one)?;
    let two = text(alloc, two)?;
    Ok((one, two))
}

fn add_lanes(alloc: Global, lanes: &mut LaneNames) -> Result<(), AllocError> {
    for (name, kind) in [("f1", FILE), ("r1", RECORD)] {
        lanes.push(two_texts(alloc, name, kind)?)?;
    }
    Ok(())
}

/// The lanes `f1` of files and `r1` of records are opened.
pub fn opened(alloc: Global) -> Result<Entry, AllocError> {
    let mut lanes = LaneNames::new(alloc);
    match add_lanes(alloc, &mut lanes) {
        Ok(()) => Ok(Entry::Opened { epoch: 1, lanes }),
        Err(failed) => {
            drop(lanes);
            Err(failed)
        }
    }
}

fn add_template(alloc: Global, texts: &mut Texts, template: &str) -> Result<(), AllocError> {
    let name = text(alloc, "one")?;
    match Vec::from_slice(alloc, template.as_bytes()) {
        Ok(bytes) => texts.insert(name, Bytes::from_vec(bytes)),
        Err(failed) => {
            drop(name);
            Err(failed)
        }
    }
}

fn texts(alloc: Global, template: &str) -> Result<Texts, AllocError> {
    let mut texts = Texts::new(alloc);
    match add_template(alloc, &mut texts, template) {
        Ok(()) => Ok(texts),
        Err(failed) => {
            drop(texts);
            Err(failed)
        }
    }
}

/// The creation of `s` begins from a template, as operation 1.
pub fn begun(alloc: Global, template: &str) -> Result<Entry, AllocError> {
    let texts = texts(alloc, template)?;
    match two_texts(alloc, "s", "one") {
        Ok((stack, root)) => Ok(Entry::Begin {
            number: 1,
            stack,
            kind: Begun::Create {
                source: Source {
                    root,
                    texts,
                    given: Pairs::new(alloc),
                    imports: Pairs::new(alloc),
                    stack: Txt::new(String::new(alloc)),
                    number: 0,
                },
            },
        }),
        Err(failed) => {
            drop(texts);
            Err(failed)
        }
    }
}

/// The creation turns back, since its call at a path was refused.
pub fn turned(alloc: Global, path: &str) -> Result<Entry, AllocError> {
    let path = text(alloc, path)?;
    let reason = Reason::Code(Code::AccessDenied);
    Ok(Entry::Phase {
        number: 1,
        phase: Phase::Back,
        cause: Some(Cause::Handler { path, reason }),
    })
}

/// What is asked of a world: what the stack `s` is, what all stacks share, the lines of `events` of `s`, or the attribute
/// `Color` of the resource that `s` made last.
#[derive(Clone, Copy)]
pub enum Asked {
    Stack,
    Shared,
    Events,
    Color,
}

pub fn line_in(alloc: Global, world: &World, asked: Asked) -> Result<String, AllocError> {
    if let Asked::Shared = asked {
        return shared(alloc, world);
    }
    match world.stack("s") {
        Some(stack) => line_of(alloc, stack, asked),
        None => String::from_str(alloc, "no stack"),
    }
}

fn line_of(alloc: Global, stack: &StackState, asked: Asked) -> Result<String, AllocError> {
    match asked {
        Asked::Events => events(alloc, stack),
        Asked::Color => color(alloc, stack),
        _ => shown(alloc, stack),
    }
}

/// The numbers of a world, and how many pins, claims and exports there are.
fn shared(alloc: Global, world: &World) -> Result<String, AllocError> {
    let epoch = world.epoch();
    let operation = world.operation();
    let token = world.token();
    let pins = world.pins().len();
    let claims = world.claims().len();
    let exports = world.exports().len();
    format!(in alloc; "{epoch} {operation} {token} {pins} {claims} {exports}")
}

fn events(alloc: Global, stack: &StackState) -> Result<String, AllocError> {
    let mut line = String::new(alloc);
    for event in stack.events().as_slice() {
        line.push_str("|")?;
        line.push_str(event.as_str())?;
    }
    Ok(line)
}

fn color(alloc: Global, stack: &StackState) -> Result<String, AllocError> {
    match stack.made().as_slice().last() {
        Some(held) => color_of(alloc, held),
        None => String::from_str(alloc, "nothing"),
    }
}

fn color_of(alloc: Global, held: &Held) -> Result<String, AllocError> {
    match held.attrs.get("Color") {
        Some(Val::Text(color)) => String::from_str(alloc, color.as_str()),
        _ => String::from_str(alloc, "none"),
    }
}

/// The status, how many resources are held, calls open and outputs told, and each resource that was made.
fn shown(alloc: Global, stack: &StackState) -> Result<String, AllocError> {
    let status = stack.status().name();
    let held = stack.held().len();
    let open = stack.tokens().len();
    let outputs = stack.outputs().len();
    let mut line = format!(in alloc; "{status} {held} {open} {outputs}")?;
    for held in stack.made().as_slice() {
        add_made(alloc, &mut line, held)?;
    }
    Ok(line)
}

/// Adds a resource that was made: its path, its id, its status, its policy, how many it needs, and whether it is superseded.
fn add_made(alloc: Global, line: &mut String, held: &Held) -> Result<(), AllocError> {
    let path = held.path.as_str();
    let physical = held.physical.as_str();
    let status = status_name(held.status);
    let policy = policy_name(held.deletion);
    let needs = held.needs.len();
    let superseded = if held.superseded { " superseded" } else { "" };
    let made = format!(in alloc; "; {path} {physical} {status} {policy} {needs}{superseded}")?;
    line.push_str(made.as_str())
}

fn status_name(status: HeldStatus) -> &'static str {
    match status {
        HeldStatus::CreateComplete => "CREATE_COMPLETE",
        HeldStatus::UpdateComplete => "UPDATE_COMPLETE",
        HeldStatus::UpdateFailed => "UPDATE_FAILED",
        HeldStatus::DeleteFailed => "DELETE_FAILED",
    }
}

fn policy_name(deletion: Deletion) -> &'static str {
    match deletion {
        Deletion::Delete => "Delete",
        Deletion::Retain => "Retain",
        Deletion::RetainExceptOnCreate => "RetainExceptOnCreate",
    }
}
