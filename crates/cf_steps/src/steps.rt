//! What comes next in an operation, and what is due.
ghost use Rattle.std.specs.Prelude.{◌≡◌, ◌↔◌, IsTrue, Some};
ghost use Rattle.cf_effect.specs.Status.{Stage, stage_of};
ghost use Rattle.cf_next.specs.Chosen.{IsInProgress};

use crate::library::Library;
use crate::line::Line;
use crate::spelled::{add_kept, add_names, add_request, add_turn};
use crate::words::Words;
use cf_entry::Status;
use cf_next::{Home, Homes, Next, NextFault, due, next, schemas_of};
use cf_schema::Schemas;
use cf_stacks::{StackState, World};
use cf_tree::{Request, Txt};

/// The tokens that are left of a line.
fn tokens_of(words: &mut Words) -> Vec<u64> {
    let mut tokens = Vec::new(words.memory.alloc);
    for _ in 0..words.rest.len() {
        if words.rest.is_empty() {
            break;
        }
        let token = words.number();
        if tokens.push(token).is_err() {
            words.memory.lose();
        }
    }
    tokens
}

/// Which of the tokens is out on a lane: it is open there in a stack.
fn lease_in(stack: &StackState, lane: &Txt, out: &[u64]) -> Option<u64> {
    for pending in stack.tokens().as_slice() {
        if pending.lane == *lane && out.contains(&pending.token) {
            return Some(pending.token);
        }
    }
    None
}

/// The same in any stack.
fn lease_on(world: &World, lane: &Txt, out: &[u64]) -> Option<u64> {
    for stack in world.stacks().as_slice() {
        let lease = lease_in(&stack.1, lane, out);
        if lease.is_some() {
            return lease;
        }
    }
    None
}

/// The lanes of the last opening, of which those of these tokens are out.
fn homes_of(words: &mut Words, library: &Library, world: &World, out: &[u64]) -> Homes {
    let mut homes = Homes::new(words.memory.alloc);
    for lane in world.lanes().as_slice() {
        let home = Home {
            name: words.memory.text(lane.0.as_str()),
            schema: library.schema_of(words, lane.1.as_str()),
            out: lease_on(world, &lane.0, out),
        };
        if homes.push(home).is_err() {
            words.memory.lose();
        }
    }
    homes
}

/// The schemas of the lanes of the last opening.
pub fn schemas_in(words: &mut Words, library: &Library, world: &World) -> Schemas {
    let homes = homes_of(words, library, world, &[]);
    let schemas = schemas_of(words.memory.alloc, &homes);
    drop(homes);
    match schemas {
        Ok(schemas) => schemas,
        Err(_) => {
            words.memory.lose();
            Schemas::new(words.memory.alloc)
        }
    }
}

/// Adds a call as `TOKEN LANE PATH REQUEST`. A lane that is not chosen yet is told as `-`.
fn add_call(
    line: &mut Line,
    library: &Library,
    token: u64,
    lane: &str,
    path: &str,
    request: &Request,
) {
    line.number(token);
    line.word(if lane.is_empty() { "-" } else { lane });
    line.word(path);
    add_request(line, library.kind_of(lane), request);
}

/// Adds a step, as the entry that it writes.
fn add_step(line: &mut Line, library: &Library, next: &Next) {
    match next {
        Next::Step {
            path,
            lane,
            token,
            request,
            repeated,
        } => {
            line.word(if *repeated { "again" } else { "ask" });
            add_call(line, library, *token, lane.as_str(), path.as_str(), request);
        }
        Next::Keep {
            path,
            physical,
            why,
        } => add_kept(line, path.as_str(), physical.as_str(), *why),
        Next::Turn { phase, cause } => add_turn(line, *phase, cause.as_ref()),
        Next::End { status, failed } => {
            line.word("done");
            line.word(status.name());
            add_names(line, failed);
        }
        Next::Wait => line.word("wait"),
    }
}

/// The step that comes next in an operation, while the calls of these tokens are out.
fn add_next(
    line: &mut Line,
    words: &mut Words,
    library: &Library,
    world: &mut World,
    number: u64,
    out: &[u64],
)
    requires { IsInProgress world.old.world number }
{
    let homes = homes_of(words, library, world, out);
    match next(line.alloc, world, number, &homes) {
        Ok(step) => {
            add_step(line, library, &step);
            drop(step);
        }
        Err(NextFault::NoStep) => line.word("no step"),
        Err(NextFault::NoMemory) => line.lose(),
    }
    drop(homes);
}

/// All steps that are due in an operation, while the calls of these tokens are out.
fn add_due(
    line: &mut Line,
    words: &mut Words,
    library: &Library,
    world: &mut World,
    number: u64,
    out: &[u64],
)
    requires { IsInProgress world.old.world number }
{
    let schemas = schemas_in(words, library, world);
    match due(line.alloc, world, number, out, &schemas) {
        Ok(dues) => {
            for step in dues.as_slice() {
                line.member();
                add_step(line, library, step);
            }
            drop(dues);
        }
        Err(_) => line.lose(),
    }
    drop(schemas);
}

/// Whether an operation is in progress on a stack.
fn goes_on(stack: &StackState) -> bool
    ensures { IsTrue result ↔ ((stage : Stage) × (stage_of stack.now.stack.status ≡ Some stage)) }
{
    matches!(
        stack.status(),
        Status::CreateInProgress
            | Status::UpdateInProgress
            | Status::UpdateCompleteCleanupInProgress
            | Status::RollbackInProgress
            | Status::UpdateRollbackInProgress
            | Status::UpdateRollbackCompleteCleanupInProgress
            | Status::DeleteInProgress
    )
}

/// Whether the operation of a number is in progress.
fn is_in_progress(world: &World, number: u64) -> bool
    ensures { IsTrue result ↔ IsInProgress world.now.world number }
{
    match world.stack_of_operation(number) {
        Some(going) => goes_on(&going.1),
        None => false,
    }
}

/// The step that comes next in an operation, while the calls of these tokens are out; or all steps that are due.
pub fn add_coming(
    line: &mut Line,
    words: &mut Words,
    library: &Library,
    world: &mut World,
    word: &str,
    number: u64,
) {
    if words.rest.starts_with("out ") {
        words.word();
    }
    let out = tokens_of(words);
    if !is_in_progress(world, number) {
        line.word("not in progress");
    } else if word == "next" {
        add_next(line, words, library, world, number, out.as_slice());
    } else {
        add_due(line, words, library, world, number, out.as_slice());
    }
}
