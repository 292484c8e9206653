//! What is done in the forward phase of an operation, what may begin and what has failed.
ghost use Rattle.std.specs.Prelude.{◌≡◌};
ghost use Rattle.cf_plan.specs.Forward.{plan_before, plan_now};
ghost use Rattle.cf_plan.specs.Done.{AreDone};

use crate::line::Line;
use crate::spelled::{add_cause, add_names, add_props, add_request, reason_word};
use cf_desired::{Flaw, Plan, plan_text};
use cf_plan::{
    Failure, Found, Wants, done_paths, failed_paths, failure_of, finding_at, first_failing,
    is_held_right, path_of_token, plan_before, plan_now, starts_of, wants_at,
};
use cf_schema::Schemas;
use cf_stacks::{StackState, World};
use cf_tree::{Names, Request, Txt};

/// A question about a phase.
#[derive(Clone, Copy)]
pub struct Question<'a> {
    pub word: &'a str,
    /// The path that is asked about, where the question has one.
    pub path: &'a Txt,
    /// The name of the operation's stack.
    pub name: &'a Txt,
    pub world: &'a World,
    pub schemas: &'a Schemas,
}

/// Adds the request that a path may begin with, where there is one.
fn add_start(line: &mut Line, path: &Txt, request: &Option<Request>) {
    if let Some(request) = request {
        line.member();
        line.word(path.as_str());
        add_request(line, "", request);
    }
}

/// Adds the requests of a path.
fn add_wants(line: &mut Line, path: &Txt, wants: &Wants) {
    add_start(line, path, &wants.create);
    add_start(line, path, &wants.update);
}

/// Adds whether the phase has failed, and why.
fn add_failure(line: &mut Line, failure: &Failure) {
    match failure {
        Failure::Nothing => line.word("nothing"),
        Failure::Because { cause } => add_cause(line, cause),
    }
}

/// Adds how a flaw is told.
pub fn add_flaw(line: &mut Line, flaw: &Flaw) {
    match plan_text(line.alloc, flaw) {
        Ok(text) => line.word(text.as_str()),
        Err(_) => line.lose(),
    }
}

/// Adds what properties come to.
fn add_found(line: &mut Line, found: &Found) {
    match found {
        Found::Bad { flaw } => {
            line.word("bad");
            add_flaw(line, flaw);
        }
        Found::Later => line.word("later"),
        Found::Known { kind, props } => {
            line.word(kind.as_str());
            add_props(line, props);
        }
    }
}

/// Adds the path of the first call that fails the phase of a stack, and why.
fn add_failing(line: &mut Line, schemas: &Schemas, stack: &StackState) {
    if let Some((token, reason)) = first_failing(schemas, stack) {
        match path_of_token(stack, token) {
            Some(path) => line.word(path.as_str()),
            None => line.word("no path"),
        }
        line.word(reason_word(reason));
    }
}

/// Adds the paths that failed in the operation of a stack.
fn add_blamed(line: &mut Line, stack: &StackState) {
    match failed_paths(line.alloc, stack) {
        Ok(failed) => add_names(line, &failed),
        Err(_) => line.lose(),
    }
}

/// Adds what is asked of the paths that are done, by the plans of a phase.
fn add_by_done(
    line: &mut Line,
    asked: &Question,
    stack: &StackState,
    before: &Plan,
    now: &Plan,
    done: &Names,
)
    requires before { before.now ≡ plan_before stack.now.stack }
    requires now { now.now ≡ plan_now stack.now.stack }
    requires done { AreDone stack.now.stack done.now }
{
    match asked.word {
        "done" => add_names(line, done),
        "starts" => match starts_of(line.alloc, asked.schemas, stack, before, now, done) {
            Ok(starts) => {
                for start in starts.as_slice() {
                    add_wants(line, &start.0, &start.1);
                }
                drop(starts);
            }
            Err(_) => line.lose(),
        },
        _ => {
            let Question {
                name,
                world,
                schemas,
                ..
            } = *asked;
            match failure_of(line.alloc, schemas, name, world, stack, before, now, done) {
                Ok(failure) => {
                    add_failure(line, &failure);
                    drop(failure);
                }
                Err(_) => line.lose(),
            }
        }
    }
}

/// Adds what is asked of a path by the plan of a phase.
fn add_at_path(line: &mut Line, asked: &Question, stack: &StackState, now: &Plan)
    requires now { now.now ≡ plan_now stack.now.stack }
{
    match asked.word {
        "wants" => match wants_at(line.alloc, asked.schemas, stack, now, asked.path) {
            Ok(wants) => {
                add_wants(line, asked.path, &wants);
                drop(wants);
            }
            Err(_) => line.lose(),
        },
        "finding" => match finding_at(line.alloc, now, asked.path) {
            Ok(found) => {
                add_found(line, &found);
                drop(found);
            }
            Err(_) => line.lose(),
        },
        _ => match is_held_right(line.alloc, now, stack.made(), asked.path) {
            Ok(right) => line.word(if right { "right" } else { "wrong" }),
            Err(_) => line.lose(),
        },
    }
}

/// Adds what is asked of the plans of a phase. Plans are let go by `drop`: let go in place they make the check long.
fn add_by_before(line: &mut Line, asked: &Question, stack: &StackState, now: &Plan)
    requires now { now.now ≡ plan_now stack.now.stack }
{
    match plan_before(line.alloc, stack) {
        Ok(before) => {
            match done_paths(line.alloc, stack, &before, now) {
                Ok(done) => {
                    add_by_done(line, asked, stack, &before, now, &done);
                    drop(done);
                }
                Err(_) => line.lose(),
            }
            drop(before);
        }
        Err(_) => line.lose(),
    }
}

/// Adds what is asked of the plan of a phase.
fn add_by_plan(line: &mut Line, asked: &Question, stack: &StackState) {
    match plan_now(line.alloc, stack) {
        Ok(now) => {
            match asked.word {
                "done" | "starts" | "failure" => add_by_before(line, asked, stack, &now),
                _ => add_at_path(line, asked, stack, &now),
            }
            drop(now);
        }
        Err(_) => line.lose(),
    }
}

/// Adds what is asked of the phase of a stack's operation.
pub fn add_phase(line: &mut Line, asked: &Question, stack: &StackState) {
    match asked.word {
        "failing" => add_failing(line, asked.schemas, stack),
        "blamed" => add_blamed(line, stack),
        _ => add_by_plan(line, asked, stack),
    }
}
