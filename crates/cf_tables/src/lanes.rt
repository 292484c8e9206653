//! Answers of a handler in memory.
//!
//! A row begins with `files` or `records`, the type of the lane's resources; its calls follow, each behind `; `, by what they
//! ask, their token, an id where they have one, and properties. Between them stand `fence EPOCH`, which raises the fence,
//! `epoch EPOCH`, the epoch of all that follows, which is 0 at first, and `look ID`. Behind ` <- ` stand the calls that are
//! broken, with `, ` between them, each by its number, which may be left out of the first call's, and how: `before`,
//! `after`, `refused` or `later CALLS`. `fence` breaks the first raising of the fence.
use crate::evaluating::object_of;
use crate::json::push_object;
use crate::pieces::cut;
use crate::told::Told;
use cf_fake::{Break, MemoryHandler, Plan, Planned};
use cf_handler::{FenceAnswer, Handler, file_schema, record_schema};
use cf_rows::Memory;
use cf_tree::{Answer, Code, Look, NoMemory, Request};
use std::alloc::Global;

/// What a new lane answers, call by call, and how many faults it then counts.
pub fn lane_line(told: &mut Told, row: &str, broken: &str) {
    let (kind, calls) = row.split_once("; ").unwrap_or((row, ""));
    let plan = plan_of(&mut told.memory, broken);
    match lane_of(told.memory.alloc, kind, plan) {
        Ok(mut lane) => {
            add_answers(told, &mut lane, type_of(kind), calls);
            drop(lane);
        }
        Err(_) => told.memory.lose(),
    }
}

fn type_of(kind: &str) -> &'static str {
    if kind == "records" {
        "Local::Records::Record"
    } else {
        "Local::Files::File"
    }
}

fn add_answers(told: &mut Told, lane: &mut MemoryHandler, kind: &str, calls: &str) {
    let mut epoch = 0;
    for call in calls.split("; ") {
        let (word, rest) = cut(call);
        if word == "epoch" {
            epoch = number_of(rest);
        } else {
            add_step(told, lane, kind, epoch, call);
            told.put("; ");
        }
    }
    told.put("faults");
    told.number_word(lane.faults());
}

fn add_step(told: &mut Told, lane: &mut MemoryHandler, kind: &str, epoch: u64, step: &str) {
    let (word, rest) = cut(step);
    match word {
        "fence" => fence_text(told, lane.fence(number_of(rest))),
        "look" => add_look(told, lane, epoch, rest),
        _ => add_answer(told, lane, kind, epoch, step),
    }
}

fn add_look(told: &mut Told, lane: &mut MemoryHandler, epoch: u64, id: &str) {
    let physical = told.memory.text(id);
    let look = lane.read(epoch, &physical);
    drop(physical);
    look_text(told, &look);
    drop(look);
}

fn add_answer(told: &mut Told, lane: &mut MemoryHandler, kind: &str, epoch: u64, call: &str) {
    let (word, rest) = cut(call);
    let (token, rest) = cut(rest);
    let request = request_of(&mut told.memory, word, kind, rest);
    let answer = lane.call(epoch, number_of(token), &request);
    drop(request);
    answer_text(told, &answer);
    drop(answer);
}

fn number_of(text: &str) -> u64 {
    text.parse::<u64>().unwrap_or(0)
}

fn lane_of(alloc: Global, kind: &str, plan: Plan) -> Result<MemoryHandler, NoMemory> {
    if kind == "records" {
        MemoryHandler::new(alloc, "records1", record_schema(alloc)?, plan)
    } else {
        MemoryHandler::new(alloc, "files1", file_schema(alloc)?, plan)
    }
}

/// The plan of what is broken.
fn plan_of(memory: &mut Memory, broken: &str) -> Plan {
    let mut plan = Plan::new(memory.alloc);
    for text in broken.split(", ") {
        if let Some(planned) = planned_of(text) {
            memory.note(plan.push(planned).is_err());
        }
    }
    plan
}

/// What is planned of a call, of the first one where no number stands before it.
fn planned_of(text: &str) -> Option<Planned> {
    let (word, rest) = cut(text);
    match word.parse::<u64>() {
        Ok(call) => broken_at(call, rest),
        Err(_) => broken_at(1, text),
    }
}

fn broken_at(call: u64, text: &str) -> Option<Planned> {
    let (how, rest) = cut(text);
    match how {
        "before" => Some(Planned {
            call,
            break_: Break::FaultBefore,
        }),
        "after" => Some(Planned {
            call,
            break_: Break::FaultAfter,
        }),
        "refused" => Some(Planned {
            call,
            break_: Break::Refuse(Code::Throttling),
        }),
        "later" => Some(Planned {
            call,
            break_: Break::FaultLater(number_of(rest)),
        }),
        "fence" => Some(Planned {
            call: 0,
            break_: Break::FenceFault,
        }),
        _ => None,
    }
}

/// What a call asks.
fn request_of(memory: &mut Memory, word: &str, kind: &str, rest: &str) -> Request {
    match word {
        "create" => Request::Create {
            kind: memory.text(kind),
            props: object_of(memory, rest),
        },
        "update" => {
            let (physical, props) = cut(rest);
            Request::Update {
                physical: memory.text(physical),
                props: object_of(memory, props),
            }
        }
        _ => Request::Delete {
            physical: memory.text(rest),
        },
    }
}

fn answer_text(told: &mut Told, answer: &Answer) {
    match answer {
        Answer::Success { physical, attrs } => {
            told.put(physical.as_str());
            told.put(" ");
            push_object(told, attrs);
        }
        Answer::Failed { code } => told.put(code.name()),
        Answer::Fault => told.put("fault"),
        Answer::Stale { fence } => stale_text(told, *fence),
        Answer::NoMemory => told.put("no memory"),
    }
}

fn look_text(told: &mut Told, look: &Look) {
    match look {
        Look::Found { props, attrs } => {
            push_object(told, props);
            told.put(" ");
            push_object(told, attrs);
        }
        Look::Failed { code } => told.put(code.name()),
        Look::Fault => told.put("fault"),
        Look::Stale { fence } => stale_text(told, *fence),
        Look::NoMemory => told.put("no memory"),
    }
}

fn fence_text(told: &mut Told, answer: FenceAnswer) {
    match answer {
        FenceAnswer::Raised => told.put("raised"),
        FenceAnswer::Ahead { fence } => {
            told.put("ahead");
            told.number_word(fence);
        }
        FenceAnswer::Fault => told.put("fault"),
    }
}

fn stale_text(told: &mut Told, fence: u64) {
    told.put("stale");
    told.number_word(fence);
}
