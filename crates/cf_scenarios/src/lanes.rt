//! Lanes as lines say them.
ghost use Rattle.std.specs.Prelude.{◌≡◌, IsTrue};
ghost use Rattle.std.specs.List.{list_all};
ghost use Rattle.cf_handler.specs.Name.{is_lane_name, is_name_byte};

use crate::lines::Lines;
use crate::recorder::Recorder;
use crate::words::{Line, cut, number_of};
use cf_fake::{Break, MemoryHandler, Plan, Planned};
use cf_handler::{Handler, file_schema, record_schema};
use cf_rows::Memory;
use cf_schema::Schemas;
use cf_tree::{Code, NoMemory};
use std::alloc::Global;

/// The lane `NAME TYPE FAULT, FAULT ..`, where TYPE is `files` or `records`, and FAULT a call's number with `before`,
/// `after`, `later CALLS`, `memory` or `refuse CODE`, or `0 fence`. None where its name is no lane's.
pub fn lane_of(memory: &mut Memory, text: &str) -> Option<Recorder> {
    let (name, rest) = cut(text);
    let (kind, faults) = cut(rest);
    if !is_lane_name(name) {
        return None;
    }
    let plan = plan_of(memory, faults);
    match handler_of(memory.alloc, name, kind, plan) {
        Ok(handler) => {
            let short = short_of(memory, faults);
            Some(Recorder::new(memory.alloc, handler, short))
        }
        Err(NoMemory) => {
            memory.lose();
            None
        }
    }
}

/// A handler in memory of the type `files` or `records`.
fn handler_of(alloc: Global, name: &str, kind: &str, plan: Plan) -> Result<MemoryHandler, NoMemory>
    requires { IsTrue (is_lane_name name.now) }
{
    let schema = if kind == "records" {
        record_schema(alloc)?
    } else {
        file_schema(alloc)?
    };
    MemoryHandler::new(alloc, name, schema, plan)
}

/// Whether a name is a lane's: 1 to 64 letters, digits and hyphens.
fn is_lane_name(name: &str) -> bool
    ensures { result ≡ is_lane_name name.now }
{
    1 <= name.len() && name.len() <= 64 && are_name_bytes(name.as_bytes())
}

fn are_name_bytes(bytes: &[u8]) -> bool
    ensures { result ≡ list_all is_name_byte bytes.now }
{
    bytes.iter().all(|byte| is_name_byte(*byte))
}

fn is_name_byte(byte: u8) -> bool
    ensures { result ≡ is_name_byte byte }
{
    (65 <= byte && byte <= 90)
        || (97 <= byte && byte <= 122)
        || ((48 <= byte && byte <= 57) || byte == 45)
}

/// The calls that are refused or break off.
fn plan_of(memory: &mut Memory, faults: &str) -> Plan {
    let mut plan = Plan::new(memory.alloc);
    for fault in faults.split(", ") {
        let (call, how) = cut(fault);
        if let Some(planned) = planned_of(number_of(call), how) {
            memory.note(plan.push(planned).is_err());
        }
    }
    plan
}

/// The calls that have no memory.
fn short_of(memory: &mut Memory, faults: &str) -> Vec<u64> {
    let mut short = Vec::new(memory.alloc);
    for fault in faults.split(", ") {
        let (call, how) = cut(fault);
        if how == "memory" {
            memory.note(short.push(number_of(call)).is_err());
        }
    }
    short
}

fn planned_of(call: u64, how: &str) -> Option<Planned> {
    match cut(how) {
        ("before", _) => Some(Planned {
            call,
            break_: Break::FaultBefore,
        }),
        ("after", _) => Some(Planned {
            call,
            break_: Break::FaultAfter,
        }),
        ("later", calls) => Some(Planned {
            call,
            break_: Break::FaultLater(number_of(calls)),
        }),
        ("fence", _) => Some(Planned {
            call: 0,
            break_: Break::FenceFault,
        }),
        ("refuse", name) => match code_of(name) {
            Some(code) => refused(call, code),
            None => None,
        },
        _ => None,
    }
}

/// No call is refused as `NotFound` by a plan.
fn refused(call: u64, code: Code) -> Option<Planned> {
    if code == Code::NotFound {
        return None;
    }
    Some(Planned {
        call,
        break_: Break::Refuse(code),
    })
}

fn code_of(name: &str) -> Option<Code> {
    for number in 1..15u8 {
        if let Some(code) = Code::from_number(number) {
            if code.name() == name {
                return Some(code);
            }
        }
    }
    None
}

/// Adds the lines of what is live on a lane, `ID TYPE NAME=VALUE ..`, in the order in which it was made.
pub fn push_live(memory: &mut Memory, lines: &mut Lines, lane: &Recorder) {
    for resource in lane.handler().live() {
        let mut line = Line::new(memory.alloc);
        line.put(resource.id.as_str());
        line.word(resource.kind.as_str());
        line.properties(&resource.props);
        let line = line.finish(memory);
        lines.push(memory, line);
    }
}

/// The place of the first lane of a name.
pub fn place_of(lanes: &[Recorder], name: &str) -> Option<usize> {
    lanes.iter().position(|lane| lane.name() == name)
}

/// The schemas of the lanes' types.
pub fn schemas_of(memory: &mut Memory, lanes: &[Recorder]) -> Schemas {
    let mut schemas = Schemas::new(memory.alloc);
    for lane in lanes.iter() {
        match lane.schema().try_clone(memory.alloc) {
            Ok(schema) => memory.note(schemas.add(schema).is_err()),
            Err(_) => memory.lose(),
        }
    }
    schemas
}
