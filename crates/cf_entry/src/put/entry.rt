//! How entries are written.
ghost use Rattle.std.specs.Prelude.{◌≡◌, ◌+◌, ◌<◌, ◌≤◌, ◌^◌, ◌++◌, length, vec_len, vec_capacity, IsTrue, List, ℕ, [], Some, None};
ghost use Rattle.cf_entry.specs.Bytes.{HasCapacity, AddsBytes, AreAll, IsText};
ghost use Rattle.cf_entry.specs.Numbers.{has_cause};
ghost use Rattle.cf_entry.specs.Status.{is_end};
ghost use Rattle.cf_entry.specs.Entry.{spelling_of, begun_bytes, parts_bytes, source_bytes, request_bytes, reply_bytes, IsEntry, IsProper, IsFor, AreNamed, IsTied, IsBegun, IsSource, IsRequest, IsReply};

use crate::entry::{Begun, Entry, LaneNames, Reply};
use crate::put::{
    put_byte, put_cause_if_any, put_dict, put_eight, put_four, put_pairs, put_rows, put_templates,
    put_text, put_texts, put_truth,
};
use crate::status::Status;
use crate::turn::{Cause, Phase, Why};
use cf_tree::{Names, Request, Rows, Source, Txt};

/// Appends the one spelling of an entry, of `entry_size` bytes; it takes no memory.
///
/// The vector has the room already, and the spelling has fewer than 2^32 bytes. What is written is
/// read back by `read_entry`, if the entry is a proper one: the source of an operation tells that
/// operation's stack and the number 0, paths ascend, a turn has a cause exactly where it goes back,
/// an operation ends in one of the statuses in which operations end, and no detail of a policy has
/// a name.
pub fn write_entry(entry: &Entry, to: &mut Vec<u8>)
    requires small { length (spelling_of entry.now) < 2 ^ 32 }
    requires room { vec_len to.old + length (spelling_of entry.now) ≤ vec_capacity to.old }
    ensures appended { to.new.items ≡ to.old.items ++ spelling_of entry.now }
    ensures length { vec_len to.new ≡ vec_len to.old + length (spelling_of entry.now) }
    ensures capacity { vec_capacity to.old ≤ vec_capacity to.new }
    ensures readable { IsProper entry.now → IsEntry entry.now }
{
    match entry {
        Entry::Opened { epoch, lanes } => put_opened(to, *epoch, lanes),
        Entry::Begin {
            number,
            stack,
            kind,
        } => put_begin(to, *number, stack, kind),
        Entry::Kept {
            number,
            path,
            physical,
            why,
        } => put_kept(to, *number, path, physical, *why),
        Entry::Intent {
            number,
            token,
            lane,
            path,
            request,
        } => put_intent(to, *number, *token, lane, path, request),
        Entry::Outcome {
            number,
            token,
            answer,
            before,
            after,
        } => put_outcome(to, (*number, *token), answer, (*before, *after)),
        Entry::Phase {
            number,
            phase,
            cause,
        } => put_phase(to, *number, *phase, cause),
        Entry::Done {
            number,
            status,
            failed,
        } => put_done(to, *number, *status, failed),
        Entry::ChangeSet {
            number,
            stack,
            source,
            rows,
            outputs,
        } => put_change_set(to, *number, stack, source, rows, *outputs),
    }
}

fn put_opened(to: &mut Vec<u8>, epoch: u64, lanes: &LaneNames)
    requires small { length (spelling_of (Entry.Opened epoch lanes.now)) < 2 ^ 32 }
    requires room { HasCapacity to.old (spelling_of (Entry.Opened epoch lanes.now)) }
    ensures added { AddsBytes to.old to.new (spelling_of (Entry.Opened epoch lanes.now)) }
    ensures fits { IsEntry (Entry.Opened epoch lanes.now) }
{
    put_byte(to, 1);
    put_eight(to, epoch);
    put_pairs(to, lanes.as_slice());
}

fn put_begin(to: &mut Vec<u8>, number: u64, stack: &Txt, kind: &Begun)
    requires small { length (spelling_of (Entry.Begin number stack.now kind.now)) < 2 ^ 32 }
    requires room { HasCapacity to.old (spelling_of (Entry.Begin number stack.now kind.now)) }
    ensures added { AddsBytes to.old to.new (spelling_of (Entry.Begin number stack.now kind.now)) }
    ensures fits { IsTied stack.now kind.now → IsEntry (Entry.Begin number stack.now kind.now) }
{
    put_byte(to, 2);
    put_eight(to, number);
    put_text(to, stack);
    put_begun(to, kind);
}

fn put_begun(to: &mut Vec<u8>, kind: &Begun)
    requires small { length (begun_bytes kind.now) < 2 ^ 32 }
    requires room { HasCapacity to.old (begun_bytes kind.now) }
    ensures added { AddsBytes to.old to.new (begun_bytes kind.now) }
    ensures fits { (stack : List ℕ) → IsTied stack kind.now → IsBegun stack kind.now }
{
    match kind {
        Begun::Create { source } => put_with_source(to, 1, source),
        Begun::Update { source } => put_with_source(to, 2, source),
        Begun::Delete { paths } => put_with_paths(to, 3, paths),
        Begun::Continue { paths } => put_with_paths(to, 4, paths),
    }
}

/// The number of a kind with a source, and the source.
fn put_with_source(to: &mut Vec<u8>, number: u8, source: &Source)
    requires small { length (parts_bytes number (Some source.now) []) < 2 ^ 32 }
    requires room { HasCapacity to.old (parts_bytes number (Some source.now) []) }
    ensures added { AddsBytes to.old to.new (parts_bytes number (Some source.now) []) }
    ensures fits { IsSource source.now }
{
    put_byte(to, number);
    put_byte(to, 1);
    put_source(to, source);
    put_four(to, 0);
}

/// The number of a kind with paths, and the paths.
fn put_with_paths(to: &mut Vec<u8>, number: u8, paths: &Names)
    requires small { length (parts_bytes number None paths.now) < 2 ^ 32 }
    requires room { HasCapacity to.old (parts_bytes number None paths.now) }
    ensures added { AddsBytes to.old to.new (parts_bytes number None paths.now) }
    ensures fits { AreAll IsText paths.now }
{
    put_byte(to, number);
    put_byte(to, 0);
    put_texts(to, paths.as_slice());
}

fn put_source(to: &mut Vec<u8>, source: &Source)
    requires small { length (source_bytes source.now) < 2 ^ 32 }
    requires room { HasCapacity to.old (source_bytes source.now) }
    ensures added { AddsBytes to.old to.new (source_bytes source.now) }
    ensures fits { IsSource source.now }
{
    put_text(to, &source.root);
    put_templates(to, source.texts.as_slice());
    put_pairs(to, source.given.as_slice());
    put_pairs(to, source.imports.as_slice());
}

fn put_kept(to: &mut Vec<u8>, number: u64, path: &Txt, physical: &Txt, why: Why)
    requires small { length (spelling_of (Entry.Kept number path.now physical.now why)) < 2 ^ 32 }
    requires room { HasCapacity to.old (spelling_of (Entry.Kept number path.now physical.now why)) }
    ensures added { AddsBytes to.old to.new (spelling_of (Entry.Kept number path.now physical.now why)) }
    ensures fits { IsEntry (Entry.Kept number path.now physical.now why) }
{
    put_byte(to, 3);
    put_eight(to, number);
    put_text(to, path);
    put_text(to, physical);
    put_byte(to, why.number());
}

fn put_intent(to: &mut Vec<u8>, number: u64, token: u64, lane: &Txt, path: &Txt, request: &Request)
    requires small { length (spelling_of (Entry.Intent number token lane.now path.now request.now)) < 2 ^ 32 }
    requires room { HasCapacity to.old (spelling_of (Entry.Intent number token lane.now path.now request.now)) }
    ensures added { AddsBytes to.old to.new (spelling_of (Entry.Intent number token lane.now path.now request.now)) }
    ensures fits { IsEntry (Entry.Intent number token lane.now path.now request.now) }
{
    put_byte(to, 4);
    put_eight(to, number);
    put_eight(to, token);
    put_text(to, lane);
    put_text(to, path);
    put_request(to, request);
}

fn put_outcome(to: &mut Vec<u8>, numbers: (u64, u64), answer: &Reply, counts: (u64, u64))
    requires small { length (spelling_of (Entry.Outcome numbers.0 numbers.1 answer.now counts.0 counts.1)) < 2 ^ 32 }
    requires room { HasCapacity to.old (spelling_of (Entry.Outcome numbers.0 numbers.1 answer.now counts.0 counts.1)) }
    ensures added { AddsBytes to.old to.new (spelling_of (Entry.Outcome numbers.0 numbers.1 answer.now counts.0 counts.1)) }
    ensures fits { IsEntry (Entry.Outcome numbers.0 numbers.1 answer.now counts.0 counts.1) }
{
    put_byte(to, 5);
    put_eight(to, numbers.0);
    put_eight(to, numbers.1);
    put_reply(to, answer);
    put_eight(to, counts.0);
    put_eight(to, counts.1);
}

fn put_phase(to: &mut Vec<u8>, number: u64, phase: Phase, cause: &Option<Cause>)
    requires small { length (spelling_of (Entry.Phase number phase cause.now)) < 2 ^ 32 }
    requires room { HasCapacity to.old (spelling_of (Entry.Phase number phase cause.now)) }
    ensures added { AddsBytes to.old to.new (spelling_of (Entry.Phase number phase cause.now)) }
    ensures fits { IsTrue (has_cause phase cause.now) → IsEntry (Entry.Phase number phase cause.now) }
{
    put_byte(to, 6);
    put_eight(to, number);
    put_byte(to, phase.number());
    put_cause_if_any(to, cause);
}

fn put_done(to: &mut Vec<u8>, number: u64, status: Status, failed: &Names)
    requires small { length (spelling_of (Entry.Done number status failed.now)) < 2 ^ 32 }
    requires room { HasCapacity to.old (spelling_of (Entry.Done number status failed.now)) }
    ensures added { AddsBytes to.old to.new (spelling_of (Entry.Done number status failed.now)) }
    ensures fits { IsTrue (is_end status) → IsEntry (Entry.Done number status failed.now) }
{
    put_byte(to, 7);
    put_eight(to, number);
    put_byte(to, status.number());
    put_texts(to, failed.as_slice());
}

fn put_change_set(
    to: &mut Vec<u8>,
    number: u64,
    stack: &Txt,
    source: &Source,
    rows: &Rows,
    outputs: bool,
)
    requires small { length (spelling_of (Entry.ChangeSet number stack.now source.now rows.now outputs)) < 2 ^ 32 }
    requires room { HasCapacity to.old (spelling_of (Entry.ChangeSet number stack.now source.now rows.now outputs)) }
    ensures added { AddsBytes to.old to.new (spelling_of (Entry.ChangeSet number stack.now source.now rows.now outputs)) }
    ensures fits { IsFor stack.now source.now × AreNamed rows.now → IsEntry (Entry.ChangeSet number stack.now source.now rows.now outputs) }
{
    put_byte(to, 8);
    put_eight(to, number);
    put_text(to, stack);
    put_source(to, source);
    put_rows(to, rows.as_slice());
    put_truth(to, outputs);
}

fn put_request(to: &mut Vec<u8>, request: &Request)
    requires small { length (request_bytes request.now) < 2 ^ 32 }
    requires room { HasCapacity to.old (request_bytes request.now) }
    ensures added { AddsBytes to.old to.new (request_bytes request.now) }
    ensures fits { IsRequest request.now }
{
    match request {
        Request::Create { kind, props } => {
            put_byte(to, 1);
            put_text(to, kind);
            put_dict(to, props);
        }
        Request::Update { physical, props } => {
            put_byte(to, 2);
            put_text(to, physical);
            put_dict(to, props);
        }
        Request::Delete { physical } => {
            put_byte(to, 3);
            put_text(to, physical);
        }
    }
}

fn put_reply(to: &mut Vec<u8>, reply: &Reply)
    requires small { length (reply_bytes reply.now) < 2 ^ 32 }
    requires room { HasCapacity to.old (reply_bytes reply.now) }
    ensures added { AddsBytes to.old to.new (reply_bytes reply.now) }
    ensures fits { IsReply reply.now }
{
    match reply {
        Reply::Success { physical, attrs } => {
            put_byte(to, 1);
            put_text(to, physical);
            put_dict(to, attrs);
        }
        Reply::Failed { code } => {
            put_byte(to, 2);
            put_byte(to, code.number());
        }
        Reply::Doubt => put_byte(to, 3),
    }
}
