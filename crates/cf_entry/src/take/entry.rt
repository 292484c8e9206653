//! How entries are read.
ghost use Rattle.std.specs.Prelude.{◌≡◌, ◌≢◌, IfOk, IfSome, IfNone, Some};
ghost use Rattle.cf_entry.specs.Reading.{Decodes, option_at, pick_at, ordered_of, list_at, text_at, byte_at, then_at, pair_at, template_at};
ghost use Rattle.cf_tree.specs.Codes.{code_of};
ghost use Rattle.cf_entry.specs.Entry.{spelling_of, texts_ascend, IsEntry};
ghost use Rattle.cf_entry.specs.declared.entry.Entry.{Entry};
ghost use Rattle.cf_entry.specs.Status.{status_numbered};
ghost use Rattle.cf_entry.specs.EntryReading.{properties_at, source_at, begun_at, begun_of, request_at, reply_at, end_of, opened_at, begin_at, kept_at, intent_at, outcome_at, phase_at, done_at, change_set_at, row_at, entry_at, entry_of};

use crate::entry::{Begun, Entry, Reply};
use crate::status::Status;
use crate::take::{
    take_byte, take_cause_if_any, take_dict, take_eight, take_list, take_phase, take_text,
    take_truth, take_why,
};
use crate::unread::Unread;
use cf_tree::{
    ByName, Code, Dict, Listing, Names, NoMemory, Pairs, Request, Rows, Source, Texts, Txt,
};
use std::alloc::Global;

/// The entry whose spelling these bytes are, all of them, and None exactly where no entry has just
/// these bytes.
///
/// Each value in an entry is read by a call within the call for the value that holds it, so that
/// the stack has to be as deep as values are nested.
///
/// # Errors
/// `NoMemory` where memory was not there; nothing is left behind.
pub fn read_entry(alloc: Global, bytes: &[u8]) -> Result<Option<Entry>, NoMemory>
    // What is read is what reading gives.
    ensures value { IfOk result (λ o. o ≡ entry_of bytes.now) }
    // What is read is spelled so.
    ensures found { IfOk result (λ o. IfSome o (λ e. IsEntry e × (spelling_of e ≡ bytes.now))) }
    // What is spelled so is read.
    ensures only { (e : Entry) → IsEntry e → spelling_of e ≡ bytes.now → IfOk result (λ o. o ≡ Some e) }
    // Nothing is read where no entry is spelled so.
    ensures missing { IfOk result (λ o. IfNone o ((e : Entry) → IsEntry e → spelling_of e ≢ bytes.now)) }
{
    match take_all(alloc, bytes) {
        Ok(entry) => Ok(Some(entry)),
        Err(Unread::NoEntry) => Ok(None),
        Err(Unread::NoMemory) => Err(NoMemory),
    }
}

#[tactic(auto, unfolding(crate::specs::EntryReading::entry_of))]
fn take_all(alloc: Global, bytes: &[u8]) -> Result<Entry, Unread>
    ensures { Decodes (λ e. e) result (entry_of bytes.now) }
{
    let (entry, rest) = take_entry(alloc, bytes)?;
    if rest.is_empty() {
        Ok(entry)
    } else {
        Err(Unread::NoEntry)
    }
}

#[tactic(auto, unfolding(crate::specs::EntryReading::entry_at))]
fn take_entry(alloc: Global, bytes: &[u8]) -> Result<(Entry, &[u8]), Unread>
    ensures { Decodes (λ x. (x.0, x.1.now)) result (entry_at bytes.now) }
{
    let (kind, rest) = take_byte(bytes)?;
    match kind {
        1 => take_opened(alloc, rest),
        2 => take_begin(alloc, rest),
        3 => take_kept(alloc, rest),
        4 => take_intent(alloc, rest),
        5 => take_outcome(alloc, rest),
        6 => take_phase_entry(alloc, rest),
        7 => take_done(alloc, rest),
        8 => take_change_set(alloc, rest),
        _ => Err(Unread::NoEntry),
    }
}

#[tactic(auto, unfolding(crate::specs::EntryReading::opened_at))]
fn take_opened(alloc: Global, bytes: &[u8]) -> Result<(Entry, &[u8]), Unread>
    ensures { Decodes (λ x. (x.0, x.1.now)) result (opened_at bytes.now) }
{
    let (epoch, rest) = take_eight(bytes)?;
    let (lanes, rest) = take_list(alloc, rest)?;
    let lanes = Listing::from_vec(lanes);
    Ok((Entry::Opened { epoch, lanes }, rest))
}

#[tactic(auto, unfolding(crate::specs::EntryReading::begin_at))]
fn take_begin(alloc: Global, bytes: &[u8]) -> Result<(Entry, &[u8]), Unread>
    ensures { Decodes (λ x. (x.0, x.1.now)) result (begin_at bytes.now) }
{
    let (number, rest) = take_eight(bytes)?;
    let (stack, rest) = take_text(alloc, rest)?;
    let (kind, rest) = take_begun(alloc, &stack, rest)?;
    Ok((
        Entry::Begin {
            number,
            stack,
            kind,
        },
        rest,
    ))
}

#[tactic(auto, unfolding(crate::specs::EntryReading::begun_at))]
fn take_begun<'a>(alloc: Global, stack: &Txt, bytes: &'a [u8]) -> Result<(Begun, &'a [u8]), Unread>
    ensures { Decodes (λ x. (x.0, x.1.now)) result (begun_at stack.now bytes.now) }
{
    let (number, rest) = take_byte(bytes)?;
    let (source, rest) = take_source_if_any(alloc, stack, rest)?;
    let (paths, rest) = take_names(alloc, rest)?;
    let kind = begun_of(number, source, paths)?;
    Ok((kind, rest))
}

/// What an operation sets out to do, by its number, its source if it has one, and its paths.
fn begun_of(number: u8, source: Option<Source>, paths: Names) -> Result<Begun, Unread>
    ensures { Decodes (λ x. x) result (begun_of (number, (source, paths))) }
{
    match source {
        Some(source) => match (paths.is_empty(), number) {
            (true, 1) => Ok(Begun::Create { source }),
            (true, 2) => Ok(Begun::Update { source }),
            _ => Err(Unread::NoEntry),
        },
        None => match (names_ascend(paths.as_slice()), number) {
            (true, 3) => Ok(Begun::Delete { paths }),
            (true, 4) => Ok(Begun::Continue { paths }),
            _ => Err(Unread::NoEntry),
        },
    }
}

/// Whether each text is below the next.
fn names_ascend(names: &[Txt]) -> bool
    ensures { result ≡ texts_ascend names.now }
{
    let mut before: Option<&Txt> = None;
    for name in names.iter() {
        if let Some(last) = before {
            if *last >= *name {
                return false;
            }
        }
        before = Some(name);
    }
    true
}

#[tactic(auto, unfolding(crate::specs::Reading::option_at))]
fn take_source_if_any<'a>(
    alloc: Global,
    stack: &Txt,
    bytes: &'a [u8],
) -> Result<(Option<Source>, &'a [u8]), Unread>
    ensures { Decodes (λ x. (x.0, x.1.now)) result (option_at (source_at stack.now) bytes.now) }
{
    let (flag, rest) = take_byte(bytes)?;
    match flag {
        0 => Ok((None, rest)),
        1 => {
            let (source, rest) = take_source(alloc, stack, rest)?;
            Ok((Some(source), rest))
        }
        _ => Err(Unread::NoEntry),
    }
}

#[tactic(auto, unfolding(crate::specs::EntryReading::source_at))]
fn take_source<'a>(
    alloc: Global,
    stack: &Txt,
    bytes: &'a [u8],
) -> Result<(Source, &'a [u8]), Unread>
    ensures { Decodes (λ x. (x.0, x.1.now)) result (source_at stack.now bytes.now) }
{
    let (root, rest) = take_text(alloc, bytes)?;
    let (texts, rest) = take_templates(alloc, rest)?;
    let (given, rest) = take_pairs(alloc, rest)?;
    let (imports, rest) = take_pairs(alloc, rest)?;
    let source = Source {
        root,
        texts,
        given,
        imports,
        stack: stack.try_clone(alloc)?,
        number: 0,
    };
    Ok((source, rest))
}

/// Names with their templates behind their number, the names strictly ascending.
fn take_templates(alloc: Global, bytes: &[u8]) -> Result<(Texts, &[u8]), Unread>
    ensures { Decodes (λ x. (x.0, x.1.now)) result (pick_at ordered_of (list_at template_at) bytes.now) }
{
    let (pairs, rest) = take_list(alloc, bytes)?;
    match ByName::try_from_vec(pairs) {
        Some(pairs) => Ok((pairs, rest)),
        None => Err(Unread::NoEntry),
    }
}

/// Names with their texts behind their number, the names strictly ascending.
fn take_pairs(alloc: Global, bytes: &[u8]) -> Result<(Pairs, &[u8]), Unread>
    ensures { Decodes (λ x. (x.0, x.1.now)) result (pick_at ordered_of (list_at pair_at) bytes.now) }
{
    let (pairs, rest) = take_list(alloc, bytes)?;
    match ByName::try_from_vec(pairs) {
        Some(pairs) => Ok((pairs, rest)),
        None => Err(Unread::NoEntry),
    }
}

fn take_names(alloc: Global, bytes: &[u8]) -> Result<(Names, &[u8]), Unread>
    ensures { Decodes (λ x. (x.0, x.1.now)) result (list_at text_at bytes.now) }
{
    let (names, rest) = take_list(alloc, bytes)?;
    Ok((Names::from_vec(names), rest))
}

#[tactic(auto, unfolding(crate::specs::EntryReading::kept_at))]
fn take_kept(alloc: Global, bytes: &[u8]) -> Result<(Entry, &[u8]), Unread>
    ensures { Decodes (λ x. (x.0, x.1.now)) result (kept_at bytes.now) }
{
    let (number, rest) = take_eight(bytes)?;
    let (path, rest) = take_text(alloc, rest)?;
    let (physical, rest) = take_text(alloc, rest)?;
    let (why, rest) = take_why(rest)?;
    let kept = Entry::Kept {
        number,
        path,
        physical,
        why,
    };
    Ok((kept, rest))
}

#[tactic(auto, unfolding(crate::specs::EntryReading::intent_at))]
fn take_intent(alloc: Global, bytes: &[u8]) -> Result<(Entry, &[u8]), Unread>
    ensures { Decodes (λ x. (x.0, x.1.now)) result (intent_at bytes.now) }
{
    let (number, rest) = take_eight(bytes)?;
    let (token, rest) = take_eight(rest)?;
    let (lane, rest) = take_text(alloc, rest)?;
    let (path, rest) = take_text(alloc, rest)?;
    let (request, rest) = take_request(alloc, rest)?;
    let intent = Entry::Intent {
        number,
        token,
        lane,
        path,
        request,
    };
    Ok((intent, rest))
}

#[tactic(auto, unfolding(crate::specs::EntryReading::request_at))]
fn take_request(alloc: Global, bytes: &[u8]) -> Result<(Request, &[u8]), Unread>
    ensures { Decodes (λ x. (x.0, x.1.now)) result (request_at bytes.now) }
{
    let (kind, rest) = take_byte(bytes)?;
    match kind {
        1 => {
            let (kind, rest) = take_text(alloc, rest)?;
            let (props, rest) = take_properties(alloc, rest)?;
            Ok((Request::Create { kind, props }, rest))
        }
        2 => {
            let (physical, rest) = take_text(alloc, rest)?;
            let (props, rest) = take_properties(alloc, rest)?;
            Ok((Request::Update { physical, props }, rest))
        }
        3 => {
            let (physical, rest) = take_text(alloc, rest)?;
            Ok((Request::Delete { physical }, rest))
        }
        _ => Err(Unread::NoEntry),
    }
}

#[tactic(auto, unfolding(crate::specs::EntryReading::properties_at))]
fn take_properties(alloc: Global, bytes: &[u8]) -> Result<(Dict, &[u8]), Unread>
    ensures { Decodes (λ x. (x.0, x.1.now)) result (properties_at bytes.now) }
{
    take_dict(alloc, bytes.len(), bytes)
}

#[tactic(auto, unfolding(crate::specs::EntryReading::outcome_at))]
fn take_outcome(alloc: Global, bytes: &[u8]) -> Result<(Entry, &[u8]), Unread>
    ensures { Decodes (λ x. (x.0, x.1.now)) result (outcome_at bytes.now) }
{
    let (number, rest) = take_eight(bytes)?;
    let (token, rest) = take_eight(rest)?;
    let (answer, rest) = take_reply(alloc, rest)?;
    let (before, rest) = take_eight(rest)?;
    let (after, rest) = take_eight(rest)?;
    let outcome = Entry::Outcome {
        number,
        token,
        answer,
        before,
        after,
    };
    Ok((outcome, rest))
}

#[tactic(auto, unfolding(crate::specs::EntryReading::reply_at))]
fn take_reply(alloc: Global, bytes: &[u8]) -> Result<(Reply, &[u8]), Unread>
    ensures { Decodes (λ x. (x.0, x.1.now)) result (reply_at bytes.now) }
{
    let (kind, rest) = take_byte(bytes)?;
    match kind {
        1 => {
            let (physical, rest) = take_text(alloc, rest)?;
            let (attrs, rest) = take_properties(alloc, rest)?;
            Ok((Reply::Success { physical, attrs }, rest))
        }
        2 => {
            let (code, rest) = take_code(rest)?;
            Ok((Reply::Failed { code }, rest))
        }
        3 => Ok((Reply::Doubt, rest)),
        _ => Err(Unread::NoEntry),
    }
}

fn take_code(bytes: &[u8]) -> Result<(Code, &[u8]), Unread>
    ensures { Decodes (λ x. (x.0, x.1.now)) result (pick_at code_of byte_at bytes.now) }
{
    let (number, rest) = take_byte(bytes)?;
    match Code::from_number(number) {
        Some(code) => Ok((code, rest)),
        None => Err(Unread::NoEntry),
    }
}

#[tactic(auto, unfolding(crate::specs::EntryReading::phase_at))]
fn take_phase_entry(alloc: Global, bytes: &[u8]) -> Result<(Entry, &[u8]), Unread>
    ensures { Decodes (λ x. (x.0, x.1.now)) result (phase_at bytes.now) }
{
    let (number, rest) = take_eight(bytes)?;
    let (phase, rest) = take_phase(rest)?;
    let (cause, rest) = take_cause_if_any(alloc, rest)?;
    if !phase.has_cause(&cause) {
        return Err(Unread::NoEntry);
    }
    let turn = Entry::Phase {
        number,
        phase,
        cause,
    };
    Ok((turn, rest))
}

#[tactic(auto, unfolding(crate::specs::EntryReading::done_at))]
fn take_done(alloc: Global, bytes: &[u8]) -> Result<(Entry, &[u8]), Unread>
    ensures { Decodes (λ x. (x.0, x.1.now)) result (done_at bytes.now) }
{
    let (number, rest) = take_eight(bytes)?;
    let (status, rest) = take_end(rest)?;
    let (failed, rest) = take_names(alloc, rest)?;
    let done = Entry::Done {
        number,
        status,
        failed,
    };
    Ok((done, rest))
}

/// A status in which operations end.
fn take_end(bytes: &[u8]) -> Result<(Status, &[u8]), Unread>
    ensures { Decodes (λ x. (x.0, x.1.now)) result (pick_at end_of (pick_at status_numbered byte_at) bytes.now) }
{
    let (number, rest) = take_byte(bytes)?;
    match Status::from_number(number) {
        Some(status) if status.is_end() => Ok((status, rest)),
        _ => Err(Unread::NoEntry),
    }
}

#[tactic(auto, unfolding(crate::specs::EntryReading::change_set_at))]
fn take_change_set(alloc: Global, bytes: &[u8]) -> Result<(Entry, &[u8]), Unread>
    ensures { Decodes (λ x. (x.0, x.1.now)) result (change_set_at bytes.now) }
{
    let (number, rest) = take_eight(bytes)?;
    let (stack, rest) = take_text(alloc, rest)?;
    let (source, rest) = take_source(alloc, &stack, rest)?;
    let (rows, rest) = take_rows(alloc, rest)?;
    let (outputs, rest) = take_truth(rest)?;
    let set = Entry::ChangeSet {
        number,
        stack,
        source,
        rows,
        outputs,
    };
    Ok((set, rest))
}

fn take_rows(alloc: Global, bytes: &[u8]) -> Result<(Rows, &[u8]), Unread>
    ensures { Decodes (λ x. (x.0, x.1.now)) result (list_at row_at bytes.now) }
{
    let (rows, rest) = take_list(alloc, bytes)?;
    Ok((Rows::from_vec(rows), rest))
}
