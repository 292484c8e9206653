//! The line for an answer, written where there is room for it.
ghost use Rattle.std.specs.Prelude.{◌≡◌, [], ◌++◌, ◌+◌, ◌≤◌, IfOk, IfSome, length, codes, option_copied, string_bytes, string_len, string_capacity};
ghost use Rattle.cf_tree.specs.Codes.{name_of};
ghost use Rattle.cf_effect.specs.Event.{action_name, event_line, line_in, reply_line, reply_name};

use crate::events::action_name;
use crate::held::Pending;
use cf_entry::Reply;
use cf_tree::{Code, Request, Txt};
use itoa::Buffer;
use std::alloc::{AllocError, Global};

/// Adds a text at the end of a line that has room for it.
fn put(line: &mut String, text: &str)
    requires { string_len line.old + length text.now ≤ string_capacity line.old }
    ensures bytes { string_bytes line.new ≡ string_bytes line.old ++ text.now }
    ensures len { string_len line.new ≡ string_len line.old + length text.now }
    ensures capacity { string_capacity line.old ≤ string_capacity line.new }
{
    line.push_str(text).unwrap();
}

/// Adds what a request does to a resource, and how that went.
fn put_went(line: &mut String, request: &Request, how: &str)
    requires { string_len line.old + length how.now + 6 ≤ string_capacity line.old }
    ensures { string_bytes line.new ≡ string_bytes line.old ++ (action_name request.now ++ how.now) }
{
    put(line, action_name(request));
    put(line, how);
}

/// Adds what a request does to a resource, and that it was refused with a code.
fn put_refused(line: &mut String, request: &Request, code: Code)
    requires { string_len line.old + 46 ≤ string_capacity line.old }
    ensures { string_bytes line.new ≡ string_bytes line.old ++ (action_name request.now ++ codes "_FAILED " ++ name_of code) }
{
    put(line, action_name(request));
    put(line, "_FAILED ");
    put(line, code.name());
}

/// Adds what came of a call.
fn put_reply(line: &mut String, request: &Request, answer: &Reply)
    requires { string_len line.old + 46 ≤ string_capacity line.old }
    ensures { string_bytes line.new ≡ string_bytes line.old ++ reply_name request.now answer.now }
{
    match answer {
        Reply::Success { .. } => put_went(line, request, "_COMPLETE"),
        Reply::Failed { code } => match (request, code) {
            (Request::Delete { .. }, Code::NotFound) => put(line, "DELETE_COMPLETE"),
            _ => put_refused(line, request, *code),
        },
        Reply::Doubt => put_went(line, request, "_FAILED Fault"),
    }
}

/// The line for an answer to a request at a path, written into a text with room for it; it takes no
/// memory.
pub(crate) fn answer_line(
    mut line: String,
    place: u64,
    path: &str,
    request: &Request,
    answer: &Reply,
) -> Txt
    requires empty { string_bytes line ≡ [] }
    requires room { length path.now + 100 ≤ string_capacity line }
    ensures { result ≡ event_line place path.now (reply_name request.now answer.now) }
{
    put(&mut line, "event ");
    put(&mut line, Buffer::new().format(place));
    put(&mut line, " ");
    put(&mut line, path);
    put(&mut line, " ");
    put_reply(&mut line, request, answer);
    Txt::new(line)
}

/// Room for the line that `events` prints of an outcome at a path: a text that is empty.
///
/// # Errors
///
/// Only for want of memory.
pub fn growing_line(alloc: Global, path: &Txt) -> Result<String, AllocError>
    ensures { IfOk result (λ line. (string_bytes line ≡ []) × (length path.now + 100 ≤ string_capacity line)) }
{
    match path.as_str().len().checked_add(100) {
        Some(most) => String::with_capacity(alloc, most),
        None => Err(AllocError),
    }
}

/// The line for the answer to a call, where it is open, written into a text with room for it; it takes
/// no memory.
pub fn line_in_room(
    line: String,
    place: u64,
    answer: &Reply,
    pending: Option<&Pending>,
) -> Option<Txt>
    requires empty { string_bytes line ≡ [] }
    requires room { IfSome (option_copied pending) (λ p. length p.path + 100 ≤ string_capacity line) }
    ensures { line_in result ≡ reply_line place answer.now (option_copied pending.entry) }
{
    match pending {
        Some(pending) => Some(answer_line(
            line,
            place,
            pending.path.as_str(),
            &pending.request,
            answer,
        )),
        None => {
            drop(line);
            None
        }
    }
}
