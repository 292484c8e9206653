//! The names that files may have, and what requests for files are answered.
ghost use Rattle.std.specs.Prelude.{◌≡◌, IfOk, option_map, find};
ghost use Rattle.std.specs.List.{list_all};
ghost use Rattle.cf_handler.specs.Name.{is_name_byte};
ghost use Rattle.cf_answers.specs.Live.{lives};
ghost use Rattle.cf_answers.specs.Table.{is_of_id};
ghost use Rattle.cf_files.specs.Paths.{begins_with_dot, is_path, is_path_byte, names_well};
ghost use Rattle.cf_files.specs.Paths.{content_of, file_answer, path_at, path_of, text_at};

use cf_answers::{LiveResource, answer_to, found};
use cf_handler::Settlement;
use cf_schema::Schema;
use cf_tree::{Code, Dict, Request, Txt, Val};
use std::alloc::{AllocError, Global};

/// The longest path, in bytes.
const MOST_BYTES: usize = 128;

// A letter, a digit or a hyphen.
fn is_name_byte(byte: u8) -> bool
    ensures { result ≡ is_name_byte byte }
{
    (65 <= byte && byte <= 90)
        || (97 <= byte && byte <= 122)
        || ((48 <= byte && byte <= 57) || byte == 45)
}

// One of these, an underscore or a dot.
fn is_path_byte(byte: u8) -> bool
    ensures { result ≡ is_path_byte byte }
{
    is_name_byte(byte) || (byte == 95 || byte == 46)
}

fn are_path_bytes(bytes: &[u8]) -> bool
    ensures { result ≡ list_all is_path_byte bytes.now }
{
    bytes.iter().all(|byte| is_path_byte(*byte))
}

fn begins_with_dot(bytes: &[u8]) -> bool
    ensures { result ≡ begins_with_dot bytes.now }
{
    match bytes {
        [] => false,
        [first, ..] => *first == 46,
    }
}

/// Whether a file may have this name.
pub fn is_path(path: &str) -> bool
    ensures { result ≡ is_path path.now }
{
    let bytes = path.as_bytes();
    1 <= bytes.len()
        && bytes.len() <= MOST_BYTES
        && are_path_bytes(bytes)
        && !begins_with_dot(bytes)
}

/// Whether the path of these properties, where it is a text, is one that a file may have.
fn names_well(props: &Dict) -> bool
    ensures { result ≡ names_well props.now }
{
    match props.get("Path") {
        Some(Val::Text(path)) => is_path(path.as_str()),
        _ => true,
    }
}

fn failed(code: Code) -> Settlement
    ensures { result ≡ Settlement.Failed code }
{
    Settlement::Failed { code }
}

/// What the table answers to a new token of a lane of files, where this is live.
///
/// # Errors
/// Want of memory.
pub fn file_answer(
    alloc: Global,
    schema: &Schema,
    name: &Txt,
    token: u64,
    live: &[LiveResource],
    request: &Request,
) -> Result<Settlement, AllocError>
    ensures { IfOk result (λ s. s ≡ file_answer schema.now name.now token (lives live.now) request.now) }
{
    match request {
        Request::Create { kind: _, props } => {
            if !names_well(props) {
                return Ok(failed(Code::InvalidRequest));
            }
        }
        Request::Update { physical, props } => {
            if !names_well(props) {
                return match found(live, physical) {
                    Some(_) => Ok(failed(Code::InvalidRequest)),
                    None => Ok(failed(Code::NotFound)),
                };
            }
        }
        Request::Delete { physical: _ } => {}
    }
    answer_to(alloc, schema, name.as_str(), token, live, request)
}

/// The text of a property, and the empty one where it is none.
pub fn text_at<'a>(props: &'a Dict, name: &str) -> &'a str
    ensures { result.now ≡ text_at name.now props.now }
{
    match props.get(name) {
        Some(Val::Text(text)) => text.as_str(),
        _ => "",
    }
}

// The path of the live resource of an id, and the empty one where there is none.
fn path_at<'a>(live: &'a [LiveResource], id: &Txt) -> &'a str
    ensures { result.now ≡ path_at (find (is_of_id id.now) (lives live.now)) }
{
    match found(live, id) {
        Some(resource) => text_at(&resource.props, "Path"),
        None => "",
    }
}

/// The path of the file that a request is about: of its properties, or of the resource that is live. The empty one where there is none.
pub fn path_of<'a>(live: &'a [LiveResource], request: &'a Request) -> &'a str
    ensures { result.now ≡ path_of (lives live.now) request.now }
{
    match request {
        Request::Create { kind: _, props } => text_at(props, "Path"),
        Request::Update { physical, props: _ } => path_at(live, physical),
        Request::Delete { physical } => path_at(live, physical),
    }
}

/// What the file is to hold, and None where it is to go.
pub fn content_of(request: &Request) -> Option<&str>
    ensures { option_map (λ content. content.now) result ≡ content_of request.now }
{
    match request {
        Request::Create { kind: _, props } => Some(text_at(props, "Content")),
        Request::Update { physical: _, props } => Some(text_at(props, "Content")),
        Request::Delete { physical: _ } => None,
    }
}
