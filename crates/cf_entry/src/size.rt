//! How long the spelling of an entry is.
ghost use Rattle.std.specs.Prelude.{◌≡◌, length};
ghost use Rattle.cf_tree.specs.SizeOf.{capped};
ghost use Rattle.cf_entry.specs.Bytes.{text_bytes, list_bytes, option_bytes, pair_bytes};
ghost use Rattle.cf_entry.specs.Value.{dict_bytes};
ghost use Rattle.cf_entry.specs.Entry.{spelling_of, begun_bytes, source_bytes, request_bytes, reply_bytes, cause_bytes, row_bytes, detail_bytes};

use crate::entry::{Begun, Entry, Reply};
use crate::turn::Cause;
use cf_tree::{Bytes, Detail, Dict, Request, Row, Source, Txt, size_of_txt, sum_of_sizes};

/// How long the spelling of an entry is, where 2^63 stands for every greater length; it takes no
/// memory.
pub fn entry_size(entry: &Entry) -> u64
    ensures { result ≡ capped (length (spelling_of entry.now)) }
{
    match entry {
        Entry::Opened { epoch: _, lanes } => sum_of_sizes(9, pairs_size(lanes.as_slice())),
        Entry::Begin {
            number: _,
            stack,
            kind,
        } => sum_of_sizes(9, sum_of_sizes(text_size(stack), begun_size(kind))),
        Entry::Kept {
            number: _,
            path,
            physical,
            why: _,
        } => sum_of_sizes(10, sum_of_sizes(text_size(path), text_size(physical))),
        Entry::Intent {
            number: _,
            token: _,
            lane,
            path,
            request,
        } => {
            let places = sum_of_sizes(text_size(lane), text_size(path));
            sum_of_sizes(17, sum_of_sizes(places, request_size(request)))
        }
        Entry::Outcome {
            number: _,
            token: _,
            answer,
            before: _,
            after: _,
        } => sum_of_sizes(33, reply_size(answer)),
        Entry::Phase {
            number: _,
            phase: _,
            cause,
        } => sum_of_sizes(10, cause_size(cause)),
        Entry::Done {
            number: _,
            status: _,
            failed,
        } => sum_of_sizes(10, texts_size(failed.as_slice())),
        Entry::ChangeSet {
            number: _,
            stack,
            source,
            rows,
            outputs: _,
        } => {
            let front = sum_of_sizes(text_size(stack), source_size(source));
            sum_of_sizes(10, sum_of_sizes(front, rows_size(rows.as_slice())))
        }
    }
}

fn begun_size(kind: &Begun) -> u64
    ensures { result ≡ capped (length (begun_bytes kind.now)) }
{
    match kind {
        Begun::Create { source } => sum_of_sizes(6, source_size(source)),
        Begun::Update { source } => sum_of_sizes(6, source_size(source)),
        Begun::Delete { paths } => sum_of_sizes(2, texts_size(paths.as_slice())),
        Begun::Continue { paths } => sum_of_sizes(2, texts_size(paths.as_slice())),
    }
}

fn source_size(source: &Source) -> u64
    ensures { result ≡ capped (length (source_bytes source.now)) }
{
    let texts = sum_of_sizes(
        text_size(&source.root),
        templates_size(source.texts.as_slice()),
    );
    let pairs = sum_of_sizes(
        pairs_size(source.given.as_slice()),
        pairs_size(source.imports.as_slice()),
    );
    sum_of_sizes(texts, pairs)
}

/// The length of a name with its template.
fn template_size(template: &(Txt, Bytes)) -> u64
    ensures { result ≡ capped (length (pair_bytes (template.now.0, template.now.1))) }
{
    let bytes = template.1.as_slice().len() as u64;
    sum_of_sizes(text_size(&template.0), sum_of_sizes(4, bytes))
}

fn templates_size(templates: &[(Txt, Bytes)]) -> u64
    ensures { result ≡ capped (length (list_bytes pair_bytes templates.now)) }
{
    let mut total = 4;
    for template in templates.iter() {
        total = sum_of_sizes(total, template_size(template));
    }
    total
}

fn text_size(text: &Txt) -> u64
    ensures { result ≡ capped (length (text_bytes text.now)) }
{
    size_of_txt(text.as_str())
}

#[tactic(auto, using(crate::proofs::Sizes::dict_is_long))]
fn dict_size(pairs: &Dict) -> u64
    ensures { result ≡ capped (length (dict_bytes pairs.now)) }
{
    pairs.size()
}

fn texts_size(texts: &[Txt]) -> u64
    ensures { result ≡ capped (length (list_bytes text_bytes texts.now)) }
{
    let mut total = 4;
    for text in texts.iter() {
        total = sum_of_sizes(total, text_size(text));
    }
    total
}

fn pairs_size(pairs: &[(Txt, Txt)]) -> u64
    ensures { result ≡ capped (length (list_bytes pair_bytes pairs.now)) }
{
    let mut total = 4;
    for pair in pairs.iter() {
        total = sum_of_sizes(total, text_size(&pair.0));
        total = sum_of_sizes(total, text_size(&pair.1));
    }
    total
}

fn request_size(request: &Request) -> u64
    ensures { result ≡ capped (length (request_bytes request.now)) }
{
    match request {
        Request::Create { kind, props } => {
            sum_of_sizes(1, sum_of_sizes(text_size(kind), dict_size(props)))
        }
        Request::Update { physical, props } => {
            sum_of_sizes(1, sum_of_sizes(text_size(physical), dict_size(props)))
        }
        Request::Delete { physical } => sum_of_sizes(1, text_size(physical)),
    }
}

fn reply_size(reply: &Reply) -> u64
    ensures { result ≡ capped (length (reply_bytes reply.now)) }
{
    match reply {
        Reply::Success { physical, attrs } => {
            sum_of_sizes(1, sum_of_sizes(text_size(physical), dict_size(attrs)))
        }
        Reply::Failed { code: _ } => 2,
        Reply::Doubt => 1,
    }
}

/// The length of a cause, or of the byte that says that there is none.
fn cause_size(cause: &Option<Cause>) -> u64
    ensures { result ≡ capped (length (option_bytes cause_bytes cause.now)) }
{
    match cause {
        None => 1,
        Some(Cause::Handler { path, reason: _ }) => sum_of_sizes(3, text_size(path)),
        Some(Cause::Plan { fault }) => sum_of_sizes(2, text_size(fault)),
        Some(Cause::Export { name }) => sum_of_sizes(2, text_size(name)),
    }
}

fn rows_size(rows: &[Row]) -> u64
    ensures { result ≡ capped (length (list_bytes row_bytes rows.now)) }
{
    let mut total = 4;
    for row in rows.iter() {
        total = sum_of_sizes(total, row_size(row));
    }
    total
}

fn row_size(row: &Row) -> u64
    ensures { result ≡ capped (length (row_bytes row.now)) }
{
    let texts = sum_of_sizes(text_size(&row.path), text_size(&row.kind));
    sum_of_sizes(3, sum_of_sizes(texts, details_size(row.details.as_slice())))
}

fn details_size(details: &[Detail]) -> u64
    ensures { result ≡ capped (length (list_bytes detail_bytes details.now)) }
{
    let mut total = 4;
    for detail in details.iter() {
        total = sum_of_sizes(total, detail_size(detail));
    }
    total
}

fn detail_size(detail: &Detail) -> u64
    ensures { result ≡ capped (length (detail_bytes detail.now)) }
{
    sum_of_sizes(3, text_size(&detail.name))
}
