//! How the rows of change sets are written.
ghost use Rattle.std.specs.Prelude.{◌≡◌, ◌<◌, ◌^◌, length};
ghost use Rattle.cf_entry.specs.Bytes.{list_bytes, AreAll, HasCapacity, AddsBytes};
ghost use Rattle.std.specs.List.{AllByRecursion};
ghost use Rattle.cf_entry.specs.Entry.{row_bytes, detail_bytes, IsNamed, HasNamed, IsRow, IsDetail};
ghost use Rattle.cf_entry.specs.Numbers.{action_number, attribute_number, recreation_number, evaluation_number, replacement_number};

use crate::put::{put_byte, put_four, put_text, put_truth};
use cf_tree::{Action, Attribute, Detail, Evaluation, Recreation, Replacement, Row};

/// Rows behind their number.
#[tactic(auto, using(crate::proofs::Counts::few_rows))]
pub fn put_rows(to: &mut Vec<u8>, rows: &[Row])
    requires small { length (list_bytes row_bytes rows.now) < 2 ^ 32 }
    requires room { HasCapacity to.old (list_bytes row_bytes rows.now) }
    ensures added { AddsBytes to.old to.new (list_bytes row_bytes rows.now) }
    ensures fits { AllByRecursion HasNamed rows.now → AreAll IsRow rows.now }
{
    put_four(to, rows.len() as u32);
    for row in rows.iter() {
        put_row(to, row);
    }
}

fn put_row(to: &mut Vec<u8>, row: &Row)
    requires small { length (row_bytes row.now) < 2 ^ 32 }
    requires room { HasCapacity to.old (row_bytes row.now) }
    ensures added { AddsBytes to.old to.new (row_bytes row.now) }
    ensures fits { HasNamed row.now → IsRow row.now }
{
    put_byte(to, action_number(row.action));
    put_text(to, &row.path);
    put_text(to, &row.kind);
    put_byte(to, replacement_number(row.replacement));
    put_truth(to, row.unsure);
    put_details(to, row.details.as_slice());
}

/// Changes of a resource behind their number.
#[tactic(auto, using(crate::proofs::Counts::few_details))]
fn put_details(to: &mut Vec<u8>, details: &[Detail])
    requires small { length (list_bytes detail_bytes details.now) < 2 ^ 32 }
    requires room { HasCapacity to.old (list_bytes detail_bytes details.now) }
    ensures added { AddsBytes to.old to.new (list_bytes detail_bytes details.now) }
    ensures fits { AllByRecursion IsNamed details.now → AreAll IsDetail details.now }
{
    put_four(to, details.len() as u32);
    for detail in details.iter() {
        put_detail(to, detail);
    }
}

fn put_detail(to: &mut Vec<u8>, detail: &Detail)
    requires small { length (detail_bytes detail.now) < 2 ^ 32 }
    requires room { HasCapacity to.old (detail_bytes detail.now) }
    ensures added { AddsBytes to.old to.new (detail_bytes detail.now) }
    ensures fits { IsNamed detail.now → IsDetail detail.now }
{
    put_byte(to, attribute_number(detail.attribute));
    put_text(to, &detail.name);
    put_byte(to, recreation_number(detail.recreation));
    put_byte(to, evaluation_number(detail.evaluation));
}

fn action_number(action: Action) -> u8
    ensures { result ≡ action_number action }
{
    match action {
        Action::Add => 1,
        Action::Modify => 2,
        Action::Remove => 3,
    }
}

fn attribute_number(attribute: Attribute) -> u8
    ensures { result ≡ attribute_number attribute }
{
    match attribute {
        Attribute::Properties => 1,
        Attribute::DeletionPolicy => 2,
        Attribute::UpdateReplacePolicy => 3,
    }
}

fn recreation_number(recreation: Recreation) -> u8
    ensures { result ≡ recreation_number recreation }
{
    match recreation {
        Recreation::Never => 1,
        Recreation::Conditionally => 2,
        Recreation::Always => 3,
    }
}

fn evaluation_number(evaluation: Evaluation) -> u8
    ensures { result ≡ evaluation_number evaluation }
{
    match evaluation {
        Evaluation::Static => 1,
        Evaluation::Dynamic => 2,
    }
}

fn replacement_number(replacement: Option<Replacement>) -> u8
    ensures { result ≡ replacement_number replacement }
{
    match replacement {
        None => 0,
        Some(Replacement::True) => 1,
        Some(Replacement::False) => 2,
        Some(Replacement::Conditional) => 3,
    }
}
