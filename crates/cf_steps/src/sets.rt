//! The rows of a change set, read from their lines.
use crate::words::Words;
use cf_tree::{Action, Attribute, Detail, Details, Evaluation, Recreation, Replacement, Row};

const ACTIONS: [(&str, Action); 3] = [
    ("Add", Action::Add),
    ("Modify", Action::Modify),
    ("Remove", Action::Remove),
];

const ATTRIBUTES: [(&str, Attribute); 3] = [
    ("Properties", Attribute::Properties),
    ("DeletionPolicy", Attribute::DeletionPolicy),
    ("UpdateReplacePolicy", Attribute::UpdateReplacePolicy),
];

const RECREATIONS: [(&str, Recreation); 3] = [
    ("Never", Recreation::Never),
    ("Conditionally", Recreation::Conditionally),
    ("Always", Recreation::Always),
];

const EVALUATIONS: [(&str, Evaluation); 2] = [
    ("Static", Evaluation::Static),
    ("Dynamic", Evaluation::Dynamic),
];

/// `ACTION PATH TYPE REPLACEMENT unsure`, and the details, each behind ` / `.
pub fn row_of(words: &mut Words) -> Row {
    let action = words.one_of(&ACTIONS, Action::Add);
    let path = words.name();
    let kind = words.name();
    let (replacement, unsure) = marks_of(words);
    Row {
        action,
        path,
        kind,
        replacement,
        unsure,
        details: details_of(words),
    }
}

/// The replacement and whether the resource is unsure, up to the details.
fn marks_of(words: &mut Words) -> (Option<Replacement>, bool) {
    let mut replacement = None;
    let mut unsure = false;
    for _ in 0..words.rest.len() {
        match words.word() {
            "True" => replacement = Some(Replacement::True),
            "False" => replacement = Some(Replacement::False),
            "Conditional" => replacement = Some(Replacement::Conditional),
            "unsure" => unsure = true,
            "" | "/" => break,
            _ => words.refuse(),
        }
    }
    (replacement, unsure)
}

/// Details, with ` / ` between them.
fn details_of(words: &mut Words) -> Details {
    let mut details = Details::new(words.memory.alloc);
    for _ in 0..words.rest.len() {
        if words.rest.is_empty() {
            break;
        }
        let detail = detail_of(words);
        if details.push(detail).is_err() {
            words.memory.lose();
        }
    }
    details
}

/// `ATTRIBUTE NAME RECREATION EVALUATION`, and what parts it from the next one.
fn detail_of(words: &mut Words) -> Detail {
    let attribute = words.one_of(&ATTRIBUTES, Attribute::Properties);
    let name = words.path();
    let recreation = words.one_of(&RECREATIONS, Recreation::Never);
    let evaluation = words.one_of(&EVALUATIONS, Evaluation::Static);
    if !matches!(words.word(), "" | "/") {
        words.refuse();
    }
    Detail {
        attribute,
        name,
        recreation,
        evaluation,
    }
}
