//! What a template changes of what a stack holds.
//!
//! The answer is one line of parts between `; `: each row of the change set, and in the end whether the outputs differ, or may;
//! or else why there is no change set.
use crate::held::{Stack, stack_of};
use crate::plans::{flaw_of, push_flaw};
use crate::told::Told;
use cf_change::{ChangeFault, ChangeSet, change_set};
use cf_desired::{DesiredFault, templates_of};
use cf_tree::{Action, Attribute, Detail, Evaluation, Recreation, Replacement, Row};
use std::alloc::Global;

/// What a template changes of what a stack holds, as words say it.
pub fn changes_line(told: &mut Told, template: &str, words: &str) {
    let stack = stack_of(&mut told.memory, template, words);
    match changes_over(told.memory.alloc, &stack) {
        Ok(set) => {
            push_set(told, &set);
            drop(set);
        }
        Err(fault) => refusal(told, fault),
    }
    drop(stack);
}

fn changes_over(alloc: Global, stack: &Stack) -> Result<ChangeSet, ChangeFault> {
    let source = &stack.scene.source;
    let templates = templates_of(alloc, source)?;
    let set = change_set(alloc, &stack.held, source, &templates, &stack.schemas);
    drop(templates);
    set
}

fn refusal(told: &mut Told, fault: ChangeFault) {
    match fault {
        ChangeFault::Plan { fault } => flawed(told, fault),
        ChangeFault::TypeChanged { path } => {
            told.named("TypeChanged ", &path);
            drop(path);
        }
        ChangeFault::NoChanges => told.put("NoChanges"),
        ChangeFault::NoMemory => told.memory.lose(),
    }
}

/// The flaw by which nothing is desired.
fn flawed(told: &mut Told, fault: DesiredFault) {
    match flaw_of(fault) {
        Some(flaw) => {
            told.put("Plan ");
            push_flaw(told, &flaw);
            drop(flaw);
        }
        None => told.memory.lose(),
    }
}

fn push_set(told: &mut Told, set: &ChangeSet) {
    for row in set.rows.as_slice() {
        push_row(told, row);
        told.put("; ");
    }
    told.put(if set.outputs_differ {
        "outputs changed"
    } else {
        "outputs same"
    });
}

/// Adds a row: what is done with the path, its type, whether it is replaced, and what of it changes.
fn push_row(told: &mut Told, row: &Row) {
    told.put(action_word(row.action));
    told.word(row.path.as_str());
    told.word(row.kind.as_str());
    if let Some(replacement) = row.replacement {
        told.word(replacement_word(replacement));
    }
    if row.unsure {
        told.word("unsure");
    }
    let mut first = true;
    for detail in row.details.as_slice() {
        told.put(if first { ": " } else { ", " });
        push_detail(told, detail);
        first = false;
    }
}

fn push_detail(told: &mut Told, detail: &Detail) {
    told.put(attribute_word(detail.attribute));
    told.word(match detail.name.as_str() {
        "" => "-",
        name => name,
    });
    told.word(recreation_word(detail.recreation));
    told.word(evaluation_word(detail.evaluation));
}

fn action_word(action: Action) -> &'static str {
    match action {
        Action::Add => "Add",
        Action::Modify => "Modify",
        Action::Remove => "Remove",
    }
}

fn replacement_word(replacement: Replacement) -> &'static str {
    match replacement {
        Replacement::True => "True",
        Replacement::False => "False",
        Replacement::Conditional => "Conditional",
    }
}

fn attribute_word(attribute: Attribute) -> &'static str {
    match attribute {
        Attribute::Properties => "Properties",
        Attribute::DeletionPolicy => "DeletionPolicy",
        Attribute::UpdateReplacePolicy => "UpdateReplacePolicy",
    }
}

fn recreation_word(recreation: Recreation) -> &'static str {
    match recreation {
        Recreation::Never => "Never",
        Recreation::Conditionally => "Conditionally",
        Recreation::Always => "Always",
    }
}

fn evaluation_word(evaluation: Evaluation) -> &'static str {
    match evaluation {
        Evaluation::Static => "Static",
        Evaluation::Dynamic => "Dynamic",
    }
}
