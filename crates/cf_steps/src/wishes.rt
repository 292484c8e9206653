//! What comes of a wish: its order, or why it is refused.
ghost use Rattle.std.specs.Prelude.{◌≡◌, ◌==◌, find, IfSome, Some};
ghost use Rattle.std.specs.Option.{option_copied};
ghost use Rattle.cf_desired.specs.Templates.{templates_of};
ghost use Rattle.cf_effect.specs.declared.held.KeptSet.{KeptSet as Kept};
ghost use Rattle.cf_effect.specs.World.{known_stack};
ghost use Rattle.cf_prepare.specs.Prepare.{HasTemplates};
ghost use Rattle.cf_prepare.specs.Refusals.{set_of};

use crate::forward::add_flaw;
use crate::library::Library;
use crate::line::Line;
use crate::spelled::{add_entry, add_source};
use crate::steps::schemas_in;
use crate::words::Words;
use cf_desired::{Templates, templates_of};
use cf_entry::Entry;
use cf_prepare::{Order, PrepareFault, StackFault, Wish, prepare};
use cf_schema::Schemas;
use cf_stacks::{KeptSet, World};
use cf_tree::{
    Action, Attribute, Detail, Evaluation, Recreation, Replacement, Row, Rows, Source, Txt,
};

fn action_word(action: Action) -> &'static str {
    match action {
        Action::Add => "Add",
        Action::Modify => "Modify",
        Action::Remove => "Remove",
    }
}

fn replacement_word(replacement: Replacement) -> &'static str {
    match replacement {
        Replacement::True => "True",
        Replacement::False => "False",
        Replacement::Conditional => "Conditional",
    }
}

fn attribute_word(attribute: Attribute) -> &'static str {
    match attribute {
        Attribute::Properties => "Properties",
        Attribute::DeletionPolicy => "DeletionPolicy",
        Attribute::UpdateReplacePolicy => "UpdateReplacePolicy",
    }
}

fn recreation_word(recreation: Recreation) -> &'static str {
    match recreation {
        Recreation::Never => "Never",
        Recreation::Conditionally => "Conditionally",
        Recreation::Always => "Always",
    }
}

fn evaluation_word(evaluation: Evaluation) -> &'static str {
    match evaluation {
        Evaluation::Static => "Static",
        Evaluation::Dynamic => "Dynamic",
    }
}

/// Adds a detail of a row; the name of a policy is `-`.
fn add_detail(line: &mut Line, detail: &Detail) {
    line.word(attribute_word(detail.attribute));
    line.word(if detail.name.as_str().is_empty() {
        "-"
    } else {
        detail.name.as_str()
    });
    line.word(recreation_word(detail.recreation));
    line.word(evaluation_word(detail.evaluation));
}

/// Adds a row as a member, with its details behind it.
fn add_row(line: &mut Line, row: &Row) {
    line.member();
    line.word(action_word(row.action));
    line.word(row.path.as_str());
    if let Some(replacement) = row.replacement {
        line.word(replacement_word(replacement));
    }
    if row.unsure {
        line.word("unsure");
    }
    for detail in row.details.as_slice() {
        add_detail(line, detail);
    }
}

/// Adds a change set with its rows.
fn add_set(line: &mut Line, number: u64, stack: &str, source: &Source, rows: &Rows, outputs: bool) {
    line.word("changeset");
    line.number(number);
    line.word(stack);
    line.word(if outputs { "changed" } else { "same" });
    add_source(line, source);
    for row in rows.as_slice() {
        add_row(line, row);
    }
}

/// Adds an order: the entry that begins an operation or keeps a change set, or the operation that goes on.
fn add_order(line: &mut Line, library: &Library, order: &Order) {
    match order {
        Order::Begin(entry) => add_entry(line, library, entry),
        Order::Review(
            Entry::ChangeSet {
                number,
                stack,
                source,
                rows,
                outputs,
            },
        ) => add_set(line, *number, stack.as_str(), source, rows, *outputs),
        Order::Review(_) => line.word("another entry"),
        Order::Resume(number) => {
            line.word("resume");
            line.number(*number);
        }
    }
}

/// Adds why a stack is refused.
fn add_stack_refusal(line: &mut Line, fault: &StackFault) {
    match fault {
        StackFault::NoStack => line.word("NoStack"),
        StackFault::WrongStatus { status } => add_named(line, "WrongStatus", status.name()),
        StackFault::NoChangeSet { number } => add_numbered(line, "NoChangeSet", *number),
        StackFault::NotFailed { path } => add_named(line, "NotFailed", path.as_str()),
        StackFault::TypeChanged { path } => add_named(line, "TypeChanged", path.as_str()),
        StackFault::ExportTaken { name } => add_named(line, "ExportTaken", name.as_str()),
        StackFault::ExportInUse { name } => add_named(line, "ExportInUse", name.as_str()),
        StackFault::NoChanges => line.word("NoChanges"),
        StackFault::Outdated { number } => add_numbered(line, "Outdated", *number),
    }
}

fn add_named(line: &mut Line, fault: &str, name: &str) {
    line.word(fault);
    line.word(name);
}

fn add_numbered(line: &mut Line, fault: &str, number: u64) {
    line.word(fault);
    line.number(number);
}

/// Adds why nothing is ordered.
fn add_refusal(line: &mut Line, fault: &PrepareFault) {
    match fault {
        PrepareFault::Stack { fault } => add_stack_refusal(line, fault),
        PrepareFault::Plan { flaw } => {
            line.word("Plan");
            add_flaw(line, flaw);
        }
        PrepareFault::UnknownType { path, name } => {
            add_named(line, "UnknownType", path.as_str());
            line.word(name.as_str());
        }
        PrepareFault::NoMemory => line.word("NoMemory"),
    }
}

/// The change set of a number.
fn set_in(sets: &[KeptSet], number: u64) -> Option<&KeptSet>
    ensures { option_copied result ≡ find (λ k. number == k.number) sets.now }
{
    sets.iter().find(|set| set.number == number)
}

/// The change set of a number of the stack of a name.
fn set_of<'a>(world: &'a World, name: &Txt, number: u64) -> Option<&'a KeptSet>
    ensures { option_copied result ≡ set_of number (known_stack name.now world.now.world) }
{
    match world.stack(name.as_str()) {
        Some(stack) => set_in(stack.sets().as_slice(), number),
        None => None,
    }
}

/// The templates of a source, where memory was there to read them.
fn templates_in(line: &mut Line, source: &Source) -> Option<Templates>
    ensures { IfSome result (λ templates. templates ≡ templates_of source.now) }
{
    match templates_of(line.alloc, source) {
        Ok(templates) => Some(templates),
        Err(_) => {
            line.lose();
            None
        }
    }
}

/// The templates of a change set that is executed; none where there is no such set.
fn templates_of_set(line: &mut Line, set: Option<&KeptSet>) -> Option<Templates>
    ensures { IfSome result (λ templates. (k : Kept) → option_copied set.entry ≡ Some k → templates ≡ templates_of k.source) }
{
    match set {
        Some(set) => templates_in(line, &set.source),
        None => Some(Templates::new(line.alloc)),
    }
}

/// The templates of the source that a wish looks at, where memory was there to read them; none where it looks at no source.
fn templates_for(line: &mut Line, world: &World, wish: &Wish) -> Option<Templates>
    ensures { IfSome result (λ templates. HasTemplates world.now.world wish.now templates) }
{
    match wish {
        Wish::Deploy { source, .. } => templates_in(line, source),
        Wish::Review { source, .. } => templates_in(line, source),
        Wish::Execute { stack, number } => templates_of_set(line, set_of(world, stack, *number)),
        _ => Some(Templates::new(line.alloc)),
    }
}

/// What comes of a wish.
fn add_answer(line: &mut Line, library: &Library, world: &World, wish: &Wish, schemas: &Schemas) {
    let Some(templates) = templates_for(line, world, wish) else {
        return;
    };
    match prepare(line.alloc, world, wish, &templates, schemas) {
        Ok(order) => {
            add_order(line, library, &order);
            drop(order);
        }
        Err(fault) => {
            add_refusal(line, &fault);
            drop(fault);
        }
    }
    drop(templates);
}

/// What comes of a wish, by the schemas of the lanes.
fn add_prepared(line: &mut Line, words: &mut Words, library: &Library, world: &World, wish: Wish) {
    let schemas = schemas_in(words, library, world);
    add_answer(line, library, world, &wish, &schemas);
    drop(schemas);
    drop(wish);
}

/// What comes of the wish for a stack of this name and source, `STACK SOURCE`.
pub fn add_deployment(line: &mut Line, words: &mut Words, library: &Library, world: &World) {
    let name = words.word();
    let wish = Wish::Deploy {
        stack: words.memory.text(name),
        source: library.source(words, name),
    };
    add_prepared(line, words, library, world, wish);
}

/// The wish of a line, `KIND STACK ..`
fn wish_of(words: &mut Words, library: &Library) -> Wish {
    let kind = words.word();
    let name = words.word();
    let stack = words.memory.text(name);
    match kind {
        "deploy" => Wish::Deploy {
            stack,
            source: library.source(words, name),
        },
        "review" => Wish::Review {
            stack,
            source: library.source(words, name),
        },
        "execute" => Wish::Execute {
            stack,
            number: words.number(),
        },
        "delete" => Wish::Delete {
            stack,
            paths: words.names(),
        },
        "continue" => Wish::Continue {
            stack,
            paths: words.names(),
        },
        "resume" => Wish::Resume { stack },
        _ => {
            words.refuse();
            Wish::Resume { stack }
        }
    }
}

/// What comes of the wish of a line.
pub fn add_wish(line: &mut Line, words: &mut Words, library: &Library, world: &World) {
    let wish = wish_of(words, library);
    add_prepared(line, words, library, world, wish);
}
