//! Why an operation went no further.
ghost use Rattle.std.specs.Prelude.{◌≡◌, ◌++◌, [], ◌∷◌, IfOk, codes, string_bytes};
ghost use Rattle.cf_face.specs.Line.{spaced, text_word};
ghost use Rattle.cf_face.specs.Exit.{reason_word, cause_words};

use crate::line::{push_named, push_text, push_word};
use cf_entry::{Cause, Reason};
use cf_tree::{NoMemory, Txt};
use std::alloc::Global;

/// The name of the code that a handler refused with, or `Fault`.
fn name_of_reason(reason: Reason) -> &'static str
    ensures { result.now ≡ reason_word reason }
{
    match reason {
        Reason::Code(code) => code.name(),
        Reason::Fault => "Fault",
    }
}

/// Adds that a handler refused or failed: the path of its resource and the reason, each after a space.
fn push_handler(
    alloc: Global,
    line: &mut String,
    path: &Txt,
    reason: Reason,
) -> Result<(), NoMemory>
    ensures { IfOk result (λ _. string_bytes line.new
        ≡ string_bytes line.old ++ spaced (codes "Handler" ∷ text_word path.now ∷ reason_word reason ∷ [])) }
{
    push_word(line, "Handler")?;
    push_text(alloc, line, path)?;
    push_word(line, name_of_reason(reason))?;
    Ok(())
}

/// Adds the name of the variant and its fields, each after a space. The text that tells the flaw of a plan stands as it is.
pub fn push_cause(alloc: Global, line: &mut String, cause: &Cause) -> Result<(), NoMemory>
    ensures { IfOk result (λ _. string_bytes line.new ≡ string_bytes line.old ++ spaced (cause_words cause.now)) }
{
    match cause {
        Cause::Handler { path, reason } => push_handler(alloc, line, path, *reason),
        Cause::Plan { fault } => {
            push_word(line, "Plan")?;
            push_word(line, fault.as_str())?;
            Ok(())
        }
        Cause::Export { name } => push_named(alloc, line, "Export", name),
    }
}
