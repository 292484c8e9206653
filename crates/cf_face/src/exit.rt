//! How a command ended.

ghost use Rattle.std.specs.Prelude.{◌≡◌, ◌++◌, [], ◌∷◌, codes, decimal, IfOk, string_bytes};
ghost use Rattle.cf_desired.specs.FlawText.{flaw_text};
ghost use Rattle.cf_face.specs.Line.{spaced, text_word};
ghost use Rattle.cf_face.specs.Exit.{exit_number, exit_name, refusal_words, stack_words, field_words, exit_line, unchanged_line, ending_text};

use crate::cause::push_cause;
use crate::fault_words::{push_counted, push_unread};
use crate::line::{push_named, push_number, push_text, push_texts, push_word};
use cf_desired::{Flaw, plan_text};
use cf_entry::{Cause, Status};
use cf_template::TemplateFault;
use cf_tree::{Names, NoMemory, Txt};
use std::alloc::Global;

/// How a command ended.
#[derive(Debug, Drop, PartialEq, Eq)]
pub enum Exit {
    /// The command did what it says, and its report was printed.
    Done,
    /// The words fit no command.
    BadWords,
    /// The template was refused before anything was done.
    TemplateRefused { fault: Refusal },
    /// The stack was refused before anything was done.
    StackRefused { fault: StackFault },
    /// The operation went no further for this cause, and all that it had done was taken back.
    RolledBack { cause: Cause },
    /// What the operation had done was not all taken back: the paths whose calls failed.
    Failed { blamed: Names },
    /// The library of templates failed.
    LibraryFault,
    /// The disk failed.
    DiskFault,
    /// The report could not be printed.
    SinkFault,
    /// Memory was not there.
    NoMemory,
    /// The disk's bytes are no journal's from this offset on.
    NotAJournal { offset: u64 },
    /// A lane that the journal names was not handed in.
    LaneMissing { name: Txt },
    /// Two lanes have this name.
    LaneTwice { name: Txt },
    /// The fence of this lane is not below the number of the opening, as it is raised, or above it, as the lane is called.
    LaneAhead { name: Txt, fence: u64, epoch: u64 },
    /// The lane failed as its fence was raised.
    LaneFault { name: Txt },
    /// The journal's length and the bytes that the next entry needs pass the disk's room.
    Full { length: u64, need: u64, room: u64 },
}

/// Why a template was refused.
#[derive(Debug, Drop, PartialEq, Eq)]
pub enum Refusal {
    /// The bytes under this name were not read as a template.
    Read { name: Txt, fault: TemplateFault },
    /// The template under this name holds something that is not made yet.
    NotYet { name: Txt },
    /// No desired resources came of it.
    Plan { fault: Flaw },
    /// No lane has the type of the resource at this path.
    UnknownType { path: Txt, name: Txt },
}

/// Why a stack was refused.
#[derive(Debug, Drop, PartialEq, Eq)]
pub enum StackFault {
    /// There is no stack of the name.
    NoStack,
    /// No operation of the kind begins from this status.
    WrongStatus { status: Status },
    /// The stack has no change set of the number.
    NoChangeSet { number: u64 },
    /// The path is not among those that failed.
    NotFailed { path: Txt },
    /// The path is held with another type.
    TypeChanged { path: Txt },
    /// Another stack exports or claims the name, or two outputs export it.
    ExportTaken { name: Txt },
    /// Another stack imports the export, which would be gone.
    ExportInUse { name: Txt },
    /// Nothing changes.
    NoChanges,
    /// The changes are no longer those of the change set.
    Outdated { number: u64 },
}

impl Exit {
    /// The number of the exit, which is the status of the process.
    pub fn number(&self) -> u8
        ensures { result ≡ exit_number self.now }
    {
        match self {
            Exit::Done => 0,
            Exit::BadWords => 1,
            Exit::TemplateRefused { .. } => 2,
            Exit::StackRefused { .. } => 3,
            Exit::RolledBack { .. } => 4,
            Exit::Failed { .. } => 5,
            Exit::LibraryFault => 6,
            Exit::DiskFault => 7,
            Exit::SinkFault => 8,
            Exit::NoMemory => 9,
            Exit::NotAJournal { .. } => 10,
            Exit::LaneMissing { .. } | Exit::LaneTwice { .. } => 11,
            Exit::LaneAhead { .. } => 12,
            Exit::LaneFault { .. } => 13,
            Exit::Full { .. } => 14,
        }
    }

    /// The name of the exit.
    pub fn name(&self) -> &'static str
        ensures { result.now ≡ exit_name self.now }
    {
        match self {
            Exit::Done => "Done",
            Exit::BadWords => "BadWords",
            Exit::TemplateRefused { .. } => "TemplateRefused",
            Exit::StackRefused { .. } => "StackRefused",
            Exit::RolledBack { .. } => "RolledBack",
            Exit::Failed { .. } => "Failed",
            Exit::LibraryFault => "LibraryFault",
            Exit::DiskFault => "DiskFault",
            Exit::SinkFault => "SinkFault",
            Exit::NoMemory => "NoMemory",
            Exit::NotAJournal { .. } => "NotAJournal",
            Exit::LaneMissing { .. } => "LaneMissing",
            Exit::LaneTwice { .. } => "LaneTwice",
            Exit::LaneAhead { .. } => "LaneAhead",
            Exit::LaneFault { .. } => "LaneFault",
            Exit::Full { .. } => "Full",
        }
    }

    // Adds the fields, each after a space.
    fn push_fields(&self, alloc: Global, line: &mut String) -> Result<(), NoMemory>
        ensures { IfOk result (λ _. string_bytes line.new ≡ string_bytes line.old ++ spaced (field_words self.now)) }
    {
        match self {
            Exit::TemplateRefused { fault } => fault.push_to(alloc, line),
            Exit::StackRefused { fault } => fault.push_to(alloc, line),
            Exit::RolledBack { cause } => push_cause(alloc, line, cause),
            Exit::Failed { blamed } => push_texts(alloc, line, blamed.as_slice()),
            Exit::NotAJournal { offset } => push_number(alloc, line, *offset),
            Exit::LaneMissing { name } => push_text(alloc, line, name),
            Exit::LaneTwice { name } => push_text(alloc, line, name),
            Exit::LaneAhead { name, fence, epoch } => push_ahead(alloc, line, name, *fence, *epoch),
            Exit::LaneFault { name } => push_text(alloc, line, name),
            Exit::Full { length, need, room } => push_sizes(alloc, line, *length, *need, *room),
            Exit::Done
            | Exit::BadWords
            | Exit::LibraryFault
            | Exit::DiskFault
            | Exit::SinkFault
            | Exit::NoMemory => Ok(()),
        }
    }

    /// Adds the line of the exit: `exit`, its number, its name and its fields, texts and lists of texts
    /// as compact JSON, inner variants by name and then their fields, and a line feed.
    ///
    /// # Errors
    ///
    /// Only for want of memory.
    pub fn push_line(&self, alloc: Global, text: &mut String) -> Result<(), NoMemory>
        ensures { IfOk result (λ _. string_bytes text.new ≡ string_bytes text.old ++ exit_line self.now) }
    {
        text.push_str("exit")?;
        push_number(alloc, text, u64::from(self.number()))?;
        push_word(text, self.name())?;
        self.push_fields(alloc, text)?;
        text.push('\n')?;
        Ok(())
    }

    // Adds the line that comes before that of the exit, if there is one.
    fn push_unchanged(&self, text: &mut String) -> Result<(), NoMemory>
        ensures { IfOk result (λ _. string_bytes text.new ≡ string_bytes text.old ++ unchanged_line self.now) }
    {
        match self {
            Exit::StackRefused {
                fault: StackFault::NoChanges,
            } => {
                text.push_str("No updates are to be performed.\n")?;
                Ok(())
            }
            _ => Ok(()),
        }
    }

    // Adds what is printed of an exit without a report.
    pub(crate) fn push_ending(&self, alloc: Global, text: &mut String) -> Result<(), NoMemory>
        ensures { IfOk result (λ _. string_bytes text.new ≡ string_bytes text.old ++ ending_text self.now) }
    {
        self.push_unchanged(text)?;
        self.push_line(alloc, text)
    }
}

impl Refusal {
    // Adds the name of the variant and its fields, each after a space.
    fn push_to(&self, alloc: Global, line: &mut String) -> Result<(), NoMemory>
        ensures { IfOk result (λ _. string_bytes line.new ≡ string_bytes line.old ++ spaced (refusal_words self.now)) }
    {
        match self {
            Refusal::Read { name, fault } => {
                push_word(line, "Read")?;
                push_text(alloc, line, name)?;
                push_unread(alloc, line, fault)
            }
            Refusal::NotYet { name } => push_named(alloc, line, "NotYet", name),
            Refusal::Plan { fault } => push_plan(alloc, line, fault),
            Refusal::UnknownType { path, name } => {
                push_word(line, "UnknownType")?;
                push_text(alloc, line, path)?;
                push_text(alloc, line, name)?;
                Ok(())
            }
        }
    }
}

impl StackFault {
    // Adds the name of the variant and its field, each after a space.
    fn push_to(&self, alloc: Global, line: &mut String) -> Result<(), NoMemory>
        ensures { IfOk result (λ _. string_bytes line.new ≡ string_bytes line.old ++ spaced (stack_words self.now)) }
    {
        match self {
            StackFault::NoStack => push_word(line, "NoStack"),
            StackFault::WrongStatus { status } => push_words(line, "WrongStatus", status.name()),
            StackFault::NoChangeSet { number } => push_counted(alloc, line, "NoChangeSet", *number),
            StackFault::NotFailed { path } => push_named(alloc, line, "NotFailed", path),
            StackFault::TypeChanged { path } => push_named(alloc, line, "TypeChanged", path),
            StackFault::ExportTaken { name } => push_named(alloc, line, "ExportTaken", name),
            StackFault::ExportInUse { name } => push_named(alloc, line, "ExportInUse", name),
            StackFault::NoChanges => push_word(line, "NoChanges"),
            StackFault::Outdated { number } => push_counted(alloc, line, "Outdated", *number),
        }
    }
}

// Adds two words, each after a space.
#[tactic(auto, using(crate::proofs::Spaced::two_words))]
fn push_words(line: &mut String, first: &str, second: &str) -> Result<(), NoMemory>
    ensures { IfOk result (λ _. string_bytes line.new ≡ string_bytes line.old ++ spaced (first.now ∷ second.now ∷ [])) }
{
    push_word(line, first)?;
    push_word(line, second)?;
    Ok(())
}

// Adds `Plan` and how the flaw is told, each after a space.
fn push_plan(alloc: Global, line: &mut String, flaw: &Flaw) -> Result<(), NoMemory>
    ensures { IfOk result (λ _. string_bytes line.new ≡ string_bytes line.old ++ spaced (codes "Plan" ∷ flaw_text flaw.now ∷ [])) }
{
    let told = plan_text(alloc, flaw)?;
    push_word(line, "Plan")?;
    push_word(line, told.as_str())?;
    Ok(())
}

// Adds three sizes, each after a space.
fn push_sizes(
    alloc: Global,
    line: &mut String,
    length: u64,
    need: u64,
    room: u64,
) -> Result<(), NoMemory>
    ensures { IfOk result (λ _. string_bytes line.new
        ≡ string_bytes line.old ++ spaced (decimal length ∷ decimal need ∷ decimal room ∷ [])) }
{
    push_number(alloc, line, length)?;
    push_number(alloc, line, need)?;
    push_number(alloc, line, room)?;
    Ok(())
}

// Adds the name of a lane and two numbers, each after a space.
fn push_ahead(
    alloc: Global,
    line: &mut String,
    name: &Txt,
    fence: u64,
    epoch: u64,
) -> Result<(), NoMemory>
    ensures { IfOk result (λ _. string_bytes line.new
        ≡ string_bytes line.old ++ spaced (text_word name.now ∷ decimal fence ∷ decimal epoch ∷ [])) }
{
    push_text(alloc, line, name)?;
    push_number(alloc, line, fence)?;
    push_number(alloc, line, epoch)?;
    Ok(())
}
