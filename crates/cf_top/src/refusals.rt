//! The exits of templates that are refused.
ghost use Rattle.std.specs.Prelude.{◌≡◌};
ghost use Rattle.cf_desired.specs.declared.flaw.Flaw.TheVariants.{TemplateMissing};
ghost use Rattle.cf_face.specs.declared.exit.Refusal.TheVariants.{Read, NotYet, Plan};
ghost use Rattle.cf_top.specs.Refusals.{RefusesTemplate, UnreadAs, exit_of_fault, told_of_stack};

use cf_desired::Flaw;
use cf_face::{Exit, Refusal, StackFault as Told};
use cf_prepare::{PrepareFault, StackFault};
use cf_template::TemplateFault;
use cf_tree::{TryClone, Txt};
use std::alloc::Global;

/// The exit where the library holds no template of the name.
pub fn missing(alloc: Global, name: &Txt) -> Exit
    ensures { RefusesTemplate (Plan (TemplateMissing name.now)) result }
{
    match name.try_clone(alloc) {
        Ok(name) => Exit::TemplateRefused {
            fault: Refusal::Plan {
                fault: Flaw::TemplateMissing { name },
            },
        },
        Err(_) => Exit::NoMemory,
    }
}

/// The exit where the bytes under the name were not read as a template.
pub fn unread(alloc: Global, name: &Txt, fault: TemplateFault) -> Exit
    ensures { UnreadAs name.now fault result }
{
    match (fault, name.try_clone(alloc)) {
        (TemplateFault::NoMemory, _) => Exit::NoMemory,
        (fault, Ok(name)) => Exit::TemplateRefused {
            fault: Refusal::Read { name, fault },
        },
        (_, Err(_)) => Exit::NoMemory,
    }
}

/// The exit where the template under the name holds what is not made yet.
pub fn not_yet(alloc: Global, name: &Txt) -> Exit
    ensures { RefusesTemplate (NotYet name.now) result }
{
    match name.try_clone(alloc) {
        Ok(name) => Exit::TemplateRefused {
            fault: Refusal::NotYet { name },
        },
        Err(_) => Exit::NoMemory,
    }
}

/// What preparing an operation refuses a stack for, as it is told.
fn told(fault: StackFault) -> Told
    ensures { result ≡ told_of_stack fault }
{
    match fault {
        StackFault::NoStack => Told::NoStack,
        StackFault::WrongStatus { status } => Told::WrongStatus { status },
        StackFault::NoChangeSet { number } => Told::NoChangeSet { number },
        StackFault::NotFailed { path } => Told::NotFailed { path },
        StackFault::TypeChanged { path } => Told::TypeChanged { path },
        StackFault::ExportTaken { name } => Told::ExportTaken { name },
        StackFault::ExportInUse { name } => Told::ExportInUse { name },
        StackFault::NoChanges => Told::NoChanges,
        StackFault::Outdated { number } => Told::Outdated { number },
    }
}

/// The exit of what preparing an operation is refused for.
pub fn refused(fault: PrepareFault) -> Exit
    ensures { result ≡ exit_of_fault fault }
{
    match fault {
        PrepareFault::Plan { flaw } => Exit::TemplateRefused {
            fault: Refusal::Plan { fault: flaw },
        },
        PrepareFault::UnknownType { path, name } => Exit::TemplateRefused {
            fault: Refusal::UnknownType { path, name },
        },
        PrepareFault::Stack { fault } => Exit::StackRefused { fault: told(fault) },
        PrepareFault::NoMemory => Exit::NoMemory,
    }
}
