//! Faults in words: the name, then the fields in their order, texts as compact JSON.
use crate::told::Told;
use cf_eval::{EvalFault, EvalWhy};
use cf_graph::GraphFault;
use cf_param::BindFault;
use cf_schema::SchemaFault;
use cf_template::TemplateFault;

/// Adds why a template is not read.
pub fn template_fault(told: &mut Told, fault: &TemplateFault) {
    match fault {
        TemplateFault::NotJson => told.put("NotJson"),
        TemplateFault::TooLong { length } => {
            told.put("TooLong");
            told.number_word(*length);
        }
        TemplateFault::WrongShape { path } => told.named("WrongShape ", path),
        TemplateFault::UnknownSection { name } => told.named("UnknownSection ", name),
        TemplateFault::BadVersion => told.put("BadVersion"),
        TemplateFault::NullValue { path } => told.named("NullValue ", path),
        TemplateFault::BadNumber { path } => told.named("BadNumber ", path),
        TemplateFault::BadName { path } => told.named("BadName ", path),
        TemplateFault::TooMany { what, count } => {
            told.named("TooMany ", what);
            told.number_word(*count);
        }
        TemplateFault::UnknownFunction { path } => told.named("UnknownFunction ", path),
        TemplateFault::Unsupported { path, name } => {
            told.named("Unsupported ", path);
            told.named(" ", name);
        }
        TemplateFault::NoMemory => told.put("NoMemory"),
    }
}

/// Adds why parameters are not bound.
pub fn bind_fault(told: &mut Told, fault: &BindFault) {
    let (word, name) = match fault {
        BindFault::Undeclared { name } => ("Undeclared ", name),
        BindFault::Missing { name } => ("Missing ", name),
        BindFault::NotANumber { name } => ("NotANumber ", name),
        BindFault::TooShort { name } => ("TooShort ", name),
        BindFault::TooLong { name } => ("TooLong ", name),
        BindFault::TooSmall { name } => ("TooSmall ", name),
        BindFault::TooLarge { name } => ("TooLarge ", name),
        BindFault::NotAllowed { name } => ("NotAllowed ", name),
        BindFault::NoMatch { name } => ("NoMatch ", name),
        BindFault::BadPattern { name } => ("BadPattern ", name),
        BindFault::NoMemory => return told.put("NoMemory"),
    };
    told.named(word, name);
}

/// Adds why an evaluation gives nothing.
pub fn eval_fault(told: &mut Told, fault: &EvalFault) {
    match fault {
        EvalFault::Bad { why, stack, at } => {
            told.named(word_of(*why), stack);
            told.named(" ", at);
        }
        EvalFault::NoMemory => told.put("NoMemory"),
    }
}

fn word_of(why: EvalWhy) -> &'static str {
    match why {
        EvalWhy::UnknownName => "Bad UnknownName ",
        EvalWhy::UnknownAttribute => "Bad UnknownAttribute ",
        EvalWhy::UnknownMapKey => "Bad UnknownMapKey ",
        EvalWhy::IndexOutside => "Bad IndexOutside ",
        EvalWhy::WrongKind => "Bad WrongKind ",
        EvalWhy::UnknownImport => "Bad UnknownImport ",
        EvalWhy::CircularCondition => "Bad CircularCondition ",
        EvalWhy::NotMade => "Bad NotMade ",
        EvalWhy::TooBig => "Bad TooBig ",
    }
}

/// Adds why a template has no order of work.
pub fn graph_fault(told: &mut Told, fault: &GraphFault) {
    match fault {
        GraphFault::Circular { cycle } => {
            told.put("Circular ");
            told.names(cycle.as_slice());
        }
        GraphFault::UnknownDependency { from, name } => {
            told.named("UnknownDependency ", from);
            told.named(" ", name);
        }
        GraphFault::NoMemory => told.put("NoMemory"),
    }
}

/// Adds why a schema is not read.
pub fn schema_fault(told: &mut Told, fault: &SchemaFault) {
    match fault {
        SchemaFault::NotJson => told.put("NotJson"),
        SchemaFault::Missing { name } => told.named("Missing ", name),
        SchemaFault::WrongShape { name } => told.named("WrongShape ", name),
        SchemaFault::BadPointer { text } => told.named("BadPointer ", text),
        SchemaFault::NoMemory => told.put("NoMemory"),
    }
}
