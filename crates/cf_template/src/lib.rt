//! Reading of templates: from the bytes of a JSON text to what a stack is made of, or the first reason why not.
#![tactic(auto)]

mod arguments;
mod cond;
mod expr;
mod find;
mod function;
mod mapping;
mod output;
mod param;
mod path;
mod refusal;
mod resource;
mod shape;
mod subs;
mod value;
mod walk;
mod whole;
mod words;

pub use refusal::TemplateFault;
pub use subs::{SubFault, sub_parts};
pub use whole::read_template;
