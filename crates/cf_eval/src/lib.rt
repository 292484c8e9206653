//! Conditions, mappings and intrinsic functions of templates.
#![tactic(auto)]

mod collect;
mod compare;
mod condition_map;
mod decide;
mod env;
mod evaluation;
mod fault;
mod functions;
mod got;
mod names;
mod scope;
mod sights;
mod sub;
mod texts;
mod value;
mod verdict;

pub use condition_map::conditions;
pub use env::{Env, OutputSight, Sight};
pub use evaluation::{eval, eval_within, known_stays};
pub use fault::{EvalFault, EvalWhy};
pub use got::Got;
pub use sights::{SeenAt, Sights, path_in};
pub use value::blamed;
