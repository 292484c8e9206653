//! What the resources of a stack are to be.
#![tactic(auto)]

mod binding;
mod context;
mod copies;
mod decision;
mod evaluations;
mod exports;
mod flaw;
mod frames;
mod laws;
mod laying;
mod members;
mod names;
mod offers;
mod outputs;
mod props;
mod pseudo;
mod refusal;
mod seen;
mod shape;
mod shared;
mod sights;
mod template_name;
mod templates;
mod text;
mod turns;
mod values;
mod wanted;
mod whole_plan;

pub use exports::export_names;
pub use flaw::{Flaw, Flaws};
pub use laws::{
    all_known_is_whole, flawless_is_clear, hiding_serves, known_stays, needed_is_known,
    needs_come_first, needs_matter, order_tells_needs, output_rests, paths_differ, seen_is_known,
    shape_stays, stack_needs_matter, update_stays, value_rests,
};
pub use laying::shape_of;
pub use props::{Prop, Props};
pub use refusal::{Desired, DesiredFault, desired};
pub use seen::{Seen, SeenAt};
pub use shape::{Shape, Terms, all_terms, has_nested, terms_at};
pub use shared::Shared;
pub use templates::{Templates, templates_of};
pub use text::plan_text;
pub use values::{plan, plan_by, props_at};
pub use wanted::{Evaluated, Exporting, Inner, Plan, Wanted, WantedOutput};
pub use whole_plan::{Right, WholePlan, whole};
