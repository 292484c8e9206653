//! Laws about what a source wants: what outputs and exports rest on, what stays of exports, and how what is wanted is told path
//! by path.
#![tactic(auto)]

mod laws;

pub use laws::{
    export_names_stay, exports_are_outputs, exports_matter, outputs_matter, plan_by_paths,
};
