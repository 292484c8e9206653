//! Laws about what a source wants, which the crates above cite. None of these functions does
//! anything when it runs.
ghost use Rattle.cf_rests.specs.ExportsStay.{ExportNamesStay};
ghost use Rattle.cf_rests.specs.Outputs.{ExportsAreOutputs, ExportsMatter, OutputsMatter};
ghost use Rattle.cf_rests.specs.Views.{PlanByPaths};

/// An output of the root rests on what is seen of the paths that its value and the name of its
/// export mention, and on nothing else that is seen.
pub fn outputs_matter()
    ensures { OutputsMatter }
{}

/// So does each output of a nested stack, with what the nested stack needs.
pub fn exports_matter()
    ensures { ExportsMatter }
{}

/// The exports of a plan are those of its outputs, nested ones as well.
pub fn exports_are_outputs()
    ensures { ExportsAreOutputs }
{}

/// Where a plan has no flaw, the names that it exports stay as more is seen, and so do known values.
pub fn export_names_stay()
    ensures { ExportNamesStay }
{}

/// What a plan has at a path is what the shape and the values at that path say.
pub fn plan_by_paths()
    ensures { PlanByPaths }
{}
