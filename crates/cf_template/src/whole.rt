//! A template, section by section.
ghost use Rattle.std.specs.Prelude.{◌≡◌, [], codes, Some};
ghost use Rattle.serde_json.specs.Find.{get};
ghost use Rattle.serde_json.specs.View.{view, members_view};
ghost use Rattle.cf_template.specs.Conds.{conds_in};
ghost use Rattle.cf_template.specs.Maps.{mappings_in};
ghost use Rattle.cf_template.specs.Outputs.{outputs_form};
ghost use Rattle.cf_template.specs.Params.{params_in};
ghost use Rattle.cf_template.specs.Resources.{resources_in};
ghost use Rattle.cf_template.specs.Refusals.{Finds, ReadsAs, mapped};
ghost use Rattle.cf_template.specs.Shapes.{optional, plain_text, unread};
ghost use Rattle.cf_template.specs.Whole.{count_fault, empty_fault, free_section, is_section, is_untaken_section, is_version, required_section, section, section_fault, sections_fault, sections_of, template_from, template_of, value_template};

use crate::cond::conditions;
use crate::mapping::mappings;
use crate::output::outputs;
use crate::param::parameters;
use crate::path::{Path, member_at};
use crate::refusal::TemplateFault;
use crate::resource::resources;
use crate::shape::{optional_text, skip_object};
use crate::value::{count_of, value_of};
use crate::walk::{Region, walk};
use cf_tree::{Mappings, NamedConds, Outs, Params, Resources, Template, Txt};
use serde_json::{Map, Value};
use std::alloc::Global;

/// The most bytes that a template may have.
const MOST_BYTES: usize = 1_048_576;

/// Reads a template: what a stack is made of, from the bytes of a JSON text (User Guide: template anatomy).
///
/// # Errors
///
/// The first of these, in this order: `TooLong` for more than 1,048,576 bytes; `NotJson`; `NullValue` and `BadNumber` for
/// what may stand nowhere in a template; `WrongShape` where it is no object; `Unsupported` and `UnknownSection` for its
/// sections; `BadVersion`; then what stands in the sections, in the order Description, Metadata, Parameters, Mappings,
/// Conditions, Resources, Outputs. `NoMemory` says nothing of the template.
pub fn read_template(alloc: Global, bytes: &[u8]) -> Result<Template, TemplateFault>
    ensures { ReadsAs (template_of bytes.now) result }
{
    if bytes.len() > MOST_BYTES {
        return Err(TemplateFault::TooLong {
            length: bytes.len() as u64,
        });
    }
    let value = value_of(alloc, bytes)?;
    template(alloc, &value)
}

fn template(alloc: Global, value: &Value) -> Result<Template, TemplateFault>
    ensures { ReadsAs (value_template (Some (view value.now))) result }
{
    let mut path = Path::root(alloc);
    walk(alloc, value, Region::Root, &mut path)?;
    root(alloc, value)
}

fn root(alloc: Global, value: &Value) -> Result<Template, TemplateFault>
    ensures { ReadsAs (template_from (view value.now)) result }
{
    let Value::Object(members) = value else {
        return Err(TemplateFault::WrongShape {
            path: Txt::from_str(alloc, "")?,
        });
    };
    test_sections(alloc, members)?;
    if has_version(value) {
        sections(alloc, value)
    } else {
        Err(TemplateFault::BadVersion)
    }
}

/// Refuses the first section that a template may not have.
fn test_sections(alloc: Global, members: &Map<String, Value>) -> Result<(), TemplateFault>
    ensures { Finds (sections_fault (members_view members.now.entries)) result }
{
    for (name, _) in members.iter() {
        test_section(alloc, name.as_str())?;
    }
    Ok(())
}

fn test_section(alloc: Global, name: &str) -> Result<(), TemplateFault>
    ensures { Finds (section_fault name.now) result }
{
    if is_section(name) {
        Ok(())
    } else if is_untaken_section(name) {
        Err(TemplateFault::Unsupported {
            path: member_at(alloc, "", name)?,
            name: Txt::from_str(alloc, name)?,
        })
    } else {
        Err(TemplateFault::UnknownSection {
            name: Txt::from_str(alloc, name)?,
        })
    }
}

fn is_section(name: &str) -> bool
    ensures { result ≡ is_section name.now }
{
    matches!(
        name,
        "AWSTemplateFormatVersion"
            | "Conditions"
            | "Description"
            | "Mappings"
            | "Metadata"
            | "Outputs"
            | "Parameters"
            | "Resources"
    )
}

fn is_untaken_section(name: &str) -> bool
    ensures { result ≡ is_untaken_section name.now }
{
    matches!(name, "Hooks" | "Rules" | "Transform")
}

/// Whether the version is the only one there is, where it is given.
fn has_version(root: &Value) -> bool
    ensures { result ≡ is_version (get (codes "AWSTemplateFormatVersion") (view root.now)) }
{
    match root.get("AWSTemplateFormatVersion") {
        None => true,
        Some(Value::String(text)) => text.as_str() == "2010-09-09",
        Some(_) => false,
    }
}

/// The description, which the template keeps in its bytes alone.
fn description(alloc: Global, root: &Value) -> Result<Option<Txt>, TemplateFault>
    ensures { ReadsAs (optional plain_text (codes "Description") (view root.now) []) result }
{
    let at = Txt::from_str(alloc, "")?;
    optional_text(alloc, root, "Description", &at)
}

/// The metadata, which the template keeps in its bytes alone.
fn metadata(alloc: Global, root: &Value) -> Result<Option<bool>, TemplateFault>
    ensures { ReadsAs (optional unread (codes "Metadata") (view root.now) []) result }
{
    let at = Txt::from_str(alloc, "")?;
    skip_object(alloc, root, "Metadata", &at)
}

fn sections(alloc: Global, root: &Value) -> Result<Template, TemplateFault>
    ensures { ReadsAs (sections_of (view root.now)) result }
{
    let mut template = Template {
        params: Params::new(alloc),
        mappings: Mappings::new(alloc),
        conds: NamedConds::new(alloc),
        resources: Resources::new(alloc),
        outputs: Outs::new(alloc),
    };
    match read_sections(alloc, root, &mut template) {
        Ok(()) => Ok(template),
        Err(fault) => {
            drop(template);
            Err(fault)
        }
    }
}

/// Reads each section into its place, where nothing stands. After an error nothing is said of what stands there.
fn read_sections(alloc: Global, root: &Value, template: &mut Template) -> Result<(), TemplateFault>
    requires { template.old ≡ record { params = []; mappings = []; conds = []; resources = []; outputs = [] } }
    ensures { ReadsAs (sections_of (view root.now)) (mapped (λ _. template.new) result) }
{
    description(alloc, root)?;
    metadata(alloc, root)?;
    read_parameters(alloc, root, &mut template.params)?;
    read_mappings(alloc, root, &mut template.mappings)?;
    read_conditions(alloc, &template.params, root, &mut template.conds)?;
    read_resources(alloc, &template.params, root, &mut template.resources)?;
    read_outputs(alloc, &template.params, root, &mut template.outputs)?;
    Ok(())
}

/// Refuses a section that has too many members.
fn test_count(alloc: Global, name: &str, count: usize, most: usize) -> Result<(), TemplateFault>
    ensures { Finds (count_fault name.now most count) result }
{
    if count <= most {
        Ok(())
    } else {
        Err(TemplateFault::TooMany {
            what: Txt::from_str(alloc, name)?,
            count: count as u64,
        })
    }
}

/// Refuses a section that has no member.
fn test_some(alloc: Global, name: &str, count: usize) -> Result<(), TemplateFault>
    ensures { Finds (empty_fault name.now count) result }
{
    if count > 0 {
        Ok(())
    } else {
        Err(TemplateFault::WrongShape {
            path: member_at(alloc, "", name)?,
        })
    }
}

fn read_parameters(alloc: Global, root: &Value, found: &mut Params) -> Result<(), TemplateFault>
    requires { found.old ≡ [] }
    ensures { ReadsAs (section params_in 200 (codes "Parameters") (get (codes "Parameters") (view root.now))) (mapped (λ _. found.new) result) }
{
    match root.get("Parameters") {
        Some(value) => present_parameters(alloc, value, found),
        None => Ok(()),
    }
}

fn present_parameters(alloc: Global, value: &Value, found: &mut Params) -> Result<(), TemplateFault>
    requires { found.old ≡ [] }
    ensures { ReadsAs (section params_in 200 (codes "Parameters") (Some (view value.now))) (mapped (λ _. found.new) result) }
{
    let place = member_at(alloc, "", "Parameters")?;
    let Value::Object(members) = value else {
        return Err(TemplateFault::WrongShape { path: place });
    };
    test_count(alloc, "Parameters", count_of(members), 200)?;
    parameters(alloc, members, &place, found)
}

fn read_mappings(alloc: Global, root: &Value, found: &mut Mappings) -> Result<(), TemplateFault>
    requires { found.old ≡ [] }
    ensures { ReadsAs (section mappings_in 200 (codes "Mappings") (get (codes "Mappings") (view root.now))) (mapped (λ _. found.new) result) }
{
    match root.get("Mappings") {
        Some(value) => present_mappings(alloc, value, found),
        None => Ok(()),
    }
}

fn present_mappings(alloc: Global, value: &Value, found: &mut Mappings) -> Result<(), TemplateFault>
    requires { found.old ≡ [] }
    ensures { ReadsAs (section mappings_in 200 (codes "Mappings") (Some (view value.now))) (mapped (λ _. found.new) result) }
{
    let place = member_at(alloc, "", "Mappings")?;
    let Value::Object(members) = value else {
        return Err(TemplateFault::WrongShape { path: place });
    };
    test_count(alloc, "Mappings", count_of(members), 200)?;
    mappings(alloc, members, &place, found)
}

fn read_conditions(
    alloc: Global,
    params: &Params,
    root: &Value,
    found: &mut NamedConds,
) -> Result<(), TemplateFault>
    requires { found.old ≡ [] }
    ensures { ReadsAs (free_section (conds_in params.now) (codes "Conditions") (get (codes "Conditions") (view root.now))) (mapped (λ _. found.new) result) }
{
    match root.get("Conditions") {
        Some(value) => present_conditions(alloc, params, value, found),
        None => Ok(()),
    }
}

fn present_conditions(
    alloc: Global,
    params: &Params,
    value: &Value,
    found: &mut NamedConds,
) -> Result<(), TemplateFault>
    requires { found.old ≡ [] }
    ensures { ReadsAs (free_section (conds_in params.now) (codes "Conditions") (Some (view value.now))) (mapped (λ _. found.new) result) }
{
    let place = member_at(alloc, "", "Conditions")?;
    let Value::Object(members) = value else {
        return Err(TemplateFault::WrongShape { path: place });
    };
    conditions(alloc, params, members, &place, found)
}

fn read_resources(
    alloc: Global,
    params: &Params,
    root: &Value,
    found: &mut Resources,
) -> Result<(), TemplateFault>
    requires { found.old ≡ [] }
    ensures { ReadsAs (required_section (resources_in params.now) 500 (codes "Resources") (get (codes "Resources") (view root.now))) (mapped (λ _. found.new) result) }
{
    match root.get("Resources") {
        Some(value) => present_resources(alloc, params, value, found),
        None => Err(TemplateFault::WrongShape {
            path: member_at(alloc, "", "Resources")?,
        }),
    }
}

fn present_resources(
    alloc: Global,
    params: &Params,
    value: &Value,
    found: &mut Resources,
) -> Result<(), TemplateFault>
    requires { found.old ≡ [] }
    ensures { ReadsAs (required_section (resources_in params.now) 500 (codes "Resources") (Some (view value.now))) (mapped (λ _. found.new) result) }
{
    let place = member_at(alloc, "", "Resources")?;
    let Value::Object(members) = value else {
        return Err(TemplateFault::WrongShape { path: place });
    };
    test_some(alloc, "Resources", count_of(members))?;
    test_count(alloc, "Resources", count_of(members), 500)?;
    resources(alloc, params, members, &place, found)
}

fn read_outputs(
    alloc: Global,
    params: &Params,
    root: &Value,
    found: &mut Outs,
) -> Result<(), TemplateFault>
    requires { found.old ≡ [] }
    ensures { ReadsAs (section (outputs_form params.now) 200 (codes "Outputs") (get (codes "Outputs") (view root.now))) (mapped (λ _. found.new) result) }
{
    match root.get("Outputs") {
        Some(value) => present_outputs(alloc, params, value, found),
        None => Ok(()),
    }
}

fn present_outputs(
    alloc: Global,
    params: &Params,
    value: &Value,
    found: &mut Outs,
) -> Result<(), TemplateFault>
    requires { found.old ≡ [] }
    ensures { ReadsAs (section (outputs_form params.now) 200 (codes "Outputs") (Some (view value.now))) (mapped (λ _. found.new) result) }
{
    let place = member_at(alloc, "", "Outputs")?;
    let Value::Object(members) = value else {
        return Err(TemplateFault::WrongShape { path: place });
    };
    test_count(alloc, "Outputs", count_of(members), 200)?;
    outputs(alloc, params, members, &place, found)
}
