//! The templates of a source.
ghost use Rattle.std.specs.Prelude.{◌≡◌, [], ◌∷◌, ◌++◌, IfOk, filter_map};
ghost use Rattle.std.specs.Option.{option_copied};
ghost use Rattle.cf_template.specs.Whole.{template_of};
ghost use Rattle.cf_desired.specs.Templates.{accepted, is_stack, template_named, template_under, templates_of};

use crate::shared::Shared;
use cf_template::{TemplateFault, read_template};
use cf_tree::{ByName, Bytes, Res, Source, Template, Txt};
use std::alloc::{AllocError, Global};

/// Templates by their names in the library.
pub type Templates = ByName<Shared<Template>>;

/// The templates of those of a source's texts that are templates, by their names.
///
/// # Errors
///
/// Only for want of memory.
pub fn templates_of(alloc: Global, source: &Source) -> Result<Templates, AllocError>
    ensures { IfOk result (λ templates. templates ≡ templates_of source.now) }
{
    let mut templates = Vec::new(alloc);
    for text in source.texts.as_slice() {
        add_template(alloc, &mut templates, text)?;
    }
    Ok(ByName::from_vec(templates))
}

/// Adds the template that a text is, where it is one, under its name.
fn add_template(
    alloc: Global,
    templates: &mut Vec<(Txt, Shared<Template>)>,
    text: &(Txt, Bytes),
) -> Result<(), AllocError>
    ensures { IfOk result (λ _. templates.new.items ≡ templates.old.items ++ filter_map template_under (text.now ∷ [])) }
{
    match template_of(alloc, &text.1)? {
        Some(template) => {
            let template = Shared::new(alloc, template)?;
            templates.push((text.0.try_clone(alloc)?, template))?;
            Ok(())
        }
        None => Ok(()),
    }
}

/// The template that a text is, where it is one.
fn template_of(alloc: Global, text: &Bytes) -> Result<Option<Template>, AllocError>
    ensures { IfOk result (λ template. template ≡ accepted (template_of text.now)) }
{
    match read_template(alloc, text.as_slice()) {
        Ok(template) => Ok(Some(template)),
        Err(TemplateFault::NoMemory) => Err(AllocError),
        Err(_) => Ok(None),
    }
}

/// The template of a name among the texts of a source, where there is one.
pub(crate) fn template_named<'a>(
    source: &Source,
    templates: &'a Templates,
    name: &Txt,
) -> Option<&'a Shared<Template>>
    requires { templates.now ≡ templates_of source.now }
    ensures { option_copied result ≡ template_named name.now source.now }
{
    // Each name has one text, since the names of the texts ascend.
    let _texts = source.texts.as_slice();
    templates.get(name.as_str())
}

/// Whether a resource is a nested stack.
pub(crate) fn is_stack(resource: &Res) -> bool
    ensures { result ≡ is_stack resource.now }
{
    resource.kind.as_str() == "AWS::CloudFormation::Stack"
}
