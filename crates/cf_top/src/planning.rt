//! What a template orders, which is refused where it can't be made.
ghost use Rattle.std.specs.Prelude.{◌≡◌, [], ◌∷◌, IfOk, Some};
ghost use Rattle.cf_prepare.specs.Prepare.{HasTemplates};
ghost use Rattle.cf_top.specs.Refusals.{TestsTemplate, chosen_refusal, deployed_source, wish_for};
ghost use Rattle.cf_top.specs.Tasks.{IsOrderOf, PreparesWish};

use crate::not_yet::is_not_yet;
use crate::refusals::{not_yet, unread};
use crate::wishing::order_wish;
use cf_desired::{Shared, Templates};
use cf_face::{Choice, Exit};
use cf_prepare::{Order, Wish};
use cf_schema::Schemas;
use cf_stacks::World;
use cf_template::read_template;
use cf_tree::{Bytes, Pairs, Source, Template, Texts, Txt};
use std::alloc::{AllocError, Global};

/// What a template is asked for.
#[derive(Clone, Copy)]
pub enum Purpose {
    /// The stack is to be created by it, or updated.
    Deploy,
    /// What that would change is to be kept as a change set.
    Review,
}

/// What a deployment of these bytes orders, or a review of them.
///
/// # Errors
///
/// `TemplateRefused` comes with the first of these: why the bytes are no template; `NotYet` where the template holds what
/// is not made yet; the first flaw of its plan; the first resource, by path, whose type no lane of the opening has, or of a review, that
/// has no schema. Then comes `StackRefused`: a path that is held with another type, an export that another stack has, or that another
/// imports, or that nothing changes. `WrongStatus`, which is tested before a template is looked for, comes before the first flaw.
pub fn check_template(
    alloc: Global,
    world: &World,
    schemas: &Schemas,
    choice: &Choice,
    stack: &Txt,
    purpose: Purpose,
    bytes: Vec<u8>,
) -> Result<Order, Exit>
    ensures { TestsTemplate (chosen_refusal purpose schemas.now world.now.world stack.now choice.now (Some bytes.items))
        (IsOrderOf purpose schemas.now world.now.world stack.now choice.now bytes.items) result }
{
    match read_template(alloc, bytes.as_slice()) {
        Ok(template) => {
            if is_not_yet(&template) {
                drop(template);
                drop(bytes);
                return Err(not_yet(alloc, &choice.template));
            }
            match wish_of(alloc, stack, choice, purpose, bytes) {
                Ok(wish) => order_template(alloc, world, schemas, wish, &choice.template, template),
                Err(_) => {
                    drop(template);
                    Err(Exit::NoMemory)
                }
            }
        }
        Err(fault) => {
            drop(bytes);
            Err(unread(alloc, &choice.template, fault))
        }
    }
}

/// What a wish orders whose source has this template under this name, and no other.
fn order_template(
    alloc: Global,
    world: &World,
    schemas: &Schemas,
    wish: Wish,
    name: &Txt,
    template: Template,
) -> Result<Order, Exit>
    requires { HasTemplates world.now.world wish ((name.now, template) ∷ []) }
    ensures { PreparesWish schemas.now world.now.world wish result }
{
    match templates_under(alloc, name, template) {
        Ok(templates) => order_wish(alloc, world, schemas, wish, templates),
        Err(_) => {
            drop(wish);
            Err(Exit::NoMemory)
        }
    }
}

/// A template under a name, and no other.
fn templates_under(alloc: Global, name: &Txt, template: Template) -> Result<Templates, AllocError>
    ensures { IfOk result (λ templates. templates ≡ (name.now, template) ∷ []) }
{
    let mut templates = Templates::new(alloc);
    match name.try_clone(alloc) {
        Ok(name) => {
            templates.insert(name, Shared::new(alloc, template)?)?;
            Ok(templates)
        }
        Err(failed) => {
            drop(template);
            drop(templates);
            Err(failed)
        }
    }
}

/// What is asked of a stack: to deploy what a choice of a template rests on, or to review it.
fn wish_of(
    alloc: Global,
    stack: &Txt,
    choice: &Choice,
    purpose: Purpose,
    bytes: Vec<u8>,
) -> Result<Wish, AllocError>
    ensures { IfOk result (λ wish. wish ≡ wish_for purpose stack.now (deployed_source stack.now choice.now bytes.items)) }
{
    match source_of(alloc, stack, choice, bytes) {
        Ok(source) => match (stack.try_clone(alloc), purpose) {
            (Ok(stack), Purpose::Deploy) => Ok(Wish::Deploy { stack, source }),
            (Ok(stack), Purpose::Review) => Ok(Wish::Review { stack, source }),
            (Err(failed), _) => {
                drop(source);
                Err(failed)
            }
        },
        Err(failed) => Err(failed),
    }
}

/// What a choice of a template rests on; it is written without the number of its operation.
fn source_of(
    alloc: Global,
    stack: &Txt,
    choice: &Choice,
    bytes: Vec<u8>,
) -> Result<Source, AllocError>
    ensures { IfOk result (λ source. source ≡ deployed_source stack.now choice.now bytes.items) }
{
    let mut source = Source {
        root: Txt::new(String::new(alloc)),
        texts: Texts::new(alloc),
        given: Pairs::new(alloc),
        imports: Pairs::new(alloc),
        stack: Txt::new(String::new(alloc)),
        number: 0,
    };
    match fill_source(alloc, &mut source, stack, choice, bytes) {
        Ok(()) => Ok(source),
        Err(failed) => {
            drop(source);
            Err(failed)
        }
    }
}

/// Makes a source that has no text yet that of a choice. After an error nothing is said of it.
fn fill_source(
    alloc: Global,
    source: &mut Source,
    stack: &Txt,
    choice: &Choice,
    bytes: Vec<u8>,
) -> Result<(), AllocError>
    requires { source.old.texts ≡ [] }
    ensures { IfOk result (λ _. source.new ≡ record (deployed_source stack.now choice.now bytes.items)
        { imports = source.old.imports; number = source.old.number }) }
{
    let name = choice.template.try_clone(alloc)?;
    source.texts.insert(name, Bytes::from_vec(bytes))?;
    source.root = choice.template.try_clone(alloc)?;
    source.given = choice.given.try_clone(alloc)?;
    source.stack = stack.try_clone(alloc)?;
    Ok(())
}
