//! Values that several hold at once.
ghost use Rattle.std.specs.Prelude.{◌≡◌, IfOk};
ghost use Rattle.std.specs.Option.{option_copied};
ghost use Rattle.cf_graph.specs.Needs.{resource_named};
ghost use Rattle.cf_template.proofs.Ordered.{AreOrdered, under_names};
ghost use Rattle.cf_tree.specs.Keys.{place};

use cf_tree::{Res, Template, TryClone};
use std::alloc::{AllocError, Global};
use std::cmp::Ordering;
use std::marker::Model;
use std::ops::Deref;
use std::sync::Arc;

/// A value that copies share; contracts see it as the value itself.
#[derive(Drop)]
pub struct Shared<T> {
    value: Arc<T>,
}

impl<T> Model for Shared<T> {
    ghost use Rattle.std.specs.Arc.{arc_value};

    ghost Value = { T };

    ghost view = { λ s. arc_value s.value };
}

impl<T: Drop> Shared<T> {
    /// The value, to be shared.
    ///
    /// # Errors
    ///
    /// Only for want of memory; the value is gone then.
    pub fn new(alloc: Global, value: T) -> Result<Shared<T>, AllocError>
        ensures { IfOk result (λ s. s ≡ value) }
    {
        let value = Arc::new(alloc, value)?;
        Ok(Shared { value })
    }
}

impl<T> Deref for Shared<T> {
    type Target = T;

    ghost deref_gives = { λ s x. x ≡ s };

    fn deref(&self) -> &T
        ensures { result.now ≡ self.now }
    {
        &self.value
    }
}

impl<T: Drop> TryClone for Shared<T> {
    fn try_clone(&self, _alloc: Global) -> Result<Shared<T>, AllocError> {
        let value = self.value.clone()?;
        Ok(Shared { value })
    }
}

/// A resource of a template that several hold; contracts see it as the resource itself.
#[derive(Drop)]
pub(crate) struct SharedRes {
    template: Shared<Template>,
    at: usize,
}

impl Model for SharedRes {
    ghost use Rattle.cf_tree.specs.declared.template.Res.{Res};

    ghost Value = { Res };

    ghost use Rattle.std.specs.Coded.{codes};
    ghost use Rattle.cf_tree.specs.Forms.{form_code};

    ghost coded = { Prim.hlevel (codes, form_code) };

    ghost use Rattle.cf_desired.specs.Shared.{resource_placed};

    ghost view = { λ r. resource_placed r.at r.template.resources };

    ghost use Rattle.std.specs.Prelude.{◌<◌, length};

    ghost invariant = { λ r. r.at < length r.template.resources };
}

impl Deref for SharedRes {
    type Target = Res;

    ghost deref_gives = { λ s x. x ≡ s };

    fn deref(&self) -> &Res
        ensures { result.now ≡ self.now }
    {
        &self.template.resources.as_slice()[self.at]
    }
}

/// Where the resource of a name is among resources whose names ascend, or else where it would go.
fn place_named(resources: &[Res], id: &str) -> Result<usize, usize>
    requires ordered { AreOrdered resources.now }
    ensures { result ≡ place id.now (under_names resources.now) }
{
    let mut low = 0;
    let mut high = resources.len();
    while low < high {
        let middle = low + (high - low) / 2;
        match resources[middle].name.order_of(id) {
            Ordering::Less => high = middle,
            Ordering::Equal => return Ok(middle),
            Ordering::Greater => low = middle + 1,
        }
    }
    Err(low)
}

/// The resource of a logical id in a template.
#[tactic(auto, using(crate::proofs::ResourceAt::named_in, crate::proofs::ResourceAt::named_nowhere))]
pub(crate) fn resource_named<'a>(template: &'a Template, id: &str) -> Option<&'a Res>
    requires ordered { AreOrdered template.now.resources }
    ensures { option_copied result ≡ resource_named id.now template.now }
{
    let resources = template.resources.as_slice();
    match place_named(resources, id) {
        Ok(at) => Some(&resources[at]),
        Err(_) => None,
    }
}

/// The resource of a logical id in a template, to be held with others.
#[tactic(auto, using(crate::proofs::ResourceAt::named_in, crate::proofs::ResourceAt::named_at, crate::proofs::ResourceAt::named_nowhere))]
pub(crate) fn shared_res(
    alloc: Global,
    template: &Shared<Template>,
    id: &str,
) -> Result<Option<SharedRes>, AllocError>
    requires ordered { AreOrdered template.now.resources }
    ensures { IfOk result (λ r. r ≡ resource_named id.now template.now) }
{
    match place_named(template.resources.as_slice(), id) {
        Ok(at) => Ok(Some(SharedRes {
            template: template.try_clone(alloc)?,
            at,
        })),
        Err(_) => Ok(None),
    }
}
