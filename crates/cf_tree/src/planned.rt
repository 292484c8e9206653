//! Resources whose properties are evaluated.
ghost use Rattle.std.specs.Prelude.{◌≡◌, IfOk};

use crate::copies::TryClone;
use crate::list::Listing;
use crate::named::Named;
use crate::text::Txt;
use crate::value::Dict;
use std::alloc::{AllocError, Global};

/// A resource that is to be there: its logical id, its type and its evaluated properties.
#[derive(Drop, PartialEq, Eq)]
pub struct Planned {
    pub name: Txt,
    pub kind: Txt,
    pub props: Dict,
}

/// Resources that are to be there, in their order.
pub type Plans = Listing<Planned>;

impl Named for Planned {
    ghost name_of = { λ p. p.name };

    fn name(&self) -> &Txt {
        &self.name
    }
}

impl Planned {
    /// A copy of the resource.
    pub fn try_clone(&self, alloc: Global) -> Result<Planned, AllocError>
        ensures { IfOk result (λ p. p ≡ self.now) }
    {
        let name = self.name.try_clone(alloc)?;
        let kind = self.kind.try_clone(alloc)?;
        let props = self.props.try_clone(alloc)?;
        Ok(Planned { name, kind, props })
    }
}

impl TryClone for Planned {
    fn try_clone(&self, alloc: Global) -> Result<Planned, AllocError> {
        Planned::try_clone(self, alloc)
    }
}
