ghost use Rattle.std.specs.Prelude.{◌≡◌, IfOk};

use cf_tree::{Names, Txt};
use std::alloc::{AllocError, Global};

/// The schema of a resource type (CloudFormation CLI guide, resource type schema): which properties its resources have, and how they may change.
#[derive(Drop)]
pub struct Schema {
    /// The name of the type.
    pub kind: Txt,
    /// The names of the properties.
    pub props: Names,
    /// The properties that a resource must have.
    pub required: Names,
    /// The properties of which a change needs a new resource.
    pub create_only: Names,
    /// The properties of which a change may need a new resource.
    pub conditional: Names,
    /// The properties that the handler alone gives.
    pub read_only: Names,
    /// The properties that together tell one resource from another.
    pub identifier: Names,
}

impl Schema {
    /// A copy of the schema.
    pub fn try_clone(&self, alloc: Global) -> Result<Schema, AllocError>
        ensures { IfOk result (λ s. s ≡ self.now) }
    {
        let kind = self.kind.try_clone(alloc)?;
        let props = self.props.try_clone(alloc)?;
        let required = self.required.try_clone(alloc)?;
        let create_only = self.create_only.try_clone(alloc)?;
        let conditional = self.conditional.try_clone(alloc)?;
        let read_only = self.read_only.try_clone(alloc)?;
        let identifier = self.identifier.try_clone(alloc)?;
        Ok(Schema {
            kind,
            props,
            required,
            create_only,
            conditional,
            read_only,
            identifier,
        })
    }
}
