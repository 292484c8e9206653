//! The rows of a change set.
ghost use Rattle.std.specs.Prelude.{◌≡◌};

use crate::copies::TryClone;
use crate::list::Listing;
use crate::text::Txt;
use std::alloc::{AllocError, Global};

/// What a change set does with a resource (`DescribeChangeSet`, `ResourceChange`, Action).
#[derive(Clone, Copy, Debug, PartialEq, Eq)]
pub enum Action {
    Add,
    Modify,
    Remove,
}

/// Whether a resource is replaced (`DescribeChangeSet`, `ResourceChange`, Replacement).
#[derive(Clone, Copy, Debug, PartialEq, Eq)]
pub enum Replacement {
    True,
    False,
    Conditional,
}

/// What of a resource changes (`DescribeChangeSet`, `ResourceTargetDefinition`, Attribute).
#[derive(Clone, Copy, Debug, PartialEq, Eq)]
pub enum Attribute {
    Properties,
    DeletionPolicy,
    UpdateReplacePolicy,
}

/// Whether a change of a property replaces the resource (`DescribeChangeSet`,
/// `ResourceTargetDefinition`, RequiresRecreation).
#[derive(Clone, Copy, Debug, PartialEq, Eq)]
pub enum Recreation {
    Never,
    Conditionally,
    Always,
}

/// Whether the new value is known (`DescribeChangeSet`, `ResourceChangeDetail`, Evaluation).
#[derive(Clone, Copy, Debug, PartialEq, Eq)]
pub enum Evaluation {
    Static,
    Dynamic,
}

/// One change of a resource (`DescribeChangeSet`, `ResourceChangeDetail`). The name is that of the
/// property, and empty for a policy.
#[derive(Drop, PartialEq, Eq)]
pub struct Detail {
    pub attribute: Attribute,
    pub name: Txt,
    pub recreation: Recreation,
    pub evaluation: Evaluation,
}

/// The changes of a resource.
pub type Details = Listing<Detail>;

/// What a change set does with the resource at a path (`DescribeChangeSet`, `ResourceChange`).
/// There is a replacement exactly where the resource is modified.
#[derive(Drop)]
pub struct Row {
    pub action: Action,
    pub path: Txt,
    pub kind: Txt,
    pub replacement: Option<Replacement>,
    /// Its live properties are not known.
    pub unsure: bool,
    pub details: Details,
}

/// The rows of a change set by path.
pub type Rows = Listing<Row>;

impl TryClone for Detail {
    fn try_clone(&self, alloc: Global) -> Result<Detail, AllocError> {
        let name = self.name.try_clone(alloc)?;
        Ok(Detail {
            attribute: self.attribute,
            name,
            recreation: self.recreation,
            evaluation: self.evaluation,
        })
    }
}

impl TryClone for Row {
    fn try_clone(&self, alloc: Global) -> Result<Row, AllocError> {
        let path = self.path.try_clone(alloc)?;
        let kind = self.kind.try_clone(alloc)?;
        let details = self.details.try_clone(alloc)?;
        Ok(Row {
            action: self.action,
            path,
            kind,
            replacement: self.replacement,
            unsure: self.unsure,
            details,
        })
    }
}
