ghost use Rattle.std.specs.Prelude.{◌≡◌, [], length, find, if◌then◌else◌, IfOk, OnErr, ◌∷◌, ◌++◌, not};
ghost use Rattle.std.specs.Option.{option_copied};
ghost use Rattle.cf_schema.specs.Kinds.{found, with_kind};

use crate::described::Schema;
use std::alloc::{AllocError, Global};
use std::marker::Model;

/// Schemas of which no two are of one type, in the order in which they came.
#[derive(Drop)]
pub struct Schemas {
    items: Vec<Schema>,
}

impl Model for Schemas {
    ghost use Rattle.std.specs.Prelude.{List, IsTrue};
    ghost use Rattle.cf_schema.specs.declared.described.Schema.{Schema};
    ghost use Rattle.cf_schema.specs.Kinds.{kinds_distinct};

    ghost Value = { List Schema };

    ghost view = { λ s. s.items.items };

    ghost invariant = { λ s. IsTrue (kinds_distinct s.items.items) };
}

impl Schemas {
    /// No schemas; it takes no memory.
    pub fn new(alloc: Global) -> Schemas
        ensures { result ≡ [] }
    {
        Schemas {
            items: Vec::new(alloc),
        }
    }

    /// The schema of a type.
    pub fn find(&self, kind: &str) -> Option<&Schema>
        ensures { option_copied result ≡ found kind.now self.now }
    {
        for schema in self.items.iter() {
            if schema.kind.is(kind) {
                return Some(schema);
            }
        }
        None
    }

    /// Adds a schema at the end, unless there is one of its type. After an error the schemas are as they were, and the new one is gone.
    #[tactic(auto, using(crate::proofs::Distinct::distinct_more))]
    pub fn add(&mut self, schema: Schema) -> Result<(), AllocError>
        ensures ok { IfOk result (λ _. self.new ≡ with_kind schema self.old) }
        ensures err { OnErr result (self.new ≡ self.old) }
    {
        if self.find(schema.kind.as_str()).is_none() {
            self.items.push(schema)?;
        }
        Ok(())
    }

    /// How many schemas there are.
    pub fn len(&self) -> usize
        ensures { result ≡ length self.now }
    {
        self.items.len()
    }

    /// The schemas in their order.
    pub fn as_slice(&self) -> &[Schema]
        ensures { result.now ≡ self.now }
    {
        self.items.as_slice()
    }
}
