//! Properties that are known, or not known yet.
ghost use Rattle.std.specs.Prelude.{◌≡◌, [], ◌∷◌, ◌++◌, IfOk, IsTrue, map, option_map};
ghost use Rattle.cf_tree.specs.Keys.{ascends};
ghost use Rattle.cf_tree.specs.Value.{datum_of};
ghost use Rattle.cf_desired.specs.Props.{prop_of};
ghost use Rattle.cf_desired.specs.Whole.{known_props_from};

use cf_tree::{Dict, Pair, Txt, Val};
use std::alloc::{AllocError, Global};
use std::marker::Model;

/// A property of a resource: its value, `None` while it is not known yet.
#[derive(Drop)]
pub struct Prop {
    pub name: Txt,
    pub value: Option<Val>,
}

/// The properties of a resource, in the order of their names.
#[derive(Drop)]
pub struct Props {
    items: Vec<Prop>,
}

impl Model for Props {
    ghost use Rattle.std.specs.Prelude.{List, ℕ, Option, map};
    ghost use Rattle.std.specs.Coded.{coded_list, coded×, coded_ℕ, coded_option};
    ghost use Rattle.cf_tree.specs.Datum.{Data, data_code};
    ghost use Rattle.cf_desired.specs.Props.{prop_of};

    ghost Value = { List (List ℕ × Option Data) };

    ghost coded = { coded_list (coded× (coded_list coded_ℕ) (coded_option data_code)) };

    ghost view = { λ p. map prop_of p.items.items };

    ghost use Rattle.std.specs.Prelude.{IsTrue};
    ghost use Rattle.cf_tree.specs.Keys.{ascends};

    ghost invariant = { λ p. IsTrue (ascends (map prop_of p.items.items)) };
}

impl Props {
    /// No properties; it takes no memory.
    pub fn new(alloc: Global) -> Props
        ensures { result ≡ [] }
    {
        Props {
            items: Vec::new(alloc),
        }
    }

    /// Adds a property whose name is above the others. After an error the properties are as they were, and this one is gone.
    pub fn push(&mut self, name: Txt, value: Option<Val>) -> Result<(), AllocError>
        requires { IsTrue (ascends (self.old ++ (name, option_map datum_of value) ∷ [])) }
        ensures { IfOk result (λ _. self.new ≡ self.old ++ (name, option_map datum_of value) ∷ []) }
    {
        self.items.push(Prop { name, value })?;
        Ok(())
    }

    /// The properties in the order of their names.
    pub fn as_slice(&self) -> &[Prop]
        ensures value { map prop_of result.now ≡ self.now }
        ensures in_order { IsTrue (ascends (map prop_of result.now)) }
    {
        self.items.as_slice()
    }

    /// The properties as a dictionary, where all of them are known.
    ///
    /// # Errors
    ///
    /// Only for want of memory.
    #[tactic(auto, using(crate::proofs::Known::all_known, crate::proofs::Known::none_at))]
    pub fn known(&self, alloc: Global) -> Result<Option<Dict>, AllocError>
        ensures { IfOk result (λ known. known ≡ known_props_from self.now) }
    {
        let mut pairs = Vec::new(alloc);
        for prop in self.as_slice() {
            match &prop.value {
                Some(value) => pairs.push(Pair {
                    name: prop.name.try_clone(alloc)?,
                    value: value.try_clone(alloc)?,
                })?,
                None => return Ok(None),
            }
        }
        Ok(Some(Dict::from_pairs(pairs)))
    }
}
