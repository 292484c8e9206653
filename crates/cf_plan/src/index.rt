//! Plans and names among which a path is looked up by halves.
ghost use Rattle.std.specs.Prelude.{◌≡◌, ◌++◌, ◌∷◌, [], IfOk, length};
ghost use Rattle.std.specs.Option.{option_copied};
ghost use Rattle.cf_tree.specs.Lists.{is_among};
ghost use Rattle.cf_desired.specs.Whole.{wanted_at};

use cf_desired::{Plan, Wanted};
use cf_effect::PathIndex;
use cf_tree::{ByName, Names, Txt};
use std::alloc::{AllocError, Global};
use std::marker::Model;

/// A plan with the places of its paths; contracts see it as the plan.
#[derive(Drop)]
pub(crate) struct PlanIndex<'a> {
    plan: &'a Plan,
    wanted: PathIndex<'a, Wanted>,
}

impl<'a> Model for PlanIndex<'a> {
    ghost use Rattle.cf_desired.specs.declared.wanted.Plan.{Plan};

    ghost Value = { Plan };

    ghost use Rattle.std.specs.Coded.{codes};
    ghost use Rattle.cf_tree.specs.Datum.{data_code};

    ghost coded = { Prim.hlevel (codes, data_code) };

    ghost view = { λ i. i.plan.now };

    ghost use Rattle.std.specs.Prelude.{◌≡◌};

    ghost invariant = { λ i. i.wanted ≡ i.plan.now.wanted };
}

/// Names in the order in which they came; contracts see them as the list.
#[derive(Drop)]
pub(crate) struct NameIndex {
    names: Vec<Txt>,
    set: ByName<bool>,
}

impl Model for NameIndex {
    ghost use Rattle.std.specs.Prelude.{List, ℕ};

    ghost Value = { List (List ℕ) };

    ghost view = { λ i. i.names.items };

    ghost use Rattle.cf_plan.specs.Index.{IsSetOf};

    ghost invariant = { λ i. IsSetOf i.names.items i.set };
}

impl<'a> PlanIndex<'a> {
    /// A plan, to look up its paths.
    pub(crate) fn new(alloc: Global, plan: &'a Plan) -> Result<PlanIndex<'a>, AllocError>
        ensures { IfOk result (λ i. i ≡ plan.now) }
    {
        let wanted = PathIndex::new(alloc, plan.wanted.as_slice())?;
        Ok(PlanIndex { plan, wanted })
    }

    /// The plan.
    pub(crate) fn plan(&self) -> &'a Plan
        ensures { result.now ≡ self.now }
    {
        self.plan
    }

    /// What is wanted at a path.
    pub(crate) fn wanted_at(&self, path: &Txt) -> Option<&'a Wanted>
        ensures { option_copied result ≡ wanted_at path.now self.now }
    {
        self.wanted.get(path)
    }
}

impl NameIndex {
    /// No names; it takes no memory.
    pub(crate) fn new(alloc: Global) -> NameIndex
        ensures { result ≡ [] }
    {
        NameIndex {
            names: Vec::new(alloc),
            set: ByName::new(alloc),
        }
    }

    /// Names by copies of them.
    pub(crate) fn of(alloc: Global, names: &Names) -> Result<NameIndex, AllocError>
        ensures { IfOk result (λ i. i ≡ names.now) }
    {
        let mut index = NameIndex::new(alloc);
        for name in names.as_slice() {
            index.push(alloc, name)?;
        }
        Ok(index)
    }

    /// Adds a copy of a name at the end. After an error the names are as they were.
    pub(crate) fn push(&mut self, alloc: Global, name: &Txt) -> Result<(), AllocError>
        ensures { IfOk result (λ _. self.new ≡ self.old ++ name.now ∷ []) }
    {
        self.names.reserve(1)?;
        let last = name.try_clone(alloc)?;
        self.set.insert(name.try_clone(alloc)?, true)?;
        self.names.push_reserved(last);
        Ok(())
    }

    /// Whether a name is among them.
    pub(crate) fn contains(&self, name: &Txt) -> bool
        ensures { result ≡ is_among name.now self.now }
    {
        self.set.get(name.as_str()).is_some()
    }

    /// How many names there are.
    pub(crate) fn len(&self) -> usize
        ensures { result ≡ length self.now }
    {
        self.names.len()
    }

    /// The names as a list, without taking memory.
    pub(crate) fn into_names(self) -> Names
        ensures { result ≡ self }
    {
        let NameIndex { names, set } = self;
        drop(set);
        Names::from_vec(names)
    }
}
