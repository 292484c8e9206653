//! Lists of structs.
ghost use Rattle.std.specs.Prelude.{◌≡◌, [], ◌∷◌, ◌++◌, length, IfOk, OnErr, IsTrue, ◌↔◌, ◌≤◌, insert};
ghost use Rattle.std.specs.Borrow.{sem};
ghost use Rattle.std.specs.Fn.{CalledAt};
ghost use Rattle.std.specs.List.Retain.{IsFiltered};
ghost use Rattle.cf_tree.specs.Lent.{LendsMembers};

use std::alloc::{AllocError, AllocFailed, Global};
use std::marker::Model;

/// A list, which contracts see as the list of its members.
#[derive(Drop)]
pub struct Listing<T> {
    items: Vec<T>,
}

impl<T> Model for Listing<T> {
    ghost use Rattle.std.specs.Prelude.{List};

    ghost Value = { List T };

    ghost view = { λ n. n.items.items };
}

impl<T> Listing<T> {
    /// The empty list; it takes no memory.
    pub fn new(alloc: Global) -> Listing<T>
        ensures { result ≡ [] }
    {
        Listing {
            items: Vec::new(alloc),
        }
    }

    /// The members of a vector in their order, without taking memory.
    pub fn from_vec(items: Vec<T>) -> Listing<T>
        ensures { result ≡ items.items }
    {
        Listing { items }
    }

    /// The members as a vector in their order, without taking memory.
    pub fn into_vec(self) -> Vec<T>
        ensures { result.items ≡ self }
    {
        let Listing { items } = self;
        items
    }

    /// How many members there are.
    pub fn len(&self) -> usize
        ensures { result ≡ length self.now }
    {
        self.items.len()
    }

    /// Whether there is no member.
    pub fn is_empty(&self) -> bool
        ensures { IsTrue result ↔ (self.now ≡ []) }
    {
        self.items.is_empty()
    }

    /// The members in their order.
    pub fn as_slice(&self) -> &[T]
        ensures { result.now ≡ self.now }
    {
        self.items.as_slice()
    }

    /// The members in their order, each of which may be changed where it stands.
    pub fn as_mut_slice(&mut self) -> &mut [T]
        ensures* lends { sem 𝓛 (LendsMembers T.row self.entry result) }
        ensures value { result.now ≡ self.old }
    {
        self.items.as_mut_slice()
    }
}

impl<T: Drop> Listing<T> {
    /// Adds a member at the end. After an error the list is as it was, and the member is gone.
    pub fn push(&mut self, item: T) -> Result<(), AllocError>
        ensures ok { IfOk result (λ _. self.new ≡ self.old ++ item ∷ []) }
        ensures err { OnErr result (self.new ≡ self.old) }
    {
        self.items.push(item)?;
        Ok(())
    }

    /// Puts a member before the one at a place, or at the end. After an error the list is as it was,
    /// and the member is gone.
    pub fn insert(&mut self, at: usize, item: T) -> Result<(), AllocError>
        requires { at ≤ length self.old }
        ensures ok { IfOk result (λ _. self.new ≡ insert self.old at item) }
        ensures err { OnErr result (self.new ≡ self.old) }
    {
        self.items.insert(at, item)?;
        Ok(())
    }

    /// Moves the members of another list to the end. After an error the list is as it was, and the
    /// other one is gone.
    pub fn append(&mut self, other: Listing<T>) -> Result<(), AllocError>
        ensures ok { IfOk result (λ _. self.new ≡ self.old ++ other) }
        ensures err { OnErr result (self.new ≡ self.old) }
    {
        let mut items = other.into_vec();
        self.items.append(&mut items)
    }

    /// Keeps the members that pass a test, in their order.
    pub fn retain<F: FnMut(&T) -> bool>(&mut self, test: F)
        requires { F.IsAlwaysCallable test }
        ensures { IsFiltered (CalledAt F.FnMut) test self.old self.new }
    {
        self.items.retain(test);
    }
}
