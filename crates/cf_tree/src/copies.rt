//! Copies of values.
ghost use Rattle.std.specs.Prelude.{◌≡◌, IfOk};

use crate::by_name::ByName;
use crate::list::Listing;
use crate::names::Names;
use crate::request::Request;
use crate::source::Source;
use crate::text::Txt;
use crate::value::Dict;
use std::alloc::{AllocError, Global};

/// What can be copied; the copy is the same value.
pub trait TryClone: Sized {
    /// A copy of the value.
    fn try_clone(&self, alloc: Global) -> Result<Self, AllocError>
        ensures { IfOk result (λ x. x ≡ self.now) };
}

impl TryClone for Txt {
    fn try_clone(&self, alloc: Global) -> Result<Txt, AllocError> {
        Txt::from_str(alloc, self.as_str())
    }
}

impl TryClone for Names {
    fn try_clone(&self, alloc: Global) -> Result<Names, AllocError> {
        Names::try_clone(self, alloc)
    }
}

impl TryClone for Dict {
    fn try_clone(&self, alloc: Global) -> Result<Dict, AllocError> {
        Dict::try_clone(self, alloc)
    }
}

impl TryClone for Request {
    fn try_clone(&self, alloc: Global) -> Result<Request, AllocError> {
        Request::try_clone(self, alloc)
    }
}

impl TryClone for Source {
    fn try_clone(&self, alloc: Global) -> Result<Source, AllocError> {
        Source::try_clone(self, alloc)
    }
}

impl<A: TryClone + Drop, B: TryClone + Drop> TryClone for (A, B) {
    fn try_clone(&self, alloc: Global) -> Result<(A, B), AllocError> {
        let first = self.0.try_clone(alloc)?;
        let second = self.1.try_clone(alloc)?;
        Ok((first, second))
    }
}

impl<T: TryClone + Drop> TryClone for Option<T> {
    fn try_clone(&self, alloc: Global) -> Result<Option<T>, AllocError> {
        match self {
            Some(value) => Ok(Some(value.try_clone(alloc)?)),
            None => Ok(None),
        }
    }
}

impl<T: TryClone + Drop> Listing<T> {
    /// A copy of the list.
    pub fn try_clone(&self, alloc: Global) -> Result<Listing<T>, AllocError>
        ensures { IfOk result (λ l. l ≡ self.now) }
    {
        let mut items = Vec::new(alloc);
        for item in self.as_slice() {
            items.push(item.try_clone(alloc)?)?;
        }
        Ok(Listing::from_vec(items))
    }
}

impl<V: TryClone + Drop> ByName<V> {
    /// A copy of the map.
    pub fn try_clone(&self, alloc: Global) -> Result<ByName<V>, AllocError>
        ensures { IfOk result (λ m. m ≡ self.now) }
    {
        let mut pairs = Vec::new(alloc);
        for (name, value) in self.as_slice() {
            let name = name.try_clone(alloc)?;
            let value = value.try_clone(alloc)?;
            pairs.push((name, value))?;
        }
        Ok(ByName::from_vec(pairs))
    }
}
