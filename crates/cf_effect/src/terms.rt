//! What a template says of a resource besides its properties.
ghost use Rattle.std.specs.Prelude.{◌≡◌, None};
ghost use Rattle.cf_effect.specs.Reply.{terms_of};

use cf_tree::{Deletion, Names, Replace, TryClone};
use std::alloc::{AllocError, Global};

/// The policies of a resource and the paths that it needs.
#[derive(Drop)]
pub struct Terms {
    pub needs: Names,
    pub deletion: Deletion,
    pub replace: Replace,
}

impl Terms {
    /// The policies and needs of a resource of which no template says any; it takes no memory.
    pub fn usual(alloc: Global) -> Terms
        ensures { result ≡ terms_of None }
    {
        Terms {
            needs: Names::new(alloc),
            deletion: Deletion::Delete,
            replace: Replace::Delete,
        }
    }
}

impl TryClone for Terms {
    fn try_clone(&self, alloc: Global) -> Result<Terms, AllocError> {
        let needs = self.needs.try_clone(alloc)?;
        Ok(Terms {
            needs,
            deletion: self.deletion,
            replace: self.replace,
        })
    }
}
