//! Look-ups by name in lists whose members have a name.
ghost use Rattle.std.specs.Prelude.{◌≡◌, ℕ, List};
ghost use Rattle.std.specs.Option.{option_copied};
ghost use Rattle.cf_tree.specs.Named.{found};

use crate::list::Listing;
use crate::text::Txt;

/// What has a name.
pub trait Named: Sized {
    ghost name_of: { Self → List ℕ };

    /// Its name.
    fn name(&self) -> &Txt
        ensures { result.now ≡ name_of self.now };
}

impl<T: Named> Listing<T> {
    /// The first member with a name.
    pub fn find(&self, name: &str) -> Option<&T>
        ensures { option_copied result ≡ found T.name_of name.now self.now }
    {
        for item in self.as_slice() {
            if item.name().is(name) {
                return Some(item);
            }
        }
        None
    }
}
