//! The outputs of a stack, the exports of all stacks, and which stack pins which export.
#![tactic(auto)]

ghost use Rattle.std.specs.Prelude.{◌≡◌, ◌&&◌, not, find, option_copied};
ghost use Rattle.std.specs.List.{list_any};
ghost use Rattle.std.specs.Str.{bytes_eq};
ghost use Rattle.cf_export.specs.Export.{holds_name, pins_name};

use cf_tree::{Listing, TryClone, Txt};
use std::alloc::{AllocError, Global};

/// An exported output of a stack (User Guide, exporting stack output values): its name is that of one stack alone.
#[derive(Drop, PartialEq, Eq)]
pub struct Export {
    pub name: Txt,
    pub value: Txt,
    pub stack: Txt,
}

/// The exports of all stacks, by name.
pub type Exports = Listing<Export>;

/// A stack, and the name of an export that it imports or means to make.
#[derive(Drop, PartialEq, Eq)]
pub struct Pin {
    pub stack: Txt,
    pub name: Txt,
}

/// Which stack pins, or claims, which export.
pub type Pins = Listing<Pin>;

/// An output of a stack (User Guide, Outputs), and the name that it is exported by, where it is.
#[derive(Drop, PartialEq, Eq)]
pub struct Output {
    pub name: Txt,
    pub value: Txt,
    pub export: Option<Txt>,
}

/// Outputs by name.
pub type Outputs = Listing<Output>;

/// The export of a name: the first in the list that has it, and None exactly where none has. It takes no memory.
pub fn holder<'a>(all: &'a Exports, name: &Txt) -> Option<&'a Export>
    ensures { option_copied result ≡ find (holds_name name.now) all.now }
{
    all.as_slice().iter().find(|export| export.name == *name)
}

/// Whether a stack other than `except` pins the name. It takes no memory.
pub fn pinned(pins: &Pins, name: &Txt, except: &Txt) -> bool
    ensures { result ≡ list_any (pins_name name.now except.now) pins.now }
{
    pins.as_slice()
        .iter()
        .any(|pin| pin.name == *name && pin.stack != *except)
}

impl TryClone for Export {
    fn try_clone(&self, alloc: Global) -> Result<Export, AllocError> {
        let name = self.name.try_clone(alloc)?;
        let value = self.value.try_clone(alloc)?;
        let stack = self.stack.try_clone(alloc)?;
        Ok(Export { name, value, stack })
    }
}

impl TryClone for Pin {
    fn try_clone(&self, alloc: Global) -> Result<Pin, AllocError> {
        let stack = self.stack.try_clone(alloc)?;
        let name = self.name.try_clone(alloc)?;
        Ok(Pin { stack, name })
    }
}

impl TryClone for Output {
    fn try_clone(&self, alloc: Global) -> Result<Output, AllocError> {
        let name = self.name.try_clone(alloc)?;
        let value = self.value.try_clone(alloc)?;
        let export = self.export.try_clone(alloc)?;
        Ok(Output {
            name,
            value,
            export,
        })
    }
}
