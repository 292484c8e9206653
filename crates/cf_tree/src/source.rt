//! What an operation rests on: templates' bytes, given parameters and imports.
ghost use Rattle.std.specs.Prelude.{◌≡◌, length, IfOk};

use crate::by_name::ByName;
use crate::copies::TryClone;
use crate::pairs::Pairs;
use crate::text::Txt;
use std::alloc::{AllocError, Global};
use std::marker::Model;

/// The bytes of a template, which contracts see as a list.
#[derive(Drop)]
pub struct Bytes {
    bytes: Vec<u8>,
}

impl Model for Bytes {
    ghost use Rattle.std.specs.Prelude.{List, ℕ};

    ghost Value = { List ℕ };

    ghost view = { λ b. b.bytes.items };
}

impl Bytes {
    /// The bytes of a vector, without taking memory.
    pub fn from_vec(bytes: Vec<u8>) -> Bytes
        ensures { result ≡ bytes.items }
    {
        Bytes { bytes }
    }

    /// The bytes as a vector, without taking memory.
    pub fn into_vec(self) -> Vec<u8>
        ensures { result.items ≡ self }
    {
        let Bytes { bytes } = self;
        bytes
    }

    /// How many bytes there are.
    pub fn len(&self) -> usize
        ensures { result ≡ length self.now }
    {
        self.bytes.len()
    }

    /// The bytes in their order.
    pub fn as_slice(&self) -> &[u8]
        ensures { result.now ≡ self.now }
    {
        self.bytes.as_slice()
    }
}

impl TryClone for Bytes {
    fn try_clone(&self, alloc: Global) -> Result<Bytes, AllocError> {
        let mut bytes = Vec::new(alloc);
        bytes.extend_from_slice(self.as_slice())?;
        Ok(Bytes { bytes })
    }
}

/// The bytes of templates by their names in the library.
pub type Texts = ByName<Bytes>;

/// What an operation on a stack rests on: the name of the root template, the bytes of all templates
/// that it met, the parameters that were given, and the imports that the evaluation used with their
/// values at that moment. The stack's name and the number of its creating operation serve the
/// pseudo parameters.
#[derive(Drop)]
pub struct Source {
    pub root: Txt,
    pub texts: Texts,
    pub given: Pairs,
    pub imports: Pairs,
    pub stack: Txt,
    pub number: u64,
}

impl Source {
    /// A copy of the source.
    pub fn try_clone(&self, alloc: Global) -> Result<Source, AllocError>
        ensures { IfOk result (λ s. s ≡ self.now) }
    {
        let root = self.root.try_clone(alloc)?;
        let texts = self.texts.try_clone(alloc)?;
        let given = self.given.try_clone(alloc)?;
        let imports = self.imports.try_clone(alloc)?;
        let stack = self.stack.try_clone(alloc)?;
        Ok(Source {
            root,
            texts,
            given,
            imports,
            stack,
            number: self.number,
        })
    }
}
