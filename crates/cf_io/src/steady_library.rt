ghost use Rattle.std.specs.Prelude.{◌≡◌, IfOk, Some};
ghost use Rattle.std.specs.Option.{option_map};
ghost use Rattle.cf_io.specs.Library.{text_named};
ghost use Rattle.cf_io.specs.Stores.{stored_texts};

use crate::library::{FetchFault, Library};
use cf_tree::{NoMemory, Txt};
use std::alloc::Global;

/// A library in memory that never fails: its count of faults is the constant 0.
#[derive(Drop)]
pub struct SteadyLibrary {
    alloc: Global,
    texts: Vec<(Txt, Vec<u8>)>,
    misses: u64,
}

// A copy of named texts.
fn copied_texts(alloc: Global, texts: &[(Txt, Vec<u8>)]) -> Result<Vec<(Txt, Vec<u8>)>, NoMemory>
    ensures { IfOk result (λ copies. stored_texts copies.items ≡ stored_texts texts.now) }
{
    let mut copies = Vec::new(alloc);
    for (name, bytes) in texts {
        let name = name.try_clone(alloc)?;
        let bytes = Vec::from_slice(alloc, bytes.as_slice())?;
        copies.push((name, bytes))?;
    }
    Ok(copies)
}

// The bytes under a name.
fn bytes_at<'a>(texts: &'a [(Txt, Vec<u8>)], name: &str) -> Option<&'a Vec<u8>>
    ensures { option_map (λ v. v.now.items) result ≡ text_named name.now (stored_texts texts.now) }
{
    for (at, bytes) in texts {
        if at.is(name) {
            return Some(bytes);
        }
    }
    None
}

impl SteadyLibrary {
    /// A library that holds copies of these texts. Where a name stands twice, its first place counts.
    pub fn new(alloc: Global, texts: &[(Txt, Vec<u8>)]) -> Result<SteadyLibrary, NoMemory>
        ensures holds { IfOk result (λ l. ⟦<SteadyLibrary as Library>⟧.texts l ≡ Some (stored_texts texts.now)) }
        ensures unmissed { IfOk result (λ l. ⟦<SteadyLibrary as Library>⟧.missed l ≡ 0) }
    {
        let texts = copied_texts(alloc, texts)?;
        Ok(SteadyLibrary {
            alloc,
            texts,
            misses: 0,
        })
    }
}

impl Library for SteadyLibrary {
    ghost use Rattle.std.specs.Prelude.{Some};
    ghost use Rattle.cf_io.specs.Stores.{stored_texts};

    ghost texts = { λ l. Some (stored_texts l.texts.items) };

    ghost count = { λ _. 0 };

    ghost missed = { λ l. l.misses };

    fn fetch(&mut self, name: &str) -> Result<Option<Vec<u8>>, FetchFault> {
        let Some(bytes) = bytes_at(self.texts.as_slice(), name) else {
            self.misses = self.misses.saturating_add(1);
            return Ok(None);
        };
        match Vec::from_slice(self.alloc, bytes.as_slice()) {
            Ok(copy) => Ok(Some(copy)),
            Err(_) => Err(FetchFault::NoMemory),
        }
    }

    fn faults(&self) -> u64 {
        0
    }

    fn misses(&self) -> u64 {
        self.misses
    }
}
