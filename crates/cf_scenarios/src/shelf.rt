//! The templates of the library.
use crate::words::cut;
use cf_io::MemoryLibrary;
use cf_rows::Memory;
use cf_tree::Txt;
use std::alloc::Global;

/// Templates by their names.
#[derive(Drop)]
pub struct Shelf {
    templates: Vec<(Txt, Vec<u8>)>,
}

impl Shelf {
    /// No templates.
    pub fn new(alloc: Global) -> Shelf {
        Shelf {
            templates: Vec::new(alloc),
        }
    }

    /// Adds the template `NAME TEXT`, in the place of another one of the name.
    pub fn add(&mut self, memory: &mut Memory, text: &str) {
        let (name, text) = cut(text);
        self.templates.retain(|template| !template.0.is(name));
        let name = Txt::new(memory.copy(name));
        let bytes = memory.bytes(text.as_bytes());
        memory.note(self.templates.push((name, bytes)).is_err());
    }

    /// Goes on with the last template.
    pub fn go_on(&mut self, memory: &mut Memory, text: &str) {
        if let Some(template) = self.templates.last_mut() {
            memory.note(template.1.extend_from_slice(text.as_bytes()).is_err());
        }
    }

    /// The templates that words name.
    pub fn named(&self, memory: &mut Memory, words: &[Txt]) -> Vec<(Txt, Vec<u8>)> {
        let mut named = Vec::new(memory.alloc);
        for template in self.templates.iter() {
            if words.contains(&template.0) {
                let name = Txt::new(memory.copy(template.0.as_str()));
                let bytes = memory.bytes(template.1.as_slice());
                memory.note(named.push((name, bytes)).is_err());
            }
        }
        named
    }
}
