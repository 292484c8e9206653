//! What a row is answered, told piece by piece.
use cf_rows::Memory;
use cf_tree::Txt;
use serde_json::Value;
use std::alloc::{AllocError, Global};

/// A text that grows. A piece for which memory is wanting is left out of it, and noted.
#[derive(Drop)]
pub struct Told {
    pub memory: Memory,
    pub text: String,
}

impl Told {
    /// Nothing yet.
    pub fn new(alloc: Global) -> Told {
        Told {
            memory: Memory::new(alloc),
            text: String::new(alloc),
        }
    }

    /// The whole text; a long one is its number of bytes.
    pub fn finish(self) -> Result<String, AllocError> {
        let Told { memory, text } = self;
        memory.end()?;
        let length = text.len();
        if length <= 1000 {
            return Ok(text);
        }
        drop(text);
        format!(in memory.alloc; "{length} bytes")
    }

    /// Adds a text.
    pub fn put(&mut self, text: &str) {
        self.memory.note(self.text.push_str(text).is_err());
    }

    /// Adds a word behind a space.
    pub fn word(&mut self, word: &str) {
        self.put(" ");
        self.put(word);
    }

    /// Adds a number.
    pub fn number(&mut self, number: u64) {
        self.memory.note(write!(self.text, "{number}").is_err());
    }

    /// Adds a number behind a space.
    pub fn number_word(&mut self, number: u64) {
        self.put(" ");
        self.number(number);
    }

    /// Adds a number that may be below zero.
    pub fn whole(&mut self, number: i64) {
        self.memory.note(write!(self.text, "{number}").is_err());
    }

    /// Adds a number that counts in 10^-9.
    pub fn billionths(&mut self, number: i128) {
        self.memory.note(write!(self.text, "{number}").is_err());
    }

    /// Adds a text as JSON.
    pub fn json(&mut self, text: &str) {
        match text_json(self.memory.alloc, text) {
            Ok(json) => {
                self.put(json.as_str());
                drop(json);
            }
            Err(_) => self.memory.lose(),
        }
    }

    /// Adds a word, and a text as JSON.
    pub fn named(&mut self, word: &str, text: &Txt) {
        self.put(word);
        self.json(text.as_str());
    }

    /// Adds names as JSON.
    pub fn names(&mut self, names: &[Txt]) {
        self.put("[");
        let mut first = true;
        for name in names {
            self.part(first);
            self.json(name.as_str());
            first = false;
        }
        self.put("]");
    }

    /// Parts a member from the one before it.
    pub fn part(&mut self, first: bool) {
        if !first {
            self.put(",");
        }
    }
}

/// A text as JSON.
fn text_json(alloc: Global, text: &str) -> Result<String, AllocError> {
    let value = Value::try_from_str(alloc, text)?;
    let json = value.to_string(alloc);
    drop(value);
    json
}
