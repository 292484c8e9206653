//! Lines that are written.
use std::alloc::{AllocError, Global};

/// Words with blanks between them, or a list of such lines with ` / ` between its members. Where memory is wanting for a
/// word the line goes on without it, and is told as lost in the end.
#[derive(Drop)]
pub struct Line {
    pub alloc: Global,
    text: String,
    /// Whether the next word begins a member.
    begins: bool,
    is_lost: bool,
}

impl Line {
    /// A line of nothing.
    pub fn new(alloc: Global) -> Line {
        Line {
            alloc,
            text: String::new(alloc),
            begins: true,
            is_lost: false,
        }
    }

    /// Notes that memory was wanting.
    pub fn lose(&mut self) {
        self.is_lost = true;
    }

    /// Adds a text.
    pub fn put(&mut self, text: &str) {
        if self.text.push_str(text).is_err() {
            self.is_lost = true;
        }
    }

    /// Adds a letter.
    pub fn letter(&mut self, letter: char) {
        if self.text.push(letter).is_err() {
            self.is_lost = true;
        }
    }

    /// Begins a member of a list.
    pub fn member(&mut self) {
        if !self.text.is_empty() {
            self.put(" / ");
        }
        self.begins = true;
    }

    /// Adds a word, behind a blank where it begins no member.
    pub fn word(&mut self, word: &str) {
        if self.begins {
            self.begins = false;
        } else {
            self.put(" ");
        }
        self.put(word);
    }

    /// Adds a number as a word.
    pub fn number(&mut self, number: u64) {
        self.word("");
        if write!(self.text, "{number}").is_err() {
            self.is_lost = true;
        }
    }

    /// Adds a number that may be below zero, behind a colon.
    pub fn whole(&mut self, number: i64) {
        if write!(self.text, ":{number}").is_err() {
            self.is_lost = true;
        }
    }

    /// The whole line; a line of nothing is `none`.
    pub fn finish(self) -> Result<String, AllocError> {
        let Line {
            alloc,
            text,
            begins: _,
            is_lost,
        } = self;
        if is_lost {
            Err(AllocError)
        } else if text.is_empty() {
            String::from_str(alloc, "none")
        } else {
            Ok(text)
        }
    }
}
