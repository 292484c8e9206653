//! Lines that are read.
use cf_rows::Memory;
use cf_tree::{Dict, Names, Txt, Val};
use std::alloc::{AllocError, Global};

/// The words of a line that are not read yet. What is out of form, or has no memory, is read as nothing, and told in the end.
#[derive(Drop)]
pub struct Words<'a> {
    pub memory: Memory,
    pub rest: &'a str,
    is_bad: bool,
}

impl<'a> Words<'a> {
    /// The words of a line, with one blank between them.
    pub fn new(alloc: Global, line: &'a str) -> Words<'a> {
        Words {
            memory: Memory::new(alloc),
            rest: line,
            is_bad: false,
        }
    }

    /// Notes that something is out of form.
    pub fn refuse(&mut self) {
        self.is_bad = true;
    }

    /// Whether all that was read was in its form. An error where memory was wanting.
    pub fn are_read(&self) -> Result<bool, AllocError> {
        self.memory.end()?;
        Ok(!self.is_bad)
    }

    /// The next word.
    pub fn word(&mut self) -> &'a str {
        let (word, rest) = self.rest.split_once(' ').unwrap_or((self.rest, ""));
        self.rest = rest;
        word
    }

    /// The next word as a number.
    pub fn number(&mut self) -> u64 {
        match self.word().parse::<u64>() {
            Ok(number) => number,
            Err(_) => {
                self.is_bad = true;
                0
            }
        }
    }

    /// The value of the next word among these; the usual one where it is none of them.
    pub fn one_of<T: Copy>(&mut self, values: &[(&str, T)], usual: T) -> T {
        let word = self.word();
        for value in values {
            if value.0 == word {
                return value.1;
            }
        }
        self.is_bad = true;
        usual
    }

    /// The next word as a text.
    pub fn name(&mut self) -> Txt {
        let word = self.word();
        self.memory.text(word)
    }

    /// The next word as a text that is empty where it is written as `-`.
    pub fn path(&mut self) -> Txt {
        let word = self.word();
        self.memory.text(if word == "-" { "" } else { word })
    }

    /// All further words as names.
    pub fn names(&mut self) -> Names {
        let mut names = Names::new(self.memory.alloc);
        for word in self.rest.split_whitespace() {
            let name = self.memory.text(word);
            if names.push(name).is_err() {
                self.memory.lose();
            }
        }
        names
    }

    /// All further words as properties, `NAME=TEXT ..` or `NAME:VALUE ..`
    pub fn props(&mut self) -> Dict {
        let mut props = Dict::new(self.memory.alloc);
        for word in self.rest.split_whitespace() {
            self.add_property(&mut props, word);
        }
        props
    }

    /// Adds a property, a text behind `=` and another value behind a colon, whichever stands first.
    fn add_property(&mut self, props: &mut Dict, word: &str) {
        let (name, text) = word.split_once('=').unwrap_or((word, ""));
        let (name, value) = match name.split_once(':') {
            Some((name, _)) => {
                let (_, text) = word.split_once(':').unwrap_or((word, ""));
                (name, self.value(text))
            }
            None => (name, Val::Text(self.unmarked(text))),
        };
        let name = self.memory.text(name);
        if props.insert(name, value).is_err() {
            self.memory.lose();
        }
    }

    /// A truth value or a whole number.
    fn value(&mut self, text: &str) -> Val {
        match text {
            "true" => Val::Truth(true),
            "false" => Val::Truth(false),
            _ => match text.parse::<i64>() {
                Ok(number) => Val::Whole(number),
                Err(_) => {
                    self.is_bad = true;
                    Val::Truth(false)
                }
            },
        }
    }

    /// The text of a word, in which `\s` stands for a blank, `\n` for a line feed and `\\` for one backslash.
    fn unmarked(&mut self, word: &str) -> Txt {
        let mut text = String::new(self.memory.alloc);
        let mut marked = false;
        for letter in word.chars() {
            let meant = match (marked, letter) {
                (true, 's') => ' ',
                (true, 'n') => '\n',
                _ => letter,
            };
            marked = !marked && letter == '\\';
            if !marked && text.push(meant).is_err() {
                self.memory.lose();
            }
        }
        Txt::new(text)
    }
}
