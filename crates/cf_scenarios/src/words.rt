//! Lines of words, and what handlers are asked and answer in them.
use cf_rows::Memory;
use cf_tree::{Answer, Dict, Names, Request, Val};
use std::alloc::Global;

/// The first word of a line, and what follows it.
pub fn cut(line: &str) -> (&str, &str) {
    line.split_once(' ').unwrap_or((line, ""))
}

/// A number; 0 where it is none.
pub fn number_of(text: &str) -> u64 {
    text.parse::<u64>().unwrap_or(0)
}

/// Words with spaces between them. What has no memory is left out, and the line counts as lost.
#[derive(Drop)]
pub struct Line {
    pub text: String,
    is_lost: bool,
}

impl Line {
    /// A line of nothing.
    pub fn new(alloc: Global) -> Line {
        Line {
            text: String::new(alloc),
            is_lost: false,
        }
    }

    /// The text of the line.
    pub fn finish(self, memory: &mut Memory) -> String {
        let Line { text, is_lost } = self;
        memory.note(is_lost);
        text
    }

    /// Adds a text.
    pub fn put(&mut self, text: &str) {
        if self.text.push_str(text).is_err() {
            self.is_lost = true;
        }
    }

    /// Adds a word, behind a space where it begins no line.
    pub fn word(&mut self, word: &str) {
        if !self.text.is_empty() {
            self.put(" ");
        }
        self.put(word);
    }

    /// Adds a number.
    pub fn number(&mut self, number: u64) {
        if write!(self.text, "{number}").is_err() {
            self.is_lost = true;
        }
    }

    /// Adds a space and a number.
    pub fn number_word(&mut self, number: u64) {
        self.put(" ");
        self.number(number);
    }

    /// Adds a number that may be below zero.
    fn whole(&mut self, number: i64) {
        if write!(self.text, "{number}").is_err() {
            self.is_lost = true;
        }
    }

    /// Adds names.
    pub fn names(&mut self, names: &Names) {
        for name in names.as_slice() {
            self.word(name.as_str());
        }
    }

    /// Adds a text in one line: a line feed is `\n`.
    fn escaped(&mut self, text: &str) {
        for (at, piece) in text.split('\n').enumerate() {
            if at > 0 {
                self.put("\\n");
            }
            self.put(piece);
        }
    }

    /// Adds properties: `NAME=TEXT`, or `NAME:` and what is no text.
    pub fn properties(&mut self, props: &Dict) {
        for pair in props.as_slice() {
            self.word(pair.name.as_str());
            match &pair.value {
                Val::Text(text) => {
                    self.put("=");
                    self.escaped(text.as_str());
                }
                Val::Whole(number) => {
                    self.put(":");
                    self.whole(*number);
                }
                Val::Truth(truth) => self.put(if *truth { ":true" } else { ":false" }),
                Val::List(_) => self.put(":[..]"),
                Val::Dict(_) => self.put(":{..}"),
            }
        }
    }

    /// Adds what is asked of a lane.
    pub fn request(&mut self, request: &Request) {
        match request {
            Request::Create { kind: _, props } => {
                self.word("create");
                self.properties(props);
            }
            Request::Update { physical, props } => {
                self.word("update");
                self.word(physical.as_str());
                self.properties(props);
            }
            Request::Delete { physical } => {
                self.word("delete");
                self.word(physical.as_str());
            }
        }
    }

    /// Adds what a lane answered.
    pub fn answer(&mut self, answer: &Answer) {
        match answer {
            Answer::Success { physical, attrs: _ } => {
                self.word("success");
                self.word(physical.as_str());
            }
            Answer::Failed { code } => {
                self.word("failed");
                self.word(code.name());
            }
            Answer::Fault => self.word("fault"),
            Answer::Stale { fence } => {
                self.word("stale");
                self.number_word(*fence);
            }
            Answer::NoMemory => self.word("memory"),
        }
    }
}
