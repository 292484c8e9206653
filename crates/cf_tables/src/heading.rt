//! Headings: what rows ask for, and the text in which they stand.
use crate::stretch::stretched;
use cf_rows::Memory;
use std::alloc::{AllocError, Global};

/// What rows ask for.
#[derive(Clone, Copy, PartialEq, Eq)]
pub enum Kind {
    /// What reading a template answers.
    Template,
    /// The same, of bytes in hexadecimal digits.
    Bytes,
    /// What a template holds once it is read.
    Contents,
    /// The order of work of a template.
    Order,
    /// The parts of a text with holes.
    Holes,
    /// The pieces of a text between the places of a delimiter.
    Split,
    /// The members of a list that is written with commas.
    Commas,
    /// The number that a text writes.
    Number,
    /// The base64 of a text.
    Base64,
    /// How long the encoding of an object is.
    Size,
    /// The code of a handler with a number.
    Code,
    /// The schema of a type that is shipped.
    Shipped,
    /// What the parameters of a template are bound to.
    Parameters,
    /// What the condition `X` of a template is.
    Condition,
    /// What the property `x` of the resource `X` comes to.
    Value,
    /// What the properties of the resource `X` come to.
    Properties,
    /// What reading a schema answers.
    Schema,
    /// How two objects of properties differ by a schema.
    Change,
    /// What a template wants of each path.
    Plan,
    /// What a template says of a path besides its properties.
    Terms,
    /// What a template changes of what a stack holds.
    Changes,
    /// What the words of a command line ask for.
    Words,
    /// The number of workers that a word names.
    Workers,
    /// How an exit is printed.
    Exit,
    /// What a sink holds behind texts that are printed.
    Print,
    /// The entry of the journal that bytes are.
    Entry,
    /// What a handler in memory answers.
    Lane,
}

/// A heading.
#[derive(Drop)]
pub struct Heading {
    pub kind: Kind,
    /// The text with its `@`, and behind ` <- ` what is given.
    pub text: String,
}

impl Heading {
    /// A heading without a text.
    pub fn new(alloc: Global) -> Heading {
        Heading {
            kind: Kind::Template,
            text: String::new(alloc),
        }
    }

    /// A heading from its line; one of another kind asks for templates.
    pub fn read(alloc: Global, line: &str) -> Result<Heading, AllocError> {
        let (word, text) = line.split_once(' ').unwrap_or((line, "@"));
        let text = String::from_str(alloc, text)?;
        Ok(Heading {
            kind: kind_of(word),
            text,
        })
    }

    /// Adds to the text.
    pub fn go_on(&mut self, text: &str) -> Result<(), AllocError> {
        self.text.push_str(text)
    }

    /// What is given to a row.
    pub fn given<'a>(&'a self, row: &'a str) -> &'a str {
        match row.split_once(" <- ") {
            Some((_, given)) => given,
            None => match self.text.as_str().split_once(" <- ") {
                Some((_, given)) => given,
                None => "",
            },
        }
    }

    /// A row's text: its piece within that of the heading. A long text may stand in a piece twice.
    pub fn around(&self, memory: &mut Memory, row: &str) -> String {
        let frame = row_piece(self.text.as_str());
        let (head, tail) = frame.split_once('@').unwrap_or((frame, ""));
        let once = stretched(memory, row_piece(row));
        let twice = stretched(memory, once.as_str());
        drop(once);
        let mut whole = memory.copy(head);
        memory.note(whole.push_str(twice.as_str()).is_err());
        memory.note(whole.push_str(tail).is_err());
        drop(twice);
        whole
    }
}

/// A line without what is given.
fn row_piece(line: &str) -> &str {
    match line.split_once(" <- ") {
        Some((piece, _)) => piece,
        None => line,
    }
}

fn kind_of(word: &str) -> Kind {
    match word {
        "bytes" => Kind::Bytes,
        "contents" => Kind::Contents,
        "order" => Kind::Order,
        "holes" => Kind::Holes,
        "split" => Kind::Split,
        "commas" => Kind::Commas,
        "number" => Kind::Number,
        "base64" => Kind::Base64,
        "size" => Kind::Size,
        "code" => Kind::Code,
        "shipped" => Kind::Shipped,
        "parameters" => Kind::Parameters,
        "condition" => Kind::Condition,
        "value" => Kind::Value,
        "properties" => Kind::Properties,
        "schema" => Kind::Schema,
        "change" => Kind::Change,
        "plan" => Kind::Plan,
        "terms" => Kind::Terms,
        "changes" => Kind::Changes,
        "words" => Kind::Words,
        "workers" => Kind::Workers,
        "exit" => Kind::Exit,
        "print" => Kind::Print,
        "entry" => Kind::Entry,
        "lane" => Kind::Lane,
        _ => Kind::Template,
    }
}
