//! What the sections of a table share: the types of lanes, schemas and templates.
use crate::sets::row_of;
use crate::words::Words;
use cf_schema::{Schema, Schemas, read_schema};
use cf_tree::{Bytes, Names, Pairs, Rows, Source, Texts, Txt};
use std::alloc::Global;

/// What the sections of a table share, and the rows of the change set that is written next.
#[derive(Drop)]
pub struct Library {
    /// The types of the lanes, by their names.
    lanes: Pairs,
    schemas: Schemas,
    templates: Texts,
    /// The name of the template whose text may go on.
    last: Txt,
    pub rows: Rows,
}

impl Library {
    /// A library of nothing.
    pub fn new(alloc: Global) -> Library {
        Library {
            lanes: Pairs::new(alloc),
            schemas: Schemas::new(alloc),
            templates: Texts::new(alloc),
            last: Txt::new(String::new(alloc)),
            rows: Rows::new(alloc),
        }
    }

    /// Adds the lane of a line `NAME TYPE`.
    pub fn add_lane(&mut self, words: &mut Words) {
        let name = words.name();
        let kind = words.memory.text(words.rest);
        if self.lanes.insert(name, kind).is_err() {
            words.memory.lose();
        }
    }

    /// Adds a schema, unless there is one of its type.
    pub fn add_schema(&mut self, words: &mut Words) {
        match read_schema(words.memory.alloc, words.rest.as_bytes()) {
            Ok(schema) => {
                if self.schemas.add(schema).is_err() {
                    words.memory.lose();
                }
            }
            Err(_) => words.refuse(),
        }
    }

    /// Adds the row of a change set.
    pub fn add_row(&mut self, words: &mut Words) {
        let row = row_of(words);
        if self.rows.push(row).is_err() {
            words.memory.lose();
        }
    }

    /// Adds the template of a line `NAME JSON`, whose text may go on.
    pub fn add_template(&mut self, words: &mut Words) {
        self.last = words.name();
        self.put_template(words, &[]);
    }

    /// Goes on with the text of the last template.
    pub fn go_on(&mut self, words: &mut Words) {
        match self.templates.get(self.last.as_str()) {
            Some(bytes) => {
                let bytes = words.memory.bytes(bytes.as_slice());
                self.put_template(words, bytes.as_slice());
            }
            None => words.refuse(),
        }
    }

    /// Puts the last template, of these bytes and what is left of a line.
    fn put_template(&mut self, words: &mut Words, begun: &[u8]) {
        let mut bytes = words.memory.bytes(begun);
        if bytes.extend_from_slice(words.rest.as_bytes()).is_err() {
            words.memory.lose();
        }
        let name = words.memory.text(self.last.as_str());
        if self.templates.insert(name, Bytes::from_vec(bytes)).is_err() {
            words.memory.lose();
        }
    }

    /// The type of a lane, which is empty where there is none of the name.
    pub fn kind_of(&self, lane: &str) -> &str {
        match self.lanes.get(lane) {
            Some(kind) => kind.as_str(),
            None => "",
        }
    }

    /// A copy of the schema of a type; one without properties where there is none.
    pub fn schema_of(&self, words: &mut Words, kind: &str) -> Schema {
        if let Some(schema) = self.schemas.find(kind) {
            match schema.try_clone(words.memory.alloc) {
                Ok(copy) => return copy,
                Err(_) => words.memory.lose(),
            }
        }
        Schema {
            kind: words.memory.text(kind),
            props: Names::new(words.memory.alloc),
            required: Names::new(words.memory.alloc),
            create_only: Names::new(words.memory.alloc),
            conditional: Names::new(words.memory.alloc),
            read_only: Names::new(words.memory.alloc),
            identifier: Names::new(words.memory.alloc),
        }
    }

    /// The source of the words `ROOT TEMPLATE .. NAME=VALUE .. imports NAME=VALUE ..`, of a stack.
    pub fn source(&self, words: &mut Words, stack: &str) -> Source {
        let root = words.word();
        let mut source = Source {
            root: words.memory.text(root),
            texts: Texts::new(words.memory.alloc),
            given: Pairs::new(words.memory.alloc),
            imports: Pairs::new(words.memory.alloc),
            stack: words.memory.text(stack),
            number: 0,
        };
        self.add_text(words, &mut source, root);
        let mut imports = false;
        for word in words.rest.split_whitespace() {
            if word == "imports" {
                imports = true;
            } else {
                self.add_word(words, &mut source, imports, word);
            }
        }
        source
    }

    /// Adds a parameter, an import or a further template to a source.
    fn add_word(&self, words: &mut Words, source: &mut Source, imports: bool, word: &str) {
        match word.split_once('=') {
            Some((name, value)) => {
                let pairs = if imports {
                    &mut source.imports
                } else {
                    &mut source.given
                };
                if pairs
                    .insert(words.memory.text(name), words.memory.text(value))
                    .is_err()
                {
                    words.memory.lose();
                }
            }
            None => self.add_text(words, source, word),
        }
    }

    /// Adds the text of a template to a source.
    fn add_text(&self, words: &mut Words, source: &mut Source, name: &str) {
        match self.templates.get(name) {
            Some(bytes) => {
                let bytes = Bytes::from_vec(words.memory.bytes(bytes.as_slice()));
                if source.texts.insert(words.memory.text(name), bytes).is_err() {
                    words.memory.lose();
                }
            }
            None => words.refuse(),
        }
    }
}
