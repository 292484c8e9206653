//! What is noted of the values of live resources, to find at once that a new resource is none of them.
ghost use Rattle.std.specs.Prelude.{◌≡◌, ℕ, ◌||◌, List, [], IfOk, IsTrue, OnErr, is_some, false, true};
ghost use Rattle.std.specs.Option.{option_copied};
ghost use Rattle.cf_tree.specs.Keys.{value_at};
ghost use Rattle.cf_tree.specs.Value.{datum_of};
ghost use Rattle.cf_handler.specs.Lane.{Live};
ghost use Rattle.cf_answers.specs.Noted.{are_noted, first_text, noting, noting_of, text_of};
ghost use Rattle.cf_answers.specs.Table.{answer_to};

use cf_schema::Schema;
use cf_tree::{ByName, Dict, Request, Txt, Val};
use std::alloc::{AllocError, Global};

/// Texts that live resources have, or had, of the first create-only property.
#[derive(Drop)]
pub struct Noted {
    /// The texts.
    pub texts: ByName<bool>,
    /// Whether one may have no text there.
    pub others: bool,
}

/// The text of a property.
fn text_at<'a>(props: &'a Dict, name: &Txt) -> Option<&'a Txt>
    ensures { option_copied result ≡ text_of (value_at name.now props.now) }
{
    match props.get(name.as_str()) {
        Some(Val::Text(text)) => Some(text),
        _ => None,
    }
}

/// The text of the first create-only property.
fn first_text<'a>(schema: &Schema, props: &'a Dict) -> Option<&'a Txt>
    ensures { option_copied result ≡ first_text schema.now.create_only props.now }
{
    match schema.create_only.as_slice().first() {
        Some(name) => text_at(props, name),
        None => None,
    }
}

impl Noted {
    /// Nothing is noted.
    pub fn new(alloc: Global) -> Noted
        ensures texts { result.texts ≡ [] }
        ensures others { result.others ≡ false }
    {
        Noted {
            texts: ByName::new(alloc),
            others: false,
        }
    }

    /// Whether a live resource may have this text.
    pub fn has(&self, text: &Txt) -> bool
        ensures { result ≡ (self.now.others || is_some (value_at text.now self.now.texts)) }
    {
        self.others || self.texts.get(text.as_str()).is_some()
    }

    /// Notes a text, or that there is none. After an error what is noted is as it was.
    fn note(&mut self, alloc: Global, text: Option<&Txt>) -> Result<(), AllocError>
        ensures ok { IfOk result (λ _. self.new ≡ noting (option_copied text.entry) self.old) }
        ensures err { OnErr result (self.new ≡ self.old) }
    {
        match text {
            Some(text) => self.texts.insert(text.try_clone(alloc)?, true),
            None => {
                self.others = true;
                Ok(())
            }
        }
    }

    /// Notes what a call may make live. After an error what is noted is as it was.
    pub fn note_request(
        &mut self,
        alloc: Global,
        schema: &Schema,
        request: &Request,
    ) -> Result<(), AllocError>
        ensures ok { IfOk result (λ _. self.new ≡ noting_of schema.now.create_only request.now self.old) }
        ensures err { OnErr result (self.new ≡ self.old) }
    {
        match request {
            Request::Create { kind: _, props } => self.note(alloc, first_text(schema, props)),
            Request::Update { physical: _, props } => self.note(alloc, first_text(schema, props)),
            Request::Delete { physical: _ } => Ok(()),
        }
    }

    /// Whether a request makes a resource that is none of those that are live, if all of their texts are noted.
    pub fn is_new(&self, schema: &Schema, request: &Request) -> bool
        ensures { IsTrue result → (live : List Live) → are_noted self.now schema.now.create_only live ≡ true
            → (name : List ℕ) (token : ℕ)
            → answer_to schema.now name token [] request.now ≡ answer_to schema.now name token live request.now }
    {
        match request {
            Request::Create { kind: _, props } => match first_text(schema, props) {
                Some(text) => !self.has(text),
                None => false,
            },
            _ => false,
        }
    }
}
