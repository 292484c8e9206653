//! What is seen of the resources of a template.
ghost use Rattle.std.specs.Prelude.{◌≡◌, IfOk, OnErr, Some, option_map};
ghost use Rattle.std.specs.Option.{option_copied};
ghost use Rattle.cf_tree.specs.Keys.{put, value_at};
ghost use Rattle.cf_eval.specs.Sights.{path_in, seen_as, seen_through, sight_shown};

use crate::env::{OutputSight, Sight};
use cf_tree::{ByName, Dict, Txt};
use std::alloc::{AllocError, Global};
use std::marker::Model;

/// What is known of a resource: its physical id and its attributes, each `None` while it is not known.
#[derive(Drop)]
pub struct SeenAt {
    pub physical: Option<Txt>,
    pub attrs: Option<Dict>,
}

/// What is seen of the resources of a template, by their logical ids.
///
/// Nothing is laid out when it is made: a resource is looked up at its path when it is asked for.
#[derive(Drop)]
pub struct Sights<'a> {
    /// Whether each resource is made.
    made: &'a ByName<bool>,
    /// The path of the stack, empty for the root.
    stack: &'a Txt,
    /// What is seen, by path.
    seen: &'a ByName<SeenAt>,
    /// What has come since, the last one first.
    come: Vec<(Txt, Sight)>,
}

impl<'a> Model for Sights<'a> {
    ghost use Rattle.std.specs.Prelude.{List, ℕ};
    ghost use Rattle.cf_eval.specs.declared.env.Sight.{Sight};
    ghost use Rattle.cf_eval.specs.Sights.{seen_through, with_come};

    ghost Value = { List (List ℕ × Sight) };

    ghost use Rattle.std.specs.Coded.{codes};
    ghost use Rattle.cf_tree.specs.Datum.{data_code};

    ghost coded = { Prim.hlevel (codes, data_code) };

    ghost view = { λ s. with_come s.come.items (seen_through s.stack.now s.seen.now s.made.now) };
}

impl<'a> Sights<'a> {
    /// What is seen of the resources of the stack at a path, each with whether it is made, where this is seen by path. It takes no
    /// memory.
    pub fn new(
        alloc: Global,
        made: &'a ByName<bool>,
        stack: &'a Txt,
        seen: &'a ByName<SeenAt>,
    ) -> Sights<'a>
        ensures { result ≡ seen_through stack.now seen.now made.now }
    {
        Sights {
            made,
            stack,
            seen,
            come: Vec::new(alloc),
        }
    }

    /// Puts in what is seen of one more resource, in place of what was seen of it. After an error nothing else is seen than before.
    ///
    /// # Errors
    ///
    /// Only for want of memory.
    pub fn put(&mut self, id: Txt, sight: Sight) -> Result<(), AllocError>
        ensures ok { IfOk result (λ _. self.new ≡ put id sight self.old) }
        ensures err { OnErr result (self.new ≡ self.old) }
    {
        Ok(self.come.insert(0, (id, sight))?)
    }

    /// What is seen of a resource; `None` where the template has none of this logical id, or a nested stack that hasn't come.
    #[tactic(auto, using(crate::proofs::Looking::come_first, crate::proofs::Looking::come_else))]
    pub(crate) fn get(&self, alloc: Global, id: &str) -> Result<Option<Shown>, AllocError>
        ensures { IfOk result (λ s. option_map sight_shown s ≡ value_at id.now self.now) }
    {
        match come_at(self.come.as_slice(), id) {
            Some(sight) => Ok(Some(show(sight))),
            None => seen_at(alloc, self.made, self.stack, self.seen, id),
        }
    }
}

/// What a look-up shows of a resource, without a copy of it.
#[derive(Drop)]
pub(crate) enum Shown<'a> {
    /// It is not made, since its condition is false.
    NotMade,
    /// Its physical id and its attributes, each `None` while it is not known.
    Made {
        physical: Option<&'a Txt>,
        attrs: Option<&'a Dict>,
    },
    /// A nested stack: its stack id and its outputs.
    Nested {
        id: &'a Txt,
        outputs: &'a ByName<OutputSight>,
    },
}

/// What has come under a logical id.
fn come_at<'a>(come: &'a [(Txt, Sight)], id: &str) -> Option<&'a Sight>
    ensures { option_copied result ≡ value_at id.now come.now }
{
    for one in come {
        if one.0.is(id) {
            return Some(&one.1);
        }
    }
    None
}

fn show(sight: &Sight) -> Shown
    ensures { sight_shown result ≡ sight.now }
{
    match sight {
        Sight::NotMade => Shown::NotMade,
        Sight::Made { physical, attrs } => Shown::Made {
            physical: physical.as_ref(),
            attrs: attrs.as_ref(),
        },
        Sight::Nested { id, outputs } => Shown::Nested { id, outputs },
    }
}

/// What is seen of a resource at its path.
#[tactic(auto, using(crate::proofs::Looking::seen_under))]
fn seen_at<'a>(
    alloc: Global,
    made: &ByName<bool>,
    stack: &Txt,
    seen: &'a ByName<SeenAt>,
    id: &str,
) -> Result<Option<Shown<'a>>, AllocError>
    ensures { IfOk result (λ s. option_map sight_shown s ≡ value_at id.now (seen_through stack.now seen.now made.now)) }
{
    match made.get(id) {
        Some(made) => {
            if *made {
                let path = path_in(alloc, stack, id)?;
                Ok(Some(made_as(seen.get(path.as_str()))))
            } else {
                Ok(Some(Shown::NotMade))
            }
        }
        None => Ok(None),
    }
}

/// A resource that is made, by what is seen of it.
fn made_as(seen: Option<&SeenAt>) -> Shown
    ensures { sight_shown result ≡ seen_as (option_copied seen.entry) }
{
    match seen {
        Some(at) => Shown::Made {
            physical: at.physical.as_ref(),
            attrs: at.attrs.as_ref(),
        },
        None => Shown::Made {
            physical: None,
            attrs: None,
        },
    }
}

/// A resource's path: its stack's path and its logical id.
///
/// # Errors
///
/// Only for want of memory.
#[tactic(auto, using(crate::proofs::Looking::nested_path))]
pub fn path_in(alloc: Global, stack: &Txt, id: &str) -> Result<Txt, AllocError>
    ensures { IfOk result (λ p. p ≡ path_in stack.now id.now) }
{
    let stack = stack.as_str();
    if stack.is_empty() {
        return Txt::from_str(alloc, id);
    }
    let mut text = String::from_str(alloc, stack)?;
    text.push_str("/")?;
    text.push_str(id)?;
    Ok(Txt::new(text))
}
