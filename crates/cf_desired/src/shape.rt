//! The shape of what a source wants: its resources in the order of work, with what is asked of them and what they need, and its
//! nested stacks. No value is in it.
ghost use Rattle.std.specs.Prelude.{◌≡◌, [], false, IfOk, map, option_map};
ghost use Rattle.std.specs.List.{list_any};
ghost use Rattle.cf_desired.specs.Kept.{IsShape, kept_entry_in, member_in, nesting_in, turn_in};
ghost use Rattle.cf_desired.specs.Plan.{member_at};
ghost use Rattle.cf_desired.specs.Turns.{all_terms, is_below, is_nested, pathed, terms_among, member_terms};
ghost use Rattle.cf_desired.specs.Valued.{nestings_in, resources_in};
ghost use Rattle.cf_desired.specs.Work.{Body};

use crate::flaw::Flaw;
use crate::shared::{Shared, SharedRes};
use crate::turns::Turns;
use cf_tree::{ByName, CondMap, Deletion, Listing, Names, Replace, Template, Txt};
use std::alloc::{AllocError, Global};

/// A template that is entered as a stack.
#[derive(Drop)]
pub(crate) struct Stack {
    /// The path of its stack resource, empty for the root.
    pub path: Txt,
    pub name: Txt,
    pub template: Shared<Template>,
}

/// A resource in the order of work.
#[derive(Drop)]
pub(crate) struct Member {
    /// Its logical id, its type and its expressions.
    pub resource: SharedRes,
    pub path: Txt,
    pub deletion: Deletion,
    pub replace: Replace,
    /// The paths that it needs.
    pub needs: Names,
    /// The flaw that its condition is not declared.
    pub unnamed: Option<Flaw>,
}

/// A nested stack in the order of work.
#[derive(Drop)]
pub(crate) struct Nesting {
    /// The path of its stack resource.
    pub path: Txt,
    /// The logical id of its stack resource.
    pub id: Txt,
    pub name: Txt,
    /// The paths that its stack resource needs.
    pub needs: Names,
}

impl Nesting {
    /// A copy of the nested stack.
    pub fn try_clone(&self, alloc: Global) -> Result<Nesting, AllocError>
        ensures { IfOk result (λ n. nesting_in n ≡ nesting_in self.now) }
    {
        Ok(Nesting {
            path: self.path.try_clone(alloc)?,
            id: self.id.try_clone(alloc)?,
            name: self.name.try_clone(alloc)?,
            needs: self.needs.try_clone(alloc)?,
        })
    }
}

/// How a template comes to be entered.
#[derive(Drop)]
pub(crate) enum Entry {
    /// As the root.
    Root,
    /// As a nested stack, by the stack resource, which says what its parameters are given.
    Nested {
        nesting: Nesting,
        resource: SharedRes,
    },
}

/// A turn of the work on a source.
#[derive(Drop)]
pub(crate) enum Turn {
    /// A resource of the template that was opened last.
    Resource {
        member: Member,
    },
    /// A nested stack whose stack resource has a flaw.
    Shut {
        nesting: Nesting,
        flaw: Flaw,
    },
    /// A template that can't be entered.
    Barred {
        entry: Entry,
        flaw: Flaw,
    },
    /// A template whose conditions, or the needs in it, have a flaw.
    Halted {
        entry: Entry,
        stack: Stack,
        flaw: Flaw,
    },
    /// A template is opened: what its conditions come to, and whether each of its resources is made.
    Opened {
        entry: Entry,
        stack: Stack,
        conds: CondMap,
        made: ByName<bool>,
    },
    /// All of the template that was opened last has come.
    Closed,
}

/// What a source wants, but for values.
#[derive(Drop)]
pub struct Shape {
    pub(crate) turns: Turns,
    /// How many templates were entered.
    pub(crate) templates: u64,
    /// How many resources these have, each counted as often as it was entered.
    pub(crate) members: u64,
}

/// The type of a resource, its policies and the paths that it needs.
#[derive(Drop)]
pub struct Terms {
    pub kind: Txt,
    pub needs: Names,
    pub deletion: Deletion,
    pub replace: Replace,
}

/// Whether a template is entered as a nested stack.
fn is_below(entry: &Entry) -> bool
    ensures { result ≡ is_below (kept_entry_in entry.now) }
{
    match entry {
        Entry::Root => false,
        Entry::Nested {
            nesting: _,
            resource: _,
        } => true,
    }
}

/// Whether a turn is of a nested stack.
fn is_nested(turn: &Turn) -> bool
    ensures { result ≡ is_nested (turn_in turn.now) }
{
    match turn {
        Turn::Resource { member: _ } => false,
        Turn::Shut {
            nesting: _,
            flaw: _,
        } => true,
        Turn::Barred { entry, flaw: _ } => is_below(entry),
        Turn::Halted {
            entry,
            stack: _,
            flaw: _,
        } => is_below(entry),
        Turn::Opened {
            entry,
            stack: _,
            conds: _,
            made: _,
        } => is_below(entry),
        Turn::Closed => false,
    }
}

/// Whether one of these turns is of a nested stack.
fn has_nested_turn(turns: &[Turn]) -> bool
    ensures { result ≡ list_any (λ t. is_nested (turn_in t)) turns.now }
{
    turns.iter().any(is_nested)
}

/// Whether a stack may be nested in the one that a shape is of; it takes a few instructions a turn.
#[tactic(auto, using(crate::proofs::Nested::none_nested))]
pub fn has_nested(shape: &Shape) -> bool
    ensures { (b : Body) → IsShape shape.now b → result ≡ false → nestings_in b ≡ [] }
{
    has_nested_turn(shape.turns.as_slice())
}

/// What a shape has at a path; `None` where it has no resource there. No property is evaluated.
///
/// # Errors
///
/// Only for want of memory.
pub fn terms_at(alloc: Global, shape: &Shape, path: &Txt) -> Result<Option<Terms>, AllocError>
    ensures { IfOk result (λ t. (b : Body) → IsShape shape.now b → t ≡ option_map member_terms (member_at b path.now)) }
{
    terms_among(alloc, shape.turns.as_slice(), path)
}

fn terms_among(alloc: Global, turns: &[Turn], path: &Txt) -> Result<Option<Terms>, AllocError>
    ensures { IfOk result (λ t. t ≡ terms_among (map turn_in turns.now) path.now) }
{
    for turn in turns {
        if let Turn::Resource { member } = turn {
            if member.path.is(path.as_str()) {
                return Ok(Some(terms_of(alloc, member)?));
            }
        }
    }
    Ok(None)
}

/// What a shape has at each path, in the order of work.
///
/// # Errors
///
/// Only for want of memory.
pub fn all_terms(alloc: Global, shape: &Shape) -> Result<Listing<(Txt, Terms)>, AllocError>
    ensures { IfOk result (λ ts. (b : Body) → IsShape shape.now b → ts ≡ map pathed (resources_in b)) }
{
    terms_along(alloc, shape.turns.as_slice())
}

fn terms_along(alloc: Global, turns: &[Turn]) -> Result<Listing<(Txt, Terms)>, AllocError>
    ensures { IfOk result (λ ts. ts ≡ all_terms (map turn_in turns.now)) }
{
    let mut terms = Listing::new(alloc);
    for turn in turns {
        if let Turn::Resource { member } = turn {
            terms.push((member.path.try_clone(alloc)?, terms_of(alloc, member)?))?;
        }
    }
    Ok(terms)
}

fn terms_of(alloc: Global, member: &Member) -> Result<Terms, AllocError>
    ensures { IfOk result (λ t. t ≡ member_terms (member_in member.now)) }
{
    Ok(Terms {
        kind: member.resource.kind.try_clone(alloc)?,
        needs: member.needs.try_clone(alloc)?,
        deletion: member.deletion,
        replace: member.replace,
    })
}
