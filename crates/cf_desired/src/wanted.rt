//! What a source wants of each path.
use crate::flaw::{Flaw, Flaws};
use crate::props::Props;
use cf_tree::{Deletion, Listing, Names, Replace, Txt};

/// What the properties of a path come to.
#[derive(Drop)]
pub enum Evaluated {
    /// They are at fault.
    Flawed { flaw: Flaw },
    /// Each is known, or not known yet.
    Known { props: Props },
}

/// What is wanted at a path.
#[derive(Drop)]
pub struct Wanted {
    pub path: Txt,
    pub kind: Txt,
    pub deletion: Deletion,
    pub replace: Replace,
    /// The paths that it needs.
    pub needs: Names,
    pub props: Evaluated,
}

/// The name that an output is exported by.
#[derive(Drop)]
pub enum Exporting {
    /// It is not exported.
    Nothing,
    /// It is exported, and the name is at fault.
    Fault,
    Named { name: Txt },
}

/// An output of the root or of a nested stack.
#[derive(Drop)]
pub struct WantedOutput {
    pub name: Txt,
    /// Its value; `None` while it is not known yet, or where it is at fault.
    pub value: Option<Txt>,
    pub export: Exporting,
    pub fault: Option<Flaw>,
}

/// A nested stack: the path of its stack resource, what that needs, and why its parameters can't be bound.
#[derive(Drop)]
pub struct Inner {
    pub path: Txt,
    pub needs: Names,
    pub fault: Option<Flaw>,
}

/// What the templates of a source want over what is seen.
#[derive(Drop)]
pub struct Plan {
    /// What is wanted of each path, in the order of work.
    pub wanted: Listing<Wanted>,
    pub outputs: Listing<WantedOutput>,
    pub nested: Listing<Inner>,
    /// The outputs whose condition is false.
    pub unmade: Names,
    /// The exports of root and nested stacks with their values, `None` where one is not known.
    pub exports: Listing<(Txt, Option<Txt>)>,
    /// Every flaw, in the order in which it is met.
    pub flaws: Flaws,
    /// How many templates were entered.
    pub templates: u64,
    /// How many resources these have, each counted as often as it was entered.
    pub members: u64,
}
