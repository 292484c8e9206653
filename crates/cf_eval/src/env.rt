//! What an expression is evaluated over.
use crate::fault::EvalWhy;
use crate::sights::Sights;
use cf_tree::{Bound, ByName, CondMap, Dict, Mappings, Pairs, Txt};

/// What is seen of a resource of the template.
#[derive(Drop)]
pub enum Sight {
    /// It is not made, since its condition is false.
    NotMade,
    /// Its physical id and its attributes, each `None` while it is not known.
    Made {
        physical: Option<Txt>,
        attrs: Option<Dict>,
    },
    /// A nested stack: its stack id, and its outputs under the attributes that name them, as
    /// `Outputs.Total`.
    Nested {
        id: Txt,
        outputs: ByName<OutputSight>,
    },
}

/// What is seen of an output of a nested stack.
#[derive(Drop)]
pub enum OutputSight {
    /// It is not made, since its condition is false.
    NotMade,
    /// Its value, `None` while it is not known.
    Made { value: Option<Txt> },
    /// It is at fault: why, in which stack, at which place of its template.
    Broken { why: EvalWhy, stack: Txt, at: Txt },
}

/// What an expression is evaluated over.
///
/// It borrows all its parts, so it costs nothing to make, and every look-up is a search by halves.
#[derive(Drop)]
pub struct Env<'a> {
    /// What each parameter of the template is bound to.
    pub bound: &'a Bound,
    /// The mappings of the template.
    pub mappings: &'a Mappings,
    /// What each condition of the template is.
    pub conds: &'a CondMap,
    /// What is seen of each resource of the template.
    pub seen: &'a Sights<'a>,
    /// The values of the exports of other stacks, by their names.
    pub imports: &'a Pairs,
    /// The pseudo parameters but `AWS::NoValue`.
    pub pseudo: &'a Dict,
    /// The path of the nested stack, empty for the root, which faults carry.
    pub stack: &'a Txt,
}
