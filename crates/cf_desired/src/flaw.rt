//! Why a template can't be what a stack is to be.
use cf_eval::EvalWhy;
use cf_graph::GraphFault;
use cf_param::BindFault;
use cf_tree::Txt;

/// A flaw of what a source wants. A path is that of a nested stack or of a resource, empty for the root.
#[derive(Debug, Drop, PartialEq, Eq)]
pub enum Flaw {
    /// The parameters of the stack at a path can't be bound.
    Bind { at: Txt, fault: BindFault },
    /// An expression of the stack at a path is at fault at a place of its template.
    Eval { why: EvalWhy, stack: Txt, at: Txt },
    /// The resources of the stack at a path have no order of work.
    Graph { at: Txt, fault: GraphFault },
    /// The stack resource at a path has a property too many, or lacks its template's name.
    Shape { path: Txt },
    /// The library has no template of the name.
    TemplateMissing { name: Txt },
    /// The nested stack at a path lies too deep.
    TooDeep { path: Txt },
    /// There are so many templates, or so many resources in all of them.
    TooMany { count: u64 },
    /// A condition of the stack at a path rests on what is not known yet.
    DynamicCondition { path: Txt, name: Txt },
    /// The template of the nested stack at a path rests on what is not known yet.
    DynamicTemplate { path: Txt },
}

/// Flaws in the order in which they are met.
pub type Flaws = cf_tree::Listing<Flaw>;
