//! Why a template has no order of work.
use cf_tree::{Names, NoMemory, Txt};

/// Why a template has no order of work.
#[derive(Debug, Drop, PartialEq, Eq)]
pub enum GraphFault {
    /// Resources that need each other in turn, each the next and the last the first. The cycle starts at the least resource
    /// in byte order that lies on one, is the shortest from there, and the least in byte order among these.
    Circular { cycle: Names },
    /// The `DependsOn` of the resource `from` names a resource that is not declared.
    UnknownDependency { from: Txt, name: Txt },
    /// There was no memory.
    NoMemory,
}

impl From<NoMemory> for GraphFault {
    ghost use Rattle.std.specs.Prelude.{◌≡◌};
    ghost use Rattle.cf_graph.specs.Orders.{no_memory};

    ghost from_gives = { λ _ e. e ≡ no_memory };

    fn from(_none: NoMemory) -> GraphFault {
        GraphFault::NoMemory
    }
}
