//! What is seen of the resources of a stack.
pub use cf_eval::SeenAt;
use cf_tree::ByName;

/// What is seen, by path.
pub type Seen = ByName<SeenAt>;
