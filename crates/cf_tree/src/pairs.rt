//! Pairs of texts by name.
use crate::by_name::ByName;
use crate::text::Txt;

/// Pairs of texts whose first members strictly ascend, as given parameters and imports are.
pub type Pairs = ByName<Txt>;
