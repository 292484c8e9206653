//! What a stack holds, as a change set compares it.
use cf_export::Outputs;
use cf_tree::{Deletion, Dict, Listing, Named, Pairs, Replace, Txt};

/// A resource as a stack holds it.
#[derive(Drop)]
pub struct HeldAt {
    pub path: Txt,
    pub kind: Txt,
    pub physical: Txt,
    pub props: Dict,
    pub attrs: Dict,
    pub deletion: Deletion,
    pub replace: Replace,
    /// Its live properties are not known.
    pub unsure: bool,
}

/// The resources that a stack holds, at most one of each path, its outputs, and the values of its exports.
#[derive(Drop)]
pub struct HeldMap {
    pub resources: Listing<HeldAt>,
    pub outputs: Outputs,
    pub exports: Pairs,
}

impl Named for HeldAt {
    ghost name_of = { λ h. h.path };

    fn name(&self) -> &Txt {
        &self.path
    }
}
