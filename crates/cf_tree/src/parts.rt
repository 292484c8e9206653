//! Texts with holes.
use crate::list::Listing;
use crate::text::Txt;

/// A part of a text with holes, as `Fn::Sub` has it (template reference, `Fn::Sub`).
#[derive(Drop, PartialEq, Eq)]
pub enum Part {
    /// Text that stands as it is; `${!X}` is the plain text `${X}`.
    Plain(Txt),
    /// A hole `${X}`, with the name X.
    Name(Txt),
}

/// A text with holes, part by part.
pub type Parts = Listing<Part>;
