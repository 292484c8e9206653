//! What an evaluation gives.
use cf_tree::Val;

/// What the evaluation of an expression gives.
#[derive(Drop)]
pub enum Got {
    /// A value.
    Value(Val),
    /// `AWS::NoValue`: a property, a member of a map or of a list that is left out.
    NoValue,
    /// It rests on something that is not known yet.
    Later,
}
