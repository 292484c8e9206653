//! What is known of parameters and conditions.
use crate::by_name::ByName;
use crate::value::Val;

/// What a parameter is bound to.
#[derive(Drop, PartialEq, Eq)]
pub enum Setting {
    /// A value.
    Value(Val),
    /// It rests on something that is not known yet.
    Later,
}

/// What each parameter is bound to, by name.
pub type Bound = ByName<Setting>;

/// What a condition is.
#[derive(Clone, Copy, Debug, PartialEq, Eq)]
pub enum Verdict {
    True,
    False,
    /// It rests on something that is not known yet.
    Later,
}

/// What each condition is, by name.
pub type CondMap = ByName<Verdict>;
