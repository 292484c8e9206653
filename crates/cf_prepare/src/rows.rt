//! Whether the rows of two change sets are the same.
ghost use Rattle.std.specs.Prelude.{◌≡◌, ◌↔◌, IsTrue};
ghost use Rattle.cf_prepare.specs.Rows.{same_action, same_attribute, same_detail, same_evaluation, same_recreation, same_replacement, same_row};
ghost use Rattle.cf_prepare.specs.Same.{same_option};

use crate::same::{Compared, all_same};
use cf_tree::{Action, Attribute, Detail, Evaluation, Recreation, Replacement, Row, Rows};

fn same_action(one: Action, other: Action) -> bool
    ensures { result ≡ same_action one other }
{
    matches!(
        (one, other),
        (Action::Add, Action::Add)
            | (Action::Modify, Action::Modify)
            | (Action::Remove, Action::Remove)
    )
}

fn same_replacement(one: Replacement, other: Replacement) -> bool
    ensures { result ≡ same_replacement one other }
{
    matches!(
        (one, other),
        (Replacement::True, Replacement::True)
            | (Replacement::False, Replacement::False)
            | (Replacement::Conditional, Replacement::Conditional)
    )
}

fn both_replaced(one: Option<Replacement>, other: Option<Replacement>) -> bool
    ensures { result ≡ same_option same_replacement one other }
{
    match (one, other) {
        (None, None) => true,
        (Some(one), Some(other)) => same_replacement(one, other),
        _ => false,
    }
}

fn same_attribute(one: Attribute, other: Attribute) -> bool
    ensures { result ≡ same_attribute one other }
{
    matches!(
        (one, other),
        (Attribute::Properties, Attribute::Properties)
            | (Attribute::DeletionPolicy, Attribute::DeletionPolicy)
            | (
                Attribute::UpdateReplacePolicy,
                Attribute::UpdateReplacePolicy
            )
    )
}

fn same_recreation(one: Recreation, other: Recreation) -> bool
    ensures { result ≡ same_recreation one other }
{
    matches!(
        (one, other),
        (Recreation::Never, Recreation::Never)
            | (Recreation::Conditionally, Recreation::Conditionally)
            | (Recreation::Always, Recreation::Always)
    )
}

fn same_evaluation(one: Evaluation, other: Evaluation) -> bool
    ensures { result ≡ same_evaluation one other }
{
    matches!(
        (one, other),
        (Evaluation::Static, Evaluation::Static) | (Evaluation::Dynamic, Evaluation::Dynamic)
    )
}

impl Compared for Detail {
    ghost same = { same_detail };

    fn is_same(&self, other: &Detail) -> bool {
        same_attribute(self.attribute, other.attribute)
            && self.name == other.name
            && same_recreation(self.recreation, other.recreation)
            && same_evaluation(self.evaluation, other.evaluation)
    }
}

impl Compared for Row {
    ghost same = { same_row };

    fn is_same(&self, other: &Row) -> bool {
        same_action(self.action, other.action)
            && self.path == other.path
            && self.kind == other.kind
            && both_replaced(self.replacement, other.replacement)
            && self.unsure == other.unsure
            && all_same(self.details.as_slice(), other.details.as_slice())
    }
}

/// Whether two change sets have the same rows.
#[tactic(auto, using(crate::proofs::SameRows::same_rows))]
pub(crate) fn same_rows(these: &Rows, those: &Rows) -> bool
    ensures { IsTrue result ↔ (these.now ≡ those.now) }
{
    all_same(these.as_slice(), those.as_slice())
}
