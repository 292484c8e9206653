//! Whether two plans without a flaw are the same.
ghost use Rattle.std.specs.Prelude.{◌≡◌, Bool};
ghost use Rattle.std.specs.Cmp.Lexicographic.{pointwise};
ghost use Rattle.std.specs.Str.{bytes_eq};
ghost use Rattle.cf_change.specs.Changes.{is_empty, same_deletion, same_replace};
ghost use Rattle.cf_prepare.specs.Same.{is_none, same_evaluated, same_export, same_exporting, same_inner, same_kept, same_option, same_output, same_plan, same_wanted};
ghost use Rattle.cf_tree.specs.Same.{same_data};
ghost use Rattle.cf_tree.specs.Value.{datum_of};

use cf_desired::{Evaluated, Exporting, Flaw, Inner, Plan, Prop, Wanted, WantedOutput};
use cf_tree::{Deletion, Replace, Txt, Val};

/// What can be compared part by part.
pub(crate) trait Compared {
    ghost same: { Self → Self → Bool };

    /// Whether it is the same as another.
    fn is_same(&self, other: &Self) -> bool
        ensures { result ≡ same self.now other.now };
}

/// Whether two lists are the same, member by member.
pub(crate) fn all_same<T: Compared>(these: &[T], those: &[T]) -> bool
    ensures { result ≡ pointwise T.same these.now those.now }
{
    if these.len() != those.len() {
        return false;
    }
    for at in 0..these.len() {
        if !these[at].is_same(&those[at]) {
            return false;
        }
    }
    true
}

fn same_text(one: &Option<Txt>, other: &Option<Txt>) -> bool
    ensures { result ≡ same_option bytes_eq one.now other.now }
{
    match (one, other) {
        (None, None) => true,
        (Some(one), Some(other)) => *one == *other,
        _ => false,
    }
}

fn same_value(one: &Option<Val>, other: &Option<Val>) -> bool
    ensures { result ≡ same_option (λ a b. same_data (datum_of a) (datum_of b)) one.now other.now }
{
    match (one, other) {
        (None, None) => true,
        (Some(one), Some(other)) => *one == *other,
        _ => false,
    }
}

fn same_deletion(one: Deletion, other: Deletion) -> bool
    ensures { result ≡ same_deletion one other }
{
    matches!(
        (one, other),
        (Deletion::Delete, Deletion::Delete)
            | (Deletion::Retain, Deletion::Retain)
            | (
                Deletion::RetainExceptOnCreate,
                Deletion::RetainExceptOnCreate
            )
    )
}

fn same_replace(one: Replace, other: Replace) -> bool
    ensures { result ≡ same_replace one other }
{
    matches!(
        (one, other),
        (Replace::Delete, Replace::Delete) | (Replace::Retain, Replace::Retain)
    )
}

#[tactic(auto, using(crate::proofs::SamePlans::evaluated_by))]
fn same_evaluated(one: &Evaluated, other: &Evaluated) -> bool
    ensures { result ≡ same_evaluated one.now other.now }
{
    match (one, other) {
        (Evaluated::Known { props }, Evaluated::Known { props: others }) => {
            all_same(props.as_slice(), others.as_slice())
        }
        _ => false,
    }
}

fn same_exporting(one: &Exporting, other: &Exporting) -> bool
    ensures { result ≡ same_exporting one.now other.now }
{
    match (one, other) {
        (Exporting::Nothing, Exporting::Nothing) => true,
        (Exporting::Fault, Exporting::Fault) => true,
        (Exporting::Named { name }, Exporting::Named { name: other }) => *name == *other,
        _ => false,
    }
}

fn is_none(flaw: &Option<Flaw>) -> bool
    ensures { result ≡ is_none flaw.now }
{
    flaw.is_none()
}

fn are_empty(flaws: &[Flaw]) -> bool
    ensures { result ≡ is_empty flaws.now }
{
    flaws.first().is_none()
}

impl Compared for Prop {
    ghost same = { same_kept };

    fn is_same(&self, other: &Prop) -> bool {
        self.name == other.name && same_value(&self.value, &other.value)
    }
}

impl Compared for Txt {
    ghost same = { bytes_eq };

    fn is_same(&self, other: &Txt) -> bool {
        *self == *other
    }
}

impl Compared for Wanted {
    ghost same = { same_wanted };

    fn is_same(&self, other: &Wanted) -> bool {
        self.path == other.path
            && self.kind == other.kind
            && same_deletion(self.deletion, other.deletion)
            && same_replace(self.replace, other.replace)
            && self.needs == other.needs
            && same_evaluated(&self.props, &other.props)
    }
}

impl Compared for WantedOutput {
    ghost same = { same_output };

    fn is_same(&self, other: &WantedOutput) -> bool {
        self.name == other.name
            && same_text(&self.value, &other.value)
            && same_exporting(&self.export, &other.export)
            && is_none(&self.fault)
            && is_none(&other.fault)
    }
}

impl Compared for Inner {
    ghost same = { same_inner };

    fn is_same(&self, other: &Inner) -> bool {
        self.path == other.path
            && self.needs == other.needs
            && is_none(&self.fault)
            && is_none(&other.fault)
    }
}

impl Compared for (Txt, Option<Txt>) {
    ghost same = { same_export };

    fn is_same(&self, other: &(Txt, Option<Txt>)) -> bool {
        self.0 == other.0 && same_text(&self.1, &other.1)
    }
}

/// Whether two plans have no flaw and are the same.
pub(crate) fn same_plan(one: &Plan, other: &Plan) -> bool
    ensures { result ≡ same_plan one.now other.now }
{
    are_empty(one.flaws.as_slice())
        && are_empty(other.flaws.as_slice())
        && all_same(one.wanted.as_slice(), other.wanted.as_slice())
        && all_same(one.outputs.as_slice(), other.outputs.as_slice())
        && all_same(one.nested.as_slice(), other.nested.as_slice())
        && one.unmade == other.unmade
        && all_same(one.exports.as_slice(), other.exports.as_slice())
        && one.templates == other.templates
        && one.members == other.members
}
