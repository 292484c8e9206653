ghost use Rattle.std.specs.Prelude.{◌≡◌, ◌↔◌};
ghost use Rattle.cf_schema.specs.Change.{any_differs, difference_of, differs_at};

use crate::described::Schema;
use cf_tree::{Dict, Txt};

/// How far two versions of a resource's properties differ.
#[derive(Clone, Copy, Debug, PartialEq, Eq)]
pub enum Difference {
    /// They are equal.
    Same,
    /// A new version can be reached by an update.
    Update,
    /// A property differs of which a change may need a new resource.
    MayReplace,
    /// A property differs of which a change needs a new resource.
    Replace,
}

/// How far two versions of a resource's properties differ, without taking memory (CloudFormation CLI guide, createOnlyProperties and
/// conditionalCreateOnlyProperties).
///
/// `Same` exactly where they are equal; else `Replace` exactly where a create-only property differs; else `MayReplace` exactly where a
/// conditional create-only property differs; else `Update`. A property differs where it stands on one side alone, or with another value.
#[tactic(auto, using(crate::proofs::Equal::same_equal, crate::proofs::Equal::equal_same))]
pub fn differs(schema: &Schema, old: &Dict, new: &Dict) -> Difference
    ensures difference { result ≡ difference_of schema.now old.now new.now }
    ensures same { (result ≡ Difference.Same) ↔ (old.now ≡ new.now) }
{
    if old == new {
        Difference::Same
    } else if any_differs(schema.create_only.as_slice(), old, new) {
        Difference::Replace
    } else if any_differs(schema.conditional.as_slice(), old, new) {
        Difference::MayReplace
    } else {
        Difference::Update
    }
}

fn any_differs(names: &[Txt], old: &Dict, new: &Dict) -> bool
    ensures { result ≡ any_differs names.now old.now new.now }
{
    for name in names {
        if differs_at(name.as_str(), old, new) {
            return true;
        }
    }
    false
}

fn differs_at(name: &str, old: &Dict, new: &Dict) -> bool
    ensures { result ≡ differs_at name.now old.now new.now }
{
    match (old.get(name), new.get(name)) {
        (Some(one), Some(two)) => one != two,
        (None, None) => false,
        _ => true,
    }
}
