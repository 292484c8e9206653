//! Names that are marked, to be looked up by name.
ghost use Rattle.std.specs.Prelude.{◌≡◌, IfOk};
ghost use Rattle.cf_next.specs.Restoring.{is_marked, mark_if, with_marks};

use crate::lookups::LentMap;
use cf_tree::{Names, Txt};
use std::alloc::AllocError;

/// Names that are marked, in the order of their bytes; each stands with `true`.
pub(crate) type Marks<'a> = LentMap<'a, bool>;

/// Whether a name is marked.
pub(crate) fn is_marked(marks: &Marks, name: &Txt) -> bool
    ensures { result ≡ is_marked name.now marks.now }
{
    marks.has(name)
}

/// Marks a name, where it is to be marked. After an error nothing is said of the marks.
pub(crate) fn mark<'a>(marks: &mut Marks<'a>, marked: bool, name: &'a Txt) -> Result<(), AllocError>
    ensures { IfOk result (λ _. marks.new ≡ mark_if marked name.now marks.old) }
{
    if marked {
        marks.insert(name, true)
    } else {
        Ok(())
    }
}

/// Marks all of these names. After an error nothing is said of the marks.
pub(crate) fn mark_all<'a>(marks: &mut Marks<'a>, names: &'a Names) -> Result<(), AllocError>
    ensures { IfOk result (λ _. marks.new ≡ with_marks names.now marks.old) }
{
    for name in names.as_slice() {
        mark(marks, true, name)?;
    }
    Ok(())
}
