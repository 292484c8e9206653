//! Laws about what a change set leaves to be seen, each the contract of a function that does nothing.
ghost use Rattle.cf_change.specs.Hidden.{ChangesHide, HeldShowsMore, ShapeIsHeld, ShapeStaysForward};

/// What is held shows all that is seen with the rows of a change set.
pub fn held_shows_more()
    ensures { HeldShowsMore }
{}

/// A source that has no flaw over what is seen with the rows has over that the shape along which
/// they were found.
pub fn shape_is_held()
    ensures { ShapeIsHeld }
{}

/// Where a change set is not refused for a flaw or for a type, what is seen with its rows is, at
/// each path that is wanted, what they leave of what is held, and that opens every template.
pub fn changes_hide()
    ensures { ChangesHide }
{}

/// The shape of a source stays that over what is held, while all stays that the rows don't hide.
pub fn shape_stays_forward()
    ensures { ShapeStaysForward }
{}
