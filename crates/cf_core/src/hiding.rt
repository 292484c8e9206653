//! Laws on what an operation hides as it goes forward, which the course of operations rests on.
//! None of these functions does anything when it runs.
ghost use Rattle.cf_core.specs.Hiding.{DescribedIsKept, IntendedIsHidden, NoneIsOrdered, OrderStays, RestBeginsSeen, RestStaysSeen, SaidIsInOrder, ShapeStaysAdvancing, StartIsDescribed};

/// As an operation goes forward, the shape of its source is that over what was held before.
pub fn shape_stays_advancing()
    ensures { ShapeStaysAdvancing }
{}

/// What the change set of an operation did not hide stays seen, whatever entry is written as it goes
/// forward.
pub fn rest_stays_seen()
    ensures { RestStaysSeen }
{}

/// What the change set did not hide is seen as a creation or an update begins, whose source has no
/// flaw and changes no type.
pub fn rest_begins_seen()
    ensures { RestBeginsSeen }
{}

/// Each call that the forward phase intends is hidden by the change set of its operation: the id and
/// the attributes of what a create takes the place of, the attributes of what is updated.
pub fn intended_is_hidden()
    ensures { IntendedIsHidden }
{}

/// The properties that a template says of a path stand in the order of their names.
pub fn said_is_in_order()
    ensures { SaidIsInOrder }
{}

/// Properties of resources and calls stay in the order of their names, whatever entry is written.
pub fn order_stays()
    ensures { OrderStays }
{}

/// Nothing is out of order where nothing is known of a stack.
pub fn none_is_ordered()
    ensures { NoneIsOrdered }
{}

/// At the start of a life each type of the lanes of the last opening has a schema.
pub fn start_is_described()
    ensures { StartIsDescribed }
{}

/// So it has after every event.
pub fn described_is_kept()
    ensures { DescribedIsKept }
{}
