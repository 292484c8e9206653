//! Laws about what a source wants, which the crates above cite. None of these functions does
//! anything when it runs.
ghost use Rattle.cf_desired.specs.ComeFirst.{NeedsComeFirst, OrderTellsNeeds};
ghost use Rattle.cf_desired.specs.KnownStays.{KnownStays};
ghost use Rattle.cf_desired.specs.NeededIsKnown.{NeededIsKnown};
ghost use Rattle.cf_desired.specs.NeedsMatter.{NeedsMatter, StackNeedsMatter};
ghost use Rattle.cf_desired.specs.PathsDiffer.{PathsDiffer};
ghost use Rattle.cf_desired.specs.Rests.{OutputRests, ValueRests};
ghost use Rattle.cf_desired.specs.ShapeStays.{FlawlessIsClear, HidingServes, ShapeStays, UpdateStays};
ghost use Rattle.cf_desired.specs.Stays.{AllKnownIsWhole, SeenIsKnown};

/// What an expression comes to rests on what is seen of the names that it mentions alone.
pub fn value_rests()
    ensures { ValueRests }
{}

/// An output, its fault and the name of its export rest on what is seen of the names that its two
/// expressions mention alone.
pub fn output_rests()
    ensures { OutputRests }
{}

/// The properties of a path rest on what is seen of the paths that it needs, and on nothing else
/// that is seen.
pub fn needs_matter()
    ensures { NeedsMatter }
{}

/// Why a nested stack's parameters can't be bound rests on what is seen of the paths that its stack
/// resource needs, and on nothing else that is seen.
pub fn stack_needs_matter()
    ensures { StackNeedsMatter }
{}

/// A shape in which every template could be opened stays the same as more is seen.
pub fn shape_stays()
    ensures { ShapeStays }
{}

/// The shape before an update is that in it, where what both show of what the update leaves as it is
/// suffices to open every template.
pub fn update_stays()
    ensures { UpdateStays }
{}

/// The shape in an update is that before it, where what the update hides at its beginning is not
/// needed to open every template.
pub fn hiding_serves()
    ensures { HidingServes }
{}

/// A plan without a flaw is one of a shape in which every template could be opened.
pub fn flawless_is_clear()
    ensures { FlawlessIsClear }
{}

/// Seeing more keeps what was known: properties that are all known, and values of outputs.
pub fn known_stays()
    ensures { KnownStays }
{}

/// What a path needs comes before it in the order of work.
pub fn needs_come_first()
    ensures { NeedsComeFirst }
{}

/// What a resource needs is what those stand for that the order of work tells for it.
pub fn order_tells_needs()
    ensures { OrderTellsNeeds }
{}

/// No two resources or nested stacks of a shape have one path.
pub fn paths_differ()
    ensures { PathsDiffer }
{}

/// A plan all of whose parts are known is whole: its paths, its outputs and its exports.
pub fn all_known_is_whole()
    ensures { AllKnownIsWhole }
{}

/// Where all paths are seen, a plan without a flaw is known.
pub fn seen_is_known()
    ensures { SeenIsKnown }
{}

/// Where all that a path needs is seen, its properties are known or at fault.
///
/// That is so where the parameters of the root and of each nested stack whose needs are seen are
/// bound.
pub fn needed_is_known()
    ensures { NeededIsKnown }
{}
