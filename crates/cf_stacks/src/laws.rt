//! What holds of every run of entries.
ghost use Rattle.cf_stacks.specs.Apart.{StayApart};
ghost use Rattle.cf_stacks.specs.RoomStays.{AwaitedStays, RepeatIsAwaited, RoomStays};

/// Once an intent is stepped over, each short outcome of its call has room, whatever other entries come between, until an
/// outcome of the call is stepped over. This is a law; the function does nothing.
pub fn room_stays()
    ensures { RoomStays }
{}

/// A call whose outcome has room keeps that, whatever is done meanwhile, until an outcome of the call is stepped over. This
/// is a law; the function does nothing.
pub fn awaited_stays()
    ensures { AwaitedStays }
{}

/// Room that is made with the intent of an open call is room for the call's next outcome, before the call goes out again.
/// This is a law; the function does nothing.
pub fn repeat_is_awaited()
    ensures { RepeatIsAwaited }
{}

/// Names ascend, and one operation is of one stack: that stays as long as each operation begins with a
/// number above the last one. This is a law; the function does nothing.
pub fn stay_apart()
    ensures { StayApart }
{}
