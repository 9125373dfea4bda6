//! Theorems about the rules as a whole: each function's contract is one.
ghost use Rattle.rules.specs.Examples.{ExamplesHold};
ghost use Rattle.rules.specs.Laws.{Total, RoundsGranted, GoesOnByTaking, LinesStaySound, OneOutcome, RoundsDiffer, OnlyRoomsFree, BuffersLast, FramesStayParts, PartsLack, FrameBuffersKeep};

/// From every pair whose lines are sound every call leads somewhere, and leaves them sound. Where no short
/// buffer is lent a round can be granted: its receives end, since each that goes on takes a byte at least.
pub fn rules_are_total()
    ensures total { Total }
    ensures granted { RoundsGranted }
    ensures ending { GoesOnByTaking }
    ensures sound { LinesStaySound }
{}

/// Nothing is free but the rooms that takes leave. A call that is no round has one answer, writes one packet and
/// leads to one pair, but for the rooms of the lines. Two rounds from one pair can differ in more, but any call,
/// rounds too, is a function of the pair and of the rooms that its takes leave.
pub fn only_rooms_are_free()
    ensures one { OneOutcome }
    ensures several { RoundsDiffer }
    ensures rooms { OnlyRoomsFree }
{}

/// No call makes a buffer shorter.
pub fn buffers_never_shrink()
    ensures { BuffersLast }
{}

/// A frame stays a part of a packet, which lacks something and fits in a buffer of the longest packet. So the
/// buffer of a frame, if it is no shorter than that, keeps its length.
pub fn frames_stay_parts()
    ensures parts { FramesStayParts }
    ensures lacking { PartsLack }
    ensures buffers { FrameBuffersKeep }
{}

/// The worked examples hold: connections from login to in step, fetches, time limits, counts, what a login is
/// owed, and what a connect clears.
pub fn examples_hold()
    ensures { ExamplesHold }
{}
