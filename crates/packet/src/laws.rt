//! Theorems that stand on no call: each function's contract is one.
ghost use Rattle.packet.specs.Examples.{ExamplesHold};
ghost use Rattle.packet.specs.Laws.{ReadsBack, WritesBack, IgnoresRest, BeginningsAreParts, ReportsEarly, KnowsNoPhase};

/// A written packet reads back as itself, and an accepted packet, written again, gives the same bytes.
pub fn reading_undoes_writing()
    ensures back { ReadsBack }
    ensures again { WritesBack }
{}

/// What is said of a packet does not depend on the bytes after it, a proper beginning of a good packet is a
/// part, a bad length number is reported by its two bytes, and no fault is reported that takes a phase.
pub fn reading_goes_by_the_front()
    ensures rest { IgnoresRest }
    ensures beginnings { BeginningsAreParts }
    ensures early { ReportsEarly }
    ensures phaseless { KnowsNoPhase }
{}

/// The worked examples of packets hold of the definition of reading.
#[tactic(auto, unfolding(crate::specs::Decoding::decode))]
pub fn examples_hold()
    ensures { ExamplesHold }
{}
