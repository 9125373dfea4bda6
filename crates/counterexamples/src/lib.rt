//! Three known ways in which relays go astray, each shown to break a promise of the pair.
//!
//! Each is a wrong definition in `specs/`, made from the right one by a single change, with the run that it leads
//! astray told above it: `Early.antt`, `Kept.antt`, `Refusing.antt`. A run starts from a pair that was just set up
//! (`Setting.antt`), and each of its calls does what those wrong rules say.
//!
//! Left out: that the right rules keep the promises, which is the business of `promises`.
#![tactic(auto)]

ghost use Rattle.counterexamples.specs.Early.{EarlyCompleteLies};
ghost use Rattle.counterexamples.specs.Kept.{KeptFrameMisleads};
ghost use Rattle.counterexamples.specs.Refusing.{NextNumberPasses, RefusingLocksOut, RefusingStrands};

/// A hub that writes synchronization complete at the highest number of the login, before the later ones are sent,
/// makes a seat report itself in step that is not.
pub fn early_complete_lies()
    ensures { EarlyCompleteLies }
{}

/// A relay that keeps half a packet across a connect lets into a seat's log what was never published.
pub fn a_kept_frame_misleads()
    ensures { KeptFrameMisleads }
{}

/// The number after the highest is right to ask for: a seat whose log is a prefix of the hub's is never told
/// that its number is invalid. A login decision that refuses that number rejects every seat that holds all
/// messages and joins, and a seat that is new to a hub which has published none does not catch up.
pub fn refusing_the_next_number_locks_out()
    ensures passes { NextNumberPasses }
    ensures locks { RefusingLocksOut }
    ensures strands { RefusingStrands }
{}
