//! Counts over a trace.
ghost use Rattle.std.specs.Prelude.{◌≡◌, count_by};
ghost use Rattle.pump.specs.Tallies.{tallied};
ghost use Rattle.pump.specs.declared.traces.Event.{Event};

use crate::traces::{Act, Event};

/// How many puts were granted, how many refused, and how many takes there were.
#[derive(Clone, Copy, PartialEq, Eq, Debug)]
pub struct Tally {
    pub puts: usize,
    pub refusals: usize,
    pub takes: usize,
}

/// How many of the events are of this act.
fn count_of(events: &[Event], act: Act) -> usize
    ensures { result ≡ count_by (λ (d : Event). ⟦<Act as PartialEq>⟧.eq d.act act) events.now }
{
    events.iter().filter(|event| event.act == act).count()
}

/// Counts the events by what was done.
pub fn tally_of(events: &[Event]) -> Tally
    ensures { result ≡ tallied events.now }
{
    Tally {
        puts: count_of(events, Act::Put),
        refusals: count_of(events, Act::Refused),
        takes: count_of(events, Act::Take),
    }
}
