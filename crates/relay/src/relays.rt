//! A pair that owns its parts, and knows what was done with it.
ghost use Rattle.std.specs.Prelude.{◌≡◌, false};
ghost use Rattle.rules.specs.Rounds.{Round, lent_short};
ghost use Rattle.relay.specs.Calls.{call_of};
ghost use Rattle.relay.specs.Levels.{how_of};
ghost use Rattle.relay.specs.OwnedPairs.{meaning_of};
ghost use Rattle.relay.specs.CallHistory.{BeginsHistory, BringsLevelAndNotes, PerformsAndNotes};
ghost use Rattle.relay.specs.CallHistory.{PromisesHold, RoundsAndNotes, RunsAndNotes};

use crate::calls_made::CallsMade;
use crate::commands::Call;
use crate::leveling::{Way, login_answer};
use crate::owned_pairs::OwnedPair;
use crate::parts::Parts;
use crate::running::Slot;
use line::Line;
use message_log::Log;
use rules::Answer;
use std::marker::Model;
use std::snapshot::Snapshot;
use wire::{Refusal, Status, Unmade};

/// A pair with its logs, lines and buffers, to which nothing happens but the calls that are made here. What was set up
/// and which calls were made is kept for proofs, and takes no memory.
#[derive(Drop)]
pub struct Relay<G: Log, S: Log, U: Line, D: Line> {
    owned: OwnedPair<G, S, U, D>,
    first: Snapshot<OwnedPair<G, S, U, D>>,
    made: CallsMade,
}

/// A relay means its history, which happened.
impl<G: Log, S: Log, U: Line, D: Line> Model for Relay<G, S, U, D> {
    ghost use Rattle.relay.specs.CallHistory.{CallHistory, Happened};
    ghost use Rattle.relay.specs.OwnedPairs.{meaning_of};

    ghost Value = { CallHistory };

    ghost view = { λ r. record {
      first = meaning_of G.Log.view S.Log.view U.Line.view D.Line.view r.first.value;
      calls = r.made.list;
      pair = meaning_of G.Log.view S.Log.view U.Line.view D.Line.view r.owned;
    } };

    ghost invariant = { λ r. Happened (record {
      first = meaning_of G.Log.view S.Log.view U.Line.view D.Line.view r.first.value;
      calls = r.made.list;
      pair = meaning_of G.Log.view S.Log.view U.Line.view D.Line.view r.owned;
    }) };
}

impl<G: Log, S: Log, U: Line, D: Line> Relay<G, S, U, D> {
    /// Sets a relay up of all its parts. Refuses as `Pair::set_up` does, and hands the parts back unchanged.
    pub fn set_up(parts: Parts<G, S, U, D>) -> Result<Relay<G, S, U, D>, Unmade<Parts<G, S, U, D>>>
        ensures { BeginsHistory parts result }
    {
        let owned = OwnedPair::set_up(parts)?;
        let first = Snapshot::of(&owned);
        Ok(Relay {
            owned,
            first,
            made: CallsMade::new(),
        })
    }

    /// Performs a call.
    pub fn perform(&mut self, call: Call<'_>) -> Answer
        ensures { PerformsAndNotes self.old (call_of call.entry) result self.new }
    {
        let answer = self.owned.perform(call);
        self.made = self.made.and(&call, &answer);
        answer
    }

    /// Performs the calls of these slots one after the other, granted or refused, and puts the answer of each into its
    /// slot.
    pub fn run(&mut self, slots: &mut [Slot<'_>])
        ensures { RunsAndNotes self.old slots.old slots.new self.new }
    {
        // The proof reads the promises here; the call does nothing.
        self.promises();
        for slot in slots.iter_mut() {
            let answer = self.perform(slot.call);
            slot.answer = Some(answer);
        }
    }

    /// Brings the seat level with the hub: connects by join or anew, and goes as many rounds as that takes. It answers
    /// what the hub answered the login, or `None` if the hub has not, as the function `bring_level` does. Refuses by
    /// `ShortBuffer`, with nothing changed.
    pub fn bring_level(&mut self, way: Way) -> Result<Option<Status>, Refusal>
        ensures { BringsLevelAndNotes (how_of way) self.old result self.new }
    {
        // The proof reads the promises here; the call does nothing.
        self.promises();
        if self.owned.buffers.is_short() {
            return Err(Refusal::ShortBuffer);
        }
        let rounds = way.rounds(&self.owned.hub_log, &self.owned.seat_log);
        self.perform(Call::Connect(way.how()));
        self.go_rounds(rounds);
        let pair = &self.owned.pair;
        Ok(login_answer(pair.seat_phase(), pair.status()))
    }

    // Goes so many rounds.
    fn go_rounds(&mut self, rounds: usize)
        requires { lent_short Round self.old.pair ≡ false }
        ensures { RoundsAndNotes rounds self.old self.new }
    {
        for _ in 0..rounds {
            self.perform(Call::Round);
        }
    }

    /// The promises hold of a relay at all times: this call does nothing, and its contract says so.
    pub fn promises(&self)
        ensures { PromisesHold self.now }
    {
        let _ = &self.owned;
    }

    /// The pair with its logs, lines and buffers, to be read.
    pub fn owned_pair(&self) -> &OwnedPair<G, S, U, D>
        ensures { let pair = meaning_of G.Log.view S.Log.view U.Line.view D.Line.view result.now in
            pair ≡ self.now.pair }
    {
        &self.owned
    }

    /// Takes the relay apart.
    pub fn into_owned_pair(self) -> OwnedPair<G, S, U, D>
        ensures { meaning_of G.Log.view S.Log.view U.Line.view D.Line.view result ≡ self.pair }
    {
        self.owned
    }
}
