//! A pair of any kinds, and what is done to it.
ghost use Rattle.std.specs.Prelude.{◌≡◌, Ok, Err, MatchResult};
ghost use Rattle.rules.specs.SetUp.{set_up};
ghost use Rattle.relay.specs.Calls.{call_of};
ghost use Rattle.relay.specs.Histories.{Performs};
ghost use Rattle.relay.specs.Levels.{how_of, BringsLevel};
ghost use Rattle.any_pair.specs.Strangers.{Injects};

use crate::builders::AnyParts;
use crate::forms::Side;
use line::Line;
use lines::{AnyLine, CountedLine};
use logs::AnyLog;
use message_log::Log;
use relay::{Answer, Call, OwnedPair, Way};
use std::marker::Model;
use wire::{Refusal, Status, Unmade};

/// A pair of any kinds, with all that its calls are lent.
// It is no `Relay`, since a stranger's bytes on a line are no call: each call says what it promises of every history
// that led to the pair, and after an injection there is none.
#[derive(Drop)]
pub struct AnyPair {
    pub owned: OwnedPair<AnyLog, AnyLog, CountedLine<AnyLine>, CountedLine<AnyLine>>,
}

/// It means what its pair means with all that it is lent, and how many packets were put on each line.
impl Model for AnyPair {
    ghost use Rattle.relay.specs.OwnedPairs.{meaning_of};
    ghost use Rattle.any_pair.specs.AnyPairs as Given;

    ghost Value = { Given.PairWithCounts };

    ghost view = { λ p. record {
      pair = meaning_of ⟦<AnyLog as Log>⟧.view ⟦<AnyLog as Log>⟧.view
          ⟦<CountedLine<AnyLine> as Line>⟧.view ⟦<CountedLine<AnyLine> as Line>⟧.view p.owned;
      up = p.owned.up.tally.counts;
      down = p.owned.down.tally.counts;
    } };
}

impl AnyPair {
    /// Sets a pair up of all its parts. Refuses as `Pair::set_up` does, and hands the parts back unchanged.
    pub fn set_up(parts: AnyParts) -> Result<AnyPair, Unmade<AnyParts>>
        ensures { MatchResult result
            (λ made. set_up parts ≡ Ok made.pair)
            (λ unmade. (set_up parts ≡ Err unmade.refusal) × (unmade.given ≡ parts)) }
    {
        Ok(AnyPair {
            owned: OwnedPair::set_up(parts)?,
        })
    }

    /// Performs a call: a step of the rules, after which the promises hold as before.
    pub fn perform(&mut self, call: Call<'_>) -> Answer
        ensures { Performs self.old.pair (call_of call.entry) result self.new.pair }
    {
        self.owned.perform(call)
    }

    /// Brings the seat level with the hub: a connect, and as many rounds as that takes. It answers what the hub
    /// answered the login, if it did.
    pub fn bring_level(&mut self, way: Way) -> Result<Option<Status>, Refusal>
        ensures { BringsLevel (how_of way) self.old.pair result self.new.pair }
    {
        self.owned.bring_level(way)
    }

    /// Puts a stranger's bytes on a line. Nothing else changes; they are counted as nobody's packets.
    pub fn inject(&mut self, side: Side, bytes: &[u8]) -> Result<(), Refusal>
        ensures put { Injects side bytes.now self.old.pair result self.new.pair }
        ensures up { self.new.up ≡ self.old.up }
        ensures down { self.new.down ≡ self.old.down }
    {
        match side {
            Side::Up => self.owned.up.put_past(bytes),
            Side::Down => self.owned.down.put_past(bytes),
        }
    }
}
