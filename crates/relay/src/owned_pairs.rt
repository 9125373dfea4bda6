//! A pair that owns its logs, lines and buffers.
ghost use Rattle.std.specs.Prelude.{◌≡◌, Ok, Err, MatchResult};
ghost use Rattle.rules.specs.SetUp.{set_up};
ghost use Rattle.promises.specs.Runs.{SetUp};
ghost use Rattle.relay.specs.Calls.{call_of};
ghost use Rattle.relay.specs.Histories.{Performs};
ghost use Rattle.relay.specs.Levels.{how_of, BringsLevel};
ghost use Rattle.relay.specs.OwnedPairs.{meaning_of};

use crate::commands::Call;
use crate::leveling::{Way, bring_level};
use crate::parts::Parts;
use crate::performing::perform;
use line::Line;
use message_log::Log;
use pair::{AccountTexts, Buffers, Pair};
use rules::Answer;
use wire::{Refusal, Status, Unmade};

/// A pair, and all that its calls are lent.
#[derive(Drop)]
pub struct OwnedPair<G: Log, S: Log, U: Line, D: Line> {
    pub pair: Pair,
    pub hub_log: G,
    pub seat_log: S,
    /// The line from the seat to the hub.
    pub up: U,
    /// The line from the hub to the seat.
    pub down: D,
    pub buffers: Buffers,
}

impl<G: Log, S: Log, U: Line, D: Line> OwnedPair<G, S, U, D> {
    /// Sets a pair up of all its parts. Refuses as `Pair::set_up` does, and hands the parts back unchanged.
    pub fn set_up(
        parts: Parts<G, S, U, D>,
    ) -> Result<OwnedPair<G, S, U, D>, Unmade<Parts<G, S, U, D>>>
        ensures { MatchResult result
            (λ made. let after = meaning_of G.Log.view S.Log.view U.Line.view D.Line.view made in
            (set_up parts ≡ Ok after) × SetUp after)
            (λ unmade. (set_up parts ≡ Err unmade.refusal) × (unmade.given ≡ parts)) }
    {
        let Parts {
            mut hub_log,
            seat_log,
            up,
            down,
            accounts,
            seat,
            buffers,
        } = parts;
        let texts = AccountTexts {
            user: &seat.user,
            computer: &seat.computer,
            protocol: &seat.protocol,
        };
        match Pair::set_up(accounts, texts, &mut hub_log, &seat_log, &buffers) {
            Ok(pair) => Ok(OwnedPair {
                pair,
                hub_log,
                seat_log,
                up,
                down,
                buffers,
            }),
            Err(unmade) => Err(Unmade {
                refusal: unmade.refusal,
                given: Parts {
                    hub_log,
                    seat_log,
                    up,
                    down,
                    accounts: unmade.given,
                    seat,
                    buffers,
                },
            }),
        }
    }

    /// Performs a call: a step of the rules, after which the promises hold as before.
    pub fn perform(&mut self, call: Call<'_>) -> Answer
        ensures { let before = meaning_of G.Log.view S.Log.view U.Line.view D.Line.view self.old in
            let after = meaning_of G.Log.view S.Log.view U.Line.view D.Line.view self.new in
            Performs before (call_of call.entry) result after }
    {
        perform(
            &mut self.pair,
            call,
            &mut self.hub_log,
            &mut self.seat_log,
            &mut self.up,
            &mut self.down,
            &mut self.buffers,
        )
    }

    /// Brings the seat level with the hub, as the function `bring_level` does.
    pub fn bring_level(&mut self, way: Way) -> Result<Option<Status>, Refusal>
        ensures { let before = meaning_of G.Log.view S.Log.view U.Line.view D.Line.view self.old in
            let after = meaning_of G.Log.view S.Log.view U.Line.view D.Line.view self.new in
            BringsLevel (how_of way) before result after }
    {
        bring_level(
            &mut self.pair,
            way,
            &self.hub_log,
            &mut self.seat_log,
            &mut self.up,
            &mut self.down,
            &mut self.buffers,
        )
    }
}
