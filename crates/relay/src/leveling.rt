//! Bringing a seat level with the hub.
ghost use Rattle.std.specs.Prelude.{◌≡◌, ◌+◌, ◌-◌, false, Ok};
ghost use Rattle.message_log.specs.Meaning.{count};
ghost use Rattle.rules.specs.Calls.{asked_number};
ghost use Rattle.rules.specs.Rounds.{Step};
ghost use Rattle.promises.specs.Runs.{GrantedRounds};
ghost use Rattle.pair.specs.Lent.{any_short};
ghost use Rattle.pair.specs.Meanings.{pair_of};
ghost use Rattle.relay.specs.Levels.{how_of, answered_by, BringsLevel};

use line::Line;
use message_log::Log;
use pair::{Buffers, Pair};
use rules::{How, SeatPhase};
use wire::{Refusal, Status};

/// How a seat connects that is to be brought level.
#[derive(Clone, Copy)]
pub enum Way {
    /// It goes on in the session of its log, from the message after those that it holds.
    Join,
    /// It takes the session that is running, from the first message.
    Anew,
}

impl Way {
    /// The way to connect.
    pub fn how(self) -> How
        ensures { result ≡ how_of self }
    {
        match self {
            Way::Join => How::Join,
            Way::Anew => How::Anew,
        }
    }

    // How many rounds it takes: two more than the hub holds, less the number that the login asks for.
    pub(crate) fn rounds<G: Log, S: Log>(self, hub_log: &G, seat_log: &S) -> usize
        ensures { let asked = asked_number (how_of self) (S.Log.view seat_log.now) in
            result ≡ count (G.Log.view hub_log.now) + 2 - asked }
    {
        let asked = match self {
            Way::Join => seat_log.count() + 1,
            Way::Anew => 1,
        };
        (hub_log.count() + 2).saturating_sub(asked)
    }
}

/// Brings a seat level with the hub: connects by join or anew, and goes as many rounds as that takes. If the login is
/// accepted and the seat's log has room and places for what it lacks, it is the hub's then. It answers what the hub
/// answered the login, or `None` if the hub has not: the lines had no room for the login or its answer, or the seat's
/// log holds so many messages that no round was made. Refuses by `ShortBuffer`, with nothing changed.
pub fn bring_level<G: Log, S: Log, U: Line, D: Line>(
    pair: &mut Pair,
    way: Way,
    hub_log: &G,
    seat_log: &mut S,
    up: &mut U,
    down: &mut D,
    buffers: &mut Buffers,
) -> Result<Option<Status>, Refusal>
    ensures { let log = G.Log.view hub_log.now in
        let before = pair_of pair.old log (S.Log.view seat_log.old)
        (U.Line.view up.old) (D.Line.view down.old) buffers.old in
        let after = pair_of pair.new log (S.Log.view seat_log.new)
        (U.Line.view up.new) (D.Line.view down.new) buffers.new in
        BringsLevel (how_of way) before result after }
{
    if buffers.is_short() {
        return Err(Refusal::ShortBuffer);
    }
    let rounds = way.rounds(hub_log, seat_log);
    pair.connect(way.how(), seat_log, up, down, buffers)?;
    go_rounds(pair, rounds, hub_log, seat_log, up, down, buffers)?;
    Ok(login_answer(pair.seat_phase(), pair.status()))
}

// What the hub answered a login, of a seat in this phase that was rejected by this status. A seat that was not, and no
// longer asks, was accepted.
pub(crate) fn login_answer(phase: SeatPhase, rejected: Option<Status>) -> Option<Status>
    ensures { result ≡ answered_by phase rejected }
{
    match (rejected, phase) {
        (Some(status), _) => Some(status),
        (None, SeatPhase::Asking) => None,
        (None, SeatPhase::Apart | SeatPhase::Live) => Some(Status::Accepted),
    }
}

// Goes so many rounds.
fn go_rounds<G: Log, S: Log, U: Line, D: Line>(
    pair: &mut Pair,
    rounds: usize,
    hub_log: &G,
    seat_log: &mut S,
    up: &mut U,
    down: &mut D,
    buffers: &mut Buffers,
) -> Result<(), Refusal>
    requires { any_short buffers.old ≡ false }
    ensures granted { result ≡ Ok tt }
    ensures rounds { let log = G.Log.view hub_log.now in
        let before = pair_of pair.old log (S.Log.view seat_log.old)
        (U.Line.view up.old) (D.Line.view down.old) buffers.old in
        let after = pair_of pair.new log (S.Log.view seat_log.new)
        (U.Line.view up.new) (D.Line.view down.new) buffers.new in
        GrantedRounds Step rounds before after }
{
    for _ in 0..rounds {
        pair.round(hub_log, seat_log, up, down, buffers)?;
    }
    Ok(())
}
