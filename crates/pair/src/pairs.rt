//! The two ends, with what both know.
ghost use Rattle.std.specs.Prelude.{◌≡◌};
ghost use Rattle.line.specs.Lines.{LineView};
ghost use Rattle.message_log.specs.Meaning.{Meaning};
ghost use Rattle.rules.specs.State as State;
ghost use Rattle.pair.specs.Meanings.{pair_of};

use account::{Account, Accounts};
use hub::Hub;
use rules::{HubPhase, SeatPhase};
use seat::Seat;
use wire::Status;

/// A hub and a seat, the account table of the hub, and the account by which the seat logs in.
#[derive(Drop)]
pub struct Pair {
    pub(crate) hub: Hub,
    pub(crate) seat: Seat,
    pub(crate) accounts: Accounts,
    pub(crate) account: Account,
}

impl Pair {
    /// Where the hub stands with its connection.
    pub fn hub_phase(&self) -> HubPhase
        ensures { (hub_log seat_log : Meaning) (up down : LineView) (lent : State.Buffers) →
            result ≡ (pair_of self.now hub_log seat_log up down lent).hub.phase }
    {
        self.hub.phase()
    }

    /// Where the seat stands with its connection.
    pub fn seat_phase(&self) -> SeatPhase
        ensures { (hub_log seat_log : Meaning) (up down : LineView) (lent : State.Buffers) →
            result ≡ (pair_of self.now hub_log seat_log up down lent).seat.phase }
    {
        self.seat.phase()
    }

    /// Whether publishing is finished in the session of the hub's log.
    pub fn is_finished(&self) -> bool
        ensures { (hub_log seat_log : Meaning) (up down : LineView) (lent : State.Buffers) →
            result ≡ (pair_of self.now hub_log seat_log up down lent).running.finished }
    {
        self.hub.is_finished()
    }

    /// Whether the seat has reported itself in step since the connect: that it holds all that was published.
    pub fn in_step(&self) -> bool
        ensures { (hub_log seat_log : Meaning) (up down : LineView) (lent : State.Buffers) →
            result ≡ (pair_of self.now hub_log seat_log up down lent).seat.in_step }
    {
        self.seat.in_step()
    }

    /// The status that rejected the seat's login, if one did.
    pub fn status(&self) -> Option<Status>
        ensures { (hub_log seat_log : Meaning) (up down : LineView) (lent : State.Buffers) →
            result ≡ (pair_of self.now hub_log seat_log up down lent).seat.status }
    {
        self.seat.status()
    }

    /// The account table of the hub.
    pub fn accounts(&self) -> &Accounts
        ensures { (hub_log seat_log : Meaning) (up down : LineView) (lent : State.Buffers) →
            result.now.rows ≡ (pair_of self.now hub_log seat_log up down lent).rows }
    {
        &self.accounts
    }
}
