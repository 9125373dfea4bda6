//! Where a seat stands with its connection.
//! The phase, what its login asked for, and what it was told.
ghost use Rattle.std.specs.Prelude.{◌≡◌};
ghost use Rattle.rules.specs.State.{Pair};
ghost use Rattle.rules.specs.Calls.{asking, connect};
ghost use Rattle.rules.specs.Changes.{with_held};
ghost use Rattle.rules.specs.Seat.{is_apart, seat_letters};
ghost use Rattle.seat.specs.State.{apart, parted, with_state, with_requested};

use message_log::Log;
use rules::{How, SeatPhase};
use wire::{Letter, Refusal, Status};

/// Where a seat stands with its connection.
#[derive(Clone, Copy)]
pub(crate) struct SeatState {
    pub(crate) phase: SeatPhase,
    /// The session and the number that its login asked for.
    pub(crate) session: u8,
    pub(crate) number: u64,
    /// The end of a fetch, and whether it was requested. Two fields and no pair in the `Option`: the rules say of every
    /// seat whether it has requested, as they say of each what its login asked for, by 0 where it asked for nothing.
    pub(crate) fetch: Option<u64>,
    pub(crate) requested: bool,
    /// Whether it has reported itself in step since the connect.
    pub(crate) in_step: bool,
    /// The status that rejected its login.
    pub(crate) status: Option<Status>,
}

impl SeatState {
    /// Apart, with nothing asked for.
    pub(crate) fn new() -> SeatState
        ensures { result ≡ apart }
    {
        SeatState {
            phase: SeatPhase::Apart,
            session: 0,
            number: 0,
            fetch: None,
            requested: false,
            in_step: false,
            status: None,
        }
    }

    /// A new connection: it asks for what the way to connect asks for.
    pub(crate) fn asking<G: Log>(how: How, log: &G) -> SeatState
        ensures { (p : Pair) →
            let held = G.Log.view log.now in
            with_state result held p ≡ asking how (with_held p held) }
    {
        let (session, number, fetch) = match how {
            How::Join => (log.session(), log.count() as u64 + 1, None),
            How::Anew => (0, 1, None),
            How::Fetch(end) => (log.session(), 0, Some(end)),
        };
        SeatState {
            phase: SeatPhase::Asking,
            session,
            number,
            fetch,
            ..SeatState::new()
        }
    }

    /// Whether it has no connection.
    pub(crate) fn is_apart(&self) -> bool
        ensures { result ≡ is_apart self.now.phase }
    {
        matches!(self.phase, SeatPhase::Apart)
    }

    /// The letters that it takes in its phase.
    pub(crate) fn letters(&self) -> &'static [Letter]
        ensures { result.now ≡ seat_letters self.now.phase self.now.fetch }
    {
        match (self.phase, self.fetch) {
            (SeatPhase::Apart, _) => &[],
            (SeatPhase::Asking, _) => &ASKING,
            (SeatPhase::Live, None) => &LIVE,
            (SeatPhase::Live, Some(_)) => &LIVE_FETCH,
        }
    }

    /// It has no connection any more.
    pub(crate) fn part(&mut self)
        ensures { self.new ≡ parted self.old }
    {
        self.phase = SeatPhase::Apart;
    }

    /// Says whether its fetch is requested.
    pub(crate) fn set_requested(&mut self, requested: bool)
        ensures { self.new ≡ with_requested requested self.old }
    {
        self.requested = requested;
    }
}

/// Whether a seat with this log can connect so: a fetch needs a session, and an end above what is held.
pub(crate) fn may_connect<G: Log>(how: How, log: &G) -> Result<(), Refusal>
    ensures { (p : Pair) → (connect how (with_held p (G.Log.view log.now))).answer ≡ result }
{
    match how {
        How::Fetch(_) if log.session() == 0 => Err(Refusal::NoSession),
        How::Fetch(end) if end <= log.count() as u64 => Err(Refusal::NothingToFetch),
        _ => Ok(()),
    }
}

const ASKING: [Letter; 2] = [Letter::LoginResponse, Letter::GoodBye];

const LIVE: [Letter; 7] = [
    Letter::Sequenced,
    Letter::Unsequenced,
    Letter::GoodBye,
    Letter::EndOfSession,
    Letter::HubHeartbeat,
    Letter::Test,
    Letter::SynchronizationComplete,
];

// A fetch takes no synchronization complete.
const LIVE_FETCH: [Letter; 6] = [
    Letter::Sequenced,
    Letter::Unsequenced,
    Letter::GoodBye,
    Letter::EndOfSession,
    Letter::HubHeartbeat,
    Letter::Test,
];
