//! Where a hub stands with its connection.
//! The phase, and the row that is marked for it.
ghost use Rattle.std.specs.Prelude.{◌≡◌};
ghost use Rattle.message_log.specs.Meaning.{Meaning};
ghost use Rattle.rules.specs.State.{Pair};
ghost use Rattle.rules.specs.Changes.{unmarked};
ghost use Rattle.rules.specs.Calls.{busy, is_serving};
ghost use Rattle.rules.specs.Hub.{hub_letters, is_shut, listens};
ghost use Rattle.hub.specs.State.{shut, left_in, with_state, enters};

use account::Accounts;
use rules::HubPhase;
use wire::Letter;

/// Where a hub stands with its connection.
#[derive(Clone, Copy)]
pub(crate) struct HubState {
    pub(crate) phase: HubPhase,
    /// The row of the account that is logged in.
    pub(crate) row: Option<usize>,
}

impl HubState {
    /// Shut, with nobody logged in.
    pub(crate) fn new() -> HubState
        ensures { result ≡ shut }
    {
        HubState {
            phase: HubPhase::Shut,
            row: None,
        }
    }

    /// Whether it has no connection.
    pub(crate) fn is_shut(&self) -> bool
        ensures { result ≡ is_shut self.now.phase }
    {
        matches!(self.phase, HubPhase::Shut)
    }

    /// Whether it takes from its line in its phase.
    pub(crate) fn listens(&self) -> bool
        ensures { result ≡ listens self.now.phase }
    {
        match self.phase {
            HubPhase::Waiting | HubPhase::Serving { .. } | HubPhase::Filling { .. } => true,
            HubPhase::Shut | HubPhase::Answering { .. } | HubPhase::Rejecting { .. } => false,
        }
    }

    /// Whether it is bound to the session of its login.
    pub(crate) fn is_busy(&self) -> bool
        ensures { result ≡ busy self.now.phase }
    {
        match self.phase {
            HubPhase::Answering { .. } | HubPhase::Serving { .. } | HubPhase::Filling { .. } =>
                true,
            HubPhase::Shut | HubPhase::Waiting | HubPhase::Rejecting { .. } => false,
        }
    }

    /// Whether it serves a login.
    pub(crate) fn is_serving(&self) -> bool
        ensures { result ≡ is_serving self.now.phase }
    {
        matches!(self.phase, HubPhase::Serving { .. })
    }

    /// The letters that it takes in its phase.
    pub(crate) fn letters(&self) -> &'static [Letter]
        ensures { result.now ≡ hub_letters self.now.phase }
    {
        match self.phase {
            HubPhase::Shut | HubPhase::Answering { .. } | HubPhase::Rejecting { .. } => &[],
            HubPhase::Waiting => &WAITING,
            HubPhase::Serving { asked: 0, .. } => &SERVING_FETCH,
            HubPhase::Serving { .. } | HubPhase::Filling { .. } => &SERVING,
        }
    }

    /// Enters a phase. Where it is shut or waits for a login nobody is logged in.
    pub(crate) fn enter(&mut self, phase: HubPhase, accounts: &mut Accounts)
        ensures { (log : Meaning) (p : Pair) →
            let before = with_state self.old log accounts.old.rows p in
            let after = with_state self.new log accounts.new.rows p in
            after ≡ enters phase before }
    {
        match phase {
            HubPhase::Shut | HubPhase::Waiting => self.leave(phase, accounts),
            HubPhase::Answering { .. }
            | HubPhase::Rejecting { .. }
            | HubPhase::Serving { .. }
            | HubPhase::Filling { .. } => self.phase = phase,
        }
    }

    /// Nobody is logged in any more, in this phase: the mark of a row goes.
    pub(crate) fn leave(&mut self, phase: HubPhase, accounts: &mut Accounts)
        ensures after { self.new ≡ left_in phase }
        ensures rows { accounts.new.rows ≡ unmarked accounts.old.rows self.old.row }
    {
        if let Some(row) = self.row {
            accounts.unmark(row);
        }
        self.row = None;
        self.phase = phase;
    }
}

const WAITING: [Letter; 1] = [Letter::LoginRequest];

const SERVING: [Letter; 4] = [
    Letter::Unsequenced,
    Letter::LogoutRequest,
    Letter::SeatHeartbeat,
    Letter::Test,
];

// The login asked for no message, so a retransmission may be requested.
const SERVING_FETCH: [Letter; 5] = [
    Letter::Unsequenced,
    Letter::LogoutRequest,
    Letter::SeatHeartbeat,
    Letter::Test,
    Letter::RetransmissionRequest,
];
