//! The hub's end of a connection.
//! What it holds from call to call; log, table, lines and buffers are lent.
ghost use Rattle.std.specs.Prelude.{◌≡◌, ℕ, List};
ghost use Rattle.account.specs.declared.rows.Row.{Row};
ghost use Rattle.line.specs.Lines.{LineView};
ghost use Rattle.message_log.specs.Meaning.{Meaning};
ghost use Rattle.rules.specs.Sides.{hub_side, no_hub};
ghost use Rattle.hub.specs.Ends.{end_of, running_of, side_of, unfinished};

use crate::state::HubState;
use rules::HubPhase;

/// A hub: where it stands with its connection, whether its session is finished, its frame and its counts.
#[derive(Clone, Copy)]
pub struct Hub {
    pub(crate) state: HubState,
    /// Whether publishing is finished in the session of its log.
    pub(crate) finished: bool,
    /// How many bytes of a packet that is not whole yet stand at the front of its frame's buffer, which is lent anew at
    /// each call.
    pub(crate) filled: usize,
    /// Ticks since it wrote a packet, since it took a byte, and since the connect.
    pub(crate) unsent: u16,
    pub(crate) silent: u16,
    pub(crate) waited: u16,
}

impl Hub {
    /// A hub with no connection, whose session is not finished.
    pub fn new() -> Hub
        ensures { (log : Meaning) (up down : LineView) (rows : List Row) (frame out : List ℕ) →
            let made = side_of result log up down rows frame out in
            made ≡ hub_side (unfinished log) no_hub up down rows frame out }
    {
        Hub {
            state: HubState::new(),
            finished: false,
            filled: 0,
            unsent: 0,
            silent: 0,
            waited: 0,
        }
    }

    /// Where it stands with its connection.
    pub fn phase(&self) -> HubPhase
        ensures { (frame : List ℕ) → result ≡ (end_of self.now frame).phase }
    {
        self.state.phase
    }

    /// Whether publishing is finished in the session of its log.
    pub fn is_finished(&self) -> bool
        ensures { (log : Meaning) → result ≡ (running_of self.now log).finished }
    {
        self.finished
    }
}
