//! The seat's end of a connection.
//! What it holds from call to call; lines, log and buffers are lent.
ghost use Rattle.std.specs.Prelude.{◌≡◌, ℕ, List};
ghost use Rattle.rules.specs.Sides.{no_seat};
ghost use Rattle.seat.specs.Ends.{end_of};

use crate::state::SeatState;
use rules::SeatPhase;
use wire::Status;

/// A seat: where it stands with its connection, its frame and its counts.
#[derive(Clone, Copy)]
pub struct Seat {
    pub(crate) state: SeatState,
    /// How many bytes of a packet that is not whole yet stand at the front of its frame's buffer, which is lent anew at
    /// each call.
    pub(crate) filled: usize,
    /// Ticks since it wrote a packet, and since it took a byte.
    pub(crate) unsent: u16,
    pub(crate) silent: u16,
}

impl Seat {
    /// A seat with no connection.
    pub fn new() -> Seat
        ensures { (frame : List ℕ) → end_of result frame ≡ no_seat }
    {
        Seat {
            state: SeatState::new(),
            filled: 0,
            unsent: 0,
            silent: 0,
        }
    }

    /// Where it stands with its connection.
    pub fn phase(&self) -> SeatPhase
        ensures { (frame : List ℕ) → result ≡ (end_of self.now frame).phase }
    {
        self.state.phase
    }

    /// Whether it has reported itself in step since the connect: that it holds all that was published.
    pub fn in_step(&self) -> bool
        ensures { (frame : List ℕ) → result ≡ (end_of self.now frame).in_step }
    {
        self.state.in_step
    }

    /// The status that rejected its login, if one did.
    pub fn status(&self) -> Option<Status>
        ensures { (frame : List ℕ) → result ≡ (end_of self.now frame).status }
    {
        self.state.status
    }
}
