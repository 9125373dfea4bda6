//! The calls of a seat that neither take from a line nor send what is due.
//! Those that may be refused judge everything before they change anything.
ghost use Rattle.std.specs.Prelude.{◌≡◌, ℕ, List};
ghost use Rattle.line.specs.Lines.{LineView, cleared};
ghost use Rattle.message_log.specs.Meaning.{Meaning};
ghost use Rattle.rules.specs.State.{Account as Fields};
ghost use Rattle.rules.specs.Calls.{cut, leave, counted, seat_timed};
ghost use Rattle.rules.specs.Sides.{seat_side_of};
ghost use Rattle.framing.specs.Calling.{answered, unless_short};
ghost use Rattle.seat.specs.Ends.{side_of};
ghost use Rattle.seat.specs.Asks.{asks, says};

use crate::seats::Seat;
use crate::sending::logout;
use crate::state::{SeatState, may_connect};
use account::{Account, SPOKEN_VERSION};
use framing::{SILENCE_LIMIT, has_room, one_more};
use line::Line;
use message_log::Log;
use packet::{Login, Packet};
use rules::{How, SeatPhase};
use wire::{LogoutReason, MESSAGE_LIMIT, PACKET_LIMIT, Refusal};

impl Seat {
    /// Connects, once the down line is cleared: it clears the up line, is new but for its log, and writes its login
    /// request. Refuses by `ShortBuffer`, and then as `may_connect` does; a refusal changes nothing.
    pub fn ask<G: Log, U: Line>(
        &mut self,
        how: How,
        account: &Account,
        log: &G,
        up: &mut U,
        out: &mut [u8],
    ) -> Result<(), Refusal>
        ensures { (down : LineView) (frame : List ℕ) →
            let held = G.Log.view log.now in
            let up_before = U.Line.view up.old in
            let up_after = U.Line.view up.new in
            let before = side_of self.old held up_before (cleared down) account.now frame out.old in
            let after = side_of self.new held up_after (cleared down) account.now frame out.new in
            answered result after ≡ unless_short (asks how) before }
    {
        if out.len() < PACKET_LIMIT {
            return Err(Refusal::ShortBuffer);
        }
        may_connect(how, log)?;
        up.clear();
        *self = Seat {
            state: SeatState::asking(how, log),
            filled: 0,
            unsent: 0,
            silent: 0,
        };
        // Field by field, as the contract says it; a function for this would have to say it once more.
        let login = Login {
            version: &SPOKEN_VERSION,
            user: &account.user,
            computer: &account.computer,
            protocol: &account.protocol,
            session: self.state.session,
            number: self.state.number,
        };
        self.write(Packet::LoginRequest(login), up, out)
    }

    /// Says an unsequenced message. Refuses by `MessageTooLong`, `ShortBuffer`, `LineFull`, and where it is not live by
    /// `WrongPhase`, in this order; a refusal changes nothing.
    pub fn say<U: Line>(
        &mut self,
        message: &[u8],
        up: &mut U,
        out: &mut [u8],
    ) -> Result<(), Refusal>
        ensures { (log : Meaning) (down : LineView) (account : Fields) (frame : List ℕ) →
            let before = side_of self.old log (U.Line.view up.old) down account frame out.old in
            let after = side_of self.new log (U.Line.view up.new) down account frame out.new in
            answered result after ≡ says message.now before }
    {
        if message.len() > MESSAGE_LIMIT {
            return Err(Refusal::MessageTooLong);
        }
        if out.len() < PACKET_LIMIT {
            return Err(Refusal::ShortBuffer);
        }
        let packet = Packet::Unsequenced { message };
        if !has_room(packet, up) {
            return Err(Refusal::LineFull);
        }
        match self.state.phase {
            SeatPhase::Live => self.write(packet, up, out),
            SeatPhase::Apart | SeatPhase::Asking => Err(Refusal::WrongPhase),
        }
    }

    /// Leaves: says that it is done, and is apart. Refuses by `ShortBuffer`, `LineFull`, and where it is apart
    /// already by `WrongPhase`, in this order; a refusal changes nothing.
    pub fn leave<U: Line>(&mut self, up: &mut U, out: &mut [u8]) -> Result<(), Refusal>
        ensures { (log : Meaning) (down : LineView) (account : Fields) (frame : List ℕ) →
            let before = side_of self.old log (U.Line.view up.old) down account frame out.old in
            let after = side_of self.new log (U.Line.view up.new) down account frame out.new in
            answered result after ≡ unless_short leave before }
    {
        if out.len() < PACKET_LIMIT {
            return Err(Refusal::ShortBuffer);
        }
        if !has_room(logout(LogoutReason::Done), up) {
            return Err(Refusal::LineFull);
        }
        if self.state.is_apart() {
            return Err(Refusal::WrongPhase);
        }
        self.part(LogoutReason::Done, up, out);
        Ok(())
    }

    /// Its connection is cut, and the lines are cleared: it is apart, with frame and counts cleared.
    pub fn cut(&mut self)
        ensures { (log : Meaning) (up down : LineView) (account : Fields) (frame out : List ℕ) →
            let before = side_of self.old log up down account frame out in
            let after = side_of self.new log (cleared up) (cleared down) account frame out in
            after ≡ seat_side_of (cut before) }
    {
        self.state.part();
        self.filled = 0;
        self.unsent = 0;
        self.silent = 0;
    }

    /// A tick passes: the counts go up, and a connection that was silent for too long ends.
    pub fn tick(&mut self)
        ensures { (log : Meaning) (up down : LineView) (account : Fields) (frame out : List ℕ) →
            let before = side_of self.old log up down account frame out in
            let after = side_of self.new log up down account frame out in
            after ≡ seat_side_of (seat_timed (counted before)) }
    {
        self.unsent = one_more(self.unsent);
        self.silent = one_more(self.silent);
        if self.silent > SILENCE_LIMIT {
            self.state.part();
        }
    }
}
