//! The calls of a hub on its connection that neither take from a line nor send what is due.
//! Those that may be refused judge everything before they change anything.
ghost use Rattle.std.specs.Prelude.{◌≡◌, ℕ, ◌≤◌, List, length};
ghost use Rattle.account.specs.declared.rows.Row.{Row};
ghost use Rattle.wire.specs.Limits.{packet_limit};
ghost use Rattle.line.specs.Lines.{LineView, cleared};
ghost use Rattle.message_log.specs.Meaning.{Meaning};
ghost use Rattle.framing.specs.Calling.{answered, unless_short};
ghost use Rattle.rules.specs.Changes.{unmarked};
ghost use Rattle.rules.specs.Calls.{cut, hub_timed};
ghost use Rattle.rules.specs.Sides.{hub_side_of};
ghost use Rattle.hub.specs.Ends.{cleared_in, side_of};
ghost use Rattle.hub.specs.Asks.{awaits, tells, times};

use crate::hubs::Hub;
use account::Accounts;
use framing::{SILENCE_LIMIT, has_room, one_more};
use line::Line;
use packet::Packet;
use rules::HubPhase;
use wire::{GoodByeReason, MESSAGE_LIMIT, PACKET_LIMIT, Refusal};

// A wait for a login that is longer than so many ticks ends the connection.
const WAITING_LIMIT: u16 = 300;

impl Hub {
    /// A seat connects: the down line is cleared, and the hub waits for a login, with frame and counts cleared. A login
    /// that was served is over.
    pub fn await_login<D: Line>(&mut self, accounts: &mut Accounts, down: &mut D)
        ensures { (log : Meaning) (up : LineView) (frame out : List ℕ) →
            let down_before = D.Line.view down.old in
            let down_after = D.Line.view down.new in
            let before = side_of self.old log up down_before accounts.old.rows frame out in
            let after = side_of self.new log (cleared up) down_after accounts.new.rows frame out in
            after ≡ awaits before }
    {
        down.clear();
        self.reset(HubPhase::Waiting, accounts);
    }

    /// Its connection is cut, and the lines are cleared: it is shut, with frame and counts cleared.
    pub fn cut(&mut self, accounts: &mut Accounts)
        ensures { (log : Meaning) (up down : LineView) (frame out : List ℕ) →
            let before = side_of self.old log up down accounts.old.rows frame out in
            let rows = accounts.new.rows in
            let after = side_of self.new log (cleared up) (cleared down) rows frame out in
            after ≡ hub_side_of (cut before) }
    {
        self.reset(HubPhase::Shut, accounts);
    }

    // Nobody is logged in any more, in this phase, and frame and counts are cleared.
    fn reset(&mut self, phase: HubPhase, accounts: &mut Accounts)
        ensures after { self.new ≡ cleared_in phase self.old }
        ensures rows { accounts.new.rows ≡ unmarked accounts.old.rows self.old.state.row }
    {
        self.state.leave(phase, accounts);
        self.filled = 0;
        self.unsent = 0;
        self.silent = 0;
        self.waited = 0;
    }

    /// Tells an unsequenced message. Refuses by `MessageTooLong`, `ShortBuffer`, `LineFull`, and where it does not
    /// serve by `WrongPhase`, in this order; a refusal changes nothing.
    pub fn tell<D: Line>(
        &mut self,
        message: &[u8],
        down: &mut D,
        out: &mut [u8],
    ) -> Result<(), Refusal>
        ensures { (log : Meaning) (up : LineView) (rows : List Row) (frame : List ℕ) →
            let before = side_of self.old log up (D.Line.view down.old) rows frame out.old in
            let after = side_of self.new log up (D.Line.view down.new) rows frame out.new in
            answered result after ≡ tells message.now before }
    {
        if message.len() > MESSAGE_LIMIT {
            return Err(Refusal::MessageTooLong);
        }
        if out.len() < PACKET_LIMIT {
            return Err(Refusal::ShortBuffer);
        }
        let packet = Packet::Unsequenced { message };
        if !has_room(packet, down) {
            return Err(Refusal::LineFull);
        }
        if !self.state.is_serving() {
            return Err(Refusal::WrongPhase);
        }
        self.write(packet, down, out)
    }

    /// A tick passes: the counts go up. A hub that serves ends a connection that was silent for too long, and one that
    /// waited too long for a login says goodbye. Refuses by `ShortBuffer`, with nothing changed.
    pub fn tick<D: Line>(
        &mut self,
        accounts: &mut Accounts,
        down: &mut D,
        out: &mut [u8],
    ) -> Result<(), Refusal>
        ensures { (log : Meaning) (up : LineView) (frame : List ℕ) →
            let down_before = D.Line.view down.old in
            let down_after = D.Line.view down.new in
            let before = side_of self.old log up down_before accounts.old.rows frame out.old in
            let after = side_of self.new log up down_after accounts.new.rows frame out.new in
            answered result after ≡ unless_short times before }
    {
        if out.len() < PACKET_LIMIT {
            return Err(Refusal::ShortBuffer);
        }
        self.unsent = one_more(self.unsent);
        self.silent = one_more(self.silent);
        self.waited = one_more(self.waited);
        self.time_out(accounts, down, out);
        Ok(())
    }

    // Ends a connection that was silent for too long, and a wait for a login that was too long.
    fn time_out<D: Line>(&mut self, accounts: &mut Accounts, down: &mut D, out: &mut [u8])
        requires { packet_limit ≤ length out.old }
        ensures { (log : Meaning) (up : LineView) (frame : List ℕ) →
            let down_before = D.Line.view down.old in
            let down_after = D.Line.view down.new in
            let before = side_of self.old log up down_before accounts.old.rows frame out.old in
            let after = side_of self.new log up down_after accounts.new.rows frame out.new in
            after ≡ hub_timed self.old.state.phase before }
    {
        match self.state.phase {
            HubPhase::Waiting if self.waited > WAITING_LIMIT => {
                self.dismiss(GoodByeReason::LoginTimeout, accounts, down, out);
            }
            HubPhase::Serving { .. } if self.silent > SILENCE_LIMIT => {
                self.state.leave(HubPhase::Shut, accounts);
            }
            _ => {}
        }
    }
}
