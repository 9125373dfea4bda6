//! What the hub writes.
//! What is due is decided first, and written then.
ghost use Rattle.std.specs.Prelude.{◌≡◌, ℕ, ◌≤◌, true, List, [], length};
ghost use Rattle.account.specs.declared.rows.Row.{Row};
ghost use Rattle.wire.specs.Limits.{packet_limit};
ghost use Rattle.line.specs.Lines.{LineView};
ghost use Rattle.message_log.specs.Meaning.{Meaning, nth};
ghost use Rattle.message_log.specs.Calls.{has};
ghost use Rattle.packet.specs.Meanings.{value_of};
ghost use Rattle.packet.specs.Values.{Valid, good_bye, sequenced};
ghost use Rattle.framing.specs.Posting.{roomy};
ghost use Rattle.framing.specs.Calling.{answered, unless_short};
ghost use Rattle.rules.specs.Changes.{hub_tells};
ghost use Rattle.rules.specs.Hub.{hub_gone};
ghost use Rattle.hub.specs.Ends.{side_of};
ghost use Rattle.hub.specs.Sends.{sends};

use crate::dues::Due;
use crate::hubs::Hub;
use account::Accounts;
use framing::{post, post_message};
use line::Line;
use message_log::Log;
use packet::Packet;
use rules::HubPhase;
use wire::{GoodByeReason, Letter, PACKET_LIMIT, Refusal};

impl Hub {
    /// Writes what is due, one packet at most, and answers its letter. Refuses by `ShortBuffer`, by `WrongPhase` where
    /// it is shut, and by `LineFull`; a refusal changes nothing.
    pub fn send<G: Log, D: Line>(
        &mut self,
        log: &G,
        accounts: &mut Accounts,
        down: &mut D,
        out: &mut [u8],
    ) -> Result<Option<Letter>, Refusal>
        ensures { (up : LineView) (frame : List ℕ) →
            let held = G.Log.view log.now in
            let down_before = D.Line.view down.old in
            let down_after = D.Line.view down.new in
            let before = side_of self.old held up down_before accounts.old.rows frame out.old in
            let after = side_of self.new held up down_after accounts.new.rows frame out.new in
            answered result after ≡ unless_short sends before }
    {
        if out.len() < PACKET_LIMIT {
            return Err(Refusal::ShortBuffer);
        }
        if self.state.is_shut() {
            return Err(Refusal::WrongPhase);
        }
        match self.state.due(self.unsent, self.finished, log) {
            Due::Nothing => Ok(None),
            Due::Shut => {
                self.state.leave(HubPhase::Shut, accounts);
                Ok(None)
            }
            Due::Message { number, then } => {
                self.write_message(number, log, down, out)?;
                self.state.enter(then, accounts);
                Ok(Some(Letter::Sequenced))
            }
            Due::Packet { packet, then } => {
                self.write(packet, down, out)?;
                self.state.enter(then, accounts);
                Ok(Some(packet.letter()))
            }
        }
    }

    // Writes a packet, if the line has the room for it.
    pub(crate) fn write<D: Line>(
        &mut self,
        packet: Packet<'_>,
        down: &mut D,
        out: &mut [u8],
    ) -> Result<(), Refusal>
        requires valid { Valid (value_of packet) }
        requires long { packet_limit ≤ length out.old }
        ensures answer { result ≡ roomy (value_of packet.entry) (D.Line.view down.old) }
        ensures after { (log : Meaning) (up : LineView) (rows : List Row) (frame : List ℕ) →
            let before = side_of self.old log up (D.Line.view down.old) rows frame out.old in
            let after = side_of self.new log up (D.Line.view down.new) rows frame out.new in
            after ≡ hub_tells (value_of packet.entry) before }
    {
        post(packet, down, out)?;
        self.unsent = 0;
        Ok(())
    }

    // Writes a message that the log holds, if the line has the room for it.
    fn write_message<G: Log, D: Line>(
        &mut self,
        number: u64,
        log: &G,
        down: &mut D,
        out: &mut [u8],
    ) -> Result<(), Refusal>
        requires there { has (G.Log.view log.now) number ≡ true }
        requires long { packet_limit ≤ length out.old }
        ensures answer { let packet = sequenced number (nth (G.Log.view log.now) number) in
            result ≡ roomy packet (D.Line.view down.old) }
        ensures after { (up : LineView) (rows : List Row) (frame : List ℕ) →
            let held = G.Log.view log.now in
            let before = side_of self.old held up (D.Line.view down.old) rows frame out.old in
            let after = side_of self.new held up (D.Line.view down.new) rows frame out.new in
            after ≡ hub_tells (sequenced number (nth held number)) before }
    {
        post_message(number, log, down, out)?;
        self.unsent = 0;
        Ok(())
    }

    // Says goodbye, if the line has the room for it, and is shut.
    pub(crate) fn dismiss<D: Line>(
        &mut self,
        reason: GoodByeReason,
        accounts: &mut Accounts,
        down: &mut D,
        out: &mut [u8],
    )
        requires { packet_limit ≤ length out.old }
        ensures { (log : Meaning) (up : LineView) (frame : List ℕ) →
            let down_before = D.Line.view down.old in
            let down_after = D.Line.view down.new in
            let before = side_of self.old log up down_before accounts.old.rows frame out.old in
            let after = side_of self.new log up down_after accounts.new.rows frame out.new in
            after ≡ hub_gone reason before }
    {
        let _ = self.write(good_bye(reason), down, out);
        self.state.leave(HubPhase::Shut, accounts);
    }
}

// A goodbye with no text.
fn good_bye(reason: GoodByeReason) -> Packet<'static>
    ensures { value_of result ≡ good_bye reason [] }
{
    Packet::GoodBye { reason, text: &[] }
}
