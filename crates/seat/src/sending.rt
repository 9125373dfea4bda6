//! What the seat writes.
//! What is due is decided first, and written then.
ghost use Rattle.std.specs.Prelude.{◌≡◌, ℕ, ◌≤◌, List, [], length};
ghost use Rattle.wire.specs.Limits.{packet_limit};
ghost use Rattle.line.specs.Lines.{LineView};
ghost use Rattle.message_log.specs.Meaning.{Meaning};
ghost use Rattle.packet.specs.Meanings.{value_of};
ghost use Rattle.packet.specs.Values.{Valid, logout_request};
ghost use Rattle.framing.specs.Posting.{roomy};
ghost use Rattle.framing.specs.Calling.{answered, unless_short};
ghost use Rattle.rules.specs.State.{Account};
ghost use Rattle.rules.specs.Changes.{seat_tells};
ghost use Rattle.rules.specs.Seat.{seat_gone, seat_sends};
ghost use Rattle.seat.specs.Ends.{side_of};

use crate::seats::Seat;
use framing::post;
use line::Line;
use message_log::Log;
use packet::Packet;
use wire::{Letter, LogoutReason, PACKET_LIMIT, Refusal};

impl Seat {
    /// Writes what is due, if anything is: a heartbeat, or in a fetch the request, once; and answers its letter.
    /// Refuses by `ShortBuffer`, by `WrongPhase` where there is no connection, and by `LineFull`; a refusal changes
    /// nothing.
    pub fn send<G: Log, U: Line>(
        &mut self,
        log: &G,
        up: &mut U,
        out: &mut [u8],
    ) -> Result<Option<Letter>, Refusal>
        ensures { (down : LineView) (account : Account) (frame : List ℕ) →
            let held = G.Log.view log.now in
            let before = side_of self.old held (U.Line.view up.old) down account frame out.old in
            let after = side_of self.new held (U.Line.view up.new) down account frame out.new in
            answered result after ≡ unless_short seat_sends before }
    {
        if out.len() < PACKET_LIMIT {
            return Err(Refusal::ShortBuffer);
        }
        if self.state.is_apart() {
            return Err(Refusal::WrongPhase);
        }
        let Some(due) = self.state.due(self.unsent, log) else {
            return Ok(None);
        };
        self.write(due.packet, up, out)?;
        self.state.set_requested(due.requested);
        Ok(Some(due.packet.letter()))
    }

    // Writes a packet, if the line has the room for it. Whoever calls it has refused a shorter buffer; the buffer is lent
    // to each call apart, so no type has that it is long enough.
    pub(crate) fn write<U: Line>(
        &mut self,
        packet: Packet<'_>,
        up: &mut U,
        out: &mut [u8],
    ) -> Result<(), Refusal>
        requires valid { Valid (value_of packet) }
        requires long { packet_limit ≤ length out.old }
        ensures answer { result ≡ roomy (value_of packet.entry) (U.Line.view up.old) }
        ensures after { (log : Meaning) (down : LineView) (account : Account) (frame : List ℕ) →
            let before = side_of self.old log (U.Line.view up.old) down account frame out.old in
            let after = side_of self.new log (U.Line.view up.new) down account frame out.new in
            after ≡ seat_tells (value_of packet.entry) before }
    {
        post(packet, up, out)?;
        self.unsent = 0;
        Ok(())
    }

    // Says why it leaves, if the line has the room for it, and is apart.
    pub(crate) fn part<U: Line>(&mut self, reason: LogoutReason, up: &mut U, out: &mut [u8])
        requires { packet_limit ≤ length out.old }
        ensures { (log : Meaning) (down : LineView) (account : Account) (frame : List ℕ) →
            let before = side_of self.old log (U.Line.view up.old) down account frame out.old in
            let after = side_of self.new log (U.Line.view up.new) down account frame out.new in
            after ≡ seat_gone reason before }
    {
        let _ = self.write(logout(reason), up, out);
        self.state.part();
    }
}

// A logout request with no text.
pub(crate) fn logout(reason: LogoutReason) -> Packet<'static>
    ensures { value_of result ≡ logout_request reason [] }
{
    Packet::LogoutRequest { reason, text: &[] }
}
