//! What the seat hears.
//! One take, of no more bytes than the frame lacks; a packet that is whole then is acted on.
ghost use Rattle.std.specs.Prelude.{◌≡◌, ℕ, ◌≤◌, List, length, take};
ghost use Rattle.wire.specs.Limits.{packet_limit};
ghost use Rattle.packet.specs.Meanings.{answer_of};
ghost use Rattle.line.specs.Lines.{LineView};
ghost use Rattle.rules.specs.State.{Account};
ghost use Rattle.rules.specs.Frames.{lack, judged, Free};
ghost use Rattle.rules.specs.Seat.{seat_letters};
ghost use Rattle.framing.specs.Calling.{Fewer};
ghost use Rattle.seat.specs.Ends.{side_of};
ghost use Rattle.seat.specs.Acts.{closing, reason_for};
ghost use Rattle.seat.specs.Receives.{Receives, hears};

use crate::seats::Seat;
use framing::{fill, is_part, judge};
use line::Line;
use message_log::Log;
use packet::Packet;
use rules::Received;
use wire::{Fault, LogFault, LogoutReason, PACKET_LIMIT, PacketFault, Refusal};

impl Seat {
    /// Takes once from the down line, and acts on the packet if that makes one whole. Refuses by `ShortBuffer` and,
    /// where there is no connection, by `WrongPhase`, with nothing changed. A bad packet, and a log that refuses the
    /// next message, end the connection: the hub is told so if the up line has the room.
    #[inline(always)]
    pub fn receive<G: Log, U: Line, D: Line>(
        &mut self,
        log: &mut G,
        up: &mut U,
        down: &mut D,
        frame: &mut [u8],
        out: &mut [u8],
    ) -> Result<Received, Refusal>
        ensures { (account : Account) →
            let held_before = G.Log.view log.old in
            let held_after = G.Log.view log.new in
            let before = side_of self.old held_before (U.Line.view up.old) (D.Line.view down.old)
            account frame.old out.old in
            let after = side_of self.new held_after (U.Line.view up.new) (D.Line.view down.new)
            account frame.new out.new in
            Receives before result after }
    {
        if frame.len() < PACKET_LIMIT {
            return Err(Refusal::ShortBuffer);
        }
        if out.len() < PACKET_LIMIT {
            return Err(Refusal::ShortBuffer);
        }
        if self.state.is_apart() {
            return Err(Refusal::WrongPhase);
        }
        // No `?`: a fault ends the connection here.
        match self.hear(log, down, frame) {
            Ok(received) => Ok(received),
            Err(fault) => {
                self.part(parting_reason(fault), up, out);
                Err(fault.into())
            }
        }
    }

    // Takes once, and acts on a packet that is whole. After a fault the frame is empty.
    #[tactic(auto, using(framing::proofs::Fills::fill_free, framing::proofs::Fills::fewer_after, crate::proofs::Frames::hears_none))]
    #[inline(always)]
    fn hear<G: Log, D: Line>(
        &mut self,
        log: &mut G,
        down: &mut D,
        frame: &mut [u8],
    ) -> Result<Received, Fault>
        requires { packet_limit ≤ length frame.old }
        ensures outcome { (up : LineView) (account : Account) (out : List ℕ) →
            let held_before = G.Log.view log.old in
            let held_after = G.Log.view log.new in
            let down_before = D.Line.view down.old in
            let down_after = D.Line.view down.new in
            let before = side_of self.old held_before up down_before account frame.old out in
            let after = side_of self.new held_after up down_after account frame.new out in
            closing result after ≡ hears before down_after.room }
        ensures free { let lacking = lack (take self.old.filled frame.old) in
            Free (D.Line.view down.old) lacking (D.Line.view down.new).room }
        ensures fewer { Fewer result (D.Line.view down.old) (D.Line.view down.new) }
    {
        let count = fill(down, frame, self.filled);
        if count == 0 {
            return Ok(Received::Nothing);
        }
        let filled = self.filled + count;
        self.filled = 0;
        self.silent = 0;
        match self.judge(&frame[0..filled])? {
            None => {
                self.filled = filled;
                Ok(Received::Part)
            }
            Some(packet) => self.state.act(packet, log),
        }
    }

    // What it says of its frame. Most takes leave a part, and no packet is read then.
    #[inline(always)]
    fn judge<'a>(&self, bytes: &'a [u8]) -> Result<Option<Packet<'a>>, PacketFault>
        ensures { let letters = seat_letters self.now.state.phase self.now.state.fetch in
            answer_of result ≡ judged letters bytes.now }
    {
        if is_part(bytes) {
            return Ok(None);
        }
        judge(bytes, self.state.letters())
    }
}

// Why a seat leaves that met this fault.
fn parting_reason(fault: Fault) -> LogoutReason
    ensures { result ≡ reason_for fault }
{
    match fault {
        Fault::Packet(_) => LogoutReason::BadPacket,
        Fault::Log(LogFault::Full) => LogoutReason::Terminating,
    }
}
