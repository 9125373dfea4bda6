//! What the hub hears.
//! One take, of no more bytes than the frame lacks; a packet that is whole then is acted on.
ghost use Rattle.std.specs.Prelude.{◌≡◌, ℕ, ◌≤◌, List, length, take};
ghost use Rattle.wire.specs.Limits.{packet_limit};
ghost use Rattle.line.specs.Lines.{LineView};
ghost use Rattle.rules.specs.Frames.{lack, judged, Free};
ghost use Rattle.rules.specs.Hub.{hub_letters};
ghost use Rattle.packet.specs.Meanings.{answer_of};
ghost use Rattle.framing.specs.Calling.{Fewer};
ghost use Rattle.hub.specs.Acts.{closing};
ghost use Rattle.hub.specs.Ends.{side_of};
ghost use Rattle.hub.specs.Receives.{Receives, hears};

use crate::hubs::Hub;
use account::Accounts;
use framing::{fill, is_part, judge};
use line::Line;
use message_log::Log;
use packet::Packet;
use rules::Received;
use wire::{GoodByeReason, PACKET_LIMIT, PacketFault, Refusal};

impl Hub {
    /// Takes once from the up line, and acts on the packet if that makes one whole. Refuses by `ShortBuffer` and,
    /// where it does not listen, by `WrongPhase`, with nothing changed. A bad packet ends the connection: the seat is
    /// told so if the down line has the room.
    #[inline(always)]
    pub fn receive<G: Log, U: Line, D: Line>(
        &mut self,
        log: &G,
        accounts: &mut Accounts,
        up: &mut U,
        down: &mut D,
        frame: &mut [u8],
        out: &mut [u8],
    ) -> Result<Received, Refusal>
        ensures { let held = G.Log.view log.now in
            let before = side_of self.old held (U.Line.view up.old) (D.Line.view down.old)
            accounts.old.rows frame.old out.old in
            let after = side_of self.new held (U.Line.view up.new) (D.Line.view down.new)
            accounts.new.rows frame.new out.new in
            Receives before result after }
    {
        if frame.len() < PACKET_LIMIT {
            return Err(Refusal::ShortBuffer);
        }
        if out.len() < PACKET_LIMIT {
            return Err(Refusal::ShortBuffer);
        }
        if !self.state.listens() {
            return Err(Refusal::WrongPhase);
        }
        // No `?`: a fault ends the connection here.
        match self.hear(log, accounts, up, frame) {
            Ok(received) => Ok(received),
            Err(fault) => {
                self.dismiss(GoodByeReason::BadPacket, accounts, down, out);
                Err(fault.into())
            }
        }
    }

    // Takes once, and acts on a packet that is whole. After a fault the frame is empty.
    #[tactic(auto, using(framing::proofs::Fills::fill_free, framing::proofs::Fills::fewer_after, crate::proofs::Frames::hears_none))]
    #[inline(always)]
    fn hear<G: Log, U: Line>(
        &mut self,
        log: &G,
        accounts: &mut Accounts,
        up: &mut U,
        frame: &mut [u8],
    ) -> Result<Received, PacketFault>
        requires { packet_limit ≤ length frame.old }
        ensures outcome { (down : LineView) (out : List ℕ) →
            let held = G.Log.view log.now in
            let up_before = U.Line.view up.old in
            let up_after = U.Line.view up.new in
            let before = side_of self.old held up_before down accounts.old.rows frame.old out in
            let after = side_of self.new held up_after down accounts.new.rows frame.new out in
            closing result after ≡ hears before up_after.room }
        ensures free { let lacking = lack (take self.old.filled frame.old) in
            Free (U.Line.view up.old) lacking (U.Line.view up.new).room }
        ensures fewer { Fewer result (U.Line.view up.old) (U.Line.view up.new) }
    {
        let count = fill(up, frame, self.filled);
        if count == 0 {
            return Ok(Received::Nothing);
        }
        let filled = self.filled + count;
        self.filled = 0;
        self.silent = 0;
        match self.judge(&frame[0..filled])? {
            None => {
                self.filled = filled;
                Ok(Received::Part)
            }
            Some(packet) => self.state.act(packet, log, accounts),
        }
    }

    // What it says of its frame. Most takes leave a part, and no packet is read then.
    fn judge<'a>(&self, bytes: &'a [u8]) -> Result<Option<Packet<'a>>, PacketFault>
        ensures { answer_of result ≡ judged (hub_letters self.now.state.phase) bytes.now }
    {
        if is_part(bytes) {
            return Ok(None);
        }
        judge(bytes, self.state.letters())
    }
}
