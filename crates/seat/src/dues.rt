//! What a seat is to write next.
//! A heartbeat, or in a fetch the request.
ghost use Rattle.std.specs.Prelude.{◌≡◌};
ghost use Rattle.rules.specs.State.{Pair};
ghost use Rattle.rules.specs.Seat.{seat_due};
ghost use Rattle.seat.specs.State.{due_of, with_state, Writable};

use crate::state::SeatState;
use framing::BEAT_AFTER;
use message_log::Log;
use packet::Packet;
use rules::SeatPhase;

/// A packet that is due, and whether the fetch is requested once it is written.
#[derive(Clone, Copy)]
pub(crate) struct DuePacket {
    pub(crate) packet: Packet<'static>,
    pub(crate) requested: bool,
}

impl SeatState {
    /// What is due after so many ticks in which nothing was sent. In a fetch the request goes out once, while
    /// something is lacking; otherwise a heartbeat may be due.
    pub(crate) fn due<G: Log>(&self, unsent: u16, log: &G) -> Option<DuePacket>
        ensures due { (p : Pair) →
            let held = G.Log.view log.now in
            p.seat.unsent ≡ unsent →
            due_of result self.now held p ≡ seat_due self.now.phase (with_state self.now held p) }
        ensures valid { Writable result }
    {
        let count = log.count() as u64;
        match (self.phase, self.fetch) {
            (SeatPhase::Live, None) if unsent > BEAT_AFTER => Some(DuePacket {
                packet: Packet::SeatHeartbeat,
                requested: self.requested,
            }),
            (SeatPhase::Live, Some(end)) if !self.requested && count < end => Some(DuePacket {
                packet: Packet::RetransmissionRequest {
                    start: count + 1,
                    end,
                },
                requested: true,
            }),
            _ => None,
        }
    }
}
