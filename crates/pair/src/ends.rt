//! What each end receives and sends by itself.
ghost use Rattle.std.specs.Prelude.{◌≡◌};
ghost use Rattle.line.specs.Lines.{LineView};
ghost use Rattle.message_log.specs.Meaning.{Meaning};
ghost use Rattle.pair.specs.Meanings.{pair_of};
ghost use Rattle.pair.specs.Steps.{ReceivesAtHub, ReceivesAtSeat, SendsFromHub, SendsFromSeat};

use crate::buffers::Buffers;
use crate::pairs::Pair;
use line::Line;
use message_log::Log;
use rules::Received;
use wire::{Letter, Refusal};

impl Pair {
    /// The hub takes once from the up line, and acts on a packet that is whole then. Refuses by `ShortBuffer`,
    /// `WrongPhase` and `BadPacket`, in this order; the last ends the connection.
    #[inline(always)]
    pub fn hub_receive<G: Log, U: Line, D: Line>(
        &mut self,
        hub_log: &G,
        up: &mut U,
        down: &mut D,
        buffers: &mut Buffers,
    ) -> Result<Received, Refusal>
        ensures { (seat_log : Meaning) →
            let log = G.Log.view hub_log.now in
            let before = pair_of self.old log seat_log
            (U.Line.view up.old) (D.Line.view down.old) buffers.old in
            let after = pair_of self.new log seat_log
            (U.Line.view up.new) (D.Line.view down.new) buffers.new in
            ReceivesAtHub before result after }
    {
        self.hub.receive(
            hub_log,
            &mut self.accounts,
            up,
            down,
            &mut buffers.hub_frame,
            &mut buffers.out,
        )
    }

    /// The seat takes once from the down line, and acts on a packet that is whole then. Refuses by `ShortBuffer`,
    /// `WrongPhase`, and by `BadPacket` or `LogFull`, which end the connection.
    #[inline(always)]
    pub fn seat_receive<S: Log, U: Line, D: Line>(
        &mut self,
        seat_log: &mut S,
        up: &mut U,
        down: &mut D,
        buffers: &mut Buffers,
    ) -> Result<Received, Refusal>
        ensures { (hub_log : Meaning) →
            let before = pair_of self.old hub_log (S.Log.view seat_log.old)
            (U.Line.view up.old) (D.Line.view down.old) buffers.old in
            let after = pair_of self.new hub_log (S.Log.view seat_log.new)
            (U.Line.view up.new) (D.Line.view down.new) buffers.new in
            ReceivesAtSeat before result after }
    {
        self.seat.receive(
            seat_log,
            up,
            down,
            &mut buffers.seat_frame,
            &mut buffers.out,
        )
    }

    /// The hub sends what is due, one packet at most, and answers its letter. Refuses by `ShortBuffer`, `WrongPhase`
    /// and `LineFull`, in this order; a refusal changes nothing.
    pub fn hub_send<G: Log, D: Line>(
        &mut self,
        hub_log: &G,
        down: &mut D,
        buffers: &mut Buffers,
    ) -> Result<Option<Letter>, Refusal>
        ensures { (seat_log : Meaning) (up : LineView) →
            let log = G.Log.view hub_log.now in
            let before = pair_of self.old log seat_log up (D.Line.view down.old) buffers.old in
            let after = pair_of self.new log seat_log up (D.Line.view down.new) buffers.new in
            SendsFromHub before result after }
    {
        self.hub
            .send(hub_log, &mut self.accounts, down, &mut buffers.out)
    }

    /// The seat sends what is due, one packet at most, and answers its letter. Refuses by `ShortBuffer`, `WrongPhase`
    /// and `LineFull`, in this order; a refusal changes nothing.
    pub fn seat_send<S: Log, U: Line>(
        &mut self,
        seat_log: &S,
        up: &mut U,
        buffers: &mut Buffers,
    ) -> Result<Option<Letter>, Refusal>
        ensures { (hub_log : Meaning) (down : LineView) →
            let log = S.Log.view seat_log.now in
            let before = pair_of self.old hub_log log (U.Line.view up.old) down buffers.old in
            let after = pair_of self.new hub_log log (U.Line.view up.new) down buffers.new in
            SendsFromSeat before result after }
    {
        self.seat.send(seat_log, up, &mut buffers.out)
    }
}
