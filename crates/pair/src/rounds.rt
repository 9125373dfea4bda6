//! A round: each end receives what waits for it, and sends once.
ghost use Rattle.std.specs.Prelude.{◌≡◌, ◌≤◌, length};
ghost use Rattle.wire.specs.Limits.{packet_limit};
ghost use Rattle.message_log.specs.Meaning.{Meaning};
ghost use Rattle.rules.specs.Laws.{NoShorter};
ghost use Rattle.rules.specs.Rounds.{Drains, HubReceives, SeatReceives, going};
ghost use Rattle.pair.specs.Meanings.{pair_of};
ghost use Rattle.pair.specs.Steps.{GoesRound};
ghost use Rattle.pair.specs.Goings.{meant};

use crate::buffers::Buffers;
use crate::pairs::Pair;
use line::Line;
use message_log::Log;
use rules::{Heard, Received, Report};
use wire::{Fault, Refusal};

// What a receive's answer means for a round.
enum Going {
    // The receives end, with what was wrong if something was.
    Stop(Option<Fault>),
    // They go on, with so many packets more acted on.
    Continue(usize),
}

impl Going {
    // What this answer means.
    fn of(answer: Result<Received, Refusal>) -> Going
        ensures { meant result ≡ going answer }
    {
        match answer {
            Ok(Received::Nothing) => Going::Stop(None),
            Ok(Received::Part) => Going::Continue(0),
            Ok(Received::Acted(_)) => Going::Continue(1),
            Ok(Received::Message { .. }) => Going::Continue(1),
            Err(refusal) => Going::Stop(refusal.fault()),
        }
    }
}

impl Pair {
    /// A round: the hub receives until nothing waits or it is refused, and sends; then the seat does. A send that is
    /// refused sends nothing. It answers for each end how many packets were acted on, and what was wrong. Refuses by
    /// `ShortBuffer`, with nothing changed.
    pub fn round<G: Log, S: Log, U: Line, D: Line>(
        &mut self,
        hub_log: &G,
        seat_log: &mut S,
        up: &mut U,
        down: &mut D,
        buffers: &mut Buffers,
    ) -> Result<Report, Refusal>
        ensures { let log = G.Log.view hub_log.now in
            let before = pair_of self.old log (S.Log.view seat_log.old)
            (U.Line.view up.old) (D.Line.view down.old) buffers.old in
            let after = pair_of self.new log (S.Log.view seat_log.new)
            (U.Line.view up.new) (D.Line.view down.new) buffers.new in
            GoesRound before result after }
    {
        if buffers.is_short() {
            return Err(Refusal::ShortBuffer);
        }
        let hub = self.drain_hub(hub_log, up, down, buffers);
        let _ = self.hub_send(hub_log, down, buffers);
        let seat = self.drain_seat(seat_log, up, down, buffers);
        let _ = self.seat_send(seat_log, up, buffers);
        Ok(Report { hub, seat })
    }

    // The hub receives until nothing waits or it is refused.
    fn drain_hub<G: Log, U: Line, D: Line>(
        &mut self,
        hub_log: &G,
        up: &mut U,
        down: &mut D,
        buffers: &mut Buffers,
    ) -> Heard
        requires frame { packet_limit ≤ length buffers.old.hub_frame }
        requires out { packet_limit ≤ length buffers.old.out }
        ensures lengths { NoShorter buffers.old buffers.new }
        ensures drained { (seat_log : Meaning) →
            let log = G.Log.view hub_log.now in
            let before = pair_of self.old log seat_log
            (U.Line.view up.old) (D.Line.view down.old) buffers.old in
            let after = pair_of self.new log seat_log
            (U.Line.view up.new) (D.Line.view down.new) buffers.new in
            Drains HubReceives before result.packets result.fault after }
    {
        // Each packet takes a byte at least, so that there are no more of them than this.
        let _most = up.waiting();
        let mut packets = 0;
        loop {
            match Going::of(self.hub_receive(hub_log, up, down, buffers)) {
                Going::Stop(fault) => return Heard { packets, fault },
                Going::Continue(more) => packets += more,
            }
        }
    }

    // The seat receives until nothing waits or it is refused.
    fn drain_seat<S: Log, U: Line, D: Line>(
        &mut self,
        seat_log: &mut S,
        up: &mut U,
        down: &mut D,
        buffers: &mut Buffers,
    ) -> Heard
        requires frame { packet_limit ≤ length buffers.old.seat_frame }
        requires out { packet_limit ≤ length buffers.old.out }
        ensures lengths { NoShorter buffers.old buffers.new }
        ensures drained { (hub_log : Meaning) →
            let before = pair_of self.old hub_log (S.Log.view seat_log.old)
            (U.Line.view up.old) (D.Line.view down.old) buffers.old in
            let after = pair_of self.new hub_log (S.Log.view seat_log.new)
            (U.Line.view up.new) (D.Line.view down.new) buffers.new in
            Drains SeatReceives before result.packets result.fault after }
    {
        let _most = down.waiting();
        let mut packets = 0;
        loop {
            match Going::of(self.seat_receive(seat_log, up, down, buffers)) {
                Going::Stop(fault) => return Heard { packets, fault },
                Going::Continue(more) => packets += more,
            }
        }
    }
}
