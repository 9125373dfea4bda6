//! One call on a pair.
ghost use Rattle.pair.specs.Meanings.{pair_of};
ghost use Rattle.relay.specs.Calls.{call_of};
ghost use Rattle.relay.specs.Histories.{Performs};

use crate::commands::Call;
use line::Line;
use message_log::Log;
use pair::{Buffers, Pair};
use rules::Answer;

/// Performs a call on a pair: a step of the rules, after which the promises hold as before.
pub fn perform<G: Log, S: Log, U: Line, D: Line>(
    pair: &mut Pair,
    call: Call,
    hub_log: &mut G,
    seat_log: &mut S,
    up: &mut U,
    down: &mut D,
    buffers: &mut Buffers,
) -> Answer
    ensures { let before = pair_of pair.old (G.Log.view hub_log.old) (S.Log.view seat_log.old)
        (U.Line.view up.old) (D.Line.view down.old) buffers.old in
        let after = pair_of pair.new (G.Log.view hub_log.new) (S.Log.view seat_log.new)
        (U.Line.view up.new) (D.Line.view down.new) buffers.new in
        Performs before (call_of call.entry) result after }
{
    match call {
        Call::Connect(how) => Answer::Done(pair.connect(how, seat_log, up, down, buffers)),
        Call::Cut => {
            pair.cut(up, down);
            Answer::Done(Ok(()))
        }
        Call::Publish(message) => Answer::Done(pair.publish(message, hub_log)),
        Call::Finish => Answer::Done(pair.finish()),
        Call::Roll => Answer::Done(pair.roll(hub_log)),
        Call::Tell(message) => Answer::Done(pair.tell(message, down, buffers)),
        Call::Say(message) => Answer::Done(pair.say(message, up, buffers)),
        Call::Leave => Answer::Done(pair.leave(up, buffers)),
        Call::HubReceive => Answer::Received(pair.hub_receive(hub_log, up, down, buffers)),
        Call::SeatReceive => Answer::Received(pair.seat_receive(seat_log, up, down, buffers)),
        Call::HubSend => Answer::Sent(pair.hub_send(hub_log, down, buffers)),
        Call::SeatSend => Answer::Sent(pair.seat_send(seat_log, up, buffers)),
        Call::Tick => Answer::Done(pair.tick(down, buffers)),
        Call::Round => Answer::Round(pair.round(hub_log, seat_log, up, down, buffers)),
    }
}
