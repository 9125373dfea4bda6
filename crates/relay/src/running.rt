//! Lists of calls on a pair.
ghost use Rattle.pair.specs.Meanings.{pair_of};
ghost use Rattle.relay.specs.Slots.{Runs};

use crate::commands::Call;
use crate::performing::perform;
use line::Line;
use message_log::Log;
use pair::{Buffers, Pair};
use rules::Answer;

/// A call, and what it answered once it was made.
#[derive(Clone, Copy)]
pub struct Slot<'a> {
    pub call: Call<'a>,
    pub answer: Option<Answer>,
}

impl<'a> From<Call<'a>> for Slot<'a> {
    ghost use Rattle.std.specs.Prelude.{◌≡◌, None};

    ghost from_gives = { λ call slot. slot ≡ record { call = call; answer = None } };

    fn from(call: Call<'a>) -> Slot<'a> {
        Slot { call, answer: None }
    }
}

/// Performs the calls of these slots one after the other, granted or refused, and puts the answer of each into its slot.
pub fn run<G: Log, S: Log, U: Line, D: Line>(
    pair: &mut Pair,
    slots: &mut [Slot<'_>],
    hub_log: &mut G,
    seat_log: &mut S,
    up: &mut U,
    down: &mut D,
    buffers: &mut Buffers,
)
    ensures { let before = pair_of pair.old (G.Log.view hub_log.old) (S.Log.view seat_log.old)
        (U.Line.view up.old) (D.Line.view down.old) buffers.old in
        let after = pair_of pair.new (G.Log.view hub_log.new) (S.Log.view seat_log.new)
        (U.Line.view up.new) (D.Line.view down.new) buffers.new in
        Runs before slots.old slots.new after }
{
    for slot in slots.iter_mut() {
        let answer = perform(pair, slot.call, hub_log, seat_log, up, down, buffers);
        slot.answer = Some(answer);
    }
}
