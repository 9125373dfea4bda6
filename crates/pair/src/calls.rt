//! The calls that take nothing from a line and are no send.
ghost use Rattle.std.specs.Prelude.{◌≡◌, Ok};
ghost use Rattle.line.specs.Lines.{LineView};
ghost use Rattle.message_log.specs.Meaning.{Meaning};
ghost use Rattle.rules.specs.State as State;
ghost use Rattle.rules.specs.Rounds.{Connect, Cut, Publish, Finish, Roll, Tell, Say, Leave, Tick};
ghost use Rattle.pair.specs.Meanings.{pair_of};
ghost use Rattle.pair.specs.Steps.{Does};

use crate::buffers::Buffers;
use crate::pairs::Pair;
use line::Line;
use message_log::Log;
use rules::How;
use wire::Refusal;

impl Pair {
    /// Connects: clears lines, frames and counts, the hub waits for a login, and the seat writes it. Refuses by
    /// `ShortBuffer`, and a fetch by `NoSession` and `NothingToFetch`; a refusal changes nothing.
    pub fn connect<S: Log, U: Line, D: Line>(
        &mut self,
        how: How,
        seat_log: &S,
        up: &mut U,
        down: &mut D,
        buffers: &mut Buffers,
    ) -> Result<(), Refusal>
        ensures { (hub_log : Meaning) →
            let held = S.Log.view seat_log.now in
            let before = pair_of self.old hub_log held
            (U.Line.view up.old) (D.Line.view down.old) buffers.old in
            let after = pair_of self.new hub_log held
            (U.Line.view up.new) (D.Line.view down.new) buffers.new in
            Does (Connect how) before result after }
    {
        self.seat
            .ask(how, &self.account, seat_log, up, &mut buffers.out)?;
        self.hub.await_login(&mut self.accounts, down);
        Ok(())
    }

    /// The connection is cut: both ends are without one, and the lines are cleared.
    pub fn cut<U: Line, D: Line>(&mut self, up: &mut U, down: &mut D)
        ensures { (hub_log seat_log : Meaning) (lent : State.Buffers) →
            let before = pair_of self.old hub_log seat_log
            (U.Line.view up.old) (D.Line.view down.old) lent in
            let after = pair_of self.new hub_log seat_log
            (U.Line.view up.new) (D.Line.view down.new) lent in
            Does Cut before (Ok tt) after }
    {
        self.hub.cut(&mut self.accounts);
        self.seat.cut();
        up.clear();
        down.clear();
    }

    /// Publishes a message: the hub's log takes it. Refuses as the log does, and then by `SessionFinished`; a refusal
    /// changes nothing.
    pub fn publish<G: Log>(&mut self, message: &[u8], hub_log: &mut G) -> Result<(), Refusal>
        ensures { (seat_log : Meaning) (up down : LineView) (lent : State.Buffers) →
            let before = pair_of self.old (G.Log.view hub_log.old) seat_log up down lent in
            let after = pair_of self.new (G.Log.view hub_log.new) seat_log up down lent in
            Does (Publish message.now) before result after }
    {
        self.hub.publish(message, hub_log)
    }

    /// Ends publishing in the session. Refuses by `SessionFinished`, with nothing changed.
    pub fn finish(&mut self) -> Result<(), Refusal>
        ensures { (hub_log seat_log : Meaning) (up down : LineView) (lent : State.Buffers) →
            let before = pair_of self.old hub_log seat_log up down lent in
            let after = pair_of self.new hub_log seat_log up down lent in
            Does Finish before result after }
    {
        self.hub.finish()
    }

    /// Begins the next session. Refuses by `HubBusy` and `LastSession`, with nothing changed.
    pub fn roll<G: Log>(&mut self, hub_log: &mut G) -> Result<(), Refusal>
        ensures { (seat_log : Meaning) (up down : LineView) (lent : State.Buffers) →
            let before = pair_of self.old (G.Log.view hub_log.old) seat_log up down lent in
            let after = pair_of self.new (G.Log.view hub_log.new) seat_log up down lent in
            Does Roll before result after }
    {
        self.hub.roll(hub_log)
    }

    /// The hub tells an unsequenced message. Refuses by `MessageTooLong`, `ShortBuffer`, `LineFull`, `WrongPhase`, in
    /// this order; a refusal changes nothing.
    pub fn tell<D: Line>(
        &mut self,
        message: &[u8],
        down: &mut D,
        buffers: &mut Buffers,
    ) -> Result<(), Refusal>
        ensures { (hub_log seat_log : Meaning) (up : LineView) →
            let before = pair_of self.old hub_log seat_log up (D.Line.view down.old) buffers.old in
            let after = pair_of self.new hub_log seat_log up (D.Line.view down.new) buffers.new in
            Does (Tell message.now) before result after }
    {
        self.hub.tell(message, down, &mut buffers.out)
    }

    /// The seat says an unsequenced message. Refuses by `MessageTooLong`, `ShortBuffer`, `LineFull`, `WrongPhase`, in
    /// this order; a refusal changes nothing.
    pub fn say<U: Line>(
        &mut self,
        message: &[u8],
        up: &mut U,
        buffers: &mut Buffers,
    ) -> Result<(), Refusal>
        ensures { (hub_log seat_log : Meaning) (down : LineView) →
            let before = pair_of self.old hub_log seat_log (U.Line.view up.old) down buffers.old in
            let after = pair_of self.new hub_log seat_log (U.Line.view up.new) down buffers.new in
            Does (Say message.now) before result after }
    {
        self.seat.say(message, up, &mut buffers.out)
    }

    /// The seat leaves: it says that it is done, and is apart. Refuses by `ShortBuffer`, `LineFull`, `WrongPhase`, in
    /// this order; a refusal changes nothing.
    pub fn leave<U: Line>(&mut self, up: &mut U, buffers: &mut Buffers) -> Result<(), Refusal>
        ensures { (hub_log seat_log : Meaning) (down : LineView) →
            let before = pair_of self.old hub_log seat_log (U.Line.view up.old) down buffers.old in
            let after = pair_of self.new hub_log seat_log (U.Line.view up.new) down buffers.new in
            Does Leave before result after }
    {
        self.seat.leave(up, &mut buffers.out)
    }

    /// A tick passes for both ends, first for the hub. Refuses by `ShortBuffer`, with nothing changed.
    pub fn tick<D: Line>(&mut self, down: &mut D, buffers: &mut Buffers) -> Result<(), Refusal>
        ensures { (hub_log seat_log : Meaning) (up : LineView) →
            let before = pair_of self.old hub_log seat_log up (D.Line.view down.old) buffers.old in
            let after = pair_of self.new hub_log seat_log up (D.Line.view down.new) buffers.new in
            Does Tick before result after }
    {
        self.hub.tick(&mut self.accounts, down, &mut buffers.out)?;
        self.seat.tick();
        Ok(())
    }
}
