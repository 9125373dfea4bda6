//! What a seat does with a packet.
//! The next message goes to its log; what was wrong is passed on.
ghost use Rattle.std.specs.Prelude.{◌≡◌, ◌+◌, ◌≤◌, length, ◌==◌};
ghost use Rattle.message_log.specs.Meaning.{added};
ghost use Rattle.message_log.specs.Calls.{takes, settled};
ghost use Rattle.packet.specs.Meanings.{value_of};
ghost use Rattle.rules.specs.State.{Pair};
ghost use Rattle.rules.specs.Seat.{seat_accepted, seat_acts, seat_message, suits, in_session};
ghost use Rattle.seat.specs.State.{with_state};
ghost use Rattle.seat.specs.Acts.{closing, kept};

use crate::state::SeatState;
use message_log::Log;
use packet::{HEAD_LEN, Packet};
use rules::{Received, SeatPhase};
use wire::{Fault, Field, Letter, LogFault, PacketFault, Status};

impl SeatState {
    /// Acts on a packet, by the phase. What is wrong with the packet, and that the log refuses the next message, is
    /// passed on with nothing changed.
    #[inline(always)]
    pub(crate) fn act<G: Log>(&mut self, packet: Packet<'_>, log: &mut G) -> Result<Received, Fault>
        ensures { (p : Pair) →
            let before = with_state self.old (G.Log.view log.old) p in
            let after = with_state self.new (G.Log.view log.new) p in
            closing result after ≡ seat_acts self.old.phase (value_of packet.entry) before }
    {
        match (self.phase, packet) {
            (
                SeatPhase::Asking,
                Packet::LoginResponse {
                    status: Status::Accepted,
                    session,
                    highest,
                },
            ) => self.accept(session, highest, log),
            (SeatPhase::Asking, Packet::LoginResponse { status, .. }) => {
                self.phase = SeatPhase::Apart;
                self.status = Some(status);
                Ok(Received::Acted(Letter::LoginResponse))
            }
            (SeatPhase::Asking | SeatPhase::Live, Packet::GoodBye { .. }) => {
                self.phase = SeatPhase::Apart;
                Ok(Received::Acted(Letter::GoodBye))
            }
            (SeatPhase::Live, Packet::Sequenced { number, message }) => self.store(
                number, message, log,
            ),
            (SeatPhase::Live, Packet::Unsequenced { message }) => Ok(Received::Message {
                offset: HEAD_LEN,
                length: message.len(),
            }),
            (SeatPhase::Live, Packet::SynchronizationComplete) if self.fetch.is_none() => {
                self.in_step = true;
                Ok(Received::Acted(Letter::SynchronizationComplete))
            }
            (SeatPhase::Live, Packet::EndOfSession) => {
                self.phase = SeatPhase::Apart;
                Ok(Received::Acted(Letter::EndOfSession))
            }
            (SeatPhase::Live, Packet::HubHeartbeat) => Ok(Received::Acted(Letter::HubHeartbeat)),
            (SeatPhase::Live, Packet::Test { .. }) => Ok(Received::Acted(Letter::Test)),
            _ => Err(Fault::Packet(PacketFault::OutOfPlace)),
        }
    }

    // Its login is accepted: it is live, and in step if the hub's next number is the one that it asked for.
    fn accept<G: Log>(&mut self, session: u8, highest: u64, log: &mut G) -> Result<Received, Fault>
        ensures { (p : Pair) →
            let before = with_state self.old (G.Log.view log.old) p in
            let after = with_state self.new (G.Log.view log.new) p in
            closing result after ≡ seat_accepted session highest before }
    {
        if !is_suited(self.session, session) {
            return Err(Fault::Packet(PacketFault::WrongContent(Field::Session)));
        }
        enter(session, log);
        self.in_step |= is_next(self.number, highest);
        self.phase = SeatPhase::Live;
        Ok(Received::Acted(Letter::LoginResponse))
    }

    // A message came: the next one goes to the log, and one that is held is passed over. So is, in a fetch, one with
    // a number above the next.
    fn store<G: Log>(&self, number: u64, message: &[u8], log: &mut G) -> Result<Received, Fault>
        ensures { (p : Pair) →
            let before = with_state self.now (G.Log.view log.old) p in
            let after = with_state self.now (G.Log.view log.new) p in
            closing result after ≡ seat_message number message.now before }
    {
        let next = log.count() as u64 + 1;
        if number == next {
            keep(message, log)?;
        } else if number > next && self.fetch.is_none() {
            return Err(Fault::Packet(PacketFault::WrongContent(Field::SequenceNumber)));
        }
        Ok(Received::Acted(Letter::Sequenced))
    }
}

// Appends the next message to the log.
fn keep<G: Log>(message: &[u8], log: &mut G) -> Result<(), LogFault>
    ensures answer { result ≡ kept (takes (G.Log.view log.old) (length message.now)) }
    ensures after { let before = G.Log.view log.old in
        let after = G.Log.view log.new in
        after ≡ settled (takes before (length message.now)) (added before message.now) before }
{
    log.append(message).map_err(|_| LogFault::Full)
}

// Whether an accepted response may bear the session given: the one asked for, and any but 0 where 0 was asked for.
fn is_suited(asked: u8, session: u8) -> bool
    ensures { result ≡ suits asked session }
{
    if asked == 0 {
        session != 0
    } else {
        session == asked
    }
}

// Whether a number is the one after the highest.
fn is_next(number: u64, highest: u64) -> bool
    ensures { result ≡ (highest + 1 == number) }
{
    highest.checked_add(1) == Some(number)
}

// Begins the session, if the log is of another.
fn enter<G: Log>(session: u8, log: &mut G)
    requires { 1 ≤ session }
    ensures { G.Log.view log.new ≡ in_session (G.Log.view log.old) session }
{
    if log.session() != session {
        let _ = log.begin(session);
    }
}
