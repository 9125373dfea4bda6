//! A relay for a scenario, and the calls that a scenario makes on it.
ghost use Rattle.rules.specs.Rounds.{Publish};
ghost use Rattle.pair.specs.Steps.{Does, GoesRound};

use account::Accounts;
use line::Line;
use lines::Ring;
use logs::Journal;
use message_log::Log;
use pair::{AccountTexts, Buffers};
use relay::{Answer, Call, Credentials, Parts, Relay};
use rules::Report;
use std::alloc::Global;
use wire::Refusal;

/// The full size of each line, in bytes.
const LINE_SIZE: usize = 65_536;

/// The account of the seat.
const SEAT: AccountTexts = AccountTexts {
    user: b"mm01",
    computer: b"desk1",
    protocol: b"fill1.0",
};

/// A relay of two empty journals of so many bytes, over these lines.
pub fn relay<L: Line + Drop>(
    heap: Global,
    size: usize,
    up: L,
    down: L,
) -> Result<Relay<Journal, Journal, L, L>, Refusal> {
    let parts = Parts {
        hub_log: journal(heap, size)?,
        seat_log: journal(heap, size)?,
        up,
        down,
        accounts: accounts()?,
        seat: Credentials::of(heap, SEAT)?,
        buffers: Buffers::new(heap)?,
    };
    Ok(Relay::set_up(parts)?)
}

/// The hub publishes a message.
pub fn publish<L: Line>(
    relay: &mut Relay<Journal, Journal, L, L>,
    message: &[u8],
) -> Result<(), Refusal>
    ensures { Does (Publish message.now) relay.old.pair result relay.new.pair }
{
    match relay.perform(Call::Publish(message)) {
        Answer::Done(done) => done,
        // No publish answers this.
        _ => Ok(()),
    }
}

/// One round.
pub fn round<L: Line>(relay: &mut Relay<Journal, Journal, L, L>) -> Result<Report, Refusal>
    ensures { GoesRound relay.old.pair result relay.new.pair }
{
    match relay.perform(Call::Round) {
        Answer::Round(report) => report,
        // No round answers this.
        _ => Err(Refusal::WrongPhase),
    }
}

fn journal(heap: Global, size: usize) -> Result<Journal, Refusal> {
    Ok(Journal::new(heap, vec![in heap; 0u8; size]?)?)
}

fn accounts() -> Result<Accounts, Refusal> {
    let mut accounts = Accounts::new();
    let _row = accounts.add(SEAT.user, SEAT.computer, SEAT.protocol)?;
    Ok(accounts)
}

/// An empty ring.
pub fn ring(heap: Global) -> Result<Ring, Refusal> {
    Ok(Ring::new(vec![in heap; 0u8; LINE_SIZE]?)?)
}
