//! A seat that is brought level, and messages one at a time.
use crate::messages::stamp;
use crate::relays::{publish, relay, ring, round};
use crate::sums::{SEED, mix, mix_bytes};
use line::Line;
use lines::Paced;
use logs::Journal;
use message_log::{Log, SIZE_LIMIT};
use relay::{Relay, Way};
use std::alloc::Global;
use wire::Refusal;

/// Brings a seat level, from the first message on, with a hub whose journal of so many bytes is full of messages of
/// this length, so many times. The lines are rings.
pub fn levels(heap: Global, size: usize, length: usize, times: u64) -> Result<u64, Refusal> {
    let relay = relay(heap, size, ring(heap)?, ring(heap)?)?;
    leveled(heap, relay, length, times)
}

/// The same over lines that hand over so many bytes at once, at most.
pub fn levels_paced(
    heap: Global,
    pace: usize,
    size: usize,
    length: usize,
    times: u64,
) -> Result<u64, Refusal> {
    let up = Paced::new(ring(heap)?, pace)?;
    let down = Paced::new(ring(heap)?, pace)?;
    let relay = relay(heap, size, up, down)?;
    leveled(heap, relay, length, times)
}

// A hub that publishes until its log is full, and a seat that is brought level so many times.
fn leveled<L: Line + Drop>(
    heap: Global,
    relay: Relay<Journal, Journal, L, L>,
    length: usize,
    times: u64,
) -> Result<u64, Refusal> {
    let mut relay = relay;
    let mut message = vec![in heap; 0u8; length]?;
    publish_all(&mut relay, &mut message, SIZE_LIMIT);
    let mut sum = SEED;
    for _ in 0..times {
        let _login = relay.bring_level(Way::Anew)?;
        let owned = relay.owned_pair();
        sum = mix(
            mix(sum, owned.seat_log.count() as u64),
            u64::from(owned.pair.in_step()),
        );
    }
    Ok(mix_bytes(sum, relay.owned_pair().seat_log.bytes()))
}

// The hub publishes so many messages, or as many as its log takes.
fn publish_all<L: Line + Drop>(
    relay: &mut Relay<Journal, Journal, L, L>,
    message: &mut [u8],
    count: usize,
) {
    for number in 0..count {
        stamp(message, number as u64);
        if publish(relay, message).is_err() {
            return;
        }
    }
}

/// Publishes a message of this length and goes a round, so many times, where hub and seat hold so many messages
/// before. The journals have so many bytes, the lines are rings.
pub fn lives(
    heap: Global,
    size: usize,
    length: usize,
    held: usize,
    times: u64,
) -> Result<u64, Refusal> {
    let mut relay = relay(heap, size, ring(heap)?, ring(heap)?)?;
    let mut message = vec![in heap; 0u8; length]?;
    publish_all(&mut relay, &mut message, held);
    let _login = relay.bring_level(Way::Anew)?;
    let mut sum = SEED;
    for number in 0..times {
        stamp(&mut message, number);
        sum = lived(sum, &mut relay, &message)?;
    }
    Ok(mix_bytes(sum, relay.owned_pair().seat_log.bytes()))
}

// One message, from the hub to the seat.
fn lived<L: Line + Drop>(
    sum: u64,
    relay: &mut Relay<Journal, Journal, L, L>,
    message: &[u8],
) -> Result<u64, Refusal> {
    publish(relay, message)?;
    let report = round(relay)?;
    Ok(mix(
        mix(sum, report.seat.packets as u64),
        report.hub.packets as u64,
    ))
}
