//! A log of slots on examples: a message of any length takes a slot, and a seat that keeps its log in slots is brought
//! level with a hub that keeps another.
use account::Accounts;
use line::SMALLEST_SIZE;
use lines::{Ring, Straight};
use logs::Indexed;
use message_log::Log;
use pair::{AccountTexts, Buffers};
use relay::{Call, Credentials, Parts, Relay, Way};
use slot_log::{Slot, Slots};
use std::alloc::Global;
use std::test::Fail;
use wire::{MESSAGE_LIMIT, Refusal, Status};

/// A seat that keeps its log in slots.
type Bench = Relay<Indexed, Slots, Straight, Ring>;

const SEAT: AccountTexts = AccountTexts {
    user: b"mm01",
    computer: b"desk1",
    protocol: b"fill1.0",
};

// Whether both logs hold the same session, with the same two messages.
fn is_level(bench: &Bench) -> bool {
    let owned = bench.owned_pair();
    owned.seat_log.session() == owned.hub_log.session()
        && owned.seat_log.count() == owned.hub_log.count()
        && owned.seat_log.message(1) == owned.hub_log.message(1)
        && owned.seat_log.message(2) == owned.hub_log.message(2)
}

fn slots(heap: Global) -> Result<Slots, Refusal> {
    Ok(Slots::new(vec![in heap; Slot::new(); 2]?)?)
}

fn indexed(heap: Global) -> Result<Indexed, Refusal> {
    Ok(Indexed::new(vec![in heap; 0u8; 64]?, vec![in heap; 0u32; 8]?)?)
}

fn set_up(heap: Global) -> Result<Bench, Refusal> {
    let mut accounts = Accounts::new();
    accounts.add(SEAT.user, SEAT.computer, SEAT.protocol)?;
    let parts = Parts {
        hub_log: indexed(heap)?,
        seat_log: slots(heap)?,
        up: Straight::new(vec![in heap; 0u8; SMALLEST_SIZE]?)?,
        down: Ring::new(vec![in heap; 0u8; SMALLEST_SIZE]?)?,
        accounts,
        seat: Credentials::of(heap, SEAT)?,
        buffers: Buffers::new(heap)?,
    };
    Ok(Relay::set_up(parts)?)
}

#[test]
fn a_seat_is_brought_level(rt: HostRuntime) -> Result<(), Fail> {
    let mut bench = set_up(rt.alloc())?;
    bench.perform(Call::Publish(b"first"));
    bench.perform(Call::Publish(b""));
    assert!(rt; !is_level(&bench));
    assert_eq!(rt; bench.bring_level(Way::Join), Ok(Some(Status::Accepted)));
    assert_eq!(rt; bench.owned_pair().seat_log.count(), 2);
    assert!(rt; is_level(&bench));
    Ok(())
}

#[test]
fn each_slot_takes_a_message_of_any_length(rt: HostRuntime) -> Result<(), Fail> {
    let heap = rt.alloc();
    let longest = vec![in heap; 7u8; MESSAGE_LIMIT]?;
    let mut log = slots(heap)?;
    assert_eq!(rt; log.begin(1), Ok(()));
    assert_eq!(rt; log.append(b"short"), Ok(()));
    assert_eq!(rt; log.append(&longest), Ok(()));
    assert_eq!(rt; log.append(b""), Err(Refusal::LogFull));
    assert_eq!(rt; log.message(1), Ok(b"short".as_slice()));
    assert_eq!(rt; log.message(2), Ok(longest.as_slice()));
    Ok(())
}
