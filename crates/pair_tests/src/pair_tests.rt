//! Tests of a pair on examples: a break inside a packet, silence, a list of calls, what set-up refuses.
use account::Accounts;
use line::SMALLEST_SIZE;
use lines::{Paced, Ring};
use logs::{Indexed, Journal};
use message_log::Log;
use pair::{AccountTexts, Buffers};
use relay::{Answer, Call, Credentials, Parts, Relay, Slot, Way, run};
use rules::{How, HubPhase, SeatPhase};
use std::alloc::Global;
use std::test::Fail;
use wire::{Refusal, Status};

/// The account of the seat, whose case does not matter.
const SEAT: AccountTexts = AccountTexts {
    user: b"MM01",
    computer: b"desk1",
    protocol: b"fill1.0",
};

/// The down line hands over eight bytes at once.
type Bench = Relay<Journal, Indexed, Ring, Paced<Ring>>;

/// What it is set up of.
type BenchParts = Parts<Journal, Indexed, Ring, Paced<Ring>>;

fn accounts() -> Result<Accounts, Refusal> {
    let mut accounts = Accounts::new();
    accounts.add(b"mm01", b"desk1", b"fill1.0")?;
    Ok(accounts)
}

fn journal(heap: Global) -> Result<Journal, Refusal> {
    Ok(Journal::new(heap, vec![in heap; 0u8; 100]?)?)
}

fn indexed(heap: Global) -> Result<Indexed, Refusal> {
    Ok(Indexed::new(vec![in heap; 0u8; 64]?, vec![in heap; 0u32; 8]?)?)
}

fn ring(heap: Global) -> Result<Ring, Refusal> {
    Ok(Ring::new(vec![in heap; 0u8; SMALLEST_SIZE]?)?)
}

fn paced(heap: Global) -> Result<Paced<Ring>, Refusal> {
    Ok(Paced::new(ring(heap)?, 8)?)
}

fn parts(heap: Global) -> Result<BenchParts, Refusal> {
    Ok(Parts {
        hub_log: journal(heap)?,
        seat_log: indexed(heap)?,
        up: ring(heap)?,
        down: paced(heap)?,
        accounts: accounts()?,
        seat: Credentials::of(heap, SEAT)?,
        buffers: Buffers::new(heap)?,
    })
}

fn set_up(parts: BenchParts) -> Result<Bench, Refusal> {
    Ok(Relay::set_up(parts)?)
}

// Three messages are published, and one has arrived when the connection breaks in the middle of the second.
fn broken(heap: Global) -> Result<Bench, Refusal> {
    let mut bench = set_up(parts(heap)?)?;
    for message in [
        b"first".as_slice(),
        b"second".as_slice(),
        b"third".as_slice(),
    ] {
        let _ = bench.perform(Call::Publish(message));
    }
    for call in [
        Call::Connect(How::Join),
        Call::Round,
        Call::Round,
        Call::HubSend,
        Call::SeatReceive,
        Call::SeatReceive,
        Call::Cut,
    ] {
        let _ = bench.perform(call);
    }
    Ok(bench)
}

// What a call that is done or refused answered.
fn done(answer: Answer) -> Option<Result<(), Refusal>> {
    match answer {
        Answer::Done(done) => Some(done),
        _ => None,
    }
}

// Whether the log holds this message with this number.
fn holds(log: &Indexed, n: usize, message: &[u8]) -> bool {
    log.message(n) == Ok(message)
}

#[test]
fn a_break_inside_a_packet_is_made_good(rt: HostRuntime) -> Result<(), Fail> {
    let mut bench = broken(rt.alloc())?;
    assert_eq!(rt; bench.owned_pair().seat_log.count(), 1);
    assert_eq!(rt; bench.bring_level(Way::Join), Ok(Some(Status::Accepted)));
    assert_eq!(rt; bench.owned_pair().seat_log.count(), 3);
    assert!(rt; holds(&bench.owned_pair().seat_log, 1, b"first"));
    assert!(rt; holds(&bench.owned_pair().seat_log, 2, b"second"));
    assert!(rt; holds(&bench.owned_pair().seat_log, 3, b"third"));
    // One round more brings synchronization complete.
    assert!(rt; !bench.owned_pair().pair.in_step());
    let _ = bench.perform(Call::Round);
    assert!(rt; bench.owned_pair().pair.in_step());
    Ok(())
}

#[test]
fn thirty_silent_ticks_are_survived(rt: HostRuntime) -> Result<(), Fail> {
    let mut bench = set_up(parts(rt.alloc())?)?;
    let _ = bench.perform(Call::Connect(How::Join));
    let _ = bench.perform(Call::Round);
    for _ in 0..30 {
        assert_eq!(rt; done(bench.perform(Call::Tick)), Some(Ok(())));
    }
    assert!(rt;
        matches!(
            bench.owned_pair().pair.hub_phase(),
            HubPhase::Serving { .. }
        )
    );
    assert!(rt; matches!(bench.owned_pair().pair.seat_phase(), SeatPhase::Live));
    assert_eq!(rt; done(bench.perform(Call::Tick)), Some(Ok(())));
    assert!(rt; matches!(bench.owned_pair().pair.hub_phase(), HubPhase::Shut));
    assert!(rt; matches!(bench.owned_pair().pair.seat_phase(), SeatPhase::Apart));
    assert_eq!(rt;
        done(bench.perform(Call::Leave)),
        Some(Err(Refusal::WrongPhase))
    );
    Ok(())
}

#[test]
fn a_list_of_calls_is_run(rt: HostRuntime) -> Result<(), Fail> {
    let mut slots = [
        Call::Publish(b"AB"),
        Call::Connect(How::Anew),
        Call::Round,
        Call::Round,
        Call::Round,
        Call::Finish,
        Call::Finish,
    ]
    .map(Slot::from);
    let mut bench = set_up(parts(rt.alloc())?)?;
    bench.run(&mut slots);
    assert!(rt; slots.iter().all(|slot| slot.answer.is_some()));
    assert!(rt;
        matches!(
            slots[6].answer,
            Some(Answer::Done(Err(Refusal::SessionFinished)))
        )
    );
    assert!(rt; holds(&bench.owned_pair().seat_log, 1, b"AB"));
    assert!(rt; bench.owned_pair().pair.in_step());
    Ok(())
}

#[test]
fn a_list_of_calls_is_run_on_what_is_lent(rt: HostRuntime) -> Result<(), Fail> {
    let mut slots = [Call::Publish(b"AB"), Call::Cut].map(Slot::from);
    let mut owned = set_up(parts(rt.alloc())?)?.into_owned_pair();
    run(
        &mut owned.pair,
        &mut slots,
        &mut owned.hub_log,
        &mut owned.seat_log,
        &mut owned.up,
        &mut owned.down,
        &mut owned.buffers,
    );
    assert!(rt; matches!(slots[1].answer, Some(Answer::Done(Ok(())))));
    assert_eq!(rt; owned.hub_log.count(), 1);
    Ok(())
}

#[test]
fn a_rejected_login_is_reported(rt: HostRuntime) -> Result<(), Fail> {
    let heap = rt.alloc();
    let mut parts = parts(heap)?;
    parts.accounts = Accounts::new();
    let mut bench = set_up(parts)?;
    assert_eq!(rt; bench.bring_level(Way::Anew), Ok(Some(Status::UnknownUser)));
    Ok(())
}

#[test]
fn set_up_hands_the_parts_back(rt: HostRuntime) -> Result<(), Fail> {
    let heap = rt.alloc();
    let mut parts = parts(heap)?;
    parts.seat = Credentials::of(
        heap,
        AccountTexts {
            user: b"mm0001",
            ..SEAT
        },
    )?;
    let Err(unmade) = Relay::set_up(parts) else {
        return Err(Fail::new("a user of six bytes is refused"));
    };
    assert_eq!(rt; unmade.refusal, Refusal::BadAccountField);
    assert_eq!(rt; unmade.given.accounts.count(), 1);
    assert_eq!(rt; unmade.given.hub_log.session(), 0);
    Ok(())
}
