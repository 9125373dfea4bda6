//! Tests of the lines on examples: wraps, room that comes back late, nested layers, refusals, transfers, what is shown.
ghost use Rattle.std.specs.Prelude.{◌≡◌, IfOk};

use line::{Line, PeekLine, SMALLEST_SIZE, transfer};
use lines::{AnyLine, Paced, Ring, Straight};
use std::alloc::{AllocError, Global};
use std::test::Fail;
use wire::{Refusal, Unmade};

/// A line of the smallest size, as `new` makes it of its memory.
fn smallest<L, F: FnOnce(Vec<u8>) -> Result<L, Unmade<Vec<u8>>>>(
    heap: Global,
    new: F,
) -> Result<L, Refusal>
    requires { F.IsAlwaysCallable new }
{
    Ok(new(vec![in heap; 0u8; SMALLEST_SIZE]?)?)
}

/// A ring on which `hello` waits, its first two bytes at the end of the memory and the others at the front.
fn wrapped(heap: Global) -> Result<Ring, Refusal> {
    let mut line = smallest(heap, Ring::new)?;
    let mut buffer = vec![in heap; 0u8; SMALLEST_SIZE - 2]?;
    line.put(buffer.as_slice())?;
    line.take(buffer.as_mut_slice());
    line.put(b"hello")?;
    Ok(line)
}

/// What a line shows, in one piece.
fn shown<L: PeekLine>(heap: Global, line: &L) -> Result<Vec<u8>, AllocError>
    ensures { IfOk result (λ v. v.items ≡ (L.Line.view line.now).waiting) }
{
    let (front, back) = line.peek();
    let mut all = front.to_vec(heap)?;
    all.extend_from_slice(back)?;
    Ok(all)
}

#[test]
fn ring_wraps(rt: HostRuntime) -> Result<(), Fail> {
    let mut line = wrapped(rt.alloc())?;
    assert_eq!(rt; line.room(), SMALLEST_SIZE - 5);
    let mut out = [b'-'; 6];
    assert_eq!(rt; line.take(&mut out), 5);
    assert!(rt; &out[..] == b"hello-".as_slice());
    Ok(())
}

#[test]
fn straight_gives_room_back_when_empty(rt: HostRuntime) -> Result<(), Fail> {
    let mut line = smallest(rt.alloc(), Straight::new)?;
    line.put(b"ab")?;
    let mut out = [b'-'; 3];
    assert_eq!(rt; line.take(&mut out), 1);
    assert_eq!(rt; line.room(), SMALLEST_SIZE - 2);
    assert_eq!(rt; line.take(&mut out), 1);
    assert_eq!(rt; line.room(), SMALLEST_SIZE);
    assert!(rt; &out[..] == b"b--".as_slice());
    Ok(())
}

#[test]
fn layers_nest(rt: HostRuntime) -> Result<(), Fail> {
    let Ok(inner) = Paced::new(smallest(rt.alloc(), Ring::new)?, 2) else {
        return Err(Fail::new("inner"));
    };
    let Ok(mut line) = Paced::new(inner, 3) else {
        return Err(Fail::new("outer"));
    };
    line.put(b"hello")?;
    let mut out = [0u8; 9];
    assert_eq!(rt; line.take(&mut out), 2);
    assert_eq!(rt; line.waiting(), 3);
    line.clear();
    assert_eq!(rt; line.take(&mut out), 0);
    Ok(())
}

#[test]
fn refused_makings_give_back(rt: HostRuntime) -> Result<(), Fail> {
    let Err(unmade) = Ring::new(vec![in rt.alloc(); 9u8; SMALLEST_SIZE - 1]?) else {
        return Err(Fail::new("made"));
    };
    assert_eq!(rt; unmade.refusal.number(), 15);
    assert_eq!(rt; unmade.given.len(), SMALLEST_SIZE - 1);
    let Err(unmade) = Paced::new(smallest(rt.alloc(), Straight::new)?, 0) else {
        return Err(Fail::new("made"));
    };
    assert_eq!(rt; unmade.given.room(), SMALLEST_SIZE);
    Ok(())
}

#[test]
fn transfers_between_kinds(rt: HostRuntime) -> Result<(), Fail> {
    let mut from = AnyLine::Straight(smallest(rt.alloc(), Straight::new)?);
    let mut to = smallest(rt.alloc(), Ring::new)?;
    from.put(b"hello, line")?;
    let mut buffer = [0u8; 4];
    assert_eq!(rt; transfer(&mut from, &mut to, &mut buffer)?, 11);
    assert_eq!(rt; from.waiting(), 0);
    let mut out = [b'-'; 12];
    assert_eq!(rt; to.take(&mut out), 11);
    assert!(rt; &out[..] == b"hello, line-".as_slice());
    let Err(refusal) = transfer(&mut to, &mut from, &mut []) else {
        return Err(Fail::new("moved"));
    };
    assert_eq!(rt; refusal.number(), 14);
    Ok(())
}

#[test]
fn ring_shows_round_the_end(rt: HostRuntime) -> Result<(), Fail> {
    let line = wrapped(rt.alloc())?;
    let (front, back) = line.peek();
    assert!(rt; front == b"he".as_slice());
    assert!(rt; back == b"llo".as_slice());
    Ok(())
}

#[test]
fn layer_shows_all_that_waits(rt: HostRuntime) -> Result<(), Fail> {
    let Ok(paced) = Paced::new(smallest(rt.alloc(), Straight::new)?, 1) else {
        return Err(Fail::new("paced"));
    };
    let mut line = AnyLine::PacedStraight(paced);
    line.put(b"hello")?;
    line.take(&mut [0u8; 9]);
    assert!(rt; shown(rt.alloc(), &line)?.as_slice() == b"ello".as_slice());
    Ok(())
}

#[test]
fn peek_changes_nothing(rt: HostRuntime) -> Result<(), Fail> {
    let mut line = wrapped(rt.alloc())?;
    let first = shown(rt.alloc(), &line)?;
    assert!(rt; shown(rt.alloc(), &line)?.as_slice() == first.as_slice());
    let mut out = [b'-'; 6];
    line.take(&mut out);
    assert!(rt; &out[..] == b"hello-".as_slice());
    Ok(())
}
