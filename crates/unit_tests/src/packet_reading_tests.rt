//! What a reader says of good and bad bytes.
use packet::{Packet, Reader};
use std::test::Fail;
use wire::{Fault, Layer, PacketFault};

// The cause and the place of what is wrong with the bytes.
fn fault_of(bytes: &[u8]) -> Option<(u8, usize)> {
    let fault = Reader::new(bytes).read().err()?;
    Some((fault.cause(), fault.place()))
}

fn is_part(bytes: &[u8]) -> bool {
    matches!(Reader::new(bytes).read(), Ok(None))
}

#[test]
fn heads(rt: HostRuntime) {
    assert!(rt; is_part(&[]));
    assert!(rt; is_part(&[0]));
    assert_eq!(rt; fault_of(&[0, 0]), Some((1, 0)));
    assert_eq!(rt; fault_of(&[0x0a, 0x10]), Some((2, 0)));
    assert_eq!(rt; fault_of(&[0xff, 0xff, b'S']), Some((2, 0)));
    assert!(rt; is_part(&[0x09, 0x10]));
    assert!(rt; is_part(&[1, 0]));
}

#[test]
fn letters_and_lengths(rt: HostRuntime) {
    assert_eq!(rt; fault_of(&[1, 0, b'Z']), Some((3, 2)));
    assert_eq!(rt; fault_of(&[1, 0, b's']), Some((3, 2)));
    assert_eq!(rt; fault_of(&[2, 0, b'C', 0]), Some((5, 0)));
    assert_eq!(rt; fault_of(&[2, 0, b'E', 0]), Some((5, 0)));
    assert_eq!(rt; fault_of(&[2, 0, b'0', 0]), Some((5, 0)));
    assert_eq!(rt; fault_of(&[2, 0, b'1', 0]), Some((5, 0)));
    assert_eq!(rt; fault_of(&[1, 0, b'X']), Some((5, 0)));
    assert_eq!(rt; fault_of(&[1, 0, b'G']), Some((5, 0)));
    assert_eq!(rt; fault_of(&[8, 0, b'S', 1, 0, 0, 0, 0, 0, 0]), Some((5, 0)));
    assert_eq!(rt; fault_of(&[3, 0, b'R', b' ', 7]), Some((5, 0)));
    assert_eq!(rt; fault_of(&[3, 0, b'A', 0, 0]), Some((5, 0)));
    assert_eq!(rt; fault_of(&[3, 0, b'L', 0, 0]), Some((5, 0)));
}

#[test]
fn statuses_and_reasons(rt: HostRuntime) {
    assert_eq!(rt;
        fault_of(&[11, 0, b'R', b'Q', 7, 1, 0, 0, 0, 0, 0, 0, 0]),
        Some((6, 3))
    );
    assert_eq!(rt; fault_of(&[2, 0, b'X', b'Q']), Some((6, 3)));
    assert_eq!(rt; fault_of(&[2, 0, b'G', b' ']), Some((6, 3)));
    assert_eq!(rt; fault_of(&[2, 0, b'X', b' ']), None);
    assert_eq!(rt; fault_of(&[2, 0, b'G', b'A']), None);
    assert_eq!(rt; fault_of(&[1, 0, b'T']), None);
}

// A fault comes through `?` with its layer.
fn number_of(bytes: &[u8]) -> Result<Option<u64>, Fault> {
    match Reader::new(bytes).read()? {
        Some(Packet::Sequenced { number, .. }) => Ok(Some(number)),
        _ => Ok(None),
    }
}

#[test]
fn layers(rt: HostRuntime) -> Result<(), Fail> {
    let Err(fault) = number_of(&[0, 0]) else {
        return Err(Fail::new("no fault"));
    };
    assert_eq!(rt; fault.layer(), Layer::Packet);
    assert_eq!(rt; fault.cause(), 1);
    Ok(())
}
