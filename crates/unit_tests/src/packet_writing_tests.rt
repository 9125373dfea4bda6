//! What a writer writes and refuses.
use packet::{Login, Packet};
use std::test::Fail;
use wire::{GoodByeReason, PacketFault, Refusal};

#[test]
fn sequenced(rt: HostRuntime) {
    let mut out = [7u8; 15];
    assert_eq!(rt;
        Packet::Sequenced {
            number: 258,
            message: b"AB",
        }
        .write(&mut out),
        Ok(13)
    );
    assert_eq!(rt;
        out,
        [11, 0, b'S', 2, 1, 0, 0, 0, 0, 0, 0, b'A', b'B', 7, 7]
    );
}

#[test]
fn short_buffers(rt: HostRuntime) {
    let mut out = [7u8; 12];
    assert_eq!(rt;
        Packet::Sequenced {
            number: 1,
            message: b"AB",
        }
        .write(&mut out),
        Err(Refusal::ShortBuffer)
    );
    assert_eq!(rt; out, [7u8; 12]);
    assert_eq!(rt; Refusal::ShortBuffer.number(), 14);
}

// A login whose user is a byte short and whose protocol is a byte long has a good length number, and would
// be read back as another.
#[test]
fn widths(rt: HostRuntime) {
    let login = Login {
        version: b"1.1  ",
        user: b"MM01",
        computer: b"DESK0001",
        protocol: b"MEI1.0   ",
        session: 0,
        number: 1,
    };
    let mut out = [7u8; 40];
    let answer = Packet::LoginRequest(login).write(&mut out);
    assert_eq!(rt; answer, Err(Refusal::BadPacket(PacketFault::WrongLength)));
    assert_eq!(rt; out, [7u8; 40]);
}

#[test]
fn limits(rt: HostRuntime) -> Result<(), Fail> {
    let heap = rt.alloc();
    let mut out = vec![in heap; 7u8; 4200]?;
    let text = vec![in heap; 0x61u8; 4104]?;
    assert!(rt; text.len() == 4104);
    let over = PacketFault::LengthOverLimit;
    let wrong = PacketFault::WrongLength;
    let message = &text[0..4096];
    let longer = &text[0..4097];
    assert_eq!(rt;
        Packet::Sequenced {
            number: 1,
            message: longer,
        }
        .write(&mut out),
        Err(Refusal::BadPacket(over))
    );
    assert_eq!(rt;
        Packet::Unsequenced { message: longer }.write(&mut out),
        Err(Refusal::BadPacket(wrong))
    );
    let reason = GoodByeReason::BadPacket;
    assert_eq!(rt;
        Packet::GoodBye {
            reason,
            text: &text,
        }
        .write(&mut out),
        Err(Refusal::BadPacket(over))
    );
    assert_eq!(rt; Refusal::BadPacket(over).number(), 18);
    assert_eq!(rt; out[0], 7);
    assert_eq!(rt;
        Packet::Sequenced { number: 1, message }.write(&mut out),
        Ok(4107)
    );
    assert_eq!(rt; Packet::Unsequenced { message }.write(&mut out), Ok(4099));
    assert_eq!(rt;
        Packet::GoodBye {
            reason,
            text: &text[0..4103],
        }
        .write(&mut out),
        Ok(4107)
    );
    Ok(())
}
