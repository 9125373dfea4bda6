//! The reasons of a GoodBye.
ghost use Rattle.std.specs.Prelude.{◌≡◌};
ghost use Rattle.wire.specs.Codes.{good_bye_byte, good_bye_of};

use crate::faults::{Field, PacketFault};
use std::fmt;

/// Why a hub says GoodBye. A type of its own beside `LogoutReason`, since no GoodBye says `Done`.
#[derive(Clone, Copy, PartialEq, Eq, Debug)]
pub enum GoodByeReason {
    BadPacket = b'B' as isize,
    LoginTimeout = b'L' as isize,
    Terminating = b'A' as isize,
}

/// The reason as it stands in a packet.
impl From<GoodByeReason> for u8 {
    ghost from_gives = { λ reason b. b ≡ good_bye_byte reason };

    fn from(reason: GoodByeReason) -> u8 {
        reason as u8
    }
}

/// The reason that a byte writes.
impl TryFrom<u8> for GoodByeReason {
    type Error = PacketFault;

    ghost try_from_gives = { λ b r. r ≡ good_bye_of b };

    fn try_from(byte: u8) -> Result<GoodByeReason, PacketFault> {
        match byte {
            b'B' => Ok(GoodByeReason::BadPacket),
            b'L' => Ok(GoodByeReason::LoginTimeout),
            b'A' => Ok(GoodByeReason::Terminating),
            _ => Err(PacketFault::WrongContent(Field::Reason)),
        }
    }
}

// Written out: std derives no `Display`, and thiserror derives that of errors.
impl fmt::Display for GoodByeReason {
    fn fmt<W: fmt::Write>(&self, f: &mut fmt::Formatter<W>) -> fmt::Result {
        f.write_str(match self {
            GoodByeReason::BadPacket => "bad packet",
            GoodByeReason::LoginTimeout => "no login in time",
            GoodByeReason::Terminating => "the application is terminating",
        })
    }
}
