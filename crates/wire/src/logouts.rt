//! The reasons of a logout request.
ghost use Rattle.std.specs.Prelude.{◌≡◌};
ghost use Rattle.wire.specs.Codes.{logout_byte, logout_of};

use crate::faults::{Field, PacketFault};
use std::fmt;

/// Why a seat logs out.
#[derive(Clone, Copy, PartialEq, Eq, Debug)]
pub enum LogoutReason {
    Done = b' ' as isize,
    BadPacket = b'B' as isize,
    LoginTimeout = b'L' as isize,
    Terminating = b'A' as isize,
}

/// The reason as it stands in a packet.
impl From<LogoutReason> for u8 {
    ghost from_gives = { λ reason b. b ≡ logout_byte reason };

    fn from(reason: LogoutReason) -> u8 {
        reason as u8
    }
}

/// The reason that a byte writes.
impl TryFrom<u8> for LogoutReason {
    type Error = PacketFault;

    ghost try_from_gives = { λ b r. r ≡ logout_of b };

    fn try_from(byte: u8) -> Result<LogoutReason, PacketFault> {
        match byte {
            b' ' => Ok(LogoutReason::Done),
            b'B' => Ok(LogoutReason::BadPacket),
            b'L' => Ok(LogoutReason::LoginTimeout),
            b'A' => Ok(LogoutReason::Terminating),
            _ => Err(PacketFault::WrongContent(Field::Reason)),
        }
    }
}

// Written out: std derives no `Display`, and thiserror derives that of errors.
impl fmt::Display for LogoutReason {
    fn fmt<W: fmt::Write>(&self, f: &mut fmt::Formatter<W>) -> fmt::Result {
        f.write_str(match self {
            LogoutReason::Done => "done for now",
            LogoutReason::BadPacket => "bad packet",
            LogoutReason::LoginTimeout => "no login in time",
            LogoutReason::Terminating => "the application is terminating",
        })
    }
}
