//! The statuses of a login response.
ghost use Rattle.std.specs.Prelude.{◌≡◌};
ghost use Rattle.wire.specs.Codes.{status_byte, status_of};

use crate::faults::{Field, PacketFault};
use std::fmt;

/// What a login response says of the login.
#[derive(Clone, Copy, PartialEq, Eq, Debug)]
pub enum Status {
    Accepted = b' ' as isize,
    UnknownUser = b'X' as isize,
    SessionUnavailable = b'S' as isize,
    InvalidNumber = b'N' as isize,
    WrongVersion = b'I' as isize,
    WrongProtocol = b'A' as isize,
    AlreadyLoggedIn = b'L' as isize,
}

/// The status as it stands in a packet.
impl From<Status> for u8 {
    ghost from_gives = { λ status b. b ≡ status_byte status };

    fn from(status: Status) -> u8 {
        status as u8
    }
}

/// The status that a byte writes.
impl TryFrom<u8> for Status {
    type Error = PacketFault;

    ghost try_from_gives = { λ b r. r ≡ status_of b };

    fn try_from(byte: u8) -> Result<Status, PacketFault> {
        match byte {
            b' ' => Ok(Status::Accepted),
            b'X' => Ok(Status::UnknownUser),
            b'S' => Ok(Status::SessionUnavailable),
            b'N' => Ok(Status::InvalidNumber),
            b'I' => Ok(Status::WrongVersion),
            b'A' => Ok(Status::WrongProtocol),
            b'L' => Ok(Status::AlreadyLoggedIn),
            _ => Err(PacketFault::WrongContent(Field::Status)),
        }
    }
}

// Written out: std derives no `Display`, and thiserror derives that of errors.
impl fmt::Display for Status {
    fn fmt<W: fmt::Write>(&self, f: &mut fmt::Formatter<W>) -> fmt::Result {
        f.write_str(match self {
            Status::Accepted => "accepted",
            Status::UnknownUser => "no such user and computer ID",
            Status::SessionUnavailable => "the session asked for is not available",
            Status::InvalidNumber => "the sequence number asked for is not valid",
            Status::WrongVersion => "another version of the session protocol",
            Status::WrongProtocol => "another application protocol",
            Status::AlreadyLoggedIn => "already logged in",
        })
    }
}
