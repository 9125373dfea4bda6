//! The twelve letters, each with the length numbers that its packets may have.
ghost use Rattle.std.specs.Prelude.{◌≡◌};
ghost use Rattle.wire.specs.Letters.{letter_byte, letter_of, shortest, longest, allowed};

use crate::faults::PacketFault;
use crate::limits::{LENGTH_LIMIT, MESSAGE_LIMIT};
use std::fmt;

/// The letter of a packet, which says what the packet is.
#[derive(Clone, Copy, PartialEq, Eq, Debug)]
pub enum Letter {
    LoginRequest = b'L' as isize,
    LoginResponse = b'R' as isize,
    Sequenced = b'S' as isize,
    Unsequenced = b'U' as isize,
    SynchronizationComplete = b'C' as isize,
    RetransmissionRequest = b'A' as isize,
    LogoutRequest = b'X' as isize,
    GoodBye = b'G' as isize,
    EndOfSession = b'E' as isize,
    HubHeartbeat = b'0' as isize,
    SeatHeartbeat = b'1' as isize,
    Test = b'T' as isize,
}

/// All letters, in the order of the table of packets.
pub const LETTERS: [Letter; 12] = [
    Letter::LoginRequest,
    Letter::LoginResponse,
    Letter::Sequenced,
    Letter::Unsequenced,
    Letter::SynchronizationComplete,
    Letter::RetransmissionRequest,
    Letter::LogoutRequest,
    Letter::GoodBye,
    Letter::EndOfSession,
    Letter::HubHeartbeat,
    Letter::SeatHeartbeat,
    Letter::Test,
];

/// The letter as it stands in a packet.
impl From<Letter> for u8 {
    ghost from_gives = { λ letter b. b ≡ letter_byte letter };

    fn from(letter: Letter) -> u8 {
        letter as u8
    }
}

/// The letter that a byte writes.
impl TryFrom<u8> for Letter {
    type Error = PacketFault;

    ghost try_from_gives = { λ b r. r ≡ letter_of b };

    #[inline(always)]
    fn try_from(byte: u8) -> Result<Letter, PacketFault> {
        match byte {
            b'L' => Ok(Letter::LoginRequest),
            b'R' => Ok(Letter::LoginResponse),
            b'S' => Ok(Letter::Sequenced),
            b'U' => Ok(Letter::Unsequenced),
            b'C' => Ok(Letter::SynchronizationComplete),
            b'A' => Ok(Letter::RetransmissionRequest),
            b'X' => Ok(Letter::LogoutRequest),
            b'G' => Ok(Letter::GoodBye),
            b'E' => Ok(Letter::EndOfSession),
            b'0' => Ok(Letter::HubHeartbeat),
            b'1' => Ok(Letter::SeatHeartbeat),
            b'T' => Ok(Letter::Test),
            _ => Err(PacketFault::UnknownLetter),
        }
    }
}

impl Letter {
    /// The smallest length number of a packet with this letter.
    #[inline(always)]
    pub fn shortest(self) -> usize
        ensures { result ≡ shortest self }
    {
        match self {
            Letter::LoginRequest => 36,
            Letter::LoginResponse => 11,
            Letter::Sequenced => 9,
            Letter::RetransmissionRequest => 17,
            Letter::LogoutRequest | Letter::GoodBye => 2,
            _ => 1,
        }
    }

    /// The largest length number of a packet with this letter.
    #[inline(always)]
    pub fn longest(self) -> usize
        ensures { result ≡ longest self }
    {
        match self {
            Letter::Unsequenced => MESSAGE_LIMIT + 1,
            Letter::Sequenced | Letter::LogoutRequest | Letter::GoodBye | Letter::Test =>
                LENGTH_LIMIT,
            _ => self.shortest(),
        }
    }

    /// Whether a packet with this letter may have this length number.
    #[inline(always)]
    pub fn allows(self, length: usize) -> bool
        ensures { result ≡ allowed self length }
    {
        self.shortest() <= length && length <= self.longest()
    }
}

// Written out: std derives no `Display`, and thiserror derives that of errors.
impl fmt::Display for Letter {
    fn fmt<W: fmt::Write>(&self, f: &mut fmt::Formatter<W>) -> fmt::Result {
        f.write_str(match self {
            Letter::LoginRequest => "Login Request",
            Letter::LoginResponse => "Login Response",
            Letter::Sequenced => "Sequenced Data",
            Letter::Unsequenced => "Unsequenced Data",
            Letter::SynchronizationComplete => "Synchronization Complete",
            Letter::RetransmissionRequest => "Retransmission Request",
            Letter::LogoutRequest => "Logout Request",
            Letter::GoodBye => "GoodBye",
            Letter::EndOfSession => "End of Session",
            Letter::HubHeartbeat => "Server Heartbeat",
            Letter::SeatHeartbeat => "Client Heartbeat",
            Letter::Test => "Test",
        })
    }
}
