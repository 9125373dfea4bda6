//! What a packet says.
ghost use Rattle.std.specs.Prelude.{◌≡◌};
ghost use Rattle.packet.specs.Values.{letter};
ghost use Rattle.packet.specs.Meanings.{value_of};

use wire::{GoodByeReason, Letter, LogoutReason, Status};

/// What a seat says when it logs in. The four texts are padded with spaces on the right.
#[derive(Clone, Copy)]
pub struct Login<'a> {
    /// The version of the session protocol, 5 bytes.
    pub version: &'a [u8],
    /// The user name, 5 bytes.
    pub user: &'a [u8],
    /// The computer ID, 8 bytes.
    pub computer: &'a [u8],
    /// The application protocol, 8 bytes.
    pub protocol: &'a [u8],
    /// The session asked for; 0 asks for the one that is running.
    pub session: u8,
    /// The first sequence number asked for; 0 asks for new messages only.
    pub number: u64,
}

/// A packet: a case for each letter.
#[derive(Clone, Copy)]
pub enum Packet<'a> {
    LoginRequest(Login<'a>),
    LoginResponse {
        status: Status,
        session: u8,
        highest: u64,
    },
    Sequenced {
        number: u64,
        message: &'a [u8],
    },
    Unsequenced {
        message: &'a [u8],
    },
    SynchronizationComplete,
    RetransmissionRequest {
        start: u64,
        end: u64,
    },
    LogoutRequest {
        reason: LogoutReason,
        text: &'a [u8],
    },
    GoodBye {
        reason: GoodByeReason,
        text: &'a [u8],
    },
    EndOfSession,
    HubHeartbeat,
    SeatHeartbeat,
    Test {
        text: &'a [u8],
    },
}

impl Packet<'_> {
    /// The packet's letter.
    #[inline(always)]
    pub fn letter(self) -> Letter
        ensures { result ≡ letter (value_of self.entry) }
    {
        match self {
            Packet::LoginRequest(_) => Letter::LoginRequest,
            Packet::LoginResponse { .. } => Letter::LoginResponse,
            Packet::Sequenced { .. } => Letter::Sequenced,
            Packet::Unsequenced { .. } => Letter::Unsequenced,
            Packet::SynchronizationComplete => Letter::SynchronizationComplete,
            Packet::RetransmissionRequest { .. } => Letter::RetransmissionRequest,
            Packet::LogoutRequest { .. } => Letter::LogoutRequest,
            Packet::GoodBye { .. } => Letter::GoodBye,
            Packet::EndOfSession => Letter::EndOfSession,
            Packet::HubHeartbeat => Letter::HubHeartbeat,
            Packet::SeatHeartbeat => Letter::SeatHeartbeat,
            Packet::Test { .. } => Letter::Test,
        }
    }
}
