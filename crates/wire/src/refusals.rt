//! Refusals, and the numbers by which other programs know them.
ghost use Rattle.std.specs.Prelude.{◌≡◌};
ghost use Rattle.wire.specs.Refusals.{number, fault_of, refusal_of};
ghost use Rattle.wire.specs.declared.refusals.Refusal.TheVariants as R;

use crate::faults::{Fault, LogFault, PacketFault};
use std::alloc::AllocError;
use thiserror::Error;

/// Why a call was refused. First what the call was given, then what it met, each in the order in which a
/// call reports them.
#[derive(Clone, Copy, PartialEq, Eq, Debug, Error)]
pub enum Refusal {
    /// A message is longer than the longest one.
    #[error("the message is too long")]
    MessageTooLong,
    /// Session 0 stands for no session and cannot be begun.
    #[error("session 0 cannot be begun")]
    SessionZero,
    /// No message has this number.
    #[error("no message has this number")]
    NoSuchMessage,
    /// A buffer is too short for what is to stand in it.
    #[error("the buffer is too short")]
    ShortBuffer,
    /// A memory, a size or a count is outside what the rules allow.
    #[error("a size is outside the rules")]
    SizeOutOfRange,
    /// An account's field is empty, too wide, or holds a byte that is no visible ASCII.
    #[error("an account field is empty, too wide or not visible ASCII")]
    BadAccountField,
    /// A saved log is broken at the record that begins at this place.
    #[error("the log is broken at place {0}")]
    BrokenLog(usize),
    /// A packet is faulty, or would be read back as another or as none.
    #[error("bad packet: {0}")]
    BadPacket(PacketFault),
    /// The log has no room or no slot for one message more.
    #[error("the log is full")]
    LogFull,
    /// The line has no room for this.
    #[error("the line lacks room")]
    LineFull,
    /// The end's phase does not allow the call.
    #[error("wrong phase")]
    WrongPhase,
    /// The session is finished.
    #[error("the session is finished")]
    SessionFinished,
    /// The hub is at work on a connection.
    #[error("the hub is at work on a connection")]
    HubBusy,
    /// No session comes after the last one.
    #[error("no session comes after the last one")]
    LastSession,
    /// The log bears no session.
    #[error("the log bears no session")]
    NoSession,
    /// The end of a fetch is not above what the seat holds.
    #[error("the end of the fetch is not above what is held")]
    NothingToFetch,
    /// The account table is full, or a row of it matches.
    #[error("the account table is full or holds a row that matches")]
    AccountTaken,
    /// There was no memory for what the call makes.
    #[error("no memory")]
    OutOfMemory,
}

impl Refusal {
    /// The number of the refusal.
    pub fn number(self) -> u8
        ensures { result ≡ number self }
    {
        match self {
            Refusal::MessageTooLong => 11,
            Refusal::SessionZero => 12,
            Refusal::NoSuchMessage => 13,
            Refusal::ShortBuffer => 14,
            Refusal::SizeOutOfRange => 15,
            Refusal::BadAccountField => 16,
            Refusal::BrokenLog(_) => 17,
            Refusal::BadPacket(_) => 18,
            Refusal::LogFull => LogFault::Full.cause(),
            Refusal::LineFull => 22,
            Refusal::WrongPhase => 23,
            Refusal::SessionFinished => 24,
            Refusal::HubBusy => 25,
            Refusal::LastSession => 26,
            Refusal::NoSession => 27,
            Refusal::NothingToFetch => 28,
            Refusal::AccountTaken => 29,
            Refusal::OutOfMemory => 30,
        }
    }

    /// The fault that it reports, if it reports one: a bad packet, or a full log.
    pub fn fault(self) -> Option<Fault>
        ensures { result ≡ fault_of self }
    {
        match self {
            Refusal::BadPacket(fault) => Some(Fault::Packet(fault)),
            Refusal::LogFull => Some(Fault::Log(LogFault::Full)),
            _ => None,
        }
    }
}

// Written out and not derived, as the next one and those of `Fault`: a derived `From` has no contract.
impl From<PacketFault> for Refusal {
    ghost from_gives = { λ f r. r ≡ R.BadPacket f };

    fn from(fault: PacketFault) -> Refusal {
        Refusal::BadPacket(fault)
    }
}

impl From<LogFault> for Refusal {
    ghost from_gives = { λ _ r. r ≡ R.LogFull };

    fn from(_fault: LogFault) -> Refusal {
        Refusal::LogFull
    }
}

impl From<Fault> for Refusal {
    ghost from_gives = { λ f r. r ≡ refusal_of f };

    fn from(fault: Fault) -> Refusal {
        match fault {
            Fault::Packet(fault) => Refusal::from(fault),
            Fault::Log(fault) => Refusal::from(fault),
        }
    }
}

/// Lets `?` pass on a want of memory.
impl From<AllocError> for Refusal {
    ghost from_gives = { λ _ r. r ≡ R.OutOfMemory };

    fn from(_error: AllocError) -> Refusal {
        Refusal::OutOfMemory
    }
}
