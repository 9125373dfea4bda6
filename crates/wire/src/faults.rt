//! Faults: the layer that found one, its cause and its place.
ghost use Rattle.std.specs.Prelude.{◌≡◌};
ghost use Rattle.wire.specs.Faults.{field_place, packet_cause, packet_place, log_cause, log_place, layer_of, cause_of, place_of};
ghost use Rattle.wire.specs.declared.faults.Fault.TheVariants as F;

use std::fmt;
use thiserror::Error;

/// A field of a packet that can have a wrong content.
#[derive(Clone, Copy, PartialEq, Eq, Debug)]
pub enum Field {
    /// The status of a login response.
    Status,
    /// The reason of a logout request or a GoodBye.
    Reason,
    /// The session of a login response.
    Session,
    /// The sequence number of a sequenced packet.
    SequenceNumber,
    /// The start of a retransmission request.
    Start,
    /// The end of a retransmission request.
    End,
}

/// What is wrong with a packet.
#[derive(Clone, Copy, PartialEq, Eq, Debug, Error)]
pub enum PacketFault {
    /// The length number is 0.
    #[error("the length number is 0")]
    LengthZero,
    /// The length number is over the largest one.
    #[error("the length number is over the largest one")]
    LengthOverLimit,
    /// No packet has this letter.
    #[error("no packet has this letter")]
    UnknownLetter,
    /// The letter is not for this end, or not for its phase.
    #[error("the letter is not for this end or its phase")]
    OutOfPlace,
    /// The letter does not have this length.
    #[error("the length is wrong for the letter")]
    WrongLength,
    /// A field holds what it must not hold.
    #[error("the {0} is not one that is listed")]
    WrongContent(Field),
}

/// What is wrong with a log.
#[derive(Clone, Copy, PartialEq, Eq, Debug, Error)]
pub enum LogFault {
    /// It has no room or no slot for one message more.
    #[error("the log is full")]
    Full,
}

/// The layer that found a fault.
#[derive(Clone, Copy, PartialEq, Eq, Debug)]
pub enum Layer {
    Packet,
    Log,
}

/// A fault of either layer.
#[derive(Clone, Copy, PartialEq, Eq, Debug, Error)]
pub enum Fault {
    #[error(transparent)]
    Packet(PacketFault),
    #[error(transparent)]
    Log(LogFault),
}

impl Field {
    /// Where the field begins, counted from its packet's first byte.
    pub fn place(self) -> usize
        ensures { result ≡ field_place self }
    {
        match self {
            Field::Status | Field::Reason | Field::SequenceNumber | Field::Start => 3,
            Field::Session => 4,
            Field::End => 11,
        }
    }
}

impl PacketFault {
    /// The number of the cause, from 1 to 6.
    pub fn cause(self) -> u8
        ensures { result ≡ packet_cause self }
    {
        match self {
            PacketFault::LengthZero => 1,
            PacketFault::LengthOverLimit => 2,
            PacketFault::UnknownLetter => 3,
            PacketFault::OutOfPlace => 4,
            PacketFault::WrongLength => 5,
            PacketFault::WrongContent(_) => 6,
        }
    }

    /// Where in the packet it is, counted from the packet's first byte.
    pub fn place(self) -> usize
        ensures { result ≡ packet_place self }
    {
        match self {
            PacketFault::LengthZero | PacketFault::LengthOverLimit | PacketFault::WrongLength => 0,
            PacketFault::UnknownLetter | PacketFault::OutOfPlace => 2,
            PacketFault::WrongContent(field) => field.place(),
        }
    }
}

impl LogFault {
    /// The number of the cause.
    pub fn cause(self) -> u8
        ensures { result ≡ log_cause self }
    {
        match self {
            LogFault::Full => 21,
        }
    }

    /// Where in the log it is.
    pub fn place(self) -> usize
        ensures { result ≡ log_place self }
    {
        match self {
            LogFault::Full => 0,
        }
    }
}

impl Fault {
    /// The layer that found it.
    pub fn layer(self) -> Layer
        ensures { result ≡ layer_of self }
    {
        match self {
            Fault::Packet(_) => Layer::Packet,
            Fault::Log(_) => Layer::Log,
        }
    }

    /// The number of its cause, which its layer gives.
    pub fn cause(self) -> u8
        ensures { result ≡ cause_of self }
    {
        match self {
            Fault::Packet(fault) => fault.cause(),
            Fault::Log(fault) => fault.cause(),
        }
    }

    /// Its place, which its layer gives.
    pub fn place(self) -> usize
        ensures { result ≡ place_of self }
    {
        match self {
            Fault::Packet(fault) => fault.place(),
            Fault::Log(fault) => fault.place(),
        }
    }
}

// Written out and not derived: the contract of a caller says which fault `?` makes, and a derived `From` has none.
impl From<PacketFault> for Fault {
    ghost from_gives = { λ f r. r ≡ F.Packet f };

    fn from(fault: PacketFault) -> Fault {
        Fault::Packet(fault)
    }
}

impl From<LogFault> for Fault {
    ghost from_gives = { λ f r. r ≡ F.Log f };

    fn from(fault: LogFault) -> Fault {
        Fault::Log(fault)
    }
}

// Written out, as that of `Layer`: std derives no `Display`, and thiserror derives that of errors.
impl fmt::Display for Field {
    fn fmt<W: fmt::Write>(&self, f: &mut fmt::Formatter<W>) -> fmt::Result {
        f.write_str(match self {
            Field::Status => "status",
            Field::Reason => "reason",
            Field::Session => "session",
            Field::SequenceNumber => "sequence number",
            Field::Start => "start",
            Field::End => "end",
        })
    }
}

impl fmt::Display for Layer {
    fn fmt<W: fmt::Write>(&self, f: &mut fmt::Formatter<W>) -> fmt::Result {
        f.write_str(match self {
            Layer::Packet => "packet",
            Layer::Log => "log",
        })
    }
}
