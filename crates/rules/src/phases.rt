//! The phases of the two ends, and the ways to connect.
use wire::Status;

/// Where the hub stands with its connection.
#[derive(Clone, Copy)]
pub enum HubPhase {
    /// There is no connection.
    Shut,
    /// A seat has connected, and its login request is awaited.
    Waiting,
    /// A login was accepted and is to be answered; it asked for messages from this number.
    Answering { asked: u64 },
    /// A login was rejected and is to be answered.
    Rejecting { status: Status },
    /// Messages are sent from the number asked for: the next one, and whether synchronization complete is
    /// still owed.
    Serving { asked: u64, next: u64, owed: bool },
    /// A retransmission is sent: the next number, and the last.
    Filling { next: u64, last: u64 },
}

/// Where the seat stands with its connection.
#[derive(Clone, Copy)]
pub enum SeatPhase {
    /// There is no connection.
    Apart,
    /// The login request is written, and its answer awaited.
    Asking,
    /// The login was accepted.
    Live,
}

/// How a seat connects.
#[derive(Clone, Copy)]
pub enum How {
    /// It goes on in the session of its log, from the message after those that it holds.
    Join,
    /// It takes the session that is running, from the first message.
    Anew,
    /// It asks for the messages of its session up to this number, and for no live stream.
    Fetch(u64),
}
