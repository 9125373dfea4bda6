//! What calls answer.
use wire::{Fault, Letter, Refusal};

/// What a granted receive did.
#[derive(Clone, Copy)]
pub enum Received {
    /// Nothing waited.
    Nothing,
    /// Bytes were taken, and the packet is not whole yet.
    Part,
    /// A packet with this letter was acted on.
    Acted(Letter),
    /// An unsequenced packet was read: its message stands in the frame, at this offset, this long.
    // Two numbers and no slice: the frame is lent anew to each call, so no answer borrows from it.
    Message { offset: usize, length: usize },
}

/// What an end did with what waited for it.
#[derive(Clone, Copy)]
pub struct Heard {
    /// How many packets it acted on.
    pub packets: usize,
    /// What was wrong, if something was.
    pub fault: Option<Fault>,
}

/// What a round did.
#[derive(Clone, Copy)]
pub struct Report {
    pub hub: Heard,
    pub seat: Heard,
}

/// What a call answered.
#[derive(Clone, Copy)]
pub enum Answer {
    /// What a call answered that takes nothing and is no send.
    Done(Result<(), Refusal>),
    /// What a receive answered.
    Received(Result<Received, Refusal>),
    /// What a send answered: the letter of the packet, if one was due.
    Sent(Result<Option<Letter>, Refusal>),
    /// What a round answered.
    Round(Result<Report, Refusal>),
}
