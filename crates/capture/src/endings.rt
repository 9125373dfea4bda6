//! How a capture ended, and what it held.
use packet::LetterCounts;
use wire::Fault;

/// How a capture ended.
#[derive(Clone, Copy, PartialEq, Eq, Debug)]
pub enum Ending {
    /// Right after a packet, or before the first one.
    Clean,
    /// Within a packet, of which so many bytes are there.
    Part(usize),
    /// With a fault at the front of what is left.
    Fault(Fault),
}

/// What a capture held.
#[derive(Clone, Copy)]
pub struct Summary {
    pub tally: LetterCounts,
    /// How many bytes the packets took.
    pub offset: u64,
    pub ending: Ending,
}
