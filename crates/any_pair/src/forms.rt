//! Which parts a pair can have.
use pair::AccountTexts;

/// One of the two ends.
#[derive(Clone, Copy)]
pub enum End {
    Hub,
    Seat,
}

/// One of the two lines.
#[derive(Clone, Copy)]
pub enum Side {
    /// From the seat to the hub.
    Up,
    /// From the hub to the seat.
    Down,
}

/// What log is to be made.
#[derive(Clone, Copy)]
pub enum LogForm<'a> {
    /// A journal of so many bytes.
    Journal { bytes: usize },
    /// An indexed log with a pool of so many bytes and a table of so many ends.
    Indexed { pool: usize, table: usize },
    /// A journal of so many bytes that holds a saved one.
    Saved { bytes: usize, saved: &'a [u8] },
}

/// What line is to be made.
#[derive(Clone, Copy)]
pub enum LineForm {
    Ring { size: usize },
    Straight { size: usize },
    /// A pacing layer with this number over a ring of this size.
    PacedRing { pace: usize, size: usize },
    /// A pacing layer over a straight line.
    PacedStraight { pace: usize, size: usize },
}

/// A part of a pair that is to be made.
#[derive(Clone, Copy)]
pub enum Part<'a> {
    Log(End, LogForm<'a>),
    Line(Side, LineForm),
    /// A row more of the hub's table.
    Account(AccountTexts<'a>),
    /// What the seat logs in with; it is judged at set-up.
    Seat(AccountTexts<'a>),
    /// Buffers of these lengths: of the two frames, and the outgoing one.
    Buffers { hub: usize, seat: usize, out: usize },
}
