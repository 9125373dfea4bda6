//! Commands of a rehearsal.
use any_pair::{End, Part, Side};
use relay::{Call, Way};

/// Something that is done to a pair.
#[derive(Clone, Copy)]
pub enum Action<'a> {
    Call(Call<'a>),
    /// So many ticks.
    Ticks(u64),
    /// The seat is brought level with the hub.
    Level(Way),
    /// A stranger's bytes on a line.
    Stranger(Side, &'a [u8]),
}

/// Something that is asked.
#[derive(Clone, Copy)]
pub enum Question<'a> {
    /// How the pair stands.
    Pair,
    /// What waits on the lines.
    Wire,
    /// What a log holds.
    Log(End),
    /// The first bytes of the outgoing buffer.
    Out(usize),
    /// The saved form of a log, into a file.
    Save(End, &'a str),
}

/// What a line asks for.
#[derive(Clone, Copy)]
pub enum Command<'a> {
    Part(Part<'a>),
    /// A journal of so many bytes that holds what was saved in a file.
    Open {
        end: End,
        bytes: usize,
        file: &'a str,
    },
    SetUp,
    Action(Action<'a>),
    Question(Question<'a>),
}
