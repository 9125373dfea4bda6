//! Marks, records, and what can be wrong with one.
ghost use Rattle.std.specs.Prelude.{◌≡◌, slice_index};
ghost use Rattle.logs.specs.Format.{mark_bytes, head_of};
ghost use Rattle.logs.specs.Reading.{mark_of};

use thiserror::Error;

/// The mark of the record of a session.
const SESSION_MARK: [u8; 2] = *b"BS";

/// The mark of the record of a message.
const MESSAGE_MARK: [u8; 2] = *b"MG";

/// What a record holds.
#[derive(Clone, Copy)]
pub enum Mark {
    Session,
    Message,
}

/// What is wrong with a record, in the order in which it is judged.
#[derive(Clone, Copy, PartialEq, Eq, Debug, Error)]
pub enum RecordFault {
    /// Its head or its body runs past the end.
    #[error("the record runs past the end")]
    CutShort,
    /// It has a mark that no record has.
    #[error("no record has this mark")]
    UnknownMark,
    /// The session record is missing at the front, is not of length 1, or is repeated.
    #[error("the session record is missing, not of length 1, or repeated")]
    BadSession,
    /// It holds a message that is too long.
    #[error("the message is too long")]
    MessageTooLong,
    /// It holds a message, and the session is 0.
    #[error("the log holds a message under session 0")]
    NoSession,
}

/// A record: its mark, and its body as a part of the bytes given.
#[derive(Drop)]
pub struct Record<'a> {
    pub mark: Mark,
    pub body: &'a [u8],
}

/// The mark that is written by two bytes.
impl TryFrom<[u8; 2]> for Mark {
    type Error = RecordFault;

    ghost try_from_gives = { λ bytes r. r ≡ mark_of (slice_index bytes 0) (slice_index bytes 1) };

    fn try_from(bytes: [u8; 2]) -> Result<Mark, RecordFault> {
        match bytes {
            SESSION_MARK => Ok(Mark::Session),
            MESSAGE_MARK => Ok(Mark::Message),
            _ => Err(RecordFault::UnknownMark),
        }
    }
}

/// The two bytes that write a mark.
impl From<Mark> for [u8; 2] {
    ghost from_gives = { λ mark r. r ≡ mark_bytes mark };

    fn from(mark: Mark) -> [u8; 2] {
        match mark {
            Mark::Session => SESSION_MARK,
            Mark::Message => MESSAGE_MARK,
        }
    }
}

impl Mark {
    /// The four bytes before a body of this length.
    pub fn head(self, length: usize) -> [u8; 4]
        ensures { result ≡ head_of self length }
    {
        let [first, second]: [u8; 2] = self.into();
        let [low, high] = ((length % 65_536) as u16).to_le_bytes();
        [first, second, low, high]
    }
}
