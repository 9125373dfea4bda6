//! What keeps a command from being done.
use std::alloc::AllocError;
use std::io;
use thiserror::Error;
use wire::Refusal;

/// Why a line asks for nothing that can be done.
#[derive(Clone, Copy, Debug, Error)]
pub enum Malformed {
    #[error("no such command")]
    NoCommand,
    #[error("not a number, or too large")]
    NoNumber,
    #[error("not pairs of hexadecimal digits")]
    NoBytes,
    #[error("the pair is set up")]
    SetUp,
    #[error("the pair is not set up")]
    NotSetUp,
    #[error("not made yet")]
    NotMade,
    #[error("the outgoing buffer is shorter")]
    PastTheBuffer,
    #[error("it has no saved form")]
    NotSaved,
    #[error("the file cannot be read or written")]
    NoFile,
}

/// What keeps a command from being done.
#[derive(Debug, Drop, Error)]
pub enum Trouble {
    /// A call was refused.
    #[error(transparent)]
    Refused(#[from] Refusal),
    /// There is nothing to do.
    #[error(transparent)]
    Malformed(#[from] Malformed),
    /// The rehearsal cannot go on: its output failed, or there was no memory.
    #[error(transparent)]
    Failed(#[from] io::Error),
}

impl From<AllocError> for Trouble {
    fn from(error: AllocError) -> Trouble {
        Trouble::Failed(io::Error::from(error))
    }
}
