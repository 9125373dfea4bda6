//! Reading a file into memory.
ghost use Rattle.std.specs.Prelude.{◌≡◌, nat_le};
ghost use Rattle.message_log.specs.Meaning.{size_limit};

use logs::JOURNAL_LIMIT;
use std::{fs, io};
use thiserror::Error;

/// Why a file was not read.
#[derive(Debug, Drop, Error)]
pub enum Unread {
    /// It is larger than any journal.
    #[error("not a journal: {0} bytes, and the largest has {largest}", largest = JOURNAL_LIMIT)]
    TooLarge(u64),
    /// It is missing, or cannot be read.
    #[error("not read: {0}")]
    Failed(#[from] io::Error),
}

/// Whether a file of so many bytes can be a saved journal.
fn can_be_journal(len: u64) -> bool
    ensures { result ≡ nat_le len size_limit }
{
    len <= JOURNAL_LIMIT as u64
}

/// The bytes of a file that is not larger than the largest journal.
pub fn load(rt: &HostRuntime, path: &str) -> Result<Vec<u8>, Unread> {
    let len = fs::metadata(rt, path)?.len();
    if !can_be_journal(len) {
        return Err(Unread::TooLarge(len));
    }
    Ok(fs::read(rt, path)?)
}
