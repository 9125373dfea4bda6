//! What the heads of records say, and an index of where records end.
ghost use Rattle.std.specs.Prelude.{◌≡◌, ◌+◌, ◌≤◌, [], length};
ghost use Rattle.message_log.specs.Meaning.{size_limit};
ghost use Rattle.logs.specs.Format.{session_record};
ghost use Rattle.logs.specs.Layout.{gap, slots_of, record_end, Notes};

use super::{JOURNAL_LEAST, RECORD_HEAD};
use crate::records::Mark;
use std::alloc::Global;

/// The record of a session.
pub(super) fn session_record(session: u8) -> [u8; JOURNAL_LEAST]
    ensures { result ≡ session_record session }
{
    let [first, second, low, high] = Mark::Session.head(1);
    [first, second, low, high, session]
}

/// Where the record at this offset ends: its head says how long its body is.
pub(super) fn record_end(memory: &[u8], at: usize) -> usize
    requires { (at + gap ≤ length memory.now) × (length memory.now ≤ size_limit) }
    ensures { result ≡ record_end memory.now at }
{
    let length = u16::from_le_bytes([memory[at + 2], memory[at + 3]]);
    at + RECORD_HEAD + usize::from(length)
}

/// How many messages a journal of so many bytes can hold.
pub(super) fn slots_in(len: usize) -> usize
    ensures { result ≡ slots_of len }
{
    len.saturating_sub(JOURNAL_LEAST) / RECORD_HEAD
}

/// An empty index with room for so many records, or for half as many, and so on, as there is memory.
pub(super) fn index(heap: Global, slots: usize) -> Vec<u32>
    ensures { result.items ≡ [] }
{
    let mut room = slots;
    while room > 0 {
        if let Ok(index) = Vec::with_capacity(heap, room) {
            return index;
        }
        room /= 2;
    }
    Vec::new(heap)
}

/// Notes where a record ends, if every record before it is noted and there is room.
pub(super) fn note(index: &mut Vec<u32>, before: usize, end: usize)
    requires { end ≤ size_limit }
    ensures { Notes index.old.items before end index.new.items }
{
    if index.len() == before && before < index.capacity() {
        index.push_reserved(end as u32);
    }
}
