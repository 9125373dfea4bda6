//! The journal itself.
ghost use Rattle.packed_messages.specs.Packed.{Edges};
ghost use Rattle.packed_messages.specs.Shown.{packed_of};
ghost use Rattle.logs.specs.Layout.{base, gap, walked, Slotted, Formed, Indexes};

pub mod entries;
mod heads;
pub mod opening;

use message_log::SIZE_LIMIT;
use packed_messages::PackedMessages;

/// The least memory of a journal, in bytes: the session record.
pub const JOURNAL_LEAST: usize = 5;

/// The largest memory of a journal, in bytes.
pub const JOURNAL_LIMIT: usize = SIZE_LIMIT;

/// What a message takes beside its bytes: the mark and the length.
const RECORD_HEAD: usize = 4;

/// A log kept as records in one run of bytes.
#[derive(Drop)]
pub struct Journal {
    packed: PackedMessages<JOURNAL_LEAST, RECORD_HEAD>,
    // Where the first records end, as far as there was memory to note it. It makes reading fast, and is no part of what
    // the journal means: behind it, reading goes from record to record.
    index: Vec<u32>,
    ghost slotted: { Slotted (packed_of packed) },
    ghost edges: { Edges base gap (packed_of packed) (walked (packed_of packed).memory) },
    ghost form: { Formed (packed_of packed) },
    ghost indexed: { Indexes (packed_of packed).memory index.items (packed_of packed).count },
}
