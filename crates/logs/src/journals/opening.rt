//! Making and opening a journal.
ghost use Rattle.std.specs.Prelude.{◌≡◌, ℕ, ◌≤◌, true, List, [], length, take, vec_len, IsOkAnd, MatchResult};
ghost use Rattle.wire.specs.declared.refusals.Refusal.TheVariants as R;
ghost use Rattle.wire.specs.Making.{Makes};
ghost use Rattle.message_log.specs.Meaning.{size_limit};
ghost use Rattle.logs.specs.Format.{saved};
ghost use Rattle.logs.specs.Layout.{makes, journal};
ghost use Rattle.logs.specs.Opening.{Savable, Broken, Scanned, Unopened, Opened, opens};

use super::heads::{index, note, session_record, slots_in};
use super::{JOURNAL_LEAST, JOURNAL_LIMIT, Journal, RECORD_HEAD};
use crate::reader::{read_message, read_session};
use message_log::Log;
use packed_messages::PackedMessages;
use std::alloc::Global;
use wire::{Refusal, Unmade, allow};

/// What the records in some bytes hold, and an index of the first of them.
#[derive(Drop)]
struct Scan {
    session: u8,
    count: usize,
    index: Vec<u32>,
}

/// Reads the records in these bytes, and notes in an empty index where they end.
fn read_records(bytes: &[u8], index: Vec<u32>) -> Result<Scan, Refusal>
    requires empty { index.items ≡ [] }
    requires small { length bytes.now ≤ size_limit }
    ensures { MatchResult result
        (λ s. Scanned bytes.now s.session s.count s.index.items)
        (λ e. (place : ℕ) × (e ≡ R.BrokenLog place) × Broken bytes.now place) }
{
    let Ok(session) = read_session(bytes) else {
        return Err(Refusal::BrokenLog(0));
    };
    let mut index = index;
    let mut count = 0;
    let mut at = JOURNAL_LEAST;
    while at < bytes.len() {
        let Ok(message) = read_message(&bytes[at..], session) else {
            return Err(Refusal::BrokenLog(at));
        };
        at += RECORD_HEAD + message.len();
        note(&mut index, count, at);
        count += 1;
    }
    Ok(Scan {
        session,
        count,
        index,
    })
}

/// Whether memory of so many bytes can be a journal of which so many are in use.
fn can_open(len: usize, used: usize) -> bool
    ensures { result ≡ opens len used }
{
    JOURNAL_LEAST <= len && len <= JOURNAL_LIMIT && used <= len
}

impl Journal {
    /// An empty journal without a session in this memory.
    pub fn new(heap: Global, memory: Vec<u8>) -> Result<Journal, Unmade<Vec<u8>>>
        ensures { let empty = journal (vec_len memory) 0 [] in
            let allowed = makes (vec_len memory) ≡ true in
            Makes allowed (λ j. ⟦<Journal as Log>⟧.view j ≡ empty) memory result }
    {
        let slots = slots_in(memory.len());
        let mut packed = PackedMessages::new(memory, JOURNAL_LEAST, 0, slots, 0)?;
        packed.lay_front(session_record(0));
        Ok(Journal {
            packed,
            index: index(heap, slots),
        })
    }

    /// The journal that the first `used` bytes of this memory hold.
    pub fn open(heap: Global, memory: Vec<u8>, used: usize) -> Result<Journal, Unmade<Vec<u8>>>
        ensures cases { MatchResult result
            (λ j. Opened memory.items used (⟦<Journal as Log>⟧.view j))
            (λ u. (u.given ≡ memory) × Unopened memory.items used u.refusal) }
        ensures back { (s : ℕ) (ms : List (List ℕ)) →
            Savable s ms →
            opens (vec_len memory) used ≡ true →
            take used memory.items ≡ saved s ms →
            IsOkAnd result (λ j. ⟦<Journal as Log>⟧.view j ≡ journal (vec_len memory) s ms) }
    {
        let len = memory.len();
        // Memory and how much of it is used: a journal goes on in memory that is longer than what was saved.
        let memory = allow(can_open(len, used), memory)?;
        let slots = slots_in(len);
        match read_records(&memory[..used], index(heap, slots)) {
            Ok(scan) => Ok(Journal {
                packed: PackedMessages::new(memory, used, scan.count, slots, scan.session)?,
                index: scan.index,
            }),
            Err(refusal) => Err(Unmade {
                refusal,
                given: memory,
            }),
        }
    }
}
