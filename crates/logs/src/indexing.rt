//! A log over a pool of bytes and a table of 32-bit ends.
//!
//! Reading and adding a message take the same time whatever its number, beside the copy. Left out: how the pool and
//! the table are saved.
ghost use Rattle.std.specs.Prelude.{◌≡◌, ◌≤◌, length, vec_capacity};
ghost use Rattle.packed_messages.specs.Packed.{edge, Edges};
ghost use Rattle.packed_messages.specs.Shown.{packed_of};
ghost use Rattle.logs.specs.Pooled.{slots_limit};

use message_log::{Log, SIZE_LIMIT};
use packed_messages::{PackedMessages, copy_out, edge_at};
use wire::{Refusal, Unmade};

/// The largest pool, in bytes.
pub const POOL_LIMIT: usize = SIZE_LIMIT;

/// The longest table of ends.
pub const TABLE_LIMIT: usize = 1_048_576;

/// A log over a pool of bytes and a table of ends.
#[derive(Drop)]
pub struct Indexed {
    packed: PackedMessages<0, 0>,
    // The table holds the ends that there are. It is given with room for an end in each slot, and nothing is allocated
    // later.
    ends: Vec<u32>,
    ghost few: { (packed_of packed).slots ≤ slots_limit },
    ghost reserved: { (packed_of packed).slots ≤ vec_capacity ends },
    ghost whole: { length ends.items ≡ (packed_of packed).count },
    ghost edges: { Edges 0 0 (packed_of packed) (edge 0 ends.items) },
}

impl Indexed {
    ghost use Rattle.std.specs.Prelude.{true, [], vec_len};
    ghost use Rattle.wire.specs.Making.{Makes};
    ghost use Rattle.message_log.specs.Calls.{Lent};
    ghost use Rattle.logs.specs.Pooled.{makes, pooled};

    /// An empty log without a session over this pool and this table.
    pub fn new(pool: Vec<u8>, mut ends: Vec<u32>) -> Result<Indexed, Unmade<(Vec<u8>, Vec<u32>)>>
        ensures { let allowed = makes (vec_len pool) (vec_len ends) ≡ true in
            let empty = pooled (vec_len pool) (vec_len ends) 0 [] in
            Makes allowed (λ l. ⟦<Indexed as Log>⟧.view l ≡ empty) (pool, ends) result }
    {
        // The table gives its room: an entry of its length is a slot, and a cleared table keeps its capacity.
        let slots = ends.len();
        if slots > TABLE_LIMIT {
            return Err(Unmade {
                refusal: Refusal::SizeOutOfRange,
                given: (pool, ends),
            });
        }
        match PackedMessages::new(pool, 0, 0, slots, 0) {
            Ok(packed) => {
                ends.clear();
                Ok(Indexed { packed, ends })
            }
            Err(unmade) => Err(Unmade {
                refusal: unmade.refusal,
                given: (unmade.given, ends),
            }),
        }
    }

    /// Message n, where it lies.
    pub fn message(&self, n: usize) -> Result<&[u8], Refusal>
        ensures { Lent (⟦<Indexed as Log>⟧.view self.now) n result }
    {
        let k = self.packed.index_of(n)?;
        let start = edge_at(0, &self.ends, k);
        let end = edge_at(0, &self.ends, k + 1);
        Ok(&self.packed.memory()[start..end])
    }
}

impl Log for Indexed {
    ghost use Rattle.packed_messages.specs.Packed.{kept};
    ghost use Rattle.logs.specs.IndexedSound.{indexed_sound};

    ghost view = { λ s. kept 0 0 (packed_of s.packed) (edge 0 s.ends.items) };

    ghost sound = { indexed_sound };

    fn session(&self) -> u8 {
        self.packed.session()
    }

    fn count(&self) -> usize {
        self.packed.count()
    }

    fn length_of(&self, n: usize) -> Result<usize, Refusal> {
        Ok(self.message(n)?.len())
    }

    fn would_take(&self, bytes: usize) -> Result<(), Refusal> {
        self.packed.would_take(bytes)
    }

    fn begin(&mut self, session: u8) -> Result<(), Refusal> {
        self.packed.begin(session, [])?;
        self.ends.clear();
        Ok(())
    }

    fn append(&mut self, message: &[u8]) -> Result<(), Refusal> {
        self.packed.append([], message)?;
        self.ends.push_reserved(self.packed.used() as u32);
        Ok(())
    }

    fn read(&self, n: usize, buffer: &mut [u8]) -> Result<usize, Refusal> {
        copy_out(self.message(n)?, buffer)
    }
}
