//! The ring, and how it is a line.
ghost use Rattle.std.specs.Prelude.{◌≡◌, vec_len};
ghost use Rattle.std.proofs.Common.{sym};
ghost use Rattle.line.specs.Lines.{fresh};
ghost use Rattle.wire.specs.Making.{Makes};
ghost use Rattle.line.specs.Sizes.{LineSize};
ghost use Rattle.wire.specs.Limits.{packet_limit};
ghost use Rattle.lines.specs.Rings.{InRing, ring_view, FreesAtOnce};
ghost use Rattle.lines.specs.RingViews.{ring_sound};

use crate::ring_offsets::{lay_round, lend_round, onward, read_round};
use line::{Line, PeekLine, is_line_size};
use wire::{PACKET_LIMIT, Refusal, Unmade, allow};

/// A line whose memory is used round and round.
// No `VecDeque`: the memory is given once, of a size that is chosen at run time, and no put may ask for more.
#[derive(Drop)]
pub struct Ring {
    bytes: Vec<u8>,
    start: usize,
    count: usize,
    ghost ok: { InRing (vec_len bytes) start count },
}

impl Ring {
    /// An empty line over the memory given, whose length is the full size. A size outside the rules is refused.
    pub fn new(bytes: Vec<u8>) -> Result<Ring, Unmade<Vec<u8>>>
        ensures { let empty = fresh (vec_len bytes) packet_limit in
            let allowed = LineSize (vec_len bytes) in
            Makes allowed (λ s. ⟦<Ring as Line>⟧.view s ≡ empty) bytes result }
    {
        let bytes = allow(is_line_size(bytes.len()), bytes)?;
        Ok(Ring {
            bytes,
            start: 0,
            count: 0,
        })
    }
}

impl Line for Ring {
    ghost view = { λ s. ring_view s.bytes.items (vec_len s.bytes) s.start s.count };

    ghost sound = { λ s. ring_sound s.bytes.items s.bytes.len s.start s.count
        (sym s.bytes.ok.0) s.ok };

    fn waiting(&self) -> usize {
        self.count
    }

    fn room(&self) -> usize
        ensures room { result ≡ (⟦<Ring as Line>⟧.view self.now).room }
        ensures fills { FreesAtOnce (⟦<Ring as Line>⟧.view self.now) }
    {
        self.bytes.len() - self.count
    }

    fn put(&mut self, piece: &[u8]) -> Result<(), Refusal> {
        if piece.len() > self.room() {
            return Err(Refusal::LineFull);
        }
        let end = onward(self.start, self.count, self.bytes.len());
        lay_round(self.bytes.as_mut_slice(), end, piece);
        self.count += piece.len();
        Ok(())
    }

    fn take(&mut self, buffer: &mut [u8]) -> usize {
        let taken = self.count.min(buffer.len()).min(PACKET_LIMIT);
        read_round(self.bytes.as_slice(), self.start, &mut buffer[..taken]);
        self.start = onward(self.start, taken, self.bytes.len());
        self.count -= taken;
        taken
    }

    fn clear(&mut self) {
        self.start = 0;
        self.count = 0;
    }
}

impl PeekLine for Ring {
    fn peek(&self) -> (&[u8], &[u8]) {
        lend_round(self.bytes.as_slice(), self.start, self.count)
    }
}
