//! The straight line, and how it is a line.
ghost use Rattle.std.specs.Prelude.{◌≡◌, vec_len};
ghost use Rattle.std.proofs.Common.{sym};
ghost use Rattle.line.specs.Lines.{Taken, fresh};
ghost use Rattle.wire.specs.Making.{Makes};
ghost use Rattle.line.specs.Sizes.{LineSize};
ghost use Rattle.lines.specs.Straights.{InOrder, straight_view, FreesOnceEmpty};
ghost use Rattle.lines.specs.StraightViews.{straight_sound};

use line::{Line, PeekLine, is_line_size};
use wire::{Refusal, Unmade, allow, lay};

/// A line whose memory is used from the front, and anew once nothing waits.
// No `VecDeque`: the memory is given once, and it is free again only when nothing waits.
#[derive(Drop)]
pub struct Straight {
    bytes: Vec<u8>,
    start: usize,
    end: usize,
    ghost ok: { InOrder (vec_len bytes) start end },
}

impl Straight {
    /// An empty line over the memory given, whose length is the full size. A size outside the rules is refused.
    pub fn new(bytes: Vec<u8>) -> Result<Straight, Unmade<Vec<u8>>>
        ensures { let empty = fresh (vec_len bytes) 1 in
            let allowed = LineSize (vec_len bytes) in
            Makes allowed (λ s. ⟦<Straight as Line>⟧.view s ≡ empty) bytes result }
    {
        let bytes = allow(is_line_size(bytes.len()), bytes)?;
        Ok(Straight {
            bytes,
            start: 0,
            end: 0,
        })
    }
}

impl Line for Straight {
    ghost view = { λ s. straight_view s.bytes.items (vec_len s.bytes) s.start s.end };

    ghost sound = { λ s. straight_sound s.bytes.items s.bytes.len s.start s.end
        (sym s.bytes.ok.0) s.ok };

    fn waiting(&self) -> usize {
        self.end - self.start
    }

    fn room(&self) -> usize {
        self.bytes.len() - self.end
    }

    fn put(&mut self, piece: &[u8]) -> Result<(), Refusal> {
        if piece.len() > self.room() {
            return Err(Refusal::LineFull);
        }
        lay(self.bytes.as_mut_slice(), self.end, piece);
        self.end += piece.len();
        Ok(())
    }

    fn take(&mut self, buffer: &mut [u8]) -> usize
        ensures taken { let before = ⟦<Straight as Line>⟧.view self.old in
            let after = ⟦<Straight as Line>⟧.view self.new in
            Taken before buffer.old result after buffer.new }
        ensures room { let before = ⟦<Straight as Line>⟧.view self.old in
            let after = ⟦<Straight as Line>⟧.view self.new in
            FreesOnceEmpty before after }
    {
        if self.start == self.end || buffer.is_empty() {
            return 0;
        }
        buffer[0] = self.bytes[self.start];
        self.start += 1;
        if self.start == self.end {
            self.start = 0;
            self.end = 0;
        }
        1
    }

    fn clear(&mut self) {
        self.start = 0;
        self.end = 0;
    }
}

impl PeekLine for Straight {
    fn peek(&self) -> (&[u8], &[u8]) {
        (&self.bytes[self.start..self.end], &[])
    }
}
