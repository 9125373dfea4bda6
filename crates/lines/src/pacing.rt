//! The pacing layer, and how it is a line.
ghost use Rattle.std.specs.Prelude.{◌≡◌};
ghost use Rattle.wire.specs.Making.{Makes};
ghost use Rattle.line.specs.Sizes.{PieceLength};
ghost use Rattle.lines.specs.Pacing.{paced_view};
ghost use Rattle.lines.specs.PacedViews.{paced_sound};

use line::{Line, PeekLine, is_piece_length};
use wire::{Refusal, Unmade, allow};

/// A line over another, with a hand-out limit of its own.
#[derive(Drop)]
pub struct Paced<L> {
    line: L,
    pace: usize,
    ghost ok: { PieceLength pace },
}

impl<L: Line> Paced<L> {
    /// A layer over the line given that hands over at most so many bytes a take. A number outside the rules is
    /// refused.
    pub fn new(line: L, pace: usize) -> Result<Paced<L>, Unmade<L>>
        ensures { let paced = paced_view (L.Line.view line) pace in
            Makes (PieceLength pace) (λ s. ⟦<Paced<L> as Line>⟧.view s ≡ paced) line result }
    {
        let line = allow(is_piece_length(pace), line)?;
        Ok(Paced { line, pace })
    }
}

impl<L: Line> Line for Paced<L> {
    ghost view = { λ s. paced_view (L.Line.view s.line) s.pace };

    ghost sound = { λ s. paced_sound (L.Line.sound s.line) s.ok };

    fn waiting(&self) -> usize {
        self.line.waiting()
    }

    fn room(&self) -> usize {
        self.line.room()
    }

    fn put(&mut self, piece: &[u8]) -> Result<(), Refusal> {
        self.line.put(piece)
    }

    fn take(&mut self, buffer: &mut [u8]) -> usize {
        let most = buffer.len().min(self.pace);
        self.line.take(&mut buffer[..most])
    }

    fn clear(&mut self) {
        self.line.clear();
    }
}

impl<L: PeekLine> PeekLine for Paced<L> {
    fn peek(&self) -> (&[u8], &[u8]) {
        self.line.peek()
    }
}
