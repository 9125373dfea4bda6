//! The layer, and how it is a line.
ghost use Rattle.std.specs.Prelude.{◌≡◌, replicate};
ghost use Rattle.line.specs.Lines.{Put, Taken, cleared};
ghost use Rattle.lines.specs.Counting.{counted, letter_in};

use line::{Line, PeekLine};
use packet::LetterCounts;
use wire::{Letter, Refusal};

/// A line over another, and how many packets were put on it, by letter.
#[derive(Drop)]
pub struct CountedLine<L> {
    line: L,
    tally: LetterCounts,
}

// The letter of a packet, if it has one that is known.
fn letter_in(packet: &[u8]) -> Option<Letter>
    ensures { result ≡ letter_in packet.now }
{
    Letter::try_from(*packet.get(2)?).ok()
}

impl<L: Line> CountedLine<L> {
    /// The layer over a line on which nothing was counted yet.
    pub fn new(line: L) -> CountedLine<L>
        ensures line { result.line ≡ line }
        ensures tally { result.tally.counts ≡ replicate 12 0 }
    {
        CountedLine {
            line,
            tally: LetterCounts::new(),
        }
    }

    /// How many packets were put, by letter.
    pub fn tally(&self) -> &LetterCounts
        ensures { result.now ≡ self.now.tally }
    {
        &self.tally
    }

    /// Puts a piece that is not counted.
    pub fn put_past(&mut self, piece: &[u8]) -> Result<(), Refusal>
        ensures put { let before = L.Line.view self.old.line in
            let after = L.Line.view self.new.line in
            Put before piece.now result after }
        ensures same { self.new.tally ≡ self.old.tally }
    {
        self.line.put(piece)
    }
}

impl<L: Line> Line for CountedLine<L> {
    ghost view = { λ s. L.Line.view s.line };

    ghost sound = { λ s. L.Line.sound s.line };

    fn waiting(&self) -> usize {
        self.line.waiting()
    }

    fn room(&self) -> usize {
        self.line.room()
    }

    fn put(&mut self, piece: &[u8]) -> Result<(), Refusal>
        ensures put { let before = L.Line.view self.old.line in
            let after = L.Line.view self.new.line in
            Put before piece.now result after }
        ensures counted { let before = L.Line.view self.old.line in
            self.new.tally.counts ≡ counted before piece.now self.old.tally.counts }
    {
        self.line.put(piece)?;
        if let Some(letter) = letter_in(piece) {
            self.tally.note(letter);
        }
        Ok(())
    }

    fn take(&mut self, buffer: &mut [u8]) -> usize
        ensures taken { let before = L.Line.view self.old.line in
            let after = L.Line.view self.new.line in
            Taken before buffer.old result after buffer.new }
        ensures same { self.new.tally ≡ self.old.tally }
    {
        self.line.take(buffer)
    }

    fn clear(&mut self)
        ensures after { L.Line.view self.new.line ≡ cleared (L.Line.view self.old.line) }
        ensures same { self.new.tally ≡ self.old.tally }
    {
        self.line.clear();
    }
}

impl<L: PeekLine> PeekLine for CountedLine<L> {
    fn peek(&self) -> (&[u8], &[u8]) {
        self.line.peek()
    }
}
