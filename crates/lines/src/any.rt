//! The enum over the kinds, and how it is a line.
ghost use Rattle.lines.specs.declared.any.AnyLine.TheVariants as K;
ghost use Rattle.lines.specs.PacedViews.{paced_sound};
ghost use Rattle.lines.specs.contracts.rings.RingLine.TheImpl.Laws as ring;
ghost use Rattle.lines.specs.contracts.straights.StraightLine.TheImpl.Laws as straight;

use crate::pacing::Paced;
use crate::rings::Ring;
use crate::straights::Straight;
use line::{Line, PeekLine};
use wire::Refusal;

/// A line of one of the kinds. It means what the line in it means.
// An enum and no `dyn`: a program hands its choice out, and no function may hand a `dyn` value out.
#[derive(Drop)]
pub enum AnyLine {
    Ring(Ring),
    Straight(Straight),
    PacedRing(Paced<Ring>),
    PacedStraight(Paced<Straight>),
}

/// What a call answers at the line in the enum, whichever kind it is.
macro_rules! at_each {
    ($any:expr, $line:ident => $call:expr) => {
        match $any {
            AnyLine::Ring($line) => $call,
            AnyLine::Straight($line) => $call,
            AnyLine::PacedRing($line) => $call,
            AnyLine::PacedStraight($line) => $call,
        }
    };
}

impl Line for AnyLine {
    ghost view = { elim [
      | K.Ring s ↦ ⟦<Ring as Line>⟧.view s
      | K.Straight s ↦ ⟦<Straight as Line>⟧.view s
      | K.PacedRing s ↦ ⟦<Paced<Ring> as Line>⟧.view s
      | K.PacedStraight s ↦ ⟦<Paced<Straight> as Line>⟧.view s
    ] };

    ghost sound = { elim [
      | K.Ring s ↦ ring.sound-law s
      | K.Straight s ↦ straight.sound-law s
      | K.PacedRing s ↦ paced_sound (ring.sound-law s.line) s.ok
      | K.PacedStraight s ↦ paced_sound (straight.sound-law s.line) s.ok
    ] };

    fn waiting(&self) -> usize {
        at_each!(self, line => line.waiting())
    }

    fn room(&self) -> usize {
        at_each!(self, line => line.room())
    }

    fn put(&mut self, piece: &[u8]) -> Result<(), Refusal> {
        at_each!(self, line => line.put(piece))
    }

    fn take(&mut self, buffer: &mut [u8]) -> usize {
        at_each!(self, line => line.take(buffer))
    }

    fn clear(&mut self) {
        at_each!(self, line => line.clear());
    }
}

impl PeekLine for AnyLine {
    fn peek(&self) -> (&[u8], &[u8]) {
        at_each!(self, line => line.peek())
    }
}
