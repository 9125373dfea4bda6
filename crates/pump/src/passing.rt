//! The chosen line, and the input through it.
ghost use Rattle.std.specs.Prelude.{◌≡◌, IfOk, IfErr, MatchResult};
ghost use Rattle.wire.specs.declared.refusals.Refusal.TheVariants as R;
ghost use Rattle.line.specs.Lines.{LineView};
ghost use Rattle.pump.specs.Pumping.{Pumped};
ghost use Rattle.pump.specs.Passing.{made_view, PaceAllowed, Allowed, Passes};

use crate::arguments::Kind;
use crate::choices::{Choice, Layers};
use crate::pieces::PieceSize;
use crate::runs::run;
use crate::traces::Trace;
use line::{Line, SMALLEST_SIZE};
use lines::{AnyLine, Paced, Ring, Straight};
use std::alloc::Global;
use wire::Refusal;

/// An empty line of the kind, with a pacing layer over it or none.
fn make_line(heap: Global, kind: Kind, pace: Option<usize>) -> Result<AnyLine, Refusal>
    ensures made { let empty = made_view kind pace in
        IfOk result (λ l. PaceAllowed pace × (⟦<AnyLine as Line>⟧.view l ≡ empty)) }
    ensures refused { IfErr result (λ e. (e ≡ R.SizeOutOfRange → PaceAllowed pace → ⊥)) }
{
    let bytes = vec![in heap; 0u8; SMALLEST_SIZE]?;
    match (kind, pace) {
        (Kind::Ring, None) => Ok(AnyLine::Ring(Ring::new(bytes)?)),
        (Kind::Ring, Some(pace)) => Ok(AnyLine::PacedRing(Paced::new(Ring::new(bytes)?, pace)?)),
        (Kind::Straight, None) => Ok(AnyLine::Straight(Straight::new(bytes)?)),
        (Kind::Straight, Some(pace)) => Ok(AnyLine::PacedStraight(Paced::new(
            Straight::new(bytes)?,
            pace,
        )?)),
    }
}

/// The trace of a run with this line. Want of memory is a refusal.
fn through<L: Line + Drop>(
    heap: Global,
    mut line: L,
    input: &[u8],
    piece: PieceSize,
) -> Result<Trace, Refusal>
    ensures { let before = L.Line.view line in
        MatchResult result
        (λ trace. (w : LineView) × Pumped before input.now piece.bytes trace w)
        (λ e. e ≡ R.OutOfMemory) }
{
    Ok(run(heap, &mut line, input, piece)?)
}

/// Passes the input through the chosen line, and gives the trace.
pub fn pass(heap: Global, choice: Choice, input: &[u8]) -> Result<Trace, Refusal>
    ensures made { IfOk result (λ trace. Passes choice input.now trace) }
    ensures refused { IfErr result (λ e. (e ≡ R.SizeOutOfRange → Allowed choice → ⊥)) }
{
    let piece = PieceSize::new(choice.piece)?;
    let (outer, inner) = match choice.layers {
        Layers::Bare => (None, None),
        Layers::Once(pace) => (None, Some(pace)),
        Layers::Twice(outer, inner) => (Some(outer), Some(inner)),
    };
    let line = make_line(heap, choice.kind, inner)?;
    match outer {
        None => through(heap, line, input, piece),
        Some(pace) => through(heap, Paced::new(line, pace)?, input, piece),
    }
}
