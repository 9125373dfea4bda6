//! The length of the pieces of a run.
ghost use Rattle.std.specs.Prelude.{◌≡◌, MatchResult};
ghost use Rattle.line.specs.Sizes.{PieceLength};
ghost use Rattle.wire.specs.declared.refusals.Refusal.TheVariants.{SizeOutOfRange};

use line::is_piece_length;
use wire::Refusal;

/// A length that pieces may have: 1 to the longest packet, so that each fits an empty line.
#[derive(Clone, Copy)]
pub struct PieceSize {
    bytes: usize,
    ghost ok: { PieceLength bytes },
}

impl PieceSize {
    /// The size, or a refusal if it is outside the rules.
    pub fn new(bytes: usize) -> Result<PieceSize, Refusal>
        ensures { MatchResult result
            (λ p. p.bytes ≡ bytes)
            (λ e. (e ≡ SizeOutOfRange) × (PieceLength bytes → ⊥)) }
    {
        if !is_piece_length(bytes) {
            return Err(Refusal::SizeOutOfRange);
        }
        Ok(PieceSize { bytes })
    }

    /// The size in bytes.
    pub fn bytes(self) -> usize
        ensures { result ≡ self.bytes }
    {
        self.bytes
    }
}
