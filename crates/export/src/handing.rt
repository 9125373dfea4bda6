//! How what was made goes out: into what the caller lent, with a number as the answer.
ghost use Rattle.std.specs.Prelude.{◌≡◌, length, cond, nat_le, MatchResult};
ghost use Rattle.wire.specs.Refusals.{number};
ghost use Rattle.wire.specs.Overlay.{overlaid};

use wire::{Refusal, lay};

/// Hands out a sum.
pub fn hand_sum(made: Result<u64, Refusal>, sum: &mut u64) -> u8
    ensures { MatchResult made
        (λ s. (result ≡ 0) × (sum.new ≡ s))
        (λ r. (result ≡ number r) × (sum.new ≡ sum.old)) }
{
    match made {
        Ok(made) => {
            *sum = made;
            0
        }
        Err(refusal) => refusal.number(),
    }
}

/// Hands out a trace and its length. A buffer that is too short gets nothing.
pub fn hand_trace(made: &[u8], trace: &mut [u8], size: &mut usize) -> u8
    ensures answer { result ≡ cond (nat_le (length made.now) (length trace.old)) 0 14 }
    ensures trace { trace.new ≡ overlaid trace.old 0 made.now }
    ensures size { size.new ≡ length made.now }
{
    *size = made.len();
    if made.len() > trace.len() {
        return Refusal::ShortBuffer.number();
    }
    lay(trace, 0, made);
    0
}
