//! Sums that depend on all that they were made of, and on its order.
ghost use Rattle.std.specs.Prelude.{◌≡◌};
ghost use Rattle.export.specs.Sums.{mixed, mixed_bytes, word_of};

/// What a sum is before anything is in it.
pub const SEED: u64 = 0x4e69_7468_7261_656c;

// Odd, so that no two numbers bring the same sum to the same sum.
const FACTOR: u64 = 0x0000_0100_0000_01b3;

/// The sum with a number more in it.
pub fn mix(sum: u64, number: u64) -> u64
    ensures { result ≡ mixed sum number }
{
    sum.wrapping_mul(FACTOR).wrapping_add(number)
}

/// The sum with these bytes in it, one after the other.
pub fn mix_bytes(sum: u64, bytes: &[u8]) -> u64
    ensures { result ≡ mixed_bytes sum bytes.now }
{
    bytes
        .iter()
        .fold(sum, |sum, byte| mix(sum, u64::from(*byte)))
}

/// The number in the first eight bytes, the least byte first; of fewer bytes, how many there are.
pub fn word(bytes: &[u8]) -> u64
    ensures { result ≡ word_of bytes.now }
{
    match bytes.first_chunk::<8>() {
        Some(word) => u64::from_le_bytes(*word),
        None => bytes.len() as u64,
    }
}
