//! Sequence numbers in bytes.
ghost use Rattle.std.specs.Prelude.{◌≡◌};
ghost use Rattle.wire.specs.Numbers.{little};

/// A sequence number in its eight bytes, the least byte first.
pub fn number_bytes(number: u64) -> [u8; 8]
    ensures { result ≡ little 8 number }
{
    number.to_le_bytes()
}
