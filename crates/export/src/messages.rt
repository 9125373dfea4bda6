//! The messages of a scenario: equal ones, but for the number at their front.
ghost use Rattle.std.specs.Prelude.{◌≡◌};
ghost use Rattle.wire.specs.Numbers.{little};
ghost use Rattle.wire.specs.Overlay.{overlaid};

use wire::{lay, number_bytes};

/// Writes a number in the first eight bytes of a message. A shorter one stays.
pub fn stamp(message: &mut [u8], number: u64)
    ensures { message.new ≡ overlaid message.old 0 (little 8 number) }
{
    lay(message, 0, &number_bytes(number));
}
