//! One slot.
ghost use Rattle.std.specs.Prelude.{◌≤◌};
ghost use Rattle.wire.specs.Limits.{message_limit};
ghost use Rattle.packed_messages.specs.Bytes.{Bytes};

use wire::MESSAGE_LIMIT;

/// Room for one message, of any length that a message may have.
#[derive(Clone, Copy)]
pub struct Slot {
    bytes: [u8; MESSAGE_LIMIT],
    length: usize,
    ghost short: { length ≤ message_limit },
    // The type says it, but the law of every log sees numbers alone.
    ghost of_bytes: { Bytes bytes },
}

impl Slot {
    ghost use Rattle.std.specs.Prelude.{◌≡◌, [], length};
    ghost use Rattle.slot_log.specs.Slotted.{held};

    /// A slot with the empty message.
    pub fn new() -> Slot
        ensures { held result ≡ [] }
    {
        Slot::of(&[])
    }

    // A slot is written anew and not filled where it lies: an array beside a ghost field cannot be lent today.
    /// A slot with this message.
    pub(crate) fn of(message: &[u8]) -> Slot
        requires { length message.now ≤ message_limit }
        ensures { held result ≡ message.now }
    {
        let mut bytes = [0; MESSAGE_LIMIT];
        bytes[..message.len()].copy_from_slice(message);
        Slot {
            bytes,
            length: message.len(),
        }
    }

    /// Its message.
    pub(crate) fn message(&self) -> &[u8]
        ensures { result.now ≡ held self.now }
    {
        &self.bytes[..self.length]
    }
}
