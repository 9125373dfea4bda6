//! Moves of whole slices.
ghost use Rattle.std.specs.Prelude.{◌≡◌, length};
ghost use Rattle.message_log.specs.Calls.{placed_in, settled, fronted};
ghost use Rattle.packed_messages.specs.Bytes.{Bytes};
ghost use Rattle.packed_messages.specs.Packed.{edge};

use wire::Refusal;

/// Copies a message to the front of a buffer, leaves the buffer's rest, and says how long the message is.
pub fn copy_out(message: &[u8], buffer: &mut [u8]) -> Result<usize, Refusal>
    ensures value { result ≡ placed_in (length buffer.old) (length message.now) }
    ensures after { buffer.new ≡ settled result (fronted message.now buffer.old) buffer.old }
{
    let len = message.len();
    if len > buffer.len() {
        return Err(Refusal::ShortBuffer);
    }
    buffer[..len].copy_from_slice(message);
    Ok(len)
}

// It states what every proof knows of such a slice by its type, so nothing calls it.
/// Says that a slice of bytes holds bytes.
pub fn are_bytes(bytes: &[u8])
    ensures { Bytes bytes.now }
{}

/// Where message k, from 0, begins with its gap: at the base, or where the message before it ends.
pub fn edge_at(base: usize, ends: &[u32], k: usize) -> usize
    ensures { result ≡ edge base ends.now k }
{
    match k.checked_sub(1) {
        None => base,
        Some(before) => ends.get(before).map_or(0, |end| *end as usize),
    }
}
