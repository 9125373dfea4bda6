//! What an end says of its frame.
//! It knows which letters it takes, and so reports one that is out of place.
ghost use Rattle.std.specs.Prelude.{◌≡◌, ◌≢◌, true, false, Ok, slice_index};
ghost use Rattle.packet.specs.Decoding.{decode, part};
ghost use Rattle.packet.specs.Meanings.{answer_of};
ghost use Rattle.rules.specs.Frames.{among, placed, judged};

use packet::{Packet, Reader};
use wire::{Letter, PacketFault};

/// Whether the bytes are a part, which they are whatever letters an end takes: their length number is not all in, or it
/// counts more bytes than there are.
#[inline(always)]
pub fn is_part(bytes: &[u8]) -> bool
    ensures finds { result ≡ true → decode bytes.now ≡ Ok part }
    ensures only { result ≡ false → decode bytes.now ≢ Ok part }
{
    match Reader::new(bytes).packet_len() {
        Ok(Some(length)) => bytes.len() < length,
        Ok(None) => true,
        Err(_) => false,
    }
}

/// What an end that takes these letters says of its frame: a part, a packet or a fault. A letter that is out of
/// place is reported before a wrong length and a wrong content, and after a letter that is none. It reads a packet, so
/// an end asks `is_part` first: most takes leave a part.
#[inline(always)]
pub fn judge<'a>(bytes: &'a [u8], letters: &[Letter]) -> Result<Option<Packet<'a>>, PacketFault>
    ensures { answer_of result ≡ judged letters.now bytes.now }
{
    let reader = Reader::new(bytes);
    if is_taken(bytes, letters) {
        return reader.read();
    }
    misplaced(reader.read())
}

// Whether the letter of the packet at the front of the bytes is one of these.
#[inline(always)]
fn is_taken(bytes: &[u8], letters: &[Letter]) -> bool
    ensures { result ≡ among letters.now (slice_index bytes.now 2) }
{
    let byte = bytes.get(2).copied().unwrap_or(0);
    letters.iter().any(|letter| byte == u8::from(*letter))
}

// What an end says where a reader says this, and the letter is not one that it takes.
#[inline(always)]
fn misplaced<'a>(
    read: Result<Option<Packet<'a>>, PacketFault>,
) -> Result<Option<Packet<'a>>, PacketFault>
    ensures { answer_of result ≡ placed false (answer_of read.entry) }
{
    match read {
        Ok(Some(_)) | Err(PacketFault::WrongLength | PacketFault::WrongContent(_)) => Err(
            PacketFault::OutOfPlace,
        ),
        _ => read,
    }
}
