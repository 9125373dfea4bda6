//! Packets written and read.
ghost use Rattle.std.specs.Prelude.{◌≡◌, ◌+◌, length, IfOk};
ghost use Rattle.export.specs.Sums.{mixed, word_of};

use crate::messages::stamp;
use crate::sums::{SEED, mix, mix_bytes, word};
use packet::{Packet, Reader};
use std::alloc::Global;
use wire::{PACKET_LIMIT, Refusal};

/// Writes a sequenced packet with a message of this length, and reads it, so many times.
pub fn packets(heap: Global, length: usize, times: u64) -> Result<u64, Refusal> {
    let mut message = vec![in heap; 0u8; length]?;
    let mut out = vec![in heap; 0u8; PACKET_LIMIT]?;
    let mut sum = SEED;
    for number in 0..times {
        stamp(&mut message, number);
        sum = written_and_read(sum, number, &message, &mut out)?;
    }
    Ok(mix_bytes(sum, &out))
}

// One packet, written at the front of `out` and read from there: the sum with its length, its number and the front of
// its message in it.
fn written_and_read(sum: u64, number: u64, message: &[u8], out: &mut [u8]) -> Result<u64, Refusal>
    ensures { let with_length = mixed sum (length message.now + 11) in
        IfOk result (λ s. s ≡ mixed (mixed with_length number) (word_of message.now)) }
{
    let length = Packet::Sequenced { number, message }.write(out)?;
    let sum = mix(sum, length as u64);
    match Reader::new(out).read()? {
        Some(Packet::Sequenced { number, message }) => Ok(mix(mix(sum, number), word(message))),
        _ => Ok(sum),
    }
}
