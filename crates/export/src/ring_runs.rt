//! Bytes through a line.
use crate::messages::stamp;
use crate::sums::{SEED, mix, mix_bytes, word};
use line::Line;
use lines::Ring;
use std::alloc::Global;
use wire::Refusal;

/// Puts a piece of this length on a ring of this size, and takes what waits, so many times.
pub fn through_ring(heap: Global, size: usize, length: usize, times: u64) -> Result<u64, Refusal> {
    let mut ring = Ring::new(vec![in heap; 0u8; size]?)?;
    let mut piece = vec![in heap; 0u8; length]?;
    let mut buffer = vec![in heap; 0u8; length]?;
    let mut sum = SEED;
    for number in 0..times {
        stamp(&mut piece, number);
        sum = put_and_taken(sum, &mut ring, &piece, &mut buffer)?;
    }
    Ok(mix_bytes(sum, &buffer))
}

// One piece, put on the line and taken from it.
fn put_and_taken<L: Line>(
    sum: u64,
    line: &mut L,
    piece: &[u8],
    buffer: &mut [u8],
) -> Result<u64, Refusal> {
    line.put(piece)?;
    let taken = line.take(buffer);
    Ok(mix(mix(sum, taken as u64), word(buffer)))
}
