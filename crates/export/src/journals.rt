//! Messages into a journal, out of it, and a journal opened.
ghost use Rattle.std.specs.Prelude.{◌≡◌, ◌-◌, length, drop};
ghost use Rattle.export.specs.Sums.{word_of};

use crate::messages::stamp;
use crate::sums::{SEED, mix, mix_bytes, word};
use logs::Journal;
use message_log::{Log, SIZE_LIMIT};
use std::alloc::Global;
use wire::{MESSAGE_LIMIT, Refusal};

/// Begins a session in a journal of so many bytes, and appends messages of this length until it is full, so many
/// times.
pub fn appends(heap: Global, size: usize, length: usize, times: u64) -> Result<u64, Refusal> {
    let mut log = Journal::new(heap, vec![in heap; 0u8; size]?)?;
    let mut message = vec![in heap; 0u8; length]?;
    let mut sum = SEED;
    for _ in 0..times {
        fill(&mut log, &mut message)?;
        sum = mix(sum, log.count() as u64);
    }
    Ok(mix_bytes(sum, log.bytes()))
}

// Begins a session, and appends messages until the log is full.
fn fill<G: Log>(log: &mut G, message: &mut [u8]) -> Result<(), Refusal> {
    log.begin(1)?;
    for number in 1..=SIZE_LIMIT {
        stamp(message, number as u64);
        if log.append(message).is_err() {
            return Ok(());
        }
    }
    Ok(())
}

// A journal of so many bytes that is full of messages of this length.
fn full(heap: Global, size: usize, length: usize) -> Result<Journal, Refusal> {
    let mut log = Journal::new(heap, vec![in heap; 0u8; size]?)?;
    let mut message = vec![in heap; 0u8; length]?;
    fill(&mut log, &mut message)?;
    Ok(log)
}

/// Reads every message of a full journal, so many times.
pub fn reads(heap: Global, size: usize, length: usize, times: u64) -> Result<u64, Refusal> {
    let log = full(heap, size, length)?;
    let mut buffer = vec![in heap; 0u8; MESSAGE_LIMIT]?;
    let mut sum = SEED;
    for _ in 0..times {
        sum = read_each(sum, &log, &mut buffer)?;
    }
    Ok(mix_bytes(sum, &buffer))
}

// Each message of a log, read into the buffer.
fn read_each<G: Log>(sum: u64, log: &G, buffer: &mut [u8]) -> Result<u64, Refusal> {
    let mut sum = sum;
    for n in 1..=log.count() {
        let length = log.read(n, buffer)?;
        sum = mix(mix(sum, length as u64), word(buffer));
    }
    Ok(sum)
}

/// Copies the saved form of a full journal, and opens the copy, so many times.
pub fn opens(heap: Global, size: usize, length: usize, times: u64) -> Result<u64, Refusal> {
    let log = full(heap, size, length)?;
    let mut sum = SEED;
    for _ in 0..times {
        let memory = log.bytes().to_vec(heap)?;
        let used = memory.len();
        let opened = Journal::open(heap, memory, used)?;
        sum = mix(mix(sum, opened.count() as u64), last_word(opened.bytes()));
    }
    Ok(mix_bytes(sum, log.bytes()))
}

/// Copies the saved form of a full journal, as `opens` does, and opens nothing.
pub fn copies(heap: Global, size: usize, length: usize, times: u64) -> Result<u64, Refusal> {
    let log = full(heap, size, length)?;
    let mut sum = SEED;
    for _ in 0..times {
        let memory = log.bytes().to_vec(heap)?;
        sum = mix(mix(sum, log.count() as u64), last_word(&memory));
    }
    Ok(mix_bytes(sum, log.bytes()))
}

// The number in the last eight bytes, as `word` has it.
fn last_word(bytes: &[u8]) -> u64
    ensures { result ≡ word_of (drop (length bytes.now - 8) bytes.now) }
{
    match bytes.last_chunk::<8>() {
        Some(last) => word(last),
        None => word(bytes),
    }
}
