//! The scenarios, each as its library has it.
ghost use Rattle.std.specs.Prelude.{◌≡◌, ◌≢◌};

use crate::handing::hand_sum;
use std::alloc::Global;

/// Writes and reads packets: `scenarios::packets`.
#[unsafe(no_mangle)]
pub extern "C" fn export_packets(heap: Global, length: usize, times: u64, sum: &mut u64) -> u8
    ensures { result ≢ 0 → sum.new ≡ sum.old }
{
    hand_sum(crate::encoding::packets(heap, length, times), sum)
}

/// Puts pieces on a ring and takes them: `scenarios::through_ring`.
#[unsafe(no_mangle)]
pub extern "C" fn export_through_ring(
    heap: Global,
    ring: usize,
    length: usize,
    times: u64,
    sum: &mut u64,
) -> u8
    ensures { result ≢ 0 → sum.new ≡ sum.old }
{
    hand_sum(
        crate::ring_runs::through_ring(heap, ring, length, times),
        sum,
    )
}

/// Fills a journal: `scenarios::appends`.
#[unsafe(no_mangle)]
pub extern "C" fn export_appends(
    heap: Global,
    memory: usize,
    length: usize,
    times: u64,
    sum: &mut u64,
) -> u8
    ensures { result ≢ 0 → sum.new ≡ sum.old }
{
    hand_sum(crate::journals::appends(heap, memory, length, times), sum)
}

/// Reads a journal: `scenarios::reads`.
#[unsafe(no_mangle)]
pub extern "C" fn export_reads(
    heap: Global,
    memory: usize,
    length: usize,
    times: u64,
    sum: &mut u64,
) -> u8
    ensures { result ≢ 0 → sum.new ≡ sum.old }
{
    hand_sum(crate::journals::reads(heap, memory, length, times), sum)
}

/// Copies a saved journal and opens it: `scenarios::opens`.
#[unsafe(no_mangle)]
pub extern "C" fn export_opens(
    heap: Global,
    memory: usize,
    length: usize,
    times: u64,
    sum: &mut u64,
) -> u8
    ensures { result ≢ 0 → sum.new ≡ sum.old }
{
    hand_sum(crate::journals::opens(heap, memory, length, times), sum)
}

/// Copies a saved journal: `scenarios::copies`.
#[unsafe(no_mangle)]
pub extern "C" fn export_copies(
    heap: Global,
    memory: usize,
    length: usize,
    times: u64,
    sum: &mut u64,
) -> u8
    ensures { result ≢ 0 → sum.new ≡ sum.old }
{
    hand_sum(crate::journals::copies(heap, memory, length, times), sum)
}

/// Brings a seat level: `scenarios::levels`.
#[unsafe(no_mangle)]
pub extern "C" fn export_levels(
    heap: Global,
    memory: usize,
    length: usize,
    times: u64,
    sum: &mut u64,
) -> u8
    ensures { result ≢ 0 → sum.new ≡ sum.old }
{
    hand_sum(crate::leveling::levels(heap, memory, length, times), sum)
}

/// Brings a seat level over lines with a pacing layer: `scenarios::levels_paced`.
#[unsafe(no_mangle)]
pub extern "C" fn export_levels_paced(
    heap: Global,
    pace: usize,
    memory: usize,
    length: usize,
    times: u64,
    sum: &mut u64,
) -> u8
    ensures { result ≢ 0 → sum.new ≡ sum.old }
{
    hand_sum(
        crate::leveling::levels_paced(heap, pace, memory, length, times),
        sum,
    )
}

/// Publishes messages, and goes a round for each: `scenarios::lives`.
#[unsafe(no_mangle)]
pub extern "C" fn export_lives(
    heap: Global,
    memory: usize,
    length: usize,
    held: usize,
    times: u64,
    sum: &mut u64,
) -> u8
    ensures { result ≢ 0 → sum.new ≡ sum.old }
{
    hand_sum(
        crate::leveling::lives(heap, memory, length, held, times),
        sum,
    )
}
