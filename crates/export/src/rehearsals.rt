//! A rehearsal from a script in memory to a trace in memory.
ghost use Rattle.std.specs.Prelude.{◌≡◌, ◌≢◌, ◌≤◌, length};

use crate::handing::hand_trace;
use rehearsal::{NoFiles, rehearse};
use std::alloc::Global;
use std::io;
use wire::Refusal;

/// Rehearses a script, writes its trace at the front of a lent buffer, and tells the trace's length. There are no
/// files.
#[unsafe(no_mangle)]
pub extern "C" fn export_rehearse(
    heap: Global,
    script: &[u8],
    trace: &mut [u8],
    size: &mut usize,
) -> u8
    ensures within { result ≡ 0 → size.new ≤ length trace.old }
    ensures untouched { result ≢ 0 → trace.new ≡ trace.old }
{
    match traced(heap, script) {
        Ok(made) => hand_trace(&made, trace, size),
        Err(_) => Refusal::OutOfMemory.number(),
    }
}

// The trace of a script. It fails only for want of memory: what it reads and writes is in memory.
fn traced(heap: Global, script: &[u8]) -> io::Result<Vec<u8>> {
    let mut trace = Vec::new(heap);
    rehearse(heap, script, &mut trace, &mut NoFiles)?;
    Ok(trace)
}
