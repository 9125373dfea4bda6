//! Frames: the bytes that are in of a packet which is not whole yet.
//! A take brings no more bytes than the frame lacks, so a frame never holds more than one packet.
ghost use Rattle.std.specs.Prelude.{◌≡◌, ◌+◌, ◌-◌, ◌≤◌, length};
ghost use Rattle.rules.specs.Frames.{lack};
ghost use Rattle.framing.specs.Filling.{Filled, wanted};

use line::Line;
use wire::PACKET_LIMIT;

/// Takes from the line, no more bytes than the frame lacks, and says how many came. The frame is the
/// first `held` bytes of its buffer, and what comes is laid behind it. Where the buffer could not hold the longest
/// packet, or more than that is held, nothing is taken.
#[inline(always)]
pub fn fill<L: Line>(line: &mut L, frame: &mut [u8], held: usize) -> usize
    ensures { let before = L.Line.view line.old in
        let after = L.Line.view line.new in
        Filled before frame.old held (wanted held frame.old) result after frame.new }
{
    if frame.len() < PACKET_LIMIT {
        return 0;
    }
    if held > PACKET_LIMIT {
        return 0;
    }
    let end = held + lacking(&frame[..held]);
    take_at(line, frame, held, end)
}

// What a frame still lacks.
#[inline(always)]
fn lacking(frame: &[u8]) -> usize
    ensures { result ≡ lack frame.now }
{
    match frame {
        [low, high, ..] => {
            let whole = usize::from(u16::from_le_bytes([*low, *high])) + 2;
            whole.min(PACKET_LIMIT).saturating_sub(frame.len())
        }
        _ => 2 - frame.len(),
    }
}

// Takes into the buffer from offset `from` to offset `end`.
#[inline(always)]
fn take_at<L: Line>(line: &mut L, frame: &mut [u8], from: usize, end: usize) -> usize
    requires { (from ≤ end) × (end ≤ length frame.old) }
    ensures { let before = L.Line.view line.old in
        let after = L.Line.view line.new in
        Filled before frame.old from (end - from) result after frame.new }
{
    line.take(&mut frame[from..end])
}
