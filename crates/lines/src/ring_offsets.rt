//! Copies to and from the memory of a ring, and a look at it, each in at most two parts.
// What does not go round the end is one copy: a second one, of no byte, was tried, and halved the speed of pieces
// of 64 bytes.
ghost use Rattle.std.specs.Prelude.{◌≡◌, ◌<◌, ◌≤◌, ◌++◌, length};
ghost use Rattle.line.specs.Sizes.{largest_size};
ghost use Rattle.lines.specs.Rings.{Onward, LaidRound, ringed};

/// The offset that lies so many bytes on from another, round the end.
pub(crate) fn onward(at: usize, by: usize, size: usize) -> usize
    requires { (at < size) × ((by ≤ size) × (size ≤ largest_size)) }
    ensures { Onward at by size result }
{
    let to = at + by;
    if to < size { to } else { to - size }
}

/// Copies a piece over the bytes from `at` on, and past the last byte from the first one on.
pub(crate) fn lay_round(memory: &mut [u8], at: usize, piece: &[u8])
    requires { (at < length memory.old) × (length piece.now ≤ length memory.old) }
    ensures { LaidRound memory.old at piece.now memory.new }
{
    let ahead = memory.len() - at;
    if piece.len() <= ahead {
        memory[at..at + piece.len()].copy_from_slice(piece);
    } else {
        let (front, back) = piece.split_at(ahead);
        memory[at..].copy_from_slice(front);
        memory[..back.len()].copy_from_slice(back);
    }
}

/// Copies the bytes from `at` on, round the end, until `out` is full.
pub(crate) fn read_round(memory: &[u8], at: usize, out: &mut [u8])
    requires { (at < length memory.now) × (length out.old ≤ length memory.now) }
    ensures { out.new ≡ ringed memory.now at (length out.old) }
{
    let ahead = memory.len() - at;
    let n = out.len();
    if n == 1 {
        // One byte is no copy: a line that is paced by 1 takes each so.
        out[0] = memory[at];
    } else if n <= ahead {
        out.copy_from_slice(&memory[at..at + n]);
    } else {
        let (front, back) = out.split_at_mut(ahead);
        front.copy_from_slice(&memory[at..]);
        back.copy_from_slice(&memory[..back.len()]);
    }
}

/// Lends so many bytes from `at` on, round the end: those up to the last one, and those from the first one on.
pub(crate) fn lend_round(memory: &[u8], at: usize, count: usize) -> (&[u8], &[u8])
    requires { (at < length memory.now) × (count ≤ length memory.now) }
    ensures { result.0.now ++ result.1.now ≡ ringed memory.now at count }
{
    let ahead = memory.len() - at;
    if count <= ahead {
        (&memory[at..at + count], &[])
    } else {
        (&memory[at..], &memory[..count - ahead])
    }
}
