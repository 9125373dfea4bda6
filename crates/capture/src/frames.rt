//! The frame: memory for one packet, filled from the front.
//!
//! ```text
//! memory  +---------+----------------------+---------+
//!         | passed  | held                 | free    |
//!         +---------+----------------------+---------+
//!         0         from                   to        PACKET_LIMIT
//! ```
ghost use Rattle.std.specs.Prelude.{◌≡◌, ℕ, ◌-◌, ◌≤◌, List, [], length, drop};
ghost use Rattle.wire.specs.Limits.{packet_limit};
ghost use Rattle.capture.specs.Windows.{window, Filled};

use std::io;
use std::io::Read;
use std::marker::Model;
use wire::PACKET_LIMIT;

/// Bytes that were read and are not explained yet: as many as the longest packet has, and no more.
// Fixed memory with two offsets into it: a frame holds one packet at most, and takes no heap.
#[derive(Drop)]
pub struct Frame {
    memory: [u8; PACKET_LIMIT],
    from: usize,
    to: usize,
}

/// A frame means the bytes that it holds.
// A model shows callers no invariant, so each call states it by a clause of its own, `short`.
impl Model for Frame {
    ghost Value = { List ℕ };

    ghost view = { λ f. window f.memory f.from f.to };

    ghost invariant = { λ f. (f.from ≤ f.to) × (f.to ≤ packet_limit) };
}

impl Frame {
    /// A frame that holds nothing.
    pub fn new() -> Frame
        ensures held { result ≡ [] }
        ensures short { length result ≤ packet_limit }
    {
        Frame {
            memory: [0; PACKET_LIMIT],
            from: 0,
            to: 0,
        }
    }

    /// The bytes held.
    pub fn bytes(&self) -> &[u8]
        ensures held { result.now ≡ self.now }
        ensures short { length self.now ≤ packet_limit }
    {
        &self.memory[self.from..self.to]
    }

    /// Passes over the first bytes held: so many of them, or all where there are fewer.
    pub fn pass(&mut self, count: usize)
        ensures held { self.new ≡ drop count self.old }
        ensures short { length self.new ≤ packet_limit }
    {
        let held = self.to - self.from;
        self.from += count.min(held);
    }

    /// Reads once from the input, behind what is held, as much as the memory has room for. Gives the count of
    /// the bytes that came: 0 at the input's end, or where the frame is full.
    pub fn fill<R: Read>(&mut self, input: &mut R) -> io::Result<usize>
        ensures held { Filled self.old self.new result }
        ensures short { length self.new ≤ packet_limit }
    {
        let to = settle(&mut self.memory, self.from, self.to);
        self.from = 0;
        self.to = to;
        let count = input.read(&mut self.memory[to..])?;
        self.to = to + count;
        Ok(count)
    }
}

// Moves the bytes from one offset up to another to the front of the memory, and gives their count.
fn settle(memory: &mut [u8], from: usize, to: usize) -> usize
    requires ordered { from ≤ to }
    requires within { to ≤ length memory.old }
    ensures count { result ≡ to - from }
    ensures same { window memory.new 0 result ≡ window memory.old from to }
{
    memory.copy_within(from..to, 0);
    to - from
}
