//! The buffers that the calls of a pair are lent.
ghost use Rattle.std.specs.Prelude.{◌≡◌, IfOk};
ghost use Rattle.wire.specs.Limits.{packet_limit};
ghost use Rattle.rules.specs.Rounds.{too_short};
ghost use Rattle.pair.specs.Lent.{any_short, blank};

use std::alloc::{AllocError, Global};
use std::marker::Model;
use wire::PACKET_LIMIT;

/// The buffers that the calls of a pair are lent, each at least `PACKET_LIMIT` bytes long.
#[derive(Drop)]
pub struct Buffers {
    /// What the hub has received of a packet.
    pub hub_frame: Vec<u8>,
    /// What the seat has received of a packet.
    pub seat_frame: Vec<u8>,
    /// The packet that was written last.
    pub out: Vec<u8>,
}

/// Buffers mean the bytes that they hold.
impl Model for Buffers {
    ghost use Rattle.rules.specs.State as State;

    ghost Value = { State.Buffers };

    ghost view = { λ b. record {
      hub_frame = b.hub_frame.items;
      seat_frame = b.seat_frame.items;
      out = b.out.items;
    } };
}

impl Buffers {
    /// Buffers that are just long enough, of zeros.
    pub fn new(heap: Global) -> Result<Buffers, AllocError>
        ensures { IfOk result (λ b. b ≡ blank packet_limit packet_limit packet_limit) }
    {
        Buffers::with_lengths(heap, PACKET_LIMIT, PACKET_LIMIT, PACKET_LIMIT)
    }

    /// Buffers of these lengths, of zeros.
    pub fn with_lengths(
        heap: Global,
        hub_frame: usize,
        seat_frame: usize,
        out: usize,
    ) -> Result<Buffers, AllocError>
        ensures { IfOk result (λ b. b ≡ blank hub_frame seat_frame out) }
    {
        Ok(Buffers {
            hub_frame: vec![in heap; 0; hub_frame]?,
            seat_frame: vec![in heap; 0; seat_frame]?,
            out: vec![in heap; 0; out]?,
        })
    }

    /// Buffers without a byte.
    pub fn empty(heap: Global) -> Buffers
        ensures { result ≡ blank 0 0 0 }
    {
        Buffers {
            hub_frame: Vec::new(heap),
            seat_frame: Vec::new(heap),
            out: Vec::new(heap),
        }
    }

    /// Whether one of them cannot hold the longest packet.
    pub fn is_short(&self) -> bool
        ensures { result ≡ any_short self.now }
    {
        is_short(&self.hub_frame) || (is_short(&self.seat_frame) || is_short(&self.out))
    }
}

// Whether a buffer cannot hold the longest packet.
fn is_short(buffer: &[u8]) -> bool
    ensures { result ≡ too_short buffer.now }
{
    buffer.len() < PACKET_LIMIT
}
