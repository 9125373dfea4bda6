//! What a run works with.
ghost use Rattle.std.specs.Prelude.{◌≡◌, [], IfOk, vec_len};
ghost use Rattle.line.specs.Sizes.{PieceLength};

use crate::pieces::PieceSize;
use crate::traces::Trace;
use std::alloc::{AllocError, Global};

/// The buffer that is taken into, as long as a piece, and the trace of what was done.
// The line is lent to each call and is no field: of a `&mut` in it each method had to say that it stays the same.
#[derive(Drop)]
pub(crate) struct Pumper {
    pub(crate) buffer: Vec<u8>,
    pub(crate) trace: Trace,
    ghost long: { PieceLength (vec_len buffer) },
}

impl Pumper {
    /// A pumper for pieces of this size, that has done nothing.
    pub(crate) fn new(heap: Global, piece: PieceSize) -> Result<Pumper, AllocError>
        ensures buffer { IfOk result (λ p. vec_len p.buffer ≡ piece.bytes) }
        ensures trace { IfOk result (λ p. (p.trace.events.items ≡ []) × (p.trace.out.items ≡ [])) }
    {
        let buffer = vec![in heap; 0u8; piece.bytes()]?;
        Ok(Pumper {
            buffer,
            trace: Trace::new(heap),
        })
    }
}
