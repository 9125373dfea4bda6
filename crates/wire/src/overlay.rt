//! Moves of whole runs of bytes.
//!
//! Left out: what the bytes mean to those that keep them.
ghost use Rattle.std.specs.Prelude.{◌≡◌};
ghost use Rattle.wire.specs.Overlay.{overlaid};

/// Lays a piece over the bytes from `at` on. A piece that does not fit is not laid.
pub fn lay(bytes: &mut [u8], at: usize, piece: &[u8])
    ensures { bytes.new ≡ overlaid bytes.old at piece.now }
{
    if piece.len() <= bytes.len() && at <= bytes.len() - piece.len() {
        let end = at + piece.len();
        bytes[at..end].copy_from_slice(piece);
    }
}
