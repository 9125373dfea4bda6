//! The sizes that lines may have, and the lengths of the pieces in which bytes go through them.
ghost use Rattle.line.specs.Sizes.{LineSize, PieceLength};
ghost use Rattle.std.specs.Prelude.{Decides};

use wire::PACKET_LIMIT;

/// The smallest full size of a line: the longest packet fits.
pub const SMALLEST_SIZE: usize = PACKET_LIMIT;

/// The largest full size of a line.
pub const LARGEST_SIZE: usize = 1_048_576;

/// The longest piece: it fits an empty line of any size.
pub const LONGEST_PIECE: usize = PACKET_LIMIT;

/// Whether a line may have this full size.
pub fn is_line_size(size: usize) -> bool
    ensures { Decides result (LineSize size) }
{
    (SMALLEST_SIZE..=LARGEST_SIZE).contains(&size)
}

// Two ranges with bounds of their own: a function over the bounds would be `contains` itself.
/// Whether pieces may have this length.
pub fn is_piece_length(length: usize) -> bool
    ensures { Decides result (PieceLength length) }
{
    (1..=LONGEST_PIECE).contains(&length)
}
