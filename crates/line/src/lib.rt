//! Lines: queues of bytes between two ends, by what they mean.
//!
//! A **line** keeps the bytes put into it, in order, until they are taken or the line is cleared. Code that uses lines
//! is written once for every type that implements `Line`, and is proved from the trait's contracts alone.
//!
//! Left out: the lines themselves, which are in the crate `lines`. In the order a reader meets them: `Line`,
//! `PeekLine`, `transfer`, the sizes.
#![tactic(auto)]

pub mod lines;
pub mod peeks;
pub mod sizes;
pub mod transfers;

pub use lines::Line;
pub use peeks::PeekLine;
pub use sizes::{LARGEST_SIZE, LONGEST_PIECE, SMALLEST_SIZE, is_line_size, is_piece_length};
pub use transfers::transfer;
