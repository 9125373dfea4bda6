//! What the logs share that keep their messages in one run of bytes.
//!
//! The messages lie one behind the other, each behind a gap of fixed length, and a table has where each one
//! ends. Here is `PackedMessages`, which keeps them so and answers for them as a log does, and in `specs/` what they mean.
//!
//! Left out: what stands before the first message and in the gaps, which the logs say. In the order a reader meets
//! them: `PackedMessages`, `copy_out`, `edge_at`, `are_bytes`.
#![tactic(auto)]

pub mod bytes;
pub mod packed;

pub use bytes::{are_bytes, copy_out, edge_at};
pub use packed::PackedMessages;
