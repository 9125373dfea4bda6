//! The limits of messages and packets. The longest message decides the others.

/// The longest message, in bytes.
pub const MESSAGE_LIMIT: usize = 4096;

/// The largest length number: the letter, the eight bytes of a sequence number, and the longest message.
pub const LENGTH_LIMIT: usize = MESSAGE_LIMIT + 9;

/// The longest packet, in bytes: the two bytes of the length number, and what they count.
pub const PACKET_LIMIT: usize = LENGTH_LIMIT + 2;
