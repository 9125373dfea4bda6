//! The kinds of lines, each in a file of its own.
//!
//! A **ring** uses its bytes round and round. A **straight line** is filled from the front, and has its room back once
//! nothing waits. A **pacing layer** goes over any line and hands over what that holds in small pieces. A **counting
//! layer** goes over any line and counts the packets put on it. An enum over the kinds lets a program choose at run
//! time; one that knows its kind when it is written needs none of it.
//!
//! Left out: what a line means, which is the crate `line`. Each type here is a line: `Ring`, `Straight`, `Paced`,
//! `AnyLine`, `CountedLine`.
#![tactic(auto)]

pub mod any;
pub mod counting;
pub mod pacing;
mod ring_offsets;
pub mod rings;
pub mod straights;

pub use any::AnyLine;
pub use counting::CountedLine;
pub use pacing::Paced;
pub use rings::Ring;
pub use straights::Straight;
