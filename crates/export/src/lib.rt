//! What a program that is not Rattle's calls: a rehearsal, and work that a clock is held against.
//!
//! A **scenario** does the same thing a number of times, and answers a **sum** that depends on all that it did. Code
//! that does the same elsewhere must answer the same sum. A scenario gets its memory and makes its parts first, so that
//! what a call takes less what a call takes that does it no time, or once, is the time of the work.
//!
//! Each function answers 0 where it is done, and else the number of a refusal: 14 where the buffer for a trace is too
//! short, 30 where there was no memory, and whatever a scenario was refused by. What it does not answer it writes into
//! what it is lent; where it answers a refusal it writes nothing there, but for the length of a trace that did not fit.
//!
//! Left out: the clock. In the order a reader meets them: `rehearsals`, `timed`; `mix`, `mix_bytes` and `word`, of which
//! sums are made; the scenarios of packets, of a ring, of a journal, of a seat that is brought level, of messages one at
//! a time.
#![tactic(auto)]

mod encoding;
mod handing;
mod journals;
mod leveling;
mod messages;
pub mod rehearsals;
mod relays;
mod ring_runs;
mod sums;
pub mod timed;

pub use encoding::packets;
pub use journals::{appends, copies, opens, reads};
pub use leveling::{levels, levels_paced, lives};
pub use ring_runs::through_ring;
pub use sums::{SEED, mix, mix_bytes, word};
