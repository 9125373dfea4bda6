//! The rules of a pair, as definitions: what each call does to a hub and a seat, and what it answers.
//!
//! A **pair** is a hub end and a seat end with a log each, the two lines between them, the account table and
//! three buffers. `specs/` says what each call makes of a pair's meaning: of hub, seat, logs, lines, rows and
//! buffers, apart from how any of them is kept. What is free, the room of a line after a take, is a number that
//! the definitions take.
//!
//! The rules are total, and nothing but those numbers is free in them: `laws`, with worked examples.
//!
//! Left out: the code of the ends. The types, in the order a reader meets them: `HubPhase`, `SeatPhase`, `How`,
//! `Received`, `Heard`, `Report`, `Answer`.
#![tactic(auto)]

pub mod answers;
pub mod laws;
pub mod phases;

pub use answers::{Answer, Heard, Received, Report};
pub use phases::{How, HubPhase, SeatPhase};
