//! The relay: calls on a pair as a program makes them, and the promises, on the calls themselves.
//!
//! A `Relay` is set up of its `Parts`, and owns them: the pair, its logs, lines and buffers. A program performs calls on
//! it, one at a time (`perform`) or a list of them (`run`), and brings its seat level (`bring_level`). Its type knows
//! which calls were made, so the promises hold of it at all times, with no hypothesis (`promises`).
//!
//! The functions `perform`, `run` and `bring_level` do the same with a pair that is lent, and with parts that are lent.
//! Each says that the pair follows the rules, and that the promises hold of it then, for every history that led to it.
//!
//! Left out: the rules, and why they keep the promises. In the order a reader meets them: `Call`, `Answer`, `Slot`,
//! `Way`, `Parts`, `Relay`, `OwnedPair`; `perform`, `run`, `bring_level`.
#![tactic(auto)]

mod calls_made;
mod commands;
mod leveling;
mod owned_pairs;
mod parts;
mod performing;
mod relays;
mod running;

pub use calls_made::CallsMade;
pub use commands::Call;
pub use leveling::{Way, bring_level};
pub use owned_pairs::OwnedPair;
pub use parts::{Credentials, Parts};
pub use performing::perform;
pub use relays::Relay;
pub use rules::Answer;
pub use running::{Slot, run};
