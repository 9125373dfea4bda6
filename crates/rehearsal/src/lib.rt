//! Rehearsals: commands on one pair, a line each, and what each is answered.
//!
//! A **rehearsal** first makes the parts of a pair, then sets it up, and from then on performs calls on it. Each is a
//! command, and each command is written on a line. It reads any input and writes to any output; where it is to open and
//! save files, it is lent them.
//!
//! Left out: files themselves, which are in the programs. In the order a reader meets them: `rehearse`, `retrace`,
//! `Files`; `Command`, `Words`, `command_of`, `Stage`, `Sums`, `Trouble`.
#![tactic(auto)]

mod commands;
mod files;
mod naming;
mod picturing;
mod reading;
mod rehearsals;
mod retraces;
mod showing;
mod stages;
mod summing;
mod sums;
mod troubles;

pub use commands::{Action, Command, Question};
pub use files::{Files, NoFiles};
pub use reading::{Words, command_of, is_passed_over};
pub use rehearsals::rehearse;
pub use retraces::{Retraced, retrace};
pub use stages::Stage;
pub use sums::Sums;
pub use troubles::{Malformed, Trouble};
