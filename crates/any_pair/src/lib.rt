//! A pair and all that its calls are lent, of any kinds that are chosen at run time.
//!
//! The parts are made one by one, in any order, and the pair is set up of them. From then on calls are performed on it,
//! each a step of the rules, with the promises kept.
//!
//! Left out: commands and printing. In the order a reader meets them: `Part` and what it is made of, `Builder`,
//! `AnyParts`, `AnyPair`.
#![tactic(auto)]

pub mod any_pairs;
pub mod builders;
pub mod forms;
mod making;

pub use any_pairs::AnyPair;
pub use builders::{AnyParts, Builder};
pub use forms::{End, LineForm, LogForm, Part, Side};
