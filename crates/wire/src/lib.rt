//! What every layer shares: the numbers of the SesM wire, what can be wrong, and why a call is refused.
//!
//! A **fault** is something wrong in bytes that came from outside: it names its layer (packet or log), its
//! cause and its place. A **refusal** is a call's answer that what it was asked for was not done; other programs know
//! the refusals by their numbers. Each layer has a fault type of its own, and `?` passes it on through `From`.
//!
//! Left out: where a packet's fields stand and how they are read, which is the crate `packet`, and what finds the
//! faults. In the order a reader meets them: the limits, `Letter`, `Status`, `LogoutReason`, `GoodByeReason`,
//! `number_bytes`; `Field`, `PacketFault`, `LogFault`, `Layer`, `Fault`, `Refusal`, `Unmade`, `allow`; `lay`.
#![tactic(auto)]

pub mod faults;
pub mod goodbyes;
pub mod letters;
pub mod limits;
pub mod logouts;
pub mod making;
pub mod overlay;
pub mod refusals;
pub mod sequence_numbers;
pub mod statuses;

pub use faults::{Fault, Field, Layer, LogFault, PacketFault};
pub use goodbyes::GoodByeReason;
pub use letters::{LETTERS, Letter};
pub use limits::{LENGTH_LIMIT, MESSAGE_LIMIT, PACKET_LIMIT};
pub use logouts::LogoutReason;
pub use making::{Unmade, allow};
pub use overlay::lay;
pub use refusals::Refusal;
pub use sequence_numbers::number_bytes;
pub use statuses::Status;
