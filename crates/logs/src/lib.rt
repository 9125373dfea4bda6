//! The kinds of logs, each in a file of its own, and the form in which a log is saved.
//!
//! A **journal** is a log whose bytes in use are its saved form, so saving is a copy and opening is a walk over the
//! records. An **indexed log** keeps its messages one behind the other, and where each one ends in a table. Both are
//! made of `PackedMessages`, messages in one run of bytes. An enum over the two lets a program choose at run time.
//!
//! A **record** of the saved form is a mark, a length, low byte first, and a body: first that of the session, then one
//! for each message. `read_record` says of the bytes at the front of a run what record stands there, or what is wrong.
//!
//! Left out: what a log means, which is the crate `message_log`, and files. In the order a reader meets them: `Mark`,
//! `RecordFault`, `Record`, `read_session`, `read_message`, `fault_at`; `Journal`, `Indexed`, `AnyLog`.
#![tactic(auto)]

pub mod any;
pub mod indexing;
pub mod journal_laws;
pub mod journals;
pub mod reader;
pub mod record_laws;
pub mod records;

pub use any::AnyLog;
pub use indexing::{Indexed, POOL_LIMIT, TABLE_LIMIT};
pub use journals::{JOURNAL_LEAST, JOURNAL_LIMIT, Journal};
pub use reader::{fault_at, read_message, read_record, read_session};
pub use records::{Mark, Record, RecordFault};
