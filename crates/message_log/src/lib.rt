//! What a log is: anything that keeps a session and a list of messages.
//!
//! A log means a **session** (from 1 to 255; 0 stands for none), its **messages** in order, and three numbers that stay
//! as they were when it was made: its **size** in bytes, its **overhead** (what each message takes beside its own
//! bytes) and its **slots** (how many messages it can hold). Its **room** is the size less what the messages
//! take. Code above this crate is written for any log and rests on that meaning alone.
//!
//! Left out: how a log keeps its messages. In the order a reader meets them: `Log`, `Space` (what a log has left,
//! which judges a message).
#![tactic(auto)]

pub mod laws;
pub mod logs;
pub mod space;

pub use logs::{Log, SIZE_LIMIT};
pub use space::Space;
