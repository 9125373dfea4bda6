//! A capture: the bytes of one direction of a connection, explained packet by packet.
//!
//! A `Frame` is filled from any input, `find` gives the first packet in it, and `Explainer` passes over packet after
//! packet, counts each, and writes it in words; then it sums up. It holds one frame, however long the capture is.
//! However the bytes come in pieces, the packets found are the same, and every byte belongs to one of them or to what
//! is left in the frame.
//!
//! Left out: what a packet is, which is the crate `packet`. In the order a reader meets them: `Frame`, `Found`, `find`,
//! `Ending`, `Summary`, `Explainer`, `explain`; the words of packets and summaries; rows of bytes.
#![tactic(auto)]

pub mod endings;
pub mod explainers;
pub mod finding;
pub mod frames;
pub mod laws;
pub mod packet_words;
pub mod rows;
pub mod summary_words;
pub mod texts;

pub use endings::{Ending, Summary};
pub use explainers::{Explainer, explain};
pub use finding::{Found, find};
pub use frames::Frame;
pub use packet_words::{show_packet, show_rest};
pub use summary_words::show_summary;
