//! SesM packets, read from lent bytes and written into them.
//!
//! `Reader` is a struct over a lent slice. It holds no copy: the fields of what it reads are parts of the
//! bytes given. `Packet::write` writes a packet at the front of a lent buffer.
//!
//! Left out: lines, phases and what an end does with a packet. Here no letter is out of place.
//! The types, in the order a reader meets them: `Login`, `Packet`, `Reader`, `LetterCounts`.
#![tactic(auto)]

pub mod laws;
pub mod letter_counts;
pub mod packets;
pub mod reading;
pub mod writing;

pub use letter_counts::LetterCounts;
pub use packets::{Login, Packet};
pub use reading::Reader;
pub use writing::{HEAD_LEN, head};
