//! What both ends of a connection share: a packet put on a line, bytes taken into a frame, a frame judged, and ticks
//! counted.
//!
//! Left out: phases, and what an end does with a packet. The functions, in the order a reader meets them: `has_room`,
//! `post`, `post_message`, `fill`, `is_part`, `judge`, `one_more`.
#![tactic(auto)]

pub mod filling;
pub mod judging;
pub mod posting;
pub mod ticking;

pub use filling::fill;
pub use judging::{is_part, judge};
pub use posting::{has_room, post, post_message};
pub use ticking::{BEAT_AFTER, SILENCE_LIMIT, one_more};
