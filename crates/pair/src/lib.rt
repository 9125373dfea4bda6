//! A pair: a hub and a seat, and every call on them.
//!
//! A `Pair` holds the two ends, the account table and the account by which the seat logs in. The logs, the lines and the
//! buffers are lent to each call; the three buffers are one parameter. Each call is a step of the rules, from what the
//! pair meant to its answer and to what the pair means then.
//!
//! Left out: runs of calls, and the promises. In the order a reader meets them: `Buffers`, `Pair` and what it answers
//! of itself, `AccountTexts` and `Pair::set_up`, the calls, the receives and the sends, `round`, `message_in`.
#![tactic(auto)]

mod buffers;
mod calls;
mod ends;
mod messages;
mod pairs;
mod rounds;
mod setting;

pub use buffers::Buffers;
pub use messages::message_in;
pub use pairs::Pair;
pub use setting::AccountTexts;
