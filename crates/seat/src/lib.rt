//! The seat: the end of a connection that takes messages and keeps them in its log.
//!
//! A `Seat` holds no line, log or buffer: each call is lent what it needs. Its `SeatState` is where it stands with its
//! connection: the phase, what its login asked for, and what it was told.
//!
//! Left out: the hub, and what clears the down line. In the order a reader meets them: `Seat`, its `receive`, what it
//! makes of a packet (`acts`), its `send`, what is due (`dues`), the other calls.
#![tactic(auto)]

mod acts;
mod calls;
mod dues;
mod receiving;
mod seats;
mod sending;
mod state;

pub use seats::Seat;
