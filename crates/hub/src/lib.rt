//! The hub: the end of a connection that holds the messages and sends them.
//!
//! A `Hub` holds no log, table, line or buffer: each call is lent what it needs. Its `HubState` is where it stands with
//! its connection: the phase, and the row of the account that is logged in.
//!
//! Left out: the seat, and what clears the up line. In the order a reader meets them: `Hub`, its `receive`, what it
//! makes of a packet (`acts`), its `send`, what is due (`dues`), what it does with its session, the other calls.
#![tactic(auto)]

mod acts;
mod calls;
mod dues;
mod hubs;
mod receiving;
mod sending;
mod sessions;
mod state;

pub use hubs::Hub;
