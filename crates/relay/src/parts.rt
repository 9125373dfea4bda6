//! All that a pair is set up of.
ghost use Rattle.std.specs.Prelude.{IfOk};
ghost use Rattle.relay.specs.Copies.{Copies};

use account::Accounts;
use line::Line;
use message_log::Log;
use pair::{AccountTexts, Buffers};
use std::alloc::{AllocError, Global};
use std::marker::Model;

/// The three texts by which the seat logs in, as they were given.
#[derive(Drop)]
pub struct Credentials {
    pub user: Vec<u8>,
    pub computer: Vec<u8>,
    pub protocol: Vec<u8>,
}

impl Credentials {
    /// A copy of these texts.
    pub fn of(heap: Global, texts: AccountTexts<'_>) -> Result<Credentials, AllocError>
        ensures { IfOk result (λ c. Copies texts.entry c) }
    {
        Ok(Credentials {
            user: texts.user.to_vec(heap)?,
            computer: texts.computer.to_vec(heap)?,
            protocol: texts.protocol.to_vec(heap)?,
        })
    }
}

/// All that a pair is set up of.
#[derive(Drop)]
pub struct Parts<G: Log, S: Log, U: Line, D: Line> {
    pub hub_log: G,
    pub seat_log: S,
    /// The line from the seat to the hub.
    pub up: U,
    /// The line from the hub to the seat.
    pub down: D,
    /// The account table of the hub.
    pub accounts: Accounts,
    /// What the seat logs in with; it is judged at set-up.
    pub seat: Credentials,
    pub buffers: Buffers,
}

/// The parts mean what set-up is given.
impl<G: Log, S: Log, U: Line, D: Line> Model for Parts<G, S, U, D> {
    ghost use Rattle.rules.specs.SetUp as Given;

    ghost Value = { Given.Parts };

    ghost view = { λ p. record {
      hub_log = G.Log.view p.hub_log;
      seat_log = S.Log.view p.seat_log;
      up = U.Line.view p.up;
      down = D.Line.view p.down;
      rows = p.accounts.rows;
      user = p.seat.user.items;
      computer = p.seat.computer.items;
      protocol = p.seat.protocol.items;
      buffers = p.buffers;
    } };
}
