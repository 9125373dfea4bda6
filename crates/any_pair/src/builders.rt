//! The parts of a pair, as they are made one by one.
ghost use Rattle.std.specs.Prelude.{◌≡◌, false, IfOk, MatchResult};
ghost use Rattle.wire.specs.Limits.{packet_limit};
ghost use Rattle.pair.specs.Lent.{blank};
ghost use Rattle.any_pair.specs.Makings.{Bare, Joined, Left, Makes, PartDenied, is_complete};

use crate::forms::{End, Part, Side};
use crate::making::{line_of, log_of};
use account::Accounts;
use line::Line;
use lines::{AnyLine, CountedLine};
use logs::AnyLog;
use pair::Buffers;
use relay::{Credentials, Parts};
use std::alloc::{AllocError, Global};
use wire::Refusal;

/// All parts of a pair, of any kinds.
pub type AnyParts = Parts<AnyLog, AnyLog, CountedLine<AnyLine>, CountedLine<AnyLine>>;

/// The parts of a pair, as far as they are made.
#[derive(Drop)]
pub struct Builder {
    pub hub_log: Option<AnyLog>,
    pub seat_log: Option<AnyLog>,
    pub up: Option<CountedLine<AnyLine>>,
    pub down: Option<CountedLine<AnyLine>>,
    pub accounts: Accounts,
    pub seat: Option<Credentials>,
    pub buffers: Buffers,
}

impl Builder {
    /// No part but an empty account table, and buffers that are long enough.
    pub fn new(heap: Global) -> Result<Builder, AllocError>
        ensures { IfOk result
            (λ p. Bare p × (p.buffers ≡ blank packet_limit packet_limit packet_limit)) }
    {
        Ok(Builder {
            buffers: Buffers::new(heap)?,
            ..Builder::none(heap)
        })
    }

    /// No part but an empty account table, and buffers without a byte.
    pub fn none(heap: Global) -> Builder
        ensures { Bare result × (result.buffers ≡ blank 0 0 0) }
    {
        Builder {
            hub_log: None,
            seat_log: None,
            up: None,
            down: None,
            accounts: Accounts::new(),
            seat: None,
            buffers: Buffers::empty(heap),
        }
    }

    /// Makes a part, in place of one that was made before. Where it is refused, the parts stay as they are.
    pub fn make(&mut self, heap: Global, part: Part<'_>) -> Result<(), Refusal>
        ensures { MatchResult result
            (λ _. Makes ⟦<AnyLine as Line>⟧.view part.entry self.old self.new)
            (λ e. PartDenied part.entry self.old e × Left self.old self.new) }
    {
        match part {
            Part::Log(End::Hub, form) => self.hub_log = Some(log_of(heap, form)?),
            Part::Log(End::Seat, form) => self.seat_log = Some(log_of(heap, form)?),
            Part::Line(Side::Up, form) => self.up = Some(CountedLine::new(line_of(heap, form)?)),
            Part::Line(Side::Down, form) => self.down = Some(CountedLine::new(line_of(
                heap, form,
            )?)),
            Part::Account(texts) => {
                let _row = self
                    .accounts
                    .add(texts.user, texts.computer, texts.protocol)?;
            }
            Part::Seat(texts) => self.seat = Some(Credentials::of(heap, texts)?),
            Part::Buffers { hub, seat, out } => {
                self.buffers = Buffers::with_lengths(heap, hub, seat, out)?;
            }
        }
        Ok(())
    }

    /// All parts of a pair, or these parts where one is missing.
    pub fn into_parts(self) -> Result<AnyParts, Builder>
        ensures { MatchResult result
            (λ parts. Joined ⟦<AnyLine as Line>⟧.view self parts)
            (λ builder. (is_complete self ≡ false) × (builder ≡ self)) }
    {
        let Builder {
            hub_log,
            seat_log,
            up,
            down,
            accounts,
            seat,
            buffers,
        } = self;
        match (hub_log, seat_log, up, down, seat) {
            (Some(hub_log), Some(seat_log), Some(up), Some(down), Some(seat)) => Ok(Parts {
                hub_log,
                seat_log,
                up,
                down,
                accounts,
                seat,
                buffers,
            }),
            (hub_log, seat_log, up, down, seat) => Err(Builder {
                hub_log,
                seat_log,
                up,
                down,
                accounts,
                seat,
                buffers,
            }),
        }
    }
}

impl From<AnyParts> for Builder {
    ghost from_gives = { λ parts builder. Joined ⟦<AnyLine as Line>⟧.view builder parts };

    fn from(parts: AnyParts) -> Builder {
        Builder {
            hub_log: Some(parts.hub_log),
            seat_log: Some(parts.seat_log),
            up: Some(parts.up),
            down: Some(parts.down),
            accounts: parts.accounts,
            seat: Some(parts.seat),
            buffers: parts.buffers,
        }
    }
}
