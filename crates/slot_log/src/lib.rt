//! A log of equal slots, one for each message.
//!
//! It is the smallest log, to be read before another is written: `docs/your-own.md` walks through it. Left out: how
//! a log is saved. In the order a reader meets them: `Slot`, `Slots`.
#![tactic(auto)]

ghost use Rattle.std.specs.Prelude.{◌≡◌, ◌<◌, ◌≤◌, vec_len};
ghost use Rattle.wire.specs.Making.{Makes};
ghost use Rattle.message_log.specs.Calls.{Lent};
ghost use Rattle.slot_log.specs.Slotted.{slot_limit, slotted, Left};

pub mod slot;

use message_log::{Log, SIZE_LIMIT};
use packed_messages::copy_out;
pub use slot::Slot;
use wire::{MESSAGE_LIMIT, Refusal, Unmade, allow};

/// The most slots.
pub const SLOT_LIMIT: usize = SIZE_LIMIT / MESSAGE_LIMIT;

/// A log of equal slots: message n stands in slot n.
#[derive(Drop)]
pub struct Slots {
    slots: Vec<Slot>,
    session: u8,
    count: usize,
    ghost few: { vec_len slots ≤ slot_limit },
    ghost placed: { count ≤ vec_len slots },
    // The type says it, but the law of every log sees numbers alone.
    ghost byte: { session < 256 },
    ghost silent: { (session ≡ 0 → count ≡ 0) },
}

impl Slots {
    /// An empty log without a session over these slots, whatever they hold.
    pub fn new(slots: Vec<Slot>) -> Result<Slots, Unmade<Vec<Slot>>>
        ensures { let empty = slotted 0 slots.items 0 in
            Makes (vec_len slots ≤ slot_limit) (λ s. ⟦<Slots as Log>⟧.view s ≡ empty) slots result }
    {
        let slots = allow(slots.len() <= SLOT_LIMIT, slots)?;
        Ok(Slots {
            slots,
            session: 0,
            count: 0,
        })
    }

    /// Message n, where it lies.
    pub fn message(&self, n: usize) -> Result<&[u8], Refusal>
        ensures { Lent (⟦<Slots as Log>⟧.view self.now) n result }
    {
        if n == 0 || n > self.count {
            return Err(Refusal::NoSuchMessage);
        }
        Ok(self.slots[n - 1].message())
    }

    /// How many slots are left.
    pub fn left(&self) -> usize
        ensures { Left (⟦<Slots as Log>⟧.view self.now) result }
    {
        self.slots.len() - self.count
    }
}

impl Log for Slots {
    ghost use Rattle.slot_log.specs.Sounds.{slots_sound};

    ghost view = { λ s. slotted s.session s.slots.items s.count };

    ghost sound = { slots_sound };

    fn session(&self) -> u8 {
        self.session
    }

    fn count(&self) -> usize {
        self.count
    }

    fn length_of(&self, n: usize) -> Result<usize, Refusal> {
        Ok(self.message(n)?.len())
    }

    fn would_take(&self, bytes: usize) -> Result<(), Refusal> {
        if bytes > MESSAGE_LIMIT {
            return Err(Refusal::MessageTooLong);
        }
        if self.left() == 0 {
            return Err(Refusal::LogFull);
        }
        if self.session == 0 {
            return Err(Refusal::NoSession);
        }
        Ok(())
    }

    fn begin(&mut self, session: u8) -> Result<(), Refusal> {
        if session == 0 {
            return Err(Refusal::SessionZero);
        }
        self.session = session;
        self.count = 0;
        Ok(())
    }

    fn append(&mut self, message: &[u8]) -> Result<(), Refusal> {
        self.would_take(message.len())?;
        self.slots[self.count] = Slot::of(message);
        self.count += 1;
        Ok(())
    }

    fn read(&self, n: usize, buffer: &mut [u8]) -> Result<usize, Refusal> {
        copy_out(self.message(n)?, buffer)
    }
}
