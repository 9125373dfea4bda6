//! Messages in one run of bytes, one behind the other.
ghost use Rattle.std.specs.Prelude.{◌≡◌, ◌<◌, ◌≤◌, vec_len};
ghost use Rattle.message_log.specs.Meaning.{size_limit};
ghost use Rattle.packed_messages.specs.Bytes.{Bytes};

use message_log::{SIZE_LIMIT, Space};
use wire::{Refusal, Unmade, allow, lay};

/// A session and its messages in one run of bytes. The first message begins behind `BASE` bytes, and each one lies
/// behind a gap of `GAP` bytes. Where one ends and the next begins, the log says that is made of it.
#[derive(Drop)]
pub struct PackedMessages<const BASE: usize, const GAP: usize> {
    memory: Vec<u8>,
    used: usize,
    count: usize,
    slots: usize,
    session: u8,
    ghost large: { BASE ≤ used },
    ghost within: { used ≤ vec_len memory },
    ghost small: { vec_len memory ≤ size_limit },
    ghost placed: { count ≤ slots },
    ghost few: { slots ≤ size_limit },
    // The types say the next two, but a law, as that of every log, sees numbers alone.
    ghost bytes: { Bytes memory.items },
    ghost byte: { session < 256 },
    ghost silent: { (session ≡ 0 → count ≡ 0) },
}

impl<const BASE: usize, const GAP: usize> PackedMessages<BASE, GAP> {
    ghost use Rattle.std.specs.Prelude.{◌+◌, ◌++◌, length, MatchResult};
    ghost use Rattle.wire.specs.declared.refusals.Refusal.TheVariants.{NoSuchMessage};
    ghost use Rattle.wire.specs.Making.{Makes};
    ghost use Rattle.wire.specs.Overlay.{laid};
    ghost use Rattle.message_log.specs.Calls.{begins, settled};
    ghost use Rattle.packed_messages.specs.Packed.{run_of, InRange, judged, fronted_by, restarted, extended};
    ghost use Rattle.packed_messages.specs.Shown.{packed_of};

    /// A run of bytes that is used so far, by so many messages of the session given, with so many slots for messages.
    /// Numbers that do not fit each other are refused.
    pub fn new(
        memory: Vec<u8>,
        used: usize,
        count: usize,
        slots: usize,
        session: u8,
    ) -> Result<PackedMessages<BASE, GAP>, Unmade<Vec<u8>>>
        ensures { let v = run_of memory.items used count slots session in
            Makes (InRange BASE v) (λ p. packed_of p ≡ v) memory result }
    {
        let sized = BASE <= used && used <= memory.len() && memory.len() <= SIZE_LIMIT;
        let memory = allow(sized, memory)?;
        let counted = count <= slots && slots <= SIZE_LIMIT && (session != 0 || count == 0);
        let memory = allow(counted, memory)?;
        Ok(PackedMessages {
            memory,
            used,
            count,
            slots,
            session,
        })
    }

    /// The session, or 0 for none.
    pub fn session(&self) -> u8
        ensures { result ≡ (packed_of self.now).session }
    {
        self.session
    }

    /// How many messages there are.
    pub fn count(&self) -> usize
        ensures { result ≡ (packed_of self.now).count }
    {
        self.count
    }

    /// How far the bytes are used: to the end of the last message.
    pub fn used(&self) -> usize
        ensures { result ≡ (packed_of self.now).used }
    {
        self.used
    }

    /// The run of bytes.
    pub fn memory(&self) -> &[u8]
        ensures { result.now ≡ (packed_of self.now).memory }
    {
        &self.memory
    }

    /// The index of message n among the messages, from 0.
    pub fn index_of(&self, n: usize) -> Result<usize, Refusal>
        ensures { let count = (packed_of self.now).count in
            MatchResult result
            (λ k. (n ≡ k + 1) × (k < count))
            (λ e. (e ≡ NoSuchMessage) × (0 < n → count < n)) }
    {
        if n == 0 || n > self.count {
            return Err(Refusal::NoSuchMessage);
        }
        Ok(n - 1)
    }

    /// Whether a message of so many bytes would be taken, and if not why.
    pub fn would_take(&self, bytes: usize) -> Result<(), Refusal>
        ensures { result ≡ judged GAP (packed_of self.now) bytes }
    {
        let space = Space {
            session: self.session,
            room: self.memory.len() - self.used,
            slots: self.slots - self.count,
            overhead: GAP,
        };
        space.judge(bytes)
    }

    /// Lays a piece over the bytes from `at` on.
    fn lay_in(&mut self, at: usize, piece: &[u8])
        requires { at + length piece.now ≤ vec_len self.old.memory }
        ensures { let before = packed_of self.old in
            packed_of self.new ≡ record before { memory = laid before.memory at piece.now } }
    {
        lay(&mut self.memory, at, piece);
    }

    /// Lays these bytes before the first message.
    pub fn lay_front(&mut self, front: [u8; BASE])
        ensures { packed_of self.new ≡ fronted_by front.entry (packed_of self.old) }
    {
        self.lay_in(0, &front);
    }

    /// Sets the session, empties the list, and lays these bytes before it.
    pub fn begin(&mut self, session: u8, front: [u8; BASE]) -> Result<(), Refusal>
        ensures value { result ≡ begins session }
        ensures after { let before = packed_of self.old in
            packed_of self.new ≡ settled result (restarted BASE session front.entry before) before }
    {
        if session == 0 {
            return Err(Refusal::SessionZero);
        }
        self.lay_front(front);
        self.session = session;
        self.used = BASE;
        self.count = 0;
        Ok(())
    }

    /// Adds a message at the end, with these bytes in its gap.
    pub fn append(&mut self, head: [u8; GAP], message: &[u8]) -> Result<(), Refusal>
        ensures value { result ≡ judged GAP (packed_of self.old) (length message.now) }
        ensures after { let before = packed_of self.old in
            let piece = head.entry ++ message.now in
            packed_of self.new ≡ settled result (extended piece before) before }
    {
        self.would_take(message.len())?;
        let at = self.used;
        self.lay_in(at, &head);
        self.lay_in(at + GAP, message);
        self.used = at + GAP + message.len();
        self.count += 1;
        Ok(())
    }
}
