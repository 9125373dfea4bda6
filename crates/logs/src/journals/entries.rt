//! A journal as a log.
ghost use Rattle.std.specs.Prelude.{◌≡◌, ◌≤◌};
ghost use Rattle.message_log.specs.Calls.{Lent};
ghost use Rattle.packed_messages.specs.Shown.{packed_of};
ghost use Rattle.logs.specs.Format.{saved};
ghost use Rattle.logs.specs.Layout.{offset_of, walked, recorded};
ghost use Rattle.logs.specs.JournalSound.{journal_sound};

use super::heads::{note, record_end, session_record};
use super::{JOURNAL_LEAST, Journal, RECORD_HEAD};
use crate::records::Mark;
use message_log::Log;
use packed_messages::{copy_out, edge_at};
use wire::Refusal;

impl Journal {
    /// The bytes in use: the log in its saved form.
    pub fn bytes(&self) -> &[u8]
        ensures { let log = ⟦<Journal as Log>⟧.view self.now in
            result.now ≡ saved log.session log.messages }
    {
        &self.packed.memory()[..self.packed.used()]
    }

    /// Where record k ends, from 0 where the session record does: as the index says, and behind it by the records.
    fn edge(&self, k: usize) -> usize
        requires { k ≤ (packed_of self.now.packed).count }
        ensures { result ≡ walked (packed_of self.now.packed).memory k }
    {
        let memory = self.packed.memory();
        let mut n = k.min(self.index.len());
        let mut at = edge_at(JOURNAL_LEAST, &self.index, n);
        while n < k {
            at = record_end(memory, at);
            n += 1;
        }
        at
    }

    /// Where the record of message n begins.
    pub fn offset(&self, n: usize) -> Result<usize, Refusal>
        ensures { result ≡ offset_of (⟦<Journal as Log>⟧.view self.now) n }
    {
        Ok(self.edge(self.packed.index_of(n)?))
    }

    /// Message n, where it lies.
    pub fn message(&self, n: usize) -> Result<&[u8], Refusal>
        ensures { Lent (⟦<Journal as Log>⟧.view self.now) n result }
    {
        let start = self.edge(self.packed.index_of(n)?);
        let memory = self.packed.memory();
        let end = record_end(memory, start);
        Ok(&memory[start + RECORD_HEAD..end])
    }
}

impl Log for Journal {
    ghost view = { λ s. recorded (packed_of s.packed) };

    ghost sound = { λ s. journal_sound s };

    fn session(&self) -> u8 {
        self.packed.session()
    }

    fn count(&self) -> usize {
        self.packed.count()
    }

    fn length_of(&self, n: usize) -> Result<usize, Refusal> {
        Ok(self.message(n)?.len())
    }

    fn would_take(&self, bytes: usize) -> Result<(), Refusal> {
        self.packed.would_take(bytes)
    }

    fn begin(&mut self, session: u8) -> Result<(), Refusal> {
        self.packed.begin(session, session_record(session))?;
        self.index.clear();
        Ok(())
    }

    fn append(&mut self, message: &[u8]) -> Result<(), Refusal> {
        let before = self.packed.count();
        self.packed
            .append(Mark::Message.head(message.len()), message)?;
        note(&mut self.index, before, self.packed.used());
        Ok(())
    }

    fn read(&self, n: usize, buffer: &mut [u8]) -> Result<usize, Refusal> {
        copy_out(self.message(n)?, buffer)
    }
}
