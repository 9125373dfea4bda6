//! Showing what a saved journal holds.
ghost use Rattle.std.specs.Prelude.{◌≡◌, ◌<◌, ◌≤◌, length, take, None};
ghost use Rattle.logs.specs.Reading.{fault_at};

use capture::rows::{ROW, row};
use logs::{JOURNAL_LEAST, JOURNAL_LIMIT, Journal, RecordFault, fault_at};
use message_log::Log;
use std::alloc::Global;
use std::io;
use std::io::Write;
use wire::{Refusal, Unmade};

/// What is wrong at this place of the first `used` bytes, if anything is.
fn cause(memory: &[u8], used: usize, place: usize) -> Option<RecordFault>
    ensures within { used ≤ length memory.now → result ≡ fault_at (take used memory.now) place }
    ensures beyond { length memory.now < used → result ≡ None }
{
    fault_at(memory.get(..used)?, place)
}

/// Where journals are shown, and the heap that it takes.
#[derive(Drop)]
pub struct Printer<W> {
    pub heap: Global,
    pub out: W,
}

impl<W: Write> Printer<W> {
    /// Shows one message: its number, where its record begins, its length, and its bytes.
    fn show_message(&mut self, journal: &Journal, n: usize) -> io::Result<()> {
        match (journal.offset(n), journal.message(n)) {
            (Ok(offset), Ok(message)) => {
                let len = message.len();
                writeln!(self.out, "  message {n} at {offset}, {len} bytes")?;
                self.show_rows(message)
            }
            (Err(refusal), _) | (_, Err(refusal)) => {
                writeln!(self.out, "  message {n}: {refusal}")
            }
        }
    }

    /// Shows the bytes of a message.
    // Printed here, with a margin of its own: `capture::rows` makes rows and has no output.
    fn show_rows(&mut self, message: &[u8]) -> io::Result<()> {
        for bytes in message.chunks(ROW) {
            self.out.write_all(b"    ")?;
            self.out.write_all(&row(self.heap, bytes)?)?;
            self.out.write_all(b"\n")?;
        }
        Ok(())
    }

    /// Shows a journal: its session, the number of its messages, the bytes used and free, and each message.
    fn show_journal(&mut self, journal: &Journal) -> io::Result<()> {
        let session = journal.session();
        let count = journal.count();
        let used = journal.bytes().len();
        let free = JOURNAL_LIMIT.saturating_sub(used);
        writeln!(
            self.out,
            "  session {session}; messages {count}; bytes used {used}, free {free}"
        )?;
        for n in 1..=count {
            self.show_message(journal, n)?;
        }
        Ok(())
    }

    /// Shows why a log was not opened whose bytes in use were the first `used`, and what can still be read before the
    /// place where it is broken.
    // The memory whole, and how much of it was in use: `open` hands the memory back, and takes it again.
    fn show_refused(&mut self, path: &str, unmade: Unmade<Vec<u8>>, used: usize) -> io::Result<()> {
        let Refusal::BrokenLog(place) = unmade.refusal else {
            return writeln!(self.out, "{path}: {}", unmade.refusal);
        };
        match cause(&unmade.given, used, place) {
            Some(fault) => writeln!(self.out, "{path}: broken at place {place}: {fault}")?,
            None => writeln!(self.out, "{path}: broken at place {place}")?,
        }
        match Journal::open(self.heap, unmade.given, place) {
            Ok(journal) => {
                writeln!(self.out, "  before it")?;
                self.show_journal(&journal)
            }
            Err(_) => writeln!(self.out, "  nothing can be read before it"),
        }
    }

    /// Shows what the bytes of a file hold.
    pub fn show_saved(&mut self, path: &str, mut memory: Vec<u8>) -> io::Result<()> {
        let used = memory.len();
        // A journal needs memory for its session record, also where the file is too short to hold one.
        memory.resize(used.max(JOURNAL_LEAST), 0)?;
        match Journal::open(self.heap, memory, used) {
            Ok(journal) => {
                writeln!(self.out, "{path}: sound")?;
                self.show_journal(&journal)
            }
            Err(unmade) => self.show_refused(path, unmade, used),
        }
    }
}
