//! A log of either kind, so that a program chooses at run time.
ghost use Rattle.std.specs.Prelude.{◌≡◌};
ghost use Rattle.message_log.specs.Meaning.{Meaning};
ghost use Rattle.logs.specs.Kinds.{inside};
ghost use Rattle.logs.specs.JournalSound.{journal_sound};
ghost use Rattle.logs.specs.IndexedSound.{indexed_sound};
ghost use Rattle.logs.specs.declared.any.AnyLog.TheVariants.{Journal, Indexed};

use message_log::Log;
use wire::Refusal;

/// A journal or an indexed log.
// An enum and no `dyn`: a program hands its choice out, and no function may hand a `dyn` value out.
#[derive(Drop)]
pub enum AnyLog {
    Journal(crate::journals::Journal),
    Indexed(crate::indexing::Indexed),
}

/// What a call answers at the log in the enum, whichever kind it is.
macro_rules! at_each {
    ($any:expr, $log:ident => $call:expr) => {
        match $any {
            AnyLog::Journal($log) => $call,
            AnyLog::Indexed($log) => $call,
        }
    };
}

impl Log for AnyLog {
    ghost view = { inside };

    ghost sound = { elim [ Journal s ↦ journal_sound s | Indexed s ↦ indexed_sound s ] };

    fn session(&self) -> u8 {
        at_each!(self, log => log.session())
    }

    fn count(&self) -> usize {
        at_each!(self, log => log.count())
    }

    fn length_of(&self, n: usize) -> Result<usize, Refusal> {
        at_each!(self, log => log.length_of(n))
    }

    fn would_take(&self, bytes: usize) -> Result<(), Refusal> {
        at_each!(self, log => log.would_take(bytes))
    }

    fn begin(&mut self, session: u8) -> Result<(), Refusal> {
        at_each!(self, log => log.begin(session))
    }

    fn append(&mut self, message: &[u8]) -> Result<(), Refusal> {
        at_each!(self, log => log.append(message))
    }

    fn read(&self, n: usize, buffer: &mut [u8]) -> Result<usize, Refusal> {
        at_each!(self, log => log.read(n, buffer))
    }
}
