//! What a log has left, and the judgement of a message by it.
ghost use Rattle.std.specs.Prelude.{◌≡◌};
ghost use Rattle.message_log.specs.Calls.{verdict};

use wire::Refusal;
use wire::limits::MESSAGE_LIMIT;

/// What a log has left.
#[derive(Clone, Copy)]
pub struct Space {
    /// The session, or 0 for none, as in a log.
    pub session: u8,
    /// The bytes that are free.
    pub room: usize,
    /// The slots that are free.
    pub slots: usize,
    /// What each message takes beside its own bytes.
    pub overhead: usize,
}

impl Space {
    /// Whether a message of so many bytes is taken, and if not why: too long, no room or slot, no session.
    pub fn judge(self, bytes: usize) -> Result<(), Refusal>
        ensures { result ≡ verdict self.session self.room self.slots self.overhead bytes }
    {
        if bytes > MESSAGE_LIMIT {
            return Err(Refusal::MessageTooLong);
        }
        let taken = bytes.checked_add(self.overhead);
        if taken.is_none_or(|taken| taken > self.room) || self.slots == 0 {
            return Err(Refusal::LogFull);
        }
        if self.session == 0 {
            return Err(Refusal::NoSession);
        }
        Ok(())
    }
}
