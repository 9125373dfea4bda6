//! The trait that every log keeps.
ghost use Rattle.std.specs.Prelude.{◌≡◌, length};
ghost use Rattle.message_log.specs.Meaning.{Meaning, Sound, count, nth, begun, added};
ghost use Rattle.message_log.specs.Calls.{takes, begins, settled, measured, reads, fronted};

use wire::Refusal;

/// The largest size of a log in bytes, and the largest overhead and number of slots.
pub const SIZE_LIMIT: usize = 16_777_216;

/// A log: a session and a list of messages, numbered from 1.
///
/// A refused call changes nothing, neither the log nor the buffer. The questions (`session`, `count`, `length_of`,
/// `would_take`) change nothing either, so a caller can judge everything before it changes anything.
pub trait Log {
    ghost view: { Self → Meaning };

    /// The session, or 0 for none: so the wire and the saved form have it.
    fn session(&self) -> u8
        ensures { result ≡ (view self.now).session };

    /// How many messages are held.
    fn count(&self) -> usize
        ensures { result ≡ count (view self.now) };

    /// The length of message n.
    fn length_of(&self, n: usize) -> Result<usize, Refusal>
        ensures { result ≡ measured (view self.now) n };

    /// Whether a message of so many bytes would be taken, and if not why.
    fn would_take(&self, bytes: usize) -> Result<(), Refusal>
        ensures { result ≡ takes (view self.now) bytes };

    /// Sets the session and empties the list.
    fn begin(&mut self, session: u8) -> Result<(), Refusal>
        ensures value { result ≡ begins session }
        ensures after { let before = view self.old in
            view self.new ≡ settled result (begun before session) before };

    /// Adds a message at the end.
    fn append(&mut self, message: &[u8]) -> Result<(), Refusal>
        ensures value { result ≡ takes (view self.old) (length message.now) }
        ensures after { let before = view self.old in
            view self.new ≡ settled result (added before message.now) before };

    /// Copies message n to the front of the buffer, leaves the buffer's rest, and says how long the message is.
    fn read(&self, n: usize, buffer: &mut [u8]) -> Result<usize, Refusal>
        ensures value { result ≡ reads (view self.now) n (length buffer.old) }
        ensures after { let message = nth (view self.now) n in
            buffer.new ≡ settled result (fronted message buffer.old) buffer.old };

    ghost sound: { (s : Self) → Sound (view s) };
}
