//! Where the message of a receive stands.
ghost use Rattle.pair.specs.Messages.{Lends};

/// The part of a lent frame that a receive named: so many bytes from this offset on, if they lie in the frame.
pub fn message_in(frame: &[u8], offset: usize, length: usize) -> Option<&[u8]>
    ensures { Lends frame.now offset length result }
{
    frame.get(offset..)?.get(..length)
}
