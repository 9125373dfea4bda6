//! The trait of every line.
ghost use Rattle.std.specs.Prelude.{◌≡◌, length};
ghost use Rattle.line.specs.Lines.{LineView, Sound, Put, Taken, cleared};

use wire::Refusal;

/// A line means four things: the bytes waiting, the room now, the full size and the hand-out limit.
/// The **room** is how many bytes can be put now, the **full size** is the room of a line in which nothing
/// waits, and the **hand-out limit** is the most that one take hands over. The last two never change.
///
/// What a take leaves free is the room after it, within three limits: it is no less than before, it is the
/// full size if nothing waits any more, and it is what `room` then answers. Nothing else about it is known to
/// code that is written for every line.
pub trait Line {
    ghost view: { Self → LineView };

    /// How many bytes wait.
    fn waiting(&self) -> usize
        ensures { result ≡ length (view self.now).waiting };

    /// How many bytes can be put now.
    fn room(&self) -> usize
        ensures { result ≡ (view self.now).room };

    /// Puts a piece behind what waits. A piece that does not fit the room is refused whole.
    fn put(&mut self, piece: &[u8]) -> Result<(), Refusal>
        ensures { Put (view self.old) piece.now result (view self.new) };

    /// Moves the first bytes that wait to the front of the buffer, as many as the buffer and the hand-out
    /// limit allow, and says how many. The rest of the buffer stays.
    fn take(&mut self, buffer: &mut [u8]) -> usize
        ensures { Taken (view self.old) buffer.old result (view self.new) buffer.new };

    /// Drops what waits.
    fn clear(&mut self)
        ensures { view self.new ≡ cleared (view self.old) };

    ghost sound: { (s : Self) → Sound (view s) };
}
