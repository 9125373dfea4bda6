//! Lines that show what waits without handing it over.
ghost use Rattle.std.specs.Prelude.{◌≡◌, ◌++◌};

use crate::lines::Line;

/// A line that lends what waits on it. It is only lent, so the line stays as it is.
pub trait PeekLine: Line {
    /// The bytes that wait, the first put first, in two parts, of which the second goes on where the first ends.
    /// Where it ends is the line's own choice, and either part may be empty.
    fn peek(&self) -> (&[u8], &[u8])
        ensures { result.0.now ++ result.1.now ≡ (Self.view self.now).waiting };
}
