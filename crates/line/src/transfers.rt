//! Moving what waits from one line to another.
ghost use Rattle.std.specs.Prelude.{◌≡◌, length};
ghost use Rattle.line.specs.Transfers.{transfer_of, Transfers};

use crate::lines::Line;
use wire::Refusal;

/// Moves what waits in one line to the other, in pieces through a buffer, as far as there is room, and says
/// how many bytes went. A buffer that holds no byte is refused.
pub fn transfer<F: Line, T: Line>(
    from: &mut F,
    to: &mut T,
    buffer: &mut [u8],
) -> Result<usize, Refusal>
    ensures { let before = transfer_of (F.Line.view from.old) (T.Line.view to.old) buffer.old in
        let after = transfer_of (F.Line.view from.new) (T.Line.view to.new) buffer.new in
        Transfers before result after }
{
    if buffer.is_empty() {
        return Err(Refusal::ShortBuffer);
    }
    let before = from.waiting();
    loop {
        let most = buffer.len().min(to.room());
        let taken = from.take(&mut buffer[..most]);
        if taken == 0 {
            return Ok(before - from.waiting());
        }
        to.put(&buffer[..taken])?;
    }
}
