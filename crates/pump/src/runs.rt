//! A run: the input through a line, in pieces.
ghost use Rattle.std.specs.Prelude.{◌≡◌, ◌≤◌, length, IfOk, OnOk};
ghost use Rattle.wire.specs.Limits.{packet_limit};
ghost use Rattle.pump.specs.Pumping.{Pumped};
ghost use Rattle.pump.specs.Pumpers.{Drew, Drawn, Sent};

use crate::pieces::PieceSize;
use crate::pumpers::Pumper;
use crate::traces::{Act, Trace};
use line::Line;
use std::alloc::{AllocError, Global};

impl Pumper {
    /// Takes once.
    fn draw<L: Line>(&mut self, line: &mut L) -> Result<(), AllocError>
        ensures { let before = L.Line.view line.old in
            let after = L.Line.view line.new in
            OnOk result (Drew before self.old after self.new) }
    {
        let taken = line.take(self.buffer.as_mut_slice());
        self.trace.receive(&self.buffer[..taken])?;
        self.trace.note(Act::Take, taken, line)
    }

    /// Takes until so many bytes have room.
    // One loop for this and `drain`, with a test that is passed in, would be no plainer: that each ends rests on what its
    // own test says.
    fn make_room<L: Line>(&mut self, line: &mut L, bytes: usize) -> Result<(), AllocError>
        requires { bytes ≤ packet_limit }
        ensures { let before = L.Line.view line.old in
            let after = L.Line.view line.new in
            OnOk result (Drawn before self.old after self.new × (bytes ≤ after.room)) }
    {
        while line.room() < bytes {
            self.draw(line)?;
        }
        Ok(())
    }

    /// Takes until nothing waits.
    fn drain<L: Line>(&mut self, line: &mut L) -> Result<(), AllocError>
        ensures { let before = L.Line.view line.old in
            let after = L.Line.view line.new in
            OnOk result (Drawn before self.old after self.new × (length after.waiting ≡ 0)) }
    {
        while line.waiting() > 0 {
            self.draw(line)?;
        }
        Ok(())
    }

    /// Puts a piece, after room was made for it if it was refused.
    fn send<L: Line>(&mut self, line: &mut L, piece: &[u8]) -> Result<(), AllocError>
        requires { length piece.now ≤ packet_limit }
        ensures { let before = L.Line.view line.old in
            let after = L.Line.view line.new in
            OnOk result (Sent before self.old piece.now after self.new) }
    {
        if !self.trace.offer(line, piece)? {
            self.make_room(line, piece.len())?;
            self.trace.offer(line, piece)?;
        }
        Ok(())
    }
}

/// Clears the line, sends the input through it in pieces, and gives the trace of what it did.
pub fn run<L: Line>(
    heap: Global,
    line: &mut L,
    input: &[u8],
    piece: PieceSize,
) -> Result<Trace, AllocError>
    ensures { let before = L.Line.view line.old in
        let after = L.Line.view line.new in
        IfOk result (λ trace. Pumped before input.now piece.bytes trace after) }
{
    let mut pumper = Pumper::new(heap, piece)?;
    line.clear();
    for next in input.chunks(piece.bytes()) {
        pumper.send(line, next)?;
    }
    pumper.drain(line)?;
    Ok(pumper.trace)
}
