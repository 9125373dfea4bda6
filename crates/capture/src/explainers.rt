//! Explaining a capture from its first byte to its ending.
ghost use Rattle.std.specs.Prelude.{◌≡◌, ◌≤◌, length, IfOk};
ghost use Rattle.wire.specs.Limits.{packet_limit};
ghost use Rattle.capture.specs.Explained.{Turned, More, Explained, Fresh};

use crate::endings::{Ending, Summary};
use crate::finding::find;
use crate::frames::Frame;
use crate::packet_words::{show_packet, show_rest};
use crate::summary_words::show_summary;
use packet::LetterCounts;
use std::alloc::Global;
use std::io;
use std::io::{Read, Write};

/// What is known while a capture is explained.
#[derive(Drop)]
pub struct Explainer {
    frame: Frame,
    tally: LetterCounts,
    // where the frame's first byte stands in the capture; the largest `u64` stands for all beyond it
    offset: u64,
}

impl Explainer {
    /// Before the first byte.
    pub fn new() -> Explainer
        ensures fresh { Fresh result }
        ensures short { length result.frame ≤ packet_limit }
    {
        Explainer {
            frame: Frame::new(),
            tally: LetterCounts::new(),
            offset: 0,
        }
    }

    /// One step: shows the packet at the front of the frame, or reads more. Gives the ending where there is
    /// nothing more to show.
    pub fn turn<R: Read, W: Write>(
        &mut self,
        heap: Global,
        input: &mut R,
        out: &mut W,
    ) -> io::Result<Option<Ending>>
        ensures turned { Turned self.old self.new result }
        ensures short { length self.new.frame ≤ packet_limit }
    {
        let found = match find(self.frame.bytes()) {
            Ok(Some(found)) => found,
            Ok(None) => return self.more(input),
            Err(fault) => return Ok(Some(Ending::Fault(fault))),
        };
        show_packet(heap, out, self.offset, found)?;
        let letter = found.packet.letter();
        let size = found.size;
        self.frame.pass(size);
        self.tally.note(letter);
        self.offset = self.offset.saturating_add(size as u64);
        Ok(None)
    }

    // Reads more behind what is held, or gives the ending where nothing comes.
    fn more<R: Read>(&mut self, input: &mut R) -> io::Result<Option<Ending>>
        ensures frame { More self.old.frame self.new.frame result }
        ensures short { length self.new.frame ≤ packet_limit }
        ensures tally { self.new.tally ≡ self.old.tally }
        ensures offset { self.new.offset ≡ self.old.offset }
    {
        if self.frame.fill(input)? > 0 {
            return Ok(None);
        }
        match self.frame.bytes().len() {
            0 => Ok(Some(Ending::Clean)),
            count => Ok(Some(Ending::Part(count))),
        }
    }
}

/// Explains a capture from its first byte to its ending, and then writes the summary line.
pub fn explain<R: Read, W: Write>(heap: Global, input: &mut R, out: &mut W) -> io::Result<Summary>
    ensures { IfOk result Explained }
{
    let mut explainer = Explainer::new();
    writeln!(out, "{:>10} {:>6}  {}", "offset", "bytes", "packet")?;
    // The form for a loop that goes on to its input's end: no list or range has the turns. Each turn reads, or shows a
    // packet, or gives the ending.
    for _ in 0..u64::MAX {
        if let Some(ending) = explainer.turn(heap, input, out)? {
            let summary = Summary {
                tally: explainer.tally,
                offset: explainer.offset,
                ending,
            };
            show_rest(heap, out, explainer.offset, explainer.frame.bytes())?;
            show_summary(out, &summary)?;
            return Ok(summary);
        }
    }
    Err(io::Error::from(io::ErrorKind::Other))
}
