//! What a run did.
ghost use Rattle.std.specs.Prelude.{◌≡◌, [], ◌++◌, OnOk, IfOk};
ghost use Rattle.pump.specs.Pumping.{Noted, Offered};

use line::Line;
use std::alloc::{AllocError, Global};
use std::fmt;
use wire::Refusal;

/// What was done with a line.
#[derive(Clone, Copy, PartialEq, Eq, Debug)]
pub enum Act {
    /// A piece was put.
    Put,
    /// A piece was refused, since it did not fit the room.
    Refused,
    /// Bytes were taken.
    Take,
}

/// One put or take: with how many bytes, and then how many bytes wait and how many have room.
#[derive(Clone, Copy, PartialEq, Eq, Debug)]
pub struct Event {
    pub act: Act,
    pub bytes: usize,
    pub waiting: usize,
    pub room: usize,
}

// Written out: std derives no `Display`, and an event is no error.
impl fmt::Display for Event {
    fn fmt<W: fmt::Write>(&self, f: &mut fmt::Formatter<W>) -> fmt::Result {
        let Event {
            act,
            bytes,
            waiting,
            room,
        } = *self;
        match act {
            Act::Put => write!(f, "put {bytes}")?,
            Act::Take => write!(f, "take {bytes}")?,
            Act::Refused => {
                let reason = Refusal::LineFull;
                let number = reason.number();
                write!(f, "put {bytes} refused, {number} {reason}")?;
            }
        }
        write!(f, ": waiting {waiting}, room {room}")
    }
}

/// The events of a run, the first one first, and the bytes that came out of the line.
#[derive(Drop)]
pub struct Trace {
    pub events: Vec<Event>,
    pub out: Vec<u8>,
}

impl Trace {
    /// An empty trace.
    pub(crate) fn new(heap: Global) -> Trace
        ensures { (result.events.items ≡ []) × (result.out.items ≡ []) }
    {
        Trace {
            events: Vec::new(heap),
            out: Vec::new(heap),
        }
    }

    /// Adds an event, with what waits in the line and its room now.
    pub(crate) fn note<L: Line>(
        &mut self,
        act: Act,
        bytes: usize,
        line: &L,
    ) -> Result<(), AllocError>
        ensures { OnOk result (Noted self.old act bytes (L.Line.view line.now) self.new) }
    {
        let waiting = line.waiting();
        let room = line.room();
        self.events.push(Event {
            act,
            bytes,
            waiting,
            room,
        })?;
        Ok(())
    }

    /// Offers a piece to the line, and says whether it was granted.
    pub(crate) fn offer<L: Line>(&mut self, line: &mut L, piece: &[u8]) -> Result<bool, AllocError>
        ensures { let before = L.Line.view line.old in
            let after = L.Line.view line.new in
            IfOk result (λ granted. Offered before self.old piece.now granted after self.new) }
    {
        let granted = line.put(piece).is_ok();
        let act = if granted { Act::Put } else { Act::Refused };
        self.note(act, piece.len(), line)?;
        Ok(granted)
    }

    /// Adds bytes that came out.
    pub(crate) fn receive(&mut self, bytes: &[u8]) -> Result<(), AllocError>
        ensures events { self.new.events.items ≡ self.old.events.items }
        ensures out { OnOk result (self.new.out.items ≡ self.old.out.items ++ bytes.now) }
    {
        self.out.extend_from_slice(bytes)
    }
}
