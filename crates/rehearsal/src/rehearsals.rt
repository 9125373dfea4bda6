//! Rehearsals, line by line.
use crate::commands::{Command, Question};
use crate::files::Files;
use crate::picturing::{show_log, show_pair, show_wire};
use crate::reading::{Words, command_of, is_passed_over};
use crate::showing::{show_answer, show_bytes, show_trouble};
use crate::stages::Stage;
use crate::summing::show_sums;
use crate::sums::Sums;
use crate::troubles::{Malformed, Trouble};
use any_pair::{LogForm, Part};
use packet::LetterCounts;
use std::alloc::{AllocError, Global};
use std::io;
use std::io::{BufRead, Write};

/// A rehearsal: how far it is, and what its calls came to.
#[derive(Drop)]
pub struct Rehearsal {
    stage: Stage,
    sums: Sums,
}

impl Rehearsal {
    /// Before the first line.
    pub(crate) fn new(heap: Global) -> Result<Rehearsal, AllocError> {
        Ok(Rehearsal {
            stage: Stage::new(heap)?,
            sums: Sums::new(),
        })
    }

    /// Does what a line asks for, and writes the line and its answer. A line that is passed over is not written.
    pub(crate) fn take_line<W: Write, S: Files>(
        &mut self,
        heap: Global,
        out: &mut W,
        files: &mut S,
        line: &str,
    ) -> io::Result<()> {
        let words = Words::of(heap, line)?;
        if is_passed_over(words.words.as_slice()) {
            return Ok(());
        }
        out.write_all(line.trim().as_bytes())?;
        out.write_all(b" -> ")?;
        self.answer(heap, out, files, &words)?;
        out.write_all(b"\n")
    }

    /// Does what the words of a line ask for, and writes the answer.
    pub(crate) fn answer<W: Write, S: Files>(
        &mut self,
        heap: Global,
        out: &mut W,
        files: &mut S,
        words: &Words<'_>,
    ) -> io::Result<()> {
        let done = match command_of(words.words.as_slice(), words.bytes.as_deref()) {
            Ok(command) => self.obey(heap, out, files, command),
            Err(malformed) => Err(Trouble::Malformed(malformed)),
        };
        match done {
            Ok(()) => Ok(()),
            Err(trouble) => show_trouble(out, trouble),
        }
    }

    fn obey<W: Write, S: Files>(
        &mut self,
        heap: Global,
        out: &mut W,
        files: &mut S,
        command: Command<'_>,
    ) -> Result<(), Trouble> {
        match command {
            Command::Part(part) => {
                self.stage.make(heap, part)?;
                Ok(out.write_all(b"ok")?)
            }
            Command::Open { end, bytes, file } => {
                let read = files.read(file);
                let saved = read.map_err(|_| Trouble::Malformed(Malformed::NoFile))?;
                let saved = saved.as_slice();
                self.stage
                    .make(heap, Part::Log(end, LogForm::Saved { bytes, saved }))?;
                Ok(out.write_all(b"ok")?)
            }
            Command::SetUp => {
                self.stage.set_up(heap)?;
                Ok(out.write_all(b"ok")?)
            }
            Command::Action(action) => {
                let answer = self.stage.perform(action, &mut self.sums)?;
                Ok(show_answer(out, answer)?)
            }
            Command::Question(question) => self.tell(heap, out, files, question),
        }
    }

    // Answers a question.
    fn tell<W: Write, S: Files>(
        &self,
        heap: Global,
        out: &mut W,
        files: &mut S,
        question: Question<'_>,
    ) -> Result<(), Trouble> {
        match question {
            Question::Pair => match &self.stage {
                Stage::Running(pair) => Ok(show_pair(out, pair)?),
                Stage::Building(_) => Err(Trouble::Malformed(Malformed::NotSetUp)),
            },
            Question::Wire => {
                let (up, down) = self.stage.lines()?;
                Ok(show_wire(heap, out, up, down)?)
            }
            Question::Log(end) => Ok(show_log(heap, out, self.stage.log(end)?)?),
            Question::Out(count) => Ok(show_bytes(heap, out, self.stage.out(count)?)?),
            Question::Save(end, file) => {
                let kept = files.write(file, self.stage.saved(end)?);
                kept.map_err(|_| Trouble::Malformed(Malformed::NoFile))?;
                Ok(out.write_all(b"ok")?)
            }
        }
    }

    /// Writes the line that sums up.
    pub(crate) fn sum_up<W: Write>(&self, out: &mut W) -> io::Result<()> {
        let none = LetterCounts::new();
        let (hub, seat) = match &self.stage {
            Stage::Building(_) => (&none, &none),
            Stage::Running(pair) => (pair.owned.down.tally(), pair.owned.up.tally()),
        };
        show_sums(out, &self.sums, hub, seat)
    }
}

/// Rehearses: takes each line of the input, and writes its answer; at the end of the input, what it all came to.
pub fn rehearse<R: BufRead + Drop, W: Write, S: Files>(
    heap: Global,
    input: R,
    out: &mut W,
    files: &mut S,
) -> io::Result<()> {
    let mut rehearsal = Rehearsal::new(heap)?;
    for bytes in input.split(heap, b'\n') {
        let line = String::from_utf8_lossy(heap, &bytes?)?;
        rehearsal.take_line(heap, out, files, line.as_str())?;
    }
    rehearsal.sum_up(out)
}
