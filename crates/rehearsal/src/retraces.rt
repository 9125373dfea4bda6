//! Traces, performed again and compared.
use crate::files::Files;
use crate::reading::{Words, is_passed_over};
use crate::rehearsals::Rehearsal;
use std::alloc::Global;
use std::io;
use std::io::{BufRead, Write};

/// What came of a trace: how many answers there are, and how many are others now.
#[derive(Clone, Copy)]
pub struct Retraced {
    pub answers: u64,
    pub others: u64,
}

// An answer without the words in round brackets behind it.
fn plain(answer: &str) -> &str {
    match answer.split_once(" (") {
        Some((plain, _)) => plain,
        None => answer,
    }
}

// The command of a line of a trace, and its answer.
fn parted(line: &str) -> (&str, &str) {
    match line.split_once(" -> ") {
        Some((command, answer)) => (command, answer.trim_end()),
        None => (line, ""),
    }
}

/// Performs the commands of a trace again, and writes a line for each answer that is another one now.
pub fn retrace<R: BufRead + Drop, W: Write, S: Files>(
    heap: Global,
    input: R,
    out: &mut W,
    files: &mut S,
) -> io::Result<Retraced> {
    let mut rehearsal = Rehearsal::new(heap)?;
    let mut retraced = Retraced {
        answers: 0,
        others: 0,
    };
    let mut number = 0u64;
    for bytes in input.split(heap, b'\n') {
        number = number.saturating_add(1);
        let line = String::from_utf8_lossy(heap, &bytes?)?;
        let (command, answer) = parted(line.as_str());
        let words = Words::of(heap, command)?;
        if !is_passed_over(words.words.as_slice()) {
            let mut now = Vec::new(heap);
            rehearsal.answer(heap, &mut now, files, &words)?;
            let now = String::from_utf8_lossy(heap, &now)?;
            retraced.answers = retraced.answers.saturating_add(1);
            if plain(now.as_str()) != plain(answer) {
                retraced.others = retraced.others.saturating_add(1);
                writeln!(out, "line {number}: {command} -> {now}, and was {answer}")?;
            }
        }
    }
    Ok(retraced)
}
