//! What calls answer, in words.
use crate::naming::letter_of;
use crate::troubles::Trouble;
use relay::Answer;
use rules::{Heard, Received, Report};
use std::alloc::Global;
use std::io;
use std::io::Write;
use wire::{Fault, Letter, Refusal};

/// Writes bytes in pairs of digits, `-` for none.
pub(crate) fn show_bytes<W: Write>(heap: Global, out: &mut W, bytes: &[u8]) -> io::Result<()> {
    if bytes.is_empty() {
        return out.write_all(b"-");
    }
    out.write_all(hex::encode(heap, bytes)?.as_bytes())
}

/// Writes what a call answered.
pub(crate) fn show_answer<W: Write>(out: &mut W, answer: Answer) -> io::Result<()> {
    match answer {
        Answer::Done(Ok(())) => out.write_all(b"ok"),
        Answer::Done(Err(refusal)) => show_refusal(out, refusal),
        Answer::Received(Ok(received)) => show_received(out, received),
        Answer::Received(Err(refusal)) => show_receive_refusal(out, refusal),
        Answer::Sent(Ok(letter)) => show_sent(out, letter),
        Answer::Sent(Err(refusal)) => show_refusal(out, refusal),
        Answer::Round(Ok(report)) => show_report(out, report),
        Answer::Round(Err(refusal)) => show_refusal(out, refusal),
    }
}

/// Writes why a command was not done; what ends the rehearsal is handed on.
pub(crate) fn show_trouble<W: Write>(out: &mut W, trouble: Trouble) -> io::Result<()> {
    match trouble {
        Trouble::Refused(Refusal::BrokenLog(place)) => write!(
            out,
            "refused 17 {place} (broken there)"
        ),
        Trouble::Refused(refusal) => show_refusal(out, refusal),
        Trouble::Malformed(malformed) => write!(out, "error ({malformed})"),
        Trouble::Failed(error) => Err(error),
    }
}

fn show_refusal<W: Write>(out: &mut W, refusal: Refusal) -> io::Result<()> {
    let number = refusal.number();
    write!(out, "refused {number} ({refusal})")
}

// The refusal of a receive: a fault is told with its place.
fn show_receive_refusal<W: Write>(out: &mut W, refusal: Refusal) -> io::Result<()> {
    match refusal.fault() {
        Some(fault) => {
            let number = refusal.number();
            write!(out, "refused {number} ")?;
            show_fault(out, fault)
        }
        None => show_refusal(out, refusal),
    }
}

fn show_fault<W: Write>(out: &mut W, fault: Fault) -> io::Result<()> {
    let layer = fault.layer();
    let cause = fault.cause();
    let place = fault.place();
    write!(out, "{layer} {cause} {place}")
}

fn show_received<W: Write>(out: &mut W, received: Received) -> io::Result<()> {
    match received {
        Received::Nothing => out.write_all(b"nothing"),
        Received::Part => out.write_all(b"part"),
        Received::Acted(letter) => {
            let letter = letter_of(letter);
            write!(out, "acted {letter}")
        }
        Received::Message { offset, length } => write!(out, "message {offset} {length}"),
    }
}

fn show_sent<W: Write>(out: &mut W, letter: Option<Letter>) -> io::Result<()> {
    match letter {
        Some(letter) => {
            let letter = letter_of(letter);
            write!(out, "wrote {letter}")
        }
        None => out.write_all(b"idle"),
    }
}

fn show_report<W: Write>(out: &mut W, report: Report) -> io::Result<()> {
    out.write_all(b"hub ")?;
    show_heard(out, report.hub)?;
    out.write_all(b" seat ")?;
    show_heard(out, report.seat)
}

fn show_heard<W: Write>(out: &mut W, heard: Heard) -> io::Result<()> {
    let packets = heard.packets;
    write!(out, "{packets}")?;
    if let Some(fault) = heard.fault {
        out.write_all(b" fault ")?;
        show_fault(out, fault)?;
    }
    Ok(())
}
