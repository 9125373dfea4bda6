//! The summary line of a capture.
use crate::endings::{Ending, Summary};
use std::io;
use std::io::Write;
use wire::{Fault, LETTERS};

/// Writes the summary line: packets by letter, bytes, and how the capture ended.
pub fn show_summary<W: Write>(out: &mut W, summary: &Summary) -> io::Result<()> {
    let packets = LETTERS
        .iter()
        .map(|letter| summary.tally.count(*letter))
        .fold(0, u64::saturating_add);
    write!(out, "packets {packets}")?;
    let mut mark = ':';
    for letter in LETTERS {
        let count = summary.tally.count(letter);
        if count > 0 {
            let byte = char::from(u8::from(letter));
            write!(out, "{mark} {byte} {count}")?;
            mark = ',';
        }
    }
    let bytes = summary.offset;
    write!(out, "; bytes {bytes}; ended ")?;
    match summary.ending {
        Ending::Clean => writeln!(out, "clean"),
        Ending::Part(count) => writeln!(out, "with a part of {count} bytes"),
        Ending::Fault(fault) => show_fault(out, bytes, fault),
    }
}

// A fault with its layer, cause, place and offset in the capture.
fn show_fault<W: Write>(out: &mut W, offset: u64, fault: Fault) -> io::Result<()> {
    let layer = fault.layer();
    let cause = fault.cause();
    let place = fault.place();
    let at = offset.saturating_add(place as u64);
    write!(out, "with a fault: {layer} layer, cause {cause} ({fault})")?;
    writeln!(out, ", place {place}, offset {at}")
}
