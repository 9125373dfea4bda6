//! The line that sums a rehearsal up.
use crate::naming::letter_of;
use crate::sums::Sums;
use packet::LetterCounts;
use std::io;
use std::io::Write;
use wire::LETTERS;

/// Writes the line that sums a rehearsal up.
pub(crate) fn show_sums<W: Write>(
    out: &mut W,
    sums: &Sums,
    hub: &LetterCounts,
    seat: &LetterCounts,
) -> io::Result<()> {
    let calls = sums.calls;
    let granted = calls.saturating_sub(sums.refused);
    let refused = sums.refused;
    write!(out, "# calls {calls}, granted {granted}, refused {refused}")?;
    show_refused(out, &sums.by_number)?;
    out.write_all(b", hub wrote")?;
    show_tally(out, hub)?;
    out.write_all(b", seat wrote")?;
    show_tally(out, seat)?;
    out.write_all(b"\n")
}

fn show_refused<W: Write>(out: &mut W, by_number: &[u64]) -> io::Result<()> {
    let mut before = " (";
    for (number, count) in by_number.iter().enumerate() {
        if *count > 0 {
            write!(out, "{before}{number}: {count}")?;
            before = ", ";
        }
    }
    if before == ", " {
        out.write_all(b")")?;
    }
    Ok(())
}

fn show_tally<W: Write>(out: &mut W, tally: &LetterCounts) -> io::Result<()> {
    let mut before = " ";
    for letter in LETTERS {
        let count = tally.count(letter);
        if count > 0 {
            let letter = letter_of(letter);
            write!(out, "{before}{letter}: {count}")?;
            before = ", ";
        }
    }
    if before == " " {
        out.write_all(b" nothing")?;
    }
    Ok(())
}
