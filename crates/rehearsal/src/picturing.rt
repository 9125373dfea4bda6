//! How a pair stands, in words.
use crate::naming::{hub_phase, seat_phase, status_of};
use crate::showing::show_bytes;
use any_pair::AnyPair;
use line::{Line, PeekLine};
use message_log::Log;
use pair::Pair;
use std::alloc::Global;
use std::io;
use std::io::Write;
use wire::MESSAGE_LIMIT;

/// Writes how a pair stands.
pub(crate) fn show_pair<W: Write>(out: &mut W, pair: &AnyPair) -> io::Result<()> {
    let owned = &pair.owned;
    show_ends(out, &owned.pair)?;
    show_counts(out, " hub-log", &owned.hub_log)?;
    show_counts(out, " seat-log", &owned.seat_log)?;
    show_room(out, " up", &owned.up)?;
    show_room(out, " down", &owned.down)?;
    let rows = owned.pair.accounts().rows();
    let marked = rows.iter().filter(|row| row.marked).count();
    write!(out, " marked {marked}")
}

fn show_ends<W: Write>(out: &mut W, pair: &Pair) -> io::Result<()> {
    let hub = hub_phase(pair.hub_phase());
    let seat = seat_phase(pair.seat_phase());
    write!(out, "hub {hub} seat {seat}")?;
    let in_step = if pair.in_step() { "yes" } else { "no" };
    let status = status_of(pair.status());
    write!(out, " instep {in_step} status {status}")
}

// A log's session and count.
fn show_counts<W: Write, G: Log>(out: &mut W, name: &str, log: &G) -> io::Result<()> {
    let session = log.session();
    let count = log.count();
    write!(out, "{name} {session} {count}")
}

// How many bytes wait on a line, and its room.
fn show_room<W: Write, L: Line>(out: &mut W, name: &str, line: &L) -> io::Result<()> {
    let waiting = line.waiting();
    let room = line.room();
    write!(out, "{name} {waiting} {room}")
}

/// Writes what waits on two lines.
pub(crate) fn show_wire<W: Write, U: PeekLine, D: PeekLine>(
    heap: Global,
    out: &mut W,
    up: &U,
    down: &D,
) -> io::Result<()> {
    out.write_all(b"up ")?;
    show_waiting(heap, out, up)?;
    out.write_all(b" down ")?;
    show_waiting(heap, out, down)
}

fn show_waiting<W: Write, L: PeekLine>(heap: Global, out: &mut W, line: &L) -> io::Result<()> {
    let (front, back) = line.peek();
    if back.is_empty() {
        return show_bytes(heap, out, front);
    }
    if !front.is_empty() {
        show_bytes(heap, out, front)?;
    }
    show_bytes(heap, out, back)
}

/// Writes a log's session and its messages.
pub(crate) fn show_log<W: Write, G: Log>(heap: Global, out: &mut W, log: &G) -> io::Result<()> {
    let session = log.session();
    write!(out, "{session}:")?;
    let mut buffer = [0; MESSAGE_LIMIT];
    for n in 1..=log.count() {
        if let Ok(length) = log.read(n, &mut buffer) {
            out.write_all(b" ")?;
            show_bytes(heap, out, &buffer[..length])?;
        }
    }
    Ok(())
}
