//! One packet in words, and bytes that are no packet.
//!
//! What makes a row is given the heap beside the output, as std's calls are: a struct of the two would be taken
//! apart again at each call.
use crate::finding::Found;
use crate::rows::{ROW, row};
use crate::texts::Text;
use packet::{Login, Packet, Reader};
use std::alloc::Global;
use std::fmt::Display;
use std::io;
use std::io::Write;
use wire::{Letter, Status};

/// Writes a packet with its offset, length, letter, name and fields.
pub fn show_packet<W: Write>(
    heap: Global,
    out: &mut W,
    offset: u64,
    found: Found<'_>,
) -> io::Result<()> {
    let Found { packet, size } = found;
    show_head(out, offset, size, packet.letter())?;
    match packet {
        Packet::LoginRequest(login) => show_login(out, login),
        Packet::LoginResponse {
            status,
            session,
            highest,
        } => show_response(out, status, session, highest),
        Packet::Sequenced { number, message } => {
            show_number(out, number)?;
            show_message(heap, out, message)
        }
        Packet::Unsequenced { message } => {
            out.write_all(b": ")?;
            show_message(heap, out, message)
        }
        Packet::RetransmissionRequest { start, end } => show_request(out, start, end),
        Packet::LogoutRequest { reason, text } => show_leaving(out, reason, text),
        Packet::GoodBye { reason, text } => show_leaving(out, reason, text),
        Packet::Test { text } => show_text(out, text),
        Packet::SynchronizationComplete
        | Packet::EndOfSession
        | Packet::HubHeartbeat
        | Packet::SeatHeartbeat => out.write_all(b"\n"),
    }
}

// What stands before the fields.
fn show_head<W: Write>(out: &mut W, offset: u64, size: usize, letter: Letter) -> io::Result<()> {
    let byte = char::from(u8::from(letter));
    write!(out, "{offset:>10} {size:>6}  {byte} {letter}")
}

fn show_response<W: Write>(
    out: &mut W,
    status: Status,
    session: u8,
    highest: u64,
) -> io::Result<()> {
    let code = char::from(u8::from(status));
    write!(out, ": status '{code}' ({status})")?;
    writeln!(out, ", session {session}, highest {highest}")
}

fn show_number<W: Write>(out: &mut W, number: u64) -> io::Result<()> {
    write!(out, ": number {number}, ")
}

fn show_request<W: Write>(out: &mut W, start: u64, end: u64) -> io::Result<()> {
    writeln!(out, ": start {start}, end {end}")
}

fn show_text<W: Write>(out: &mut W, text: &[u8]) -> io::Result<()> {
    let text = Text(text);
    writeln!(out, ": text {text}")
}

// Why an end leaves: the reason with its byte in the packet, and a text.
fn show_leaving<W: Write, R: Display + Copy + Into<u8>>(
    out: &mut W,
    reason: R,
    text: &[u8],
) -> io::Result<()> {
    let byte: u8 = reason.into();
    let code = char::from(byte);
    let text = Text(text);
    writeln!(out, ": reason '{code}' ({reason}), text {text}")
}

fn show_login<W: Write>(out: &mut W, login: Login<'_>) -> io::Result<()> {
    let version = Text(login.version);
    let user = Text(login.user);
    let computer = Text(login.computer);
    let protocol = Text(login.protocol);
    let session = login.session;
    let number = login.number;
    write!(
        out,
        ": version {version}, user {user}, computer {computer}, "
    )?;
    writeln!(
        out,
        "protocol {protocol}, session {session}, number {number}"
    )
}

// A message: its length, then its bytes.
fn show_message<W: Write>(heap: Global, out: &mut W, message: &[u8]) -> io::Result<()> {
    let count = message.len();
    writeln!(out, "message of {count} bytes")?;
    for bytes in message.chunks(ROW) {
        show_row(heap, out, bytes)?;
    }
    Ok(())
}

// A row of bytes below the column of names. Each program prints its rows with a margin of its own: the module `rows`
// prints nothing.
fn show_row<W: Write>(heap: Global, out: &mut W, bytes: &[u8]) -> io::Result<()> {
    write!(out, "{:>22}", "")?;
    out.write_all(&row(heap, bytes)?)?;
    out.write_all(b"\n")
}

/// Writes the bytes that could not be read as a packet, if there are any: those of the part, or of the faulty
/// packet as far as its length number can be trusted.
pub fn show_rest<W: Write>(heap: Global, out: &mut W, offset: u64, rest: &[u8]) -> io::Result<()> {
    let size = Reader::new(rest).packet_len().ok().flatten().unwrap_or(2);
    let count = size.min(rest.len());
    if count == 0 {
        return Ok(());
    }
    writeln!(out, "{offset:>10} {count:>6}  ? left over, beginning with")?;
    show_row(heap, out, &rest[0..count.min(ROW)])
}
