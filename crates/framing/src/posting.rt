//! Packets put on a line from the front of the outgoing buffer.
//! The room of the line is asked for first, so that a refusal leaves the buffer alone.
ghost use Rattle.std.specs.Prelude.{◌≡◌, ◌+◌, ◌≤◌, true, ◌∷◌, ◌++◌, length};
ghost use Rattle.wire.specs.Limits.{message_limit, packet_limit};
ghost use Rattle.wire.specs.Numbers.{little};
ghost use Rattle.line.specs.Lines.{Put, fits};
ghost use Rattle.message_log.specs.Meaning.{nth};
ghost use Rattle.message_log.specs.Calls.{has, fronted};
ghost use Rattle.packet.specs.Meanings.{value_of};
ghost use Rattle.packet.specs.Values.{sequenced, encode};
ghost use Rattle.framing.specs.Posting.{Posted, posting, posting_message};

use line::Line;
use message_log::Log;
use packet::{HEAD_LEN, Packet, head};
use wire::{Letter, PACKET_LIMIT, Refusal, lay, number_bytes};

// The offset of the message in a sequenced packet: behind its head and the sequence number.
const MESSAGE_OFFSET: usize = HEAD_LEN + 8;

// What the length number of a sequenced packet counts besides the message: the letter and the sequence number.
const COUNTED: u16 = 9;

/// Whether the line has the room for a packet.
#[tactic(auto, using(packet::proofs::Back::length_encode))]
pub fn has_room<L: Line>(packet: Packet<'_>, line: &L) -> bool
    ensures { result ≡ fits (L.Line.view line.now) (encode (value_of packet.entry)) }
{
    packet.size() <= line.room() as u128
}

/// Writes the packet at the front of `out` and puts it on the line. A line that lacks the room is reported first, then a
/// short buffer, then a packet that could not be read back; a refusal changes nothing.
pub fn post<L: Line>(packet: Packet<'_>, line: &mut L, out: &mut [u8]) -> Result<(), Refusal>
    ensures { let value = value_of packet.entry in
        let before = L.Line.view line.old in
        let after = L.Line.view line.new in
        Posted value (posting value before (length out.old)) before out.old result after out.new }
{
    if !has_room(packet, line) {
        return Err(Refusal::LineFull);
    }
    let length = packet.write(out)?;
    line.put(&out[0..length])
}

/// Puts message `number` of the log on the line as a sequenced packet: it is read straight into `out`, behind its
/// head. No such message is reported first, then a buffer that could not hold the longest packet, then a line that lacks
/// the room; a refusal changes nothing.
pub fn post_message<G: Log, L: Line>(
    number: u64,
    log: &G,
    line: &mut L,
    out: &mut [u8],
) -> Result<(), Refusal>
    ensures { let held = G.Log.view log.now in
        let value = sequenced number (nth held number) in
        let before = L.Line.view line.old in
        let after = L.Line.view line.new in
        let says = posting_message held number before (length out.old) in
        Posted value says before out.old result after out.new }
{
    let length = log.length_of(number as usize)?;
    if out.len() < PACKET_LIMIT {
        return Err(Refusal::ShortBuffer);
    }
    let size = length + MESSAGE_OFFSET;
    if line.room() < size {
        return Err(Refusal::LineFull);
    }
    lay_message(number, length as u16, log, out);
    line.put(&out[0..size])
}

// Lays message `number` of the log, of this length, at the front of `out`, behind its head.
fn lay_message<G: Log>(number: u64, bytes: u16, log: &G, out: &mut [u8])
    requires there { has (G.Log.view log.now) number ≡ true }
    requires bytes { bytes ≡ length (nth (G.Log.view log.now) number) }
    requires room { packet_limit ≤ length out.old }
    ensures { let value = sequenced number (nth (G.Log.view log.now) number) in
        out.new ≡ fronted (encode value) out.old }
{
    lay(out, 0, &before_message(number, bytes));
    let _ = log.read(number as usize, &mut out[MESSAGE_OFFSET..]);
}

// What stands before a message of so many bytes: the packet's head and the sequence number.
fn before_message(number: u64, bytes: u16) -> [u8; MESSAGE_OFFSET]
    requires { bytes ≤ message_limit }
    ensures { result ≡ little 2 (bytes + COUNTED) ++ (0x53 ∷ little 8 number) }
{
    let [low, high, letter] = head(bytes + COUNTED, Letter::Sequenced);
    let [a, b, c, d, e, f, g, h] = number_bytes(number);
    [low, high, letter, a, b, c, d, e, f, g, h]
}
