//! The writer: a packet at the front of a lent buffer.
//!
//! ```text
//! offset  0        2       3
//!         +--------+-------+----------------------+ - - - - - - - - +
//!         | length | letter| body                 | left untouched  |
//!         +--------+-------+----------------------+ - - - - - - - - +
//! ```
ghost use Rattle.std.specs.Prelude.{◌≡◌, ◌+◌, ◌≤◌, true, [], ◌∷◌, ◌++◌, length, drop, IfOk};
ghost use Rattle.wire.specs.Limits.{length_limit};
ghost use Rattle.wire.specs.Numbers.{little};
ghost use Rattle.wire.specs.Letters.{letter_byte};
ghost use Rattle.packet.specs.declared.packets.Packet.TheVariants.{LoginRequest};
ghost use Rattle.packet.specs.Meanings.{value_of};
ghost use Rattle.packet.specs.Values.{Fields, Valid, body, length_number};
ghost use Rattle.wire.specs.Overlay.{laid};
ghost use Rattle.packet.specs.Writing.{Written, widths, writable as writable_of};

use crate::packets::{Login, Packet};
use wire::{Letter, PACKET_LIMIT, PacketFault, Refusal, lay, number_bytes};

/// How many bytes of a packet stand before its body: the length number and the letter.
pub const HEAD_LEN: usize = 3;

impl Packet<'_> {
    /// Writes the packet at the front of `out` and gives its length. A buffer that is too short is refused
    /// first, then a packet that could not be read back; the buffer is untouched in both cases.
    #[inline(always)]
    pub fn write(self, out: &mut [u8]) -> Result<usize, Refusal>
        ensures { Written (value_of self.entry) out.old out.new result }
    {
        if (out.len() as u128) < self.size() {
            return Err(Refusal::ShortBuffer);
        }
        let length = self.writable()?;
        put_head(out, length as u16, self.letter());
        self.put_body(out);
        Ok(length + 2)
    }

    /// How long the packet is as it is written, whether or not it can be read back then: four texts may be
    /// longer together than a `usize` counts.
    #[inline(always)]
    pub fn size(self) -> u128
        ensures { result ≡ length_number (value_of self.entry) + 2 }
    {
        match self {
            Packet::LoginRequest(login) => {
                login.version.len() as u128
                    + login.user.len() as u128
                    + login.computer.len() as u128
                    + login.protocol.len() as u128
                    + 12
            }
            Packet::LoginResponse { .. } => 13,
            Packet::Sequenced { message, .. } => message.len() as u128 + 11,
            Packet::Unsequenced { message: text } | Packet::Test { text } => text.len() as u128 + 3,
            Packet::RetransmissionRequest { .. } => 19,
            Packet::LogoutRequest { text, .. } | Packet::GoodBye { text, .. } => {
                text.len() as u128 + 4
            }
            Packet::SynchronizationComplete
            | Packet::EndOfSession
            | Packet::HubHeartbeat
            | Packet::SeatHeartbeat => 3,
        }
    }

    // The length number of a packet that can be read back.
    #[inline(always)]
    fn writable(self) -> Result<usize, PacketFault>
        ensures answer { result ≡ writable_of (value_of self.entry) }
        ensures valid { let value = value_of self.entry in
            IfOk result (λ n. Valid value × (n ≡ length_number value) × (n ≤ length_limit)) }
    {
        let size = self.size();
        if size > PACKET_LIMIT as u128 {
            return Err(PacketFault::LengthOverLimit);
        }
        let length = size as usize - 2;
        if !self.letter().allows(length) {
            return Err(PacketFault::WrongLength);
        }
        if !self.has_widths() {
            return Err(PacketFault::WrongLength);
        }
        Ok(length)
    }

    // Whether each text of a fixed width has it.
    #[inline(always)]
    fn has_widths(self) -> bool
        ensures widths { result ≡ widths (value_of self.entry) }
        ensures fields { result ≡ true → Fields (value_of self.entry) }
    {
        match self {
            Packet::LoginRequest(login) => {
                login.version.len() == 5
                    && login.user.len() == 5
                    && login.computer.len() == 8
                    && login.protocol.len() == 8
            }
            _ => true,
        }
    }

    // Writes what follows the letter.
    #[inline(always)]
    fn put_body(self, out: &mut [u8])
        requires fields { Fields (value_of self) }
        requires room { 3 + length (body (value_of self)) ≤ length out.old }
        ensures { out.new ≡ laid out.old 3 (body (value_of self.entry)) }
    {
        match self {
            Packet::LoginRequest(login) => put_login(out, login),
            Packet::LoginResponse {
                status,
                session,
                highest,
            } => {
                put_two(
                    out,
                    HEAD_LEN,
                    &[status.into(), session],
                    &number_bytes(highest),
                );
            }
            Packet::Sequenced { number, message } => put_two(
                out,
                HEAD_LEN,
                &number_bytes(number),
                message,
            ),
            Packet::Unsequenced { message } => lay(out, HEAD_LEN, message),
            Packet::RetransmissionRequest { start, end } => {
                put_two(out, HEAD_LEN, &number_bytes(start), &number_bytes(end));
            }
            Packet::LogoutRequest { reason, text } => put_two(
                out,
                HEAD_LEN,
                &[reason.into()],
                text,
            ),
            Packet::GoodBye { reason, text } => put_two(out, HEAD_LEN, &[reason.into()], text),
            Packet::Test { text } => lay(out, HEAD_LEN, text),
            Packet::SynchronizationComplete
            | Packet::EndOfSession
            | Packet::HubHeartbeat
            | Packet::SeatHeartbeat => {}
        }
    }
}

/// The head of a packet: its length number, which counts the letter and the body, and its letter.
#[inline(always)]
pub fn head(length: u16, letter: Letter) -> [u8; HEAD_LEN]
    ensures { result ≡ little 2 length ++ (letter_byte letter ∷ []) }
{
    let [low, high] = length.to_le_bytes();
    [low, high, letter.into()]
}

// Writes the head.
#[inline(always)]
fn put_head(out: &mut [u8], count: u16, letter: Letter)
    requires { 3 ≤ length out.old }
    ensures { out.new ≡ little 2 count ++ (letter_byte letter ∷ drop 3 out.old) }
{
    let [low, high, byte] = head(count, letter);
    out[0] = low;
    out[1] = high;
    out[2] = byte;
}

// The body of a login request.
#[inline(always)]
fn put_login(out: &mut [u8], login: Login<'_>)
    requires fields { Fields (value_of (LoginRequest login)) }
    requires room { 38 ≤ length out.old }
    ensures { out.new ≡ laid out.old 3 (body (value_of (LoginRequest login.entry))) }
{
    // Each text has its width, so it is taken whole. That the width is written out halves the time: a copy of a length
    // that the compiler knows is no call.
    put_two(out, HEAD_LEN, &login.version[..5], &login.user[..5]);
    put_two(out, 13, &login.computer[..8], &login.protocol[..8]);
    put_two(out, 29, &[login.session], &number_bytes(login.number));
}

// Two pieces, one right after the other.
#[inline(always)]
fn put_two(out: &mut [u8], at: usize, first: &[u8], second: &[u8])
    requires { at + length first.now + length second.now ≤ length out.old }
    ensures { out.new ≡ laid out.old at (first.now ++ second.now) }
{
    lay(out, at, first);
    lay(out, at + first.len(), second);
}
