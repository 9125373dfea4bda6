//! The reader: the first packet of lent bytes, or a part of one, or a fault.
ghost use Rattle.std.specs.Prelude.{◌≡◌, ◌+◌, ◌<◌, true, [], ◌∷◌, length, take, drop, slice_index};
ghost use Rattle.wire.specs.declared.letters.Letter.TheVariants.{LoginResponse};
ghost use Rattle.wire.specs.Limits.{length_limit};
ghost use Rattle.wire.specs.Numbers.{number as number_of};
ghost use Rattle.wire.specs.Letters.{allowed};
ghost use Rattle.packet.specs.Decoding.{counted, content as content_of, opened as opened_of, decode, packet_length};
ghost use Rattle.packet.specs.Laws.{Reads};
ghost use Rattle.packet.specs.Meanings.{values_of, answer_of};

use crate::packets::{Login, Packet};
use wire::{GoodByeReason, LENGTH_LIMIT, Letter, LogoutReason, PacketFault, Status};

/// Reads the first packet of the bytes that it is lent.
#[derive(Clone, Copy)]
pub struct Reader<'a> {
    bytes: &'a [u8],
}

impl<'a> Reader<'a> {
    #[inline(always)]
    pub fn new(bytes: &'a [u8]) -> Reader<'a>
        ensures { result.bytes.now ≡ bytes.now }
    {
        Reader { bytes }
    }

    /// The length of the first packet with the two bytes of its length number, once these are in.
    #[tactic(auto, unfolding(crate::specs::Decoding::packet_length))]
    #[inline(always)]
    pub fn packet_len(&self) -> Result<Option<usize>, PacketFault>
        ensures { result ≡ packet_length self.now.bytes.now }
    {
        match self.bytes {
            [low, high, ..] => Ok(Some(length_number(*low, *high)? + 2)),
            _ => Ok(None),
        }
    }

    /// The first packet, or `None` while it is not all there yet. A length number that is 0 or too large is reported
    /// as soon as its two bytes are in; any other fault, once the packet is whole.
    #[inline(always)]
    pub fn read(&self) -> Result<Option<Packet<'a>>, PacketFault>
        ensures { Reads self.now.bytes.now (answer_of result) }
    {
        first(self.bytes)
    }
}

// The first packet of the bytes, with all that holds of such a reading.
#[inline(always)]
fn first<'a>(bytes: &'a [u8]) -> Result<Option<Packet<'a>>, PacketFault>
    ensures { Reads bytes.now (answer_of result) }
{
    taken_apart(bytes)
}

// The first packet of the bytes: length number, letter, body.
#[tactic(auto, unfolding(crate::specs::Decoding::decode))]
#[inline(always)]
fn taken_apart<'a>(bytes: &'a [u8]) -> Result<Option<Packet<'a>>, PacketFault>
    ensures { answer_of result ≡ decode bytes.now }
{
    match bytes {
        [low, high, letter, rest @ ..] => {
            let length = length_number(*low, *high)?;
            if rest.len() + 1 < length {
                return Ok(None);
            }
            Ok(Some(opened(*letter, &rest[0..length - 1])?))
        }
        [low, high] => {
            length_number(*low, *high)?;
            Ok(None)
        }
        _ => Ok(None),
    }
}

// The length number in the first two bytes.
#[inline(always)]
fn length_number(low: u8, high: u8) -> Result<usize, PacketFault>
    ensures { result ≡ counted (number_of (low ∷ high ∷ [])) }
{
    let length = usize::from(u16::from_le_bytes([low, high]));
    if length == 0 {
        return Err(PacketFault::LengthZero);
    }
    if length > LENGTH_LIMIT {
        return Err(PacketFault::LengthOverLimit);
    }
    Ok(length)
}

// A whole packet, from its letter and its body.
#[inline(always)]
fn opened<'a>(letter: u8, body: &'a [u8]) -> Result<Packet<'a>, PacketFault>
    requires { length body.now < length_limit }
    ensures { values_of result ≡ opened_of letter body.now }
{
    let letter = Letter::try_from(letter)?;
    if !letter.allows(body.len() + 1) {
        return Err(PacketFault::WrongLength);
    }
    content(letter, body)
}

// The fields of a body whose length its letter allows.
#[tactic(auto, using(std::proofs::lemmas::List::take_rest))]
#[inline(always)]
fn content<'a>(letter: Letter, body: &'a [u8]) -> Result<Packet<'a>, PacketFault>
    requires { allowed letter (length body.now + 1) ≡ true }
    ensures { values_of result ≡ content_of letter body.now }
{
    match letter {
        Letter::LoginRequest => Ok(Packet::LoginRequest(login(body))),
        Letter::LoginResponse => response(body),
        Letter::Sequenced => Ok(Packet::Sequenced {
            number: number(&body[0..8]),
            message: &body[8..],
        }),
        Letter::Unsequenced => Ok(Packet::Unsequenced { message: body }),
        Letter::SynchronizationComplete => Ok(Packet::SynchronizationComplete),
        Letter::RetransmissionRequest => {
            Ok(Packet::RetransmissionRequest {
                start: number(&body[0..8]),
                end: number(&body[8..16]),
            })
        }
        Letter::LogoutRequest => {
            Ok(Packet::LogoutRequest {
                reason: LogoutReason::try_from(body[0])?,
                text: &body[1..],
            })
        }
        Letter::GoodBye => Ok(Packet::GoodBye {
            reason: GoodByeReason::try_from(body[0])?,
            text: &body[1..],
        }),
        Letter::EndOfSession => Ok(Packet::EndOfSession),
        Letter::HubHeartbeat => Ok(Packet::HubHeartbeat),
        Letter::SeatHeartbeat => Ok(Packet::SeatHeartbeat),
        Letter::Test => Ok(Packet::Test { text: body }),
    }
}

#[inline(always)]
fn login<'a>(body: &'a [u8]) -> Login<'a>
    requires { length body.now ≡ 35 }
    ensures version { result.version.now ≡ take 5 body.now }
    ensures user { result.user.now ≡ take 5 (drop 5 body.now) }
    ensures computer { result.computer.now ≡ take 8 (drop 10 body.now) }
    ensures protocol { result.protocol.now ≡ take 8 (drop 18 body.now) }
    ensures session { result.session ≡ slice_index body.now 26 }
    ensures number { result.number ≡ number_of (take 8 (drop 27 body.now)) }
{
    Login {
        version: &body[0..5],
        user: &body[5..10],
        computer: &body[10..18],
        protocol: &body[18..26],
        session: body[26],
        number: number(&body[27..35]),
    }
}

#[inline(always)]
fn response<'a>(body: &'a [u8]) -> Result<Packet<'a>, PacketFault>
    requires { length body.now ≡ 10 }
    ensures { values_of result ≡ content_of LoginResponse body.now }
{
    Ok(Packet::LoginResponse {
        status: Status::try_from(body[0])?,
        session: body[1],
        highest: number(&body[2..10]),
    })
}

// A number in eight bytes, the least byte first.
#[inline(always)]
fn number(bytes: &[u8]) -> u64
    requires { length bytes.now ≡ 8 }
    ensures { result ≡ number_of bytes.now }
{
    let mut word = [0; 8];
    word.copy_from_slice(bytes);
    u64::from_le_bytes(word)
}
