//! The first packet of a capture's bytes.
ghost use Rattle.capture.specs.Finding.{FindsFirst};

use packet::{Packet, Reader};
use wire::Fault;

/// A packet, and how many bytes it takes.
#[derive(Clone, Copy)]
pub struct Found<'a> {
    pub packet: Packet<'a>,
    pub size: usize,
}

/// The first packet of the bytes, or `None` where they are only a part of one.
pub fn find<'a>(bytes: &'a [u8]) -> Result<Option<Found<'a>>, Fault>
    ensures { FindsFirst bytes.now result }
{
    let reader = Reader::new(bytes);
    let Some(size) = reader.packet_len()? else {
        return Ok(None);
    };
    Ok(reader.read()?.map(|packet| Found { packet, size }))
}
