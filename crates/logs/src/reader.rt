//! A reader of one record.
ghost use Rattle.std.specs.Prelude.{◌≡◌};
ghost use Rattle.logs.specs.Reading.{framed, session_of, message_of, fault_at, held};
ghost use Rattle.logs.specs.Seen.{seen, whole};

use crate::records::{Mark, Record, RecordFault};
use wire::limits::MESSAGE_LIMIT;

/// The record at the front of these bytes, whatever it holds.
pub fn read_record(bytes: &[u8]) -> Result<Record<'_>, RecordFault>
    ensures { seen result ≡ framed bytes.now whole }
{
    let [first, second, low, high, rest @ ..] = bytes else {
        return Err(RecordFault::CutShort);
    };
    let length = usize::from(u16::from_le_bytes([*low, *high]));
    if rest.len() < length {
        return Err(RecordFault::CutShort);
    }
    let mark = Mark::try_from([*first, *second])?;
    Ok(Record {
        mark,
        body: &rest[..length],
    })
}

/// The session that stands at the front of a log.
pub fn read_session(bytes: &[u8]) -> Result<u8, RecordFault>
    ensures { result ≡ session_of bytes.now }
{
    if bytes.is_empty() {
        return Err(RecordFault::BadSession);
    }
    let record = read_record(bytes)?;
    match (record.mark, record.body) {
        (Mark::Session, [session]) => Ok(*session),
        _ => Err(RecordFault::BadSession),
    }
}

/// The message whose record stands at the front of these bytes, under the session given.
pub fn read_message(bytes: &[u8], session: u8) -> Result<&[u8], RecordFault>
    ensures { held result ≡ message_of session bytes.now }
{
    let record = read_record(bytes)?;
    match record.mark {
        Mark::Session => Err(RecordFault::BadSession),
        Mark::Message if record.body.len() > MESSAGE_LIMIT => Err(RecordFault::MessageTooLong),
        Mark::Message if session == 0 => Err(RecordFault::NoSession),
        Mark::Message => Ok(record.body),
    }
}

/// What is wrong with the record at this place of a saved log, if anything is.
pub fn fault_at(bytes: &[u8], place: usize) -> Option<RecordFault>
    ensures { result ≡ fault_at bytes.now place }
{
    if place == 0 {
        return read_session(bytes).err();
    }
    let session = bytes.get(4)?;
    if place > bytes.len() {
        return None;
    }
    read_message(&bytes[place..], *session).err()
}
