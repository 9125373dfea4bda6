//! Runs of the logs on examples: the same calls on both kinds, a journal that is saved and opened, one that is broken,
//! and one whose index may have no memory.
use logs::{AnyLog, Indexed, Journal};
use message_log::Log;
use std::process::Abort;
use std::test::Fail;
use wire::Refusal;

const EXAMPLE: [u8; 11] = [
    0x42, 0x53, 0x01, 0x00, 0x07, 0x4D, 0x47, 0x02, 0x00, 0x41, 0x42,
];

// The same calls on a log that has room for just one message of four bytes.
fn use_log(rt: &impl Abort, log: &mut AnyLog, long: &[u8]) {
    begin(rt, log);
    fill(rt, log, long);
    read_refused(rt, log);
    read(rt, log);
}

fn begin(rt: &impl Abort, log: &mut AnyLog) {
    assert_eq!(rt; log.append(b"ABCD"), Err(Refusal::NoSession));
    assert_eq!(rt; log.begin(0), Err(Refusal::SessionZero));
    assert_eq!(rt; log.begin(7), Ok(()));
}

fn fill(rt: &impl Abort, log: &mut AnyLog, long: &[u8]) {
    assert_eq!(rt; log.append(long), Err(Refusal::MessageTooLong));
    assert_eq!(rt; log.would_take(5), Err(Refusal::LogFull));
    assert_eq!(rt; log.append(b"ABCD"), Ok(()));
    assert_eq!(rt; log.append(b""), Err(Refusal::LogFull));
}

fn read_refused(rt: &impl Abort, log: &AnyLog) {
    let mut buffer = [0u8; 6];
    assert_eq!(rt; log.read(0, &mut buffer), Err(Refusal::NoSuchMessage));
    assert_eq!(rt; log.read(2, &mut buffer), Err(Refusal::NoSuchMessage));
    assert_eq!(rt; log.read(1, &mut buffer[0..3]), Err(Refusal::ShortBuffer));
}

fn read(rt: &impl Abort, log: &AnyLog) {
    let mut buffer = [0u8; 6];
    assert_eq!(rt; log.read(1, &mut buffer), Ok(4));
    assert_eq!(rt; &buffer, b"ABCD\0\0");
    assert_eq!(rt; log.length_of(1), Ok(4));
    assert_eq!(rt; log.session(), 7);
    assert_eq!(rt; log.count(), 1);
}

#[test]
fn both_kinds_answer_alike(rt: HostRuntime) -> Result<(), Fail> {
    let heap = rt.alloc();
    let long = vec![in heap; 0u8; 4097]?;
    let Ok(journal) = Journal::new(heap, vec![in heap; 0u8; 13]?) else {
        return Err(Fail::new("a journal of 13 bytes is made"));
    };
    use_log(&rt, &mut AnyLog::Journal(journal), &long);
    let Ok(indexed) = Indexed::new(vec![in heap; 0u8; 4]?, vec![in heap; 0u32; 1]?) else {
        return Err(Fail::new("an indexed log is made"));
    };
    use_log(&rt, &mut AnyLog::Indexed(indexed), &long);
    Ok(())
}

#[test]
fn saved_opens_as_itself(rt: HostRuntime) -> Result<(), Fail> {
    let heap = rt.alloc();
    let Ok(mut journal) = Journal::new(heap, vec![in heap; 0u8; 100]?) else {
        return Err(Fail::new("a journal of 100 bytes is made"));
    };
    assert_eq!(rt; journal.begin(7), Ok(()));
    assert_eq!(rt; journal.append(b"AB"), Ok(()));
    assert_eq!(rt; journal.bytes(), EXAMPLE.as_slice());
    let copy = journal.bytes().to_vec(heap)?;
    let Ok(opened) = Journal::open(heap, copy, 11) else {
        return Err(Fail::new("the example opens"));
    };
    assert_eq!(rt; opened.session(), 7);
    assert_eq!(rt; opened.count(), 1);
    assert_eq!(rt; opened.message(1), Ok(b"AB".as_slice()));
    Ok(())
}

#[test]
fn refused_gives_the_memory_back(rt: HostRuntime) -> Result<(), Fail> {
    let heap = rt.alloc();
    let Err(cut) = Journal::open(heap, EXAMPLE.to_vec(heap)?, 10) else {
        return Err(Fail::new("the example without its last byte is broken"));
    };
    assert_eq!(rt; cut.refusal, Refusal::BrokenLog(5));
    assert_eq!(rt; cut.given.as_slice(), EXAMPLE.as_slice());
    let Err(over) = Journal::open(heap, cut.given, 12) else {
        return Err(Fail::new("there are no 12 bytes"));
    };
    assert_eq!(rt; over.refusal, Refusal::SizeOutOfRange);
    Ok(())
}

// Messages, and where the record of each begins behind the session record.
const MESSAGES: [(usize, &[u8]); 6] = [
    (5, b""),
    (9, b"a"),
    (14, b"bc"),
    (20, b""),
    (24, b"def"),
    (31, b"g"),
];

// Whether a journal holds the messages, each where it begins, whatever its index has.
fn holds_all(rt: &impl Abort, journal: &Journal) {
    for (before, (offset, message)) in MESSAGES.iter().enumerate() {
        assert_eq!(rt; journal.offset(before + 1), Ok(*offset));
        assert_eq!(rt; journal.message(before + 1), Ok(*message));
    }
    assert_eq!(rt; journal.message(7), Err(Refusal::NoSuchMessage));
}

// Run with `rt try --test --fail-alloc N`, where N is that of an index, it reads behind a shorter index.
#[test]
fn an_index_may_be_short(rt: HostRuntime) -> Result<(), Fail> {
    let heap = rt.alloc();
    let Ok(mut journal) = Journal::new(heap, vec![in heap; 0u8; 36]?) else {
        return Err(Fail::new("a journal of 36 bytes is made"));
    };
    assert_eq!(rt; journal.begin(7), Ok(()));
    for (_, message) in MESSAGES {
        assert_eq!(rt; journal.append(message), Ok(()));
    }
    holds_all(&rt, &journal);
    let copy = journal.bytes().to_vec(heap)?;
    let Ok(opened) = Journal::open(heap, copy, 36) else {
        return Err(Fail::new("what was saved opens"));
    };
    holds_all(&rt, &opened);
    Ok(())
}
