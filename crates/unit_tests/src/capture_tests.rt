//! What is said of a capture, in words.
use capture::{Summary, explain};
use packet::LetterCounts;
use std::process::Abort;
use std::test::Fail;
use wire::Letter;

// Whether the words of a capture, after the line of headings, are these.
fn says(rt: &(impl Abort + AllocGlobal), capture: &[u8], words: &[u8]) -> Result<(), Fail> {
    let mut input = capture;
    let mut out = Vec::new(rt.alloc());
    let _ = explain(rt.alloc(), &mut input, &mut out)?;
    assert!(rt; out.len() > 26);
    assert_eq!(rt; &out[26..], words);
    Ok(())
}

// How many bytes the packets of a capture took.
fn bytes_in(summary: Summary) -> u64 {
    summary.offset
}

// How many heartbeats of a hub were counted, if anything was.
fn beats_in(counts: Option<LetterCounts>) -> u64 {
    counts.map_or(0, |counts| counts.count(Letter::HubHeartbeat))
}

// Each is handed over twice.
#[test]
fn summaries_and_counts_are_copied(rt: HostRuntime) -> Result<(), Fail> {
    let mut input: &[u8] = b"\x01\00\x01\00";
    let mut out = Vec::new(rt.alloc());
    let summary = explain(rt.alloc(), &mut input, &mut out)?;
    assert_eq!(rt; bytes_in(summary), 6);
    assert_eq!(rt; bytes_in(summary), 6);
    let counts = Some(summary.tally);
    assert_eq!(rt; beats_in(counts), 2);
    assert_eq!(rt; beats_in(counts), 2);
    Ok(())
}

#[test]
fn clean(rt: HostRuntime) -> Result<(), Fail> {
    says(&rt, b"", b"packets 0; bytes 0; ended clean\n")?;
    let words = b"         0      3  C Synchronization Complete\n\
                  packets 1: C 1; bytes 3; ended clean\n";
    says(&rt, b"\x01\0C", words)
}

#[test]
fn parts(rt: HostRuntime) -> Result<(), Fail> {
    let words =
        b"         0      3  0 Server Heartbeat\n         3      2  ? left over, beginning with\n                      05 00                                           |..|\npackets 1: 0 1; bytes 3; ended with a part of 2 bytes\n";
    says(&rt, b"\x01\00\x05\0", words)
}

#[test]
fn faults(rt: HostRuntime) -> Result<(), Fail> {
    let words =
        b"         0      3  C Synchronization Complete\n         3      4  ? left over, beginning with\n                      02 00 43 00                                     |..C.|\npackets 1: C 1; bytes 3; ended with a fault: packet layer, cause 5 (the length is wrong for the letter), place 0, offset 3\n";
    says(&rt, b"\x01\0C\x02\0C\0", words)?;
    let words =
        b"         0      4  ? left over, beginning with\n                      02 00 47 20                                     |..G |\npackets 0; bytes 0; ended with a fault: packet layer, cause 6 (the reason is not one that is listed), place 3, offset 3\n";
    says(&rt, b"\x02\0G ", words)
}
