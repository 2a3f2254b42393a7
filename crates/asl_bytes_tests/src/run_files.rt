//! The counter's run file, cut at each place, and with each byte changed to each other value.
use crate::rows::{Met, NONE, add, row_of_image};
use asl_journal::{FileFault, JournalFault, get_run, put_run};
use std::alloc::{AllocError, Global};

/// The run file of the counter's threads, stepped 0, 0, 1, 1: the image of 94 bytes after its length, and the journal.
static FILE: [u8; 117] =
    *b"\x00\x00\x00\x5eASLM\x00\x01\x00\x01\x00\x01\x00\x00\x00\x01\x01\x05\x00\x08\x00\x00\x00\x08\
    \x08\x01\x00\x00\x00\x00\x00\x00\x12\x00\x00\x00\x00\x00\x00\x00\
    \x0a\x02\x01\x00\x00\x00\x00\x00\x01\x03\x00\x00\x00\x00\x00\x01\
    \x04\x04\x02\x03\x00\x00\x00\x00\x0b\x01\x04\x00\x00\x00\x00\x00\
    \x13\x00\x00\x00\x00\x00\x00\x00\x10\x00\x00\x00\x00\x00\x00\x00\
    \x00\x01\x00\x01\x02\x01\x01\x00\
    ASLJ\x00\x01\x02\x00\x00\x00\x04\x00\x00\x00\x00\x01\x00\x01\x02";

/// What an independent reader found of the 29,835 changed files: good ones, then those that each refusal met: of the image,
/// of the file as a whole, and of the journal.
static FOUND: [Met; 21] = [
    (1_528, 0),
    (1_020, 0),
    (509, 0),
    (2_106, 193_499),
    (12_922, 754_843),
    (31, 2_580),
    (695, 0),
    (513, 0),
    (514, 0),
    (511, 0),
    (17, 0),
    (1, 3),
    (2_514, 9_045),
    (1_025, 523),
    (251, 251),
    (907, 106_119),
    (1_020, 0),
    (509, 0),
    (766, 14_554),
    (2_472, 32_296),
    (4, 56),
];

/// The row of a journal's fault, and the place that it names.
fn row_of_journal(fault: JournalFault) -> (usize, usize) {
    match fault {
        JournalFault::Magic => (16, 0),
        JournalFault::Version => (17, 0),
        JournalFault::Truncated(at) => (18, at),
        JournalFault::BadField(at) => (19, at),
        JournalFault::Trailing(at) => (20, at),
        _ => (NONE, 0),
    }
}

/// The row of what the bytes meet, and the place that is named. Bytes that are read are those that are written again.
fn row_of(alloc: Global, bytes: &[u8]) -> (usize, usize) {
    match get_run(alloc, bytes) {
        Ok((program, journal)) => match put_run(alloc, &program, &journal) {
            Ok(again) if again.as_slice() == bytes => (0, 0),
            _ => (NONE, 0),
        },
        Err(FileFault::Truncated(at)) => (15, at),
        Err(FileFault::Image(fault)) => row_of_image(fault),
        Err(FileFault::Journal(fault)) => row_of_journal(fault),
        Err(FileFault::OutOfMemory) => (NONE, 0),
    }
}

/// The file with this byte changed.
fn changed(alloc: Global, at: usize, value: u8) -> Result<Vec<u8>, AllocError> {
    let mut bytes = FILE.to_vec(alloc)?;
    if at < bytes.len() {
        bytes[at] = value;
    }
    Ok(bytes)
}

/// Counts what the byte at this place meets with each other value.
fn count(alloc: Global, at: usize, found: &mut [Met; 21]) -> Option<()> {
    for value in 0..=255 {
        let bytes = changed(alloc, at, value).ok()?;
        if bytes.as_slice() != FILE.as_slice() {
            let (row, place) = row_of(alloc, bytes.as_slice());
            add(found, row, place)?;
        }
    }
    Some(())
}

/// What all changed files meet.
fn counted(alloc: Global) -> Option<[Met; 21]> {
    let mut found = [(0, 0); 21];
    for at in 0..117 {
        count(alloc, at, &mut found)?;
    }
    Some(found)
}

#[test]
fn changed_files_meet_what_an_independent_reader_found(rt: HostRuntime) {
    let found = counted(rt.alloc());
    assert!(rt; found == Some(FOUND));
}

/// The row of what the first bytes of the file meet, so many, and the place that is named; the journal begins at byte 98.
fn cut(n: usize) -> (usize, usize) {
    if n < 98 { (15, n) } else { (18, n - 98) }
}

#[test]
fn cut_files_are_truncated(rt: HostRuntime) {
    for n in 0..117 {
        let met = row_of(rt.alloc(), &FILE[..n]);
        assert!(rt; met == cut(n), "{n} bytes");
    }
}
