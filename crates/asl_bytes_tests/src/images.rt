//! The counter's image, cut at each place, and with each byte changed to each other value.
use crate::rows::{Met, NONE, add, row_of_image};
use asl_loader::{LoadFault, load, store};
use std::alloc::{AllocError, Global};

static IMAGE: [u8; 94] =
    *b"ASLM\x00\x01\x00\x01\x00\x01\x00\x00\x00\x01\x01\x05\x00\x08\x00\x00\x00\x08\
    \x08\x01\x00\x00\x00\x00\x00\x00\x12\x00\x00\x00\x00\x00\x00\x00\
    \x0a\x02\x01\x00\x00\x00\x00\x00\x01\x03\x00\x00\x00\x00\x00\x01\
    \x04\x04\x02\x03\x00\x00\x00\x00\x0b\x01\x04\x00\x00\x00\x00\x00\
    \x13\x00\x00\x00\x00\x00\x00\x00\x10\x00\x00\x00\x00\x00\x00\x00\
    \x00\x01\x00\x01\x02\x01\x01\x00";

/// What an independent reader found of the 23,970 changed images: good ones, then those that each refusal met.
static FOUND: [Met; 15] = [
    (1_454, 0),
    (1_020, 0),
    (509, 0),
    (2_012, 189_128),
    (12_922, 754_843),
    (12, 794),
    (695, 0),
    (513, 0),
    (514, 0),
    (511, 0),
    (17, 0),
    (1, 3),
    (2_514, 9_045),
    (1_025, 523),
    (251, 251),
];

/// The row of what the bytes meet, and the place that is named. Bytes that are read are those that are written again.
fn row_of(alloc: Global, bytes: &[u8]) -> (usize, usize) {
    match load(alloc, bytes) {
        Ok(program) => match store(alloc, &program) {
            Ok(again) if again.as_slice() == bytes => (0, 0),
            _ => (NONE, 0),
        },
        Err(fault) => row_of_image(fault),
    }
}

/// The image with this byte changed.
fn changed(alloc: Global, at: usize, value: u8) -> Result<Vec<u8>, AllocError> {
    let mut bytes = IMAGE.to_vec(alloc)?;
    if at < bytes.len() {
        bytes[at] = value;
    }
    Ok(bytes)
}

/// Counts what the byte at this place meets with each other value.
fn count(alloc: Global, at: usize, found: &mut [Met; 15]) -> Option<()> {
    for value in 0..=255 {
        let bytes = changed(alloc, at, value).ok()?;
        if bytes.as_slice() != IMAGE.as_slice() {
            let (row, place) = row_of(alloc, bytes.as_slice());
            add(found, row, place)?;
        }
    }
    Some(())
}

/// What all changed images meet.
fn counted(alloc: Global) -> Option<[Met; 15]> {
    let mut found = [(0, 0); 15];
    for at in 0..94 {
        count(alloc, at, &mut found)?;
    }
    Some(found)
}

#[test]
fn changed_images_meet_what_an_independent_reader_found(rt: HostRuntime) {
    let found = counted(rt.alloc());
    assert!(rt; found == Some(FOUND));
}

#[test]
fn cut_images_are_truncated(rt: HostRuntime) {
    for n in 0..94 {
        let fault = load(rt.alloc(), &IMAGE[..n]).err();
        assert!(rt; fault == Some(LoadFault::Truncated(n)), "{n} bytes");
    }
}
