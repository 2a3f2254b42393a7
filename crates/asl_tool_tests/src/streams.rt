//! Reading and writing in pieces, and failing on the way.
use crate::fakes::{Endless, Feed, Sink};
use asl_tool::{ReadFault, read_whole, write_whole};
use std::alloc::Global;

/// Whether all is read in such pieces.
fn is_read(alloc: Global, text: &[u8], most: usize) -> bool {
    match read_whole(alloc, &mut Feed::new(text, most, 0)) {
        Ok(all) => all.as_slice() == text,
        Err(_) => false,
    }
}

static TEXT: &[u8] = b"glob r1, g0\nacq 0\n";

#[test]
fn reads_all_in_any_pieces(rt: HostRuntime) {
    for most in 1..20usize {
        assert!(rt; is_read(rt.alloc(), TEXT, most), "{most} bytes");
    }
    assert!(rt; is_read(rt.alloc(), b"", 5));
}

/// What is read byte by byte where a call fails, or why nothing is.
fn read_bytes(alloc: Global, text: &[u8], fails_at: u32) -> Result<Vec<u8>, ReadFault> {
    read_whole(alloc, &mut Feed::new(text, 1, fails_at))
}

#[test]
fn a_failing_read_is_named(rt: HostRuntime) {
    for call in 1..=4u32 {
        let fault = read_bytes(rt.alloc(), b"abc", call).err();
        assert!(rt; fault == Some(ReadFault::Read), "call {call}");
    }
    match read_bytes(rt.alloc(), b"abc", 5) {
        Ok(all) => assert!(rt; all.as_slice() == b"abc".as_slice()),
        Err(_) => assert!(rt; false),
    }
}

#[test]
fn an_endless_reader_is_too_long(rt: HostRuntime) {
    let fault = read_whole(rt.alloc(), &mut Endless).err();
    assert!(rt; fault == Some(ReadFault::TooLong));
}

/// Whether the sink takes all of the bytes, and what it holds then.
fn written(mut sink: Sink, bytes: &[u8]) -> (bool, Vec<u8>) {
    let is_taken = write_whole(&mut sink, bytes).is_ok();
    (is_taken, sink.held)
}

/// Whether the sink takes all of the bytes or not, and holds these.
fn holds(sink: Sink, bytes: &[u8], wanted: (bool, &[u8])) -> bool {
    let (is_taken, held) = written(sink, bytes);
    is_taken == wanted.0 && held.as_slice() == wanted.1
}

#[test]
fn writes_all_in_any_pieces(rt: HostRuntime) {
    for most in 1..8usize {
        let sink = Sink::new(rt.alloc(), most, 0, 0);
        assert!(rt;
            holds(sink, b"0 0 ran\n", (true, b"0 0 ran\n")),
            "{most} bytes"
        );
    }
}

/// What a sink holds of six bytes, two a call, where a call goes wrong.
static PARTS: [&[u8]; 3] = [b"", b"ab", b"abcd"];

#[test]
fn a_failing_write_leaves_a_first_part(rt: HostRuntime) {
    for (call, part) in (1..=3u32).zip(PARTS.iter()) {
        let failing = Sink::new(rt.alloc(), 2, call, 0);
        assert!(rt; holds(failing, b"abcdef", (false, part)), "fails at {call}");
        let full = Sink::new(rt.alloc(), 2, 0, call);
        assert!(rt; holds(full, b"abcdef", (false, part)), "full at {call}");
    }
}
