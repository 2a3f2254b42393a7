//! Whole runs over memory: what is written where, and the status.
use crate::fakes::{Endless, Feed, Sink};
use crate::outcomes::{Outcome, is_done, outcome_of, said};
use std::alloc::Global;

const COUNTER: &[u8] =
    b"version 1\nclasses 1\nglobal 0\nentry 0\nfn 1 5\nglob r1, g0\nacq 0\nload r2, r1\n\
    int r3, 1\nadd r4, r2, r3\nstore r1, r4\nrel\nret r0\nlist\nexpr r1 write\n";

/// The same with other ends of lines, and empty lines.
const SPACED: &[u8] =
    b"version 1\r\n\nclasses 1\r\n\nglobal 0\r\n\nentry 0\r\n\nfn 1 5\r\n\nglob r1, g0\r\n\nacq 0\r\n\n\
    load r2, r1\r\n\nint r3, 1\r\n\nadd r4, r2, r3\r\n\nstore r1, r4\r\n\nrel\r\n\nret r0\r\n\nlist\r\n\n\
    expr r1 write\r\n\n";

/// The image of the counter: 94 bytes.
pub const IMAGE: &[u8] =
    b"ASLM\x00\x01\x00\x01\x00\x01\x00\x00\x00\x01\x01\x05\x00\x08\x00\x00\x00\x08\
    \x08\x01\x00\x00\x00\x00\x00\x00\x12\x00\x00\x00\x00\x00\x00\x00\
    \x0a\x02\x01\x00\x00\x00\x00\x00\x01\x03\x00\x00\x00\x00\x00\x01\
    \x04\x04\x02\x03\x00\x00\x00\x00\x0b\x01\x04\x00\x00\x00\x00\x00\
    \x13\x00\x00\x00\x00\x00\x00\x00\x10\x00\x00\x00\x00\x00\x00\x00\
    \x00\x01\x00\x01\x02\x01\x01\x00";

/// A name, the words, what is read, and what is written with status 0.
type Run = (&'static str, &'static str, &'static [u8], &'static [u8]);

static RUNS: [Run; 7] = [
    (
        "two threads count",
        "step --threads 2 0 0 1 1",
        COUNTER,
        b"0 0 ran\n1 0 ran\n2 1 ran\n3 1 blocked\n",
    ),
    (
        "a thread ends once",
        "step --threads 64 0 0 0 0 0 0 0 0 0",
        COUNTER,
        b"0 0 ran\n1 0 ran\n2 0 ran\n3 0 ran\n4 0 ran\n5 0 ran\n6 0 ran\n7 0 ran\n8 0 ended\n",
    ),
    (
        "the last of 64 threads steps",
        "step --threads 64 63",
        COUNTER,
        b"0 63 ran\n",
    ),
    ("a text becomes an image", "asm", COUNTER, IMAGE),
    ("so does one with other lines", "asm", SPACED, IMAGE),
    ("an image becomes its text", "dis", IMAGE, COUNTER),
    (
        "an image steps as its text",
        "step --threads 2 0 0 1 1",
        IMAGE,
        b"0 0 ran\n1 0 ran\n2 1 ran\n3 1 blocked\n",
    ),
];

#[test]
fn the_counter_is_translated_and_run(rt: HostRuntime) {
    for (name, line, input, output) in RUNS.iter() {
        let done = is_done(rt.alloc(), line, input, (0, output, ""));
        assert!(rt; done == Some(true), "{name}");
    }
}

/// Whether wrong words are refused with nothing read or written.
fn is_unread(alloc: Global) -> Option<bool> {
    let mut reader = Feed::new(b"version 1\n", 4, 1);
    let outcome = outcome_of(alloc, "step --threads x 0", &mut reader)?;
    let is_said = outcome.output.is_empty() && !outcome.errors.is_empty();
    Some(outcome.status == Some(2) && reader.calls == 0 && is_said)
}

#[test]
fn wrong_usage_reads_nothing(rt: HostRuntime) {
    assert!(rt; is_unread(rt.alloc()) == Some(true));
}

/// Whether help is written, and nothing is said.
fn is_help_written(alloc: Global) -> Option<bool> {
    let outcome = outcome_of(alloc, "step --help", &mut Endless)?;
    let is_written = !outcome.output.is_empty() && outcome.errors.is_empty();
    Some(outcome.status == Some(0) && is_written)
}

#[test]
fn help_goes_to_the_output(rt: HostRuntime) {
    assert!(rt; is_help_written(rt.alloc()) == Some(true));
}

/// The counter's text, two steps of it, and what is written of them.
static TEXT: &[u8] = COUNTER;

static STEPS: &str = "step --threads 1 0 0";

static OUTPUT: &[u8] = b"0 0 ran\n1 0 ran\n";

/// The status of two steps over a reader and a writer, what is written and what is said.
fn stepped(alloc: Global, reader: &mut Feed<'_>, writer: Sink) -> Option<Outcome> {
    let mut writer = writer;
    let (status, errors) = said(alloc, STEPS, reader, &mut writer)?;
    Some(Outcome {
        status,
        output: writer.held,
        errors,
    })
}

/// Whether bytes that come and go one by one are the same.
fn is_piecewise(alloc: Global) -> Option<bool> {
    let mut reader = Feed::new(TEXT, 1, 0);
    let outcome = stepped(alloc, &mut reader, Sink::new(alloc, 1, 0, 0))?;
    Some(outcome.is(0, OUTPUT, ""))
}

#[test]
fn pieces_change_nothing(rt: HostRuntime) {
    assert!(rt; is_piecewise(rt.alloc()) == Some(true));
}

/// Whether the reader that fails at this call is named, with nothing written.
fn is_reader_named(alloc: Global, call: u32) -> Option<bool> {
    let mut reader = Feed::new(TEXT, 100, call);
    let outcome = stepped(alloc, &mut reader, Sink::new(alloc, 9, 0, 0))?;
    Some(outcome.is(1, b"", "asl: Read\n"))
}

/// Whether the reader without end is.
fn is_endless_named(alloc: Global) -> Option<bool> {
    let outcome = outcome_of(alloc, STEPS, &mut Endless)?;
    let is_named = outcome.errors.as_slice() == b"asl: TooLong\n".as_slice();
    Some(outcome.status == Some(1) && is_named)
}

#[test]
fn a_failing_reader_is_named(rt: HostRuntime) {
    for call in 1..=3u32 {
        assert!(rt;
            is_reader_named(rt.alloc(), call) == Some(true),
            "call {call}"
        );
    }
    assert!(rt; is_endless_named(rt.alloc()) == Some(true));
}

/// Whether a writer that does not take all is named, with a first part written.
fn is_writer_named(alloc: Global, fails_at: u32, full_at: u32) -> Option<bool> {
    let mut reader = TEXT;
    let mut writer = Sink::new(alloc, 4, fails_at, full_at);
    let (status, errors) = said(alloc, STEPS, &mut reader, &mut writer)?;
    let is_part = OUTPUT.starts_with(writer.held.as_slice()) && writer.held.len() < OUTPUT.len();
    let is_named = errors.as_slice() == b"asl: Write\n".as_slice();
    Some(status == Some(1) && is_part && is_named)
}

#[test]
fn a_failing_writer_is_named(rt: HostRuntime) {
    for call in 1..=4u32 {
        assert!(rt;
            is_writer_named(rt.alloc(), call, 0) == Some(true),
            "fails at {call}"
        );
        assert!(rt;
            is_writer_named(rt.alloc(), 0, call) == Some(true),
            "full at {call}"
        );
    }
}
