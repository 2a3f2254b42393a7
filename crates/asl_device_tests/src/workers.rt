//! Readers and writers under `run`, with one worker, whose run is the same each time.
use crate::commands::split;
use crate::devices::{Endless, Feed, Sink, Trouble};
use crate::outcome::Outcome;
use asl_tool::tool;
use std::alloc::{AllocError, Global};
use std::sync::Wait;
use std::thread::Threads;

const LINE: &str = "run --threads 1 --workers 1 --limit 100";

const COUNTER: &[u8] =
    b"version 2\nclasses 1\nglobal 0\nentry 0\nfn 1 5\nglob r1, g0\nacq 0\nload r2, r1\nint r3, 1\nadd r4, r2, r3\nstore r1, r4\nrel\nret r0\nlist\nexpr r1 write\n";

const RUN: &[u8] = b"0 0 ran\n1 0 ran\n2 0 ran\n3 0 ran\n4 0 ran\n5 0 ran\n6 0 ran\n7 0 ran\n";

/// Which device goes wrong.
#[derive(Clone, Copy)]
enum Side {
    Reader,
    Writer,
}

/// How a device goes wrong: which, how, and how many bytes a call moves at most.
#[derive(Clone, Copy)]
struct Manner {
    side: Side,
    kind: Trouble,
    most: usize,
}

/// What the counter comes to over devices of which one goes wrong at this call, and how often that one was called.
fn run<R: Threads + Wait + Sync>(
    rt: &R,
    alloc: Global,
    manner: Manner,
    at: u32,
) -> Result<(Outcome, u32), AllocError> {
    let words = split(alloc, LINE)?;
    let (reading_at, writing_at) = match manner.side {
        Side::Reader => (at, 0),
        Side::Writer => (0, at),
    };
    let mut reader = Feed {
        bytes: COUNTER,
        most: manner.most,
        wrong_at: reading_at,
        kind: manner.kind,
        calls: 0,
    };
    let mut output = Sink::new(alloc, manner.most, writing_at, manner.kind);
    let mut errors = Vec::new(alloc);
    let status = tool(
        rt,
        alloc,
        words.as_slice(),
        &mut reader,
        &mut output,
        &mut errors,
    );
    let calls = match manner.side {
        Side::Reader => reader.calls,
        Side::Writer => output.calls,
    };
    let outcome = Outcome {
        status: Some(status),
        output: output.held,
        errors,
    };
    Ok((outcome, calls))
}

/// Whether the device that goes wrong at this call is named; nothing where there is no such call, and the run is whole.
fn is_named<R: Threads + Wait + Sync>(
    rt: &R,
    alloc: Global,
    manner: Manner,
    at: u32,
) -> Option<bool> {
    let (outcome, calls) = run(rt, alloc, manner, at).ok()?;
    match manner.side {
        Side::Reader => outcome.names_read(calls >= at, RUN),
        Side::Writer => outcome.names_write(calls >= at, RUN),
    }
}

/// How many first calls of the device go wrong and are named; none where one is not.
fn named_calls<R: Threads + Wait + Sync>(
    rt: &R,
    alloc: Global,
    side: Side,
    most: usize,
    kind: Trouble,
) -> Option<u32> {
    let manner = Manner { side, kind, most };
    for at in 1..400u32 {
        match is_named(rt, alloc, manner, at) {
            Some(true) => {}
            Some(false) => return None,
            None => return Some(at - 1),
        }
    }
    None
}

#[test]
fn reads_that_go_wrong_are_named(rt: HostRuntime) {
    let calls = COUNTER.len() as u32 + 1;
    assert!(rt; named_calls(&rt, rt.alloc(), Side::Reader, 1, Trouble::Fails) == Some(calls));
    assert!(rt; named_calls(&rt, rt.alloc(), Side::Reader, 1, Trouble::Interrupted) == Some(calls));
    assert!(rt; named_calls(&rt, rt.alloc(), Side::Reader, 4096, Trouble::Fails) == Some(2));
}

#[test]
fn writes_that_go_wrong_are_named(rt: HostRuntime) {
    let calls = RUN.len() as u32;
    assert!(rt; named_calls(&rt, rt.alloc(), Side::Writer, 1, Trouble::Fails) == Some(calls));
    assert!(rt; named_calls(&rt, rt.alloc(), Side::Writer, 1, Trouble::Interrupted) == Some(calls));
    assert!(rt; named_calls(&rt, rt.alloc(), Side::Writer, 1, Trouble::Nothing) == Some(calls));
    assert!(rt; named_calls(&rt, rt.alloc(), Side::Writer, 4096, Trouble::Fails) == Some(1));
}

/// What a run comes to over a reader without end.
fn run_endless<R: Threads + Wait + Sync>(
    rt: &R,
    alloc: Global,
) -> Result<(u8, usize, Vec<u8>), AllocError> {
    let words = split(alloc, LINE)?;
    let mut output = Vec::new(alloc);
    let mut errors = Vec::new(alloc);
    let status = tool(
        rt,
        alloc,
        words.as_slice(),
        &mut Endless,
        &mut output,
        &mut errors,
    );
    Ok((status, output.len(), errors))
}

/// Whether a reader without end is too long for a run.
fn is_too_long<R: Threads + Wait + Sync>(rt: &R, alloc: Global) -> Option<bool> {
    let (status, written, said) = run_endless(rt, alloc).ok()?;
    Some(status == 1 && written == 0 && said.as_slice() == b"asl: TooLong\n".as_slice())
}

#[test]
fn a_reader_without_end_is_too_long(rt: HostRuntime) {
    assert!(rt; is_too_long(&rt, rt.alloc()) == Some(true));
}
