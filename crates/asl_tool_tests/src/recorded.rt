//! Recorded runs: their files, replay, and the debugger's words.
use crate::outcomes::{is_done, outcome_of};
use std::alloc::Global;

static COUNTER: &[u8] =
    b"version 1\nclasses 1\nglobal 0\nentry 0\nfn 1 5\nglob r1, g0\nacq 0\nload r2, r1\n\
    int r3, 1\nadd r4, r2, r3\nstore r1, r4\nrel\nret r0\nlist\nexpr r1 write\n";

/// The run file of the counter's threads, stepped 0, 0, 1, 1: the image of 94 bytes after its length, and the journal.
static FILE: [u8; 117] =
    *b"\x00\x00\x00\x5eASLM\x00\x01\x00\x01\x00\x01\x00\x00\x00\x01\x01\x05\x00\x08\x00\x00\x00\x08\
    \x08\x01\x00\x00\x00\x00\x00\x00\x12\x00\x00\x00\x00\x00\x00\x00\
    \x0a\x02\x01\x00\x00\x00\x00\x00\x01\x03\x00\x00\x00\x00\x00\x01\
    \x04\x04\x02\x03\x00\x00\x00\x00\x0b\x01\x04\x00\x00\x00\x00\x00\
    \x13\x00\x00\x00\x00\x00\x00\x00\x10\x00\x00\x00\x00\x00\x00\x00\
    \x00\x01\x00\x01\x02\x01\x01\x00\
    ASLJ\x00\x01\x02\x00\x00\x00\x04\x00\x00\x00\x00\x01\x00\x01\x02";

#[test]
fn a_run_is_recorded(rt: HostRuntime) {
    let line = "step --threads 2 --record 0 0 1 1";
    let done = is_done(rt.alloc(), line, COUNTER, (0, &FILE, ""));
    assert!(rt; done == Some(true));
}

#[test]
fn a_recorded_run_comes_again(rt: HostRuntime) {
    let done = is_done(rt.alloc(), "replay", &FILE, (0, b"same 4\n", ""));
    assert!(rt; done == Some(true));
}

/// The lines of the counter's run, and those with the place of each step.
static LOGS: [(&str, &str); 2] = [
    ("log", "0 0 ran\n1 0 ran\n2 1 ran\n3 1 blocked\n"),
    (
        "log --trace",
        "0 0 0 0 ran\n1 0 1 0 ran\n2 1 0 0 ran\n3 1 1 0 blocked\n",
    ),
];

#[test]
fn a_recorded_run_is_told(rt: HostRuntime) {
    for (line, lines) in LOGS.iter() {
        let done = is_done(rt.alloc(), line, &FILE, (0, lines.as_bytes(), ""));
        assert!(rt; done == Some(true), "{line}");
    }
}

/// The words of a debugger over the counter's run, and what it answers.
static TALKS: [(&str, &str); 12] = [
    (
        "debug goto 4 back back view",
        "at 4\nat 3\nat 2\nthread 0 pc 2 depth 1\nreg 0 0 int 0\nreg 0 1 addr 0.0\nreg 0 2 int 0\nreg 0 3 int 0\n\
        reg 0 4 int 0\nthread 1 pc 0 depth 0\nreg 1 0 int 1\nreg 1 1 int 0\nreg 1 2 int 0\nreg 1 3 int 0\n\
        reg 1 4 int 0\ncell 0.0 int 0\nheld 0 root IX\nheld 0 class 0 IX\nheld 0 leaf 0.0 X\n",
    ),
    (
        "debug goto 4 asks",
        "at 4\nasks 1 root IX\nasks 1 class 0 IX\nasks 1 leaf 0.0 X\nclash 1 leaf 0.0 X 0 X\n",
    ),
    (
        "debug stack",
        "frame 0 0 fn 0 pc 0\nlocal 0 0 0 int 0\nlocal 0 0 1 int 0\nlocal 0 0 2 int 0\nlocal 0 0 3 int 0\n\
        local 0 0 4 int 0\nframe 1 0 fn 0 pc 0\nlocal 1 0 0 int 1\nlocal 1 0 1 int 0\nlocal 1 0 2 int 0\n\
        local 1 0 3 int 0\nlocal 1 0 4 int 0\n",
    ),
    ("debug objects", "object 0 0 1\n"),
    ("debug back", "refused AtStart\n"),
    ("debug prev", "refused AtStart\n"),
    ("debug goto 5", "refused NoSuchStep\n"),
    (
        "debug goto 4 forward next",
        "at 4\nrefused AtEnd\nrefused AtEnd\n",
    ),
    (
        "debug break 1 next next next prev prev prev",
        "break 1\nat 1\nat 3\nat 4\nat 3\nat 1\nat 0\n",
    ),
    ("debug next prev", "at 4\nat 0\n"),
    (
        "debug break 1 break 00 clear 1 next next next",
        "break 1\nbreak 0\nclear 1\nat 2\nat 4\nrefused AtEnd\n",
    ),
    (
        "debug forward forward goto 9 back",
        "at 1\nat 2\nrefused NoSuchStep\nat 1\n",
    ),
];

#[test]
fn the_debugger_answers(rt: HostRuntime) {
    for (line, answers) in TALKS.iter() {
        let done = is_done(rt.alloc(), line, &FILE, (0, answers.as_bytes(), ""));
        assert!(rt; done == Some(true), "{line}");
    }
}

/// Makes a cell in a section, stores into it, and then where others find it.
static PUBLISH: &[u8] =
    b"version 2\nclasses 2\nglobal 0\nentry 0\nfn 1 3\nglob r1, g0\nacq 0\nnew r2, 1, 1\n\
    store r2, r0\nstore r1, r2\nrel\nret r0\nlist\nexpr r1 write\n";

/// The run file of the program's first six steps of one thread.
fn published(alloc: Global, program: &[u8]) -> Option<Vec<u8>> {
    let line = "step --threads 1 --record 0 0 0 0 0 0";
    let mut reader = program;
    let outcome = outcome_of(alloc, line, &mut reader)?;
    if outcome.status == Some(0) {
        Some(outcome.output)
    } else {
        None
    }
}

/// What is fresh for the thread stands last.
static PUBLISH_VIEW: &[u8] =
    b"at 6\nat 5\nthread 0 pc 5 depth 1\nreg 0 0 int 0\nreg 0 1 addr 0.0\nreg 0 2 addr 1.0\n\
    cell 0.0 addr 1.0\ncell 1.0 int 0\nheld 0 root IX\nheld 0 class 0 IX\nheld 0 leaf 0.0 X\nfresh 0 1\n";

/// Whether the debugger shows this over the program's run.
fn is_viewed(alloc: Global, program: &[u8], view: &[u8]) -> Option<bool> {
    let file = published(alloc, program)?;
    is_done(
        alloc,
        "debug goto 6 back view",
        file.as_slice(),
        (0, view, ""),
    )
}

#[test]
fn the_view_tells_what_is_fresh(rt: HostRuntime) {
    assert!(rt; is_viewed(rt.alloc(), PUBLISH, PUBLISH_VIEW) == Some(true));
}
