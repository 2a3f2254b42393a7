//! The command `run`: what it writes, what it refuses, and that it needs the handles of threads.
use crate::commands::IMAGE;
use crate::fakes::{Endless, Feed};
use crate::outcomes::{Outcome, is_done, outcome_of, split};
use asl_tool::{ByteSource, tool};
use std::alloc::Global;
use std::sync::Wait;
use std::thread::Threads;

static COUNTER: &[u8] =
    b"version 1\nclasses 1\nglobal 0\nentry 0\nfn 1 5\nglob r1, g0\nacq 0\nload r2, r1\n\
    int r3, 1\nadd r4, r2, r3\nstore r1, r4\nrel\nret r0\nlist\nexpr r1 write\n";

/// What words come to over a reader, where they may start threads.
fn work<H: Threads + Wait + Sync, R: ByteSource>(
    rt: &H,
    alloc: Global,
    words: &[String],
    reader: &mut R,
) -> Outcome {
    let mut output = Vec::new(alloc);
    let mut errors = Vec::new(alloc);
    let status = tool(rt, alloc, words, reader, &mut output, &mut errors);
    Outcome {
        status: Some(status),
        output,
        errors,
    }
}

/// The same of the words of a line.
fn worked_over<H: Threads + Wait + Sync, R: ByteSource>(
    rt: &H,
    alloc: Global,
    line: &str,
    reader: &mut R,
) -> Option<Outcome> {
    let words = split(alloc, line).ok()?;
    Some(work(rt, alloc, words.as_slice(), reader))
}

/// The same over bytes.
fn worked(
    rt: &(impl Threads + Wait + Sync),
    alloc: Global,
    line: &str,
    input: &[u8],
) -> Option<Outcome> {
    let mut reader = input;
    worked_over(rt, alloc, line, &mut reader)
}

/// The words, the status, the output, and the first line on standard error.
static CASES: [(&str, u8, &str, &str); 8] = [
    (
        "run --threads 1 --workers 1 --limit 10000",
        0,
        "0 0 ran\n1 0 ran\n2 0 ran\n3 0 ran\n4 0 ran\n5 0 ran\n6 0 ran\n7 0 ran\n",
        "",
    ),
    (
        "run --threads 1 --workers 8 --limit 2",
        0,
        "0 0 ran\n1 0 ran\n",
        "",
    ),
    ("run --threads 2 --workers 2 --limit 0", 0, "", ""),
    (
        "run --threads 0 --workers 1 --limit 1",
        1,
        "",
        "asl: BadCount",
    ),
    (
        "run --threads 65 --workers 1 --limit 1",
        1,
        "",
        "asl: BadCount",
    ),
    (
        "run --threads 1 --workers 9 --limit 1",
        1,
        "",
        "asl: BadCount",
    ),
    (
        "run --threads 1 --workers 1 --limit 16777217",
        1,
        "",
        "asl: BadCount",
    ),
    (
        "run --threads 1 --workers 1 --limit x",
        2,
        "",
        "error: invalid value 'x' for '--limit <L>': not a number from 0 to 4294967295",
    ),
];

/// Whether the outcome has this status and output, and such a first line on standard error.
fn is_wanted(outcome: &Outcome, status: u8, output: &str, said: &str) -> bool {
    outcome.status == Some(status)
        && outcome.output.as_slice() == output.as_bytes()
        && outcome.errors.as_slice().starts_with(said.as_bytes())
}

/// Whether the words' run by workers has this status and output, and such a first line on standard error.
fn is_worked(
    rt: &(impl Threads + Wait + Sync),
    alloc: Global,
    line: &str,
    wanted: (u8, &str, &str),
) -> Option<bool> {
    let outcome = worked(rt, alloc, line, COUNTER)?;
    let (status, output, said) = wanted;
    Some(is_wanted(&outcome, status, output, said))
}

#[test]
fn workers_run_the_counter(rt: HostRuntime) {
    for (line, status, output, said) in CASES.iter() {
        let done = is_worked(&rt, rt.alloc(), line, (*status, output, said));
        assert!(rt; done == Some(true), "{line}");
    }
}

/// Whether the words are not run where no threads may be started, and nothing is read or written.
fn is_untouched(alloc: Global, line: &str) -> Option<bool> {
    let mut reader = Feed::new(COUNTER, 9, 0);
    let outcome = outcome_of(alloc, line, &mut reader)?;
    let is_silent = outcome.output.is_empty() && outcome.errors.is_empty();
    Some(outcome.status.is_none() && reader.calls == 0 && is_silent)
}

#[test]
fn no_run_without_threads(rt: HostRuntime) {
    let untouched = is_untouched(rt.alloc(), "run --threads 1 --workers 1 --limit 10000");
    assert!(rt; untouched == Some(true));
}

/// Whether wrong words of a run are refused where no threads may be started, with nothing read or written.
fn is_refused_alone(alloc: Global, line: &str) -> Option<bool> {
    let mut reader = Feed::new(COUNTER, 9, 0);
    let outcome = outcome_of(alloc, line, &mut reader)?;
    let is_said = outcome.output.is_empty() && !outcome.errors.is_empty();
    Some(outcome.status == Some(2) && reader.calls == 0 && is_said)
}

#[test]
fn wrong_words_of_a_run_need_no_threads(rt: HostRuntime) {
    let refused = is_refused_alone(rt.alloc(), "run --threads 1 --workers 1 --limit x");
    assert!(rt; refused == Some(true));
}

/// Whether the outcome is a run file that comes again.
fn is_run_file(alloc: Global, outcome: &Outcome) -> Option<bool> {
    let same = is_done(
        alloc,
        "replay",
        outcome.output.as_slice(),
        (0, b"same 20\n", ""),
    )?;
    Some(same && outcome.status == Some(0) && outcome.errors.is_empty())
}

/// Whether what the words record comes again.
fn is_replayed(rt: &(impl Threads + Wait + Sync), alloc: Global, line: &str) -> Option<bool> {
    let outcome = worked(rt, alloc, line, COUNTER)?;
    is_run_file(alloc, &outcome)
}

#[test]
fn a_run_of_workers_comes_again(rt: HostRuntime) {
    let line = "run --threads 4 --workers 3 --limit 20 --record";
    assert!(rt; is_replayed(&rt, rt.alloc(), line) == Some(true));
}

/// Whether the words step the image where threads may be started, with these lines and nothing said.
fn is_stepped(
    rt: &(impl Threads + Wait + Sync),
    alloc: Global,
    line: &str,
    lines: &[u8],
) -> Option<bool> {
    let outcome = worked(rt, alloc, line, IMAGE)?;
    Some(outcome.is(0, lines, ""))
}

/// Whether the words have help written where threads may be started, and nothing said.
fn is_help_written(rt: &(impl Threads + Wait + Sync), alloc: Global, line: &str) -> Option<bool> {
    let outcome = worked_over(rt, alloc, line, &mut Endless)?;
    let is_written = !outcome.output.is_empty() && outcome.errors.is_empty();
    Some(outcome.status == Some(0) && is_written)
}

/// Whether the words are refused where threads may be started, with nothing read or written.
fn is_refused(rt: &(impl Threads + Wait + Sync), alloc: Global, line: &str) -> Option<bool> {
    let mut reader = Feed::new(COUNTER, 9, 0);
    let outcome = worked_over(rt, alloc, line, &mut reader)?;
    let is_said = outcome.output.is_empty() && !outcome.errors.is_empty();
    Some(outcome.status == Some(2) && reader.calls == 0 && is_said)
}

#[test]
fn the_other_words_are_those_without_threads(rt: HostRuntime) {
    let lines = b"0 0 ran\n1 0 ran\n2 1 ran\n3 1 blocked\n";
    let stepped = is_stepped(&rt, rt.alloc(), "step --threads 2 0 0 1 1", lines);
    assert!(rt; stepped == Some(true));
    assert!(rt; is_help_written(&rt, rt.alloc(), "step --help") == Some(true));
    assert!(rt; is_help_written(&rt, rt.alloc(), "--help") == Some(true));
    assert!(rt; is_refused(&rt, rt.alloc(), "step --threads x 0") == Some(true));
}
