//! Values: sums, comparisons, addresses, jumps, and what is shown.
use super::{Case, HEAD, expect_cases, is_right};
use std::alloc::{AllocError, Global};

/// What puts a value into register 1, and one into register 2; an instruction that takes the two; and what it replies, or
/// the value that it makes of them.
static PAIRS: [(&str, &str, &str, &str); 42] = [
    ("int r1, 5", "int r2, 7", "add", "int 12"),
    ("int r1, 2147483647", "int r2, 1", "add", "int -2147483648"),
    ("int r1, -2147483648", "int r2, -1", "add", "int 2147483647"),
    ("int r1, 5", "int r2, 7", "sub", "int -2"),
    ("int r1, -2147483648", "int r2, 1", "sub", "int 2147483647"),
    ("int r1, 2147483647", "int r2, -1", "sub", "int -2147483648"),
    ("null r1", "int r2, 0", "add", "fault Type"),
    ("int r1, 0", "null r2", "add", "fault Type"),
    ("glob r1, g0", "int r2, 0", "add", "fault Type"),
    ("int r1, 0", "glob r2, g0", "add", "fault Type"),
    ("null r1", "int r2, 0", "sub", "fault Type"),
    ("int r1, 0", "null r2", "sub", "fault Type"),
    ("glob r1, g0", "int r2, 0", "sub", "fault Type"),
    ("int r1, 0", "glob r2, g0", "sub", "fault Type"),
    ("int r1, -1", "int r2, 0", "lt", "int 1"),
    ("int r1, 0", "int r2, -1", "lt", "int 0"),
    ("int r1, 3", "int r2, 3", "lt", "int 0"),
    ("int r1, -2147483648", "int r2, 2147483647", "lt", "int 1"),
    ("int r1, 2147483647", "int r2, -2147483648", "lt", "int 0"),
    ("int r1, 0", "null r2", "lt", "fault Type"),
    ("int r1, 0", "glob r2, g0", "lt", "fault Type"),
    ("null r1", "int r2, 0", "lt", "fault Type"),
    ("null r1", "null r2", "lt", "fault Type"),
    ("null r1", "glob r2, g0", "lt", "fault Type"),
    ("glob r1, g0", "int r2, 0", "lt", "fault Type"),
    ("glob r1, g0", "null r2", "lt", "fault Type"),
    ("glob r1, g0", "glob r2, g1", "lt", "fault Type"),
    ("int r1, -5", "int r2, -5", "eq", "int 1"),
    ("int r1, 0", "int r2, 1", "eq", "int 0"),
    ("int r1, 0", "null r2", "eq", "int 0"),
    ("int r1, 0", "glob r2, g0", "eq", "int 0"),
    ("null r1", "int r2, 0", "eq", "int 0"),
    ("null r1", "null r2", "eq", "int 1"),
    ("null r1", "mov r2, r1", "eq", "int 1"),
    ("null r1", "glob r2, g0", "eq", "int 0"),
    ("glob r1, g0", "int r2, 0", "eq", "int 0"),
    ("glob r1, g0", "null r2", "eq", "int 0"),
    ("glob r1, g1", "glob r2, g1", "eq", "int 1"),
    ("glob r1, g0", "glob r2, g1", "eq", "int 0"),
    ("new r1, 2, 0", "field r2, r1, 0", "eq", "int 1"),
    ("new r1, 2, 0", "field r2, r1, 1", "eq", "int 0"),
    ("new r1, 1, 0", "new r2, 1, 0", "eq", "int 0"),
];

/// What a run replies to the instruction that gives this answer, and after it.
fn replies(alloc: Global, answer: &str) -> Result<String, AllocError> {
    if answer.starts_with("fault") {
        ["0 ran; 0 ran; 0 ", answer, "; 0 ended"].concat(alloc)
    } else {
        ["0 ran; 0 ran; 0 ran; 0 out ", answer, "; 0 ran; 0 ended"].concat(alloc)
    }
}

/// Whether the instruction, between what makes its values and what shows what it makes, gives this answer.
fn is_made(alloc: Global, values: [&str; 2], instruction: &str, answer: &str) -> Option<bool> {
    let run = replies(alloc, answer).ok()?;
    let instruction = [instruction, " r3, r1, r2"].concat(alloc).ok()?;
    let lines = [
        HEAD,
        values[0],
        values[1],
        instruction.as_str(),
        "out r3; ret r0",
    ];
    is_right(alloc, &lines, run.as_str())
}

#[test]
fn two_values_make_a_third(rt: HostRuntime) {
    for (first, second, instruction, answer) in PAIRS.iter() {
        let made = is_made(rt.alloc(), [first, second], instruction, answer);
        assert!(rt; made == Some(true), "{first}; {second}; {instruction}");
    }
}

/// What is shown, where a field is, and where a jump goes.
static CASES: [Case; 25] = [
    Case {
        name: "values are shown",
        code: "out r0; null r1; out r1; glob r2, g1; out r2; mov r3, r2; out r3; out r4; ret r0",
        run: "2 out int 2; 2 ran; 2 out null; 2 ran; 2 out addr 1.0; 2 ran; 2 out addr 1.0; 2 out int 0",
    },
    Case {
        name: "null has no fields",
        code: "null r1; field r3, r1, 0; ret r0",
        run: "0 ran; 0 fault Null; 0 ended",
    },
    Case {
        name: "an integer has no fields",
        code: "int r1, 0; field r3, r1, 0; ret r0",
        run: "0 ran; 0 fault Type; 0 ended",
    },
    Case {
        name: "a global has one cell",
        code: "glob r1, g0; field r3, r1, 0; out r3; field r3, r1, 1; ret r0",
        run: "0 ran; 0 ran; 0 out addr 0.0; 0 fault Bounds; 0 ended",
    },
    Case {
        name: "a field is at most 255 cells on",
        code: "glob r1, g1; field r3, r1, 255; ret r0",
        run: "0 ran; 0 fault Bounds; 0 ended",
    },
    Case {
        name: "an object of 255 cells has a last cell",
        code: "new r1, 255, 0; field r3, r1, 254; out r3; field r3, r1, 255; ret r0",
        run: "0 ran; 0 ran; 0 out addr 2.254; 0 fault Bounds; 0 ended",
    },
    Case {
        name: "an object of three cells has a last cell",
        code: "new r1, 3, 0; out r1; field r3, r1, 2; out r3; field r3, r1, 3; ret r0",
        run: "0 ran; 0 out addr 2.0; 0 ran; 0 out addr 2.2; 0 fault Bounds; 0 ended",
    },
    Case {
        name: "a field of a field counts on from there",
        code: "new r1, 3, 1; field r3, r1, 1; field r3, r3, 1; out r3; field r3, r3, 1; ret r0",
        run: "0 ran; 0 ran; 0 ran; 0 out addr 2.2; 0 fault Bounds; 0 ended",
    },
    Case {
        name: "objects are numbered behind the globals",
        code: "new r1, 1, 0; out r1; new r2, 1, 0; out r2; ret r0",
        run: "0 ran; 0 out addr 2.0; 1 ran; 1 out addr 3.0; 0 ran; 0 out addr 4.0",
    },
    Case {
        name: "zero jumps",
        code: "int r1, 0; jz r1, 3; ret r0; out r1; ret r0",
        run: "0 ran; 0 ran; 0 out int 0; 0 ran; 0 ended",
    },
    Case {
        name: "null jumps",
        code: "null r1; jz r1, 3; ret r0; out r1; ret r0",
        run: "0 ran; 0 ran; 0 out null; 0 ran; 0 ended",
    },
    Case {
        name: "one goes on",
        code: "int r1, 1; jz r1, 4; out r1; ret r0; ret r0",
        run: "0 ran; 0 ran; 0 out int 1; 0 ran; 0 ended",
    },
    Case {
        name: "a number below zero goes on",
        code: "int r1, -1; jz r1, 4; out r1; ret r0; ret r0",
        run: "0 ran; 0 ran; 0 out int -1; 0 ran; 0 ended",
    },
    Case {
        name: "an address goes on",
        code: "glob r1, g0; jz r1, 4; out r1; ret r0; ret r0",
        run: "0 ran; 0 ran; 0 out addr 0.0; 0 ran; 0 ended",
    },
    Case {
        name: "the last instruction is jumped to",
        code: "jmp 3; out r0; rel; jmp 1",
        run: "0 ran; 0 ran; 0 out int 0; 0 fault NoSection",
    },
    Case {
        name: "the first instruction is jumped to",
        code: "jz r1, 3; out r1; ret r0; int r1, 5; jmp 0",
        run: "0 ran; 0 ran; 0 ran; 0 ran; 0 out int 5; 0 ran; 0 ended",
    },
    Case {
        name: "null is not read",
        code: "null r1; load r2, r1; ret r0",
        run: "0 ran; 0 fault Null; 0 ended",
    },
    Case {
        name: "an integer is not read",
        code: "load r2, r0; ret r0",
        run: "0 fault Type; 0 ended",
    },
    Case {
        name: "null is not written",
        code: "null r1; store r1, r0; ret r0",
        run: "0 ran; 0 fault Null; 0 ended",
    },
    Case {
        name: "an integer is not written",
        code: "store r0, r0; ret r0",
        run: "0 fault Type; 0 ended",
    },
    Case {
        name: "what is not covered is not read",
        code: "glob r1, g1; load r2, r1; ret r0",
        run: "0 ran; 0 fault Unprotected 1.0 read; 0 ended",
    },
    Case {
        name: "what is not covered is not written",
        code: "glob r1, g0; store r1, r0; ret r0",
        run: "0 ran; 0 fault Unprotected 0.0 write; 0 ended",
    },
    Case {
        name: "cells start as 0, and hold what is written",
        code: "new r1, 2, 0; field r2, r1, 1; acq 0; load r3, r2; out r3; store r2, r1; load r3, r2; out r3; \
            load r3, r1; out r3; rel; ret r0; list; expr r1 write; expr r2 write",
        run: "0 ran; 0 ran; 0 ran; 0 ran; 0 out int 0; 0 ran; 0 ran; 0 out addr 2.0; 0 ran; 0 out int 0; 0 ran; 0 ran",
    },
    Case {
        name: "two threads count to two",
        code: "glob r1, g0; acq 0; load r2, r1; int r3, 1; add r2, r2, r3; store r1, r2; rel; out r2; ret r2; \
            list; expr r1 write",
        run: "0 ran; 0 ran; 0 ran; 0 ran; 0 ran; 0 ran; 0 ran; 0 out int 1; 0 ran; 0 ended; \
            1 ran; 1 ran; 1 ran; 1 ran; 1 ran; 1 ran; 1 ran; 1 out int 2; 1 ran; 1 ended",
    },
    Case {
        name: "two threads have a cell in common",
        code: "glob r1, g0; acq 0; load r2, r1; out r2; store r1, r1; rel; ret r0; list; expr r1 write",
        run: "0 ran; 0 ran; 0 ran; 0 out int 0; 0 ran; 0 ran; 1 ran; 1 ran; 1 ran; 1 out addr 0.0",
    },
];

#[test]
fn values_fields_and_jumps(rt: HostRuntime) {
    expect_cases(&rt, &CASES);
}
