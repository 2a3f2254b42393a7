//! Sections: which go together, what they cover, and how they are entered and left.
use super::{Case, HEAD, expect_cases, is_right};
use std::alloc::{AllocError, Global};

/// The locks of two sections, and the reply to the second that is entered, whichever that is. In front of them each
/// thread makes an object of class 0 for itself, in register 1; register 2 holds no address.
static PAIRS: [(&str, &str, &str); 32] = [
    ("root read", "root read", "ran"),
    ("root read", "root write", "blocked"),
    ("root write", "root write", "blocked"),
    ("root read", "class 0 read", "ran"),
    ("root read", "class 0 write", "blocked"),
    ("root write", "class 0 read", "blocked"),
    ("root write", "class 0 write", "blocked"),
    ("root read", "expr g0 read", "ran"),
    ("root read", "expr g0 write", "blocked"),
    ("root write", "expr g0 read", "blocked"),
    ("root write", "expr r1 write", "blocked"),
    ("class 0 read", "class 0 read", "ran"),
    ("class 0 read", "class 0 write", "blocked"),
    ("class 0 write", "class 0 write", "blocked"),
    ("class 0 write", "class 1 write", "ran"),
    ("class 0 read", "expr g0 read", "ran"),
    ("class 0 read", "expr r1 write", "blocked"),
    ("class 0 read", "expr g1 write", "ran"),
    ("class 0 write", "expr r1 read", "blocked"),
    ("class 0 write", "expr g1 write", "ran"),
    ("expr g0 read", "expr g0 read", "ran"),
    ("expr g0 read", "expr g0 write", "blocked"),
    ("expr g0 write", "expr g0 write", "blocked"),
    ("expr g0 write", "expr g1 write", "ran"),
    ("expr r1 write", "expr r1 write", "ran"),
    ("class 0 read; expr g0 write", "expr r1 read", "ran"),
    ("class 0 read; expr g0 write", "expr r1 write", "blocked"),
    ("class 0 read; expr g0 write", "class 0 read", "blocked"),
    ("class 0 read; expr g0 write", "class 1 write", "ran"),
    ("root write", "expr r2 write", "ran"),
    ("root write", "expr g0 * write", "ran"),
    ("root write", "expr r1 .1 write", "ran"),
];

/// The lines after the first ones, up to the first section's locks.
const ENTRY: &str = "new r1, 1, 0; jz r0, 4; acq 1; ret r0; acq 0; ret r0; list";

/// The run that enters the section of the first locks, then that of the second, and then once more where that was blocked.
fn entered(alloc: Global, reply: &str) -> Result<String, AllocError> {
    let last = if reply == "blocked" {
        "ran"
    } else {
        "fault Open"
    };
    let replies = [
        "0 ran; 0 ran; 0 ran; 1 ran; 1 ran; 1 ",
        reply,
        "; 0 fault Open; 1 ",
        last,
    ];
    replies.concat(alloc)
}

/// Whether the two sections are entered so.
fn is_pair(alloc: Global, first: &str, second: &str, reply: &str) -> Option<bool> {
    let run = entered(alloc, reply).ok()?;
    let lines = [HEAD, ENTRY, first, "list", second];
    is_right(alloc, &lines, run.as_str())
}

#[test]
fn two_sections_go_together_or_not(rt: HostRuntime) {
    for (first, second, reply) in PAIRS.iter() {
        let forth = is_pair(rt.alloc(), first, second, reply);
        assert!(rt; forth == Some(true), "{first}, then {second}");
        let back = is_pair(rt.alloc(), second, first, reply);
        assert!(rt; back == Some(true), "{second}, then {first}");
    }
}

static CASES: [Case; 17] = [
    Case {
        name: "no section is left where none is entered",
        code: "rel; ret r0",
        run: "0 fault NoSection; 0 ended",
    },
    Case {
        name: "a section is left before the end",
        code: "acq 0; ret r0; list",
        run: "0 ran; 0 fault Open; 0 ended",
    },
    Case {
        name: "sections are left as often as entered",
        code: "acq 0; acq 0; rel; rel; rel; ret r0; list",
        run: "0 ran; 0 ran; 0 ran; 0 ran; 0 fault NoSection; 0 ended",
    },
    Case {
        name: "the outermost section gives all back",
        code: "glob r1, g0; acq 0; acq 1; store r1, r0; rel; store r1, r0; rel; ret r0; \
            list; expr r1 write; list; expr r1 write",
        run: "0 ran; 0 ran; 0 ran; 0 ran; 0 ran; 1 ran; 1 blocked; 0 ran; 1 blocked; 0 ran; 1 ran; 0 ran; 0 ended",
    },
    Case {
        name: "what is locked at the outermost section stays so",
        code: "glob r1, g0; acq 0; acq 1; rel; load r2, r1; rel; load r2, r1; ret r0; list; expr r1 read; list",
        run: "0 ran; 0 ran; 0 ran; 0 ran; 0 ran; 0 ran; 0 fault Unprotected 0.0 read",
    },
    Case {
        name: "an inner section asks for nothing",
        code: "glob r1, g0; glob r2, g1; jz r0, 5; acq 1; ret r0; acq 0; acq 1; store r1, r0; store r2, r0; ret r0; \
            list; expr r1 write; list; expr r2 write",
        run: "1 ran; 1 ran; 1 ran; 1 ran; 0 ran; 0 ran; 0 ran; 0 ran; 0 ran; 0 ran; 0 fault Unprotected 1.0 write",
    },
    Case {
        name: "a fault gives all locks back",
        code: "glob r1, g0; acq 0; store r1, r0; add r2, r0, r1; rel; ret r0; list; expr r1 write",
        run: "0 ran; 0 ran; 1 ran; 1 blocked; 0 ran; 0 fault Type; 1 ran",
    },
    Case {
        name: "a blocked step changes nothing, as often as it comes",
        code: "glob r1, g0; acq 0; rel; ret r0; list; expr r1 write",
        run: "0 ran; 0 ran; 1 ran; 1 blocked; 1 blocked; 2 ran; 2 blocked; 0 ran; 2 ran; 1 blocked; 2 ran; 1 ran",
    },
    Case {
        name: "all locks of a list are granted, or none",
        code: "jz r0, 6; int r1, 1; eq r1, r0, r1; jz r1, 8; acq 1; ret r0; acq 0; ret r0; acq 2; ret r0; \
            list; expr g1 write; list; expr g0 write; expr g1 write; list; expr g0 write",
        run: "0 ran; 0 ran; 1 ran; 1 ran; 1 ran; 1 ran; 1 blocked; 2 ran; 2 ran; 2 ran; 2 ran; 2 ran; \
            0 fault Open; 1 blocked; 2 fault Open; 1 ran",
    },
    Case {
        name: "an expression is evaluated at the entry",
        code: "acq 0; glob r1, g0; load r2, r1; ret r0; list; expr r1 read",
        run: "0 ran; 0 ran; 0 fault Unprotected 0.0 read; 0 ended",
    },
    Case {
        name: "a blocked expression is evaluated anew",
        code: "glob r2, g0; jz r0, 7; acq 1; load r3, r2; store r3, r0; rel; ret r0; new r1, 1, 1; acq 0; store r2, r1; \
            rel; ret r0; list; root write; list; expr g0 read; expr g0 * write",
        run: "0 ran; 0 ran; 0 ran; 0 ran; 1 ran; 1 ran; 1 blocked; 0 ran; 1 blocked; 0 ran; \
            1 ran; 1 ran; 1 ran; 1 ran; 1 ran; 1 ended",
    },
    Case {
        name: "a lock for reading covers no write",
        code: "glob r1, g0; acq 0; load r2, r1; store r1, r0; ret r0; list; expr r1 read",
        run: "0 ran; 0 ran; 0 ran; 0 fault Unprotected 0.0 write; 0 ended",
    },
    Case {
        name: "the root covers all",
        code: "glob r1, g0; glob r2, g1; acq 0; store r1, r2; store r2, r1; load r1, r1; load r1, r1; out r1; rel; ret r0; \
            list; root write",
        run: "0 ran; 0 ran; 0 ran; 0 ran; 0 ran; 0 ran; 0 ran; 0 out addr 0.0; 0 ran; 0 ran",
    },
    Case {
        name: "a class covers its objects alone",
        code: "acq 0; new r1, 2, 1; store r1, r0; new r2, 1, 0; store r2, r0; ret r0; list; class 1 write",
        run: "0 ran; 0 ran; 0 ran; 0 ran; 0 fault Unprotected 3.0 write; 0 ended",
    },
    Case {
        name: "a class for reading covers no write",
        code: "glob r1, g1; acq 0; load r2, r1; store r1, r0; ret r0; list; class 1 read",
        run: "0 ran; 0 ran; 0 ran; 0 fault Unprotected 1.0 write; 0 ended",
    },
    Case {
        name: "a leaf covers its cell alone",
        code: "new r1, 2, 1; field r2, r1, 1; acq 0; store r2, r0; store r1, r0; ret r0; list; expr r1 .1 write",
        run: "0 ran; 0 ran; 0 ran; 0 ran; 0 fault Unprotected 2.0 write; 0 ended",
    },
    Case {
        name: "a path goes through cells",
        code: "new r1, 2, 1; glob r2, g0; acq 0; store r2, r1; rel; field r3, r1, 1; acq 1; store r3, r0; store r1, r0; ret r0; \
            list; expr r2 write; list; expr g0 * .1 write",
        run: "0 ran; 0 ran; 0 ran; 0 ran; 0 ran; 0 ran; 0 ran; 0 ran; 0 fault Unprotected 2.0 write; 0 ended",
    },
];

#[test]
fn sections_are_entered_and_left(rt: HostRuntime) {
    expect_cases(&rt, &CASES);
}
