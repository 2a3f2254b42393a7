//! Sources and the programs that are inferred for them.
use crate::outcomes::{Outcome, outcome_of};
use std::alloc::Global;

const COUNTER: &str =
    "global g; fn main(t) { p = &g; atomic { x = *p; one = 1; y = x + one; *p = y; } return t; }";

const COUNTER_TEXT: &str =
    "version 2\nclasses 1\nglobal 0\nentry 0\nfn 1 5\nglob r1, g0\nacq 0\nload r2, r1\n\
    int r3, 1\nadd r4, r2, r3\nstore r1, r4\nrel\nret r0\nlist\nexpr r1 write\n";

/// The words, a source, the status, and the last lines of the output, or what is said.
static CASES: [(&str, &str, u8, &str); 12] = [
    ("compile --text", COUNTER, 0, COUNTER_TEXT),
    (
        "compile --text",
        "global h; fn main(t) { n = new 2; p = &h; atomic { y = *p; g = &n[1]; *g = y; *p = n; } return t; }",
        0,
        "list\nexpr r1 .1 write\nexpr r2 write\n",
    ),
    (
        "compile --text --k 0",
        "global h; fn main(t) { n = new 2; p = &h; atomic { y = *p; g = &n[1]; *g = y; *p = n; } return t; }",
        0,
        "list\nclass 1 write\nexpr r2 write\n",
    ),
    (
        "compile --text",
        "global a; global b; fn main(t) { x = &a; y = &b; atomic { *x = y; z = *x; *z = t; } return t; }",
        0,
        "list\nexpr r1 write\nexpr r2 write\n",
    ),
    (
        "compile --text",
        "global g; fn main(t) { atomic { n = new 1; *n = t; } return t; }",
        0,
        "rel\nret r0\nlist\n",
    ),
    (
        "compile",
        "global g; fn main(t) { p = &g; x = *p; return t; }",
        1,
        "asl: AccessOutsideSection(0, 1)\n",
    ),
    ("compile", "", 1, "asl: NoMain\n"),
    ("compile", "fn f() {", 1, "asl: Grammar(8)\n"),
    (
        "compile",
        "fn main(t) { return u; }",
        1,
        "asl: Unknown(u)\n",
    ),
    (
        "compile",
        "global g; global g; fn main(t) { return t; }",
        1,
        "asl: Twice(g)\n",
    ),
    (
        "compile",
        "fn main(t) { x = 2147483648; return t; }",
        1,
        "asl: Limit(17)\n",
    ),
    (
        "compile --k 9",
        COUNTER,
        2,
        "error: invalid value '9' for '--k <K>': not a number from 0 to 8\n\nFor more information, try '--help'.\n",
    ),
];

/// Whether this is what is written where the status is 0, and else what is said, up to what stands in front of the end.
fn ends(outcome: &Outcome, status: u8, end: &str) -> bool {
    let (output, errors) = (outcome.output.as_slice(), outcome.errors.as_slice());
    let (full, empty) = if status == 0 {
        (output, errors)
    } else {
        (errors, output)
    };
    outcome.status == Some(status) && full.ends_with(end.as_bytes()) && empty.is_empty()
}

/// Whether the words do this over the source.
fn is_compiled(alloc: Global, line: &str, source: &str, wanted: (u8, &str)) -> Option<bool> {
    let mut reader = source.as_bytes();
    let outcome = outcome_of(alloc, line, &mut reader)?;
    let (status, end) = wanted;
    Some(ends(&outcome, status, end))
}

#[test]
fn sources_become_programs(rt: HostRuntime) {
    for (line, source, status, end) in CASES.iter() {
        let compiled = is_compiled(rt.alloc(), line, source, (*status, end));
        assert!(rt; compiled == Some(true), "{line}: {source}");
    }
}
