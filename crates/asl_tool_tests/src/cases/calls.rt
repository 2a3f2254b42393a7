//! Calls, frames and the ends of threads, and how much of each there may be.
use super::{Case, HEAD, expect_cases, lines, output};
use std::alloc::{AllocError, Global};

static CASES: [Case; 8] = [
    Case {
        name: "four arguments are copied, and the other registers start as 0",
        code: "int r2, 7; int r3, 1; null r4; int r5, -8; call r1, r2, 1; ret r0; \
            fn 4 6; out r0; out r1; out r2; out r3; out r4; ret r0",
        run: "0 ran; 0 ran; 0 ran; 0 ran; 0 ran; 0 out int 7; 0 out int 1; 0 out null; 0 out int -8; 0 out int 0",
    },
    Case {
        name: "a value returns, and the caller's registers are as they were",
        code: "int r2, 7; int r5, -8; call r1, r2, 1; out r1; out r2; out r5; ret r0; \
            fn 4 6; int r5, 9; mov r2, r5; ret r0",
        run: "0 ran; 0 ran; 0 ran; 0 ran; 0 ran; 0 ran; 0 out int 7; 0 out int 7; 0 out int -8; 0 ran; 0 ended",
    },
    Case {
        name: "the arguments are copied",
        code: "int r2, 7; call r1, r2, 1; out r1; out r2; ret r0; fn 1 1; int r0, 9; ret r0",
        run: "0 ran; 0 ran; 0 ran; 0 ran; 0 out int 9; 0 out int 7; 0 ran; 0 ended",
    },
    Case {
        name: "no arguments are needed",
        code: "call r1, r6, 1; out r1; ret r1; fn 0 1; int r0, 9; ret r0",
        run: "0 ran; 0 ran; 0 ran; 0 out int 9; 0 ran; 0 ended",
    },
    Case {
        name: "a call of a call",
        code: "int r1, 3; call r1, r1, 1; out r1; ret r0; fn 1 2; add r0, r0, r0; call r1, r0, 2; add r0, r0, r1; ret r0; \
            fn 1 2; int r1, 1; sub r0, r0, r1; ret r0",
        run: "0 ran; 0 ran; 0 ran; 0 ran; 0 ran; 0 ran; 0 ran; 0 ran; 0 ran; 0 out int 11; 0 ran; 0 ended",
    },
    Case {
        name: "a section goes through a call",
        code: "glob r1, g0; acq 0; call r2, r1, 1; rel; out r2; ret r0; \
            fn 1 2; store r0, r0; load r1, r0; ret r1; list; expr r1 write",
        run: "0 ran; 0 ran; 0 ran; 0 ran; 0 ran; 0 ran; 0 ran; 0 out addr 0.0; 0 ran; 0 ended",
    },
    Case {
        name: "a section is left in a call",
        code: "acq 0; call r2, r0, 1; rel; ret r0; fn 1 1; rel; ret r0; list; root read",
        run: "0 ran; 0 ran; 0 ran; 0 ran; 0 fault NoSection; 0 ended",
    },
    Case {
        name: "a thread ends, and the others go on",
        code: "out r0; ret r0",
        run: "2 out int 2; 2 ran; 2 ended; 2 ended; 0 out int 0; 1 out int 1; 0 ran; 0 ended; 1 ran; 1 ended",
    },
];

#[test]
fn calls_and_ends(rt: HostRuntime) {
    expect_cases(&rt, &CASES);
}

/// So many steps of thread 0 and one of thread 1, with the last lines that are printed.
struct Long {
    code: &'static str,
    steps: u32,
    end: &'static str,
}

static FRAMES: Long = Long {
    code: "mov r2, r0; call r1, r2, 0; ret r0",
    steps: 512,
    end: "510 0 ran; 511 0 fault Stack; 512 1 ran",
};

static SECTIONS: Long = Long {
    code: "acq 0; jmp 0; list; root read",
    steps: 511,
    end: "509 0 ran; 510 0 fault Deep; 511 1 ran",
};

/// The globals are two of the 65,536 objects.
static OBJECTS: Long = Long {
    code: "new r1, 1, 0; out r1; jmp 0",
    steps: 196_603,
    end: "196600 0 out addr 65535.0; 196601 0 ran; 196602 0 fault Full; 196603 1 fault Full",
};

/// So many steps of thread 0 and one of thread 1.
fn steps(alloc: Global, count: u32) -> Result<Vec<u32>, AllocError> {
    let mut schedule = vec![in alloc; 0; count as usize]?;
    schedule.push(1)?;
    Ok(schedule)
}

/// What is printed of the lines after the first ones, over so many steps.
fn output_of_steps(alloc: Global, code: &str, count: u32) -> Option<Vec<u8>> {
    let schedule = steps(alloc, count).ok()?;
    let program = [HEAD, code].join(alloc, "; ").ok()?;
    let text = lines(alloc, program.as_str()).ok()?;
    output(alloc, 2, schedule, text.as_str())
}

/// Whether the last lines are those that are wanted.
fn is_end(alloc: Global, long: &Long) -> Option<bool> {
    let end = lines(alloc, long.end).ok()?;
    let output = output_of_steps(alloc, long.code, long.steps)?;
    Some(output.as_slice().ends_with(end.as_bytes()))
}

#[test]
fn a_thread_has_256_frames(rt: HostRuntime) {
    assert!(rt; is_end(rt.alloc(), &FRAMES) == Some(true));
}

#[test]
fn a_thread_is_in_255_sections(rt: HostRuntime) {
    assert!(rt; is_end(rt.alloc(), &SECTIONS) == Some(true));
}

#[test]
fn a_machine_has_65536_objects(rt: HostRuntime) {
    assert!(rt; is_end(rt.alloc(), &OBJECTS) == Some(true));
}
