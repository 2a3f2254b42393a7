//! Runs whose replies an independent program gave, on programs and orders drawn at random.
use super::is_run;

/// A whole program's lines, parted by `; `, and a run of it.
static RUNS: [(&str, &str); 5] = [
    (
        "version 1; classes 1; global 0; entry 0; fn 1 6; glob r1, g0; glob r2, g0; glob r3, g0; acq 0; \
            int r4, -2; load r5, r1; rel; acq 1; load r5, r3; load r5, r4; rel; ret r0; list; \
            expr r1 * write; list; class 0 read; expr r3 read; expr r3 * * read",
        "1 ran; 0 ran; 0 ran; 1 ran; 1 ran; 0 ran; 1 ran; 1 ran; 1 fault Unprotected 0.0 read; 0 ran; \
            1 ended; 0 ran; 1 ended; 0 fault Unprotected 0.0 read; 1 ended",
    ),
    (
        "version 1; classes 3; global 0; global 1; global 2; entry 0; fn 1 6; glob r1, g2; glob r2, g2; \
            glob r3, g1; acq 0; acq 0; rel; acq 2; rel; int r4, 4; store r1, r4; add r4, r4, r0; rel; acq 1; \
            load r5, r3; acq 1; rel; store r3, r0; load r5, r4; rel; acq 2; acq 0; rel; store r1, r0; \
            add r4, r4, r0; rel; ret r0; list; expr r2 write; expr r1 write; list; expr g1 write; \
            expr r2 read; expr g1 write; list; expr r3 write; expr r3 write; expr r2 * * * write",
        "2 ran; 0 ran; 1 ran; 1 ran; 1 ran; 2 ran; 2 ran; 2 ran; 0 ran; 1 blocked; 2 ran; 0 ran; 2 ran; \
            1 blocked; 2 ran; 2 ran; 1 blocked; 0 blocked; 1 blocked; 2 ran; 1 blocked",
    ),
    (
        "version 1; classes 2; global 0; global 1; entry 0; fn 1 6; glob r1, g1; glob r2, g1; glob r3, g1; \
            acq 0; add r4, r4, r0; add r4, r4, r0; int r4, 4; rel; acq 1; store r3, r1; int r4, 5; rel; \
            acq 2; acq 0; rel; load r5, r4; acq 0; rel; add r4, r4, r0; rel; ret r0; list; expr r2 write; \
            expr r1 write; expr r2 write; expr r1 write; list; class 0 write; expr r3 * * * read; \
            expr r1 write; list; expr r2 * * * read",
        "1 ran; 0 ran; 1 ran; 1 ran; 1 ran; 1 ran; 1 ran; 1 ran; 0 ran; 0 ran; 0 blocked; 1 ran; 1 ran; \
            0 blocked; 1 ran; 1 ran; 1 ran; 0 ran; 0 ran; 1 blocked; 1 blocked; 1 blocked; 1 blocked; 0 ran; \
            0 ran; 0 ran; 1 ran; 1 ran; 1 ran",
    ),
    (
        "version 1; classes 3; global 0; global 1; global 2; entry 0; fn 1 6; glob r1, g1; glob r2, g1; \
            glob r3, g0; acq 0; int r4, -3; rel; acq 1; int r4, 0; acq 1; rel; rel; acq 2; add r4, r4, r0; \
            store r3, r2; acq 2; rel; store r1, r0; rel; ret r0; list; expr r2 read; root write; list; \
            expr g2 write; expr r1 read; expr r2 * * read; expr r1 * * write; list; expr r1 write; \
            expr r1 read; expr r1 read",
        "1 ran; 0 ran; 0 ran; 0 ran; 1 ran; 1 ran; 0 ran; 0 ran; 1 blocked; 0 ran; 0 ran; 1 blocked; \
            0 ran; 1 blocked; 1 blocked; 0 ran; 0 ran; 1 blocked; 1 blocked; 0 ran; 1 ran; 0 blocked; \
            0 blocked; 0 blocked; 0 blocked; 1 ran",
    ),
    (
        "version 1; classes 2; global 0; global 1; entry 0; fn 1 6; glob r1, g0; glob r2, g0; glob r3, g1; \
            acq 0; store r1, r1; add r4, r4, r0; store r3, r2; rel; acq 1; add r4, r4, r0; add r4, r4, r0; \
            rel; acq 2; store r3, r2; acq 1; rel; int r4, -3; add r4, r4, r0; store r1, r2; rel; ret r0; \
            list; expr g1 write; expr r1 write; list; root read; expr g0 write; class 1 write; \
            expr r3 * * write; list; root write; root write; expr g1 write",
        "2 ran; 2 ran; 2 ran; 0 ran; 0 ran; 0 ran; 1 ran; 0 ran; 2 blocked; 2 blocked; 2 blocked; \
            2 blocked; 1 ran; 0 ran; 2 blocked",
    ),
];

#[test]
fn replies_are_those_of_another_program(rt: HostRuntime) {
    for (program, run) in RUNS.iter() {
        assert!(rt; is_run(rt.alloc(), program, run) == Some(true), "{program}");
    }
}
