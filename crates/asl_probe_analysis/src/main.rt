//! Answers scripts of calls on the public functions of `asl_points_to`, `asl_class_reasons`, `asl_lock_expr`, `asl_backward_flow` and
//! `asl_emitter`: what the cases of `tests/cases` are run through.
//!
//! A script begins with a line `== NAME`, which is answered as it is, and a line that names its kind. For `source` and
//! `reasons` a text follows, and a line `--`. Then come the calls, one a line.
#![tactic(auto)]

mod adding;
mod cells;
mod infer;
mod laws;
mod reasons;
mod source;

use std::alloc::{AllocError, Global};
use std::io;
use std::io::Read;
use std::process::ExitCode;

fn main(rt: HostRuntime) -> io::Result<ExitCode> {
    let alloc = rt.alloc();
    let mut scripts = String::new(alloc);
    let mut out = String::new(alloc);
    if rt.stdin().read_to_string(&mut scripts).is_err() || out.try_reserve(CAPACITY).is_err() {
        return Ok(ExitCode::from(REFUSED));
    }
    match answer_all(alloc, scripts.as_str(), &mut out) {
        Ok(()) => {
            print!(rt; "{out}")?;
            Ok(ExitCode::from(0))
        }
        Err(_refused) => Ok(ExitCode::from(REFUSED)),
    }
}

/// The status where the probe itself gets no memory, or cannot read.
const REFUSED: u8 = 3;

/// What the answers may take before more is asked for between two calls.
const CAPACITY: usize = 1_048_576;

fn answer_all(alloc: Global, scripts: &str, out: &mut String) -> Result<(), AllocError> {
    for script in scripts.split("\n== ") {
        let script = script.strip_prefix("== ").unwrap_or(script);
        let (name, rest) = script.split_once('\n').unwrap_or((script, ""));
        let (kind, calls) = rest.split_once('\n').unwrap_or((rest, ""));
        write!(out, "== {name}\n")?;
        answer(alloc, kind, calls, out)?;
    }
    Ok(())
}

/// Writes the answers to a script.
fn answer(alloc: Global, kind: &str, calls: &str, out: &mut String) -> Result<(), AllocError> {
    match kind {
        "cells" => cells::answer(alloc, calls, out),
        "infer" => infer::answer(alloc, calls, out),
        "laws" => laws::answer(out),
        "source" => {
            let (given, calls) = calls.split_once("\n--\n").unwrap_or((calls, ""));
            source::answer(alloc, given, calls, out)
        }
        "reasons" => {
            let (given, calls) = calls.split_once("\n--\n").unwrap_or((calls, ""));
            reasons::answer(alloc, given, calls, out)
        }
        _ => out.push_str("no such kind\n"),
    }
}
