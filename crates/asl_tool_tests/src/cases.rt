//! What the instructions do, a case at a time: the lines of a program, and the reply to each step of its threads.
mod calls;
mod outside;
mod sections;
mod values;

use asl_command_line::Command;
use asl_tool::laws::{
    commands_have_one_outcome, logs_are_steps, run_and_bytes_are_one, run_files_have_one_outcome,
};
use asl_tool::output_of;
use std::alloc::{AllocError, Global};
use std::process::Abort;

/// The threads of each case's machine.
const THREADS: u32 = 3;

/// The first lines of a case's program: two globals, each of a class of its own, and an entry function of six registers.
const HEAD: &str = "version 1; classes 2; global 0; global 1; entry 0; fn 1 6";

/// A program and a run of it.
struct Case {
    name: &'static str,
    /// The lines after the first ones, parted by `; `: the entry function's instructions, and what else there is.
    code: &'static str,
    /// The thread and the reply of each step, parted by `; `.
    run: &'static str,
}

/// The lines that are parted by `; `.
fn lines(alloc: Global, parted: &str) -> Result<String, AllocError> {
    let mut lines = parted.replace(alloc, "; ", "\n")?;
    lines.push_str("\n")?;
    Ok(lines)
}

/// The thread that a step names.
fn thread(step: &str) -> Option<u32> {
    let (thread, _reply) = step.trim().split_once(' ')?;
    thread.parse::<u32>().ok()
}

/// The thread of each step of the run.
fn schedule(alloc: Global, run: &str) -> Option<Vec<u32>> {
    let mut schedule = Vec::new(alloc);
    for step in run.split(';') {
        schedule.push(thread(step)?).ok()?;
    }
    Some(schedule)
}

/// The lines that are printed of the run: each with its number in front.
fn printed(alloc: Global, run: &str) -> Result<String, AllocError> {
    let mut text = String::new(alloc);
    for (number, step) in run.split(';').enumerate() {
        let step = step.trim();
        write!(text, "{number} {step}\n")?;
    }
    Ok(text)
}

/// What is printed of the text's machine over the schedule.
fn output(alloc: Global, threads: u32, schedule: Vec<u32>, text: &str) -> Option<Vec<u8>> {
    let command = Command::Step {
        threads,
        schedule,
        record: false,
    };
    output_of(alloc, &command, text.as_bytes()).ok()
}

/// What is printed of the run of a program whose lines are parted by `; `.
fn output_of_run(alloc: Global, program: &str, run: &str) -> Option<Vec<u8>> {
    let schedule = schedule(alloc, run)?;
    let text = lines(alloc, program).ok()?;
    output(alloc, THREADS, schedule, text.as_str())
}

/// Whether the program, whose lines are parted by `; `, runs so.
fn is_run(alloc: Global, program: &str, run: &str) -> Option<bool> {
    let wanted = printed(alloc, run).ok()?;
    let output = output_of_run(alloc, program, run)?;
    Some(output.as_slice() == wanted.as_bytes())
}

/// Whether the lines, after the first ones, run so.
fn is_right(alloc: Global, lines: &[&str], run: &str) -> Option<bool> {
    let program = lines.join(alloc, "; ").ok()?;
    is_run(alloc, program.as_str(), run)
}

/// Runs each case.
fn expect_cases(rt: &(impl Abort + AllocGlobal), cases: &[Case]) {
    for case in cases {
        let right = is_right(rt.alloc(), &[HEAD, case.code], case.run);
        assert!(rt; right == Some(true), "{}", case.name);
    }
}

#[test]
fn the_laws_are_there(_rt: HostRuntime) {
    commands_have_one_outcome();
    logs_are_steps();
    run_and_bytes_are_one();
    run_files_have_one_outcome();
}
