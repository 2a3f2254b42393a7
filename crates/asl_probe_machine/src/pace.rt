//! Steps of a machine alone, to count what a step costs: `pace THREADS WARM TURNS STEPS`. Each of the threads makes WARM steps, one
//! thread after another; then STEPS steps are made by the first TURNS threads in turn. The answer is how many of these were
//! blocked.
use asl_code::Program;
use asl_machine::{Machine, MachineFault, Reply};
use asl_probe_text::put_line;
use std::alloc::{AllocError, Global};

/// What to run.
#[derive(Clone, Copy)]
struct Pace {
    threads: u32,
    warm: u32,
    turns: u32,
    steps: u32,
}

pub fn answer(
    alloc: Global,
    program: &Program,
    text: &str,
    out: &mut String,
) -> Result<(), AllocError> {
    match pace_of(text).and_then(|pace| blocked(alloc, &pace, program)) {
        Some(count) => write!(out, "{count}\n"),
        None => put_line("no such pace", out),
    }
}

/// The four numbers that the words spell.
fn pace_of(text: &str) -> Option<Pace> {
    let mut words = text.split_whitespace();
    Some(Pace {
        threads: words.next()?.parse().ok()?,
        warm: words.next()?.parse().ok()?,
        turns: words.next()?.parse().ok()?,
        steps: words.next()?.parse().ok()?,
    })
}

/// How many of the steps were blocked, if no step was refused.
fn blocked(alloc: Global, pace: &Pace, program: &Program) -> Option<u32> {
    let mut machine = Machine::new(alloc, program, pace.threads).ok()?;
    for thread in 0..pace.threads {
        for _ in 0..pace.warm {
            machine.step(alloc, thread).ok()?;
        }
    }
    count_blocked(alloc, &mut machine, pace).ok()
}

/// Makes the steps, and counts those that are blocked.
fn count_blocked(
    alloc: Global,
    machine: &mut Machine<'_>,
    pace: &Pace,
) -> Result<u32, MachineFault> {
    let mut count = 0u32;
    let mut thread = 0;
    for _ in 0..pace.steps {
        if let Reply::Blocked = machine.step(alloc, thread)? {
            count = count.wrapping_add(1);
        }
        thread = thread.wrapping_add(1);
        if thread >= pace.turns {
            thread = 0;
        }
    }
    Ok(count)
}
