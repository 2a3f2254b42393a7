//! The program `asl`: the tool over the process's words, streams and status.
#![tactic(auto)]

mod command_line;
mod process;
mod process_words;

use command_line::SystemWords;
use process::run_process;
use std::process::ExitCode;

fn main(rt: HostRuntime) -> ExitCode {
    let alloc = rt.alloc();
    let (mut reader, mut writer, mut errors) = (rt.stdin(), rt.stdout(), rt.stderr());
    let line = SystemWords::of(&rt);
    run_process(&rt, &line, alloc, &mut reader, &mut writer, &mut errors)
}
