//! The command `run`: workers that step the input's program.
ghost use Rattle.std.specs.Prelude.{IfOk, IfErr, OnOk};
ghost use Rattle.asl_runner.specs.History.{IsAsked};
ghost use Rattle.asl_tool.specs.Work.{IsRefusedRunOf, IsRefusedWork, IsWorkOutput, IsWorked};

use crate::command_fault::CommandFault;
use crate::input_program::read_program;
use crate::journal_output::written;
use asl_code::Program;
use asl_command_line::RunArguments;
use asl_journal::{Journal, Receipt};
use asl_runner::{Gate, RunFault, run};
use std::alloc::Global;
use std::sync::Wait;
use std::thread::Threads;

/// A gate that does nothing.
struct Open;

impl Gate for Open {
    fn before(&self, _worker: u8, _call: u64) {}

    fn after(&self, _worker: u8, _call: u64, _receipt: &Receipt) {}
}

/// What is written of the journal that workers leave of the input's program.
pub fn run_output<H: Threads + Wait + Sync>(
    rt: &H,
    alloc: Global,
    team: RunArguments,
    input: &[u8],
) -> Result<Vec<u8>, CommandFault>
    ensures ok { IfOk result (λ bytes. IsWorkOutput team input.now bytes.items) }
    ensures err { IfErr result (λ fault. IsRefusedWork team input.now fault) }
{
    let program = match read_program(alloc, input) {
        Ok(program) => program,
        Err(fault) => return Err(CommandFault::Program(fault)),
    };
    let journal = match run_journal(rt, alloc, team, &program) {
        Ok(journal) => journal,
        Err(fault) => return Err(CommandFault::Run(fault)),
    };
    match written(alloc, &program, &journal, team.record) {
        Ok(bytes) => Ok(bytes),
        Err(_) => Err(CommandFault::OutOfMemory),
    }
}

/// The journal that workers leave of the program.
fn run_journal<H: Threads + Wait + Sync>(
    rt: &H,
    alloc: Global,
    team: RunArguments,
    program: &Program,
) -> Result<Journal, RunFault>
    ensures asked { OnOk result (IsAsked program.now team.threads team.workers team.limit) }
    ensures ok { IfOk result (λ journal. IsWorked program.now team journal) }
    ensures err { IfErr result (IsRefusedRunOf program.now team) }
{
    let limit = u64::from(team.limit);
    match run(rt, alloc, program, team.threads, team.workers, limit, &Open) {
        Ok(report) => Ok(report.journal),
        Err((fault, _report)) => Err(fault),
    }
}
