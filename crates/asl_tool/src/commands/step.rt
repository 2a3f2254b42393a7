//! The command `step`: from a program to what is written of the journal of its run.
ghost use Rattle.std.specs.Prelude.{◌≡◌, ◌↔◌, ◌+◌, ◌≤◌, ◌++◌, true, IsTrue, IfOk, IfErr, OnOk, MatchResult, length};
ghost use Rattle.asl_journal.specs.Journal.{most_events, schedule_of};
ghost use Rattle.asl_tool.specs.Command.{IsRefusedStep};
ghost use Rattle.asl_tool.specs.Step.{AllThere, IsSchedule, IsStepped, IsRecord, IsRecorded, IsRefusedRun, IsFaultySchedule};

use crate::command_fault::CommandFault;
use crate::input_program::read_program;
use crate::journal_output::written;
use asl_code::Program;
use asl_journal::{Journal, JournalFault, Journaled, MAX_EVENTS};
use std::alloc::Global;

/// What is written of the journal of the input's program.
pub fn stepped(
    alloc: Global,
    threads: u32,
    schedule: &[u32],
    record: bool,
    input: &[u8],
) -> Result<Vec<u8>, CommandFault>
    ensures ok { IfOk result (λ bytes. IsStepped input.now threads schedule.now «record» bytes.items) }
    ensures run_file { IfOk result (λ bytes. «record» ≡ true → IsRecorded input.now threads schedule.now bytes.items) }
    ensures err { IfErr result (λ fault. IsRefusedStep input.now threads schedule.now fault) }
{
    let program = match read_program(alloc, input) {
        Ok(program) => program,
        Err(fault) => return Err(CommandFault::Program(fault)),
    };
    let journal = match record_run(alloc, threads, schedule, &program) {
        Ok(journal) => journal,
        Err(fault) => return Err(CommandFault::Journal(fault)),
    };
    match written(alloc, &program, &journal, record) {
        Ok(bytes) => Ok(bytes),
        Err(_) => Err(CommandFault::OutOfMemory),
    }
}

/// The journal of the program's run over the schedule. The schedule is judged before the first step.
fn record_run(
    alloc: Global,
    threads: u32,
    schedule: &[u32],
    program: &Program,
) -> Result<Journal, JournalFault>
    ensures legal { OnOk result (IsSchedule program.now threads schedule.now) }
    ensures ok { IfOk result (λ journal. IsRecord program.now threads schedule.now journal) }
    ensures err { IfErr result (λ fault. IsRefusedRun program.now threads schedule.now fault) }
{
    judge(threads, schedule, program)?;
    recorded(alloc, threads, schedule, program)
}

/// Judges a number of threads of the program, and a schedule of them.
fn judge(threads: u32, schedule: &[u32], program: &Program) -> Result<(), JournalFault>
    ensures { MatchResult result (λ _. IsSchedule program.now threads schedule.now)
        (λ fault. IsFaultySchedule program.now threads schedule.now fault) }
{
    if threads == 0 || threads > program.limits().threads {
        return Err(JournalFault::BadCount);
    }
    let most = schedule.len().min(MAX_EVENTS);
    if !all_there(threads, &schedule[..most]) {
        return Err(JournalFault::BadThread);
    }
    if schedule.len() > MAX_EVENTS {
        return Err(JournalFault::JournalFull);
    }
    Ok(())
}

/// Whether every thread of the schedule is below the count.
fn all_there(threads: u32, schedule: &[u32]) -> bool
    ensures { IsTrue result ↔ AllThere threads schedule.now }
{
    schedule.iter().all(|thread| *thread < threads)
}

/// The journal of a legal schedule.
fn recorded(
    alloc: Global,
    threads: u32,
    schedule: &[u32],
    program: &Program,
) -> Result<Journal, JournalFault>
    requires { IsSchedule program.now threads schedule.now }
    ensures ok { IfOk result (λ journal. IsRecord program.now threads schedule.now journal) }
    ensures err { IfErr result (λ fault. fault ≡ JournalFault.OutOfMemory) }
{
    let mut journaled = Journaled::start(alloc, program, threads)?;
    make_steps(alloc, &mut journaled, schedule)?;
    let (journal, _machine) = journaled.into_parts();
    Ok(journal)
}

/// Makes the steps of the schedule, whose threads are there.
fn make_steps(
    alloc: Global,
    journaled: &mut Journaled<'_>,
    schedule: &[u32],
) -> Result<(), JournalFault>
    requires there { AllThere journaled.old.count schedule.now }
    requires room { length journaled.old.events + length schedule.now ≤ most_events }
    ensures schedule { OnOk result
        (schedule_of journaled.new.events ≡ schedule_of journaled.old.events ++ schedule.now) }
    ensures image { journaled.new.image ≡ journaled.old.image }
    ensures count { journaled.new.count ≡ journaled.old.count }
    ensures memory { IfErr result (λ fault. fault ≡ JournalFault.OutOfMemory) }
{
    for thread in schedule {
        journaled.step(alloc, *thread)?;
    }
    Ok(())
}
