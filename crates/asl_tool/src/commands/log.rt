//! The command `log`: from a run file to the lines of its events.
ghost use Rattle.std.specs.Prelude.{◌≡◌, ◌<◌, IfOk, IfErr, OnOk, length, string_bytes};
ghost use Rattle.asl_machine.specs.Run.{start_of};
ghost use Rattle.asl_machine.specs.Step.{Step};
ghost use Rattle.asl_machine.specs.declared.reply.Reply.{Reply};
ghost use Rattle.asl_journal.specs.Journal.{IsJournal};
ghost use Rattle.asl_journal.specs.Replay.{IsReplayFault};
ghost use Rattle.asl_tool.specs.Command.{IsRefusedReplay};
ghost use Rattle.asl_tool.specs.Log.{IsLogText, IsLogged};
ghost use Rattle.asl_tool.specs.Output.{AreTraced};

use crate::command_fault::CommandFault;
use crate::journal_output::lines_of;
use asl_code::Program;
use asl_journal::{Event, Journal, JournalFault, get_run, replay};
use asl_machine::Machine;
use asl_show::push_trace_line;
use std::alloc::{AllocError, Global};

/// The lines of the events of the run file, if it is a run of its program.
pub fn logged(alloc: Global, trace: bool, file: &[u8]) -> Result<Vec<u8>, CommandFault>
    ensures ok { IfOk result (λ text. IsLogged file.now trace text.items) }
    ensures err { IfErr result (λ fault. IsRefusedReplay file.now fault) }
{
    let (program, journal) = match get_run(alloc, file) {
        Ok(run) => run,
        Err(fault) => return Err(CommandFault::File(fault)),
    };
    match logged_text(alloc, &program, &journal, trace) {
        Ok(text) => Ok(text.into_bytes()),
        Err(fault) => Err(CommandFault::Journal(fault)),
    }
}

/// The lines of the journal's events, with the place of each step if a trace is asked for, where the journal is one of the
/// program.
fn logged_text(
    alloc: Global,
    program: &Program,
    journal: &Journal,
    trace: bool,
) -> Result<String, JournalFault>
    ensures journal { OnOk result (IsJournal program.now journal.now.threads journal.now.events) }
    ensures text { IfOk result (λ text. IsLogText trace program.now journal.now (string_bytes text)) }
    ensures err { IfErr result (λ fault. IsReplayFault program.now journal.now fault) }
{
    let _machine = replay(alloc, program, journal)?;
    match told(alloc, program, journal, trace) {
        Ok(text) => Ok(text),
        Err(_) => Err(JournalFault::OutOfMemory),
    }
}

/// The lines of the events of a journal of the program.
fn told(
    alloc: Global,
    program: &Program,
    journal: &Journal,
    trace: bool,
) -> Result<String, AllocError>
    requires { IsJournal program.now journal.now.threads journal.now.events }
    ensures { IfOk result (λ text. IsLogText trace program.now journal.now (string_bytes text)) }
{
    if trace {
        traced(alloc, program, journal.threads(), journal.events())
    } else {
        lines_of(alloc, journal.events())
    }
}

/// The lines of the events, which are a journal of so many threads of the program, with the place of each step.
fn traced(
    alloc: Global,
    program: &Program,
    threads: u32,
    events: &[Event],
) -> Result<String, AllocError>
    requires { IsJournal program.now threads events.now }
    ensures { IfOk result (λ text. AreTraced program.now (start_of program.now threads) 0 events.now (string_bytes text)) }
{
    let mut machine = first_machine(alloc, program, threads)?;
    let mut text = String::new(alloc);
    for (number, event) in events.iter().enumerate() {
        push_trace_line(&mut text, number, &machine, event.thread, event.reply)?;
        make_step(alloc, &mut machine, event.thread)?;
    }
    Ok(text)
}

/// The machine in which so many threads of the program start. Only memory can fail where there may be so many.
fn first_machine<'p>(
    alloc: Global,
    program: &'p Program,
    threads: u32,
) -> Result<Machine<'p>, AllocError>
    ensures image { IfOk result (λ machine. machine.image ≡ program.now) }
    ensures start { IfOk result (λ machine. machine.state ≡ start_of program.now threads) }
{
    match Machine::new(alloc, program, threads) {
        Ok(machine) => Ok(machine),
        Err(_) => Err(AllocError),
    }
}

/// Steps the thread. Only memory can fail where the thread is there.
fn make_step(alloc: Global, machine: &mut Machine<'_>, thread: u8) -> Result<(), AllocError>
    ensures image { machine.new.image ≡ machine.old.image }
    ensures step { OnOk result ((reply : Reply) × Step machine.old.image machine.old.state thread reply machine.new.state) }
{
    match machine.step(alloc, u32::from(thread)) {
        Ok(_) => Ok(()),
        Err(_) => Err(AllocError),
    }
}
