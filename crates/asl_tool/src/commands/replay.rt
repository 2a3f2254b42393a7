//! The command `replay`: from a run file to the number of events that came again.
ghost use Rattle.std.specs.Prelude.{◌≡◌, ◌++◌, ◌∷◌, [], IfOk, IfErr, OnOk, codes, string_bytes};
ghost use Rattle.std.specs.Fmt.{decimal};
ghost use Rattle.asl_journal.specs.Journal.{IsJournal};
ghost use Rattle.asl_journal.specs.Replay.{IsReplayFault};
ghost use Rattle.asl_tool.specs.Command.{IsRefusedReplay};
ghost use Rattle.asl_tool.specs.Replay.{IsReplayed, same_text};

use crate::command_fault::CommandFault;
use asl_code::Program;
use asl_journal::{Journal, JournalFault, get_run, replay};
use std::alloc::{AllocError, Global};

/// Whether the run file is a run of its program.
pub fn replayed(alloc: Global, file: &[u8]) -> Result<Vec<u8>, CommandFault>
    ensures ok { IfOk result (λ text. IsReplayed file.now text.items) }
    ensures err { IfErr result (λ fault. IsRefusedReplay file.now fault) }
{
    let (program, journal) = match get_run(alloc, file) {
        Ok(run) => run,
        Err(fault) => return Err(CommandFault::File(fault)),
    };
    match replayed_text(alloc, &program, &journal) {
        Ok(text) => Ok(text.into_bytes()),
        Err(fault) => Err(CommandFault::Journal(fault)),
    }
}

/// The line that says how many events came again, where the journal is one of the program.
fn replayed_text(
    alloc: Global,
    program: &Program,
    journal: &Journal,
) -> Result<String, JournalFault>
    ensures journal { OnOk result (IsJournal program.now journal.now.threads journal.now.events) }
    ensures text { IfOk result (λ text. string_bytes text ≡ same_text journal.now) }
    ensures err { IfErr result (λ fault. IsReplayFault program.now journal.now fault) }
{
    let _machine = replay(alloc, program, journal)?;
    match same(alloc, journal.events().len()) {
        Ok(text) => Ok(text),
        Err(_) => Err(JournalFault::OutOfMemory),
    }
}

/// The line of so many events.
fn same(alloc: Global, events: usize) -> Result<String, AllocError>
    ensures { IfOk result (λ text. string_bytes text ≡ codes "same " ++ decimal events ++ 10 ∷ []) }
{
    format!(in alloc; "same {events}\n")
}
