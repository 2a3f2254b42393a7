//! What is written of a journal: its run file, or the lines of its events.
ghost use Rattle.std.specs.Prelude.{◌≡◌, true, IfOk, string_bytes};
ghost use Rattle.asl_journal.specs.RunFile.{SpellsRun};
ghost use Rattle.asl_tool.specs.Output.{event_lines};
ghost use Rattle.asl_tool.specs.Step.{written};

use asl_code::Program;
use asl_journal::{Event, Journal, put_run};
use asl_show::push_line;
use std::alloc::{AllocError, Global};

/// What `run` and `step` write of a journal: the lines of its events; with `--record`, in place of the lines, the run file.
pub fn written(
    alloc: Global,
    program: &Program,
    journal: &Journal,
    record: bool,
) -> Result<Vec<u8>, AllocError>
    ensures bytes { IfOk result (λ bytes. bytes.items ≡ written «record» program.now journal.now) }
    ensures spelled { IfOk result (λ bytes. «record» ≡ true → SpellsRun program.now journal.now bytes.items) }
{
    if record {
        put_run(alloc, program, journal)
    } else {
        let text = lines_of(alloc, journal.events())?;
        Ok(text.into_bytes())
    }
}

/// The lines of the events.
pub fn lines_of(alloc: Global, events: &[Event]) -> Result<String, AllocError>
    ensures { IfOk result (λ text. string_bytes text ≡ event_lines 0 events.now) }
{
    let mut text = String::new(alloc);
    for (number, event) in events.iter().enumerate() {
        push_line(&mut text, number, event.thread, event.reply)?;
    }
    Ok(text)
}
