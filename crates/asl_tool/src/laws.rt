//! Laws of the commands, as functions that do nothing: what each ensures is the law.
ghost use Rattle.std.specs.Prelude.{◌≡◌, ◌<◌, ◌↔◌, ℕ, false, List, [], Option, Some, All, Result};
ghost use Rattle.asl_command_line.specs.declared.command.Command.{Command};
ghost use Rattle.asl_tool.specs.declared.command_fault.CommandFault.{CommandFault};
ghost use Rattle.asl_tool.specs.declared.endings.ending.Ending.{Ending};
ghost use Rattle.asl_tool.specs.declared.endings.ending.Ending.TheVariants.{Refused};
ghost use Rattle.asl_tool.specs.declared.tool_fault.ToolFault.TheVariants.{OutOfMemory};
ghost use Rattle.asl_tool.specs.Ending.{ending_status, ending_text};
ghost use Rattle.asl_tool.specs.Log.{IsLogged};
ghost use Rattle.asl_tool.specs.Memory.{EndsOver};
ghost use Rattle.asl_tool.specs.Outcome.{IsOutcome, IsSettled};
ghost use Rattle.asl_tool.specs.Step.{IsRecorded, IsStepped};
ghost use Rattle.asl_tool.specs.Tool.{AsksForWork, EndsAlone};

use asl_assembler::laws::texts_have_one_outcome;
pub use asl_journal::laws::{run_and_bytes_are_one, run_files_have_one_outcome};
use asl_loader::laws::bytes_have_one_outcome;

/// A command has exactly one outcome for the bytes of an input: one output, or one refusal. Lack of memory is none. `compile`, `c`
/// and `check` are left out: where several regions need too many locks, they name any of them. Of `map`, `explain`, `lists` and `diagnose`
/// it is not said.
pub fn commands_have_one_outcome()
    ensures some { (command : Command) (input : List ℕ) → IsSettled command → All (λ b. b < 256) input
        → (outcome : Result (List ℕ) CommandFault) × IsOutcome command input outcome }
    ensures one { (command : Command) (input : List ℕ) (outcome other : Result (List ℕ) CommandFault)
        → IsSettled command → All (λ b. b < 256) input → IsOutcome command input outcome → IsOutcome command input other
        → outcome ≡ other }
{
    texts_have_one_outcome();
    bytes_have_one_outcome();
}

/// What `step --record` writes is printed by `log` as `step` without `--record` prints the same steps, and in no other way.
pub fn logs_are_steps()
    ensures { (input file output : List ℕ) (threads : ℕ) (schedule : List ℕ) → All (λ b. b < 256) input
        → IsRecorded input threads schedule file → (IsLogged file false output ↔ IsStepped input threads schedule false output) }
{
    texts_have_one_outcome();
    bytes_have_one_outcome();
}

/// Words that end so over memory end so as the program does them, with a reader that has the input and a writer that had nothing, for
/// however much it has room.
pub fn words_over_memory_end_as_the_program_does()
    ensures { (room : Option ℕ) (words : List (List ℕ)) (input output : List ℕ) (e : Ending) → EndsOver words input output e
        → EndsAlone words (Unit {0}) (output ≡ []) (λ text. ending_text e ≡ text) (Some input) room (Some []) (Some output) (ending_status e) }
{}

/// Words that ask for `run` end over memory in no other way than that there was no memory to judge them.
pub fn run_is_not_done_over_memory()
    ensures { (words : List (List ℕ)) (input output : List ℕ) (e : Ending) → AsksForWork words → EndsOver words input output e
        → (e ≡ Refused OutOfMemory) × (output ≡ []) }
{}
