//! The program of a source.
ghost use Rattle.std.specs.Prelude.{◌≤◌, ℕ, List, All, IfOk, IfErr};
ghost use Rattle.asl_journal.specs.declared.event.Event.{Event};
ghost use Rattle.asl_journal.specs.Journal.{LeadsTo, replies_in};
ghost use Rattle.asl_machine.specs.State.{State};
ghost use Rattle.asl_soundness.specs.Safe.{IsSafe, NeverFaultsForLocks};
ghost use Rattle.asl_atomicity.specs.Serial.{HasSerialRuns};
ghost use Rattle.asl_atomicity.specs.Renamed.{HasSerialRunsUpTo};
ghost use Rattle.asl_compile.specs.Compiled.{Compiles, IsRefusedSource};

use crate::fault::CompileFault;
use asl_code::Program;
use asl_emitter::infer;
use asl_syntax::parse;
use std::alloc::Global;

/// The program of a source, whose sections ask for the locks that they need, with paths of at most `k` operations.
///
/// With any number of threads, and in any order of their steps: no event is a fault for a missing lock, for a section that was not
/// entered, or for one that was left open (`safe`). So it is with each run by the instruction table (`sound`), and each in which no
/// section runs out of objects ends as one whose sections do not interleave, up to the numbers of objects: the very same where no
/// step inside a section is a `new` (`docs/SOUNDNESS.md`, `docs/ATOMICITY.md`).
///
/// # Errors
///
/// The first fault of the source, then the first of the inference; `OutOfMemory` of either where an allocation failed.
pub fn compile(alloc: Global, source: &[u8], k: u32) -> Result<Program, CompileFault>
    requires { k ≤ 8 }
    ensures safe { IfOk result (λ program. (count : ℕ) (events : List Event) (end : State)
        → LeadsTo program count events end → All IsSafe (replies_in events)) }
    ensures compiled { IfOk result (Compiles source.now k) }
    ensures sound { IfOk result NeverFaultsForLocks }
    ensures atomic { IfOk result (λ program. (count : ℕ) → HasSerialRuns program count) }
    ensures atomic_up_to_numbers { IfOk result (λ program. (count : ℕ) → HasSerialRunsUpTo program count) }
    ensures refused { IfErr result (IsRefusedSource source.now k) }
{
    let ast = match parse(alloc, source) {
        Ok(ast) => ast,
        Err(fault) => return Err(CompileFault::Source(fault)),
    };
    match infer(alloc, &ast, k) {
        Ok(program) => Ok(program),
        Err(fault) => Err(CompileFault::Infer(fault)),
    }
}
