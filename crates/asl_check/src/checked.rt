//! The check of a program whose lists were made by other means.
ghost use Rattle.std.specs.Prelude.{◌≤◌, ℕ, List, All, IfOk, IfErr};
ghost use Rattle.asl_journal.specs.declared.event.Event.{Event};
ghost use Rattle.asl_journal.specs.Journal.{LeadsTo, replies_in};
ghost use Rattle.asl_machine.specs.State.{State};
ghost use Rattle.asl_syntax.specs.AstView.{tree_of};
ghost use Rattle.asl_soundness.specs.Safe.{IsSafe, NeverFaultsForLocks};
ghost use Rattle.asl_atomicity.specs.Serial.{HasSerialRuns};
ghost use Rattle.asl_atomicity.specs.Renamed.{HasSerialRunsUpTo};
ghost use Rattle.asl_emitter.specs.Inferred.{IsInferredFor};
ghost use Rattle.asl_emitter.specs.Refused.{IsAccepted};
ghost use Rattle.asl_check.specs.Refused.{IsChecked, IsRefusedLists, IsOutOfMemory};

use crate::check_analysis::analyse;
use crate::coded::other_code;
use crate::covered::{cover, guard};
use crate::fault::CheckFault;
use asl_code::Program;
use asl_syntax::Ast;
use std::alloc::Global;

/// Accepts a program of the newest version that is the tree's but for its lists, and whose lists are enough: for each lock that a
/// section needs, with paths of at most `k` operations, a lock of its list covers it, and over each cell that an expression
/// of the list reads when it is evaluated. The program that is inferred for the tree with the same `k` is accepted.
///
/// Of what is accepted, with any number of threads, and in any order of their steps: no event is a fault for a missing lock, for a
/// section that was not entered, or for one that was left open (`safe`). So it is with each run by the instruction table (`sound`),
/// and each in which no section runs out of objects ends as one whose sections do not interleave, up to the numbers of objects: the
/// very same where no step inside a section is a `new`.
///
/// # Errors
///
/// The first fault, in the order of `CheckFault`; `OutOfMemory` of the inference where an allocation failed. Once it is known
/// what the sections need, no memory is asked for.
pub fn check(alloc: Global, ast: &Ast<'_>, program: &Program, k: u32) -> Result<(), CheckFault>
    requires { k ≤ 8 }
    ensures safe { IfOk result (λ _. (count : ℕ) (events : List Event) (end : State)
        → LeadsTo program.now count events end → All IsSafe (replies_in events)) }
    ensures checked { IfOk result (λ _. IsChecked (tree_of ast.now) k program.now) }
    ensures sound { IfOk result (λ _. NeverFaultsForLocks program.now) }
    ensures atomic { IfOk result (λ _. (count : ℕ) → HasSerialRuns program.now count) }
    ensures atomic_up_to_numbers { IfOk result (λ _. (count : ℕ) → HasSerialRunsUpTo program.now count) }
    ensures refused { IfErr result (IsRefusedLists (tree_of ast.now) k program.now) }
    ensures inferred { IsAccepted (tree_of ast.now) k → IsInferredFor (tree_of ast.now) k program.now → IfErr result IsOutOfMemory }
{
    let analysis = analyse(alloc, ast, k)?;
    if let Some(difference) = other_code(program, &analysis.lowering, &analysis.classes) {
        return Err(CheckFault::OtherCode(difference));
    }
    let lists = program.lists();
    cover(&analysis.lowering, &analysis.classes, &analysis.flow, lists)?;
    guard(&analysis.lowering, &analysis.classes, lists)
}
