//! All that the lists of a program lack.
ghost use Rattle.std.specs.Prelude.{◌≡◌, ◌≤◌, ◌↔◌, ℕ, [], ◌∷◌, List, IfOk, IfErr};
ghost use Rattle.asl_syntax.specs.AstView.{tree_of};
ghost use Rattle.asl_soundness.specs.Safe.{NeverFaultsForLocks};
ghost use Rattle.asl_atomicity.specs.Serial.{HasSerialRuns};
ghost use Rattle.asl_atomicity.specs.Renamed.{HasSerialRunsUpTo};
ghost use Rattle.asl_check.specs.declared.fault.CheckFault.{CheckFault as AnyFault};
ghost use Rattle.asl_check.specs.Refused.{IsChecked, IsRefusedLists};
ghost use Rattle.asl_check.specs.Missing.{LacksAll, IsBeforeLists};

use crate::check_analysis::analyse;
use crate::coded::other_code;
use crate::covered::judge;
use crate::fault::CheckFault;
use crate::lacks::lacks;
use asl_code::Program;
use asl_emitter::InferFault;
use asl_syntax::Ast;
use std::alloc::Global;

/// All that the lists of a program lack that is the tree's but for its lists: each as the refusal that names it, in the order in which
/// `check` judges. These are all locks that a section needs and that no lock of its list covers, but for those that another
/// lock that it needs absorbs, by sections and in the order of locks; and then all locks that the expressions of a list read and that no
/// lock of it covers, by sections and in the order in which they are read. The first is what `check` answers; there are none where
/// `check` accepts the program, and then all that `check` promises of it holds.
///
/// # Errors
///
/// What `check` answers before it judges lists; `OutOfMemory` of the inference also where an allocation for the answer failed.
pub fn missing(
    alloc: Global,
    ast: &Ast<'_>,
    program: &Program,
    k: u32,
) -> Result<Vec<CheckFault>, CheckFault>
    requires { k ≤ 8 }
    ensures all { IfOk result (λ faults. LacksAll (tree_of ast.now) k program.now faults.items) }
    ensures first { IfOk result (λ faults. (first : AnyFault) (rest : List AnyFault) → faults.items ≡ first ∷ rest
        → IsRefusedLists (tree_of ast.now) k program.now first) }
    ensures none { IfOk result (λ faults. (faults.items ≡ []) ↔ IsChecked (tree_of ast.now) k program.now) }
    ensures sound { IfOk result (λ faults. faults.items ≡ [] → NeverFaultsForLocks program.now) }
    ensures atomic { IfOk result (λ faults. faults.items ≡ [] → (count : ℕ) → HasSerialRuns program.now count) }
    ensures atomic_up_to_numbers { IfOk result (λ faults. faults.items ≡ [] → (count : ℕ) → HasSerialRunsUpTo program.now count) }
    ensures refused { IfErr result (IsRefusedLists (tree_of ast.now) k program.now) }
    ensures before { IfErr result IsBeforeLists }
{
    let analysis = analyse(alloc, ast, k)?;
    if let Some(difference) = other_code(program, &analysis.lowering, &analysis.classes) {
        return Err(CheckFault::OtherCode(difference));
    }
    let lists = program.lists();
    match judge(&analysis.lowering, &analysis.classes, &analysis.flow, lists) {
        Ok(()) => Ok(Vec::new(alloc)),
        Err(_first) => {
            match lacks(
                alloc,
                &analysis.lowering,
                &analysis.classes,
                &analysis.flow,
                lists,
            ) {
                Ok(faults) => Ok(faults),
                Err(_) => Err(CheckFault::Infer(InferFault::OutOfMemory)),
            }
        }
    }
}
