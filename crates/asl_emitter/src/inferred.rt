//! The program that is inferred for a tree.
ghost use Rattle.std.specs.Prelude.{◌≤◌, ℕ, IfOk, IfErr, OnOk};
ghost use Rattle.asl_syntax.specs.AstView.{tree_of};
ghost use Rattle.asl_lower.specs.LegalLowering.{IsLegalLowering};
ghost use Rattle.asl_points_to.specs.Classes.{AreClasses};
ghost use Rattle.asl_backward_flow.specs.Flows.{IsEntryFlow};
ghost use Rattle.asl_soundness.specs.Safe.{NeverFaultsForLocks};
ghost use Rattle.asl_atomicity.specs.Serial.{HasSerialRuns};
ghost use Rattle.asl_atomicity.specs.Renamed.{HasSerialRunsUpTo};
ghost use Rattle.asl_emitter.specs.Inferred.{IsInferredFor};
ghost use Rattle.asl_emitter.specs.Refused.{IsAccepted, IsRefusedInference};
ghost use Rattle.asl_emitter.specs.BuiltImage.{IsMade};

use crate::fault::InferFault;
use crate::inferred_image::{code, copied, lists};
use asl_backward_flow::{Flow, needed_at_entries};
use asl_code::{Image, NEWEST, Program};
use asl_lower::{Lowering, lower};
use asl_points_to::{Classes, classes};
use asl_syntax::Ast;
use std::alloc::{AllocError, Global};

/// The program of a tree whose sections ask for the locks that they need, where paths have at most `k` operations
/// (`docs/ANALYSIS.md`, "The inferred image"). With any number of threads, and in any order of their steps, it never faults for
/// want of a lock, for a section that was not entered, or for one left open; and each run in which no section runs out of objects
/// ends as one whose sections do not interleave, up to the numbers of objects: the very same where no step inside a section is a `new`
/// (`docs/SOUNDNESS.md`, `docs/ATOMICITY.md`).
///
/// # Errors
///
/// The first fault of lowering, of the classes and of the needed locks, in this order; `OutOfMemory` where an allocation failed.
pub fn infer(alloc: Global, ast: &Ast<'_>, k: u32) -> Result<Program, InferFault>
    requires { k ≤ 8 }
    ensures inferred { IfOk result (IsInferredFor (tree_of ast.now) k) }
    ensures accepted { IfOk result (λ _. IsAccepted (tree_of ast.now) k) }
    ensures sound { IfOk result NeverFaultsForLocks }
    ensures atomic { IfOk result (λ program. (count : ℕ) → HasSerialRuns program count) }
    ensures atomic_up_to_numbers { IfOk result (λ program. (count : ℕ) → HasSerialRunsUpTo program count) }
    ensures refused { IfErr result (IsRefusedInference (tree_of ast.now) k) }
{
    let lowering = lower(alloc, ast)?;
    let classes = classes(alloc, &lowering)?;
    let flow = needed_at_entries(alloc, &lowering, &classes, k)?;
    Ok(program(alloc, &lowering, &classes, &flow, k)?)
}

/// The program of a lowering with its classes and its flow.
fn program(
    alloc: Global,
    lowering: &Lowering,
    classes: &Classes,
    flow: &Flow,
    k: u32,
) -> Result<Program, AllocError>
    requires classes { AreClasses lowering.now classes.now }
    requires few { classes.now.count ≤ 1024 }
    requires flow { IsEntryFlow lowering.now classes.now k flow.now }
    ensures made { IfOk result (IsMade lowering.now classes.now flow.now) }
    ensures sound { IfOk result NeverFaultsForLocks }
    ensures atomic { IfOk result (λ program. (count : ℕ) → HasSerialRuns program count) }
    ensures atomic_up_to_numbers { IfOk result (λ program. (count : ℕ) → HasSerialRunsUpTo program count) }
{
    let image = image(alloc, lowering, classes, flow)?;
    match Program::verify(image) {
        Ok(program) => Ok(program),
        Err(_refused) => unreachable!(),
    }
}

/// The image of a lowering with its classes and its flow.
fn image(
    alloc: Global,
    lowering: &Lowering,
    classes: &Classes,
    flow: &Flow,
) -> Result<Image, AllocError>
    requires { AreClasses lowering.now classes.now }
    ensures made { IfOk result (IsMade lowering.now classes.now flow.now) }
    ensures kept { OnOk result (IsLegalLowering lowering.now) }
{
    Ok(Image {
        version: NEWEST,
        classes: u32::from(classes.count()),
        globals: copied(alloc, classes.globals())?,
        functions: copied(alloc, lowering.functions())?,
        start: lowering.main(),
        code: code(alloc, lowering.code(), classes)?,
        lists: lists(alloc, lowering, classes, flow)?,
    })
}
