//! What is known of a tree: its lowering, its classes, and what its sections need.
ghost use Rattle.std.specs.Prelude.{◌≤◌, IfOk, IfErr};
ghost use Rattle.asl_syntax.specs.AstView.{tree_of};
ghost use Rattle.asl_lower.specs.Lowered.{IsLowering};
ghost use Rattle.asl_lower.specs.LegalLowering.{IsLegalLowering};
ghost use Rattle.asl_points_to.specs.Classes.{AreClasses};
ghost use Rattle.asl_backward_flow.specs.Flows.{IsFlow};
ghost use Rattle.asl_emitter.specs.Refused.{IsAccepted, IsRefusedInference};

use asl_backward_flow::{Flow, needed};
use asl_emitter::InferFault;
use asl_lower::{Lowering, lower};
use asl_points_to::{Classes, classes};
use asl_syntax::Ast;
use std::alloc::Global;

/// The lowering of a tree, with its classes and its flow.
#[derive(Drop)]
pub struct CheckAnalysis {
    pub lowering: Lowering,
    pub classes: Classes,
    pub flow: Flow,
}

/// What is known of a tree, with paths of at most `k` operations.
pub fn analyse(alloc: Global, ast: &Ast<'_>, k: u32) -> Result<CheckAnalysis, InferFault>
    requires { k ≤ 8 }
    ensures lowering { IfOk result (λ a. IsLowering (tree_of ast.now) a.lowering) }
    ensures kept { IfOk result (λ a. IsLegalLowering a.lowering) }
    ensures classes { IfOk result (λ a. AreClasses a.lowering a.classes) }
    ensures flow { IfOk result (λ a. IsFlow a.lowering a.classes k a.flow) }
    ensures accepted { IfOk result (λ _. IsAccepted (tree_of ast.now) k) }
    ensures refused { IfErr result (IsRefusedInference (tree_of ast.now) k) }
{
    let lowering = lower(alloc, ast)?;
    let classes = classes(alloc, &lowering)?;
    let flow = needed(alloc, &lowering, &classes, k)?;
    Ok(CheckAnalysis {
        lowering,
        classes,
        flow,
    })
}
